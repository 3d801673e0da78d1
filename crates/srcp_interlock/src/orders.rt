//! Orders, written as lines of a command session.

ghost use Rattle.std.specs.Prelude.{◌≡◌, ◌+◌, ◌≤◌, ◌++◌, length, decimal};
ghost use Rattle.srcp_interlock.specs.Orders.{longest_begun, longest_words, order_line, set_line};

use srcp_routes::{Device, Order, Setting};
use srcp_text::{LineBuf, put_bytes, put_number};

/// The milliseconds after which a port that a box sets falls back to 0.
const PULSE: u64 = 250;

/// Returns the line of a command session, with its LF, in which a box sends an order. `own` is the bus of the box's
/// routes. The sensor on this bus with a route's number tells whether the route is set.
///
/// A turnout is thrown and a signal is shown by a port that falls back to 0 by itself. No port of these accessories
/// stays at 1, and the last port that was set to 1 tells where the accessory lies.
pub fn order_line(own: u8, order: Order) -> LineBuf
    ensures { result.items ≡ order_line own order }
{
    match order {
        Order::Lock(device) => lock_line(device),
        Order::Throw(setting) | Order::Show(setting) | Order::Stop(setting) => set_line(setting),
        Order::Report(number, is_set) => report_line(own, number, is_set),
        Order::Unlock(device) => unlock_line(device),
    }
}

/// Begins a line: a command word, a bus, group words, and an address.
fn begun(command: &[u8], bus: u8, group: &[u8], address: u32) -> LineBuf
    requires { length command.now + length group.now ≤ longest_words }
    ensures text { result.items ≡ command.now ++ decimal bus ++ group.now ++ decimal address }
    ensures few { length result.items ≤ longest_begun }
{
    let mut line = LineBuf::new();
    put_bytes(command, &mut line);
    put_number(u64::from(bus), &mut line);
    put_bytes(group, &mut line);
    put_number(u64::from(address), &mut line);
    line
}

fn lock_line(device: Device) -> LineBuf
    ensures { result.items ≡ order_line 0 (Order.Lock device) }
{
    let mut line = begun(b"SET ", device.bus, b" LOCK GA ", device.address);
    put_bytes(b" 0\n", &mut line);
    line
}

fn unlock_line(device: Device) -> LineBuf
    ensures { result.items ≡ order_line 0 (Order.Unlock device) }
{
    let mut line = begun(b"TERM ", device.bus, b" LOCK GA ", device.address);
    put_bytes(b"\n", &mut line);
    line
}

fn set_line(setting: Setting) -> LineBuf
    ensures { result.items ≡ set_line setting }
{
    let mut line = begun(b"SET ", setting.device.bus, b" GA ", setting.device.address);
    put_bytes(b" ", &mut line);
    put_number(u64::from(setting.port), &mut line);
    put_bytes(b" 1 ", &mut line);
    put_number(PULSE, &mut line);
    put_bytes(b"\n", &mut line);
    line
}

fn report_line(own: u8, number: u32, is_set: bool) -> LineBuf
    ensures { result.items ≡ order_line own (Order.Report number is_set) }
{
    let mut line = begun(b"SET ", own, b" FB ", number);
    put_bytes(if is_set { b" 1\n" } else { b" 0\n" }, &mut line);
    line
}

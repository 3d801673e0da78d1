//! Orders, written as lines.

ghost use Rattle.std.specs.Prelude.{◌≡◌, ◌+◌, ◌≤◌, ◌++◌, decimal, length};
ghost use Rattle.srcp_text.specs.Limits.{longest_written};
ghost use Rattle.srcp_drive.specs.Orders.{drive_text, function_text, longest_drive, longest_headed, longest_heads};
ghost use Rattle.srcp_drive.specs.Orders.{longest_name_word, longest_power_word, longest_put};
ghost use Rattle.srcp_drive.specs.Orders.{longest_told, longest_tells, name_text, name_word};
ghost use Rattle.srcp_drive.specs.Orders.{power_text, power_word, put_text, sense_text, set_text, station_drive};
ghost use Rattle.srcp_drive.specs.Orders.{station_speed};
ghost use Rattle.srcp_drive.specs.Orders.{tell_text, told, turnout_text, way_text};
ghost use Rattle.srcp_stations.specs.Said.{IsDrive};
ghost use Rattle.srcp_stations.specs.Tell.{IsTell};

use crate::engine::{Engine, cab_at};
use srcp_driver::{Drive, Put, Setting, Speed};
use srcp_stations::{GREATEST_STEP, GREATEST_TURNOUT, Tell, tell_line};
use srcp_text::{LineBuf, put_bytes, put_number};

/// The most functions of a locomotive.
pub(crate) const MOST_FUNCTIONS: usize = 29;

/// Returns the line in which the station is told something.
fn told(tell: Tell) -> LineBuf
    requires { IsTell tell }
    ensures text { result.items ≡ told tell }
    ensures few { length result.items ≤ longest_told }
{
    let mut line = LineBuf::new();
    put_bytes(b"tell ", &mut line);
    put_bytes(&tell_line(tell), &mut line);
    line
}

fn station_speed(speed: Speed) -> srcp_stations::Speed
    ensures { result ≡ station_speed speed }
{
    match speed {
        Speed::Halt => srcp_stations::Speed::Halt,
        Speed::Stand => srcp_stations::Speed::Stand,
        Speed::Step(0) => srcp_stations::Speed::Step(1),
        Speed::Step(step) if step > GREATEST_STEP => srcp_stations::Speed::Step(GREATEST_STEP),
        Speed::Step(step) => srcp_stations::Speed::Step(step),
    }
}

/// Returns the drive as a station is told it: a step that a station has not is the nearest one that it has.
fn station_drive(drive: Drive) -> srcp_stations::Drive
    ensures value { result ≡ station_drive drive }
    ensures valid { IsDrive result }
{
    srcp_stations::Drive {
        speed: station_speed(drive.speed),
        is_forward: drive.is_forward,
    }
}

/// Returns the lines in which the station is told an order of the driver. It is asked of a locomotive too, since it
/// reports changes alone.
pub(crate) fn tell_text(engines: &[Engine], tell: Option<srcp_driver::Tell>) -> LineBuf
    ensures text { result.items ≡ tell_text engines.now tell }
    ensures few { length result.items ≤ longest_tells }
{
    match tell {
        Some(srcp_driver::Tell::StopAll) => told(Tell::StopAll),
        Some(srcp_driver::Tell::Power(is_on)) => told(Tell::Power(is_on)),
        Some(srcp_driver::Tell::Cab(n, drive)) => match cab_at(engines, n) {
            Some(cab) => {
                let mut line = told(Tell::Cab(cab, station_drive(drive)));
                put_bytes(&told(Tell::Ask(cab)), &mut line);
                line
            }
            None => LineBuf::new(),
        },
        None => LineBuf::new(),
    }
}

/// Begins a line to the registry: a word, the bus, a group, and a number.
fn begun(word: &[u8], bus: u8, group: &[u8], number: u32) -> LineBuf
    requires { length word.now + length group.now ≤ longest_heads }
    ensures text { result.items ≡ word.now ++ decimal bus ++ group.now ++ decimal number }
    ensures few { length result.items ≤ longest_headed }
{
    let mut line = LineBuf::new();
    put_bytes(word, &mut line);
    put_number(u64::from(bus), &mut line);
    put_bytes(group, &mut line);
    put_number(u64::from(number), &mut line);
    line
}

fn power_word(is_on: bool) -> &'static [u8]
    ensures value { result.now ≡ power_word is_on }
    ensures few { length result.now ≤ longest_power_word }
{
    if is_on {
        b" POWER ON\n"
    } else {
        b" POWER OFF\n"
    }
}

fn power_text(bus: u8, is_on: bool) -> LineBuf
    ensures text { result.items ≡ power_text bus is_on }
    ensures few { length result.items ≤ longest_put }
{
    let mut line = LineBuf::new();
    put_bytes(b"put SET ", &mut line);
    put_number(u64::from(bus), &mut line);
    put_bytes(power_word(is_on), &mut line);
    line
}

fn way_text(is_forward: bool) -> &'static [u8]
    ensures { result.now ≡ way_text is_forward }
{
    if is_forward { b" 1" } else { b" 0" }
}

/// Appends the mode and the speed of a row.
fn put_drive(drive: Drive, line: &mut LineBuf)
    requires { length line.old.items + longest_drive ≤ longest_written }
    ensures text { line.new.items ≡ line.old.items ++ drive_text drive.is_forward drive.speed }
    ensures few { length line.new.items ≤ length line.old.items + longest_drive }
{
    match drive.speed {
        Speed::Halt => put_bytes(b" 2 0", line),
        Speed::Stand => {
            put_bytes(way_text(drive.is_forward), line);
            put_bytes(b" 0", line);
        }
        Speed::Step(step) => {
            put_bytes(way_text(drive.is_forward), line);
            line.push(b' ');
            put_number(u64::from(step), line);
        }
    }
}

fn set_text(bus: u8, cab: u32, drive: Drive) -> LineBuf
    ensures text { result.items ≡ set_text bus cab drive }
    ensures few { length result.items ≤ longest_put }
{
    let mut line = begun(b"put SET ", bus, b" GL ", cab);
    put_drive(drive, &mut line);
    put_bytes(b" 126\n", &mut line);
    line
}

fn name_word(is_silent: bool) -> &'static [u8]
    ensures value { result.now ≡ name_word is_silent }
    ensures few { length result.now ≤ longest_name_word }
{
    if is_silent { b"silent " } else { b"confirms " }
}

fn name_text(cab: u32, is_silent: bool) -> LineBuf
    ensures text { result.items ≡ name_text cab is_silent }
    ensures few { length result.items ≤ longest_put }
{
    let mut line = LineBuf::new();
    put_bytes(name_word(is_silent), &mut line);
    put_number(u64::from(cab), &mut line);
    put_bytes(b"\n", &mut line);
    line
}

/// Returns the line in which the registry is asked for what the driver wants set.
pub(crate) fn put_text(bus: u8, engines: &[Engine], put: Option<Put>) -> LineBuf
    ensures text { result.items ≡ put_text bus engines.now put }
    ensures few { length result.items ≤ longest_put }
{
    match put {
        Some(Put::Power(is_on)) => power_text(bus, is_on),
        Some(Put::Cab(n, drive)) => match cab_at(engines, n) {
            Some(cab) => set_text(bus, cab, drive),
            None => LineBuf::new(),
        },
        Some(Put::Silent(n, is_silent)) => match cab_at(engines, n) {
            Some(cab) => name_text(cab, is_silent),
            None => LineBuf::new(),
        },
        None => LineBuf::new(),
    }
}

/// Returns the line in which the station is told of a function.
pub(crate) fn function_text(engines: &[Engine], setting: Option<Setting>) -> LineBuf
    ensures text { result.items ≡ function_text engines.now setting }
    ensures few { length result.items ≤ longest_told }
{
    match setting {
        Some(setting) => match cab_at(engines, setting.place / MOST_FUNCTIONS) {
            Some(cab) => told(Tell::Function(
                cab,
                (setting.place % MOST_FUNCTIONS) as u8,
                setting.is_on,
            )),
            None => LineBuf::new(),
        },
        None => LineBuf::new(),
    }
}

/// Returns the line in which the station is told of a turnout.
pub(crate) fn turnout_text(setting: Option<Setting>) -> LineBuf
    ensures text { result.items ≡ turnout_text setting }
    ensures few { length result.items ≤ longest_told }
{
    match setting {
        Some(setting) if setting.place < GREATEST_TURNOUT as usize => {
            told(Tell::Turnout(setting.place as u32 + 1, setting.is_on))
        }
        _ => LineBuf::new(),
    }
}

/// Returns the line in which the registry is asked to set a sensor.
pub(crate) fn sense_text(bus: u8, number: u32, is_on: bool) -> LineBuf
    ensures { result.items ≡ sense_text bus number is_on }
{
    let mut line = begun(b"sense SET ", bus, b" FB ", number);
    put_bytes(if is_on { b" 1\n" } else { b" 0\n" }, &mut line);
    line
}

//! What a DCC-EX is told, written as a command.

ghost use Rattle.std.specs.Prelude.{◌≡◌, ◌+◌, ◌≤◌, ◌∷◌, ◌++◌, codes, length, decimal};
ghost use Rattle.srcp_text.specs.Limits.{longest_written};
ghost use Rattle.srcp_stations.specs.Limits.{longest_word};
ghost use Rattle.srcp_stations.specs.Tell.{speed_word, tell_line};
ghost use Rattle.srcp_stations.specs.declared.tell.Tell.{Tell};

use crate::drive::{Drive, Speed};
use crate::put::{begun, put_bit, put_numeral, put_word};
use crate::tell::Tell;
use srcp_text::{LineBuf, put_bytes};

/// Returns the command that tells a station this, with its LF.
///
/// ```
/// let drive = Drive { speed: Speed::Step(60), is_forward: true };
/// line.write(&tell_line(Tell::Cab(3, drive)))?; // <t 3 60 1>
/// ```
pub fn tell_line(tell: Tell) -> LineBuf
    ensures { result.items ≡ tell_line tell }
{
    match tell {
        Tell::StopAll => begun(b"<!>\n"),
        Tell::Power(is_on) => begun(if is_on { b"<1>\n" } else { b"<0>\n" }),
        Tell::Cab(cab, drive) => cab_line(cab, drive),
        Tell::Function(cab, number, is_on) => function_line(cab, number, is_on),
        Tell::Turnout(address, is_thrown) => turnout_line(address, is_thrown),
        Tell::Forget(cab) => ended(headed(b"<-", cab)),
        Tell::Ask(cab) => ended(headed(b"<t", cab)),
        Tell::Hello => begun(b"<s>\n"),
        Tell::Alive => begun(b"<#>\n"),
        Tell::Sensors => begun(b"<Q>\n"),
        Tell::ReadCv(cv) => ended(headed(b"<R", cv)),
        Tell::WriteCv(cv, value) => write_cv_line(cv, value),
    }
}

/// Begins a command with its first word and a number.
fn headed(head: &[u8], number: u32) -> LineBuf
    requires { length head.now ≤ longest_word }
    ensures items { result.items ≡ head.now ++ 32 ∷ decimal number }
    ensures few { length result.items ≤ longest_word + longest_word + 1 }
{
    let mut line = begun(head);
    put_numeral(number, &mut line);
    line
}

/// Ends a command.
fn ended(mut line: LineBuf) -> LineBuf
    requires { length line.items + longest_word ≤ longest_written }
    ensures { result.items ≡ line.items ++ codes ">\n" }
{
    put_bytes(b">\n", &mut line);
    line
}

fn put_speed(speed: Speed, line: &mut LineBuf)
    requires room { length line.old.items + longest_word + 1 ≤ longest_written }
    ensures items { line.new.items ≡ line.old.items ++ 32 ∷ speed_word speed }
    ensures few { length line.new.items ≤ length line.old.items + longest_word + 1 }
{
    match speed {
        Speed::Halt => put_word(b"-1", line),
        Speed::Stand => put_word(b"0", line),
        Speed::Step(step) => put_numeral(u32::from(step), line),
    }
}

fn cab_line(cab: u32, drive: Drive) -> LineBuf
    ensures { result.items ≡ tell_line (Tell.Cab cab drive) }
{
    let mut line = headed(b"<t", cab);
    put_speed(drive.speed, &mut line);
    put_bit(drive.is_forward, &mut line);
    ended(line)
}

fn function_line(cab: u32, number: u8, is_on: bool) -> LineBuf
    ensures { result.items ≡ tell_line (Tell.Function cab number is_on) }
{
    let mut line = headed(b"<F", cab);
    put_numeral(u32::from(number), &mut line);
    put_bit(is_on, &mut line);
    ended(line)
}

fn turnout_line(address: u32, is_thrown: bool) -> LineBuf
    ensures { result.items ≡ tell_line (Tell.Turnout address is_thrown) }
{
    let mut line = headed(b"<a", address);
    put_bit(is_thrown, &mut line);
    ended(line)
}

fn write_cv_line(cv: u32, value: u8) -> LineBuf
    ensures { result.items ≡ tell_line (Tell.WriteCv cv value) }
{
    let mut line = headed(b"<W", cv);
    put_numeral(u32::from(value), &mut line);
    ended(line)
}

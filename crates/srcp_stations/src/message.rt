//! What a DCC-EX says, written as a message.

ghost use Rattle.std.specs.Prelude.{◌≡◌, ◌+◌, ◌≤◌, ◌∷◌, ◌++◌, codes, decimal, length};
ghost use Rattle.srcp_text.specs.Limits.{longest_written};
ghost use Rattle.srcp_stations.specs.Limits.{longest_word};
ghost use Rattle.srcp_stations.specs.Said.{bits_word, drive_code, said_line, slot_word, IsDrive, IsSaid};
ghost use Rattle.srcp_stations.specs.declared.said.Said.{Said};

use crate::drive::{Drive, Speed};
use crate::limits::FORWARD_BIT;
use crate::put::{begun, put_numeral, put_word};
use crate::said::{CvValue, Report, Said, Track};
use srcp_text::{LineBuf, put_bytes, put_number};

/// The bit that makes a number with a sign one below 0.
const SIGN_BIT: u32 = 1 << 31;

/// Returns the message in which a station says this.
pub fn said_line(said: &Said) -> LineBuf
    requires { IsSaid said.now }
    ensures { result.items ≡ said_line said.now }
{
    match said {
        Said::Banner => begun(b"<iDCC>"),
        Said::Overload => begun(b"<*FAULT>"),
        Said::Sensor(number, is_on) => numbered(if *is_on { b"<Q" } else { b"<q" }, *number),
        Said::Slots(count) => numbered(b"<#", *count),
        Said::Power(track, is_on) => power_line(*track, *is_on),
        Said::Locomotive(report) => report_line(report),
        Said::Refused => begun(b"<X>"),
        Said::Cv(is_checked, cv, value) => cv_line(*is_checked, *cv, *value),
    }
}

/// Returns a message of a first word and a number.
fn numbered(head: &[u8], number: u32) -> LineBuf
    requires { length head.now ≤ longest_word }
    ensures { result.items ≡ head.now ++ 32 ∷ decimal number ++ codes ">" }
{
    let mut line = begun(head);
    put_numeral(number, &mut line);
    line.push(b'>');
    line
}

fn power_line(track: Track, is_on: bool) -> LineBuf
    requires { IsSaid (Said.Power track is_on) }
    ensures { result.items ≡ said_line (Said.Power track is_on) }
{
    let mut line = begun(if is_on { b"<p1" } else { b"<p0" });
    match track {
        Track::All => {}
        Track::Main => put_word(b"MAIN", &mut line),
        Track::Join => put_word(b"JOIN", &mut line),
        Track::Prog => put_word(b"PROG", &mut line),
        Track::Letter(place) => put_word(&[b'A' + place], &mut line),
    }
    line.push(b'>');
    line
}

fn cv_line(is_checked: bool, cv: u32, value: CvValue) -> LineBuf
    requires { IsSaid (Said.Cv is_checked cv value) }
    ensures { result.items ≡ said_line (Said.Cv is_checked cv value) }
{
    let mut line = begun(if is_checked { b"<v" } else { b"<r" });
    put_numeral(cv, &mut line);
    match value {
        CvValue::Is(value) => put_numeral(u32::from(value), &mut line),
        CvValue::Nobody => put_word(b"-1", &mut line),
        CvValue::CannotMeasure => put_word(b"-2", &mut line),
        CvValue::NoTrack => put_word(b"-3", &mut line),
    }
    line.push(b'>');
    line
}

fn put_slot(slot: Option<u32>, line: &mut LineBuf)
    requires room { length line.old.items + longest_word + 1 ≤ longest_written }
    ensures items { line.new.items ≡ line.old.items ++ 32 ∷ slot_word slot }
    ensures few { length line.new.items ≤ length line.old.items + longest_word + 1 }
{
    match slot {
        None => put_word(b"-1", line),
        Some(slot) => put_numeral(slot, line),
    }
}

/// Returns the code of a speed and a direction.
fn drive_code(drive: Drive) -> u32
    requires { IsDrive drive }
    ensures { result ≡ drive_code drive }
{
    let code = match drive.speed {
        Speed::Stand => 0,
        Speed::Halt => 1,
        Speed::Step(step) => u32::from(step) + 1,
    };
    if drive.is_forward {
        FORWARD_BIT + code
    } else {
        code
    }
}

/// Appends 32 bits as a number with a sign.
fn put_bits(bits: u32, line: &mut LineBuf)
    requires room { length line.old.items + longest_word + 1 ≤ longest_written }
    ensures items { line.new.items ≡ line.old.items ++ 32 ∷ bits_word bits }
    ensures few { length line.new.items ≤ length line.old.items + longest_word + 1 }
{
    if bits < SIGN_BIT {
        put_numeral(bits, line);
    } else {
        put_bytes(b" -", line);
        put_number(u64::from(bits.wrapping_neg()), line);
    }
}

fn report_line(report: &Report) -> LineBuf
    requires { IsSaid (Said.Locomotive report.now) }
    ensures { result.items ≡ said_line (Said.Locomotive report.now) }
{
    let mut line = begun(b"<l");
    put_numeral(report.cab, &mut line);
    put_slot(report.slot, &mut line);
    put_numeral(drive_code(report.drive), &mut line);
    put_bits(report.functions, &mut line);
    line.push(b'>');
    line
}

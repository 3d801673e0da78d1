//! Messages of a DCC-EX, read as what they say.

ghost use Rattle.std.specs.Prelude.{◌≡◌, ℕ, ◌^◌, ◌<◌, ◌≤◌, ◌≢◌, Bool, List, Option, IfSome};
ghost use Rattle.std.specs.List.{join_with_byte};
ghost use Rattle.srcp_stations.specs.Said.{bits_word, drive_code, said_line, slot_word, track_words, value_word};
ghost use Rattle.srcp_stations.specs.Said.{IsDrive, IsReport};
ghost use Rattle.srcp_stations.specs.Said.{IsSaid, Reads};
ghost use Rattle.srcp_stations.specs.Read.{head_of, head_word, more_words};
ghost use Rattle.srcp_stations.specs.declared.drive.Drive.{Drive};
ghost use Rattle.srcp_stations.specs.declared.said.Report.{Report};
ghost use Rattle.srcp_stations.specs.declared.said.Said.{Said};
ghost use Rattle.srcp_stations.specs.declared.said.Track.{Track};
ghost use Rattle.srcp_stations.specs.declared.said.CvValue.{CvValue};
ghost use Rattle.srcp_stations.specs.declared.read.Head.{Head};

use crate::drive::{Drive, Speed};
use crate::limits::FORWARD_BIT;
use crate::message::said_line;
use crate::said::{CvValue, Report, Said, Track, is_said};
use crate::scan::{inner, next_number, next_word, number_in};
use crate::text::{is_banner, is_overload, message_in};

/// Says of what a message speaks.
#[derive(Clone, Copy, PartialEq, Eq)]
pub(crate) enum Head {
    Sensor(bool),
    Slots,
    Power(bool),
    Locomotive,
    Refused,
    Cv(bool),
    Other,
}

/// Returns of what a message with this first word speaks.
fn head_named(word: &[u8]) -> Head
    ensures { (head : Head) → word.now ≡ head_word head → result ≡ head }
{
    match word {
        b"Q" => Head::Sensor(true),
        b"q" => Head::Sensor(false),
        b"#" => Head::Slots,
        b"p1" => Head::Power(true),
        b"p0" => Head::Power(false),
        b"l" => Head::Locomotive,
        b"X" => Head::Refused,
        b"v" => Head::Cv(true),
        b"r" => Head::Cv(false),
        _ => Head::Other,
    }
}

/// Returns the track that the words name behind that of the power.
fn track_named(words: &[u8]) -> Track
    ensures { (track : Track) → words.now ≡ join_with_byte 32 (track_words track) → result ≡ track }
{
    match words {
        b"" => Track::All,
        b"MAIN" => Track::Main,
        b"JOIN" => Track::Join,
        b"PROG" => Track::Prog,
        _ => Track::Letter(words[0].saturating_sub(b'A')),
    }
}

fn slot_in(word: &[u8]) -> Option<u32>
    ensures { (slot : Option ℕ) → IfSome slot (λ slot. slot < 2 ^ 32) → word.now ≡ slot_word slot → result ≡ slot }
{
    if word == b"-1".as_slice() {
        None
    } else {
        Some(number_in(word))
    }
}

fn drive_of(code: u32) -> Drive
    ensures { (drive : Drive) → IsDrive drive → code ≡ drive_code drive → result ≡ drive }
{
    let (is_forward, code) = if code < FORWARD_BIT {
        (false, code)
    } else {
        (true, code - FORWARD_BIT)
    };
    let speed = match code {
        0 => Speed::Stand,
        1 => Speed::Halt,
        _ => Speed::Step(u8::try_from(code - 1).unwrap_or(0)),
    };
    Drive { speed, is_forward }
}

fn bits_in(word: &[u8]) -> u32
    ensures { (bits : ℕ) → bits < 2 ^ 32 → word.now ≡ bits_word bits → result ≡ bits }
{
    if word.is_empty() || word[0] != b'-' {
        return number_in(word);
    }
    number_in(&word[1..]).wrapping_neg()
}

fn report_in(text: &[u8]) -> Report
    ensures { (report : Report) → IsReport report
        → text.now ≡ join_with_byte 32 (more_words (Said.Locomotive report)) → result ≡ report }
{
    let (cab, rest) = next_number(text);
    let (slot, rest) = next_word(rest);
    let (code, rest) = next_number(rest);
    Report {
        cab,
        slot: slot_in(slot),
        drive: drive_of(code),
        functions: bits_in(rest),
    }
}

fn value_in(word: &[u8]) -> CvValue
    ensures { (checked : Bool) (cv : ℕ) (value : CvValue) → IsSaid (Said.Cv checked cv value)
        → word.now ≡ value_word value → result ≡ value }
{
    if word == b"-1".as_slice() {
        CvValue::Nobody
    } else if word == b"-2".as_slice() {
        CvValue::CannotMeasure
    } else if word == b"-3".as_slice() {
        CvValue::NoTrack
    } else {
        CvValue::Is(u8::try_from(number_in(word)).unwrap_or(0))
    }
}

fn cv_in(is_checked: bool, text: &[u8]) -> Said
    ensures { (cv : ℕ) (value : CvValue) → IsSaid (Said.Cv is_checked cv value)
        → text.now ≡ join_with_byte 32 (more_words (Said.Cv is_checked cv value))
        → result ≡ Said.Cv is_checked cv value }
{
    let (cv, value) = next_number(text);
    Said::Cv(is_checked, cv, value_in(value))
}

/// Returns what the words of a message say, if they say something. Returns anything for any other bytes.
fn said_in(message: &[u8]) -> Said
    ensures { (said : Said) → IsSaid said → message.now ≡ said_line said → head_of said ≢ Head.Other → result ≡ said }
{
    let (word, rest) = next_word(inner(message));
    match head_named(word) {
        Head::Sensor(is_on) => Said::Sensor(number_in(rest), is_on),
        Head::Slots => Said::Slots(number_in(rest)),
        Head::Power(is_on) => Said::Power(track_named(rest), is_on),
        Head::Locomotive => Said::Locomotive(report_in(rest)),
        Head::Refused | Head::Other => Said::Refused,
        Head::Cv(is_checked) => cv_in(is_checked, rest),
    }
}

/// Returns what a message says, given with its `<` and its `>`. Returns `None` for bytes that say nothing of this, such
/// as a message that the line has damaged.
///
/// ```
/// if let Some(Said::Locomotive(report)) = read_said(b"<l 3 0 189 1>") {
///     show(report.cab, report.drive); // 3 drives forward at step 60, and F0 is on
/// }
/// ```
pub fn read_said(bytes: &[u8]) -> Option<Said>
    ensures { Reads bytes.now result }
{
    let message = message_in(bytes);
    if is_banner(message) {
        return Some(Said::Banner);
    }
    if is_overload(message) {
        return Some(Said::Overload);
    }
    let said = said_in(message);
    if !is_said(said) {
        return None;
    }
    let written = said_line(&said);
    if written.as_slice() == message {
        Some(said)
    } else {
        None
    }
}

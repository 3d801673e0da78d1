//! What each line tells.

ghost use Rattle.std.specs.Prelude.{◌≡◌, position};
ghost use Rattle.srcp_drive.specs.Hearing.{Hears, HearsPanel, HearsStation, coded, is_go, is_refusal, is_space};
ghost use Rattle.srcp_drive.specs.Hearing.{mark_in, mark_named, moment_heard, reply_heard, text_in};
ghost use Rattle.srcp_text.specs.Words.{words_of};

use srcp_info::{Change, read_change};
use srcp_stations::{Said, read_said};
use srcp_text::{Words, read_plain, words};

/// Says whose line it is: the word with which each line begins.
#[derive(Clone, Copy, Debug, PartialEq, Eq)]
enum Mark {
    /// A line of a panel.
    Panel,
    /// A reply of the command session.
    Reply,
    /// A message of the station.
    Station,
    /// A moment.
    Moment,
    /// The station is gone.
    Gone,
    /// The server is away for too long.
    Away,
    /// The station takes one thing more.
    Ready,
    /// None of these.
    Other,
}

/// Names what a line tells.
#[derive(Clone, Copy, Debug, PartialEq, Eq)]
pub enum Heard {
    /// A row of the registry is listed or has changed, or a device is gone.
    Changed(Change),
    /// A session of the panel has begun: the rows that follow are listed.
    Lists,
    /// A command session has begun.
    Joined,
    /// The registry has accepted or refused what it was asked.
    Replied(bool),
    /// The station says this.
    Says(Said),
    /// The station is gone: its line is closed, or it is silent.
    Gone,
    /// The server is away for too long.
    Away,
    /// The clock shows this many milliseconds.
    Moment(u64),
    /// The station takes one thing more.
    Ready,
}

/// Returns the offset of the first space of a line, if the line has one.
fn first_space(line: &[u8]) -> Option<usize>
    ensures { result ≡ position is_space line.now }
{
    line.iter().position(|byte| *byte == b' ')
}

/// Returns what stands before the first space of a line, and what stands behind that. Returns all of the line and
/// nothing if the line has no space.
fn parted(line: &[u8]) -> (&[u8], &[u8])
    ensures mark { result.0.now ≡ mark_in line.now }
    ensures text { result.1.now ≡ text_in line.now }
{
    match first_space(line) {
        Some(at) => (&line[..at], &line[at + 1..]),
        None => (line, &[]),
    }
}

/// Returns whose lines begin with a word.
fn mark_named(word: &[u8]) -> Mark
    ensures { result ≡ mark_named word.now }
{
    if word == b"panel".as_slice() {
        Mark::Panel
    } else if word == b"reply".as_slice() {
        Mark::Reply
    } else if word == b"station".as_slice() {
        Mark::Station
    } else if word == b"moment".as_slice() {
        Mark::Moment
    } else if word == b"gone".as_slice() {
        Mark::Gone
    } else if word == b"away".as_slice() {
        Mark::Away
    } else if word == b"ready".as_slice() {
        Mark::Ready
    } else {
        Mark::Other
    }
}

/// Returns whether these words of a reply, behind the code, say that a session begins.
fn is_go(mut words: Words<'_>) -> bool
    ensures { result ≡ is_go words.entry }
{
    let Some(_ok) = words.next() else {
        return false;
    };
    let Some(go) = words.next() else {
        return false;
    };
    words.next().is_some() && words.next().is_none() && go == b"GO".as_slice()
}

/// Returns whether a code is from 400 to 599.
fn is_refusal(code: &[u8]) -> bool
    ensures { result ≡ is_refusal code.now }
{
    match code.first() {
        Some(digit) => *digit == b'4' || *digit == b'5',
        None => false,
    }
}

/// Returns what a reply with this code and the words behind tells, if anything.
fn coded(code: &[u8], more: Words<'_>) -> Option<Heard>
    ensures { result ≡ coded code.now more.entry }
{
    if code == b"200".as_slice() {
        return Some(if is_go(more) {
            Heard::Joined
        } else {
            Heard::Replied(true)
        });
    }
    if is_refusal(code) {
        Some(Heard::Replied(false))
    } else {
        None
    }
}

/// Returns what a reply tells, if anything.
fn reply_heard(text: &[u8]) -> Option<Heard>
    ensures { result ≡ reply_heard (words_of text.now) }
{
    let mut words = words(text);
    let _stamp = words.next()?;
    let code = words.next()?;
    coded(code, words)
}

/// Returns what a line of a panel tells, if anything.
fn panel_heard(text: &[u8]) -> Option<Heard>
    ensures { HearsPanel text.now result }
{
    match read_change(text) {
        Some(change) => Some(Heard::Changed(change)),
        None => match reply_heard(text) {
            Some(Heard::Joined) => Some(Heard::Lists),
            _ => None,
        },
    }
}

/// Returns what a message of the station tells, if anything.
fn station_heard(text: &[u8]) -> Option<Heard>
    ensures { HearsStation text.now result }
{
    match read_said(text) {
        Some(said) => Some(Heard::Says(said)),
        None => None,
    }
}

/// Returns the moment that a text writes, if it writes one.
fn moment_heard(text: &[u8]) -> Option<Heard>
    ensures { result ≡ moment_heard text.now }
{
    match read_plain(text, u64::MAX) {
        Some(moment) => Some(Heard::Moment(moment)),
        None => None,
    }
}

/// Returns what a line tells, if anything.
pub(crate) fn hear(line: &[u8]) -> Option<Heard>
    ensures { Hears line.now result }
{
    let (mark, text) = parted(line);
    match mark_named(mark) {
        Mark::Panel => panel_heard(text),
        Mark::Reply => reply_heard(text),
        Mark::Station => station_heard(text),
        Mark::Moment => moment_heard(text),
        Mark::Gone => Some(Heard::Gone),
        Mark::Away => Some(Heard::Away),
        Mark::Ready => Some(Heard::Ready),
        Mark::Other => None,
    }
}

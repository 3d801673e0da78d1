//! A line of the handshake of SRCP 0.8, before the session.
ghost use Rattle.std.specs.Prelude.{◌≡◌};
ghost use Rattle.std.specs.Char.{is_ascii_digit};
ghost use Rattle.std.specs.List.{list_all};
ghost use Rattle.srcp_text.specs.Marks.{Line};
ghost use Rattle.srcp_core.specs.Handshake.{is_version, greets_protocol, greets_mode, greets};

use srcp_info::{Code, Mode};
use srcp_text::{Words, is_keyword, words};

// The definitions speak of this enum too: one type, not two.
/// Says what a line of the handshake asks for.
#[derive(Clone, Copy)]
pub(crate) enum Greeting {
    /// The line names the protocol of this server.
    Speaks,
    /// The line chooses the mode of the session to come.
    Chooses(Mode),
    /// The line begins the session.
    Goes,
    /// The line is refused.
    Refuses(Code),
}

/// Returns what the line asks for, or a refusal. The lines and their codes are those of SRCP 0.8. The lines may come in
/// any order.
pub(crate) fn greet(line: &[u8]) -> Greeting
    ensures { result ≡ greets (Line line.now) }
{
    let mut words = words(line);
    let Some(word) = words.next() else {
        return Greeting::Refuses(Code::UNKNOWN_COMMAND);
    };
    let Some(what) = words.next() else {
        return if is_keyword(b"GO", word) {
            Greeting::Goes
        } else {
            Greeting::Refuses(Code::UNKNOWN_COMMAND)
        };
    };
    if !is_keyword(b"SET", word) {
        return Greeting::Refuses(Code::UNKNOWN_COMMAND);
    }
    if is_keyword(b"PROTOCOL", what) {
        return greet_protocol(words);
    }
    if is_keyword(b"CONNECTIONMODE", what) {
        return greet_mode(words);
    }
    Greeting::Refuses(Code::UNKNOWN_COMMAND)
}

/// Reads the words after `SET PROTOCOL`.
fn greet_protocol(mut words: Words<'_>) -> Greeting
    ensures { result ≡ greets_protocol words.entry }
{
    let Some(name) = words.next() else {
        return Greeting::Refuses(Code::INSUFFICIENT_DATA);
    };
    let Some(version) = words.next() else {
        return Greeting::Refuses(Code::INSUFFICIENT_DATA);
    };
    if words.next().is_some() {
        return Greeting::Refuses(Code::UNKNOWN_COMMAND);
    }
    if is_keyword(b"SRCP", name) && is_version(version) {
        Greeting::Speaks
    } else {
        Greeting::Refuses(Code::UNSUPPORTED_PROTOCOL)
    }
}

/// Reads the words after `SET CONNECTIONMODE`.
fn greet_mode(mut words: Words<'_>) -> Greeting
    ensures { result ≡ greets_mode words.entry }
{
    let Some(name) = words.next() else {
        return Greeting::Refuses(Code::INSUFFICIENT_DATA);
    };
    let Some(mode) = words.next() else {
        return Greeting::Refuses(Code::INSUFFICIENT_DATA);
    };
    if words.next().is_some() {
        return Greeting::Refuses(Code::UNKNOWN_COMMAND);
    }
    if !is_keyword(b"SRCP", name) {
        return Greeting::Refuses(Code::UNSUPPORTED_MODE);
    }
    if is_keyword(b"COMMAND", mode) {
        return Greeting::Chooses(Mode::Command);
    }
    if is_keyword(b"INFO", mode) {
        return Greeting::Chooses(Mode::Info);
    }
    Greeting::Refuses(Code::UNSUPPORTED_MODE)
}

/// Returns whether the word is `0.8`, or `0.8.` and digits.
fn is_version(word: &[u8]) -> bool
    ensures { result ≡ is_version word.now }
{
    if word == b"0.8".as_slice() {
        return true;
    }
    if word.len() < 5 || &word[..4] != b"0.8.".as_slice() {
        return false;
    }
    are_digits(&word[4..])
}

/// Returns whether the text has only ASCII digits.
fn are_digits(text: &[u8]) -> bool
    ensures { result ≡ list_all is_ascii_digit text.now }
{
    text.iter().all(|byte| byte.is_ascii_digit())
}

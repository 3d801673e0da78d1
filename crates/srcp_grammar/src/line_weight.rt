//! The weight of a line: how many changes it can bring.

ghost use Rattle.std.specs.Prelude.{◌≡◌};
ghost use Rattle.srcp_grammar.specs.Weight.{names_session, weight};

use srcp_info::MOST_PORTS;
use srcp_text::{Words, is_keyword, words};

/// Limits the changes of a command: a lock and its device go, and an accessory gets its row and the rows of its ports.
pub const MOST_CHANGES: usize = 3 + MOST_PORTS as usize;

// The door weighs lines, and has no registry: so the words alone say the weight.
/// Returns how many changes a line of a command session can bring at most, by the words alone. Keywords are read in
/// capital or small letters.
/// - GET and CHECK bring none, nor does a line without words.
/// - SET brings 1.
/// - GO, a line of the handshake, brings 1: the row of the session.
/// - TERM 0 SESSION brings none, since what the end of a session changes is no change of the line.
/// - Any other line brings at most `MOST_CHANGES`.
pub fn weight(line: &[u8]) -> usize
    ensures { result ≡ weight line.now }
{
    let mut words = words(line);
    let Some(first) = words.next() else {
        return 0;
    };
    // SET is compared first, since most lines begin so.
    if is_keyword(b"SET", first) || is_keyword(b"GO", first) {
        return 1;
    }
    if is_keyword(b"GET", first) || is_keyword(b"CHECK", first) {
        return 0;
    }
    if is_keyword(b"TERM", first) && names_session(words) {
        return 0;
    }
    MOST_CHANGES
}

/// Returns whether the words begin with 0 SESSION.
fn names_session(mut words: Words<'_>) -> bool
    ensures { result ≡ names_session words.entry }
{
    let (Some(bus), Some(group)) = (words.next(), words.next()) else {
        return false;
    };
    bus == b"0".as_slice() && is_keyword(b"SESSION", group)
}

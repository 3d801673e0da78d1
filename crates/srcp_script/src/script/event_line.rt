//! A line of a script: a word and what follows the word, parted by a single space each.

ghost use Rattle.std.specs.Prelude.{◌≡◌, ◌≢◌, ◌∷◌, [], length, MatchResult, Ok, Err};
ghost use Rattle.std.specs.Option.{option_copied};
ghost use Rattle.srcp_script.specs.Script.{event_of, open_line, bytes_line, room_line, at_line, shut_line, connection};
ghost use Rattle.srcp_script.specs.Script.{size, moment, parts_behind};

use crate::cut::cut_at;
use crate::script::Cause;
use crate::script::escape::unescape;
use srcp_core::{Event, Piece};
use srcp_text::{read_number, read_plain};
use std::alloc::Global;

/// Reads the event of a line.
///
/// # Errors
/// Returns the first fault of the line from left to right, and `Memory` if memory is refused.
pub(super) fn read_event(alloc: Global, line: &[u8]) -> Result<Event, Cause>
    ensures { MatchResult result
        (λ event. event_of line.now ≡ Ok event)
        (λ cause. cause ≢ Cause.Memory → event_of line.now ≡ Err cause) }
{
    let (word, rest) = cut_at(b' ', line);
    // Event words are in lower case alone.
    match word {
        b"open" => open_line(rest),
        b"bytes" => bytes_line(alloc, rest),
        b"room" => room_line(rest),
        b"at" => at_line(rest),
        b"shut" => shut_line(rest),
        _ => Err(Cause::Word),
    }
}

#[tactic(auto, using(crate::proofs::Cuts::open_more))]
fn open_line(rest: Option<&[u8]>) -> Result<Event, Cause>
    ensures { result ≡ open_line (parts_behind 32 (option_copied rest.entry)) }
{
    match rest {
        None => Ok(Event::Open),
        Some(_) => Err(Cause::Number),
    }
}

#[tactic(auto, using(crate::proofs::Cuts::bytes_text))]
fn bytes_line(alloc: Global, rest: Option<&[u8]>) -> Result<Event, Cause>
    ensures { MatchResult result
        (λ event. bytes_line (parts_behind 32 (option_copied rest.entry)) ≡ Ok event)
        (λ cause. cause ≢ Cause.Memory → bytes_line (parts_behind 32 (option_copied rest.entry)) ≡ Err cause) }
{
    let (number, rest) = next_part(rest)?;
    let conn = read_connection(number)?;
    let text = rest.ok_or(Cause::Number)?;
    let bytes = unescape(alloc, text)?;
    Ok(Event::Bytes {
        conn,
        piece: Piece::new(bytes),
    })
}

fn room_line(rest: Option<&[u8]>) -> Result<Event, Cause>
    ensures { result ≡ room_line (parts_behind 32 (option_copied rest.entry)) }
{
    let (conn, rest) = next_part(rest)?;
    let conn = read_connection(conn)?;
    let bytes = read_size(last_part(rest)?)?;
    Ok(Event::Room { conn, bytes })
}

fn at_line(rest: Option<&[u8]>) -> Result<Event, Cause>
    ensures { result ≡ at_line (parts_behind 32 (option_copied rest.entry)) }
{
    let moment = read_moment(last_part(rest)?)?;
    Ok(Event::At(moment))
}

fn shut_line(rest: Option<&[u8]>) -> Result<Event, Cause>
    ensures { result ≡ shut_line (parts_behind 32 (option_copied rest.entry)) }
{
    let conn = read_connection(last_part(rest)?)?;
    Ok(Event::Shut { conn })
}

/// Returns the next part, and what follows this part. Returns `Number` if the part is missing.
fn next_part(rest: Option<&[u8]>) -> Result<(&[u8], Option<&[u8]>), Cause>
    ensures { MatchResult result
        (λ next. parts_behind 32 (option_copied rest.entry) ≡ next.0.now ∷ parts_behind 32 (option_copied next.1))
        (λ cause. (cause ≡ Cause.Number) × (parts_behind 32 (option_copied rest.entry) ≡ [])) }
{
    match rest {
        Some(text) => Ok(cut_at(b' ', text)),
        None => Err(Cause::Number),
    }
}

/// Returns the only part left. Returns `Number` if there is none, or another follows.
#[tactic(auto, using(crate::proofs::Cuts::some_part))]
fn last_part(rest: Option<&[u8]>) -> Result<&[u8], Cause>
    ensures { MatchResult result
        (λ part. parts_behind 32 (option_copied rest.entry) ≡ part.now ∷ [])
        (λ cause. (cause ≡ Cause.Number) × (length (parts_behind 32 (option_copied rest.entry)) ≢ 1)) }
{
    match next_part(rest)? {
        (part, None) => Ok(part),
        // An empty part counts: `shut 1 ` with a space at its end has a wrong number.
        (_, Some(_)) => Err(Cause::Number),
    }
}

/// Reads the number of a connection, from 1 to the greatest u32.
fn read_connection(part: &[u8]) -> Result<usize, Cause>
    ensures { result ≡ connection part.now }
{
    match read_number(part, u32::MAX) {
        Some(number) if number > 0 => Ok(number as usize),
        _ => Err(Cause::Number),
    }
}

/// Reads a number of bytes, at most the greatest u32.
fn read_size(part: &[u8]) -> Result<usize, Cause>
    ensures { result ≡ size part.now }
{
    match read_number(part, u32::MAX) {
        Some(number) => Ok(number as usize),
        None => Err(Cause::Number),
    }
}

/// Reads a moment, any number of 64 bits. Leading zeros are allowed.
fn read_moment(part: &[u8]) -> Result<u64, Cause>
    ensures { result ≡ moment part.now }
{
    let mut digits = part;
    while let [b'0', behind @ ..] = digits
        && !behind.is_empty()
    {
        digits = behind;
    }
    read_plain(digits, u64::MAX).ok_or(Cause::Number)
}

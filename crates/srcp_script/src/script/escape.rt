//! Escapes in a text of a script.

ghost use Rattle.std.specs.Prelude.{◌≡◌, ◌≢◌, ◌+◌, ◌*◌, ◌<◌, ◌∷◌, length, IfOk, IfErr, IfSome, MatchOption, Some, None};
ghost use Rattle.std.specs.Char.{digit_value};
ghost use Rattle.std.specs.Option.{SomeIff};
ghost use Rattle.srcp_script.specs.Script.{unescaped, after};

use crate::cut::cut_at;
use crate::script::Cause;
use std::alloc::Global;
use std::vec::Vec;

/// Returns the bytes of a text with escapes. `\n`, `\r`, `\t`, `\\` and `\xHH` stand for one byte each, and any other
/// byte for itself.
///
/// # Errors
/// Returns `Escape` if something else follows a backslash, and `Memory` if memory is refused.
pub(super) fn unescape(alloc: Global, text: &[u8]) -> Result<Vec<u8>, Cause>
    ensures bytes { IfOk result (λ bytes. unescaped text.now ≡ Some bytes.items) }
    ensures causes { IfErr result (λ cause. cause ≢ Cause.Memory → cause ≡ Cause.Escape) }
    ensures refused { IfErr result (λ cause. cause ≢ Cause.Memory → unescaped text.now ≡ None) }
{
    // The text has at least as many bytes as the result.
    let mut bytes = Vec::with_capacity(alloc, text.len()).map_err(|_| Cause::Memory)?;
    let mut rest = text;
    loop {
        let (plain, escape) = cut_at(b'\\', rest);
        bytes.extend_from_slice(plain).map_err(|_| Cause::Memory)?;
        let Some(escape) = escape else {
            return Ok(bytes);
        };
        let (byte, behind) = escaped_byte(escape).ok_or(Cause::Escape)?;
        bytes.push(byte).map_err(|_| Cause::Memory)?;
        rest = behind;
    }
}

/// Returns the byte of the escape whose backslash stands before this text, and what follows the escape.
fn escaped_byte(text: &[u8]) -> Option<(u8, &[u8])>
    ensures first { MatchOption result (unescaped (92 ∷ text.now) ≡ None) (λ first.
        unescaped (92 ∷ text.now) ≡ after first.0 (unescaped first.1.now)) }
    ensures shorter { IfSome result (λ first. length first.1.now < length text.now) }
{
    let [letter, behind @ ..] = text else {
        return None;
    };
    match letter {
        b'n' => Some((b'\n', behind)),
        b'r' => Some((b'\r', behind)),
        b't' => Some((b'\t', behind)),
        b'\\' => Some((b'\\', behind)),
        b'x' => hex_byte(behind),
        _ => None,
    }
}

/// Returns the byte of the first two hexadecimal digits, and what follows them.
fn hex_byte(text: &[u8]) -> Option<(u8, &[u8])>
    ensures first { MatchOption result (unescaped (92 ∷ 120 ∷ text.now) ≡ None) (λ first.
        unescaped (92 ∷ 120 ∷ text.now) ≡ after first.0 (unescaped first.1.now)) }
    ensures shorter { IfSome result (λ first. length first.1.now < length text.now) }
{
    if text.len() < 2 {
        return None;
    }
    match byte_of_digits(text[0], text[1]) {
        Some(byte) => Some((byte, &text[2..])),
        None => None,
    }
}

/// Returns the byte of two hexadecimal digits, each in upper or lower case.
fn byte_of_digits(high: u8, low: u8) -> Option<u8>
    ensures { SomeIff result ((digit_value high < 16) × (digit_value low < 16))
        (digit_value high * 16 + digit_value low) }
{
    let high = char::from(high).to_digit(16)?;
    let low = char::from(low).to_digit(16)?;
    Some((high * 16 + low) as u8)
}

//! A text, cut at a byte.

ghost use Rattle.std.specs.Prelude.{◌≡◌, ◌==◌, ◌<◌, ◌∷◌, ◌++◌, [], false, length, position, IfSome};
ghost use Rattle.std.specs.List.{slice_split, list_any};
ghost use Rattle.std.specs.Option.{option_copied, option_map_or};
ghost use Rattle.srcp_script.specs.Script.{parts_behind};

use memchr::memchr;

/// Cuts a text at the first byte of this value. Returns the part before that byte, and the part behind, or `None` if
/// the text has no such byte. Then the first part is the whole text.
#[inline(always)]
pub fn cut_at(byte: u8, text: &[u8]) -> (&[u8], Option<&[u8]>)
    ensures parts { slice_split (λ b. b == byte) text.now
        ≡ result.0.now ∷ parts_behind byte (option_copied result.1) }
    ensures whole { text.now
        ≡ result.0.now ++ option_map_or (λ behind. byte ∷ behind.now) result.1 [] }
    ensures clear { list_any (λ b. b == byte) result.0.now ≡ false }
    ensures shorter { IfSome result.1 (λ behind. length behind.now < length text.now) }
{
    match find_byte(byte, text) {
        Some(index) => (&text[..index], Some(&text[index + 1..])),
        None => (text, None),
    }
}

/// Returns the offset of the first byte of this value. Looks for a space byte by byte, since the words of a script
/// are short.
#[inline(always)]
fn find_byte(byte: u8, text: &[u8]) -> Option<usize>
    ensures { result ≡ position (λ b. b == byte) text.now }
{
    if byte == b' ' {
        text.iter().position(|at| *at == byte)
    } else {
        memchr(byte, text)
    }
}

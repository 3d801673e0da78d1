//! The words of a message in order.

ghost use Rattle.std.specs.Prelude.{◌≡◌, ℕ, ◌^◌, ◌<◌, ◌++◌, ◌∷◌, List, false, codes, decimal, position, ◌==◌};
ghost use Rattle.std.specs.List.{join_with_byte, list_any, before_first, after_first};
ghost use Rattle.srcp_stations.specs.Read.{is_space};

use srcp_text::read_number;

/// Returns what stands between the first byte and the last.
pub(crate) fn inner(message: &[u8]) -> &[u8]
    ensures { (words : List ℕ) → message.now ≡ 60 ∷ words ++ codes ">" → result.now ≡ words }
{
    match message.split_first() {
        Some((_, behind)) => {
            match behind.split_last() {
                Some((_, inner)) => inner,
                None => &[],
            }
        }
        None => &[],
    }
}

/// Returns the offset of the first space, or `None` if the text has none.
fn place_of_space(text: &[u8]) -> Option<usize>
    ensures { result ≡ position is_space text.now }
{
    text.iter().position(|byte| *byte == b' ')
}

/// Returns what stands before the first space, and what stands behind it. Returns all of the text and nothing if there
/// is no space.
fn cut(text: &[u8]) -> (&[u8], &[u8])
    ensures before { result.0.now ≡ before_first is_space text.now }
    ensures after { result.1.now ≡ after_first is_space text.now }
{
    match place_of_space(text) {
        Some(at) => (&text[..at], &text[at + 1..]),
        None => (text, &[]),
    }
}

/// Returns the first word, and the text after the space behind the word.
pub(crate) fn next_word(text: &[u8]) -> (&[u8], &[u8])
    ensures { (word : List ℕ) (others : List (List ℕ)) → list_any is_space word ≡ false
        → text.now ≡ join_with_byte 32 (word ∷ others)
        → (result.0.now ≡ word) × (result.1.now ≡ join_with_byte 32 others) }
{
    cut(text)
}

/// Returns the number that a word writes, and 0 for any other word.
pub(crate) fn number_in(word: &[u8]) -> u32
    ensures { (number : ℕ) → number < 2 ^ 32 → word.now ≡ decimal number → result ≡ number }
{
    read_number(word, u32::MAX).unwrap_or(0)
}

/// Returns the first word as a number, and the text after the space behind the word.
pub(crate) fn next_number(text: &[u8]) -> (u32, &[u8])
    ensures { (number : ℕ) (others : List (List ℕ)) → number < 2 ^ 32
        → text.now ≡ join_with_byte 32 (decimal number ∷ others)
        → (result.0 ≡ number) × (result.1.now ≡ join_with_byte 32 others) }
{
    let (word, rest) = next_word(text);
    (number_in(word), rest)
}

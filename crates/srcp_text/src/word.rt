//! The words of a line: what stands between spaces and tabs.

ghost use Rattle.std.specs.Prelude.{◌≡◌, ◌<◌, ◌≤◌, false, length, position, slice_index};
ghost use Rattle.std.specs.List.{position_or_len};
ghost use Rattle.srcp_text.specs.Words.{is_blank, is_filled, is_keyword, words_of};

use crate::iter::Words;

/// Returns the words of a line, in order. Runs of spaces and tabs separate words, also at both ends of the line. Every
/// other byte belongs to a word.
pub fn words(line: &[u8]) -> Words<'_>
    ensures words { result ≡ words_of line.now }
    // A line has no more words than bytes.
    ensures few { length result ≤ length line.now }
{
    Words::of(line)
}

/// Returns whether the word is the keyword, in capital or small letters.
pub fn is_keyword(keyword: &[u8], word: &[u8]) -> bool
    ensures { result ≡ is_keyword keyword.now word.now }
{
    keyword.eq_ignore_ascii_case(word)
}

// Returns the offset at which the first word of a text begins.
pub(crate) fn first_filled(text: &[u8]) -> Option<usize>
    ensures { result ≡ position is_filled text.now }
{
    text.iter().position(|byte| !is_blank_byte(*byte))
}

// Returns how many bytes the first word has of a text that begins with it.
pub(crate) fn word_len(text: &[u8]) -> usize
    requires some { 0 < length text.now }
    requires begun { is_blank (slice_index text.now 0) ≡ false }
    ensures { result ≡ position_or_len is_blank text.now }
{
    let mut len = 1;
    while len < text.len() && !is_blank_byte(text[len]) {
        len += 1;
    }
    len
}

// Returns whether a byte parts words: space and tab do.
fn is_blank_byte(byte: u8) -> bool
    ensures { result ≡ is_blank byte }
{
    byte == b' ' || byte == b'\t'
}

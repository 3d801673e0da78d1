//! The iterator over the words of a line.

ghost use Rattle.std.specs.Prelude.{◌≡◌, [], ◌∷◌, MatchOption};
ghost use Rattle.std.specs.Iterator.{YieldsFirstRef, item_count};
ghost use Rattle.srcp_text.specs.Words.{bit_word, words_of};

use crate::word::{first_filled, word_len};
use std::marker::Model;

/// Iterates over the words of a line that are still to come. Contracts see the list of these words.
#[derive(Debug, Drop)]
pub struct Words<'a> {
    rest: &'a [u8],
}

impl<'a> Model for Words<'a> {
    ghost use Rattle.std.specs.Prelude.{ℕ, List};
    ghost use Rattle.srcp_text.specs.Words.{words_of};

    ghost Value = { List (List ℕ) };

    ghost view = { λ w. words_of w.rest.now };
}

impl<'a> Words<'a> {
    // Makes the iterator over all words of a line.
    pub(crate) fn of(line: &'a [u8]) -> Words<'a>
        ensures { result ≡ words_of line.now }
    {
        Words { rest: line }
    }

    /// Takes the next word if 0 or 1 stands between two single spaces, as most functions of a locomotive are written.
    /// Returns `None` for any other text, and then takes nothing.
    /// This call takes fewer instructions than `next`, which takes any word.
    #[inline(always)]
    pub fn next_bit(&mut self) -> Option<bool>
        ensures { MatchOption result (self.new ≡ self.old) (λ bit. self.old ≡ bit_word bit ∷ self.new) }
    {
        if self.rest.len() < 3 || self.rest[0] != b' ' || self.rest[2] != b' ' {
            return None;
        }
        let byte = self.rest[1];
        if byte != b'0' && byte != b'1' {
            return None;
        }
        self.rest = &self.rest[2..];
        Some(byte == b'1')
    }
}

impl<'a> Iterator for Words<'a> {
    type Item = &'a [u8];

    ghost next_gives = { YieldsFirstRef (λ left. left) };

    ghost remaining = { item_count (λ left. left) };

    fn next(&mut self) -> Option<&'a [u8]> {
        let begun = &self.rest[first_filled(self.rest)?..];
        let (word, rest) = begun.split_at(word_len(begun));
        self.rest = rest;
        Some(word)
    }
}

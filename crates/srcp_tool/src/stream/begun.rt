//! A line whose LF is still to come.

ghost use Rattle.std.specs.Prelude.{◌≡◌, ◌<◌, ◌++◌, ℕ, List, [], length, MatchOption};
ghost use Rattle.srcp_tool.specs.Mirroring.{IsBegun};

use arrayvec::ArrayVec;
use srcp_info::LONGEST_LINE;
use srcp_text::put_bytes;

/// Holds the bytes of a line without an LF yet, as far as they may be those of an information line.
#[derive(Drop)]
pub(super) struct BegunLine {
    bytes: ArrayVec<u8, LONGEST_LINE>,
    too_long: bool,
}

impl BegunLine {
    /// Makes a line of no byte.
    pub(super) fn new() -> BegunLine
        ensures { IsBegun result [] }
    {
        BegunLine {
            bytes: ArrayVec::new(),
            too_long: false,
        }
    }

    /// Appends more bytes of the line.
    pub(super) fn add(&mut self, text: &[u8])
        ensures { (before : List ℕ) → IsBegun self.old before → IsBegun self.new (before ++ text.now) }
    {
        if text.len() <= LONGEST_LINE - self.bytes.len() {
            put_bytes(text, &mut self.bytes);
        } else {
            self.too_long = true;
        }
    }

    /// Returns the line. Returns `None` if the line has more than `LONGEST_LINE` bytes, too many for a change.
    pub(super) fn line(&self) -> Option<&[u8]>
        ensures { (text : List ℕ) → IsBegun self.now text
            → MatchOption result (LONGEST_LINE < length text) (λ line. line.now ≡ text) }
    {
        if self.too_long {
            None
        } else {
            Some(&self.bytes)
        }
    }
}

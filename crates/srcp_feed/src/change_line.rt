//! A change with its line.

ghost use Rattle.std.specs.Prelude.{◌≡◌, ◌≤◌, take};
ghost use Rattle.arrayvec.specs.ArrayVec.{array_vec_len};
ghost use Rattle.srcp_info.specs.Line.{line};
ghost use Rattle.srcp_info.specs.WellFormed.{IsWellFormed};

use srcp_info::{Change, InfoLine, LINE_CAPACITY, LONGEST_LINE, read_change, write_change};
use std::marker::Model;

/// Lends a change, and holds the change as it waits: as its line if written. All panels then share the line. Contracts
/// see the change alone.
///
/// ```
/// let told = ChangeLine::new(&change);
/// for panel in panels {
///     panel.tell_line(&told);
/// }
/// ```
#[derive(Drop)]
pub struct ChangeLine<'a> {
    change: &'a Change,
    waiting: Waiting,
}

impl<'a> Model for ChangeLine<'a> {
    ghost use Rattle.std.specs.Prelude.{◌≡◌};
    ghost use Rattle.srcp_info.specs.declared.change.Change.{Change};

    ghost Value = { Change };

    ghost view = { λ c. c.change.now };

    ghost invariant = { λ c. c.waiting ≡ c.change.now };
}

impl<'a> ChangeLine<'a> {
    /// Writes the line of a change. Holds the line, and lends the change.
    pub fn new(change: &'a Change) -> ChangeLine<'a>
        requires { IsWellFormed change.now }
        ensures { result ≡ change.now }
    {
        let mut line = InfoLine::new();
        write_change(change, &mut line);
        let bytes = slot_of(&line);
        let len = line.len();
        ChangeLine {
            change,
            waiting: Waiting {
                held: Held::Line { len, bytes },
            },
        }
    }

    /// Lends a change whose line is not written.
    pub(crate) fn without_line(change: &'a Change) -> ChangeLine<'a>
        ensures { result ≡ change.now }
    {
        ChangeLine {
            change,
            waiting: Waiting {
                held: Held::Change(*change),
            },
        }
    }

    /// Lends the change.
    pub fn change(&self) -> &Change
        ensures { result.now ≡ self.now }
    {
        self.change
    }

    /// Lends the change as it waits.
    pub(crate) fn waiting(&self) -> &Waiting
        ensures { result.now ≡ self.now }
    {
        &self.waiting
    }
}

/// Holds a waiting change. Contracts see the change alone.
#[derive(Drop)]
pub struct Waiting {
    held: Held,
}

/// Holds a change: its line if written, else the change itself.
#[derive(Drop)]
enum Held {
    // The first `len` bytes are the line. A slot of the queue is copied for each panel, and a plain array is copied by
    // a few moves, where an `ArrayVec` is copied byte by byte. With `len` in front the moves are of 16 bytes each.
    Line {
        len: usize,
        bytes: [u8; LINE_CAPACITY],
    },
    Change(Change),
}

impl Model for Waiting {
    ghost use Rattle.srcp_info.specs.declared.change.Change.{Change};
    ghost use Rattle.srcp_feed.specs.Waiting.{change_of, IsLine};

    ghost Value = { Change };

    ghost view = { λ w. change_of w.held };

    ghost invariant = { λ w. IsLine w.held };
}

impl Waiting {
    /// Returns a copy.
    #[inline(always)]
    pub(crate) fn copied(&self) -> Waiting
        ensures { result ≡ self.now }
    {
        let held = match &self.held {
            Held::Line { len, bytes } => Held::Line {
                len: *len,
                bytes: *bytes,
            },
            Held::Change(change) => Held::Change(*change),
        };
        Waiting { held }
    }

    /// Returns the change, read from the line if a line was written.
    pub fn change(&self) -> Change
        ensures { result ≡ self.now }
    {
        match &self.held {
            Held::Line { len, bytes } => {
                let line = &bytes[..*len];
                match read_change(&line[..line.len() - 1]) {
                    Some(change) => change,
                    None => unreachable!(),
                }
            }
            Held::Change(change) => *change,
        }
    }

    /// Puts the change's line into `to`: a copy, or written there if no line was written.
    pub fn put_into(&self, to: &mut InfoLine)
        requires { IsWellFormed self.now }
        ensures line { to.new.items ≡ line self.now }
        ensures most { array_vec_len to.new ≤ LONGEST_LINE }
    {
        match &self.held {
            Held::Line { len, bytes } => {
                let line = &bytes[..*len];
                if to.len() == line.len() {
                    // Lines of one device are mostly as long as the line before. `new` would set all bytes to 0.
                    to.as_mut_slice().copy_from_slice(line);
                } else {
                    *to = InfoLine::new();
                    to.try_extend_from_slice(line).unwrap();
                }
            }
            Held::Change(change) => {
                *to = InfoLine::new();
                write_change(change, to);
            }
        }
    }
}

/// Returns the bytes of a line, with others behind them.
fn slot_of(line: &InfoLine) -> [u8; LINE_CAPACITY]
    ensures { take (array_vec_len line.now) result ≡ line.now.items }
{
    let mut slot = [0; LINE_CAPACITY];
    slot[..line.len()].copy_from_slice(line);
    slot
}

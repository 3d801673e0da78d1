//! The log of a core. Clauses alone read the log, which takes no memory and no instruction.

ghost use Rattle.std.specs.Prelude.{◌≡◌, ℕ, Bool, List, [], Option};
ghost use Rattle.std.specs.Borrow.{ftrue};
ghost use Rattle.srcp_core.specs.Under.{Event};

use std::marker::Model;

/// Holds the events of a core with the answers of memory, and the key of each connection, for clauses alone.
#[derive(Drop)]
pub(crate) struct Log {
    /// The events, the first one first.
    pub(crate) ghost events: { List Event },
    /// The keys, by the numbers of the connections. A closed connection has none.
    pub(crate) ghost keys: { List (Option ℕ) },
    /// The answers of memory to the lines of the piece that is read.
    pub(crate) ghost grants: { List Bool },
}

impl Model for Log {
    ghost also_owns = { λ _. ftrue };
}

/// Names an event of the log.
#[derive(Clone, Copy, Drop)]
pub(crate) enum Note<'a> {
    /// The time advanced to a moment.
    At(u64),
    /// A connection was opened under the key.
    Opened(usize),
    /// No connection was opened; false if memory was refused.
    NotOpened(bool),
    /// Memory answered a line of the piece.
    Granted(bool),
    /// The piece came in on the connection with the key.
    Bytes(usize, &'a [u8]),
    /// There was room for so many bytes of the connection with the key.
    Room(usize, usize),
    /// The connection with the key was hung up.
    Shut(usize),
}

impl Log {
    ghost use Rattle.srcp_core.specs.Notes.{no_log, noted};

    /// Makes a log without an event.
    pub(crate) fn new() -> Log
        ensures { result ≡ no_log }
    {
        Log {}
    }

    /// Adds an event at the end.
    #[inline(always)]
    pub(crate) fn note(&mut self, _note: &Note<'_>)
        ensures { self.new ≡ noted _note.now self.old }
    {}
}

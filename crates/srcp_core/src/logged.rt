//! A core with its log, which says of each call what has happened.

ghost use Rattle.std.specs.Prelude.{◌≡◌, ◌≤◌, ◌<◌, true, false, IfOk, IfErr, None, Some, [], length, is_none, ◌+◌};
ghost use Rattle.std.specs.Prelude.{count_by, is_some};
ghost use Rattle.srcp_core.specs.Agrees.{closes, replies_taken};
ghost use Rattle.srcp_core.specs.Waits.{due_next, slack};
ghost use Rattle.srcp_grammar.specs.Layout.{IsLayout};
ghost use Rattle.srcp_core.specs.Past.{course_of, denied, number, no_past, happened, keyed, room_for, lent_at, hung_up};
ghost use Rattle.srcp_core.specs.Past.{answer_at, refusal, Says, Receives};
ghost use Rattle.srcp_core.specs.Under.{At, Open, Bytes, Room, Shut, giving};

use crate::limits::MOST_CONNECTIONS;
use crate::log::{Log, Note};
use crate::record::CoreFault;
use crate::server_core::Core;
use srcp_info::LONGEST_LINE;
use srcp_rules::{Layout, Memory, Rows};
use std::alloc::Global;
use std::marker::Model;

/// Holds the registry of a layout, and the connections to it with their sessions. A contract sees a list of what has
/// happened (`Past`), which takes no memory: each call adds its event to the list. What the call answers is what the
/// course of the events before says.
///
/// A server calls a core in this order, over and over:
/// 1. `advance` with the present moment;
/// 2. `connect` for a new peer, which returns the key of the connection;
/// 3. for each connection, `receive` with at most 256 new bytes, if `ready` returns true;
/// 4. `outgoing` for the bytes to send and `sent` with the number of bytes taken, until `outgoing` lends none;
/// 5. `hangup` if the peer is gone, or if `closing` returns true.
///
/// ```
/// core.advance(now);
/// let key = core.connect()?;
/// if core.ready(key) {
///     core.receive(key, b"GO\n")?;
/// }
/// let taken = peer.write(core.outgoing(key)?)?;
/// core.sent(key, taken);
/// if core.closing(key) {
///     core.hangup(key)?;
/// }
/// ```
#[derive(Drop)]
pub struct LoggedCore<'a, R: Rows> {
    core: Core<'a, R>,
    log: Log,
}

impl<'a, R: Rows> Model for LoggedCore<'a, R> {
    ghost use Rattle.srcp_core.specs.Past.{Past};
    ghost use Rattle.srcp_core.specs.Lived.{HasLived};

    ghost Value = { Past };

    ghost view = { λ c. record { buses = c.core.buses; events = c.log.events; keys = c.log.keys } };

    ghost invariant = { λ c. HasLived c.core.buses c.core c.log };
}

impl<'a, R: Rows> LoggedCore<'a, R> {
    ghost use Rattle.std.specs.Borrow.{sem};
    ghost use Rattle.srcp_core.specs.LoggedLending.{EndsAs};

    /// Makes a core to which nothing has happened: with no connection, and with the registry of the layout at moment 0.
    /// The power of each bus with power is off, and each feedback port is 0. The first session gets the id 1.
    ///
    /// # Errors
    /// Returns `Memory` if memory is refused to the registry or to the 64 slots of connections.
    pub fn new(alloc: Global, layout: &'a Layout) -> Result<LoggedCore<'a, R>, Memory>
        ensures { IfOk result (λ core. core ≡ no_past layout.now) }
    {
        // Called for the contract, which says the layout's limits.
        let _ = layout.buses();
        let core = Core::<R>::new(alloc, layout, 0, 0)?;
        Ok(LoggedCore {
            core,
            log: Log::new(),
        })
    }

    /// Advances to the moment, in milliseconds, and carries out every row due then, in key order. Accessories fall back
    /// and locks end, as in SRCP 0.8. A moment earlier than the last counts as the last.
    pub fn advance(&mut self, moment: u64)
        ensures { self.new ≡ happened (At moment) self.old }
    {
        self.core.advance(moment);
        self.log.note(&Note::At(moment));
    }

    /// Opens a connection, and returns the key of the connection. The reply buffer is allocated whole before anything
    /// changes, and holds the welcome line of SRCP 0.8. No open connection has the same key.
    ///
    /// # Errors
    /// Returns `Full` if 64 connections are open, and `Memory` if memory is refused. The refusal is counted, and all
    /// else stays as before.
    pub fn connect(&mut self) -> Result<usize, CoreFault>
        ensures opened { IfOk result (λ key. self.new ≡ keyed key (happened (Open true) self.old)) }
        ensures accepts { IfOk result (λ _. refusal self.old (Open true) ≡ None) }
        ensures names { IfOk result (λ key. number key self.new ≡ length (course_of self.old).connections + 1) }
        ensures fresh { IfOk result (λ key. number key self.old ≡ 0) }
        ensures few { IfOk result (λ _. count_by is_some self.old.keys < MOST_CONNECTIONS) }
        ensures not_opened { IfErr result (λ cause. self.new ≡ happened (Open (answer_at cause)) self.old) }
        ensures refuses { IfErr result (λ cause. refusal self.old (Open (answer_at cause)) ≡ Some cause) }
    {
        match self.core.connect() {
            Ok(key) => {
                self.log.note(&Note::Opened(key));
                Ok(key)
            }
            Err(fault) => {
                self.log.note(&Note::NotOpened(is_full(fault)));
                Err(fault)
            }
        }
    }

    /// Reads new bytes of a connection, of any part of a line, and answers each line that ends in them. A line before
    /// the session is of the handshake of SRCP 0.8, a line after it a command. Lines to an information session are
    /// dropped.
    ///
    /// # Errors
    /// Returns the first of these that applies, and then no answer changes: `NoSuch` if there is no such connection,
    /// `Closing` if the connection ended or overran, `Busy` while bytes are unsent, `PieceTooLong` for more than 256
    /// bytes.
    pub fn receive(&mut self, conn: usize, piece: &[u8]) -> Result<(), CoreFault>
        ensures says { Says self.old (Bytes (number conn self.old) (giving piece.now)) result }
        ensures happened { Receives conn piece.now self.old self.new }
    {
        if let Some(fault) = self.core.bytes_fault(conn, piece) {
            self.log.note(&Note::Bytes(conn, piece));
            return Err(fault);
        }
        let mut start = 0;
        while let Some((stop, line)) = self.core.answer_line(conn, piece, start) {
            self.log.note(&Note::Granted(line.granted));
            start = stop;
        }
        self.log.note(&Note::Bytes(conn, piece));
        Ok(())
    }

    /// Lends the unsent bytes of a connection, from the connection's own buffer and without a copy. If an information
    /// session has none, the next line is appended first, at most 126 bytes. Once all replies are sent, at most a
    /// single line is lent. A lending is a room for no bytes.
    ///
    /// # Errors
    /// Returns `NoSuch` if there is no such connection.
    #[inline(always)]
    pub fn outgoing(&mut self, conn: usize) -> Result<&[u8], CoreFault>
        ensures* ends { sem 𝓛 (EndsAs R.row R.Rows self.entry (happened (Room (number conn self.old) 0) self.old)) }
        ensures says { Says self.old (Room (number conn self.old) 0) result }
        ensures bytes { IfOk result
            (λ bytes. bytes.now ≡ lent_at conn (happened (Room (number conn self.old) 0) self.old)) }
        ensures one_line { replies_taken self.old.buses (course_of self.old) (number conn self.old) ≡ true
            → IfOk result (λ bytes. length bytes.now ≤ LONGEST_LINE) }
    {
        self.log.note(&Note::Room(conn, 0));
        match self.core.fill(conn) {
            Ok(true) => Ok(self.core.unsent(conn)),
            Ok(false) => Ok(&[]),
            Err(fault) => Err(fault),
        }
    }

    /// Drops the first `count` bytes that the connection lends, since the peer took them. If there are such bytes, they
    /// are a room for as many.
    pub fn sent(&mut self, conn: usize, count: usize)
        requires { count ≤ length (lent_at conn self.old) }
        ensures { self.new ≡ room_for conn count self.old }
    {
        if count == 0 {
            return;
        }
        self.core.sent(conn, count);
        self.log.note(&Note::Room(conn, count));
    }

    /// Removes a connection, and ends the session of the connection if the session goes on. The locks are removed in
    /// key order, and then the session's row. Locks end with their session in SRCP 0.8.
    ///
    /// # Errors
    /// Returns `NoSuch` if there is no such connection.
    pub fn hangup(&mut self, conn: usize) -> Result<(), CoreFault>
        ensures says { Says self.old (Shut (number conn self.old)) result }
        ensures happened { self.new ≡ hung_up conn self.old }
    {
        self.log.note(&Note::Shut(conn));
        self.core.hangup(conn)
    }

    /// Returns whether `receive` accepts a piece of at most 256 bytes: the connection is open, did not end or overrun,
    /// and has no unsent bytes.
    pub fn ready(&self, conn: usize) -> bool
        ensures { result ≡ is_none (refusal self.now (Bytes (number conn self.now) (giving []))) }
    {
        self.core.ready(conn)
    }

    /// Returns whether the connection is to be closed: the connection overran, or the session ended by its own command
    /// and all replies are sent. Returns false if there is no such connection.
    pub fn closing(&self, conn: usize) -> bool
        ensures { result ≡ closes self.now.buses (course_of self.now) (number conn self.now) }
    {
        self.core.closing(conn)
    }

    /// Returns the moment at which the first of the rows falls due, in milliseconds, or `None` if no row has a due
    /// moment. Until then `advance` changes no row, if nothing else is called meanwhile.
    pub fn earliest_due(&self) -> Option<u64>
        ensures { result ≡ due_next self.now.buses (course_of self.now) }
    {
        self.core.earliest_due()
    }

    /// Returns how many more changes each information session can queue: 256 less the most changes waiting for any
    /// session. Returns `None` if there is no information session. No change waits for an overrun session, which counts
    /// as 256 until the hang-up.
    pub fn slack(&self) -> Option<usize>
        ensures { result ≡ slack self.now.buses (course_of self.now) }
    {
        self.core.slack()
    }

    /// Returns how many allocations were refused since `new`. The count stops at the greatest u64.
    pub fn denied(&self) -> u64
        ensures count { result ≡ denied self.now }
        ensures laid_out { IsLayout self.now.buses }
    {
        self.core.denied()
    }
}

/// Returns whether the most connections are open, so that memory is not asked for one.
fn is_full(fault: CoreFault) -> bool
    ensures { result ≡ answer_at fault }
{
    matches!(fault, CoreFault::Full)
}

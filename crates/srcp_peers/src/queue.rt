//! Bytes that are held in order until they are handed over.

ghost use Rattle.std.specs.Prelude.{◌≡◌, ◌<◌, ◌≤◌, ◌+◌, ◌-◌, ◌++◌, ◌∷◌, ◌==◌, [], ℕ, List, IfOk, length};
ghost use Rattle.std.specs.Prelude.{MatchResult, drop, min, slice_range, take};
ghost use Rattle.srcp_peers.specs.Steps.{Reads};

use crate::log::Logged;
use crate::system::System;
use std::alloc::{AllocError, Global};
use std::io::ErrorKind;
use std::marker::Model;
use std::vec::Vec;

// The lines of a whole visit fit behind as many bytes as a queue may have before a flush.
/// The most bytes that are queued for a peer.
pub const MOST_OUTGOING: usize = 40_960;

/// The most bytes that are read ahead of a peer.
pub const MOST_INCOMING: usize = 4_096;

/// The bytes written to a peer that its socket did not take yet.
pub type Outgoing = Queue<MOST_OUTGOING>;

/// The bytes read from a peer that were not handed out yet.
pub type Incoming = Queue<MOST_INCOMING>;

/// Holds the two queues of a peer that is still to come. Both are empty.
///
/// ```
/// let queues = Queues::new(alloc)?;
/// let peer = Peer::new(number, clock, queues);
/// peers.push(peer)?;
/// ```
#[derive(Drop)]
pub struct Queues {
    /// The queue of what the peer is written.
    pub outgoing: Outgoing,
    /// The queue of what is read from the peer.
    pub incoming: Incoming,
    ghost sent: { outgoing ≡ [] },
    ghost came: { incoming ≡ [] },
}

impl Queues {
    /// Makes two empty queues.
    ///
    /// # Errors
    /// Returns an error if memory is refused.
    pub fn new(alloc: Global) -> Result<Queues, AllocError>
        ensures { IfOk result (λ queues. (queues.outgoing ≡ []) × (queues.incoming ≡ [])) }
    {
        Ok(Queues {
            outgoing: Queue::new(alloc)?,
            incoming: Queue::new(alloc)?,
        })
    }
}

/// Holds at most `MOST` bytes, first in, first out. Contracts see a list.
#[derive(Drop)]
pub struct Queue<const MOST: usize> {
    // The bytes from `start` to `end` are held.
    buffer: Vec<u8>,
    start: usize,
    end: usize,
}

impl<const MOST: usize> Model for Queue<MOST> {
    ghost use Rattle.std.specs.Prelude.{◌≡◌, ◌≤◌, List, ℕ, length, slice_range};

    ghost Value = { List ℕ };

    ghost view = { λ h. slice_range h.buffer.items h.start h.end };

    ghost invariant = { λ h. (h.start ≤ h.end) × (h.end ≤ MOST) × (length h.buffer.items ≡ MOST) };
}

impl<const MOST: usize> Queue<MOST> {
    /// Makes an empty queue. No other call allocates.
    ///
    /// # Errors
    /// Returns an error if memory is refused.
    pub(crate) fn new(alloc: Global) -> Result<Queue<MOST>, AllocError>
        ensures { IfOk result (λ held. held ≡ []) }
    {
        let mut buffer = Vec::new(alloc);
        buffer.resize(MOST, 0)?;
        Ok(Queue {
            buffer,
            start: 0,
            end: 0,
        })
    }

    /// Returns how many bytes are held.
    pub(crate) fn len(&self) -> usize
        ensures count { result ≡ length self.now }
        ensures most { result ≤ MOST }
    {
        self.end - self.start
    }

    /// Returns whether no byte is held.
    pub(crate) fn is_empty(&self) -> bool
        ensures { result ≡ (length self.now == 0) }
    {
        self.start == self.end
    }

    /// Takes as many bytes as there is space for, and returns how many.
    pub(crate) fn take(&mut self, bytes: &[u8]) -> usize
        ensures count { result ≡ min (length bytes.now) (MOST - length self.old) }
        ensures held { self.new ≡ self.old ++ take result bytes.now }
    {
        if bytes.len() > MOST - self.end {
            return self.take_at_front(bytes);
        }
        put(&mut self.buffer, self.end, bytes);
        self.end += bytes.len();
        bytes.len()
    }

    /// Moves the held bytes to the start of the buffer, and takes as many bytes as there is space for behind them.
    #[inline(never)]
    fn take_at_front(&mut self, bytes: &[u8]) -> usize
        ensures count { result ≡ min (length bytes.now) (MOST - length self.old) }
        ensures held { self.new ≡ self.old ++ take result bytes.now }
    {
        move_to_front(&mut self.buffer, self.start, self.end);
        self.end -= self.start;
        self.start = 0;
        let count = bytes.len().min(MOST - self.end);
        put(&mut self.buffer, self.end, &bytes[..count]);
        self.end += count;
        count
    }

    /// Reads once from a socket, up to the free space and at most [`MOST_INCOMING`] bytes. Returns how many came.
    ///
    /// # Errors
    /// Returns the error of the system. The queue stays the same then.
    pub(crate) fn read_from<S: System>(
        &mut self,
        system: &mut Logged<S>,
        socket: u32,
    ) -> Result<usize, ErrorKind>
        requires some { length self.old < MOST }
        ensures { (buffer : List ℕ) × (length buffer ≡ min (MOST - length self.old) MOST_INCOMING)
            × (system.new.log.steps ≡ system.old.log.steps ++ Reads socket buffer result ∷ [])
            × MatchResult result (λ count. (count ≤ length buffer) × (self.new ≡ self.old ++ take count buffer))
            (λ _. self.new ≡ self.old) }
    {
        move_to_front(&mut self.buffer, self.start, self.end);
        self.end -= self.start;
        self.start = 0;
        match system.read(socket, &mut self.buffer[self.end..]) {
            Ok(count) => {
                self.end += count;
                Ok(count)
            }
            Err(fault) => Err(fault),
        }
    }

    /// Returns the held bytes, oldest first.
    pub(crate) fn front(&self) -> &[u8]
        ensures held { result.now ≡ self.now }
        ensures most { length result.now ≤ MOST }
    {
        &self.buffer[self.start..self.end]
    }

    /// Drops all held bytes.
    pub(crate) fn clear(&mut self)
        ensures { self.new ≡ [] }
    {
        self.start = 0;
        self.end = 0;
    }

    /// Drops `count` bytes, from the first on.
    pub(crate) fn drop_front(&mut self, count: usize)
        requires { count ≤ length self.old }
        ensures { self.new ≡ drop count self.old }
    {
        self.start += count;
        if self.start == self.end {
            self.start = 0;
            self.end = 0;
        }
    }
}

/// Puts bytes into a buffer, from the index `at` on.
#[inline(always)]
fn put(buffer: &mut Vec<u8>, at: usize, bytes: &[u8])
    requires { at + length bytes.now ≤ length buffer.old.items }
    ensures put { (start : ℕ) → start ≤ at → slice_range buffer.new.items start (at + length bytes.now)
        ≡ slice_range buffer.old.items start at ++ bytes.now }
    ensures len { length buffer.new.items ≡ length buffer.old.items }
{
    buffer[at..at + bytes.len()].copy_from_slice(bytes);
}

/// Moves the bytes from `start` to `end` to the start of a buffer.
fn move_to_front(buffer: &mut Vec<u8>, start: usize, end: usize)
    requires { (start ≤ end) × (end ≤ length buffer.old.items) }
    ensures moved { slice_range buffer.new.items 0 (end - start) ≡ slice_range buffer.old.items start end }
    ensures len { length buffer.new.items ≡ length buffer.old.items }
{
    if start > 0 {
        buffer.copy_within(start..end, 0);
    }
}

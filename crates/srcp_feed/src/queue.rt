//! The waiting changes of an information session.

ghost use Rattle.std.specs.Prelude.{◌≡◌, ◌<◌, ◌≤◌, [], ◌∷◌, ◌++◌, IfOk, drop, length, nat_lt, if◌then◌else◌};
ghost use Rattle.std.specs.Prelude.{option_copied, slice_get};

use crate::Waiting;
use circular_buffer::HeapCircularBuffer;
use srcp_info::MOST_WAITING;
use srcp_rules::Memory;
use std::alloc::Global;
use std::marker::Model;

/// Holds the waiting changes, in the order of their coming, each with its line. Contracts see the list of the changes.
#[derive(Drop)]
pub(crate) struct Queue {
    // The first `given` changes of the ring were dropped. They go once none waits behind them, all at once, since the
    // ring then begins again at its first slot: a ring that goes round through all slots misses the cache at each.
    ring: HeapCircularBuffer<Waiting>,
    given: usize,
}

impl Model for Queue {
    ghost use Rattle.std.specs.Prelude.{◌≡◌, ◌≤◌, List, drop, length};
    ghost use Rattle.srcp_info.specs.declared.change.Change.{Change};
    ghost use Rattle.srcp_info.specs.declared.limits.TheConstants.{MOST_WAITING};

    ghost Value = { List Change };

    ghost view = { λ q. drop q.given q.ring.items };

    ghost invariant = { λ q. (q.ring.capacity ≡ MOST_WAITING) × (length q.ring.items ≤ MOST_WAITING)
        × (q.given ≤ length q.ring.items) };
}

impl Queue {
    /// Makes an empty queue, with the memory of all changes. No other call allocates.
    ///
    /// # Errors
    /// Fails with `Memory` if memory is refused.
    pub(crate) fn new(alloc: Global) -> Result<Queue, Memory>
        ensures { IfOk result (λ queue. queue ≡ []) }
    {
        Ok(Queue {
            ring: HeapCircularBuffer::with_capacity(alloc, MOST_WAITING)?,
            given: 0,
        })
    }

    /// Returns how many changes wait.
    pub(crate) fn len(&self) -> usize
        ensures value { result ≡ length self.now }
        ensures most { result ≤ MOST_WAITING }
    {
        self.ring.len() - self.given
    }

    /// Lends the first change, or `None` if no change waits.
    pub(crate) fn first(&self) -> Option<&Waiting>
        ensures { option_copied result ≡ slice_get self.now 0 }
    {
        self.ring.get(self.given)
    }

    /// Appends a copy of a change, or returns false if `MOST_WAITING` changes wait already.
    pub(crate) fn push(&mut self, change: &Waiting) -> bool
        ensures fits { result ≡ nat_lt (length self.old) MOST_WAITING }
        ensures queue { self.new ≡ (if result then self.old ++ change.now ∷ [] else self.old) }
    {
        if self.ring.is_full() {
            self.ring.truncate_front(self.ring.len() - self.given);
            self.given = 0;
        }
        // The answer also tells of an overrun, and the compiler writes the line straight into its slot. `push_back`
        // takes seven instructions more for each line.
        self.ring.try_push_back(change.copied()).is_ok()
    }

    /// Drops the first change.
    pub(crate) fn drop_first(&mut self)
        requires { 0 < length self.old }
        ensures { self.new ≡ drop 1 self.old }
    {
        self.given += 1;
        if self.given == self.ring.len() {
            self.ring.clear();
            self.given = 0;
        }
    }
}

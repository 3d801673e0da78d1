//! What a turn does before its visits: a flush, a wait, and the beginning of each visit.

ghost use Rattle.std.specs.Prelude.{not, cond, All, false, true, ◌≡◌, ◌<◌, ◌-◌, ◌&&◌, ℕ, Some, ◌||◌, ◌+◌, ◌*◌, None};
ghost use Rattle.std.specs.Prelude.{length};
ghost use Rattle.srcp_log.specs.Delivery.{HasWaited};
ghost use Rattle.srcp_log.specs.Duties.{MayTell, has_waited};
ghost use Rattle.srcp_log.specs.Endings.{AreVisited};
ghost use Rattle.srcp_log.specs.Waits.{AreFlushed, IsWaitDone};
ghost use Rattle.srcp_log.specs.Work.{AreFrom, IsWaiting, WaitsAmong, goes_on};
ghost use Rattle.std.specs.List.{list_any};
ghost use Rattle.srcp_log.specs.Limits.{most_lingering, most_ready};
ghost use Rattle.srcp_door.specs.Pacing.{is_short_pace};
ghost use Rattle.srcp_peers.specs.Accounts.{is_short_wait};
ghost use Rattle.srcp_peers.specs.Limits.{most_drained};
ghost use Rattle.srcp_peers.specs.Peers.{IsShared, KeepsRest, KeepsShare, flushes_all, holds_input, is_resting};
ghost use Rattle.srcp_peers.specs.Times.{KeepsTimes};
ghost use Rattle.srcp_peers.specs.Turns.{after_wait, flushing, has_ticked, is_pending, lines_left_of, time_left};
ghost use Rattle.srcp_peers.specs.Waiting.{IsWithin, longest_wait};
ghost use Rattle.srcp_peers.specs.Steps.{Answers, GrowsBy, SaysNothing};
ghost use Rattle.srcp_peers.specs.AllPeers.{AreOffered, AreShared, AreThose};
ghost use Rattle.srcp_log.specs.Doors.{AreRead, flushed_in};

use super::Sockets;
use srcp_door::MOST_WRITES;
use srcp_peers::peers::{begin_visits, flush, listen, wake};
use srcp_peers::{Flush, Listening, Ready, System, longest_wait};

impl<S: System> Sockets<S> {
    /// Begins a turn: goes on with the lingering peers, flushes the peers, waits, and begins the visits. All queued
    /// bytes are flushed once the clock went on, or before a wait. Until then the system is not asked who is ready
    /// while input is held.
    pub(crate) fn begin_turn(&mut self, ready: &mut [Ready])
        requires ready { length ready.old ≡ most_ready }
        ensures calls { SaysNothing self.old.system.log.steps self.new.system.log.steps }
        ensures most { GrowsBy (3 * length self.old.peers.items + (most_drained + most_lingering + 1))
            self.old.system.log.steps self.new.system.log.steps }
        ensures read { AreRead self.new.system.log.steps }
        ensures may { MayTell self.new.turn self.new.system.log.steps }
        ensures visited { AreVisited self.new.system.log.steps self.new.peers.items }
        ensures offered { AreOffered (flushed_in self.old.turn self.old.peers.items) self.old.peers.items
            self.old.system.log.steps self.new.system.log.steps }
        ensures waits { HasWaited (cond (goes_on self.old.turn self.old.peers.items) 0 1)
            self.old.system.log.steps self.new.system.log.steps }
        ensures rests { goes_on self.old.turn self.old.peers.items ≡ true → self.new.listening ≡ self.old.listening }
        ensures heard { goes_on self.old.turn self.old.peers.items ≡ false
            → WaitsAmong self.old.turn self.old.most self.old.listening self.new.listening self.old.peers.items
            self.old.system.log.steps self.new.system.log.steps }
        ensures shares { AreFrom (IsShared (not (is_short_pace self.old.turn.pace || self.old.turn.late)))
            self.old.peers.items self.new.peers.items }
        ensures lines_left { All (λ peer. peer.lines_left
            ≡ lines_left_of (list_any holds_input self.old.peers.items) self.old.turn.slack) self.new.peers.items }
        ensures turn { self.new.turn ≡ record self.old.turn {
          busy = goes_on self.old.turn self.old.peers.items && self.old.turn.busy;
        } }
        ensures keeps { (self.new.most ≡ self.old.most) × (self.new.last ≡ self.old.last)
            × (self.new.services ≡ self.old.services) }
    {
        let holds = self.holds_input();
        let held = self.goes_on(holds);
        let what = self.flushing(held);
        self.flush(what);
        self.close_gone();
        self.poll_unless_held(held, ready);
        self.begin_visits(holds);
    }

    /// Returns whether the clock went on since the turn before, or the turn waits until the clock does.
    fn has_ticked(&self) -> bool
        ensures { result ≡ has_ticked self.now.turn }
    {
        self.turn.clock != self.turn.previous_clock || self.turn.backpressure_delay() > 0
    }

    /// Returns whether the turn goes on with held input. `holds` says whether input is held. The turn does so until the
    /// clock goes on.
    fn goes_on(&self, holds: bool) -> bool
        ensures { result ≡ (not (has_ticked self.now.turn) && holds) }
    {
        !self.has_ticked() && holds
    }

    /// Returns what is flushed: everything before a wait, or once the clock went on. `held` says whether the turn goes
    /// on with held input. If the clock went on and the panels can take less than a line may bring, their sockets are
    /// tried again.
    fn flushing(&self, held: bool) -> Flush
        ensures { result ≡ flushing (has_ticked self.now.turn) held self.now.turn }
    {
        // Linux finds a socket writable only once a third of its buffer is free. Without another try each millisecond,
        // a panel that reads 20 lines a millisecond is closed.
        if self.has_ticked() && self.turn.is_short() {
            Flush::Again
        } else if self.has_ticked() || !held && !self.turn.is_pending() {
            Flush::All
        } else {
            Flush::Answers
        }
    }

    /// Returns whether input of a peer is held that the core takes.
    fn holds_input(&self) -> bool
        ensures { result ≡ list_any holds_input self.now.peers.items }
    {
        self.peers.iter().any(|peer| peer.holds_input())
    }

    /// Returns how many milliseconds the turn waits at most, or `None` if only a socket ends the wait.
    fn longest_wait(&self) -> Option<u64>
        ensures exact { result ≡ longest_wait self.now.peers.items self.now.listening self.now.turn self.now.most }
        ensures rest { is_short_wait result ≡ false → All (λ peer. is_resting peer ≡ true) self.now.peers.items }
        ensures accepts { is_short_wait result ≡ false → self.now.listening ≡ Listening.Quiet }
        ensures panels { is_short_wait result ≡ false → is_pending self.now.turn.slack self.now.turn.busy ≡ false }
        ensures due { (left : ℕ) → time_left self.now.turn ≡ Some left → IsWithin left result }
    {
        longest_wait(self.peers.as_slice(), self.listening, &self.turn, self.most)
    }

    /// Waits unless `held` says that the turn goes on with held input.
    fn poll_unless_held(&mut self, held: bool, ready: &mut [Ready])
        requires ready { length ready.old ≡ most_ready }
        requires may { held ≡ false → IsWaitDone self.old.turn.timekeeper.wall self.old.turn.timekeeper.start
            self.old.system.log.steps }
        ensures calls { SaysNothing self.old.system.log.steps self.new.system.log.steps }
        ensures most { GrowsBy 1 self.old.system.log.steps self.new.system.log.steps }
        ensures as_many { length self.new.peers.items ≡ length self.old.peers.items }
        ensures waits { HasWaited (cond held 0 1) self.old.system.log.steps self.new.system.log.steps }
        ensures looked { held ≡ false → has_waited self.new.system.log.steps ≡ true }
        ensures rests { held ≡ true → self.new.listening ≡ self.old.listening }
        ensures heard { held ≡ false
            → IsWaiting (longest_wait self.old.peers.items self.old.listening self.old.turn self.old.most)
            self.old.listening self.new.listening self.old.system.log.steps self.new.system.log.steps }
        ensures shares { AreFrom KeepsShare self.old.peers.items self.new.peers.items }
        ensures turn { self.new.turn ≡ record self.old.turn { busy = held && self.old.turn.busy } }
        ensures services { self.new.services ≡ self.old.services }
        ensures keeps { (self.new.most ≡ self.old.most) × (self.new.last ≡ self.old.last) }
    {
        if held {
            return;
        }
        self.wait(ready);
    }

    /// Flushes each peer that is there, and goes on with the lingering peers.
    fn flush(&mut self, what: Flush)
        ensures calls { SaysNothing self.old.system.log.steps self.new.system.log.steps }
        ensures most { GrowsBy (2 * length self.old.peers.items + most_drained)
            self.old.system.log.steps self.new.system.log.steps }
        ensures as_many { length self.new.peers.items ≡ length self.old.peers.items }
        ensures offered { AreOffered what self.old.peers.items self.old.system.log.steps self.new.system.log.steps }
        ensures out { AreFlushed (flushes_all what) self.new.system.log.steps }
        ensures left { AreFrom KeepsRest self.old.peers.items self.new.peers.items }
        ensures times { KeepsTimes self.old.system.log.steps self.new.system.log.steps }
        ensures keeps { (self.new.turn ≡ self.old.turn) × (self.new.services ≡ self.old.services)
            × (self.new.most ≡ self.old.most) × (self.new.last ≡ self.old.last)
            × (self.new.listening ≡ self.old.listening) }
    {
        flush(&mut self.system, self.peers.as_mut_slice(), what);
    }

    /// Waits until a socket is ready, but no longer than until there is other work to do. Notes which sockets are
    /// ready.
    fn wait(&mut self, ready: &mut [Ready])
        requires ready { length ready.old ≡ most_ready }
        requires may { IsWaitDone self.old.turn.timekeeper.wall self.old.turn.timekeeper.start
            self.old.system.log.steps }
        ensures calls { SaysNothing self.old.system.log.steps self.new.system.log.steps }
        ensures most { GrowsBy 1 self.old.system.log.steps self.new.system.log.steps }
        ensures as_many { length self.new.peers.items ≡ length self.old.peers.items }
        ensures waits { IsWaiting (longest_wait self.old.peers.items self.old.listening self.old.turn self.old.most)
            self.old.listening self.new.listening self.old.system.log.steps self.new.system.log.steps }
        ensures looked { has_waited self.new.system.log.steps ≡ true }
        ensures shares { AreFrom KeepsShare self.old.peers.items self.new.peers.items }
        ensures turn { self.new.turn ≡ after_wait self.old.turn }
        ensures services { self.new.services ≡ self.old.services }
        ensures keeps { (self.new.most ≡ self.old.most) × (self.new.last ≡ self.old.last) }
    {
        let most = self.longest_wait();
        let count = self.system.wait(most, ready);
        wake(self.peers.as_mut_slice(), &ready[..count]);
        self.listening = listen(self.listening, &ready[..count]);
        self.turn.wait();
    }

    /// Returns whether each share is a whole piece again: at the end of the turn before, every line might go. If not
    /// every line might, a line may have been kept back. A late turn hands out nothing.
    fn renews_shares(&self) -> bool
        ensures { result ≡ not (is_short_pace self.now.turn.pace || self.now.turn.late) }
    {
        !(self.turn.is_slow() || self.turn.late)
    }

    /// Begins the visit of each peer; `holds` says whether input was held as the turn began.
    fn begin_visits(&mut self, holds: bool)
        ensures calls { SaysNothing self.old.system.log.steps self.new.system.log.steps }
        ensures most { GrowsBy (length self.old.peers.items) self.old.system.log.steps self.new.system.log.steps }
        ensures read { AreRead self.new.system.log.steps }
        ensures visited { AreVisited self.new.system.log.steps self.new.peers.items }
        ensures as_many { length self.new.peers.items ≡ length self.old.peers.items }
        ensures those { AreThose self.old.peers.items self.new.peers.items }
        ensures shares { AreShared (not (is_short_pace self.old.turn.pace || self.old.turn.late))
            self.old.peers.items self.new.peers.items }
        ensures lines_left { All (λ peer. peer.lines_left ≡ lines_left_of holds self.old.turn.slack)
            self.new.peers.items }
        ensures times { KeepsTimes self.old.system.log.steps self.new.system.log.steps }
        ensures keeps { (self.new.most ≡ self.old.most) × (self.new.last ≡ self.old.last)
            × (self.new.listening ≡ self.old.listening) × (self.new.turn ≡ self.old.turn)
            × (self.new.services ≡ self.old.services) }
    {
        let anew = self.renews_shares();
        let lines_left = self.lines_left(holds);
        begin_visits(
            &mut self.system,
            self.peers.as_mut_slice(),
            anew,
            lines_left,
        );
    }

    /// Returns how many lines may be queued for a peer whose socket is full. While commands wait for the panels, the
    /// result is the number of changes that the panels lack. What may be queued for a panel then lasts for as many
    /// lines, one a millisecond.
    fn lines_left(&self, holds: bool) -> u32
        ensures { result ≡ lines_left_of holds self.now.turn.slack }
    {
        if holds {
            self.turn.shortfall()
        } else {
            MOST_WRITES
        }
    }
}

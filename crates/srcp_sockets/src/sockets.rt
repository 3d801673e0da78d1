//! The system's sockets, with their peers.

ghost use Rattle.std.specs.Prelude.{not, vec_capacity, All, false, true, ◌≡◌, ◌<◌, ◌≤◌, ◌-◌, ◌&&◌, ℕ, Some, ◌++◌, ◌∷◌};
ghost use Rattle.std.specs.Prelude.{◌+◌, Bool, None, Ok, Err, IfErr, IfNone, IfOk, IfSome, [], length, slice_index_or};
ghost use Rattle.srcp_peers.specs.declared.peer.Peer.{Peer};
ghost use Rattle.srcp_log.specs.Asked.{AreAsked, AreAsked-prop};
ghost use Rattle.srcp_log.specs.Delivery.{HasEnded, HasLooked, linger_end};
ghost use Rattle.srcp_log.specs.Duties.{AreDone, AreDone-prop, MayTell};
ghost use Rattle.srcp_log.specs.Endings.{AreAsFar, AreAsFar-prop, AreVisited};
ghost use Rattle.srcp_log.specs.Waits.{AreFlushed};
ghost use Rattle.srcp_log.specs.Work.{AreClosedUp, AreFrom, IsClocked, IsPeerWritten, is_close};
ghost use Rattle.srcp_log.specs.Facts.{Stands-prop};
ghost use Rattle.srcp_log.specs.Limits.{most_lingering, most_peers, most_ready};
ghost use Rattle.srcp_log.specs.Names.{IsNamed, IsNamed-prop};
ghost use Rattle.srcp_log.specs.KeptTimes.{IsTimed, IsTimed-prop};
ghost use Rattle.srcp_peers.specs.Peers.{KeepsRest, KeepsShare, Makes, is_closable, is_here};
ghost use Rattle.srcp_peers.specs.Times.{KeepsTimes};
ghost use Rattle.srcp_peers.specs.Turns.{after_call, first_turn};
ghost use Rattle.srcp_peers.specs.Waiting.{longest_wait};
ghost use Rattle.srcp_door.specs.Calls.{ExpectCall, NowCall, WriteCall, CloseCall};
ghost use Rattle.srcp_peers.specs.Steps.{Answers, Closes, GrowsBy, SaysNothing, SaysOne};
ghost use Rattle.srcp_peers.specs.AllPeers.{AreOffered};
ghost use Rattle.srcp_log.specs.Doors.{AreRead, IsMissing, IsPresent, Stands};

mod accepting;
mod reading;
mod turns;

use crate::delivering::deliver;
use accepting::make_queues;
use srcp_door::DoorFault;
use srcp_peers::{
    Answer, Flush, LINGER, Listening, Logged, MOST_LINGERING, Peer, Queues, Ready, System, Turn,
    first_gone,
};
use std::alloc::{AllocError, Global};
use std::vec::Vec;

/// The most peers at once: 64 connected, a 65th that is turned away, and 64 that linger.
pub const MOST_PEERS: usize = 129;

/// Holds the system's sockets, with their peers. Only `deliver` drops a value: the type is not `Drop`.
pub(crate) struct Sockets<S: System> {
    pub system: Logged<S>,
    peers: Vec<Peer>,
    listening: Listening,
    // The number of the last peer that came.
    last: u32,
    // The index of the last peer that was read or written.
    recent: usize,
    turn: Turn,
    // The longest wait of a turn, in milliseconds, if a limit was set.
    most: Option<u64>,
    // The number of services so far: a peer came, or input of a peer was handed out.
    services: u64,
    // The queues of the places that no peer has.
    spare: Vec<Queues>,
    ghost stands: { Stands system.log.steps peers.items listening last } by { Stands-prop _ _ _ _ },
    ghost named: { IsNamed system.log.steps last } by { IsNamed-prop system.log.steps _ },
    ghost timed: { IsTimed system.log.steps turn } by { IsTimed-prop system.log.steps _ },
    ghost asked: { AreAsked system.log.steps } by { AreAsked-prop _ },
    ghost done: { AreDone most turn.timekeeper.wall turn.timekeeper.start
        system.log.steps } by { AreDone-prop _ _ _ _ },
    ghost ending: { AreAsFar system.log.steps peers.items } by { AreAsFar-prop system.log.steps _ },
    ghost places: { (length peers.items + length spare.items ≡ most_peers) × (most_peers ≤ vec_capacity peers)
        × (most_peers ≤ vec_capacity spare) },
}

impl<S: System> Sockets<S> {
    /// Notes what falls due next, and how many changes the panels can still take.
    pub(crate) fn expect(&mut self, due: Option<u64>, slack: Option<usize>)
        ensures trace { SaysOne self.old.system.log.steps (ExpectCall due slack) self.new.system.log.steps }
        ensures log { self.new.system.log.steps ≡ self.old.system.log.steps ++ Answers (ExpectCall due slack) ∷ [] }
        ensures turn { self.new.turn ≡ after_call self.old.turn (ExpectCall due slack) }
        ensures keeps { (self.new.services ≡ self.old.services) × (self.new.most ≡ self.old.most)
            × (self.new.last ≡ self.old.last) × (self.new.listening ≡ self.old.listening)
            × (self.new.peers ≡ self.old.peers) }
    {
        self.system.answer(&Answer::Expect(due, slack));
        self.turn.expect(due, slack);
    }

    /// Limits how long a turn waits, in milliseconds.
    pub(crate) fn wait_at_most(&mut self, milliseconds: u64)
        ensures most { self.new.most ≡ Some milliseconds }
        ensures keeps { (self.new.services ≡ self.old.services) × (self.new.last ≡ self.old.last)
            × (self.new.listening ≡ self.old.listening) × (self.new.peers ≡ self.old.peers)
            × (self.new.turn ≡ self.old.turn) }
        ensures system { self.new.system ≡ self.old.system }
    {
        self.most = Some(milliseconds);
    }

    /// Delivers the bytes that were taken, for 10 seconds at most, and returns the system.
    pub(crate) fn deliver(self, ready: &mut [Ready]) -> Logged<S>
        requires ready { length ready.old ≡ most_ready }
        ensures ended { HasEnded (linger_end self.turn.clock) self.system.log.steps result.log.steps }
        ensures looked { HasLooked self.system.log.steps result.log.steps }
        ensures offered { AreOffered Flush.All self.peers.items self.system.log.steps result.log.steps }
    {
        let Sockets {
            mut system,
            mut peers,
            listening: _,
            last: _,
            recent: _,
            turn,
            most: _,
            services: _,
            spare: _,
        } = self;
        let until = turn.clock.saturating_add(LINGER);
        deliver(&mut system, peers.as_mut_slice(), until, ready);
        system
    }

    /// Makes sockets without a peer, over a system, with an empty log.
    ///
    /// # Errors
    /// Returns an error if memory is refused.
    pub(crate) fn new(system: S, alloc: Global, turn: Turn) -> Result<Sockets<S>, AllocError>
        requires turn { turn ≡ first_turn turn.timekeeper.wall turn.timekeeper.start }
        ensures { IfOk result (λ sockets. (sockets.system.system ≡ system) × (sockets.system.log.steps ≡ [])
            × (sockets.turn ≡ turn) × (vec_capacity sockets.peers ≡ most_peers) × (sockets.most ≡ None)
            × (sockets.last ≡ 0) × (sockets.listening ≡ Listening.Ready) × (sockets.services ≡ 0)
            × (length sockets.peers.items ≡ 0)) }
    {
        Ok(Sockets {
            system: Logged::new(system),
            peers: Vec::with_capacity(alloc, MOST_PEERS)?,
            listening: Listening::Ready,
            last: 0,
            recent: 0,
            turn,
            most: None,
            services: 0,
            spare: make_queues(alloc)?,
        })
    }

    /// Closes a peer, or returns `Close` if the peer is not there. A closed peer lingers until its socket took the
    /// queued bytes and its input ended, for 10 seconds at most.
    pub(crate) fn close(&mut self, number: u32) -> Result<(), DoorFault>
        ensures trace { SaysOne self.old.system.log.steps (CloseCall number result) self.new.system.log.steps }
        ensures log { self.new.system.log.steps ≡ self.old.system.log.steps ++ Answers (CloseCall number result) ∷ [] }
        ensures turn { self.new.turn ≡ after_call self.old.turn (CloseCall number result) }
        ensures keeps { (self.new.services ≡ self.old.services) × (self.new.most ≡ self.old.most)
            × (self.new.last ≡ self.old.last) × (self.new.listening ≡ self.old.listening) }
        ensures fault { IfErr result (λ fault. fault ≡ DoorFault.Close) }
        ensures shares { AreFrom KeepsShare self.old.peers.items self.new.peers.items }
    {
        let Some(index) = self.index_of(number) else {
            self.system
                .answer(&Answer::Close(number, Err(DoorFault::Close)));
            self.turn.note_close();
            return Err(DoorFault::Close);
        };
        self.peers[index].linger(self.turn.clock);
        self.system.answer(&Answer::Close(number, Ok(())));
        self.turn.note_close();
        Ok(())
    }

    /// Closes the sockets of the lingering peers with nothing left to do, `MOST_LINGERING` sockets at most.
    fn close_gone(&mut self)
        ensures calls { SaysNothing self.old.system.log.steps self.new.system.log.steps }
        ensures most { GrowsBy most_lingering self.old.system.log.steps self.new.system.log.steps }
        ensures as_few { length self.new.peers.items ≤ length self.old.peers.items }
        ensures left { AreFrom KeepsRest self.old.peers.items self.new.peers.items }
        ensures last { self.new.last ≡ self.old.last }
        ensures times { KeepsTimes self.old.system.log.steps self.new.system.log.steps }
        ensures keeps { (self.new.turn ≡ self.old.turn) × (self.new.services ≡ self.old.services)
            × (self.new.most ≡ self.old.most) × (self.new.listening ≡ self.old.listening) }
        ensures closed { AreClosedUp self.old.turn.clock self.new.peers.items
            self.old.system.log.steps self.new.system.log.steps }
        ensures out { (all : Bool) → AreFlushed all self.old.system.log.steps
            → AreFlushed all self.new.system.log.steps }
    {
        for _ in 0..MOST_LINGERING {
            let Some(index) = first_gone(self.peers.as_slice(), self.turn.clock) else {
                return;
            };
            self.close_at(index);
        }
    }

    /// Closes the socket of a peer.
    fn close_at(&mut self, index: usize)
        requires within { index < length self.old.peers.items }
        requires closable { (d : Peer) → is_closable self.old.turn.clock
            (slice_index_or self.old.peers.items index d) ≡ true }
        ensures calls { SaysNothing self.old.system.log.steps self.new.system.log.steps }
        ensures most { GrowsBy 1 self.old.system.log.steps self.new.system.log.steps }
        ensures as_few { length self.new.peers.items ≤ length self.old.peers.items }
        ensures left { AreFrom KeepsRest self.old.peers.items self.new.peers.items }
        ensures last { self.new.last ≡ self.old.last }
        ensures times { KeepsTimes self.old.system.log.steps self.new.system.log.steps }
        ensures keeps { (self.new.turn ≡ self.old.turn) × (self.new.services ≡ self.old.services)
            × (self.new.most ≡ self.old.most) }
        ensures heard { self.new.listening ≡ self.old.listening }
        ensures closed { Makes is_close 1 self.old.system.log.steps self.new.system.log.steps }
        ensures out { (all : Bool) → AreFlushed all self.old.system.log.steps
            → AreFlushed all self.new.system.log.steps }
        ensures one { (who : ℕ) × (self.new.system.log.steps ≡ self.old.system.log.steps ++ Closes who ∷ []) }
    {
        let number = self.peers[index].number;
        let peer = self.peers.remove(index);
        self.spare.push(peer.into_queues()).unwrap();
        self.system.close(number);
    }

    /// Returns the moment to report.
    ///
    /// # Errors
    /// Returns `Now` if the clock cannot be read.
    pub(crate) fn now(&mut self) -> Result<u64, DoorFault>
        requires read { AreRead self.old.system.log.steps }
        requires may { MayTell self.old.turn self.old.system.log.steps }
        requires visited { AreVisited self.old.system.log.steps self.old.peers.items }
        ensures trace { SaysOne self.old.system.log.steps (NowCall result) self.new.system.log.steps }
        ensures fault { IfErr result (λ fault. fault ≡ DoorFault.Now) }
        ensures clock { IsClocked self.old.turn result self.old.system.log.steps self.new.system.log.steps }
        ensures services { self.new.services ≡ self.old.services }
        ensures clocks { (self.new.turn.timekeeper.wall ≡ self.old.turn.timekeeper.wall)
            × (self.new.turn.timekeeper.start ≡ self.old.turn.timekeeper.start) }
        ensures keeps { (self.new.most ≡ self.old.most) × (self.new.last ≡ self.old.last)
            × (self.new.listening ≡ self.old.listening) × (self.new.peers ≡ self.old.peers) }
    {
        let shown = self.system.clock();
        let answer = self.turn.report_moment(shown);
        self.system.answer(&Answer::Now(answer));
        answer
    }

    /// Returns the index of the peer with this number, if the peer is there. The search begins at the last index, since
    /// a peer is written line by line. Next is the index behind, since peers are visited nearly in the order in which
    /// they came.
    fn index_of(&self, number: u32) -> Option<usize>
        ensures found { IfSome result (λ index. (index < length self.now.peers.items)
            × ((d : Peer) → IsPresent number (slice_index_or self.now.peers.items index d))) }
        ensures none { IfNone result (IsMissing number self.now.peers.items) }
    {
        if self.is_at(self.recent, number) {
            return Some(self.recent);
        }
        let next = self.recent.saturating_add(1);
        if self.is_at(next, number) {
            return Some(next);
        }
        self.find(number)
    }

    /// Returns whether the peer with this number is there, and has the index.
    fn is_at(&self, index: usize, number: u32) -> bool
        ensures yes { result ≡ true → (index < length self.now.peers.items)
            × ((d : Peer) → IsPresent number (slice_index_or self.now.peers.items index d)) }
        ensures no { result ≡ false → index < length self.now.peers.items → (d : Peer)
            → (slice_index_or self.now.peers.items index d).number ≡ number
            → is_here (slice_index_or self.now.peers.items index d).stay ≡ false }
    {
        match self.peers.get(index) {
            Some(peer) => peer.number == number && peer.stay.is_here(),
            None => false,
        }
    }

    /// Returns the index of the peer with this number, if the peer is there.
    fn find(&self, number: u32) -> Option<usize>
        ensures found { IfSome result (λ index. (index < length self.now.peers.items)
            × ((d : Peer) → IsPresent number (slice_index_or self.now.peers.items index d))) }
        ensures none { IfNone result (IsMissing number self.now.peers.items) }
    {
        for index in 0..self.peers.len() {
            if self.is_at(index, number) {
                return Some(index);
            }
        }
        None
    }

    /// Takes bytes for a peer, and returns how many, or `Write` if the peer is not there.
    pub(crate) fn write(&mut self, number: u32, bytes: &[u8]) -> Result<usize, DoorFault>
        ensures trace { SaysOne self.old.system.log.steps (WriteCall number bytes.now result)
            self.new.system.log.steps }
        ensures log { self.new.system.log.steps
            ≡ self.old.system.log.steps ++ Answers (WriteCall number bytes.now result) ∷ [] }
        ensures turn { self.new.turn ≡ after_call self.old.turn (WriteCall number bytes.now result) }
        ensures count { IfOk result (λ n. n ≤ length bytes.now) }
        ensures fault { IfErr result (λ fault. fault ≡ DoorFault.Write) }
        ensures exact { IsPeerWritten self.old.peers.items number bytes.now result }
        ensures shares { AreFrom KeepsShare self.old.peers.items self.new.peers.items }
        ensures keeps { (self.new.services ≡ self.old.services) × (self.new.most ≡ self.old.most)
            × (self.new.last ≡ self.old.last) × (self.new.listening ≡ self.old.listening) }
    {
        let Some(index) = self.index_of(number) else {
            self.system
                .answer(&Answer::Write(number, bytes, Err(DoorFault::Write)));
            self.turn.note_write(Err(DoorFault::Write));
            return Err(DoorFault::Write);
        };
        self.recent = index;
        let count = self.peers[index].write(&mut self.system, bytes);
        self.turn.note_write(Ok(count));
        Ok(count)
    }
}

//! A peer with its socket.

ghost use Rattle.std.specs.Prelude.{◌≡◌, ◌≢◌, ◌<◌, ◌≤◌, true, false, not, cond, ℕ, [], Ok, length, take, nat_lt};
ghost use Rattle.std.specs.Prelude.{◌∷◌, ◌++◌};
ghost use Rattle.srcp_peers.specs.Steps.{Answers};
ghost use Rattle.srcp_door.specs.Calls.{WriteCall};
ghost use Rattle.srcp_peers.specs.Peers.{Asks, CallsForOne, IsKept, Offers, Spares, IsRead, after_wake, has_rest};
ghost use Rattle.srcp_peers.specs.Peers.{holds_input, is_busy, is_due, is_over, is_resting, is_waiting, is_wanting};
ghost use Rattle.srcp_peers.specs.Peers.{is_lost, is_turn_before, may_have};
ghost use Rattle.srcp_peers.specs.Peers.{enqueued, lines_left_after, queued_more, tries_again, woken_output};
ghost use Rattle.srcp_peers.specs.declared.readiness.Input.{Input};
ghost use Rattle.srcp_peers.specs.declared.readiness.Output.{Output};
ghost use Rattle.srcp_peers.specs.Ends.{begun, written};
ghost use Rattle.srcp_peers.specs.declared.ending.Ending.{Ending};
ghost use Rattle.srcp_door.specs.declared.pacing.LineBoundary.{LineBoundary};

use crate::ending::Ending;
use crate::log::{Answer, Logged};
use crate::queue::{Incoming, MOST_INCOMING, MOST_OUTGOING, Outgoing, Queues};
use crate::readiness::{Flush, Input, Output};
use crate::stay::Stay;
use crate::system::{Ready, System, failure_of};
use srcp_door::{LineBoundary, MOST_WRITES, Share};
use srcp_info::{LONGEST_LINE, MOST_IN_PIECE};

/// A peer with more queued bytes than this is flushed before the clock goes on. The queue then has space for all writes
/// of a visit.
const FLUSH_THRESHOLD: usize = MOST_OUTGOING - MOST_WRITES as usize * LONGEST_LINE;

/// Holds a peer and the state of the peer's socket.
///
/// ```
/// let mut peer = Peer::new(number, service, Queues::new(alloc)?);
/// let got = peer.read(&mut system, &mut turn, waits, service, &mut buffer);
/// let taken = peer.write(&mut system, reply);
/// ```
#[derive(Drop)]
pub struct Peer {
    /// The number of the socket.
    pub number: u32,
    /// How many lines may still be queued for the peer in this visit while the socket is full.
    pub lines_left: u32,
    /// The bytes written to the peer that the socket did not take yet.
    pub outgoing: Outgoing,
    /// The bytes read from the peer that were not handed out yet.
    pub incoming: Incoming,
    /// What a read may find.
    pub input: Input,
    /// What a write may find.
    pub output: Output,
    /// True if the last write did not fit the queue: the core has more for the peer, and takes no input of the peer.
    pub backpressured: bool,
    /// Whether the peer is there, or lingers.
    pub stay: Stay,
    /// The peer's share of the lines that are handed out.
    pub share: Share,
    /// How far the peer is on the way to its end.
    pub ending: Ending,
    /// True if input of the peer was handed out since the last flush: the next bytes written to the peer are a reply.
    pub awaits_reply: bool,
    // A number and no time, since a clock may show the same time for many services.
    /// The number of the peer's last service: input of the peer was handed out then, or the peer came. Each service of
    /// any peer has a greater number than those before.
    pub served: u64,
}

impl Peer {
    /// Returns a new peer without a share, so that new peers do not keep the others from their lines. `service` is the
    /// number of the service as which the peer's coming counts.
    pub fn new(number: u32, service: u64, queues: Queues) -> Peer
        ensures { result ≡ record {
          number = number;
          outgoing = [];
          incoming = [];
          input = Input.Ready;
          output = Output.Open;
          backpressured = false;
          stay = Stay.Here;
          share = record { line = LineBoundary.At; rest = 0 };
          ending = Ending.Open;
          awaits_reply = true;
          served = service;
          lines_left = MOST_WRITES;
        } }
    {
        let Queues { outgoing, incoming } = queues;
        Peer {
            number,
            outgoing,
            incoming,
            input: Input::Ready,
            output: Output::Open,
            backpressured: false,
            stay: Stay::Here,
            share: Share {
                line: LineBoundary::At,
                rest: 0,
            },
            ending: Ending::Open,
            awaits_reply: true,
            served: service,
            lines_left: MOST_WRITES,
        }
    }

    /// Returns the queues of a peer whose socket is closed, for the next peer. What they held is dropped.
    pub fn into_queues(self) -> Queues
        ensures { (result.outgoing ≡ []) × (result.incoming ≡ []) }
    {
        let Peer {
            mut outgoing,
            mut incoming,
            ..
        } = self;
        outgoing.clear();
        incoming.clear();
        Queues { outgoing, incoming }
    }

    /// Notes what the socket was found ready for. Another socket's `ready` changes nothing.
    pub(crate) fn wake(&mut self, ready: Ready)
        ensures { self.new ≡ after_wake self.old ready }
    {
        if ready.socket == self.number {
            self.input = self
                .input
                .woken(ready.readable, ready.closed || ready.urgent);
            self.output = self.output.woken(ready.writable);
        }
    }

    /// Writes the queued bytes once, if some are queued, the socket may take some, and `what` says that the peer is
    /// due.
    #[inline(always)]
    pub(crate) fn flush<S: System>(&mut self, system: &mut Logged<S>, what: Flush)
        requires { IsKept system.old.log.steps self.old }
        ensures alone { CallsForOne 1 self.old self.new system.old.log.steps system.new.log.steps }
        ensures same { self.new ≡ record self.old {
          outgoing = self.new.outgoing;
          output = self.new.output;
          awaits_reply = self.new.awaits_reply;
        } }
        ensures offered { woken_output self.old.output (tries_again what) ≡ Output.Open → self.old.outgoing ≢ []
            → is_due what self.old ≡ true
            → Offers (record self.old { output = Output.Open }) self.new system.old.log.steps system.new.log.steps }
    {
        if !self.output.woken(what.tries_again()).is_open()
            || self.outgoing.is_empty()
            || !self.is_due(what)
        {
            return;
        }
        self.awaits_reply = false;
        let all = self.outgoing.len();
        match system.write(self.number, &self.outgoing) {
            Ok(count) => {
                self.outgoing.drop_front(count);
                self.output = Output::after(count, all);
            }
            Err(fault) => self.output = Output::Open.after_failure(failure_of(fault)),
        }
    }

    /// Returns whether the queued bytes are flushed: always if `what` is not `Answers`, or if the queue is long. An
    /// answer is flushed too, unless the core takes held input of the peer, since more of the answer follows then.
    fn is_due(&self, what: Flush) -> bool
        ensures { result ≡ is_due what self.now }
    {
        // So sixteen pieces that came together are answered by one write, and the lines of a panel go together.
        what.is_all()
            || self.outgoing.len() > FLUSH_THRESHOLD
            || self.awaits_reply && (self.backpressured || self.incoming.is_empty())
    }

    /// Begins a visit: reads the socket, and takes a step on the way to the end. With `anew` the share becomes a whole
    /// piece again. At most `lines_left` lines may be queued in the visit while the socket is full.
    pub(crate) fn begin_visit<S: System>(
        &mut self,
        system: &mut Logged<S>,
        anew: bool,
        lines_left: u32,
    )
        requires { IsKept system.old.log.steps self.old }
        ensures alone { CallsForOne 1 self.old self.new system.old.log.steps system.new.log.steps }
        ensures stay { self.new.stay ≡ self.old.stay }
        ensures asked { may_have self.old.input ≡ true → length self.old.incoming < MOST_IN_PIECE
            → Asks self.old self.new system.old.log.steps system.new.log.steps }
        ensures read { IsRead system.new.log.steps self.old.number }
        ensures ending { self.new.ending ≡ begun self.old.ending (is_over self.new.incoming self.new.input) }
        ensures share { self.new.share ≡ record self.old.share {
          rest = cond anew MOST_IN_PIECE self.old.share.rest;
        } }
        ensures same { self.new ≡ record self.old {
          incoming = self.new.incoming;
          input = self.new.input;
          share = self.new.share;
          ending = self.new.ending;
          lines_left = lines_left;
        } }
    {
        self.fill(system);
        self.lines_left = lines_left;
        if anew {
            self.share.rest = MOST_IN_PIECE;
        }
        self.ending = self.ending.begin_visit(self.input.is_over(&self.incoming));
    }

    /// Returns whether a read may find something and less than a piece is held.
    fn is_wanting(&self) -> bool
        ensures is { result ≡ is_wanting self.now.input self.now.incoming }
        ensures yes { result ≡ true → (may_have self.now.input ≡ true) × (length self.now.incoming < MOST_IN_PIECE) }
        ensures no { result ≡ false → may_have self.now.input ≡ true → MOST_IN_PIECE ≤ length self.now.incoming }
    {
        self.input.is_ready() && self.incoming.len() < MOST_IN_PIECE
    }

    /// Reads the socket once, if a read may find something and less than a piece is held.
    #[inline(always)]
    pub(crate) fn fill<S: System>(&mut self, system: &mut Logged<S>)
        requires { IsKept system.old.log.steps self.old }
        ensures alone { CallsForOne 1 self.old self.new system.old.log.steps system.new.log.steps }
        ensures asked { may_have self.old.input ≡ true → length self.old.incoming < MOST_IN_PIECE
            → Asks self.old self.new system.old.log.steps system.new.log.steps }
        ensures read { IsRead system.new.log.steps self.old.number }
        ensures same { self.new ≡ record self.old { incoming = self.new.incoming; input = self.new.input } }
    {
        if !self.is_wanting() {
            return;
        }
        let space = MOST_INCOMING - self.incoming.len();
        match self.incoming.read_from(system, self.number) {
            Ok(count) => self.input = self.input.given(count, space),
            Err(fault) => self.input = self.input.missed(failure_of(fault)),
        }
    }

    /// Takes as many bytes as there is space for, and returns how many. A lost peer's bytes are dropped.
    pub fn write<S: System>(&mut self, system: &mut Logged<S>, bytes: &[u8]) -> usize
        requires kept { IsKept system.old.log.steps self.old }
        requires here { self.old.stay ≡ Stay.Here }
        ensures kept { IsKept system.new.log.steps self.new }
        ensures count { result ≤ length bytes.now }
        ensures exact { result ≡ enqueued self.old bytes.now }
        ensures log { system.new.log.steps
            ≡ system.old.log.steps ++ Answers (WriteCall self.old.number bytes.now (Ok result)) ∷ [] }
        ensures others { (other : ℕ) → other ≢ self.old.number
            → Spares other system.old.log.steps system.new.log.steps }
        ensures number { self.new.number ≡ self.old.number }
        ensures same { self.new ≡ record self.old {
          outgoing = queued_more self.old.output self.old.outgoing (take result bytes.now);
          lines_left = lines_left_after self.old.output self.old.lines_left;
          backpressured = nat_lt result (length bytes.now);
          ending = written self.old.ending (not (nat_lt result (length bytes.now)));
        } }
    {
        let count = self.enqueue(bytes);
        self.backpressured = count < bytes.len();
        if !self.ending.is_open() {
            self.ending = self.ending.written(!self.backpressured);
        }
        system.answer(&Answer::Write(self.number, bytes, Ok(count)));
        count
    }

    /// Gathers as many bytes as there is space for, and returns how many.
    fn enqueue(&mut self, bytes: &[u8]) -> usize
        ensures count { result ≤ length bytes.now }
        ensures exact { result ≡ enqueued self.old bytes.now }
        ensures new { self.new ≡ record self.old {
          outgoing = queued_more self.old.output self.old.outgoing (take result bytes.now);
          lines_left = lines_left_after self.old.output self.old.lines_left;
        } }
    {
        match self.output {
            Output::Open => (),
            Output::Full if self.lines_left > 0 => self.lines_left -= 1,
            Output::Full => return 0,
            // A read reports the loss. What is written meanwhile counts as taken, and is dropped.
            Output::Lost => return bytes.len(),
        }
        self.outgoing.take(bytes)
    }

    /// Returns whether input of the peer is held that the core takes.
    pub fn holds_input(&self) -> bool
        ensures { result ≡ holds_input self.now }
    {
        self.stay.is_here() && !self.backpressured && !self.incoming.is_empty()
    }

    /// Returns whether it is the peer's turn before that of a peer whose last service has the number `served`: input of
    /// the peer is held that the core takes, and the peer was served longer ago.
    pub fn is_turn_before(&self, served: u64) -> bool
        ensures { result ≡ is_turn_before served self.now }
    {
        self.served < served && self.holds_input()
    }

    /// Returns whether bytes are queued that the socket may still take.
    pub fn is_owed(&self) -> bool
        ensures { result ≡ is_waiting self.now }
    {
        !self.outgoing.is_empty() && !self.output.is_lost()
    }

    /// Returns whether the peer is there with work to do that waits for no socket.
    pub(crate) fn is_busy(&self) -> bool
        ensures { result ≡ is_busy self.now }
    {
        self.stay.is_here() && !self.is_resting()
    }

    /// Returns whether the peer is there with no work to do until its socket is found ready.
    pub(crate) fn is_resting(&self) -> bool
        ensures { result ≡ is_resting self.now }
    {
        self.stay.is_here() && self.has_rest()
    }

    /// Returns whether there is no work to do until the socket is found ready.
    fn has_rest(&self) -> bool
        ensures { result ≡ has_rest self.now }
    {
        if !self.output.is_resting(&self.outgoing) {
            return false;
        }
        if self.backpressured {
            self.outgoing.len() == MOST_OUTGOING
        } else {
            self.incoming.is_empty() && self.input.is_resting(&self.outgoing)
        }
    }
}

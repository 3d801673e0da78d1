//! How a peer lingers after the core closed it. The socket is written the queued bytes, is shut down behind these, and
//! is read until the input ends. To close a socket with unread input would reset the connection, and the peer would
//! lose the bytes that it had not read.

ghost use Rattle.std.specs.Prelude.{◌≡◌, ◌<◌, ℕ, [], true, false, IfSome, length, slice_index_or, filter, not};
ghost use Rattle.std.specs.Prelude.{◌⊎◌, max, position};
ghost use Rattle.srcp_peers.specs.declared.peer.Peer.{Peer};
ghost use Rattle.srcp_peers.specs.Peers.{CallsForOne, IsKept, OffersDue, is_closable, is_gone, is_here, is_lost};
ghost use Rattle.srcp_peers.specs.Peers.{Asks, IsDrained, KeepsRest, Makes, calls_in, is_read_of, is_shut, may_have};
ghost use Rattle.srcp_peers.specs.Peers.{reads_each, stay_after};

use crate::log::Logged;
use crate::peer::Peer;
use crate::readiness::Flush;
use crate::stay::{Stay, is_overdue};
use crate::system::System;

/// The most reads in a turn of all lingering sockets together. These reads drop the input as fast as more comes.
const MOST_DRAINED: usize = 64;

/// How many peers linger at most. With as many, one is closed before a connection is accepted.
pub const MOST_LINGERING: usize = 64;

impl Peer {
    /// Notes that the core closed the peer. `since` is what the monotonic clock showed then, in milliseconds.
    pub fn linger(&mut self, since: u64)
        ensures { self.new ≡ record self.old { stay = Stay.Draining since } }
    {
        self.stay = Stay::Draining { since };
    }

    /// Flushes a peer that is there. Goes on with a lingering peer, with at most `reads` reads of its socket.
    #[inline(always)]
    pub(crate) fn flush_or_linger<S: System>(
        &mut self,
        system: &mut Logged<S>,
        what: Flush,
        reads: usize,
    )
        requires { IsKept system.old.log.steps self.old }
        ensures alone { CallsForOne (calls_in reads self.old) self.old self.new
            system.old.log.steps system.new.log.steps }
        ensures offered { OffersDue what self.old system.old.log.steps system.new.log.steps }
        ensures stay { self.new.stay ≡ stay_after self.old.stay self.new.outgoing self.new.output }
        ensures keeps { KeepsRest self.old self.new }
        ensures drained { IsDrained reads self.old self.new system.old.log.steps system.new.log.steps }
    {
        if self.stay.is_here() {
            self.flush(system, what);
        } else {
            self.linger_step(system, reads);
        }
    }

    /// Goes on with a lingering peer: writes its queued bytes, shuts its socket down, or drops its input.
    #[inline(never)]
    fn linger_step<S: System>(&mut self, system: &mut Logged<S>, reads: usize)
        requires { IsKept system.old.log.steps self.old }
        ensures alone { CallsForOne (max 2 reads) self.old self.new system.old.log.steps system.new.log.steps }
        ensures offered { is_here self.old.stay ≡ false
            → OffersDue Flush.All self.old system.old.log.steps system.new.log.steps }
        ensures stay { self.new.stay ≡ stay_after self.old.stay self.new.outgoing self.new.output }
        ensures keeps { KeepsRest self.old self.new }
        ensures drained { IsDrained reads self.old self.new system.old.log.steps system.new.log.steps }
    {
        match self.stay {
            Stay::Here => (),
            Stay::Draining { since } => self.drain_output(system, since),
            Stay::Shut { .. } => self.drain_input(system, reads),
        }
    }

    /// Writes the queued bytes, and shuts the socket down once the socket took all of them.
    fn drain_output<S: System>(&mut self, system: &mut Logged<S>, since: u64)
        requires kept { IsKept system.old.log.steps self.old }
        requires draining { self.old.stay ≡ Stay.Draining since }
        ensures alone { CallsForOne 2 self.old self.new system.old.log.steps system.new.log.steps }
        ensures offered { OffersDue Flush.All self.old system.old.log.steps system.new.log.steps }
        ensures stay { self.new.stay ≡ stay_after self.old.stay self.new.outgoing self.new.output }
        ensures keeps { KeepsRest self.old self.new }
    {
        self.flush(system, Flush::All);
        if self.outgoing.is_empty() && !self.output.is_lost() {
            self.shut_down(system, since);
        }
    }

    /// Shuts down the writing side of the socket.
    fn shut_down<S: System>(&mut self, system: &mut Logged<S>, since: u64)
        requires kept { IsKept system.old.log.steps self.old }
        requires draining { self.old.stay ≡ Stay.Draining since }
        requires taken { self.old.outgoing ≡ [] }
        requires sound { is_lost self.old.output ≡ false }
        ensures alone { CallsForOne 1 self.old self.new system.old.log.steps system.new.log.steps }
        ensures same { self.new ≡ record self.old { stay = Stay.Shut since } }
    {
        system.shutdown(self.number);
        self.stay = Stay::Shut { since };
    }

    /// Drops the input that the socket gives, in at most `reads` reads.
    fn drain_input<S: System>(&mut self, system: &mut Logged<S>, reads: usize)
        requires kept { IsKept system.old.log.steps self.old }
        requires gone { is_here self.old.stay ≡ false }
        ensures alone { CallsForOne reads self.old self.new system.old.log.steps system.new.log.steps }
        ensures stay { self.new.stay ≡ self.old.stay }
        ensures keeps { KeepsRest self.old self.new }
        ensures drained { (may_have self.new.input ≡ false)
            ⊎ Makes (is_read_of self.old.number) reads system.old.log.steps system.new.log.steps }
    {
        for _ in 0..reads {
            if !self.input.is_ready() {
                return;
            }
            self.skip(system);
        }
    }

    /// Drops the input that was read, and reads once more.
    fn skip<S: System>(&mut self, system: &mut Logged<S>)
        requires kept { IsKept system.old.log.steps self.old }
        requires gone { is_here self.old.stay ≡ false }
        ensures alone { CallsForOne 1 self.old self.new system.old.log.steps system.new.log.steps }
        ensures stay { self.new.stay ≡ self.old.stay }
        ensures keeps { KeepsRest self.old self.new }
        ensures asked { may_have self.old.input ≡ true
            → Asks (record self.old { incoming = [] }) self.new system.old.log.steps system.new.log.steps }
    {
        self.drop_input();
        self.fill(system);
    }

    /// Drops the input that was read.
    fn drop_input(&mut self)
        ensures { self.new ≡ record self.old { incoming = [] } }
    {
        self.incoming.clear();
    }

    /// Returns whether nothing is left to do for a lingering peer.
    fn is_gone(&self, clock: u64) -> bool
        ensures is { result ≡ is_gone clock self.now }
        ensures closable { result ≡ true → is_closable clock self.now ≡ true }
    {
        match self.stay {
            Stay::Here => false,
            Stay::Draining { since } => self.output.is_lost() || is_overdue(clock, since),
            Stay::Shut { since } => {
                self.output.is_lost() || self.input.has_ended() || is_overdue(clock, since)
            }
        }
    }

    /// Returns whether the peer lingers and is owed nothing.
    fn is_shut(&self) -> bool
        ensures is { result ≡ is_shut self.now.stay }
        ensures closable { (clock : ℕ) → result ≡ true → is_closable clock self.now ≡ true }
    {
        match self.stay {
            Stay::Here | Stay::Draining { .. } => false,
            Stay::Shut { .. } => true,
        }
    }
}

/// Returns how often each lingering socket is read in a turn. The sockets share `MOST_DRAINED` reads, with at least one
/// each.
pub(crate) fn reads_each(peers: &[Peer]) -> usize
    ensures { result ≡ reads_each peers.now }
{
    (MOST_DRAINED / count_lingering(peers).max(1)).max(1)
}

/// Returns how many peers linger.
fn count_lingering(peers: &[Peer]) -> usize
    ensures { result ≡ length (filter (λ peer. not (is_here peer.stay)) peers.now) }
{
    peers.iter().filter(|peer| !peer.stay.is_here()).count()
}

/// Returns how many peers linger and are owed nothing.
pub fn count_shut(peers: &[Peer]) -> usize
    ensures { result ≡ length (filter (λ peer. is_shut peer.stay) peers.now) }
{
    peers.iter().filter(|peer| peer.is_shut()).count()
}

/// Returns the index of the first lingering peer with nothing left to do, if any. `clock` is the monotonic clock, in
/// milliseconds.
pub fn first_gone(peers: &[Peer], clock: u64) -> Option<usize>
    ensures first { result ≡ position (is_gone clock) peers.now }
    ensures gone { IfSome result (λ index. (d : Peer) → is_gone clock (slice_index_or peers.now index d) ≡ true) }
    ensures closable { IfSome result (λ index. (index < length peers.now)
        × ((d : Peer) → is_closable clock (slice_index_or peers.now index d) ≡ true)) }
{
    peers.iter().position(|peer| peer.is_gone(clock))
}

/// Returns the index of the first peer that lingers and is owed nothing, if any.
pub fn first_shut(peers: &[Peer]) -> Option<usize>
    ensures first { result ≡ position (λ peer. is_shut peer.stay) peers.now }
    ensures closable { IfSome result (λ index. (index < length peers.now)
        × ((clock : ℕ) (d : Peer) → is_closable clock (slice_index_or peers.now index d) ≡ true)) }
{
    peers.iter().position(|peer| peer.is_shut())
}

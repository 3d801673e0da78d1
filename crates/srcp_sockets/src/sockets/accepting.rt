//! How a pending connection is accepted.

ghost use Rattle.std.specs.Prelude.{All, false, true, ◌≡◌, ◌<◌, ◌≤◌, ◌+◌, ◌⊎◌, None, Ok, Err, IfErr, length};
ghost use Rattle.std.specs.Prelude.{◌++◌, ◌∷◌, [], ℕ, IfOk, OnErr, Some, vec_capacity};
ghost use Rattle.srcp_info.specs.Limits.{greatest_id};
ghost use Rattle.srcp_log.specs.Asked.{IsExcused, MayAnswer};
ghost use Rattle.srcp_log.specs.Doors.{is_quiet};
ghost use Rattle.srcp_log.specs.Limits.{most_peers};
ghost use Rattle.srcp_log.specs.Loads.{AnswersWithin};
ghost use Rattle.srcp_log.specs.Services.{made_after};
ghost use Rattle.srcp_log.specs.Work.{AreFrom, IsAccepting, IsFrom, FreesPlace, is_crowded, last_after};
ghost use Rattle.srcp_log.specs.Work.{may_accept};
ghost use Rattle.srcp_peers.specs.Peers.{KeepsShare};
ghost use Rattle.srcp_peers.specs.Times.{failed_accept};
ghost use Rattle.srcp_peers.specs.Turns.{after_call};
ghost use Rattle.srcp_door.specs.Calls.{AcceptCall};
ghost use Rattle.srcp_peers.specs.Steps.{Answers, Closes, GrowsBy, SaysNothing};

use super::{MOST_PEERS, Sockets};
use srcp_door::DoorFault;
use srcp_peers::{
    Answer, IoFailure, Listening, MOST_LINGERING, Peer, Queues, System, count_shut, failure_of,
    first_shut,
};
use std::alloc::{AllocError, Global};
use std::vec::Vec;

impl<S: System> Sockets<S> {
    /// Accepts the next pending connection, if there is one. Its number is above those of all peers before it.
    ///
    /// # Errors
    /// `Accept` if the system failed to accept it, or if the numbers ran out.
    pub(crate) fn accept(&mut self) -> Result<Option<u32>, DoorFault>
        ensures answers { AnswersWithin self.old.system.log.steps (AcceptCall result) self.new.system.log.steps }
        ensures fault { IfErr result (λ fault. fault ≡ DoorFault.Accept) }
        ensures rests { OnErr result (self.new.listening ≡ Listening.BackingOff) }
        ensures asks { may_accept self.old.listening self.old.peers.items ≡ true
            → ((result ≡ Err DoorFault.Accept) × (self.old.last ≡ greatest_id))
            ⊎ IsAccepting (self.old.last + 1) result self.old.listening self.new.listening
            self.old.system.log.steps self.new.system.log.steps }
        ensures turn { self.new.turn ≡ after_call self.old.turn (AcceptCall result) }
        ensures next { (number : ℕ) → result ≡ Ok (Some number) → number ≡ self.old.last + 1 }
        ensures most { self.new.most ≡ self.old.most }
        ensures services { self.new.services ≡ made_after (AcceptCall result) self.old.services }
        ensures last { self.new.last ≡ last_after self.old.last result }
        ensures came { (number : ℕ) → result ≡ Ok (Some number)
            → All (λ peer. peer.number ≡ number → peer.served ≡ self.new.services) self.new.peers.items }
        ensures shares { All (λ peer. peer.number ≤ self.old.last
            → IsFrom KeepsShare self.old.peers.items peer) self.new.peers.items }
        ensures quiet { is_quiet self.old.listening ≡ true → (self.new.listening ≡ self.old.listening)
            × (self.new.system.log.steps ≡ self.old.system.log.steps ++ Answers (AcceptCall (Ok None)) ∷ []) }
        ensures makes { is_quiet self.old.listening ≡ false
            → is_crowded self.old.peers.items ≡ true
            → FreesPlace self.old.peers.items self.old.listening self.new.listening
            self.old.system.log.steps self.new.system.log.steps }
    {
        if !self.may_accept() {
            return self.note_nobody(Ok(None));
        }
        let Some(number) = self.last.checked_add(1) else {
            self.listening = Listening::BackingOff;
            return self.note_nobody(Err(DoorFault::Accept));
        };
        self.accept_next(number)
    }

    /// Returns whether the next pending connection may be accepted now. If too many linger that are owed nothing,
    /// one of them is closed first.
    fn may_accept(&mut self) -> bool
        ensures calls { SaysNothing self.old.system.log.steps self.new.system.log.steps }
        ensures few { GrowsBy 1 self.old.system.log.steps self.new.system.log.steps }
        ensures place { result ≡ true → length self.new.peers.items < most_peers }
        ensures last { self.new.last ≡ self.old.last }
        ensures is { result ≡ may_accept self.old.listening self.old.peers.items }
        ensures excused { result ≡ false → IsExcused self.new.system.log.steps }
        ensures keeps { (self.new.services ≡ self.old.services) × (self.new.most ≡ self.old.most)
            × (self.new.turn ≡ self.old.turn) }
        ensures shares { AreFrom KeepsShare self.old.peers.items self.new.peers.items }
        ensures same { result ≡ true → (self.new.listening ≡ self.old.listening) × (self.new.last ≡ self.old.last)
            × (self.new.system.log.steps ≡ self.old.system.log.steps) }
        ensures quiet { is_quiet self.old.listening ≡ true → (self.new.listening ≡ self.old.listening)
            × (self.new.system.log.steps ≡ self.old.system.log.steps) }
        ensures makes { is_quiet self.old.listening ≡ false
            → is_crowded self.old.peers.items ≡ true
            → FreesPlace self.old.peers.items self.old.listening self.new.listening
            self.old.system.log.steps self.new.system.log.steps }
    {
        if self.listening.is_quiet() {
            return false;
        }
        if self.is_crowded() {
            self.free_place();
            return false;
        }
        true
    }

    /// Notes that nobody came, or a fault, if the system was not asked.
    fn note_nobody(
        &mut self,
        answer: Result<Option<u32>, DoorFault>,
    ) -> Result<Option<u32>, DoorFault>
        requires nobody { (answer ≡ Ok None) ⊎ (answer ≡ Err DoorFault.Accept) }
        requires excused { MayAnswer self.old.system.log.steps answer }
        ensures log { self.new.system.log.steps ≡ self.old.system.log.steps ++ Answers (AcceptCall result) ∷ [] }
        ensures same { result ≡ answer }
        ensures turn { self.new.turn ≡ after_call self.old.turn (AcceptCall result) }
        ensures listening { self.new.listening ≡ self.old.listening }
        ensures keeps { (self.new.services ≡ self.old.services) × (self.new.most ≡ self.old.most)
            × (self.new.peers ≡ self.old.peers) }
        ensures last { self.new.last ≡ last_after self.old.last result }
    {
        self.system.answer(&Answer::Accept(answer));
        self.turn.note_accept(answer);
        answer
    }

    /// Accepts the next pending connection under that number, if there is one.
    fn accept_next(&mut self, number: u32) -> Result<Option<u32>, DoorFault>
        requires next { number ≡ self.old.last + 1 }
        requires place { length self.old.peers.items < most_peers }
        requires loud { is_quiet self.old.listening ≡ false }
        ensures fault { IfErr result (λ fault. fault ≡ DoorFault.Accept) }
        ensures rests { OnErr result (self.new.listening ≡ Listening.BackingOff) }
        ensures exact { IsAccepting number result self.old.listening self.new.listening
            self.old.system.log.steps self.new.system.log.steps }
        ensures turn { self.new.turn ≡ after_call self.old.turn (AcceptCall result) }
        ensures most { self.new.most ≡ self.old.most }
        ensures services { self.new.services ≡ made_after (AcceptCall result) self.old.services }
        ensures last { self.new.last ≡ last_after self.old.last result }
        ensures came { (number : ℕ) → result ≡ Ok (Some number)
            → All (λ peer. peer.number ≡ number → peer.served ≡ self.new.services) self.new.peers.items }
        ensures shares { All (λ peer. peer.number ≤ self.old.last
            → IsFrom KeepsShare self.old.peers.items peer) self.new.peers.items }
    {
        match self.system.accept(number) {
            Ok(()) => {
                let queues = self.spare.pop().unwrap();
                // A new peer counts as served now, so coming anew gains nothing.
                let service = self.services.saturating_add(1);
                self.peers.push(Peer::new(number, service, queues)).unwrap();
                self.services = service;
                self.last = number;
                self.system.answer(&Answer::Accept(Ok(Some(number))));
                self.turn.note_accept(Ok(Some(number)));
                Ok(Some(number))
            }
            Err(fault) => {
                let said = failure_of(fault);
                self.listening = Listening::after_failure(said);
                let answer = nobody(said);
                self.system.answer(&Answer::Accept(answer));
                self.turn.note_accept(answer);
                answer
            }
        }
    }

    /// Returns whether one that lingers has to be closed before a connection is accepted. Who is owed something counts
    /// only if all places are taken.
    fn is_crowded(&self) -> bool
        ensures is { result ≡ is_crowded self.now.peers.items }
        ensures place { result ≡ false → length self.now.peers.items < most_peers }
    {
        // Only a peer that is owed nothing is closed for a new peer, as each client that was turned away. So a peer
        // that is owed bytes never loses them to others.
        self.peers.len() >= MOST_PEERS || count_shut(self.peers.as_slice()) >= MOST_LINGERING
    }

    /// Closes the first peer that lingers and is owed nothing. If there is none, no connection is accepted until one is
    /// closed.
    fn free_place(&mut self)
        requires { is_quiet self.old.listening ≡ false }
        ensures calls { SaysNothing self.old.system.log.steps self.new.system.log.steps }
        ensures last { self.new.last ≡ self.old.last }
        ensures keeps { (self.new.services ≡ self.old.services) × (self.new.most ≡ self.old.most)
            × (self.new.turn ≡ self.old.turn) }
        ensures shares { AreFrom KeepsShare self.old.peers.items self.new.peers.items }
        ensures closes { (self.new.system.log.steps ≡ self.old.system.log.steps)
            ⊎ ((who : ℕ) × (self.new.system.log.steps ≡ self.old.system.log.steps ++ Closes who ∷ [])) }
        ensures makes { FreesPlace self.old.peers.items self.old.listening self.new.listening
            self.old.system.log.steps self.new.system.log.steps }
    {
        match first_shut(self.peers.as_slice()) {
            Some(index) => self.close_at(index),
            None => self.listening = Listening::BackingOff,
        }
    }
}

// Made as the door opens, 45 KB a place: so a door that runs takes no memory for a peer, and refused memory puts no
// peer off.
/// Makes the queues of all places.
///
/// # Errors
/// Returns an error if memory is refused.
pub(super) fn make_queues(alloc: Global) -> Result<Vec<Queues>, AllocError>
    ensures { IfOk result (λ all. (length all.items ≡ most_peers) × (most_peers ≤ vec_capacity all)) }
{
    let mut all = Vec::with_capacity(alloc, MOST_PEERS)?;
    for _ in 0..MOST_PEERS {
        all.push(Queues::new(alloc)?).unwrap();
    }
    Ok(all)
}

/// Answers for an accept that failed.
fn nobody(said: IoFailure) -> Result<Option<u32>, DoorFault>
    ensures answer { result ≡ failed_accept said }
    ensures fault { IfErr result (λ fault. fault ≡ DoorFault.Accept) }
{
    match said {
        IoFailure::WouldBlock | IoFailure::Interrupted => Ok(None),
        IoFailure::Fatal => Err(DoorFault::Accept),
    }
}

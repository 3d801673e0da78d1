//! How a peer is read.

ghost use Rattle.std.specs.Prelude.{◌≡◌, ◌≢◌, ◌<◌, ◌≤◌, ◌⊎◌, ◌++◌, ◌∷◌, [], ℕ, false, true, Ok, Err, IfErr};
ghost use Rattle.std.specs.Prelude.{if◌then◌else◌, length};
ghost use Rattle.srcp_door.specs.Calls.{ReadCall};
ghost use Rattle.srcp_door.specs.declared.pacing.LineBoundary.{LineBoundary};
ghost use Rattle.std.specs.List.{list_any};
ghost use Rattle.srcp_peers.specs.Peers.{is_turn_before};
ghost use Rattle.srcp_peers.specs.Steps.{Answers, SaysOne};
ghost use Rattle.srcp_peers.specs.Turns.{after_read, got_bytes};
ghost use Rattle.srcp_log.specs.Doors.{IsMissing};
ghost use Rattle.srcp_log.specs.Services.{AfterRead, hands_bytes, made_after};
ghost use Rattle.srcp_log.specs.Work.{AreFrom, IsPeerRead, goes_behind};

use super::Sockets;
use srcp_door::{DoorFault, Got};
use srcp_peers::{Answer, Peer, System};

impl<S: System> Sockets<S> {
    /// Returns whether the turn is late: what fell due comes first, and no input is handed out.
    pub(crate) fn is_late(&self) -> bool
        ensures { result ≡ self.now.turn.late }
    {
        self.turn.late
    }

    /// Hands out nothing of a peer, in a late turn.
    pub(crate) fn hold_back(&mut self, number: u32, buffer: &[u8]) -> Result<Got, DoorFault>
        requires { self.old.turn.late ≡ true }
        ensures trace { SaysOne self.old.system.log.steps (ReadCall number result buffer.now)
            self.new.system.log.steps }
        ensures log { self.new.system.log.steps
            ≡ self.old.system.log.steps ++ Answers (ReadCall number result buffer.now) ∷ [] }
        ensures nothing { result ≡ Ok Got.Nothing }
        ensures keeps { (self.new.services ≡ self.old.services) × (self.new.most ≡ self.old.most)
            × (self.new.last ≡ self.old.last) × (self.new.listening ≡ self.old.listening)
            × (self.new.peers ≡ self.old.peers) × (self.new.turn ≡ self.old.turn) }
    {
        let answer = Ok(Got::Nothing);
        self.system.answer(&Answer::Read(number, answer, buffer));
        answer
    }

    /// Returns whether the lines of a peer go behind those of others: not every line may go now, and input is held of a
    /// peer that was served longer ago.
    fn goes_behind(&self, peer: &Peer) -> bool
        ensures { result ≡ goes_behind self.now.turn self.now.peers.items peer.now }
    {
        // The peer served longest ago goes first, so the stop of a throttle that was let lie goes next, from any place.
        self.turn.is_slow() && self.has_earlier(peer.served)
    }

    /// Returns whether input is held of a peer that was served before the service with the number `served`.
    fn has_earlier(&self, served: u64) -> bool
        ensures { result ≡ list_any (is_turn_before served) self.now.peers.items }
    {
        self.peers.iter().any(|peer| peer.is_turn_before(served))
    }

    /// Reads the bytes that came from a peer. While not every line may go, the lines of the peer that was served
    /// longest ago go first.
    ///
    /// # Errors
    /// Returns `Read` if the peer is lost or not there, unless the turn reported another end.
    pub(crate) fn read(&mut self, number: u32, buffer: &mut [u8]) -> Result<Got, DoorFault>
        requires { self.old.turn.late ≡ false }
        ensures trace { SaysOne self.old.system.log.steps (ReadCall number result buffer.new)
            self.new.system.log.steps }
        ensures log { self.new.system.log.steps
            ≡ self.old.system.log.steps ++ Answers (ReadCall number result buffer.new) ∷ [] }
        ensures count { (n : ℕ) → result ≡ Ok (Got.Bytes n) → (0 < n) × (n ≤ length buffer.old) }
        ensures fault { IfErr result (λ fault. fault ≡ DoorFault.Read) }
        ensures answered { IsPeerRead self.old.turn self.old.peers.items self.new.peers.items number
            (length buffer.old) result (got_bytes result buffer.new) }
        ensures missing { IsMissing number self.old.peers.items → got_bytes result buffer.new ≡ [] }
        ensures services { self.new.services ≡ made_after (ReadCall number result buffer.new) self.old.services }
        ensures shares { AreFrom (AfterRead number (got_bytes result buffer.new) self.new.services)
            self.old.peers.items self.new.peers.items }
        ensures keeps { (self.new.most ≡ self.old.most) × (self.new.last ≡ self.old.last)
            × (self.new.listening ≡ self.old.listening) }
        ensures clocks { self.new.turn.timekeeper ≡ self.old.turn.timekeeper }
    {
        let Some(index) = self.index_of(number) else {
            return self.read_nobody(number, buffer);
        };
        let waits = self.goes_behind(&self.peers[index]);
        let service = self.services.saturating_add(1);
        self.recent = index;
        let got = self.peers[index].read(&mut self.system, &mut self.turn, waits, service, buffer);
        self.services = after_read(got, service, self.services);
        got
    }

    /// Reports a peer that is not there as lost, unless the turn reported another end.
    ///
    /// # Errors
    /// Returns `Read` unless the turn reported another end.
    fn read_nobody(&mut self, number: u32, buffer: &[u8]) -> Result<Got, DoorFault>
        requires { IsMissing number self.old.peers.items }
        ensures trace { SaysOne self.old.system.log.steps (ReadCall number result buffer.now)
            self.new.system.log.steps }
        ensures log { self.new.system.log.steps
            ≡ self.old.system.log.steps ++ Answers (ReadCall number result buffer.now) ∷ [] }
        ensures nothing { (result ≡ Ok Got.Nothing) ⊎ (result ≡ Err DoorFault.Read) }
        ensures turn { (line : LineBoundary) → self.new.turn ≡ after_read self.old.turn line result buffer.now }
        ensures keeps { (self.new.services ≡ self.old.services) × (self.new.most ≡ self.old.most)
            × (self.new.last ≡ self.old.last) × (self.new.listening ≡ self.old.listening)
            × (self.new.peers ≡ self.old.peers) }
    {
        let answer = self.turn.report_fault();
        self.system.answer(&Answer::Read(number, answer, buffer));
        answer
    }
}

/// Returns the number of services after a read. If the read handed out input, it was the service `service`, and else
/// there were `services`.
fn after_read(got: Result<Got, DoorFault>, service: u64, services: u64) -> u64
    ensures { result ≡ if hands_bytes got then service else services }
{
    // A single byte counts as a service. So a peer that sends without end half a line, or a line without weight, holds
    // up each other peer once.
    if let Ok(Got::Bytes(_)) = got {
        service
    } else {
        services
    }
}

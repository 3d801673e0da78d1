//! How a read of a peer is answered: with held input, with the end of the peer, or with a fault.

ghost use Rattle.std.specs.Prelude.{◌≡◌, ◌≢◌, ◌<◌, ◌≤◌, ◌++◌, ◌==◌, ◌||◌, not, true, false, cond, ℕ, List, [], ◌∷◌};
ghost use Rattle.std.specs.Prelude.{Ok, IfErr, OnErr, length};
ghost use Rattle.srcp_peers.specs.Steps.{Answers};
ghost use Rattle.srcp_door.specs.Calls.{ReadCall};
ghost use Rattle.srcp_peers.specs.Peers.{IsKept, MayEnd, MayFail, Spares};
ghost use Rattle.srcp_peers.specs.Turns.{after_read, got_bytes, own_pace, reports_end};
ghost use Rattle.srcp_peers.specs.Reports.{IsAnswered, end_in, is_ended, is_failed, piece_of};
ghost use Rattle.srcp_door.specs.Pacing.{Allows, fits, line_after, share_after, weight_of};
ghost use Rattle.srcp_door.specs.declared.pacing.LineBoundary.{LineBoundary};
ghost use Rattle.srcp_peers.specs.declared.stay.Stay.{Stay};

use crate::log::{Answer, Logged};
use crate::peer::Peer;
use crate::readiness::Input;
use crate::system::System;
use crate::turn::Turn;
use srcp_door::{DoorFault, Got};
use srcp_info::MOST_IN_PIECE;

/// Says what is to be reported of a peer while none of its input is held.
#[derive(Clone, Copy)]
enum Due {
    /// Nothing now.
    Nothing,
    /// The end of the peer.
    End,
    /// The loss of the peer.
    Fault,
}

impl Peer {
    /// Moves held input to the start of a buffer, as much as the pace of the turn allows. With `waits` the peer waits
    /// for others: if the pace is short, no line that weighs something is moved. If input is moved, that is the peer's
    /// service, and `service` its number. If no input is held, reports the end or the fault of the peer, unless the
    /// turn reported another.
    ///
    /// # Errors
    /// Returns `Read` if the peer is lost, unless the turn reported another end.
    pub fn read<S: System>(
        &mut self,
        system: &mut Logged<S>,
        turn: &mut Turn,
        waits: bool,
        service: u64,
        buffer: &mut [u8],
    ) -> Result<Got, DoorFault>
        requires kept { IsKept system.old.log.steps self.old }
        requires here { self.old.stay ≡ Stay.Here }
        ensures kept { IsKept system.new.log.steps self.new }
        ensures log { system.new.log.steps
            ≡ system.old.log.steps ++ Answers (ReadCall self.old.number result buffer.new) ∷ [] }
        ensures count { (n : ℕ) → result ≡ Ok (Got.Bytes n) → (0 < n) × (n ≤ length buffer.new) }
        ensures fault { IfErr result (λ fault. fault ≡ DoorFault.Read) }
        ensures others { (other : ℕ) → other ≢ self.old.number
            → Spares other system.old.log.steps system.new.log.steps }
        ensures number { self.new.number ≡ self.old.number }
        ensures turn { turn.new ≡ after_read turn.old self.old.share.line result buffer.new }
        ensures fits { fits turn.old.pace (weight_of self.old.share.line (got_bytes result buffer.new)) ≡ true }
        ensures ends { reports_end result ≡ true → turn.old.may_report_end ≡ true }
        ensures answered { IsAnswered turn.old waits self.old (length buffer.old) result
            (got_bytes result buffer.new) }
        ensures share { self.new.share ≡ share_after turn.old.pace self.old.share (got_bytes result buffer.new) }
        ensures served { self.new.served
            ≡ cond (length (got_bytes result buffer.new) == 0) self.old.served service }
        ensures awaits { self.new.awaits_reply
            ≡ (self.old.awaits_reply || not (length (got_bytes result buffer.new) == 0)) }
        ensures same { self.new ≡ record self.old {
          incoming = self.new.incoming;
          share = self.new.share;
          awaits_reply = self.new.awaits_reply;
          served = self.new.served;
        } }
    {
        let got = if self.incoming.is_empty() {
            self.reported_end(turn)
        } else {
            Ok(self.deliver_input(turn, waits, service, buffer))
        };
        system.answer(&Answer::Read(self.number, got, buffer));
        got
    }

    /// Moves held input to the start of a buffer, as much as the pace of the turn allows. If input is moved, the next
    /// bytes written to the peer are a reply.
    fn deliver_input(
        &mut self,
        turn: &mut Turn,
        waits: bool,
        service: u64,
        buffer: &mut [u8],
    ) -> Got
        ensures bytes { self.old.incoming ≡ got_bytes (Ok result) buffer.new ++ self.new.incoming }
        ensures ended { reports_end (Ok result) ≡ false }
        ensures count { (n : ℕ) → result ≡ Got.Bytes n → (0 < n) × (n ≤ length buffer.new) }
        ensures line { self.new.share.line ≡ line_after self.old.share.line (got_bytes (Ok result) buffer.new) }
        ensures turn { turn.new ≡ after_read turn.old self.old.share.line (Ok result) buffer.new }
        ensures fits { fits turn.old.pace (weight_of self.old.share.line (got_bytes (Ok result) buffer.new)) ≡ true }
        ensures allows { Allows (own_pace waits turn.old.pace) self.old.share (piece_of self.old (length buffer.old))
            (length (got_bytes (Ok result) buffer.new)) }
        ensures own { fits (own_pace waits turn.old.pace)
            (weight_of self.old.share.line (got_bytes (Ok result) buffer.new)) ≡ true }
        ensures share { self.new.share
            ≡ share_after turn.old.pace self.old.share (got_bytes (Ok result) buffer.new) }
        ensures served { self.new.served
            ≡ cond (length (got_bytes (Ok result) buffer.new) == 0) self.old.served service }
        ensures awaits { self.new.awaits_reply
            ≡ (self.old.awaits_reply || not (length (got_bytes (Ok result) buffer.new) == 0)) }
        ensures same { self.new ≡ record self.old {
          incoming = self.new.incoming;
          share = self.new.share;
          awaits_reply = self.new.awaits_reply;
          served = self.new.served;
        } }
    {
        let within = MOST_IN_PIECE.min(buffer.len()).min(self.incoming.len());
        let count = turn.allow(waits, &mut self.share, &self.incoming.front()[..within]);
        if count == 0 {
            return Got::Nothing;
        }
        buffer[..count].copy_from_slice(&self.incoming.front()[..count]);
        self.incoming.drop_front(count);
        self.awaits_reply = true;
        self.served = service;
        Got::Bytes(count)
    }

    /// Returns the report for a peer with no input held: the end or a fault, unless the turn reported another.
    fn reported_end(&self, turn: &mut Turn) -> Result<Got, DoorFault>
        ensures none { (n : ℕ) → result ≢ Ok (Got.Bytes n) }
        ensures bytes { (buffer : List ℕ) → got_bytes result buffer ≡ [] }
        ensures ended { result ≡ Ok Got.Ended → self.now.incoming ≡ [] → MayEnd self.now }
        ensures failed { OnErr result (MayFail self.now) }
        ensures exact { result ≡ end_in turn.old self.now }
        ensures fault { IfErr result (λ fault. fault ≡ DoorFault.Read) }
        ensures turn { (line : LineBoundary) (buffer : List ℕ) → turn.new ≡ after_read turn.old line result buffer }
        ensures ends { reports_end result ≡ true → turn.old.may_report_end ≡ true }
    {
        match self.due_end() {
            Due::Nothing => Ok(Got::Nothing),
            Due::End => turn.report_end(),
            Due::Fault => turn.report_fault(),
        }
    }

    /// Returns what is to be reported of a peer with no input held.
    fn due_end(&self) -> Due
        ensures end { result ≡ Due.End → self.now.incoming ≡ [] → MayEnd self.now }
        ensures fault { result ≡ Due.Fault → MayFail self.now }
        ensures exact { result ≡ cond (is_failed self.now) Due.Fault (cond (is_ended self.now) Due.End Due.Nothing) }
    {
        if self.output.is_lost() {
            return Due::Fault;
        }
        match self.input {
            Input::Failed => Due::Fault,
            Input::Ended if self.ending.is_settled() && self.outgoing.is_empty() => Due::End,
            _ => Due::Nothing,
        }
    }
}

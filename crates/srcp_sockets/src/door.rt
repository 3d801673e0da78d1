//! The door over the system's sockets.

ghost use Rattle.std.specs.Prelude.{◌≡◌, ◌<◌, ◌≤◌, IfErr, Ok, true, false, ℕ, None, Some, []};
ghost use Rattle.std.specs.Prelude.{IfOk, OnOk, OnErr, length, vec_capacity};
ghost use Rattle.srcp_door.specs.Calls.{AcceptCall, CloseCall, ExpectCall, NowCall, ReadCall, WriteCall, one_more};
ghost use Rattle.srcp_peers.specs.AllPeers.{AreOffered};
ghost use Rattle.srcp_peers.specs.Steps.{SaysOne};
ghost use Rattle.srcp_peers.specs.Turns.{first_turn, got_bytes};
ghost use Rattle.srcp_log.specs.Doors.{flushed_in};
ghost use Rattle.srcp_log.specs.Limits.{most_peers, most_ready};
ghost use Rattle.srcp_log.specs.Loads.{AnswersFairly, AnswersFairly-prop};
ghost use Rattle.srcp_log.specs.Shares.{SharesHold, SharesHold-prop};
ghost use Rattle.srcp_log.specs.Work.{IsPeerRead, IsPeerWritten};

use crate::sockets::Sockets;
use srcp_door::{Door, DoorFault, Got};
use srcp_peers::{Listening, Ready, System, Turn};
use std::alloc::{AllocError, Global};
use std::vec::Vec;

/// The most sockets that may be found ready at once.
pub(crate) const MOST_READY: usize = 128;

/// Holds a door over the system's sockets. When dropped, the door delivers the bytes that were taken.
///
/// ```
/// let mut door = SocketDoor::open(system, alloc, wall, start)?;
/// let moment = door.now()?;
/// ```
pub struct SocketDoor<S: System> {
    pub(crate) sockets: Sockets<S>,
    ready: Vec<Ready>,
    faults: u64,
    ghost most: { length ready.items ≡ most_ready },
    ghost fair: { AnswersFairly sockets.system.log.steps } by { AnswersFairly-prop _ },
    ghost shares: { SharesHold sockets.system.log.steps sockets.turn sockets.services
        sockets.peers.items } by { SharesHold-prop _ _ _ _ },
}

impl<S: System> SocketDoor<S> {
    /// Opens a door over a system, with an empty log. The moments begin with the wall clock `wall`, and go on with the
    /// monotonic clock, which showed `start` then; both in milliseconds.
    ///
    /// # Errors
    /// Returns an error if memory is refused.
    pub fn open(
        system: S,
        alloc: Global,
        wall: u64,
        start: u64,
    ) -> Result<SocketDoor<S>, AllocError>
        ensures faults { IfOk result (λ door. door.faults ≡ 0) }
        ensures system { IfOk result (λ door. door.sockets.system.system ≡ system) }
        ensures log { IfOk result (λ door. door.sockets.system.log.steps ≡ []) }
        ensures turn { IfOk result (λ door. door.sockets.turn ≡ first_turn wall start) }
        ensures places { IfOk result (λ door. vec_capacity door.sockets.peers ≡ most_peers) }
        ensures begins { IfOk result (λ door. (door.sockets.most ≡ None) × (door.sockets.last ≡ 0)
            × (door.sockets.listening ≡ Listening.Ready)) }
    {
        let nothing = Ready {
            socket: 0,
            readable: false,
            closed: false,
            urgent: false,
            writable: false,
        };
        let mut ready = Vec::new(alloc);
        ready.resize(MOST_READY, nothing)?;
        Ok(SocketDoor {
            sockets: Sockets::new(system, alloc, Turn::new(wall, start))?,
            ready,
            faults: 0,
        })
    }

    /// Limits how long `now` waits if nothing happens, in milliseconds; 0 is no wait.
    pub fn wait_at_most(&mut self, milliseconds: u64)
        ensures wait { self.new.sockets.most ≡ Some milliseconds }
        ensures system { self.new.sockets.system ≡ self.old.sockets.system }
        ensures faults { self.new.faults ≡ self.old.faults }
    {
        // By this limit a test makes 10,000 turns within its 60 seconds.
        self.sockets.wait_at_most(milliseconds);
    }

    /// Returns the system below.
    pub fn system(&self) -> &S
        ensures { result.now ≡ self.now.sockets.system.system }
    {
        self.sockets.system.system()
    }

    /// Counts a failed call.
    fn failed(&mut self)
        ensures counted { self.new.faults ≡ one_more self.old.faults }
        ensures sockets { self.new.sockets ≡ self.old.sockets }
    {
        self.faults = self.faults.saturating_add(1);
    }
}

impl<S: System> Drop for SocketDoor<S> {
    /// Delivers the bytes that were taken, for 10 seconds at most.
    fn drop(self) {
        let SocketDoor {
            sockets,
            mut ready,
            faults: _,
        } = self;
        let _system = sockets.deliver(ready.as_mut_slice());
    }
}

impl<S: System> Door for SocketDoor<S> {
    ghost use Rattle.std.specs.Prelude.{Some};
    ghost use Rattle.srcp_peers.specs.Steps.{calls};

    ghost faults = { λ d. d.faults };

    ghost trace = { λ d. Some (calls d.sockets.system.log.steps) };

    ghost limit = { λ d. d.sockets.most };

    fn expect(&mut self, due: Option<u64>, slack: Option<usize>)
        ensures faults { self.new.faults ≡ self.old.faults }
        ensures trace { SaysOne self.old.sockets.system.log.steps (ExpectCall due slack)
            self.new.sockets.system.log.steps }
        ensures limit { self.new.sockets.most ≡ self.old.sockets.most }
    {
        self.sockets.expect(due, slack);
    }

    fn now(&mut self) -> Result<u64, DoorFault>
        ensures ok { OnOk result (self.new.faults ≡ self.old.faults) }
        ensures err { OnErr result (self.new.faults ≡ one_more self.old.faults) }
        ensures fault { IfErr result (λ fault. fault ≡ DoorFault.Now) }
        ensures trace { SaysOne self.old.sockets.system.log.steps (NowCall result)
            self.new.sockets.system.log.steps }
        ensures limit { self.new.sockets.most ≡ self.old.sockets.most }
        ensures offered { AreOffered (flushed_in self.old.sockets.turn self.old.sockets.peers.items)
            self.old.sockets.peers.items self.old.sockets.system.log.steps self.new.sockets.system.log.steps }
    {
        self.sockets.begin_turn(self.ready.as_mut_slice());
        let answer = self.sockets.now();
        if answer.is_err() {
            self.failed();
        }
        answer
    }

    fn accept(&mut self) -> Result<Option<u32>, DoorFault>
        ensures ok { OnOk result (self.new.faults ≡ self.old.faults) }
        ensures err { OnErr result (self.new.faults ≡ one_more self.old.faults) }
        ensures fault { IfErr result (λ fault. fault ≡ DoorFault.Accept) }
        ensures trace { SaysOne self.old.sockets.system.log.steps (AcceptCall result)
            self.new.sockets.system.log.steps }
        ensures limit { self.new.sockets.most ≡ self.old.sockets.most }
    {
        let answer = self.sockets.accept();
        if answer.is_err() {
            self.failed();
        }
        answer
    }

    fn read(&mut self, peer: u32, buf: &mut [u8]) -> Result<Got, DoorFault>
        ensures ok { OnOk result (self.new.faults ≡ self.old.faults) }
        ensures err { OnErr result (self.new.faults ≡ one_more self.old.faults) }
        ensures fault { IfErr result (λ fault. fault ≡ DoorFault.Read) }
        ensures count { (n : ℕ) → result ≡ Ok (Got.Bytes n) → (0 < n) × (n ≤ length buf.old) }
        ensures trace { SaysOne self.old.sockets.system.log.steps (ReadCall peer result buf.new)
            self.new.sockets.system.log.steps }
        ensures late { self.old.sockets.turn.late ≡ true → result ≡ Ok Got.Nothing }
        ensures answered { self.old.sockets.turn.late ≡ false
            → IsPeerRead self.old.sockets.turn self.old.sockets.peers.items self.new.sockets.peers.items peer
            (length buf.old) result (got_bytes result buf.new) }
        ensures limit { self.new.sockets.most ≡ self.old.sockets.most }
    {
        // What fell due comes first. Else a pulse that a client sends to a server that stood still might end at the
        // moment at which the pulse begins.
        if self.sockets.is_late() {
            return self.sockets.hold_back(peer, buf);
        }
        let answer = self.sockets.read(peer, buf);
        if answer.is_err() {
            self.failed();
        }
        answer
    }

    fn write(&mut self, peer: u32, bytes: &[u8]) -> Result<usize, DoorFault>
        ensures ok { OnOk result (self.new.faults ≡ self.old.faults) }
        ensures err { OnErr result (self.new.faults ≡ one_more self.old.faults) }
        ensures fault { IfErr result (λ fault. fault ≡ DoorFault.Write) }
        ensures count { IfOk result (λ n. n ≤ length bytes.now) }
        ensures trace { SaysOne self.old.sockets.system.log.steps (WriteCall peer bytes.now result)
            self.new.sockets.system.log.steps }
        ensures exact { IsPeerWritten self.old.sockets.peers.items peer bytes.now result }
        ensures limit { self.new.sockets.most ≡ self.old.sockets.most }
    {
        let answer = self.sockets.write(peer, bytes);
        if answer.is_err() {
            self.failed();
        }
        answer
    }

    fn close(&mut self, peer: u32) -> Result<(), DoorFault>
        ensures ok { OnOk result (self.new.faults ≡ self.old.faults) }
        ensures err { OnErr result (self.new.faults ≡ one_more self.old.faults) }
        ensures fault { IfErr result (λ fault. fault ≡ DoorFault.Close) }
        ensures trace { SaysOne self.old.sockets.system.log.steps (CloseCall peer result)
            self.new.sockets.system.log.steps }
        ensures limit { self.new.sockets.most ≡ self.old.sockets.most }
    {
        let answer = self.sockets.close(peer);
        if answer.is_err() {
            self.failed();
        }
        answer
    }
}

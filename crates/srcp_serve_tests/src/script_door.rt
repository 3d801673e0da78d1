//! A door in memory.

ghost use Rattle.std.specs.Prelude.{◌≡◌, ◌<◌, ◌≤◌, ◌∷◌, ◌++◌, [], ℕ, None, Ok, IfErr, IfOk, IfSome, MatchOption};
ghost use Rattle.std.specs.Prelude.{OnOk, OnErr, length};
ghost use Rattle.srcp_door.specs.declared.door.Got.{Got};
ghost use Rattle.srcp_door.specs.Calls.{one_more};

use crate::trace_turns::{Asked, events_of};
use srcp_core::Event;
use srcp_serve::{Door, DoorFault, Got};
use std::alloc::{AllocError, Global};
use std::vec::Vec;

/// Holds a peer, with the bytes from the peer and the bytes written to the peer.
#[derive(Drop)]
pub(crate) struct ScriptPeer<'a> {
    /// The answers to reads, in order. An empty piece is the end, and after the last piece nothing comes.
    pieces: &'a [&'a [u8]],
    /// The most bytes taken by a write.
    at_once: usize,
    /// The number of pieces read.
    reads: usize,
    written: Vec<u8>,
    /// How many times the peer was closed.
    closes: u32,
}

impl<'a> ScriptPeer<'a> {
    pub(crate) fn new(alloc: Global, pieces: &'a [&'a [u8]], at_once: usize) -> ScriptPeer<'a> {
        ScriptPeer {
            pieces,
            at_once,
            reads: 0,
            written: Vec::new(alloc),
            closes: 0,
        }
    }

    fn read(&mut self, buffer: &mut [u8]) -> Got
        requires { 0 < length buffer.old }
        ensures { (n : ℕ) → result ≡ Got.Bytes n → (0 < n) × (n ≤ length buffer.old) }
    {
        let pieces = self.pieces;
        let Some(piece) = pieces.get(self.reads) else {
            return Got::Nothing;
        };
        self.reads = self.reads.saturating_add(1);
        let count = piece.len().min(buffer.len());
        if count == 0 {
            return Got::Ended;
        }
        buffer[..count].copy_from_slice(&piece[..count]);
        Got::Bytes(count)
    }

    fn take(&mut self, bytes: &[u8]) -> usize
        ensures { result ≤ length bytes.now }
    {
        let count = bytes.len().min(self.at_once);
        match self.written.extend_from_slice(&bytes[..count]) {
            Ok(()) => count,
            Err(_) => 0,
        }
    }
}

/// A door to peers in order: each accept lets in the next peer. A single call of the door may fail. The door keeps the
/// calls, up to the first for which memory is refused.
#[derive(Drop)]
pub(crate) struct ScriptDoor<'a> {
    alloc: Global,
    /// The moments of the turns, and 0 after them.
    moments: &'a [u64],
    peers: Vec<ScriptPeer<'a>>,
    /// The number of the failing call, counted from 1, or 0 if none fails.
    failing: u32,
    /// How many peers have come.
    arrived: u32,
    pub calls: u32,
    faults: u64,
    /// The calls with their answers, or `None` if memory was refused for a call.
    trace: Option<Vec<Asked>>,
}

impl<'a> ScriptDoor<'a> {
    pub(crate) fn new(alloc: Global, moments: &'a [u64], failing: u32) -> ScriptDoor<'a>
        ensures { IfSome result.trace (λ trace. trace.items ≡ []) }
    {
        ScriptDoor {
            alloc,
            moments,
            peers: Vec::new(alloc),
            failing,
            arrived: 0,
            calls: 0,
            faults: 0,
            trace: Some(Vec::new(alloc)),
        }
    }

    pub(crate) fn add(&mut self, peer: ScriptPeer<'a>) -> Result<(), AllocError>
        ensures { self.new.trace ≡ self.old.trace }
    {
        self.peers.push(peer)?;
        Ok(())
    }

    /// Returns what was written to the peer of this index, or no bytes if there is none.
    pub(crate) fn written(&self, index: usize) -> &[u8] {
        match self.peers.get(index) {
            Some(peer) => peer.written.as_slice(),
            None => &[],
        }
    }

    /// Returns how many times the peer of this index was closed.
    pub(crate) fn closes(&self, index: usize) -> u32 {
        match self.peers.get(index) {
            Some(peer) => peer.closes,
            None => 0,
        }
    }

    /// Returns the events made by the calls.
    ///
    /// # Errors
    /// Fails if memory is refused, or was refused to a call.
    pub(crate) fn events(&self) -> Result<Vec<Event>, AllocError> {
        match &self.trace {
            Some(calls) => events_of(self.alloc, calls),
            None => Err(AllocError),
        }
    }

    /// Counts a call. Fails if the number of this call is `failing`.
    fn call(&mut self, fault: DoorFault) -> Result<(), DoorFault>
        ensures ok { OnOk result (self.new.faults ≡ self.old.faults) }
        ensures err { OnErr result (self.new.faults ≡ one_more self.old.faults) }
        ensures fault { IfErr result (λ trace. trace ≡ fault) }
        ensures same { self.new.trace ≡ self.old.trace }
    {
        self.calls = self.calls.saturating_add(1);
        if self.calls == self.failing {
            self.faults = self.faults.saturating_add(1);
            Err(fault)
        } else {
            Ok(())
        }
    }

    /// Keeps a call with the answer.
    fn tell(&mut self, asked: Asked)
        ensures faults { self.new.faults ≡ self.old.faults }
        ensures trace { MatchOption self.old.trace (self.new.trace ≡ None) (λ old.
            IfSome self.new.trace (λ new. new.items ≡ old.items ++ asked ∷ [])) }
    {
        if let Some(mut trace) = self.trace.take()
            && trace.push(asked).is_ok()
        {
            self.trace = Some(trace);
        }
    }

    fn moment(&mut self) -> Result<u64, DoorFault>
        ensures ok { OnOk result (self.new.faults ≡ self.old.faults) }
        ensures err { OnErr result (self.new.faults ≡ one_more self.old.faults) }
        ensures fault { IfErr result (λ trace. trace ≡ DoorFault.Now) }
        ensures same { self.new.trace ≡ self.old.trace }
    {
        let moment = match self.moments.split_first() {
            Some((moment, later)) => {
                self.moments = later;
                *moment
            }
            None => 0,
        };
        match self.call(DoorFault::Now) {
            Ok(()) => Ok(moment),
            Err(fault) => Err(fault),
        }
    }

    fn next_peer(&mut self) -> Result<Option<u32>, DoorFault>
        ensures ok { OnOk result (self.new.faults ≡ self.old.faults) }
        ensures err { OnErr result (self.new.faults ≡ one_more self.old.faults) }
        ensures fault { IfErr result (λ trace. trace ≡ DoorFault.Accept) }
        ensures same { self.new.trace ≡ self.old.trace }
    {
        self.call(DoorFault::Accept)?;
        let next = self.arrived;
        if next as usize >= self.peers.len() {
            return Ok(None);
        }
        self.arrived = next.saturating_add(1);
        Ok(Some(next))
    }

    fn read_from(&mut self, peer: u32, buf: &mut [u8]) -> Result<Got, DoorFault>
        requires { 0 < length buf.old }
        ensures ok { OnOk result (self.new.faults ≡ self.old.faults) }
        ensures err { OnErr result (self.new.faults ≡ one_more self.old.faults) }
        ensures fault { IfErr result (λ trace. trace ≡ DoorFault.Read) }
        ensures count { (n : ℕ) → result ≡ Ok (Got.Bytes n) → (0 < n) × (n ≤ length buf.old) }
        ensures same { self.new.trace ≡ self.old.trace }
    {
        self.call(DoorFault::Read)?;
        match self.peers.get_mut(peer as usize) {
            Some(peer) => Ok(peer.read(buf)),
            None => Ok(Got::Nothing),
        }
    }

    fn write_to(&mut self, peer: u32, bytes: &[u8]) -> Result<usize, DoorFault>
        ensures ok { OnOk result (self.new.faults ≡ self.old.faults) }
        ensures err { OnErr result (self.new.faults ≡ one_more self.old.faults) }
        ensures fault { IfErr result (λ trace. trace ≡ DoorFault.Write) }
        ensures count { IfOk result (λ n. n ≤ length bytes.now) }
        ensures same { self.new.trace ≡ self.old.trace }
    {
        self.call(DoorFault::Write)?;
        match self.peers.get_mut(peer as usize) {
            Some(peer) => Ok(peer.take(bytes)),
            None => Ok(0),
        }
    }

    fn close_one(&mut self, peer: u32) -> Result<(), DoorFault>
        ensures ok { OnOk result (self.new.faults ≡ self.old.faults) }
        ensures err { OnErr result (self.new.faults ≡ one_more self.old.faults) }
        ensures fault { IfErr result (λ trace. trace ≡ DoorFault.Close) }
        ensures same { self.new.trace ≡ self.old.trace }
    {
        if let Some(peer) = self.peers.get_mut(peer as usize) {
            peer.closes = peer.closes.saturating_add(1);
        }
        self.call(DoorFault::Close)
    }
}

impl Door for ScriptDoor<'_> {
    ghost use Rattle.std.specs.Prelude.{map, option_map};
    ghost use Rattle.srcp_door.specs.Calls.{Call, ExpectCall, NowCall, AcceptCall, ReadCall, WriteCall, CloseCall};
    ghost use Rattle.srcp_serve_tests.specs.declared.trace_turns.Asked.TheVariants as asked;

    ghost faults = { λ d. d.faults };

    ghost trace = { λ d. option_map (λ calls. map (λ call. elim call as (λ _. Call) [
      | asked.Expect due slack ↦ ExpectCall due slack
      | asked.Now answer ↦ NowCall answer
      | asked.Accept answer ↦ AcceptCall answer
      | asked.Read peer answer buffer ↦ ReadCall peer answer buffer.items
      | asked.Write peer bytes answer ↦ WriteCall peer bytes.items answer
      | asked.Close peer answer ↦ CloseCall peer answer
    ]) calls.items) d.trace };

    fn expect(&mut self, due: Option<u64>, slack: Option<usize>) {
        self.tell(Asked::Expect { due, slack });
    }

    fn now(&mut self) -> Result<u64, DoorFault> {
        let answer = self.moment();
        self.tell(Asked::Now(answer));
        answer
    }

    fn accept(&mut self) -> Result<Option<u32>, DoorFault> {
        let answer = self.next_peer();
        self.tell(Asked::Accept(answer));
        answer
    }

    fn read(&mut self, peer: u32, buf: &mut [u8]) -> Result<Got, DoorFault> {
        let answer = self.read_from(peer, buf);
        match Vec::from_slice(self.alloc, buf) {
            Ok(buffer) => self.tell(Asked::Read {
                peer,
                answer,
                buffer,
            }),
            Err(_) => self.trace = None,
        }
        answer
    }

    fn write(&mut self, peer: u32, bytes: &[u8]) -> Result<usize, DoorFault> {
        let answer = self.write_to(peer, bytes);
        match Vec::from_slice(self.alloc, bytes) {
            Ok(bytes) => self.tell(Asked::Write {
                peer,
                bytes,
                answer,
            }),
            Err(_) => self.trace = None,
        }
        answer
    }

    fn close(&mut self, peer: u32) -> Result<(), DoorFault> {
        let answer = self.close_one(peer);
        self.tell(Asked::Close { peer, answer });
        answer
    }
}

//! The door of a server: the calls by which a server reaches the outside.

ghost use Rattle.std.specs.Prelude.{◌≡◌, ℕ, ◌<◌, ◌≤◌, List, Option, None, length, OnOk, OnErr, IfOk, IfErr};
ghost use Rattle.srcp_door.specs.Calls.{Call, Extends, one_more};
ghost use Rattle.srcp_door.specs.Calls.{ExpectCall, NowCall, AcceptCall, ReadCall, WriteCall, CloseCall};

/// Names the call of a door that failed.
#[derive(Clone, Copy, Debug, PartialEq, Eq)]
pub enum DoorFault {
    /// The time is not known.
    Now,
    /// No peer could be accepted, or the accepted peer is lost.
    Accept,
    /// A peer could not be read.
    Read,
    /// A peer could not be written to.
    Write,
    /// A peer could not be closed.
    Close,
}

/// Answers a read.
#[derive(Clone, Copy, Debug, PartialEq, Eq)]
pub enum Got {
    /// The number of bytes read, at least 1. The bytes are at the start of the buffer.
    Bytes(usize),
    /// No bytes are here yet, and more may come.
    Nothing,
    /// The input is over: the peer sends no more.
    Ended,
}

/// The most writes to a peer in a visit.
pub const MOST_WRITES: u32 = 300;

/// Gives a server the time, and the input and output of the server's peers. A failure names the call, and the door
/// counts the failure.
pub trait Door {
    /// The number of calls that failed. The count stops at the greatest u64.
    ghost faults: { Self → ℕ };

    /// The calls with their answers, if the door keeps them.
    ghost trace: { Self → Option (List Call) } = { λ _. None };

    /// How many milliseconds `now` waits at most if nothing happens. No call changes that.
    ghost limit: { Self → Option ℕ } = { λ _. None };

    /// Tells the door when the next row falls due, and how many more changes each information session can take. Either
    /// is `None` if there is no such row or no such session. `serve` makes this call right before `now`. A door then
    /// knows how long a wait may take, and how much input may be handed out.
    fn expect(&mut self, due: Option<u64>, slack: Option<usize>)
        ensures faults { faults self.new ≡ faults self.old }
        ensures trace { Extends (trace self.old) (ExpectCall due slack) (trace self.new) }
        ensures limit { limit self.new ≡ limit self.old };

    /// Returns the time, in milliseconds since 1970. A door over sockets waits here for input, for sockets that take
    /// more bytes, and for the next row that falls due.
    ///
    /// # Errors
    /// Returns `Now` if the time is not known.
    fn now(&mut self) -> Result<u64, DoorFault>
        ensures ok { OnOk result (faults self.new ≡ faults self.old) }
        ensures err { OnErr result (faults self.new ≡ one_more (faults self.old)) }
        ensures fault { IfErr result (λ fault. fault ≡ DoorFault.Now) }
        ensures trace { Extends (trace self.old) (NowCall result) (trace self.new) }
        ensures limit { limit self.new ≡ limit self.old };

    /// Accepts a pending peer, if any, and returns the peer's number. All later calls name the peer by that number, and
    /// no later peer gets the number.
    ///
    /// # Errors
    /// Returns `Accept` if no peer could be accepted, or the accepted peer is lost.
    fn accept(&mut self) -> Result<Option<u32>, DoorFault>
        ensures ok { OnOk result (faults self.new ≡ faults self.old) }
        ensures err { OnErr result (faults self.new ≡ one_more (faults self.old)) }
        ensures fault { IfErr result (λ fault. fault ≡ DoorFault.Accept) }
        ensures trace { Extends (trace self.old) (AcceptCall result) (trace self.new) }
        ensures limit { limit self.new ≡ limit self.old };

    /// Reads the bytes that came from a peer, at most as many as the buffer holds.
    ///
    /// # Errors
    /// Returns `Read` if the peer cannot be read. The peer is lost then.
    fn read(&mut self, peer: u32, buf: &mut [u8]) -> Result<Got, DoorFault>
        requires { 0 < length buf.old }
        ensures ok { OnOk result (faults self.new ≡ faults self.old) }
        ensures err { OnErr result (faults self.new ≡ one_more (faults self.old)) }
        ensures fault { IfErr result (λ fault. fault ≡ DoorFault.Read) }
        ensures count { (n : ℕ) → result ≡ Ok (Got.Bytes n) → (0 < n) × (n ≤ length buf.old) }
        ensures trace { Extends (trace self.old) (ReadCall peer result buf.new) (trace self.new) }
        ensures limit { limit self.new ≡ limit self.old };

    /// Writes to a peer as many bytes as the peer takes, from the first on, and returns how many. The other bytes have
    /// to be written again.
    ///
    /// # Errors
    /// Returns `Write` if the peer cannot be written to. The peer took none of these bytes then, and is lost.
    fn write(&mut self, peer: u32, bytes: &[u8]) -> Result<usize, DoorFault>
        ensures ok { OnOk result (faults self.new ≡ faults self.old) }
        ensures err { OnErr result (faults self.new ≡ one_more (faults self.old)) }
        ensures fault { IfErr result (λ fault. fault ≡ DoorFault.Write) }
        ensures count { IfOk result (λ n. n ≤ length bytes.now) }
        ensures trace { Extends (trace self.old) (WriteCall peer bytes.now result) (trace self.new) }
        ensures limit { limit self.new ≡ limit self.old };

    /// Closes a peer. No later call names the peer.
    ///
    /// # Errors
    /// Returns `Close` if the system fails to close the peer. The peer is closed all the same.
    fn close(&mut self, peer: u32) -> Result<(), DoorFault>
        ensures ok { OnOk result (faults self.new ≡ faults self.old) }
        ensures err { OnErr result (faults self.new ≡ one_more (faults self.old)) }
        ensures fault { IfErr result (λ fault. fault ≡ DoorFault.Close) }
        ensures trace { Extends (trace self.old) (CloseCall peer result) (trace self.new) }
        ensures limit { limit self.new ≡ limit self.old };
}

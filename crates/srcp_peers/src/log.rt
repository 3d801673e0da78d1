//! A system with the log of its calls. Clauses alone read the log, which takes no memory and no instruction.

ghost use Rattle.std.specs.Prelude.{◌≡◌, ◌<◌, ◌≤◌, List, [], ◌∷◌, ◌++◌, IfOk, length, min, take};
ghost use Rattle.std.specs.Borrow.{ftrue};
ghost use Rattle.srcp_peers.specs.Steps.{Step, Accepts, Answers, Clocks, Closes, Reads, Shuts, Waits, Writes};
ghost use Rattle.srcp_peers.specs.Sizes.{AreSmall, AreSmall-prop};

use crate::queue::{MOST_INCOMING, Outgoing};
use crate::system::{Ready, System};
use srcp_door::{DoorFault, Got};
use std::io::ErrorKind;
use std::marker::Model;

/// Holds the calls of a system with their answers, and the answers of the door, for clauses alone.
#[derive(Drop)]
pub struct Log {
    /// The calls and answers, the first one first.
    pub ghost steps: { List Step },
}

impl Model for Log {
    ghost also_owns = { λ _. ftrue };
}

/// Names a call of a door, with the answer.
///
/// ```
/// system.answer(&Answer::Close(number, Ok(())));
/// ```
#[derive(Clone, Copy, Drop)]
pub enum Answer<'a> {
    /// The door was told what falls due next, and how many changes the panels can still take.
    Expect(Option<u64>, Option<usize>),
    /// The door was asked for the moment.
    Now(Result<u64, DoorFault>),
    /// The door was asked for a pending peer.
    Accept(Result<Option<u32>, DoorFault>),
    /// The door was asked for the bytes of this peer. The buffer is as the read left it.
    Read(u32, Result<Got, DoorFault>, &'a [u8]),
    /// The door was handed these bytes for this peer.
    Write(u32, &'a [u8], Result<usize, DoorFault>),
    /// The door was told to close this peer.
    Close(u32, Result<(), DoorFault>),
}

/// Names a step of the log.
#[derive(Clone, Copy, Drop)]
pub(crate) enum Note<'a> {
    Accepts(u32, Result<(), ErrorKind>),
    Reads(u32, &'a [u8], Result<usize, ErrorKind>),
    Writes(u32, &'a [u8], Result<usize, ErrorKind>),
    Waits(Option<u64>, usize, &'a [Ready]),
    Shuts(u32),
    Closes(u32),
    Clocks(Option<u64>),
    Answers(Answer<'a>),
}

impl Log {
    ghost use Rattle.srcp_peers.specs.Notes.{step_of};

    /// Makes a log without a step.
    fn new() -> Log
        ensures { result.steps ≡ [] }
    {
        Log {}
    }

    /// Adds a step at the end.
    #[inline(always)]
    fn note(&mut self, _note: &Note<'_>)
        ensures { self.new.steps ≡ self.old.steps ++ step_of _note.now ∷ [] }
    {}
}

// The door owns the log, so no system has a log to keep, and no law has the premise of such a log. What a call did
// is `Made` of the system: a body that logs an answer and makes no call does not prove.
/// Makes the calls of a system, and logs each call with its answer. A door logs its own answers between these calls.
///
/// ```
/// let mut system = Logged::new(sockets);
/// system.accept(number)?;
/// let count = system.wait(None, &mut ready);
/// let shown = system.clock();
/// system.close(number);
/// ```
#[derive(Drop)]
pub struct Logged<S: System> {
    system: S,
    // The calls and answers up to now.
    log: Log,
    ghost small: { AreSmall log.steps } by { AreSmall-prop _ },
}

impl<S: System> Logged<S> {
    ghost use Rattle.srcp_peers.specs.Notes.{call_answered};

    /// Begins an empty log over a system.
    pub fn new(system: S) -> Logged<S>
        ensures log { result.log.steps ≡ [] }
        ensures system { result.system ≡ system }
    {
        Logged {
            system,
            log: Log::new(),
        }
    }

    /// Returns the system.
    pub fn system(&self) -> &S
        ensures { result.now ≡ self.now.system }
    {
        &self.system
    }

    /// Accepts the next pending connection. From then on its socket has this number.
    ///
    /// # Errors
    /// Returns the error of the system.
    #[tactic(auto, using(crate::proofs::CallsAreSmall::small_more))]
    pub fn accept(&mut self, number: u32) -> Result<(), ErrorKind>
        ensures log { self.new.log.steps ≡ self.old.log.steps ++ Accepts number result ∷ [] }
        ensures made { S.Made self.old.system (Accepts number result) self.new.system }
    {
        let answer = self.system.accept(number);
        self.log.note(&Note::Accepts(number, answer));
        answer
    }

    /// Reads once from a socket, at most [`MOST_INCOMING`] bytes, and returns how many came.
    ///
    /// # Errors
    /// Returns the error of the system.
    #[tactic(auto, using(crate::proofs::CallsAreSmall::small_more))]
    pub(crate) fn read(&mut self, socket: u32, buffer: &mut [u8]) -> Result<usize, ErrorKind>
        requires some { 0 < length buffer.old }
        ensures count { IfOk result (λ count. count ≤ min (length buffer.old) MOST_INCOMING) }
        ensures log { self.new.log.steps
            ≡ self.old.log.steps ++ Reads socket (take MOST_INCOMING buffer.new) result ∷ [] }
        ensures made { S.Made self.old.system (Reads socket (take MOST_INCOMING buffer.new) result) self.new.system }
    {
        let space = buffer.len().min(MOST_INCOMING);
        let buffer = &mut buffer[..space];
        let answer = self.system.read(socket, buffer);
        self.log.note(&Note::Reads(socket, buffer, answer));
        answer
    }

    /// Writes once to a socket what is queued for it, and returns how many bytes the socket took.
    ///
    /// # Errors
    /// Returns the error of the system.
    #[tactic(auto, using(crate::proofs::CallsAreSmall::small_more))]
    pub(crate) fn write(&mut self, socket: u32, queue: &Outgoing) -> Result<usize, ErrorKind>
        ensures count { IfOk result (λ count. count ≤ length queue.now) }
        ensures log { self.new.log.steps ≡ self.old.log.steps ++ Writes socket queue.now result ∷ [] }
        ensures made { S.Made self.old.system (Writes socket queue.now result) self.new.system }
    {
        let bytes = queue.front();
        let answer = self.system.write(socket, bytes);
        self.log.note(&Note::Writes(socket, bytes, answer));
        answer
    }

    /// Shuts down the writing side of a socket.
    #[tactic(auto, using(crate::proofs::CallsAreSmall::small_more))]
    pub fn shutdown(&mut self, socket: u32)
        ensures log { self.new.log.steps ≡ self.old.log.steps ++ Shuts socket ∷ [] }
        ensures made { S.Made self.old.system (Shuts socket) self.new.system }
    {
        self.system.shutdown(socket);
        self.log.note(&Note::Shuts(socket));
    }

    /// Closes a socket. From then on no socket has the number.
    #[tactic(auto, using(crate::proofs::CallsAreSmall::small_more))]
    pub fn close(&mut self, socket: u32)
        ensures log { self.new.log.steps ≡ self.old.log.steps ++ Closes socket ∷ [] }
        ensures made { S.Made self.old.system (Closes socket) self.new.system }
    {
        self.system.close(socket);
        self.log.note(&Note::Closes(socket));
    }

    /// Waits until a socket is ready, for at most `most` milliseconds if given. Returns how many were found ready,
    /// which are the first of `ready`. Returns 0 if the system refuses to wait.
    #[tactic(auto, using(crate::proofs::CallsAreSmall::small_more))]
    pub fn wait(&mut self, most: Option<u64>, ready: &mut [Ready]) -> usize
        ensures count { result ≤ length ready.new }
        ensures log { self.new.log.steps ≡ self.old.log.steps ++ Waits most result ready.new ∷ [] }
        ensures made { S.Made self.old.system (Waits most result ready.new) self.new.system }
    {
        let count = self.system.wait(most, ready);
        self.log.note(&Note::Waits(most, count, ready));
        count
    }

    /// Returns what the monotonic clock shows, in milliseconds, or `None` if the clock cannot be read.
    #[tactic(auto, using(crate::proofs::CallsAreSmall::small_more))]
    pub fn clock(&mut self) -> Option<u64>
        ensures log { self.new.log.steps ≡ self.old.log.steps ++ Clocks result ∷ [] }
        ensures made { S.Made self.old.system (Clocks result) self.new.system }
    {
        let answer = self.system.clock();
        self.log.note(&Note::Clocks(answer));
        answer
    }

    /// Logs an answer of the door. Makes no call of the system.
    #[tactic(auto, using(crate::proofs::CallsAreSmall::small_more))]
    pub fn answer(&mut self, answer: &Answer<'_>)
        ensures log { self.new.log.steps ≡ self.old.log.steps ++ Answers (call_answered answer.now) ∷ [] }
        ensures system { self.new.system ≡ self.old.system }
    {
        self.log.note(&Note::Answers(*answer));
    }
}

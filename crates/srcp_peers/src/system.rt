//! What a door asks of the system.

ghost use Rattle.std.specs.Prelude.{⊤, ◌≡◌, ◌<◌, ◌≤◌, IfOk, length};
ghost use Rattle.srcp_peers.specs.Steps.{Step, Accepts, Clocks, Closes, Reads, Shuts, Waits, Writes, failure_of};

use std::io::ErrorKind;

/// Says what a socket was found ready for. The listener is socket 0.
///
/// ```
/// ready[0] = Ready {
///     socket: 3,
///     readable: true,
///     closed: false,
///     urgent: false,
///     writable: false,
/// };
/// wake(peers, &ready[..1]);
/// ```
#[derive(Clone, Copy)]
pub struct Ready {
    /// The socket.
    pub socket: u32,
    /// True if a read may find something, or a pending connection may be accepted.
    pub readable: bool,
    /// True if the input was found to be over, or the socket to have failed. A read has still to report this.
    pub closed: bool,
    /// True if urgent data came. A read ends at urgent data, and no other event reports the bytes behind.
    pub urgent: bool,
    /// True if a write may be taken.
    pub writable: bool,
}

/// Says what a failed call of the system means for a socket.
#[derive(Clone, Copy)]
pub enum IoFailure {
    /// The socket takes or has nothing now.
    WouldBlock,
    /// The call was interrupted, and is to be made again.
    Interrupted,
    /// The socket takes or has nothing any more.
    Fatal,
}

/// Returns what a failed call means for its socket.
pub fn failure_of(fault: ErrorKind) -> IoFailure
    ensures { result ≡ failure_of fault }
{
    match fault {
        ErrorKind::WouldBlock => IoFailure::WouldBlock,
        ErrorKind::Interrupted => IoFailure::Interrupted,
        _ => IoFailure::Fatal,
    }
}

/// Makes the calls of the system.
pub trait System: Drop {
    /// The call with its answer led from the first system to the second. Only the call itself tells so, and a log that
    /// has the call can rest on it. An implementation may say what its calls do.
    ghost Made: { Self → Step → Self → Type 0 } = { λ _ _ _. ⊤ };

    /// Accepts the next pending connection. From then on its socket has this number.
    ///
    /// # Errors
    /// Returns the error of the system.
    fn accept(&mut self, number: u32) -> Result<(), ErrorKind>
        ensures { Made self.old (Accepts number result) self.new };

    /// Reads once from a socket, and returns how many bytes came.
    ///
    /// # Errors
    /// Returns the error of the system.
    fn read(&mut self, socket: u32, buffer: &mut [u8]) -> Result<usize, ErrorKind>
        requires { 0 < length buffer.old }
        ensures count { IfOk result (λ count. count ≤ length buffer.new) }
        ensures made { Made self.old (Reads socket buffer.new result) self.new };

    /// Writes once to a socket, and returns how many bytes the socket took.
    ///
    /// # Errors
    /// Returns the error of the system.
    fn write(&mut self, socket: u32, bytes: &[u8]) -> Result<usize, ErrorKind>
        ensures count { IfOk result (λ count. count ≤ length bytes.now) }
        ensures made { Made self.old (Writes socket bytes.now result) self.new };

    /// Shuts down the writing side of a socket.
    fn shutdown(&mut self, socket: u32)
        ensures { Made self.old (Shuts socket) self.new };

    /// Closes a socket. From then on no socket has the number.
    fn close(&mut self, socket: u32)
        ensures { Made self.old (Closes socket) self.new };

    /// Waits until a socket is ready, for at most `most` milliseconds if given. Returns how many were found ready,
    /// which are the first of `ready`. Returns 0 if the system refuses to wait.
    fn wait(&mut self, most: Option<u64>, ready: &mut [Ready]) -> usize
        ensures count { result ≤ length ready.new }
        ensures made { Made self.old (Waits most result ready.new) self.new };

    /// Returns what the monotonic clock shows, in milliseconds, or `None` if the clock cannot be read.
    fn clock(&mut self) -> Option<u64>
        ensures { Made self.old (Clocks result) self.new };
}

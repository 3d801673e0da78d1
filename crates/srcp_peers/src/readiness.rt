//! What a read and a write of a peer's socket may find, and what is flushed to the peer.

ghost use Rattle.std.specs.Prelude.{◌≡◌, ◌≢◌, true, false};
ghost use Rattle.srcp_peers.specs.Peers.{after_failure, flushes_all, given, is_lost, is_over, may_have, missed};
ghost use Rattle.srcp_peers.specs.Peers.{output_after, rests_reading, has_ended, rests_writing, tries_again};
ghost use Rattle.srcp_peers.specs.Peers.{woken_input, woken_output};

use crate::queue::{Incoming, Outgoing};
use crate::system::IoFailure;

/// Says what a read of a socket may find. Events come at edges, so nothing but an event makes a quiet socket ready.
///
/// ```text
///         a read left space, or found nothing
/// Ready --------------------------------------> Quiet
///   | \   <------------------------------------   |
///   |  \             found readable               |
///   |   +---> Emptying <--------------------------+   found closed, or with urgent data
///   |            |
///   |            +---> Quiet      a read found nothing
///   +------------+---> Ended      a read found the end
///                +---> Failed     a read failed
/// ```
///
/// A read ends at urgent data with space left, and no event reports the bytes behind. So an emptying socket is read
/// until a read finds nothing. An interrupted call changes no state.
#[derive(Clone, Copy)]
pub enum Input {
    /// A read may return data.
    Ready,
    /// Data behind urgent data, or the end: no event reports these again, and the socket is read until nothing comes.
    Emptying,
    /// No data, until the socket is found ready.
    Quiet,
    /// A read found the end.
    Ended,
    /// A read failed.
    Failed,
}

/// Says what a write to a socket may find.
///
/// ```text
///         a write was cut, or would block
/// Open ---------------------------------------> Full
///      <---------------------------------------
///       found writable, or a write was taken whole
///   |                                            |
///   +--------------------------------------------+---> Lost     a write failed
/// ```
#[derive(Clone, Copy)]
pub enum Output {
    /// A write may be taken.
    Open,
    /// No space, until the socket is found ready.
    Full,
    /// The socket takes no more.
    Lost,
}

/// Says which of the queued bytes are flushed.
#[derive(Clone, Copy)]
pub enum Flush {
    /// Answers, and a long queue of a peer.
    Answers,
    /// Everything.
    All,
    /// Everything, also to a full socket that was not found ready. The system reports a socket as ready only once much
    /// of its space is free.
    Again,
}

impl Flush {
    /// Returns whether everything is flushed.
    pub(crate) fn is_all(self) -> bool
        ensures { result ≡ flushes_all self }
    {
        !matches!(self, Flush::Answers)
    }

    /// Returns whether a full socket is tried.
    pub(crate) fn tries_again(self) -> bool
        ensures { result ≡ tries_again self }
    {
        matches!(self, Flush::Again)
    }
}

impl Input {
    /// Returns whether a read may find something.
    pub(crate) fn is_ready(self) -> bool
        ensures { result ≡ may_have self }
    {
        match self {
            Input::Ready | Input::Emptying => true,
            Input::Quiet | Input::Ended | Input::Failed => false,
        }
    }

    /// Returns whether no read finds anything any more.
    pub(crate) fn has_ended(self) -> bool
        ensures { result ≡ has_ended self }
    {
        match self {
            Input::Ready | Input::Emptying | Input::Quiet => false,
            Input::Ended | Input::Failed => true,
        }
    }

    /// Returns what follows a read that gave `count` bytes into a buffer of `space` bytes.
    pub(crate) fn given(self, count: usize, space: usize) -> Input
        ensures { result ≡ given self count space }
    {
        if count == 0 {
            return Input::Ended;
        }
        match self {
            Input::Ready if count < space => Input::Quiet,
            Input::Ready => Input::Ready,
            Input::Emptying => Input::Emptying,
            Input::Quiet => Input::Quiet,
            Input::Ended => Input::Ended,
            Input::Failed => Input::Failed,
        }
    }

    /// Returns what follows a read that failed.
    pub(crate) fn missed(self, said: IoFailure) -> Input
        ensures { result ≡ missed self said }
    {
        match said {
            IoFailure::WouldBlock => Input::Quiet,
            IoFailure::Interrupted => self,
            IoFailure::Fatal => Input::Failed,
        }
    }

    /// Returns what follows a socket that was found ready.
    pub(crate) fn woken(self, readable: bool, behind: bool) -> Input
        ensures { result ≡ woken_input self readable behind }
    {
        match self {
            Input::Ready | Input::Quiet if behind => Input::Emptying,
            Input::Quiet if readable => Input::Ready,
            state => state,
        }
    }

    /// Returns whether the input is over and no byte of the input is held.
    pub(crate) fn is_over(self, incoming: &Incoming) -> bool
        ensures { result ≡ is_over incoming.now self }
    {
        matches!(self, Input::Ended) && incoming.is_empty()
    }

    /// Returns whether only a readiness event can bring something to report of a peer with no input held.
    pub(crate) fn is_resting(self, outgoing: &Outgoing) -> bool
        ensures { result ≡ rests_reading outgoing.now self }
    {
        match self {
            Input::Ready | Input::Emptying | Input::Failed => false,
            Input::Quiet => true,
            Input::Ended => !outgoing.is_empty(),
        }
    }
}

impl Output {
    /// Returns whether a write may be taken.
    pub(crate) fn is_open(self) -> bool
        ensures yes { result ≡ true → self ≡ Output.Open }
        ensures no { result ≡ false → self ≢ Output.Open }
    {
        match self {
            Output::Open => true,
            Output::Full | Output::Lost => false,
        }
    }

    /// Returns whether the socket takes no more.
    pub(crate) fn is_lost(self) -> bool
        ensures { result ≡ is_lost self }
    {
        match self {
            Output::Lost => true,
            Output::Open | Output::Full => false,
        }
    }

    /// Returns what follows a write of `all` bytes, if the socket took `count`.
    pub(crate) fn after(count: usize, all: usize) -> Output
        ensures { result ≡ output_after count all }
    {
        if count == 0 {
            Output::Lost
        } else if count < all {
            Output::Full
        } else {
            Output::Open
        }
    }

    /// Returns what follows a write that failed.
    pub(crate) fn after_failure(self, said: IoFailure) -> Output
        ensures { result ≡ after_failure self said }
    {
        match said {
            IoFailure::WouldBlock => Output::Full,
            IoFailure::Interrupted => self,
            IoFailure::Fatal => Output::Lost,
        }
    }

    /// Returns what follows a socket that was found ready.
    pub(crate) fn woken(self, writable: bool) -> Output
        ensures { result ≡ woken_output self writable }
    {
        match self {
            Output::Full if writable => Output::Open,
            state => state,
        }
    }

    /// Returns whether there is nothing to write now: the socket is full, or is open with an empty queue. Returns false
    /// for a lost socket.
    pub(crate) fn is_resting(self, outgoing: &Outgoing) -> bool
        ensures { result ≡ rests_writing outgoing.now self }
    {
        match self {
            Output::Open => outgoing.is_empty(),
            Output::Full => true,
            Output::Lost => false,
        }
    }
}

//! When a peer is lost whose socket takes nothing, and when the system is to find a peer that answers nothing.

ghost use Rattle.std.specs.Prelude.{◌≡◌};
ghost use Rattle.srcp_sockets.specs.Silence.{after_look, after_write, is_over};

/// How often the sockets are looked at that were found full, in milliseconds.
pub(crate) const LOOK_EVERY: u64 = 5_000;

/// For how many milliseconds a socket may take nothing although the door holds bytes for the peer. Then the peer is
/// lost.
const LOST_AFTER: u64 = 30_000;

/// For how many milliseconds a socket has to take all before the system counts the peer's answers again. By then a peer
/// that reads has what the system held.
const CALM_AFTER: u64 = 60_000;

/// Says how a socket takes what is written.
///
/// ```text
///          a write was cut            a write took all
/// Taking -----------------> Full <--------------------> Emptied --> Taking, a minute later
///                            | nothing was taken for 30 s
///                            v
///                           Lost --> Told
/// ```
#[derive(Clone, Copy)]
pub(crate) enum Watch {
    /// The socket takes all. The system finds the peer lost if it answers nothing.
    Taking,
    /// The socket takes no more, and took the last bytes when the clock showed `since`, in milliseconds.
    Full { since: u64 },
    /// The socket took all again, for the last time when the clock showed `since`, in milliseconds.
    Emptied { since: u64 },
    /// A look found the peer lost, and the door was not told yet.
    Lost,
    /// The door was told that the peer is lost.
    Told,
}

impl Watch {
    /// Returns how the socket takes what is written after a write took `count` of `all` bytes, when the clock showed
    /// `now`. A write that took nothing leaves the time at which the socket took the last bytes.
    pub(crate) fn after_write(self, count: usize, all: usize, now: u64) -> Watch
        ensures { result ≡ after_write count all now self }
    {
        match self {
            Watch::Lost | Watch::Told => self,
            Watch::Full { since } if count == 0 => Watch::Full { since },
            _ if count < all => Watch::Full { since: now },
            Watch::Taking => Watch::Taking,
            Watch::Full { .. } | Watch::Emptied { .. } => Watch::Emptied { since: now },
        }
    }

    /// Returns how the socket takes what is written after a look at the socket when the clock showed `now`. The peer is
    /// lost if its socket took nothing for `LOST_AFTER` milliseconds although the door holds bytes for the peer.
    pub(crate) fn after_look(self, now: u64) -> Watch
        ensures { result ≡ after_look now self }
    {
        match self {
            Watch::Full { since } if now.saturating_sub(since) >= LOST_AFTER => Watch::Lost,
            Watch::Emptied { since } if now.saturating_sub(since) >= CALM_AFTER => Watch::Taking,
            _ => self,
        }
    }

    /// Returns whether a look found the peer lost.
    pub(crate) fn is_over(self) -> bool
        ensures { result ≡ is_over self }
    {
        matches!(self, Watch::Lost | Watch::Told)
    }

    /// Returns whether the socket is to be looked at.
    pub(crate) fn is_due(self) -> bool {
        matches!(self, Watch::Full { .. } | Watch::Emptied { .. })
    }
}

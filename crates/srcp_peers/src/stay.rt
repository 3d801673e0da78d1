//! Whether a peer is there, or lingers after the core closed it.

ghost use Rattle.std.specs.Prelude.{◌≡◌, true};
ghost use Rattle.srcp_peers.specs.Accounts.{is_overdue};
ghost use Rattle.srcp_peers.specs.Peers.{is_here};

/// The longest time that a peer lingers, in milliseconds. A door that ends delivers taken bytes for the same time.
pub const LINGER: u64 = 10_000;

/// Says whether a peer is there, or lingers after the core closed it.
///
/// ```text
/// Here --- the core closes it ---> Draining --- all is taken: it is shut down ---> Shut
///                                     |                                             |   its input ended
///                                     |   a write failed, or 10 s are over          |   or 10 s are over
///                                     +---------------------------------------------+---> closed
/// ```
#[derive(Clone, Copy)]
pub enum Stay {
    /// The core did not close the peer.
    Here,
    /// The core closed the peer when the monotonic clock showed `since`. The socket has still to take the queued bytes.
    Draining { since: u64 },
    /// The core closed the peer when the monotonic clock showed `since`. The socket took everything, and its writing
    /// side was shut down. More input is dropped until the input ends.
    Shut { since: u64 },
}

impl Stay {
    /// Returns whether the peer is there.
    pub fn is_here(self) -> bool
        ensures is { result ≡ is_here self }
        ensures yes { result ≡ true → self ≡ Stay.Here }
    {
        match self {
            Stay::Here => true,
            Stay::Draining { .. } | Stay::Shut { .. } => false,
        }
    }
}

/// Returns whether a peer that the core closed at `since` lingers no longer.
pub(crate) fn is_overdue(clock: u64, since: u64) -> bool
    ensures { result ≡ is_overdue clock since }
{
    LINGER <= clock.saturating_sub(since)
}

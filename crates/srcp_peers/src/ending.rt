//! When the end of a peer may be reported.

ghost use Rattle.std.specs.Prelude.{◌≡◌, ◌≢◌, ◌↔◌, ◌⊎◌, ◌<◌, false, true, IsTrue, ℕ};
ghost use Rattle.srcp_peers.specs.Ends.{begun, written};

use srcp_door::MOST_WRITES;

/// Says how far a peer is on the way to its end. The end is reported after three things: the input is over, a whole
/// visit behind that had no more for the peer, and the socket took everything. Changes that go on coming delay the end
/// no longer than this.
///
/// ```text
/// Open --- the input is over ---> Settling --- a whole visit had no more ---> Settled --- all is taken ---> reported
///                                  |    ^
///                                  +----+  300 writes in a visit, or one was cut
/// ```
#[derive(Clone, Copy)]
pub enum Ending {
    /// The input is not over.
    Open,
    /// The input is over. `writes` counts the writes to the peer in this visit; the count is `MOST_WRITES` if one was
    /// cut.
    Settling { writes: u32 },
    /// The input is over, and a whole visit wrote to the peer fewer than `MOST_WRITES` times.
    Settled,
}

impl Ending {
    /// Returns what follows the begin of a visit. `ended` says whether the input is over and no byte of the input is
    /// held.
    pub(crate) fn begin_visit(self, ended: bool) -> Ending
        ensures next { result ≡ begun self ended }
        ensures open { result ≡ Ending.Open ↔ (self ≡ Ending.Open) × (ended ≡ false) }
        ensures settled { result ≡ Ending.Settled → (self ≡ Ending.Settled)
            ⊎ (writes : ℕ) × (self ≡ Ending.Settling writes) × (writes < MOST_WRITES) }
    {
        match self {
            Ending::Open if !ended => Ending::Open,
            Ending::Settled => Ending::Settled,
            Ending::Settling { writes } if writes < MOST_WRITES => Ending::Settled,
            Ending::Open | Ending::Settling { .. } => Ending::Settling { writes: 0 },
        }
    }

    /// Returns what follows a write. `all` says whether the whole write was taken.
    pub(crate) fn written(self, all: bool) -> Ending
        ensures next { result ≡ written self all }
        ensures cut { all ≡ false → result ≢ Ending.Open → (self ≡ Ending.Settled)
            ⊎ (result ≡ Ending.Settling MOST_WRITES) }
    {
        match self {
            Ending::Settling { writes } if all && writes < MOST_WRITES => Ending::Settling {
                writes: writes + 1,
            },
            Ending::Settling { .. } => Ending::Settling {
                writes: MOST_WRITES,
            },
            state => state,
        }
    }

    /// Returns whether the input is not over.
    pub(crate) fn is_open(self) -> bool
        ensures { IsTrue result ↔ self ≡ Ending.Open }
    {
        matches!(self, Ending::Open)
    }

    /// Returns whether the end of the peer may be reported once its socket took everything.
    pub(crate) fn is_settled(self) -> bool
        ensures { IsTrue result ↔ self ≡ Ending.Settled }
    {
        matches!(self, Ending::Settled)
    }
}

//! What a door does at its end: delivers the bytes that were taken.

ghost use Rattle.std.specs.Prelude.{◌≡◌, length, All, true, false};
ghost use Rattle.srcp_log.specs.Delivery.{HasEnded, HasLooked, HaveEnded, is_over};
ghost use Rattle.srcp_log.specs.Doors.{AreStanding};
ghost use Rattle.srcp_log.specs.Limits.{most_ready};
ghost use Rattle.srcp_peers.specs.AllPeers.{AreApart, AreKept, AreOffered};
ghost use Rattle.srcp_peers.specs.Peers.{is_waiting};

use srcp_peers::peers::{flush, wake};
use srcp_peers::{Flush, Logged, Peer, RETRY_DELAY, Ready, System};

/// The most waits of a door for its sockets at its end.
const MOST_LAST_WAITS: u32 = 1_000_000;

/// Writes the queued bytes until the sockets took all, or until the monotonic clock shows `until`, in milliseconds.
/// Gives up too if the clock cannot be read.
pub(crate) fn deliver<S: System>(
    system: &mut Logged<S>,
    peers: &mut [Peer],
    until: u64,
    ready: &mut [Ready],
)
    requires kept { AreKept system.old.log.steps peers.old }
    requires apart { AreApart peers.old }
    requires ready { length ready.old ≡ most_ready }
    ensures kept { AreKept system.new.log.steps peers.new }
    ensures ended { HaveEnded until system.old.log.steps system.new.log.steps peers.new }
    ensures standing { AreStanding system.old.log.steps peers.old → AreStanding system.new.log.steps peers.new }
    ensures all { AreStanding system.old.log.steps peers.old
        → HasEnded until system.old.log.steps system.new.log.steps }
    ensures looked { HasLooked system.old.log.steps system.new.log.steps }
    ensures offered { AreOffered Flush.All peers.old system.old.log.steps system.new.log.steps }
{
    for _look in 0..MOST_LAST_WAITS {
        flush(system, peers, Flush::All);
        if are_delivered(peers) {
            return;
        }
        let clock = system.clock();
        if is_over(until, clock) {
            return;
        }
        let count = system.wait(Some(RETRY_DELAY), ready);
        wake(peers, &ready[..count]);
    }
}

/// Returns whether no byte is queued that a socket may still take.
fn are_delivered(peers: &[Peer]) -> bool
    ensures { result ≡ true → All (λ peer. is_waiting peer ≡ false) peers.now }
{
    peers.iter().all(|peer| !peer.is_owed())
}

/// Returns whether a clock shows `until` or a later time, or cannot be read.
fn is_over(until: u64, clock: Option<u64>) -> bool
    ensures { result ≡ is_over until clock }
{
    clock.is_none_or(|now| until <= now)
}

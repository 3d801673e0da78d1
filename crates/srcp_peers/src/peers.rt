//! What a turn does with all peers.

ghost use Rattle.std.specs.Prelude.{◌≡◌, ◌<◌, ◌+◌, ◌*◌, ℕ, All, IfNone, IfSome, length, fold, slice_index_or};
ghost use Rattle.srcp_peers.specs.declared.peer.Peer.{Peer};
ghost use Rattle.srcp_peers.specs.Steps.{GrowsBy, SaysNothing};
ghost use Rattle.srcp_peers.specs.Times.{KeepsTimes};
ghost use Rattle.srcp_peers.specs.Peers.{Spares, IsRead, after_wake};
ghost use Rattle.srcp_peers.specs.AllPeers.{AllKeepRest, AreApart, AreBegun, AreKept, AreShared, AreOffered};
ghost use Rattle.srcp_peers.specs.AllPeers.{AreShutDown, AreThose, IsAbsent};
ghost use Rattle.srcp_peers.specs.Limits.{most_drained};
ghost use Rattle.srcp_peers.specs.Listeners.{woken_listening};

use crate::lingering::reads_each;
use crate::log::Logged;
use crate::peer::Peer;
use crate::readiness::Flush;
use crate::system::{Ready, System};
use crate::turn::Listening;

/// Flushes each peer that is there, and goes on with the lingering peers.
pub fn flush<S: System>(system: &mut Logged<S>, peers: &mut [Peer], what: Flush)
    requires kept { AreKept system.old.log.steps peers.old }
    requires apart { AreApart peers.old }
    ensures kept { AreKept system.new.log.steps peers.new }
    ensures those { AreThose peers.old peers.new }
    ensures others { (other : ℕ) → IsAbsent other peers.old → Spares other system.old.log.steps system.new.log.steps }
    ensures calls { SaysNothing system.old.log.steps system.new.log.steps }
    ensures most { GrowsBy (2 * length peers.old + most_drained) system.old.log.steps system.new.log.steps }
    ensures times { KeepsTimes system.old.log.steps system.new.log.steps }
    ensures offered { AreOffered what peers.old system.old.log.steps system.new.log.steps }
    ensures shut { AreShutDown peers.old peers.new }
    ensures keeps { AllKeepRest peers.old peers.new }
{
    let reads = reads_each(peers);
    for peer in peers.iter_mut() {
        peer.flush_or_linger(system, what, reads);
    }
}

/// Begins the visit of each peer. With `anew` each share is a whole piece again. At most `lines_left` lines may be
/// queued for each peer whose socket is full.
pub fn begin_visits<S: System>(
    system: &mut Logged<S>,
    peers: &mut [Peer],
    anew: bool,
    lines_left: u32,
)
    requires kept { AreKept system.old.log.steps peers.old }
    requires apart { AreApart peers.old }
    ensures kept { AreKept system.new.log.steps peers.new }
    ensures those { AreThose peers.old peers.new }
    ensures others { (other : ℕ) → IsAbsent other peers.old → Spares other system.old.log.steps system.new.log.steps }
    ensures calls { SaysNothing system.old.log.steps system.new.log.steps }
    ensures most { GrowsBy (length peers.old) system.old.log.steps system.new.log.steps }
    ensures times { KeepsTimes system.old.log.steps system.new.log.steps }
    ensures read { (k : ℕ) (d : Peer) → k < length peers.new
        → IsRead system.new.log.steps (slice_index_or peers.new k d).number }
    ensures shares { AreShared anew peers.old peers.new }
    ensures begun { AreBegun peers.old peers.new }
    ensures lines_left { All (λ peer. peer.lines_left ≡ lines_left) peers.new }
{
    for peer in peers.iter_mut() {
        peer.begin_visit(system, anew, lines_left);
    }
}

/// Notes which sockets are ready.
pub fn wake(peers: &mut [Peer], ready: &[Ready])
    requires { AreApart peers.old }
    ensures { (k : ℕ) (d : Peer) → k < length peers.old
        → slice_index_or peers.new k d ≡ fold after_wake (slice_index_or peers.old k d) ready.now }
{
    for one in ready {
        wake_one(peers, *one);
    }
}

/// Notes that a socket is ready.
fn wake_one(peers: &mut [Peer], ready: Ready)
    requires { AreApart peers.old }
    ensures { (k : ℕ) (d : Peer) → k < length peers.old
        → slice_index_or peers.new k d ≡ after_wake (slice_index_or peers.old k d) ready }
{
    let Some(index) = index_of(peers, ready.socket) else {
        return;
    };
    peers[index].wake(ready);
}

/// Returns the index of the peer with this socket, if any.
fn index_of(peers: &[Peer], socket: u32) -> Option<usize>
    ensures found { IfSome result (λ index. (index < length peers.now)
        × ((d : Peer) → (slice_index_or peers.now index d).number ≡ socket)) }
    ensures absent { IfNone result (IsAbsent socket peers.now) }
{
    for index in 0..peers.len() {
        if peers[index].number == socket {
            return Some(index);
        }
    }
    None
}

/// Returns whether a pending connection may be accepted after these sockets were found ready.
pub fn listen(listening: Listening, ready: &[Ready]) -> Listening
    ensures { result ≡ fold woken_listening listening ready.now }
{
    let mut heard = listening;
    for one in ready {
        heard = heard_more(heard, *one);
    }
    heard
}

fn heard_more(listening: Listening, ready: Ready) -> Listening
    ensures { result ≡ woken_listening listening ready }
{
    if ready.socket == 0 && (ready.readable || ready.closed || ready.urgent) {
        Listening::Ready
    } else {
        listening
    }
}

//! Laws of the door over sockets and of the core that is served over it. Each is a function that does nothing: its
//! contract is the law.

ghost use Rattle.std.specs.Prelude.{◌≡◌, ◌+◌};
ghost use Rattle.srcp_host.specs.Panels.{PanelsAreKept};
ghost use Rattle.srcp_host.specs.Settled.{SettledPanelsHold};

use srcp_core::MOST_CONNECTIONS;
use srcp_peers::MOST_LINGERING;
use srcp_sockets::{MOST_PEERS, SocketDoor, System};

/// States that no panel ever overran if two bounds hold in each turn. First, the turn's moment and the ends of sessions
/// bring at most 160 changes. Second, with the lines that were handed out, of whose weight at most 11 count, these are
/// within the slack that the door was given. The slack is 256 if there was no panel. The door's calls are those that
/// some turns ask.
pub fn panels_are_kept<S: System>(door: &SocketDoor<S>)
    ensures { PanelsAreKept door.now.sockets.system.log.steps }
{}

/// States what a settled panel holds, for all that `serve_sockets` ensures of a core and a log. Let the information
/// session of a connection be settled, and let the socket have taken all bytes taken for the peer. Then the socket took
/// all that the connection was sent (`all`). A client that applies all lines behind the replies holds exactly the
/// registry (`client`), which is that of the core (`registry`). The core's moment has 64 bits, as that of each `Core`.
pub fn settled_panels_hold_the_registry()
    ensures { SettledPanelsHold }
{}

/// States that the door has a place for each connection of a core, for one that is turned away, and for each peer that
/// lingers.
pub fn places_suffice()
    ensures { MOST_CONNECTIONS + 1 + MOST_LINGERING ≡ MOST_PEERS }
{}

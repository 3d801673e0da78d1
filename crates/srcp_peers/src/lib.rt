//! A peer of a door with its socket, the bytes queued for the peer, and the bytes read from the peer. The crate says
//! when the socket is written to and read, and when the peer's end may be reported. It also says how the peer lingers
//! after the core closed it. `peers` has what a turn does with all peers. `Turn` has what a door knows of its turn, and
//! `longest_wait` says how long a turn may wait.
//!
//! `System` is the small trait of system calls, and `Logged` is a system with the log of its calls. The account of a
//! socket is what the log says of the socket. Whatever the system answers, a state of a peer means what the account
//! says. The crate makes none of these calls itself, accepts nobody and closes no socket: `srcp_sockets` does.
#![tactic(auto)]

mod ending;
mod lingering;
mod log;
mod peer;
pub mod peers;
mod queue;
mod readiness;
mod reading;
mod stay;
mod system;
mod turn;

pub use ending::Ending;
pub use lingering::{MOST_LINGERING, count_shut, first_gone, first_shut};
pub use log::{Answer, Log, Logged};
pub use peer::Peer;
pub use queue::{Incoming, MOST_INCOMING, MOST_OUTGOING, Outgoing, Queue, Queues};
pub use readiness::{Flush, Input, Output};
pub use stay::{LINGER, Stay};
pub use system::{IoFailure, Ready, System, failure_of};
pub use turn::{Listening, RETRY_DELAY, Turn, longest_wait};

//! The door over the system's sockets, proved down to the system call. `laws` has the laws of every door, over every
//! list of answers of the system. `srcp_log` says what a log of calls has to be. The crate knows nothing of sessions
//! and devices: `srcp_host` serves a core over such a door.
//!
//! `System` of `srcp_peers` is the small trait of system calls, `MioSystem` makes them, and `SocketDoor` is the door
//! over any of them.
#![tactic(auto)]

mod delivering;
mod door;
mod fault;
pub mod laws;
mod mio_system;
mod opening;
mod options;
mod silence;
mod sockets;

pub use door::SocketDoor;
pub use fault::ListenFault;
pub use mio_system::MioSystem;
pub use sockets::MOST_PEERS;
pub use srcp_peers::{Ready, System};

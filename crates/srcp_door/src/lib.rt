//! The door of a server, with its calls and answers (`Door`). The crate also has the parts of a door that know neither
//! sockets nor peers: how lines are paced (`Pace`), and the clock (`Timekeeper`).
//!
//! The crate makes no system call. Of the protocol, only the LF that ends a line is known here; `srcp_grammar` says
//! what a line weighs.
#![tactic(auto)]

mod door;
pub mod laws;
mod pacing;
mod timekeeper;

pub use door::{Door, DoorFault, Got, MOST_WRITES};
pub use pacing::{Allowed, LineBoundary, Pace, RESERVE, Share};
pub use timekeeper::Timekeeper;

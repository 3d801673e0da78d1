//! Serves the peers of a door. `Door` is what a server asks of the outside, and `serve` serves its peers turn by turn.
//! `laws` says what holds of every list of calls of a door.
//!
//! The crate reads no configuration and prints nothing: `srcp_tool` does. `srcp_core` makes the replies to peers.
#![tactic(auto)]

pub mod laws;
mod serving;
mod tally;

pub use serving::{Served, serve};
pub use srcp_door::{Door, DoorFault, Got, MOST_WRITES};

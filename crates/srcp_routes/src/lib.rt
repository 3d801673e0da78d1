//! The interlocking of a signal box. It says which command the routes send next, and what two routes share. It says too
//! what a reply, an ask, a give-back and a sensor make of the routes.
//!
//! The crate sends nothing; callers carry out the orders. The crate knows no file, no line of the protocol and no
//! socket.
#![tactic(auto)]

mod conflict;
mod delay;
mod interlocking;
pub mod laws;
mod route;
mod stage;
mod table;
mod train;

pub use conflict::{has_accessory, has_block, has_piece, is_same, uses};
pub use interlocking::{Event, Interlocking};
pub use route::{Device, Occupancy, Order, Route, Setting, Signal};
pub use stage::Stage;

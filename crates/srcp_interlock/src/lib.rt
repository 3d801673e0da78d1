//! The two sides of a signal box. Each line sent to the box is taken as an event of the box's routes. Each order of the
//! routes is written as a line of the protocol.
//!
//! The crate reads no input and sends nothing. Callers hand lines to the box, and carry the box's lines away.
#![tactic(auto)]

mod hearing;
pub mod laws;
mod orders;
mod signal_box;

pub use orders::order_line;
pub use signal_box::SignalBox;

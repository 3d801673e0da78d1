//! The driver of a DCC-EX by lines: those of a panel, the replies of a command session, what the station says, and
//! moments. Each gives the lines in which the station is told something and the registry is asked.
//!
//! The crate reads no input and sends nothing. Callers hand lines in, and carry the lines that come away.
#![tactic(auto)]

mod desk;
mod engine;
mod hearing;
pub mod laws;
mod orders;
mod rows;
mod settling;

pub use desk::DriverDesk;
pub use engine::MOST_CABS;

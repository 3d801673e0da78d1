//! The plan of a signal box. `read_plan` reads a TOML document into routes, `PlanFault` names the document's first
//! fault, and `print_plan` prints which routes conflict.
//!
//! This crate opens no file: callers hand over bytes. This crate sets no route, and knows no line of the protocol and
//! none of the program's words.
#![tactic(auto)]

mod behind;
mod device;
mod document;
mod drawing;
mod element;
mod fault;
mod join;
mod keys;
pub mod laws;
mod plan;
mod print;
mod search;
mod tracks;
mod way;

pub use document::read_plan;
pub use plan::{Field, Plan, PlanFault};
pub use print::print_plan;
pub use tracks::Tracks;

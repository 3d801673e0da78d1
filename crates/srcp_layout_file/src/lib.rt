//! The file with the layout to serve. `read_layout` reads a TOML document into the port and the buses, `ConfigFault`
//! names the document's first fault, and `print_config` prints what the document says.
//!
//! `member` reads the values of any TOML document: each caller says with which faults.
//!
//! This crate opens no file: callers hand over bytes. This crate makes no registry of the layout, and knows no script,
//! no connection and none of the program's words.
#![tactic(auto)]

mod config;
mod document;
mod fault;
mod limits;
pub mod member;
mod print;

pub use config::{Config, ConfigFault, Field};
pub use document::read_layout;
pub use print::print_config;

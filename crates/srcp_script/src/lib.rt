//! Scripts, and what is printed of their run. `read_script` reads a script into the events of a run, and `ScriptFault`
//! names the script's first fault. `print_shown` prints the row of a registry. Three functions print parts of the
//! record of a run. `connection_line` prints the line of each connection, and `line_end` the end of the last line sent
//! to a connection. `print_end` prints what follows the connections. `cut_at` cuts a text at a byte, as the lines and
//! words of a script are cut.
//!
//! This crate runs no event: `srcp_core` does. This crate does no input or output, and knows no configuration.
#![tactic(auto)]

mod cut;
mod fault;
mod print;
mod script;

pub use cut::cut_at;
pub use print::{connection_line, line_end, print_end, print_shown};
pub use script::{Cause, ScriptFault, read_script};

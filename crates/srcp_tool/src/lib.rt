//! The program but for serving. This crate reads the program's words (`read_words`) and a configuration's bytes
//! (`read_config`). `replay` replays a script, `mirror` mirrors the lines of a panel, and `interlock` runs a signal box
//! over a stream. `check` checks a configuration, and `check_plan` a plan. `ToolFault` says why the program stops, with
//! which text and which status.
//!
//! `check_text` is what `check` writes, as bytes in memory.
//!
//! `srcp_layout_file` reads a configuration, and `srcp_script` a script. This crate calls no socket and no clock:
//! `srcp_sockets` does. This crate opens no file: callers hand over readers and writers.
#![tactic(auto)]

mod arguments;
mod checking;
mod fault;
mod input;
mod interlocking;
mod output;
mod playback;
mod stream;
mod tool;

pub use arguments::read_words;
pub use checking::{check, check_plan, check_text};
pub use fault::ToolFault;
pub use input::read_config;
pub use interlocking::interlock;
pub use playback::replay;
pub use stream::mirror;
pub use tool::Tool;

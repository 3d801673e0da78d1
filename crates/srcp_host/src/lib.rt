//! Serves a core over the door over sockets, and the layout of a file at the file's port. `serve_sockets` serves a
//! core that is there, and states the theorem from the core to the system call. `serve_file` reads the bytes of a file,
//! has a door opened at the port, and serves the peers of this door. `Opener` is what opens a door, and `Machine` opens
//! a door at the sockets of the machine. `serve_here` serves there. `laws` has the laws of a door and its core.
//!
//! This crate opens no file and prints nothing: callers hand over bytes, and print the faults. `srcp_layout_file` says
//! what the bytes mean, and `srcp_sockets` serves over any system.
#![tactic(auto)]

mod course;
mod fault;
mod hosting;
pub mod laws;
mod machine;
mod opener;

pub use course::serve_sockets;
pub use fault::HostFault;
pub use hosting::{Hosted, serve_file};
pub use machine::{Machine, serve_here};
pub use opener::Opener;

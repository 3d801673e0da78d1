//! Why a door does not listen.

ghost use Rattle.std.specs.Prelude.{◌≡◌, Some};
ghost use Rattle.std.specs.IoError.{error_kind};
ghost use Rattle.srcp_sockets.specs.Faults.{listen_fault, listen_text};

use std::io::ErrorKind;
use std::{fmt, io};
use thiserror::Error;

/// Names why a door does not listen.
#[derive(Clone, Copy, Debug, PartialEq, Eq, Error)]
pub enum ListenFault {
    /// The port is taken or refused, or the system has no descriptors left for the port.
    Port,
    /// Memory was refused.
    Memory,
}

impl fmt::Display for ListenFault {
    ghost output = { λ x. Some (listen_text x) };

    fn fmt<W: fmt::Write>(&self, f: &mut fmt::Formatter<W>) -> fmt::Result {
        match self {
            ListenFault::Port => write!(f, "cannot listen"),
            ListenFault::Memory => write!(f, "out of memory"),
        }
    }
}

/// Returns what an error of the system means for a door that is to listen.
pub(crate) fn fault_of(error: &io::Error) -> ListenFault
    ensures { result ≡ listen_fault (error_kind error.now) }
{
    match error.kind() {
        ErrorKind::OutOfMemory => ListenFault::Memory,
        _ => ListenFault::Port,
    }
}

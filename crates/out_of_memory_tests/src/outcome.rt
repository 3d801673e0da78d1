//! The outcome of a trial.
use srcp_rules::{LayoutFault, Memory};
use srcp_script::ScriptFault;
use std::alloc::{AllocError, AllocFailed};
use std::fmt;

/// The outcome of a trial.
#[derive(Clone, Copy, Debug, PartialEq, Eq)]
pub(crate) enum Outcome {
    /// No allocation of the call was refused, and the call's answer is right.
    Granted,
    /// An allocation was refused outside of the call.
    Unprepared,
    /// An allocation of the call was refused, and the call's answer and what the call left are right.
    Refused,
    /// The call's answer, or what the call left, is wrong.
    Broken,
}

impl Outcome {
    /// Returns `Granted` if this holds, else `Broken`.
    pub(crate) fn granted_if(holds: bool) -> Outcome {
        if holds {
            Outcome::Granted
        } else {
            Outcome::Broken
        }
    }

    /// Returns `Refused` if this holds, else `Broken`.
    pub(crate) fn refused_if(holds: bool) -> Outcome {
        if holds {
            Outcome::Refused
        } else {
            Outcome::Broken
        }
    }
}

impl fmt::Display for Outcome {
    fn fmt<W: fmt::Write>(&self, f: &mut fmt::Formatter<W>) -> fmt::Result {
        f.write_str(match self {
            Outcome::Granted => "granted",
            Outcome::Unprepared => "unprepared",
            Outcome::Refused => "refused",
            Outcome::Broken => "broken",
        })
    }
}

/// Memory was refused outside of the call.
pub(crate) struct Refused;

impl From<AllocError> for Refused {
    fn from(_: AllocError) -> Refused {
        Refused
    }
}

impl<T: Drop> From<AllocFailed<T>> for Refused {
    fn from(_: AllocFailed<T>) -> Refused {
        Refused
    }
}

impl From<Memory> for Refused {
    fn from(_: Memory) -> Refused {
        Refused
    }
}

impl From<ScriptFault> for Refused {
    fn from(_: ScriptFault) -> Refused {
        Refused
    }
}

impl From<LayoutFault> for Refused {
    fn from(_: LayoutFault) -> Refused {
        Refused
    }
}

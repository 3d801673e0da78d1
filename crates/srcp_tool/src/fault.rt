//! Faults that stop the program, with their texts and statuses.

ghost use Rattle.std.specs.Prelude.{◌≡◌, Some};
ghost use Rattle.srcp_tool.specs.Faults.{fault_text, fault_status, stops_at};

use srcp_core::RunFault;
use srcp_layout_file::ConfigFault;
use srcp_plan_file::PlanFault;
use srcp_script::{Cause, ScriptFault};
use std::alloc::AllocError;
use std::fmt;
use thiserror::Error;

/// Says why the program stops. Displays as what the program prints on standard error behind its name, a colon and a
/// space.
#[derive(Clone, Copy, Debug, PartialEq, Eq, Error)]
pub enum ToolFault {
    /// The standard input fails.
    Input,
    /// The standard output fails, or takes nothing.
    Output,
    /// There is more to read than the limit.
    TooLarge,
    /// The script is refused.
    Script(ScriptFault),
    /// This line of those to be mirrored, counted from 1, is no information line.
    Line(usize),
    /// Memory is refused.
    Memory,
    /// The configuration is refused.
    Config(ConfigFault),
    /// The configuration, or the plan, cannot be read.
    Unreadable,
    /// The port cannot be listened on.
    Listen,
    /// The plan is refused.
    Plan(PlanFault),
}

impl fmt::Display for ToolFault {
    ghost output = { λ x. Some (fault_text x) };

    fn fmt<W: fmt::Write>(&self, f: &mut fmt::Formatter<W>) -> fmt::Result {
        match self {
            ToolFault::Input => write!(f, "cannot read the input"),
            ToolFault::Output => write!(f, "cannot write"),
            ToolFault::TooLarge => write!(f, "input too large"),
            ToolFault::Script(fault) => write!(f, "{fault}"),
            ToolFault::Line(line) => { write!(f, "mirror line {line}: not an information line") }
            ToolFault::Memory => write!(f, "out of memory"),
            ToolFault::Config(fault) => write!(f, "{fault}"),
            ToolFault::Unreadable => write!(f, "cannot read the configuration"),
            ToolFault::Listen => write!(f, "cannot listen"),
            ToolFault::Plan(fault) => write!(f, "{fault}"),
        }
    }
}

impl From<ScriptFault> for ToolFault {
    ghost from_gives = { λ at e. e ≡ stops_at at.line at.cause };

    fn from(fault: ScriptFault) -> ToolFault {
        match fault.cause {
            Cause::Memory => ToolFault::Memory,
            _ => ToolFault::Script(fault),
        }
    }
}

impl From<ConfigFault> for ToolFault {
    ghost use Rattle.srcp_tool.specs.Faults.{stops_for};

    ghost from_gives = { λ fault e. e ≡ stops_for fault };

    fn from(fault: ConfigFault) -> ToolFault {
        match fault {
            ConfigFault::Memory => ToolFault::Memory,
            _ => ToolFault::Config(fault),
        }
    }
}

impl From<PlanFault> for ToolFault {
    ghost use Rattle.srcp_tool.specs.Faults.{stops_by};

    ghost from_gives = { λ fault e. e ≡ stops_by fault };

    fn from(fault: PlanFault) -> ToolFault {
        match fault {
            PlanFault::Memory => ToolFault::Memory,
            _ => ToolFault::Plan(fault),
        }
    }
}

impl From<AllocError> for ToolFault {
    ghost use Rattle.srcp_tool.specs.declared.fault.ToolFault.TheVariants as fault;

    ghost from_gives = { λ refused e. e ≡ fault.Memory };

    fn from(_refused: AllocError) -> ToolFault {
        ToolFault::Memory
    }
}

impl From<RunFault> for ToolFault {
    ghost use Rattle.srcp_tool.specs.declared.fault.ToolFault.TheVariants as fault;

    ghost from_gives = { λ refused e. e ≡ fault.Memory };

    fn from(_refused: RunFault) -> ToolFault {
        ToolFault::Memory
    }
}

impl ToolFault {
    /// Returns the status with which the program ends. This is 1 if input or output failed, a file cannot be read, the
    /// port cannot be listened on, or memory was refused. This is 2 if the input, the configuration or the plan is
    /// refused.
    pub fn status(&self) -> u8
        ensures { result ≡ fault_status self.now }
    {
        match self {
            ToolFault::Input => 1,
            ToolFault::Output => 1,
            ToolFault::TooLarge => 2,
            ToolFault::Script(fault) => match fault.cause {
                Cause::Memory => 1,
                _ => 2,
            },
            ToolFault::Line(_) => 2,
            ToolFault::Memory => 1,
            ToolFault::Config(fault) => match fault {
                ConfigFault::Memory => 1,
                _ => 2,
            },
            ToolFault::Plan(fault) => match fault {
                PlanFault::Memory => 1,
                _ => 2,
            },
            ToolFault::Unreadable => 1,
            ToolFault::Listen => 1,
        }
    }
}

//! What a line asks for, and what a recorded run keeps of the line.
ghost use Rattle.std.specs.Prelude.{◌≡◌, true, false, Some, None};

use crate::handshake::Greeting;
use crate::record::Step;
use srcp_info::{Code, Mode};
use srcp_rules::Command;

/// Says what a line asks for, by the state of its connection.
#[derive(Clone, Copy)]
pub(crate) enum Request {
    /// Nothing: there is an information session, or the session ended.
    Dropped,
    /// A line before the session, with the mode chosen last.
    Greets {
        mode: Mode,
        greeting: Greeting,
    },
    /// A line of a command session.
    Commands {
        session: u32,
        command: Result<Command, Code>,
    },
}

/// Holds what a recorded run keeps of a line.
#[derive(Clone, Copy)]
pub(crate) struct LineRecord {
    /// False if memory was refused to the line.
    pub granted: bool,
    /// The command carried out or the session begun, if any.
    pub step: Option<Step>,
    /// The end of the session, if ended by its own command.
    pub end: Option<Step>,
}

impl LineRecord {
    /// Makes the record of a line without effect on the registry.
    pub(crate) fn nothing() -> LineRecord
        ensures { result ≡ record { granted = true; step = None; end = None } }
    {
        LineRecord {
            granted: true,
            step: None,
            end: None,
        }
    }

    /// Makes the record of a new session that is refused since memory is refused.
    pub(crate) fn denied() -> LineRecord
        ensures { result ≡ record { granted = false; step = None; end = None } }
    {
        LineRecord {
            granted: false,
            ..LineRecord::nothing()
        }
    }

    /// Makes the record of a line with this step.
    pub(crate) fn of(step: Step) -> LineRecord
        ensures { result ≡ record { granted = true; step = Some step; end = None } }
    {
        LineRecord {
            step: Some(step),
            ..LineRecord::nothing()
        }
    }
}

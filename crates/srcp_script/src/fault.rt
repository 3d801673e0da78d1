//! The texts of the faults of a script.

ghost use Rattle.std.specs.Prelude.{Some};
ghost use Rattle.srcp_script.specs.Faults.{script_text};

use crate::script::{Cause, ScriptFault};
use std::fmt;

impl fmt::Display for ScriptFault {
    ghost output = { λ x. Some (script_text x.line x.cause) };

    fn fmt<W: fmt::Write>(&self, f: &mut fmt::Formatter<W>) -> fmt::Result {
        let line = self.line;
        match self.cause {
            Cause::Word => write!(f, "script line {line}: unknown event"),
            Cause::Number => write!(f, "script line {line}: wrong number"),
            Cause::Escape => write!(f, "script line {line}: wrong escape"),
            Cause::Memory => write!(f, "out of memory"),
        }
    }
}

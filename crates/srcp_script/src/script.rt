//! Scripts: the events of a run, each on a line.

ghost use Rattle.std.specs.Prelude.{◌≡◌, ◌≢◌, ◌∷◌, ◌++◌, [], IfOk, IfErr, OnOk};
ghost use Rattle.srcp_core.specs.declared.event.Event.{Event};
ghost use Rattle.srcp_script.specs.Script.{script, is_skipped, event_of};

mod escape;
mod event_line;

use crate::cut::cut_at;
use event_line::read_event;
use srcp_core::Event;
use std::alloc::Global;
use std::vec::Vec;
use thiserror::Error;

/// Says what is wrong in a line of a script.
#[derive(Clone, Copy, Debug, PartialEq, Eq)]
pub enum Cause {
    /// The part before the first space is none of the five words.
    Word,
    /// A number is missing, unreadable or out of range, or something follows the last part.
    Number,
    /// What follows a backslash is no escape.
    Escape,
    /// Memory is refused.
    Memory,
}

/// Names the first wrong line of a script, counted from 1 with the skipped lines, and what is wrong there.
#[derive(Clone, Copy, Debug, PartialEq, Eq, Error)]
pub struct ScriptFault {
    pub line: usize,
    pub cause: Cause,
}

/// Reads the events of a script, in order. Lines end in LF, and the last may lack the LF. Skips empty lines, and lines
/// with `#` at their beginning.
///
/// # Errors
/// Returns the first wrong line, with the first fault of this line from left to right. Returns `Cause::Memory` only if
/// memory is refused.
pub fn read_script(alloc: Global, bytes: &[u8]) -> Result<Vec<Event>, ScriptFault>
    ensures events { IfOk result (λ events. script bytes.now ≡ Ok events.items) }
    ensures refused { IfErr result
        (λ fault. fault.cause ≢ Cause.Memory → script bytes.now ≡ Err fault) }
{
    let mut events = Vec::new(alloc);
    let mut rest = Some(bytes);
    let mut line_number = 0;
    while let Some(text) = rest {
        // A raw CR belongs to the text of its line.
        let (line, behind) = cut_at(b'\n', text);
        line_number += 1;
        if !is_skipped(line)
            && let Err(cause) = push_event(alloc, line, &mut events)
        {
            let line = line_number;
            return Err(ScriptFault { line, cause });
        }
        rest = behind;
    }
    Ok(events)
}

/// Reads the event of a line, and appends this event.
fn push_event(alloc: Global, line: &[u8], events: &mut Vec<Event>) -> Result<(), Cause>
    ensures pushed { OnOk result ((event : Event) × (event_of line.now ≡ Ok event)
        × (events.new.items ≡ events.old.items ++ event ∷ [])) }
    ensures refused { IfErr result (λ cause. cause ≢ Cause.Memory → event_of line.now ≡ Err cause) }
{
    let event = read_event(alloc, line)?;
    events.push(event).map_err(|_| Cause::Memory)
}

/// Returns whether the line is empty or begins with `#`.
fn is_skipped(line: &[u8]) -> bool
    ensures { result ≡ is_skipped line.now }
{
    line.is_empty() || line[0] == b'#'
}

//! A script, read and run, and the record of the run, printed.

ghost use Rattle.std.specs.Prelude.{◌≡◌, List, IfOk, IfErr, IfSome};
ghost use Rattle.std.specs.List.{AllByRecursion};
ghost use Rattle.srcp_info.specs.WellFormed.{IsWellFormedShown};
ghost use Rattle.srcp_grammar.specs.declared.layout.Bus.{Bus};
ghost use Rattle.srcp_script.specs.Output.{printed};
ghost use Rattle.srcp_tool.specs.Output.{RefusesFor, StopsFor, Writes, run_of, replayed};

use crate::fault::ToolFault;
use crate::input::{INPUT_LIMIT, read_input};
use crate::output::{write_connections, write_whole};
use srcp_core::{Event, Record, run_in_outline};
use srcp_rules::{Layout, Rows};
use srcp_script::{print_end, read_script};
use std::alloc::Global;
use std::io::{Read, Write};
use std::vec::Vec;

/// Reads a script to the end of the input, runs its events over the registry of the layout, and writes the record. The
/// run begins at moment 0, and session ids at 1. The record says what was sent to each connection, which events were
/// refused, and the rows at the end. Each keeper of rows gives the same record.
///
/// # Errors
/// Returns `Input` if a read fails, `TooLarge` if there are more than 16,777,216 bytes, and `Script` for the script's
/// first fault. Returns `Memory` if memory is refused, in the run too. Nothing is written then. Returns `Output` if a
/// write fails or takes nothing. A prefix is written then.
pub fn replay<K: Rows, R: Read, W: Write>(
    alloc: Global,
    layout: &Layout,
    reader: &mut R,
    writer: &mut W,
) -> Result<(), ToolFault>
    ensures { let input = R.remaining reader.old in Writes
        (λ text. IfSome input (λ bytes. replayed layout.now bytes ≡ Ok text))
        (StopsFor (λ fault. IfSome input (λ bytes. replayed layout.now bytes ≡ Err fault)))
        result (W.contents writer.old) (W.contents writer.new) }
{
    let input = read_input(alloc, reader)?;
    let outline = run_script::<K>(alloc, layout, &input)?;
    write_record(alloc, &outline, writer)
}

/// Runs a script, and returns the outline of the run.
///
/// # Errors
/// Returns `TooLarge` if there are more than 16,777,216 bytes, and `Script` for the script's first fault. Returns
/// `Memory` if memory is refused, in the run too.
fn run_script<K: Rows>(alloc: Global, layout: &Layout, input: &[u8]) -> Result<Record, ToolFault>
    ensures well_formed { IfOk result (λ run. AllByRecursion (λ row. IsWellFormedShown row.shown) run.rows) }
    ensures text { IfOk result (λ run. replayed layout.now input.now ≡ Ok (printed run)) }
    ensures stops { IfErr result (RefusesFor (λ fault. replayed layout.now input.now ≡ Err fault)) }
{
    let events = events_of(alloc, input)?;
    // An outline, since a replay prints neither steps nor items, which take three times the memory of all else.
    let outline = run_in_outline::<K>(alloc, layout, &events)?;
    if outline.denied > 0 {
        return Err(ToolFault::Memory);
    }
    Ok(outline)
}

/// Returns the events of a script.
///
/// # Errors
/// Returns `TooLarge` if there are more than 16,777,216 bytes, `Script` for the script's first fault, and `Memory` if
/// memory is refused.
fn events_of(alloc: Global, input: &[u8]) -> Result<Vec<Event>, ToolFault>
    ensures events { IfOk result (λ events.
        (buses : List Bus) → replayed buses input.now ≡ Ok (printed (run_of buses events.items))) }
    ensures stops { IfErr result (RefusesFor (λ fault.
        (buses : List Bus) → replayed buses input.now ≡ Err fault)) }
{
    if input.len() > INPUT_LIMIT {
        return Err(ToolFault::TooLarge);
    }
    let events = read_script(alloc, input)?;
    Ok(events)
}

/// Writes what is printed of a run. Copies none of the bytes sent to a connection.
///
/// # Errors
/// Returns `Memory` if memory is refused. Nothing is written then. Returns `Output` if a write fails or takes nothing.
/// A prefix is written then.
fn write_record<W: Write>(alloc: Global, run: &Record, writer: &mut W) -> Result<(), ToolFault>
    requires { AllByRecursion (λ row. IsWellFormedShown row.shown) run.now.rows }
    ensures { Writes (λ text. text ≡ printed run.now) (RefusesFor (λ fault. ⊥))
        result (W.contents writer.old) (W.contents writer.new) }
{
    // Printed into memory first: no memory can be refused once the writing has begun.
    let end = print_end(alloc, run)?;
    write_connections(writer, run.connections.as_slice())?;
    write_whole(writer, end.as_slice())
}

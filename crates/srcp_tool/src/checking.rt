//! A configuration or a plan, checked and printed for a person.

ghost use Rattle.std.specs.Prelude.{◌≡◌, IfOk, IfErr};
ghost use Rattle.srcp_tool.specs.Output.{check_output, PrintsPlan, RefusesPlan, RefusesFor, Writes};

use crate::fault::ToolFault;
use crate::output::write_whole;
use srcp_layout_file::{print_config, read_layout};
use srcp_plan_file::{print_plan, read_plan};
use std::alloc::Global;
use std::io::Write;
use std::vec::Vec;

/// Returns what the bytes of a configuration say: the port, then each bus by rising number, with its groups and their
/// sizes. The ports of an accessory are printed if there are more than two.
///
/// # Errors
/// Returns `Config` for the configuration's first fault, and `Memory` if memory is refused.
pub fn check_text(alloc: Global, bytes: &[u8]) -> Result<Vec<u8>, ToolFault>
    ensures text { IfOk result (λ text. check_output bytes.now ≡ Ok text.items) }
    ensures stops { IfErr result (RefusesFor (λ fault. check_output bytes.now ≡ Err fault)) }
{
    let config = read_layout(alloc, bytes)?;
    let text = print_config(alloc, &config)?;
    Ok(text)
}

/// Writes what the bytes of a configuration say (`check_text`).
///
/// # Errors
/// Returns `Config` for the configuration's first fault, and `Memory` if memory is refused. Nothing is written then.
/// Returns `Output` if a write fails or takes nothing. A prefix is written then.
pub fn check<W: Write>(alloc: Global, bytes: &[u8], writer: &mut W) -> Result<(), ToolFault>
    ensures { Writes (λ text. check_output bytes.now ≡ Ok text)
        (RefusesFor (λ fault. check_output bytes.now ≡ Err fault))
        result (W.contents writer.old) (W.contents writer.new) }
{
    let text = check_text(alloc, bytes)?;
    write_whole(writer, text.as_slice())
}

/// Returns what the bytes of a plan say: the routes' own bus, their numbers, and which of them conflict by what.
///
/// # Errors
/// Returns `Plan` for the plan's first fault, and `Memory` if memory is refused.
fn plan_text(alloc: Global, bytes: &[u8]) -> Result<Vec<u8>, ToolFault>
    ensures text { IfOk result (λ text. PrintsPlan bytes.now text.items) }
    ensures stops { IfErr result (RefusesFor (RefusesPlan bytes.now)) }
{
    let plan = read_plan(alloc, bytes)?;
    let text = print_plan(alloc, &plan)?;
    Ok(text)
}

/// Writes what the bytes of a plan say: the routes' own bus, their numbers, and which of them conflict by what.
///
/// # Errors
/// Returns `Plan` for the plan's first fault, and `Memory` if memory is refused. Nothing is written then. Returns
/// `Output` if a write fails or takes nothing. A prefix is written then.
pub fn check_plan<W: Write>(alloc: Global, bytes: &[u8], writer: &mut W) -> Result<(), ToolFault>
    ensures { Writes (PrintsPlan bytes.now) (RefusesFor (RefusesPlan bytes.now))
        result (W.contents writer.old) (W.contents writer.new) }
{
    let text = plan_text(alloc, bytes)?;
    write_whole(writer, text.as_slice())
}

//! The rows made by information lines.

ghost use Rattle.std.specs.Prelude.{◌≡◌, ◌+◌, ◌^◌, ◌<◌, ◌≤◌, ◌++◌, ℕ, List, length, IfOk, IfSome, IfErr};
ghost use Rattle.srcp_info.specs.Client.{listing};
ghost use Rattle.srcp_tool.specs.Mirroring.{IsAt};
ghost use Rattle.srcp_tool.specs.Output.{input_limit, ClientHolds, Writes, Mirrors, RefusesFor, RefusesInput, StopsFor};

mod begun;
mod lines;

use crate::fault::ToolFault;
use crate::input::{INPUT_LIMIT, PIECE, read_piece};
use crate::output::write_whole;
use lines::MirroredLines;
use srcp_info::{Mirror, MirrorFault};
use srcp_script::print_shown;
use std::alloc::{AllocError, Global};
use std::io::{Read, Write};
use std::vec::Vec;

/// Reads information lines to the end of the input, applies them as a client does, and writes the rows as lines in key
/// order. Lines end in LF alone, and what follows the last LF is not applied. Keeps no input: allocates memory for the
/// rows and for their lines alone.
///
/// # Errors
/// Returns `Input` if a read fails, `TooLarge` if there are more than 16,777,216 bytes, and `Line` for the first line
/// other than an information line. Returns `Memory` if memory is refused. Nothing is written then. Returns `Output`
/// if a write fails or takes nothing. A prefix of the rows' lines is written then.
pub fn mirror<R: Read, W: Write>(
    alloc: Global,
    reader: &mut R,
    writer: &mut W,
) -> Result<(), ToolFault>
    ensures { let input = R.remaining reader.old in Writes
        (λ output. IfSome input (λ bytes. Mirrors bytes output))
        (StopsFor (λ fault. IfSome input (λ bytes. RefusesInput bytes fault)))
        result (W.contents writer.old) (W.contents writer.new) }
{
    let mirror = read_lines(alloc, reader)?;
    let text = print_listing(alloc, &mirror)?;
    write_whole(writer, text.as_slice())
}

/// Applies the lines of the input to the end. Reports a refused line only at the end, since a failing read and too
/// large an input come first.
fn read_lines<R: Read>(alloc: Global, reader: &mut R) -> Result<Mirror, ToolFault>
    ensures within { IfOk result (λ rows. IfSome (R.remaining reader.old) (λ input. length input ≤ input_limit)) }
    ensures holds { IfOk result (λ rows. IfSome (R.remaining reader.old) (λ input. ClientHolds input rows)) }
    ensures stops { IfErr result (StopsFor (λ fault.
        IfSome (R.remaining reader.old) (λ input. RefusesInput input fault))) }
{
    let mut lines = MirroredLines::new(alloc);
    let mut refused = None;
    let mut total = 0;
    let mut piece = [0; PIECE];
    for _ in 0..INPUT_LIMIT + 1 {
        let count = read_piece(reader, &mut piece)?;
        if count == 0 {
            return match refused {
                Some(line) => Err(ToolFault::Line(line)),
                None => Ok(lines.into_mirror()),
            };
        }
        total += count;
        if total > INPUT_LIMIT {
            return Err(ToolFault::TooLarge);
        }
        refused = take_piece(&mut lines, refused, &piece[..count])?;
    }
    Err(ToolFault::TooLarge)
}

/// Applies each line whose LF is in a piece, unless an earlier line was refused. Returns the number of a refused
/// line.
fn take_piece(
    lines: &mut MirroredLines,
    refused: Option<usize>,
    piece: &[u8],
) -> Result<Option<usize>, ToolFault>
    requires { lines.old.count + length piece.now + 1 < 2 ^ 64 }
    ensures taken { (input : List ℕ) → IsAt lines.old refused input
        → IfOk result (λ now. IsAt lines.new now (input ++ piece.now)) }
    ensures memory { IfErr result (λ fault. fault ≡ ToolFault.Memory) }
    ensures count { lines.new.count ≤ lines.old.count + length piece.now }
{
    if refused.is_some() {
        return Ok(refused);
    }
    match lines.take(piece) {
        Ok(()) => Ok(None),
        Err(MirrorFault::NotInfo) => Ok(Some(lines.count() + 1)),
        Err(MirrorFault::Memory) => Err(ToolFault::Memory),
    }
}

/// Prints the lines of the rows.
fn print_listing(alloc: Global, mirror: &Mirror) -> Result<Vec<u8>, AllocError>
    ensures { IfOk result (λ text. text.items ≡ listing mirror.now) }
{
    let mut text = Vec::new(alloc);
    for shown in mirror.rows() {
        print_shown(shown, &mut text)?;
    }
    Ok(text)
}

//! A signal box over a stream.

ghost use Rattle.srcp_tool.specs.Interlocking.{Interlocks, SendsText};
ghost use Rattle.srcp_tool.specs.Moving.{AnswersLine, TakesPiece};

use crate::fault::ToolFault;
use crate::input::{PIECE, read_piece};
use crate::output::write_whole;
use srcp_interlock::SignalBox;
use srcp_routes::Route;
use srcp_text::{Fed, LineReader};
use std::alloc::Global;
use std::io::{Read, Write};
use std::vec::Vec;

/// Sets the routes of a plan and gives them back, by the lines on the input. These are the lines sent to a panel, and a
/// reply to each written line. Flushes each written line before the next line is read. Lines end in LF, and a CR just
/// before the LF is dropped. A line of more than 1,000 bytes tells of nothing.
///
/// # Errors
/// Returns `Input` if a read fails, and `TooLarge` after 18,446,744,073,709,551,615 reads. Everything given by the
/// lines is written then. Returns `Output` if a write fails or takes nothing, or a flush fails. A prefix of what the
/// lines gave is written then. Returns `Memory` if memory is refused. Nothing is written then.
pub fn interlock<R: Read, W: Write>(
    alloc: Global,
    own: u8,
    routes: Vec<Route>,
    reader: &mut R,
    writer: &mut W,
) -> Result<(), ToolFault>
    ensures { Interlocks own routes.items result (R.remaining reader.old)
        (W.contents writer.old) (W.contents writer.new) }
{
    let mut signal_box = SignalBox::new(alloc, own, routes)?;
    let mut lines = LineReader::new();
    let mut piece = [0; PIECE];
    for _ in 0..u64::MAX {
        let count = read_piece(reader, &mut piece)?;
        if count == 0 {
            return Ok(());
        }
        take_piece(&mut lines, &mut signal_box, &piece[..count], writer)?;
    }
    Err(ToolFault::TooLarge)
}

/// Takes in each line whose LF is in a piece of the input, and writes what the box sends by the line.
///
/// # Errors
/// Returns `Output` if a write fails or takes nothing, or a flush fails.
fn take_piece<W: Write>(
    lines: &mut LineReader,
    signal_box: &mut SignalBox,
    piece: &[u8],
    writer: &mut W,
) -> Result<(), ToolFault>
    ensures { TakesPiece lines.old signal_box.old piece.now lines.new signal_box.new result
        (W.contents writer.old) (W.contents writer.new) }
{
    let mut start = 0;
    loop {
        match lines.feed(piece, start) {
            Fed::More => return Ok(()),
            Fed::TooLong { stop } => start = stop,
            Fed::Line { stop } => {
                answer(signal_box, lines.line(), writer)?;
                start = stop;
            }
        }
    }
}

/// Takes in a line, and writes what the box sends by this line.
///
/// # Errors
/// Returns `Output` if a write fails or takes nothing, or the flush fails.
fn answer<W: Write>(
    signal_box: &mut SignalBox,
    line: &[u8],
    writer: &mut W,
) -> Result<(), ToolFault>
    ensures { AnswersLine signal_box.old line.now signal_box.new result
        (W.contents writer.old) (W.contents writer.new) }
{
    match signal_box.step(line) {
        Some(sent) => send(&sent, writer),
        None => Ok(()),
    }
}

/// Writes a line, and flushes the output.
///
/// # Errors
/// Returns `Output` if a write fails or takes nothing, or the flush fails.
fn send<W: Write>(line: &[u8], writer: &mut W) -> Result<(), ToolFault>
    ensures { SendsText line.now result (W.contents writer.old) (W.contents writer.new) }
{
    write_whole(writer, line)?;
    match writer.flush() {
        Ok(()) => Ok(()),
        Err(_) => Err(ToolFault::Output),
    }
}

//! The standard output.

ghost use Rattle.std.specs.List.{flat_map, enumerate_from};
ghost use Rattle.srcp_script.specs.Output.{connection_lines};
ghost use Rattle.srcp_tool.specs.Output.{WritesText};

use crate::fault::ToolFault;
use srcp_core::ConnRecord;
use srcp_script::{connection_line, line_end};
use std::io::Write;

/// Writes all of a text.
///
/// # Errors
/// Returns `Output` if a write fails or takes nothing. A prefix of the text is written then.
pub(crate) fn write_whole<W: Write>(writer: &mut W, text: &[u8]) -> Result<(), ToolFault>
    ensures { WritesText text.now result (W.contents writer.old) (W.contents writer.new) }
{
    let mut done = 0;
    while done < text.len() {
        match writer.write(&text[done..]) {
            Ok(0) | Err(_) => return Err(ToolFault::Output),
            Ok(count) => done += count,
        }
    }
    Ok(())
}

/// Writes what is printed of each connection, from number 1 on. Allocates no memory.
///
/// # Errors
/// Returns `Output` if a write fails or takes nothing. A prefix of the text is written then.
pub(crate) fn write_connections<W: Write>(
    writer: &mut W,
    connections: &[ConnRecord],
) -> Result<(), ToolFault>
    ensures { WritesText (flat_map connection_lines (enumerate_from 1 connections.now))
        result (W.contents writer.old) (W.contents writer.new) }
{
    for (index, conn) in connections.iter().enumerate() {
        write_connection(writer, index + 1, conn)?;
    }
    Ok(())
}

/// Writes the line of a connection, and the bytes sent to this connection.
fn write_connection<W: Write>(
    writer: &mut W,
    number: usize,
    conn: &ConnRecord,
) -> Result<(), ToolFault>
    ensures { WritesText (connection_lines (number, conn.now)) result (W.contents writer.old) (W.contents writer.new) }
{
    let line = connection_line(number, conn);
    let sent = conn.sent.as_slice();
    let end = line_end(sent);
    write_whole(writer, &line)?;
    write_whole(writer, sent)?;
    write_whole(writer, end)
}

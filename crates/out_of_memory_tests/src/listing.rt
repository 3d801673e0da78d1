//! A run over the script of a trial, with the whole record printed.
ghost use Rattle.std.specs.List.{AllByRecursion};
ghost use Rattle.srcp_info.specs.WellFormed.{IsWellFormedShown};

use crate::calls::one_bus;
use crate::outcome::{Outcome, Refused};
use srcp_core::{ConnRecord, Item, Record, run};
use srcp_feed::Next;
use srcp_info::{Row, write_shown};
use srcp_rules::Rows;
use srcp_script::read_script;
use srcp_text::LineBuf;
use std::alloc::Global;
use std::io::{self, Write};

/// Runs the script and prints the record. `tests/listing_out_of_memory.py` has the expected records. If memory is
/// refused to the record itself there is no record, and nothing is printed.
pub(crate) fn listing<R: Rows, W: Write>(
    alloc: Global,
    script: &[u8],
    out: &mut W,
) -> Result<Outcome, Refused> {
    let layout = one_bus(alloc)?;
    let events = read_script(alloc, script)?;
    let Ok(record) = run::<R>(alloc, &layout, &events) else {
        return Ok(Outcome::Refused);
    };
    Ok(match (print_record(&record, out), record.denied) {
        (Ok(()), 0) => Outcome::Granted,
        (Ok(()), 1) => Outcome::Refused,
        _ => Outcome::Broken,
    })
}

/// Prints a record: the steps, each connection, the refused events, and the rows. Allocates no memory.
fn print_record<W: Write>(run: &Record, out: &mut W) -> io::Result<()>
    requires { AllByRecursion (λ row. IsWellFormedShown row.shown) run.now.rows }
{
    for step in run.steps.as_slice() {
        writeln!(out, "{step:?}")?;
    }
    let rows = run.rows.as_slice();
    for connection in run.connections.as_slice() {
        print_connection(connection, rows, out)?;
    }
    for refusal in run.refused.as_slice() {
        let event = refusal.event;
        let fault = refusal.fault;
        writeln!(out, "refused {event} {fault:?}")?;
    }
    for row in rows {
        print_row(row, out)?;
    }
    Ok(())
}

/// Prints the record of a connection, and the bytes sent to this connection.
fn print_connection<W: Write>(
    connection: &ConnRecord,
    rows: &[Row],
    out: &mut W,
) -> io::Result<()> {
    let session = connection.session;
    let info = connection.info;
    let go_step = connection.go_step;
    let finish = connection.finish;
    writeln!(out, "connection {session} {info} {go_step} {finish:?}")?;
    for item in connection.items.as_slice() {
        print_item(item, rows, out)?;
    }
    out.write_all(connection.sent.as_slice())
}

/// Prints how many steps there were before an item, and the index of the listed row, if the item lists a row.
fn print_item<W: Write>(item: &Item, rows: &[Row], out: &mut W) -> io::Result<()> {
    let steps = item.steps;
    let place = rows
        .iter()
        .position(|row| Next::Listed(row.shown) == item.what);
    writeln!(out, "item {steps} {place:?}")
}

/// Prints the moment at which a row changes by itself, and the row's line.
fn print_row<W: Write>(row: &Row, out: &mut W) -> io::Result<()>
    requires { IsWellFormedShown row.now.shown }
{
    let mut line = LineBuf::new();
    write_shown(&row.shown, &mut line);
    let due = row.due;
    write!(out, "{due:?} ")?;
    out.write_all(&line)
}

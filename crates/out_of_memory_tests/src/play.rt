//! A run of throttles and a panel. Each command that may need memory is sent twice.
use crate::calls::one_bus;
use crate::outcome::{Outcome, Refused};
use srcp_core::{CoreFault, Record, run};
use srcp_rules::Rows;
use srcp_script::read_script;
use std::alloc::Global;
use std::vec::Vec;

/// Opens a connection more than the run uses, since memory may be refused to a connection. Before and after each piece
/// of commands everything is sent to the panel.
const SCRIPT: &[u8] = b"open
open
open
room 1 45
room 2 45
bytes 1 GO\\nGO\\n
room 1 1000
bytes 2 SET CONNECTIONMODE SRCP INFO\\nGO\\nGO\\n
room 2 10000
bytes 1 INIT 1 GL 3 N 1 28 2\\nINIT 1 GL 3 N 1 28 2\\nINIT 1 GA 5 M\\nINIT 1 GA 5 M\\n
room 1 1000
room 2 10000
bytes 1 SET 1 FB 1 1\\n
room 1 1000
room 2 10000
at 1000
bytes 1 SET 1 LOCK GL 3 60\\nSET 1 LOCK GL 3 60\\nSET 1 LOCK GA 5 0\\nSET 1 LOCK GA 5 0\\n
room 1 1000
room 2 10000
";

/// The number of rows at the end of the run.
const ROWS: usize = 12;

/// Runs the script. If an allocation is refused there is no record, or a record with a single refusal. The record's
/// rows are then those of a run without a refusal, since the refused command was sent again. The panel was sent the
/// same lines before the locks, then a line for each accepted lock, and none for what was refused.
pub(crate) fn play<R: Rows>(alloc: Global) -> Result<Outcome, Refused> {
    let layout = one_bus(alloc)?;
    let events = read_script(alloc, SCRIPT)?;
    let Ok(record) = run::<R>(alloc, &layout, &events) else {
        return Ok(Outcome::Refused);
    };
    if record.denied == 0 {
        let is_whole = refusals(&record) == 0 && record.rows.as_slice().len() == ROWS;
        return Ok(Outcome::granted_if(is_whole));
    }
    let Ok(ample) = run::<R>(alloc, &layout, &events) else {
        return Ok(Outcome::Broken);
    };
    let same = record.rows.as_slice() == ample.rows.as_slice()
        && panel_lines(alloc, &record)?.as_slice() == panel_lines(alloc, &ample)?.as_slice()
        && lines_like(&record, LOCK_LINE) == lines_like(&record, LOCK_ACCEPTED)
        && ample.denied == 0;
    Ok(Outcome::refused_if(same && record.denied == 1 && refusals(&record) == 1))
}

/// The beginning of an information line of a lock.
const LOCK_LINE: &[u8] = b"1.000 100 INFO 1 LOCK ";

/// The reply to the SET of a lock.
const LOCK_ACCEPTED: &[u8] = b"1.000 200 OK";

/// Returns how many lines of a run were answered 500, and how many connections were refused memory.
fn refusals(record: &Record) -> usize {
    let count = lines_like(record, b"0.000 500 ").saturating_add(lines_like(record, b"1.000 500 "));
    let refused = record.refused.as_slice();
    count.saturating_add(
        refused
            .iter()
            .filter(|refusal| refusal.fault == CoreFault::Memory)
            .count(),
    )
}

/// Returns how many lines with `prefix` at the beginning were sent, to all connections together.
fn lines_like(record: &Record, prefix: &[u8]) -> usize {
    let mut count: usize = 0;
    for connection in record.connections.as_slice() {
        for line in connection.sent.as_slice().split(|byte| *byte == b'\n') {
            if line.starts_with(prefix) {
                count = count.saturating_add(1);
            }
        }
    }
    count
}

/// Returns the information lines sent to information sessions before the locks.
fn panel_lines(alloc: Global, record: &Record) -> Result<Vec<u8>, Refused> {
    let mut lines = Vec::new(alloc);
    for connection in record.connections.as_slice() {
        if connection.info {
            for line in connection.sent.as_slice().split(|byte| *byte == b'\n') {
                if line.starts_with(b"0.000 10") {
                    lines.extend_from_slice(line)?;
                }
            }
        }
    }
    Ok(lines)
}

//! A mirror of the lines of a panel.

use crate::events::{begin, bytes};
use crate::fixture::{mirror_of, one_bus};
use srcp_core::{Event, Record, run};
use srcp_info::{Mirror, Row};
use srcp_rules::Flat;
use std::alloc::Global;
use std::process::Abort;
use std::test::Fail;
use std::vec::Vec;

/// Pieces sent by a command session, each with the moment after the piece.
const PIECES: [(&[u8], u64); 3] = [
    (
        b"INIT 1 GL 3 N 1 28 2\nINIT 1 GA 5 M\nINIT 1 GA 6 P\n",
        1000,
    ),
    (
        b"SET 1 GL 3 1 5 28 1\nSET 1 LOCK GL 3 60\nSET 1 LOCK GA 6 9\n",
        2000,
    ),
    (b"TERM 1 GA 5\nSET 1 FB 2 1\nINIT 1 GL 3 N 2 28 1\n", 11_000),
];

/// Appends these events: the command session sends a piece, the panel has a little room, and a moment comes.
fn send(alloc: Global, events: &mut Vec<Event>, lines: &[u8], moment: u64) -> Result<(), Fail> {
    events.push(bytes(alloc, 1, lines)?)?;
    events.push(Event::Room {
        conn: 1,
        bytes: 1000,
    })?;
    events.push(Event::Room { conn: 2, bytes: 70 })?;
    events.push(Event::At(moment))?;
    Ok(())
}

/// Returns the events of a command session and of a panel, settled in the end.
fn a_settled_panel(alloc: Global) -> Result<Vec<Event>, Fail> {
    let mut events = Vec::new(alloc);
    begin(alloc, &mut events, 1, b"GO\n")?;
    begin(alloc, &mut events, 2, b"SET CONNECTIONMODE SRCP INFO\nGO\n")?;
    for (lines, moment) in PIECES {
        send(alloc, &mut events, lines, moment)?;
    }
    events.push(Event::Room {
        conn: 2,
        bytes: 10_000,
    })?;
    Ok(events)
}

/// Asserts that the mirror holds the same rows as the registry.
fn assert_same_rows(rt: &impl Abort, mirror: &Mirror, rows: &[Row]) {
    assert_eq!(rt; mirror.rows().len(), rows.len());
    for (shown, row) in mirror.rows().zip(rows) {
        assert_eq!(rt; *shown, row.shown);
    }
}

/// Asserts that the mirror of the panel's lines after its three replies holds the ten rows.
fn assert_mirrored(rt: &impl Abort, alloc: Global, record: &Record) -> Result<(), Fail> {
    let [_, panel] = record.connections.as_slice() else {
        return Err(Fail::from("not two connections"));
    };
    let mirror = mirror_of(alloc, panel.sent.as_slice(), 3)?;
    assert_same_rows(rt, &mirror, record.rows.as_slice());
    assert_eq!(rt; mirror.rows().len(), 10);
    assert_eq!(rt; record.denied, 0);
    Ok(())
}

#[test]
fn a_mirror_of_a_settled_panel_holds_the_rows(rt: HostRuntime) -> Result<(), Fail> {
    let layout = one_bus(rt.alloc())?;
    let events = a_settled_panel(rt.alloc())?;
    let record = run::<Flat>(rt.alloc(), &layout, &events)?;
    assert_mirrored(&rt, rt.alloc(), &record)
}

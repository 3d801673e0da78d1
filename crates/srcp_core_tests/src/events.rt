//! Lists of events, and a comparison of two runs.
use srcp_core::{ConnRecord, Event, Item, Piece};
use srcp_feed::Next;
use srcp_info::{Change, Group, Key, Mode, Shown, Text, Value};
use std::alloc::Global;
use std::test::Fail;
use std::vec::Vec;

/// Returns the event of these bytes, received on a connection.
pub(crate) fn bytes(alloc: Global, conn: usize, text: &[u8]) -> Result<Event, Fail> {
    Ok(Event::Bytes {
        conn,
        piece: Piece::new(Vec::from_slice(alloc, text)?),
    })
}

/// Opens a connection, begins the session by these lines, and sends the replies.
pub(crate) fn begin(
    alloc: Global,
    events: &mut Vec<Event>,
    conn: usize,
    lines: &[u8],
) -> Result<(), Fail> {
    events.push(Event::Open)?;
    events.push(Event::Room { conn, bytes: 45 })?;
    events.push(bytes(alloc, conn, lines)?)?;
    events.push(Event::Room {
        conn,
        bytes: if lines.len() > 3 { 46 } else { 18 },
    })?;
    Ok(())
}

/// Returns whether two records of connections are the same.
pub(crate) fn is_same_connection(one: &ConnRecord, other: &ConnRecord) -> bool {
    one.session == other.session
        && one.info == other.info
        && one.go_step == other.go_step
        && one.sent.as_slice() == other.sent.as_slice()
        && one.items.as_slice() == other.items.as_slice()
        && one.finish == other.finish
}

/// Returns the row of a session.
pub(crate) fn session_row(session: u32, mode: Mode) -> Shown {
    Shown {
        key: Key {
            bus: 0,
            group: Group::Session,
            address: session,
            port: 0,
        },
        stamp: 0,
        value: Value::Session { mode },
    }
}

/// Returns the row of a sensor.
pub(crate) fn sensor_row(port: u32, on: bool) -> Shown {
    Shown {
        key: Key {
            bus: 1,
            group: Group::Fb,
            address: port,
            port: 0,
        },
        stamp: 0,
        value: Value::Fb { on },
    }
}

pub(crate) fn listed(steps: usize, row: Shown) -> Item {
    Item {
        steps,
        what: Next::Listed(row),
    }
}

pub(crate) fn told(steps: usize, row: Shown) -> Item {
    Item {
        steps,
        what: Next::Told(Change::Put(row)),
    }
}

/// Returns the row of the power of the bus, with the power off.
pub(crate) fn power_row() -> Shown {
    Shown {
        key: Key {
            bus: 1,
            group: Group::Power,
            address: 0,
            port: 0,
        },
        stamp: 0,
        value: Value::Power {
            on: false,
            text: Text::new(),
        },
    }
}

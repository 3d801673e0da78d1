//! The feed of an information session.

use crate::events::{power_row, sensor_row};
use crate::fixture::one_bus;
use srcp_feed::{InfoFeed, Next, Told};
use srcp_info::{Change, Cursor, Shown};
use srcp_rules::{Flat, Rows};
use std::process::Abort;
use std::test::Fail;

/// Asserts that the feed gives the row, and has then listed this row.
fn assert_listed(rt: &impl Abort, feed: &mut InfoFeed, rows: &Flat, row: &Shown) {
    assert!(rt; matches!(feed.next(rows), Next::Listed(listed) if listed == *row));
    assert_eq!(rt; feed.cursor(), Cursor::After(row.key));
}

/// Asserts that the feed has nothing left to give.
fn assert_settled(rt: &impl Abort, feed: &mut InfoFeed, rows: &Flat) {
    assert!(rt; matches!(feed.next(rows), Next::Settled));
    assert_eq!(rt; feed.cursor(), Cursor::Done);
}

/// Asserts that a new feed lists all rows, also a row whose change was told to the feed.
fn assert_lists(rt: &impl Abort, feed: &mut InfoFeed, rows: &Flat) {
    assert_eq!(rt; feed.cursor(), Cursor::Start);
    assert_eq!(rt; feed.waiting(), 0);
    assert_eq!(rt; feed.tell(&Change::Put(power_row())), Told::Skipped);
    assert_listed(rt, feed, rows, &power_row());
    assert_listed(rt, feed, rows, &sensor_row(1, false));
    assert_listed(rt, feed, rows, &sensor_row(2, false));
    for _ in 0..2 {
        assert_settled(rt, feed, rows);
    }
}

#[test]
fn a_feed_begins_before_the_first_row(rt: HostRuntime) -> Result<(), Fail> {
    let layout = one_bus(rt.alloc())?;
    let rows = Flat::empty(rt.alloc(), &layout)?;
    let mut feed = InfoFeed::begin(rt.alloc(), &rows)?;
    assert_lists(&rt, &mut feed, &rows);
    Ok(())
}

/// Asserts that at most 256 changes of the first row wait, and none of the next row.
fn tell_changes(rt: &impl Abort, feed: &mut InfoFeed, power: &Change, sensor: &Change) {
    for waiting in 0..256 {
        assert_eq!(rt; feed.waiting(), waiting);
        assert_eq!(rt; feed.tell(sensor), Told::Skipped);
        assert_eq!(rt; feed.tell(power), Told::Queued);
    }
    assert_eq!(rt; feed.tell(power), Told::Overrun);
    assert_eq!(rt; feed.tell(sensor), Told::Skipped);
    assert_eq!(rt; feed.waiting(), 256);
}

/// Asserts that the feed gives the waiting changes before the next row.
fn take_changes(rt: &impl Abort, feed: &mut InfoFeed, rows: &Flat, power: &Change) {
    for _ in 0..256 {
        assert!(rt; matches!(feed.next(rows), Next::Told(change) if change == *power));
    }
    assert!(rt; matches!(feed.next(rows), Next::Listed(row) if row == sensor_row(1, false)));
}

/// Lists the first row, and then queues as many changes as may wait.
fn fill_queue(rt: &impl Abort, feed: &mut InfoFeed, rows: &Flat) {
    assert!(rt; matches!(feed.next(rows), Next::Listed(_)));
    let power = Change::Put(power_row());
    tell_changes(rt, feed, &power, &Change::Put(sensor_row(1, true)));
    take_changes(rt, feed, rows, &power);
}

#[test]
fn a_feed_holds_256_changes(rt: HostRuntime) -> Result<(), Fail> {
    let layout = one_bus(rt.alloc())?;
    let rows = Flat::empty(rt.alloc(), &layout)?;
    let mut feed = InfoFeed::begin(rt.alloc(), &rows)?;
    fill_queue(&rt, &mut feed, &rows);
    Ok(())
}

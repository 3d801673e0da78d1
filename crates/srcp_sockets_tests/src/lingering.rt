//! Lingering: closed peers with output left, over a network in memory.

use crate::network::{Happens, Network, at};
use crate::record::{closed_at, shuts, took_of};
use crate::scene::{AMPLE, all_served, serve_events};
use std::test::Fail;

/// How many bytes are sent to a session, begun and ended by commands in the first ten milliseconds: the welcome line
/// and two replies.
const ALL: usize = 76;

#[test]
fn keeps_who_was_closed_for_its_time(rt: HostRuntime) -> Result<(), Fail> {
    let reads = Happens::Receives(AMPLE);
    let half_closes = Happens::HalfCloses;
    for (later, time, last, taken, shut, closed) in [
        (reads, 3_100, half_closes, ALL, 1, 3_100),
        (reads, 30_000, half_closes, ALL, 1, 10_005),
        (Happens::Receives(10), 30_000, half_closes, 60, 0, 10_005),
        (half_closes, 3_100, reads, ALL, 1, 3_100),
        (Happens::Resets, 30_000, reads, 50, 0, 3_000),
    ] {
        let events = [
            at(0, 1, Happens::Connects),
            at(0, 1, Happens::Receives(50)),
            at(5, 1, Happens::Sends(b"GO\nTERM 0 SESSION\nGET 1 POWER\n")),
            at(3_000, 1, later),
            at(time, 1, last),
        ];
        let (served, door) = serve_events(rt.alloc(), Network::new(rt.alloc(), &events, false))?;
        assert_eq!(rt; served, all_served(1));
        let entries = door.system().entries()?;
        assert_eq!(rt; took_of(rt.alloc(), entries, 1)?.len(), taken);
        assert_eq!(rt; shuts(entries, 1), shut);
        let after = closed_at(entries, 1).unwrap_or(0).saturating_sub(closed);
        assert!(rt;
            closed_at(entries, 1) >= Some(closed) && after < 20,
            "{after} ms after its time"
        );
    }
    Ok(())
}

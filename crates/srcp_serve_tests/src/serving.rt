//! Serving over a door in memory.

use crate::script_door::{ScriptDoor, ScriptPeer};
use srcp_core::{CoreFault, LoggedCore, Record, Refusal, run};
use srcp_rules::{Bus, Flat, Layout};
use srcp_serve::{Served, serve};
use std::alloc::Global;
use std::test::Fail;

const NOTHING: &[u8] = b"";

const WELCOME: &[u8] = b"srcp_server 1.0; SRCP 0.8.4; SRCPOTHER 0.8.3\n";

const AT_0: &[u8] = b"srcp_server 1.0; SRCP 0.8.4; SRCPOTHER 0.8.3\n0.000 200 OK GO 1\n";

const AT_1: &[u8] = b"srcp_server 1.0; SRCP 0.8.4; SRCPOTHER 0.8.3\n1.000 200 OK GO 1\n";

const AT_2: &[u8] = b"srcp_server 1.0; SRCP 0.8.4; SRCPOTHER 0.8.3\n2.000 200 OK GO 1\n";

const AT_3: &[u8] = b"srcp_server 1.0; SRCP 0.8.4; SRCPOTHER 0.8.3\n3.000 200 OK GO 1\n";

const MANY_PORTS: Bus = Bus {
    number: 1,
    power: false,
    gl_max: 0,
    ga_max: 0,
    ga_ports: 2,
    fb_ports: 1000,
};

/// The pieces sent by a panel.
const PANEL: [&[u8]; 1] = [b"SET CONNECTIONMODE SRCP INFO\nGO\n"];

/// Returns the counts of serving without a failure, if `opened` peers were let in.
fn all_served(turns: u64, opened: u64) -> Served {
    Served {
        turns,
        opened,
        faults: 0,
    }
}

/// Serves the peers of a door for this many turns, and runs the events made by the door's calls.
fn serve_and_run(
    alloc: Global,
    layout: &Layout,
    door: &mut ScriptDoor<'_>,
    turns: u64,
) -> Result<(Served, Record), Fail> {
    let mut core = LoggedCore::<Flat>::new(alloc, layout)?;
    let served = serve(&mut core, door, turns);
    let events = door.events()?;
    let trace = run::<Flat>(alloc, layout, &events)?;
    Ok((served, trace))
}

/// Returns what a connection of a run was sent, or no bytes if there is no such connection.
fn sent(trace: &Record, index: usize) -> &[u8] {
    match trace.connections.as_slice().get(index) {
        Some(conn) => conn.sent.as_slice(),
        None => NOTHING,
    }
}

#[test]
fn serves_a_peer(rt: HostRuntime) -> Result<(), Fail> {
    let layout = Layout::new(rt.alloc());
    let mut door = ScriptDoor::new(rt.alloc(), &[0, 0, 0], 0);
    door.add(ScriptPeer::new(rt.alloc(), &[b"GO\n", b""], 1000))?;
    let (served, trace) = serve_and_run(rt.alloc(), &layout, &mut door, 3)?;
    assert_eq!(rt; served, all_served(3, 1));
    assert_eq!(rt; door.written(0), AT_0);
    assert_eq!(rt; sent(&trace, 0), AT_0);
    assert_eq!(rt; door.closes(0), 1);
    assert_eq!(rt; door.calls, 11);
    Ok(())
}

#[test]
fn goes_on_after_a_call_that_fails(rt: HostRuntime) -> Result<(), Fail> {
    // In turn 2 the call 4 asks for the moment, 6 reads and 7 writes the reply; 11 closes in turn 3.
    let written = [
        (1, AT_2),
        (2, AT_3),
        (3, NOTHING),
        (4, AT_1),
        (5, AT_2),
        (6, WELCOME),
        (7, WELCOME),
        (8, AT_2),
        (9, AT_2),
        (10, AT_2),
        (11, AT_2),
    ];
    let wanted = Served {
        faults: 1,
        ..all_served(4, 1)
    };
    for (failing, lines) in written {
        let layout = Layout::new(rt.alloc());
        let mut door = ScriptDoor::new(rt.alloc(), &[1000, 2000, 3000, 4000], failing);
        door.add(ScriptPeer::new(rt.alloc(), &[b"GO\n", b""], 1000))?;
        let (served, trace) = serve_and_run(rt.alloc(), &layout, &mut door, 4)?;
        assert_eq!(rt; served, wanted);
        assert_eq!(rt; door.written(0), lines);
        assert_eq!(rt; sent(&trace, 0), lines);
        assert_eq!(rt; door.closes(0), 1);
    }
    Ok(())
}

#[test]
fn writes_a_byte_each_turn(rt: HostRuntime) -> Result<(), Fail> {
    for (turns, written) in [(45, WELCOME), (63, AT_0)] {
        let layout = Layout::new(rt.alloc());
        let mut door = ScriptDoor::new(rt.alloc(), &[], 0);
        door.add(ScriptPeer::new(rt.alloc(), &[b"GO\n"], 1))?;
        let (served, trace) = serve_and_run(rt.alloc(), &layout, &mut door, turns)?;
        assert_eq!(rt; served, all_served(turns, 1));
        assert_eq!(rt; door.written(0), written);
        assert_eq!(rt; sent(&trace, 0), written);
    }
    Ok(())
}

#[test]
fn lets_64_peers_in(rt: HostRuntime) -> Result<(), Fail> {
    let layout = Layout::new(rt.alloc());
    let mut door = ScriptDoor::new(rt.alloc(), &[], 0);
    for _ in 0..65 {
        door.add(ScriptPeer::new(rt.alloc(), &[], 1000))?;
    }
    let (served, trace) = serve_and_run(rt.alloc(), &layout, &mut door, 66)?;
    assert_eq!(rt; served, all_served(66, 64));
    for index in 0..64 {
        assert_eq!(rt; door.written(index), WELCOME);
        assert_eq!(rt; sent(&trace, index), WELCOME);
        assert_eq!(rt; door.closes(index), 0);
    }
    assert_eq!(rt; door.written(64), NOTHING);
    assert_eq!(rt; door.closes(64), 1);
    assert_eq!(rt; trace.connections.as_slice().len(), 64);
    assert!(rt;
        matches!(
            trace.refused.as_slice(),
            [Refusal {
                fault: CoreFault::Full,
                ..
            }]
        )
    );
    Ok(())
}

#[test]
fn gives_a_slot_to_the_next(rt: HostRuntime) -> Result<(), Fail> {
    // The first peer ends in turn 2. The third has its slot from turn 3 on, and all three are sent the same.
    let layout = Layout::new(rt.alloc());
    let mut door = ScriptDoor::new(rt.alloc(), &[], 0);
    door.add(ScriptPeer::new(rt.alloc(), &[b""], 1000))?;
    door.add(ScriptPeer::new(rt.alloc(), &[b"GO\n"], 7))?;
    door.add(ScriptPeer::new(rt.alloc(), &[b"GO\n"], 1000))?;
    let (served, trace) = serve_and_run(rt.alloc(), &layout, &mut door, 20)?;
    assert_eq!(rt; served, all_served(20, 3));
    for index in 0..3 {
        assert_eq!(rt; sent(&trace, index), door.written(index));
    }
    assert_eq!(rt; door.written(0), WELCOME);
    assert!(rt; door.written(1).ends_with(b"0.000 200 OK GO 2\n"));
    assert!(rt; door.written(2).ends_with(b"0.000 200 OK GO 1\n"));
    Ok(())
}

#[test]
fn writes_300_lines_a_turn(rt: HostRuntime) -> Result<(), Fail> {
    let mut layout = Layout::new(rt.alloc());
    layout.add(MANY_PORTS)?;
    let mut lines = [0usize; 2];
    for (turns, count) in [2u64, 3].into_iter().zip(&mut lines) {
        let mut door = ScriptDoor::new(rt.alloc(), &[], 0);
        door.add(ScriptPeer::new(rt.alloc(), &PANEL, 1000))?;
        let (_, trace) = serve_and_run(rt.alloc(), &layout, &mut door, turns)?;
        assert_eq!(rt; sent(&trace, 0), door.written(0));
        *count = door
            .written(0)
            .iter()
            .filter(|byte| **byte == b'\n')
            .count();
    }
    assert_eq!(rt; lines[1].checked_sub(lines[0]), Some(300));
    Ok(())
}

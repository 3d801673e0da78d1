//! Serving over a network in memory.

use crate::network::{Happens, Network, at};
use crate::record::{lines_in, most_lines, time_of, took_of};
use crate::scene::{AMPLE, all_served, serve_events, took_lines};
use std::test::Fail;
use std::vec::Vec;

#[test]
fn writes_what_a_socket_takes(rt: HostRuntime) -> Result<(), Fail> {
    for room in [0, 1, 44, 45, 46, 62, 63] {
        let events = [
            at(0, 1, Happens::Connects),
            at(0, 1, Happens::Sends(b"GO\n")),
            at(5, 1, Happens::Receives(room)),
            at(20, 1, Happens::Receives(AMPLE)),
        ];
        // Up to the moment at which the client makes more room, and to the end.
        for (count, all) in [(3, room), (4, 63)] {
            let network = Network::new(rt.alloc(), events.get(..count).unwrap_or(&[]), false);
            let (served, door) = serve_events(rt.alloc(), network)?;
            assert_eq!(rt; served, all_served(1));
            let took = took_of(rt.alloc(), door.system().entries()?, 1)?;
            assert_eq!(rt; took.len(), all, "with room for {room}");
        }
    }
    Ok(())
}

#[test]
fn makes_interrupted_calls_again(rt: HostRuntime) -> Result<(), Fail> {
    let events = [
        at(0, 1, Happens::Connects),
        at(0, 1, Happens::Receives(AMPLE)),
        at(2, 1, Happens::Sends(b"GO\n")),
        at(4, 1, Happens::Sends(b"GET 1 POWER\n")),
    ];
    let (served, door) = serve_events(rt.alloc(), Network::new(rt.alloc(), &events, true))?;
    assert_eq!(rt; served, all_served(1));
    let lines = "srcp_server 1.0; SRCP 0.8.4; SRCPOTHER 0.8.3\n200 OK GO 1\n100 INFO 1 POWER OFF\n";
    assert_eq!(rt;
        took_lines(rt.alloc(), &door, 1)?.as_slice(),
        lines.as_bytes()
    );
    Ok(())
}

#[test]
fn reads_what_stands_behind_urgent_data(rt: HostRuntime) -> Result<(), Fail> {
    let events = [
        at(0, 1, Happens::Connects),
        at(0, 1, Happens::Receives(AMPLE)),
        at(5, 1, Happens::Sends(b"GO\nGET 1 POWER\n")),
        at(5, 1, Happens::SendsUrgently(b"GET 1 POWER\n")),
    ];
    let (_, door) = serve_events(rt.alloc(), Network::new(rt.alloc(), &events, false))?;
    let lines =
        "srcp_server 1.0; SRCP 0.8.4; SRCPOTHER 0.8.3\n200 OK GO 1\n100 INFO 1 POWER OFF\n100 INFO 1 POWER OFF\n";
    assert_eq!(rt;
        took_lines(rt.alloc(), &door, 1)?.as_slice(),
        lines.as_bytes()
    );
    Ok(())
}

#[test]
fn hands_out_no_input_while_it_makes_up_a_stall(rt: HostRuntime) -> Result<(), Fail> {
    let events = [
        at(0, 1, Happens::Connects),
        at(0, 1, Happens::Receives(AMPLE)),
        at(0, 1, Happens::Sends(b"SET CONNECTIONMODE SRCP INFO\nGO\n")),
        at(0, 2, Happens::Connects),
        at(0, 2, Happens::Receives(AMPLE)),
        at(
            5,
            2,
            Happens::Sends(b"GO\nINIT 1 GA 5 N\nINIT 1 GA 6 N\nSET 1 GA 5 0 1 100\n"),
        ),
        at(50, 0, Happens::StandsStill(400)),
        at(300, 2, Happens::Sends(b"SET 1 GA 6 0 1 200\n")),
    ];
    let (served, door) = serve_events(rt.alloc(), Network::new(rt.alloc(), &events, false))?;
    assert_eq!(rt; served, all_served(2));
    let entries = door.system().entries()?;
    let on = time_of(entries, 1, b" 100 INFO 1 GA 6 0 1\n").unwrap_or(u64::MAX);
    let off = time_of(entries, 1, b" 100 INFO 1 GA 6 0 0\n").unwrap_or(0);
    let lasted = off.saturating_sub(on);
    assert!(rt; (200..210).contains(&lasted), "it is on for {lasted} ms");
    Ok(())
}

#[test]
fn hands_out_as_many_lines_as_panels_take(rt: HostRuntime) -> Result<(), Fail> {
    let mut commands = Vec::new(rt.alloc());
    // Lines of 32 bytes: a share has 8 of them whole. What 96 of them tell a panel is written at once. With a second
    // share for each session, a write would hold the lines of two turns.
    for _ in 0..8 {
        commands.extend_from_slice(b"SET 1 POWER ON 1234567890123456\n")?;
    }
    let mut events = Vec::new(rt.alloc());
    events.push(at(0, 1, Happens::Connects))?;
    events.push(at(0, 1, Happens::Receives(AMPLE)))?;
    events.push(at(0, 1, Happens::Sends(b"SET CONNECTIONMODE SRCP INFO\nGO\n")))?;
    for number in 2..26 {
        events.push(at(20, number, Happens::Connects))?;
        events.push(at(20, number, Happens::Receives(AMPLE)))?;
        events.push(at(20, number, Happens::Sends(b"GO\n")))?;
    }
    for number in 2..26 {
        events.push(at(50, number, Happens::Sends(&commands)))?;
    }
    let (served, door) = serve_events(rt.alloc(), Network::new(rt.alloc(), &events, false))?;
    assert_eq!(rt; served, all_served(25));
    let entries = door.system().entries()?;
    // Three lines of the handshake, and the rows of the panel's session, of POWER and of the sensor. Then a row of
    // each other session, and each change.
    assert_eq!(rt; lines_in(&took_of(rt.alloc(), entries, 1)?), 222);
    assert_eq!(rt; most_lines(entries, 1), 96);
    Ok(())
}

//! A panel with a socket that takes nothing more, over a network in memory.

use crate::network::{Happens, Network, at};
use crate::record::closed_at;
use crate::scene::{AMPLE, serve_turns};
use std::alloc::{AllocError, Global};
use std::test::Fail;
use std::vec::Vec;

/// The number of turns. Those beside a panel that takes nothing wait for the clock, so they last longer than a second.
const TURNS: u64 = 6_000;

/// The number of commands, more than the server carries out before the panel is closed.
const COMMANDS: usize = 1_600;

/// Returns commands that are told a panel in one line each, with as long a text as there may be.
fn texts(alloc: Global) -> Result<Vec<u8>, AllocError> {
    let mut commands = Vec::new(alloc);
    for _ in 0..COMMANDS {
        commands.extend_from_slice(b"SET 1 POWER ON ")?;
        commands.extend_from_slice(&[b'a'; 80])?;
        commands.push(b'\n')?;
    }
    Ok(commands)
}

#[test]
fn closes_a_panel_that_takes_nothing_for_half_a_second(rt: HostRuntime) -> Result<(), Fail> {
    let commands = texts(rt.alloc())?;
    let events = [
        at(0, 1, Happens::Connects),
        at(0, 1, Happens::Receives(AMPLE)),
        at(0, 1, Happens::Sends(b"SET CONNECTIONMODE SRCP INFO\nGO\n")),
        at(20, 2, Happens::Connects),
        at(20, 2, Happens::Receives(AMPLE)),
        at(20, 2, Happens::Sends(b"GO\n")),
        at(90, 1, Happens::Fills),
        at(100, 2, Happens::Sends(&commands)),
    ];
    let network = Network::new(rt.alloc(), &events, false);
    let (_, door) = serve_turns(rt.alloc(), network, TURNS)?;
    // The socket takes nothing, so it stays for 10 seconds once the core closed its peer.
    let closed = closed_at(door.system().entries()?, 1).unwrap_or(0);
    assert!(rt;
        (10_600..11_000).contains(&closed),
        "it is closed at {closed} ms"
    );
    Ok(())
}

//! A scene: a server over a network with events.

use crate::network::Network;
use crate::record::took_of;
use crate::recorder::{Recorder, open};
use srcp_core::LoggedCore;
use srcp_host::serve_sockets;
use srcp_rules::{Bus, Flat, Layout};
use srcp_serve::Served;
use srcp_sockets::SocketDoor;
use std::alloc::{AllocError, Global};
use std::test::Fail;
use std::vec::Vec;

/// The number of turns, more than all events need.
pub(crate) const TURNS: u64 = 2_000;

/// The room made by a reading client, in bytes.
pub(crate) const AMPLE: usize = 100_000;

const BUS: Bus = Bus {
    number: 1,
    power: true,
    gl_max: 0,
    ga_max: 9,
    ga_ports: 2,
    fb_ports: 1,
};

/// Serves a network with these events.
pub(crate) fn serve_events<'a>(
    alloc: Global,
    network: Network<'a>,
) -> Result<(Served, SocketDoor<Recorder<'a>>), Fail> {
    serve_turns(alloc, network, TURNS)
}

/// Serves a network with these events for a number of turns.
pub(crate) fn serve_turns<'a>(
    alloc: Global,
    network: Network<'a>,
    turns: u64,
) -> Result<(Served, SocketDoor<Recorder<'a>>), Fail> {
    let mut layout = Layout::new(alloc);
    layout.add(BUS)?;
    let mut core = LoggedCore::<Flat>::new(alloc, &layout)?;
    let mut door = open(alloc, network)?;
    let served = serve_sockets(&mut core, &mut door, turns);
    Ok((served, door))
}

/// Returns the counts of serving without a failure, if `opened` peers were let in.
pub(crate) fn all_served(opened: u64) -> Served {
    Served {
        turns: TURNS,
        opened,
        faults: 0,
    }
}

/// Returns lines without their stamps. Copies the welcome line whole, since there is no stamp.
fn without_stamps(alloc: Global, lines: &[u8]) -> Result<Vec<u8>, AllocError> {
    let mut rest = Vec::new(alloc);
    for line in lines.split_inclusive(|byte| *byte == b'\n') {
        let stamped = line.first().is_some_and(|byte| byte.is_ascii_digit());
        let space = line.iter().position(|byte| *byte == b' ').unwrap_or(0);
        let start = if stamped { space.saturating_add(1) } else { 0 };
        rest.extend_from_slice(line.get(start..).unwrap_or(&[]))?;
    }
    Ok(rest)
}

/// Returns the lines taken by the socket of a client, without stamps.
pub(crate) fn took_lines(
    alloc: Global,
    door: &SocketDoor<Recorder<'_>>,
    number: u32,
) -> Result<Vec<u8>, AllocError> {
    let took = took_of(alloc, door.system().entries()?, number)?;
    without_stamps(alloc, &took)
}

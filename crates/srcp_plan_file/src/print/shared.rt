//! What two routes share.

ghost use Rattle.std.specs.Prelude.{◌≡◌, ◌++◌, IfOk, OnOk};
ghost use Rattle.std.specs.List.{find};
ghost use Rattle.srcp_routes.specs.Conflicts.{has_piece};
ghost use Rattle.srcp_plan_file.specs.Output.{shared_blocks, shared_devices, shared_piece, shared_signal};
ghost use Rattle.srcp_plan_file.specs.Output.{shared_turnouts, track_at};

use crate::drawing::Piece;
use srcp_routes::{Device, Route, has_block, has_piece, uses};
use std::alloc::{AllocError, Global};
use std::fmt;
use std::vec::Vec;

/// Names what two routes share, by what that is to the first route.
#[derive(Clone, Copy, Debug, PartialEq, Eq)]
pub(super) enum Shared {
    Turnout(Device),
    Signal(Device),
    Block(Device),
    /// A piece of track, by its row and its first column.
    Track(usize, usize),
}

impl fmt::Display for Shared {
    ghost use Rattle.std.specs.Prelude.{Some};
    ghost use Rattle.srcp_plan_file.specs.Output.{shared_text};

    ghost output = { λ x. Some (shared_text x) };

    fn fmt<W: fmt::Write>(&self, f: &mut fmt::Formatter<W>) -> fmt::Result {
        match self {
            Shared::Turnout(device) => write!(f, "turnout {} {}", device.bus, device.address),
            Shared::Signal(device) => write!(f, "signal {} {}", device.bus, device.address),
            Shared::Block(device) => write!(f, "block {} {}", device.bus, device.address),
            Shared::Track(row, column) => write!(f, "track in row {row} column {column}"),
        }
    }
}

/// Returns what two routes share: the turnouts and the signal of the first, as far as the second uses them, the blocks
/// of both, and the first piece of track of both.
pub(super) fn shared_devices(
    alloc: Global,
    drawn: &[Piece],
    route: &Route,
    other: &Route,
) -> Result<Vec<Shared>, AllocError>
    ensures { IfOk result (λ devices. devices.items ≡ shared_devices drawn.now route.now other.now) }
{
    let mut devices = Vec::new(alloc);
    add_turnouts(route, other, &mut devices)?;
    add_signal(route, other, &mut devices)?;
    add_blocks(route, other, &mut devices)?;
    add_piece(drawn, route, other, &mut devices)?;
    Ok(devices)
}

/// Adds the turnouts of a route used by the other.
fn add_turnouts(route: &Route, other: &Route, devices: &mut Vec<Shared>) -> Result<(), AllocError>
    ensures { OnOk result (devices.new.items
        ≡ devices.old.items ++ shared_turnouts other.now route.now.turnouts.items) }
{
    for turnout in &route.turnouts {
        if uses(other, turnout.device) {
            devices.push(Shared::Turnout(turnout.device))?;
        }
    }
    Ok(())
}

/// Adds the signal of a route if the other uses this accessory.
fn add_signal(route: &Route, other: &Route, devices: &mut Vec<Shared>) -> Result<(), AllocError>
    ensures { OnOk result (devices.new.items
        ≡ devices.old.items ++ shared_signal other.now route.now.signal) }
{
    if let Some(signal) = route.signal {
        if uses(other, signal.device) {
            devices.push(Shared::Signal(signal.device))?;
        }
    }
    Ok(())
}

/// Adds the blocks common to both routes.
fn add_blocks(route: &Route, other: &Route, devices: &mut Vec<Shared>) -> Result<(), AllocError>
    ensures { OnOk result (devices.new.items
        ≡ devices.old.items ++ shared_blocks other.now route.now.blocks.items) }
{
    for block in &route.blocks {
        if has_block(other, *block) {
            devices.push(Shared::Block(*block))?;
        }
    }
    Ok(())
}

/// Returns where a piece of track is drawn.
fn track_at(drawn: &[Piece], n: usize) -> Shared
    ensures { result ≡ track_at drawn.now n }
{
    match drawn.get(n) {
        Some(piece) => Shared::Track(piece.row, piece.left),
        None => Shared::Track(0, 0),
    }
}

/// Returns the first piece of track of a route that is one of the other.
fn first_shared(route: &Route, other: &Route) -> Option<usize>
    ensures { result ≡ find (λ n. has_piece other.now n) route.now.pieces.items }
{
    for piece in &route.pieces {
        if has_piece(other, *piece) {
            return Some(*piece);
        }
    }
    None
}

/// Adds the first piece of track common to both routes.
fn add_piece(
    drawn: &[Piece],
    route: &Route,
    other: &Route,
    devices: &mut Vec<Shared>,
) -> Result<(), AllocError>
    ensures { OnOk result (devices.new.items
        ≡ devices.old.items ++ shared_piece drawn.now other.now route.now.pieces.items) }
{
    if let Some(n) = first_shared(route, other) {
        devices.push(track_at(drawn, n))?;
    }
    Ok(())
}

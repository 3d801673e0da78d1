//! The sensors of a route that names its ends alone: those behind the signal of the route.

ghost use Rattle.std.specs.Prelude.{◌≡◌, ◌++◌, IfOk, OnOk};
ghost use Rattle.srcp_plan_file.specs.Behind.{behind, found_blocks, found_sections, is_at, past_turnouts, sensor_here};
ghost use Rattle.srcp_plan_file.specs.Behind.{sensors_on};

use crate::device::is_sensor;
use crate::element::Kind;
use crate::way::kind_at;
use srcp_routes::{Device, Signal, is_same};
use std::alloc::{AllocError, Global};
use std::vec::Vec;

/// Returns whether a piece is this signal.
fn is_at(kind: Kind, signal: Device) -> bool
    ensures { result ≡ is_at kind signal }
{
    match kind {
        Kind::Signal(device) => is_same(device, signal),
        _ => false,
    }
}

/// Returns the pieces behind a signal. There are none if the signal is not among these.
fn behind<'a>(kinds: &[Kind], signal: Device, pieces: &'a [usize]) -> &'a [usize]
    ensures { result.now ≡ behind kinds.now signal pieces.now }
{
    for n in 0..pieces.len() {
        if is_at(kind_at(kinds, pieces[n]), signal) {
            return &pieces[n + 1..];
        }
    }
    &[]
}

/// Adds the sensor of a piece, if there is one on another bus than the routes' own.
fn add_sensor(own: u8, kind: Kind, sensors: &mut Vec<Device>) -> Result<(), AllocError>
    ensures { OnOk result (sensors.new.items ≡ sensors.old.items ++ sensor_here own kind) }
{
    match kind {
        Kind::Sensor(device) if is_sensor(own, device) => {
            sensors.push(device)?;
            Ok(())
        }
        _ => Ok(()),
    }
}

/// Returns the sensors of these pieces.
fn sensors_on(
    alloc: Global,
    own: u8,
    kinds: &[Kind],
    pieces: &[usize],
) -> Result<Vec<Device>, AllocError>
    ensures { IfOk result (λ sensors. sensors.items ≡ sensors_on own kinds.now pieces.now) }
{
    let mut sensors = Vec::new(alloc);
    for n in pieces {
        add_sensor(own, kind_at(kinds, *n), &mut sensors)?;
    }
    Ok(sensors)
}

/// Returns the pieces behind the last turnout of these.
fn past_turnouts<'a>(kinds: &[Kind], pieces: &'a [usize]) -> &'a [usize]
    ensures { result.now ≡ past_turnouts kinds.now pieces.now }
{
    let mut past = pieces;
    for n in 0..pieces.len() {
        if let Kind::Turnout(_, _) = kind_at(kinds, pieces[n]) {
            past = &pieces[n + 1..];
        }
    }
    past
}

/// Returns the sensors of a way behind the signal, which are the blocks of the route.
pub(crate) fn found_blocks(
    alloc: Global,
    own: u8,
    kinds: &[Kind],
    signal: Option<Signal>,
    pieces: &[usize],
) -> Result<Vec<Device>, AllocError>
    ensures { IfOk result (λ sensors. sensors.items ≡ found_blocks own kinds.now signal pieces.now) }
{
    match signal {
        Some(signal) => sensors_on(alloc, own, kinds, behind(kinds, signal.device, pieces)),
        None => Ok(Vec::new(alloc)),
    }
}

/// Returns the same sensors, which are the sections of the route if the last two of them lie behind all turnouts.
pub(crate) fn found_sections(
    alloc: Global,
    own: u8,
    kinds: &[Kind],
    signal: Option<Signal>,
    pieces: &[usize],
) -> Result<Vec<Device>, AllocError>
    ensures { IfOk result (λ sensors. sensors.items ≡ found_sections own kinds.now signal pieces.now) }
{
    let last = sensors_on(alloc, own, kinds, past_turnouts(kinds, pieces))?;
    if last.len() < 2 {
        return Ok(Vec::new(alloc));
    }
    found_blocks(alloc, own, kinds, signal, pieces)
}

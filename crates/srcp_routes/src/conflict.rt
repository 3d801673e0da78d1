//! Which routes conflict, and which sensors are free.

ghost use Rattle.std.specs.Prelude.{◌≡◌, ◌++◌, IfOk, OnOk, map};
ghost use Rattle.srcp_routes.specs.Conflicts.{is_same, has_accessory, is_signal, uses, has_block, has_piece};
ghost use Rattle.srcp_routes.specs.Conflicts.{signal_meets, turnouts_meet, blocks_meet, pieces_meet, meets, conflicts};
ghost use Rattle.srcp_routes.specs.Conflicts.{is_free, are_free, is_occupied, told_sensor, unknown, route_sensors};
ghost use Rattle.srcp_routes.specs.Conflicts.{sensors_of};

use crate::{Device, Occupancy, Route, Setting};
use std::alloc::{AllocError, Global};
use std::vec::Vec;

/// Says what is known of one sensor.
#[derive(Clone, Copy, Debug, PartialEq, Eq)]
pub(crate) struct Sensed {
    /// The sensor.
    pub(crate) sensor: Device,
    /// What the sensor was last told to be.
    pub(crate) occupancy: Occupancy,
}

/// Returns whether two devices are the same.
pub fn is_same(a: Device, b: Device) -> bool
    ensures { result ≡ is_same a b }
{
    a.bus == b.bus && a.address == b.address
}

/// Returns whether this accessory is one of the turnouts.
pub fn has_accessory(turnouts: &[Setting], device: Device) -> bool
    ensures { result ≡ has_accessory turnouts.now device }
{
    turnouts
        .iter()
        .any(|turnout| is_same(turnout.device, device))
}

/// Returns whether a route has this accessory as its signal.
fn is_signal(route: &Route, device: Device) -> bool
    ensures { result ≡ is_signal route.now device }
{
    match route.signal {
        Some(signal) => is_same(signal.device, device),
        None => false,
    }
}

/// Returns whether a route has this accessory as its signal or as a turnout.
pub fn uses(route: &Route, device: Device) -> bool
    ensures { result ≡ uses route.now device }
{
    is_signal(route, device) || has_accessory(&route.turnouts, device)
}

/// Returns whether a route has a block at this sensor.
pub fn has_block(route: &Route, sensor: Device) -> bool
    ensures { result ≡ has_block route.now sensor }
{
    route.blocks.iter().any(|block| is_same(*block, sensor))
}

/// Returns whether this piece of track is one of a route.
pub fn has_piece(route: &Route, piece: usize) -> bool
    ensures { result ≡ has_piece route.now piece }
{
    route.pieces.iter().any(|own| *own == piece)
}

/// Returns whether the signal of one route is an accessory of the other.
fn signal_meets(route: &Route, other: &Route) -> bool
    ensures { result ≡ signal_meets route.now other.now }
{
    match route.signal {
        Some(signal) => uses(other, signal.device),
        None => false,
    }
}

/// Returns whether a turnout of one route is an accessory of the other.
fn turnouts_meet(route: &Route, other: &Route) -> bool
    ensures { result ≡ turnouts_meet route.now other.now }
{
    route
        .turnouts
        .iter()
        .any(|turnout| uses(other, turnout.device))
}

/// Returns whether the routes share a block.
fn blocks_meet(route: &Route, other: &Route) -> bool
    ensures { result ≡ blocks_meet route.now other.now }
{
    route.blocks.iter().any(|block| has_block(other, *block))
}

/// Returns whether the routes share a piece of track.
fn pieces_meet(route: &Route, other: &Route) -> bool
    ensures { result ≡ pieces_meet route.now other.now }
{
    route.pieces.iter().any(|piece| has_piece(other, *piece))
}

/// Returns whether the signal, a turnout, a block or a piece of track of one route belongs to the other too.
fn meets(route: &Route, other: &Route) -> bool
    ensures { result ≡ meets route.now other.now }
{
    signal_meets(route, other)
        || turnouts_meet(route, other)
        || blocks_meet(route, other)
        || pieces_meet(route, other)
}

/// Returns whether two routes share a turnout, a signal, a block or a piece of track.
pub(crate) fn conflicts(route: &Route, other: &Route) -> bool
    ensures { result ≡ conflicts route.now other.now }
{
    meets(route, other) || meets(other, route)
}

/// Returns whether a sensor is free.
pub(crate) fn is_free(sensors: &[Sensed], sensor: Device) -> bool
    ensures { result ≡ is_free sensors.now sensor }
{
    sensors.iter().any(|known| known.occupancy.is_free() && is_same(known.sensor, sensor))
}

/// Returns whether a sensor is occupied.
pub(crate) fn is_occupied(sensors: &[Sensed], sensor: Device) -> bool
    ensures { result ≡ is_occupied sensors.now sensor }
{
    sensors.iter().any(|known| known.occupancy.is_occupied() && is_same(known.sensor, sensor))
}

/// Returns whether all these blocks are free.
pub(crate) fn are_free(sensors: &[Sensed], blocks: &[Device]) -> bool
    ensures { result ≡ are_free sensors.now blocks.now }
{
    blocks.iter().all(|block| is_free(sensors, *block))
}

/// Returns what is known of a sensor after something was told of `sensor`.
fn told(known: Sensed, sensor: Device, occupancy: Occupancy) -> Sensed
    ensures { result ≡ told_sensor sensor occupancy known }
{
    if is_same(known.sensor, sensor) {
        Sensed {
            sensor: known.sensor,
            occupancy,
        }
    } else {
        known
    }
}

/// Takes in what was told of a sensor.
pub(crate) fn sense(sensors: &mut [Sensed], sensor: Device, occupancy: Occupancy)
    ensures { sensors.new ≡ map (told_sensor sensor occupancy) sensors.old }
{
    for known in sensors.iter_mut() {
        *known = told(*known, sensor, occupancy);
    }
}

/// Returns a sensor of which nothing was told.
fn unknown(sensor: Device) -> Sensed
    ensures { result ≡ unknown sensor }
{
    Sensed {
        sensor,
        occupancy: Occupancy::Unknown,
    }
}

/// Adds sensors of which nothing was told.
fn add_all(sensors: &mut Vec<Sensed>, devices: &[Device]) -> Result<(), AllocError>
    ensures { OnOk result (sensors.new.items ≡ sensors.old.items ++ map unknown devices.now) }
{
    for device in devices {
        sensors.push(unknown(*device))?;
    }
    Ok(())
}

/// Adds the sensors of a route.
fn add_sensors(sensors: &mut Vec<Sensed>, route: &Route) -> Result<(), AllocError>
    ensures { OnOk result (sensors.new.items ≡ sensors.old.items ++ route_sensors route.now) }
{
    add_all(sensors, &route.approach)?;
    add_all(sensors, &route.blocks)?;
    if let Some(sensor) = route.frees {
        sensors.push(unknown(sensor))?;
    }
    add_all(sensors, &route.sections)
}

/// Returns the sensors of all routes.
pub(crate) fn sensors_of(alloc: Global, routes: &[Route]) -> Result<Vec<Sensed>, AllocError>
    ensures { IfOk result (λ sensors. sensors.items ≡ sensors_of routes.now) }
{
    let mut sensors = Vec::new(alloc);
    for route in routes {
        add_sensors(&mut sensors, route)?;
    }
    Ok(sensors)
}

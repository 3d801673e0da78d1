//! A route of a plan.

ghost use Rattle.std.specs.Prelude.{◌≡◌, [], map, option_map};
ghost use Rattle.toml.specs.View.{table_view, view as data_of};
ghost use Rattle.srcp_layout_file.specs.Gives.{Gives, Shows};
ghost use Rattle.srcp_plan_file.specs.Document.{array_if, delay_at, frees_at, new_signal, new_turnout, pieces_at};
ghost use Rattle.srcp_plan_file.specs.Document.{route_numbered, sensor_in, sensors_at, sensors_in, signal_at};
ghost use Rattle.srcp_plan_file.specs.Document.{drawn_turnout, drawn_turnouts, found_turnouts};
ghost use Rattle.srcp_plan_file.specs.Document.{given_or_found, only_way};
ghost use Rattle.srcp_plan_file.specs.Document.{signal_in, turnout_in, turnouts_at, turnouts_in};
ghost use Rattle.srcp_plan_file.specs.Plan.{drawn, planned_route};
ghost use Rattle.srcp_plan_file.specs.Searches.{walked};

use crate::behind::{found_blocks, found_sections};
use crate::device::{is_turnout, sensor_of, signal_of, turnout_of};
use crate::plan::{Field, PlanFault};
use crate::search::Walk;
use crate::tracks::{Tracks, text_at};
use srcp_layout_file::member::{array_in, ranged, value_at};
use srcp_routes::{Device, Route, Setting, Signal, has_accessory};
use std::alloc::Global;
use std::vec::Vec;
use toml::{Table, Value};

/// For how many seconds a route keeps its locks at most: ten minutes.
const LONGEST_DELAY: u32 = 600;

/// For how many seconds a route keeps its locks if the plan does not say.
const DEFAULT_DELAY: u32 = 30;

/// Reads the keys of the route of this number.
pub(super) fn route_numbered(
    alloc: Global,
    own: u8,
    number: u32,
    tracks: &Tracks,
    members: &Table,
) -> Result<Route, PlanFault>
    ensures { Gives planned_route PlanFault.Memory result
        (route_numbered own number (drawn tracks.now) (table_view members.now)) }
{
    let turnouts = turnouts_at(alloc, own, number, tracks, members)?;
    let blocks = sensors_at(alloc, own, number, Field::Blocks, members)?;
    let signal = signal_at(own, number, &turnouts, members)?;
    let frees = frees_at(own, number, members)?;
    let sections = sensors_at(alloc, own, number, Field::Sections, members)?;
    let approach = sensors_at(alloc, own, number, Field::Approach, members)?;
    let delay = delay_at(number, members)?;
    let pieces = pieces_at(alloc, number, tracks, &turnouts, members)?;
    let found = found_blocks(alloc, own, &tracks.kinds, signal, &pieces)?;
    let blocks = given_or_found(members, Field::Blocks, blocks, found);
    let found = found_sections(alloc, own, &tracks.kinds, signal, &pieces)?;
    let sections = given_or_found(members, Field::Sections, sections, found);
    Ok(Route {
        number,
        turnouts,
        blocks,
        signal,
        frees,
        sections,
        approach,
        delay,
        pieces,
    })
}

/// Returns the values of the array at a key of a route, or no values if there is no such key.
fn array_if(number: u32, members: &Table, field: Field) -> Result<&[Value], PlanFault>
    ensures { Shows (λ values. map data_of values.now) result
        (array_if number field (table_view members.now)) }
{
    match value_at(members, field) {
        Some(value) => array_in(value, PlanFault::Beyond(number, field)),
        None => Ok(&[]),
    }
}

/// Reads turnouts from left to right.
fn turnouts_in(
    alloc: Global,
    own: u8,
    number: u32,
    values: &[Value],
) -> Result<Vec<Setting>, PlanFault>
    ensures { Gives (λ turnouts. turnouts.items) PlanFault.Memory result
        (turnouts_in own number [] (map data_of values.now)) }
{
    let mut turnouts = Vec::new(alloc);
    for value in values {
        let turnout = turnout_in(own, number, &turnouts, value)?;
        turnouts.push(turnout)?;
    }
    Ok(turnouts)
}

/// Reads a turnout beside the earlier turnouts of the route.
fn turnout_in(own: u8, number: u32, before: &[Setting], value: &Value) -> Result<Setting, PlanFault>
    ensures { result ≡ turnout_in own number before.now (data_of value.now) }
{
    let beyond = PlanFault::Beyond(number, Field::Turnouts);
    let turnout = turnout_of(own, array_in(value, beyond)?, beyond)?;
    new_turnout(number, before, turnout)
}

/// Returns a turnout. Returns `Repeated` if the route named the accessory before.
fn new_turnout(number: u32, before: &[Setting], turnout: Setting) -> Result<Setting, PlanFault>
    ensures { result ≡ new_turnout number before.now turnout }
{
    if has_accessory(before, turnout.device) {
        Err(PlanFault::Repeated(number))
    } else {
        Ok(turnout)
    }
}

/// Returns a turnout of the drawing. Returns a fault if the turnout is on the routes' own bus.
fn drawn_turnout(
    own: u8,
    number: u32,
    before: &[Setting],
    turnout: Setting,
) -> Result<Setting, PlanFault>
    ensures { result ≡ drawn_turnout own number before.now turnout }
{
    if is_turnout(own, turnout) {
        new_turnout(number, before, turnout)
    } else {
        Err(PlanFault::Beyond(number, Field::Turnouts))
    }
}

/// Returns turnouts of the drawing from the first to the last.
fn drawn_turnouts(
    alloc: Global,
    own: u8,
    number: u32,
    found: &[Setting],
) -> Result<Vec<Setting>, PlanFault>
    ensures { Gives (λ turnouts. turnouts.items) PlanFault.Memory result (drawn_turnouts own number [] found.now) }
{
    let mut turnouts = Vec::new(alloc);
    for each in found {
        let turnout = drawn_turnout(own, number, &turnouts, *each)?;
        turnouts.push(turnout)?;
    }
    Ok(turnouts)
}

/// Returns the turnouts of the only way.
fn only_way<'a>(number: u32, ways: &'a [Walk]) -> Result<&'a [Setting], PlanFault>
    ensures { Shows (λ turnouts. turnouts.now) result (only_way number (map walked ways.now)) }
{
    match ways {
        [] => Err(PlanFault::NoTrack(number)),
        [way] => Ok(&way.turnouts),
        _ => Err(PlanFault::Several(number)),
    }
}

/// Finds the turnouts of the only way of the drawing from one end of a route to the other.
fn found_turnouts(
    alloc: Global,
    own: u8,
    number: u32,
    tracks: &Tracks,
    members: &Table,
) -> Result<Vec<Setting>, PlanFault>
    ensures { Gives (λ turnouts. turnouts.items) PlanFault.Memory result
        (found_turnouts own number (drawn tracks.now) (table_view members.now)) }
{
    if tracks.pieces.is_empty() {
        return Ok(Vec::new(alloc));
    }
    match (text_at(members, Field::From), text_at(members, Field::To)) {
        (Some(from), Some(to)) => {
            let ways = tracks.ways_named(alloc, from, to)?;
            drawn_turnouts(alloc, own, number, only_way(number, &ways)?)
        }
        _ => Ok(Vec::new(alloc)),
    }
}

/// Reads the turnouts of a route, or finds them in the drawing if the route names its ends alone.
fn turnouts_at(
    alloc: Global,
    own: u8,
    number: u32,
    tracks: &Tracks,
    members: &Table,
) -> Result<Vec<Setting>, PlanFault>
    ensures { Gives (λ turnouts. turnouts.items) PlanFault.Memory result
        (turnouts_at own number (drawn tracks.now) (table_view members.now)) }
{
    match value_at(members, Field::Turnouts) {
        Some(value) => {
            let values = array_in(value, PlanFault::Beyond(number, Field::Turnouts))?;
            turnouts_in(alloc, own, number, values)
        }
        None => found_turnouts(alloc, own, number, tracks, members),
    }
}

/// Reads a sensor of this key.
fn sensor_in(own: u8, number: u32, field: Field, value: &Value) -> Result<Device, PlanFault>
    ensures { result ≡ sensor_in own number field (data_of value.now) }
{
    let beyond = PlanFault::Beyond(number, field);
    sensor_of(own, array_in(value, beyond)?, beyond)
}

/// Reads the sensors at a key, or none if there is no such key.
fn sensors_at(
    alloc: Global,
    own: u8,
    number: u32,
    field: Field,
    members: &Table,
) -> Result<Vec<Device>, PlanFault>
    ensures { Gives (λ sensors. sensors.items) PlanFault.Memory result
        (sensors_at own number field (table_view members.now)) }
{
    sensors_in(alloc, own, number, field, array_if(number, members, field)?)
}

/// Reads sensors from left to right.
fn sensors_in(
    alloc: Global,
    own: u8,
    number: u32,
    field: Field,
    values: &[Value],
) -> Result<Vec<Device>, PlanFault>
    ensures { Gives (λ sensors. sensors.items) PlanFault.Memory result
        (sensors_in own number field [] (map data_of values.now)) }
{
    let mut sensors = Vec::new(alloc);
    for value in values {
        let sensor = sensor_in(own, number, field, value)?;
        sensors.push(sensor)?;
    }
    Ok(sensors)
}

/// Returns the sensors that are given at a key of a route, or those that are found, if the route names its ends alone.
fn given_or_found(
    members: &Table,
    field: Field,
    given: Vec<Device>,
    found: Vec<Device>,
) -> Vec<Device>
    ensures { result.items ≡ given_or_found field (table_view members.now) given.items found.items }
{
    if value_at(members, Field::Turnouts).is_some() || value_at(members, field).is_some() {
        given
    } else {
        found
    }
}

/// Reads the signal of a route, if there is one.
fn signal_at(
    own: u8,
    number: u32,
    turnouts: &[Setting],
    members: &Table,
) -> Result<Option<Signal>, PlanFault>
    ensures { result ≡ signal_at own number turnouts.now (table_view members.now) }
{
    match value_at(members, Field::Signal) {
        Some(value) => signal_in(own, number, turnouts, value),
        None => Ok(None),
    }
}

/// Reads a signal beside the turnouts of the route.
fn signal_in(
    own: u8,
    number: u32,
    turnouts: &[Setting],
    value: &Value,
) -> Result<Option<Signal>, PlanFault>
    ensures { result ≡ signal_in own number turnouts.now (data_of value.now) }
{
    let beyond = PlanFault::Beyond(number, Field::Signal);
    let signal = signal_of(own, array_in(value, beyond)?, beyond)?;
    new_signal(number, turnouts, signal)
}

/// Returns a signal. Returns `Repeated` if the accessory is among the turnouts.
fn new_signal(
    number: u32,
    turnouts: &[Setting],
    signal: Signal,
) -> Result<Option<Signal>, PlanFault>
    ensures { result ≡ new_signal number turnouts.now signal }
{
    if has_accessory(turnouts, signal.device) {
        Err(PlanFault::Repeated(number))
    } else {
        Ok(Some(signal))
    }
}

/// Reads the sensor by which a route is freed, if there is one.
fn frees_at(own: u8, number: u32, members: &Table) -> Result<Option<Device>, PlanFault>
    ensures { result ≡ frees_at own number (table_view members.now) }
{
    match value_at(members, Field::Frees) {
        Some(value) => Ok(Some(sensor_in(own, number, Field::Frees, value)?)),
        None => Ok(None),
    }
}

/// Reads for how many seconds a route keeps its locks.
fn delay_at(number: u32, members: &Table) -> Result<u32, PlanFault>
    ensures { result ≡ delay_at number (table_view members.now) }
{
    match value_at(members, Field::Delay) {
        Some(value) => ranged(
            value,
            1,
            LONGEST_DELAY,
            PlanFault::Beyond(number, Field::Delay),
        ),
        None => Ok(DEFAULT_DELAY),
    }
}

/// Returns the pieces of track of a route's way. A route has none if nothing is drawn, or if the route names no ends.
fn pieces_at(
    alloc: Global,
    number: u32,
    tracks: &Tracks,
    turnouts: &[Setting],
    members: &Table,
) -> Result<Vec<usize>, PlanFault>
    ensures { Gives (λ pieces. pieces.items) PlanFault.Memory result
        (pieces_at (drawn tracks.now) number turnouts.now (table_view members.now)) }
{
    if tracks.pieces.is_empty() {
        return Ok(Vec::new(alloc));
    }
    match (text_at(members, Field::From), text_at(members, Field::To)) {
        (Some(from), Some(to)) => match tracks.way_between(alloc, turnouts, from, to)? {
            Some(pieces) => Ok(pieces),
            None => Err(PlanFault::NoWay(number)),
        },
        _ => Ok(Vec::new(alloc)),
    }
}

//! A plan, read from a TOML document.

ghost use Rattle.std.specs.Prelude.{◌≡◌, [], map, IfOk};
ghost use Rattle.std.specs.List.{list_any};
ghost use Rattle.toml.specs.View.{table_view, view as data_of};
ghost use Rattle.srcp_layout_file.specs.Gives.{Gives};
ghost use Rattle.srcp_plan_file.specs.Plan.{IsPlan, drawn, planned, planned_route};
ghost use Rattle.srcp_plan_file.specs.Document.{is_numbered, new_number, plan_in, plan_of};
ghost use Rattle.srcp_plan_file.specs.Document.{route_in, route_of, routes_in};

mod apart;
mod route;

use crate::keys::{PLAN_KEYS, ROUTE_KEYS, only_known};
use crate::plan::{Field, Plan, PlanFault};
use crate::tracks::{Tracks, read_tracks};
use apart::stand_apart;
use route::route_numbered;
use srcp_info::{GREATEST_BUS, GREATEST_GA};
use srcp_layout_file::member::{array_at, number_at, read_members};
use srcp_routes::Route;
use std::alloc::Global;
use std::vec::Vec;
use toml::{Table, Value};

/// Reads a plan: a TOML document with the routes' own bus, the routes, and the drawing. Ignores what the page alone
/// reads.
///
/// # Errors
/// Returns the first fault, in this order: the document (`NotToml`), a key that is none of a plan (`Unknown`), the bus,
/// the routes. Then route by route, in the order of the document: the route's number, whether an earlier route has this
/// number (`Twice`), and a key that is none of a route (`UnknownIn`). The turnouts follow from left to right, and
/// whether the route named a turnout before (`Repeated`). Then come the blocks, the signal, the sensor by which the
/// route is freed, the sections, the approach, the delay, and the way of the route over the drawing (`NoWay`). At last
/// the route is compared with each earlier route (`Mixed`, `Crossed`). Returns `Memory` if memory is refused.
pub fn read_plan(alloc: Global, bytes: &[u8]) -> Result<Plan, PlanFault>
    ensures reads { Gives planned PlanFault.Memory result (plan_of bytes.now) }
    ensures whole { IfOk result (λ plan. IsPlan (planned plan)) }
{
    let members = read_members(alloc, bytes, PlanFault::NotToml, PlanFault::Memory)?;
    read_document(alloc, &members)
}

/// Reads a document.
fn read_document(alloc: Global, members: &Table) -> Result<Plan, PlanFault>
    ensures { Gives planned PlanFault.Memory result (plan_in (table_view members.now)) }
{
    only_known(&PLAN_KEYS, PlanFault::Unknown, members)?;
    let bus = number_at(members, Field::Bus, 1, u32::from(GREATEST_BUS))? as u8;
    let tracks = read_tracks(alloc, members)?;
    let routes = read_routes(alloc, bus, &tracks, array_at(members, Field::Route)?)?;
    Ok(Plan {
        bus,
        tracks,
        routes,
    })
}

/// Reads the routes, in the order of the document.
fn read_routes(
    alloc: Global,
    own: u8,
    tracks: &Tracks,
    values: &[Value],
) -> Result<Vec<Route>, PlanFault>
    ensures { Gives (λ routes. map planned_route routes.items) PlanFault.Memory result
        (routes_in own (drawn tracks.now) [] (map data_of values.now)) }
{
    let mut routes = Vec::new(alloc);
    for value in values {
        let route = route_in(alloc, own, tracks, &routes, value)?;
        routes.push(route)?;
    }
    Ok(routes)
}

/// Reads a route beside the earlier routes.
fn route_in(
    alloc: Global,
    own: u8,
    tracks: &Tracks,
    before: &[Route],
    value: &Value,
) -> Result<Route, PlanFault>
    ensures { Gives planned_route PlanFault.Memory result
        (route_in own (drawn tracks.now) (map planned_route before.now) (data_of value.now)) }
{
    match value.as_table() {
        Some(members) => route_of(alloc, own, tracks, before, members),
        None => Err(PlanFault::OutOfRange(Field::Route)),
    }
}

/// Reads the number and the keys of a route, and compares the route with the earlier routes.
fn route_of(
    alloc: Global,
    own: u8,
    tracks: &Tracks,
    before: &[Route],
    members: &Table,
) -> Result<Route, PlanFault>
    ensures { Gives planned_route PlanFault.Memory result
        (route_of own (drawn tracks.now) (map planned_route before.now) (table_view members.now)) }
{
    let number = new_number(before, number_at(members, Field::Number, 1, GREATEST_GA)?)?;
    only_known(&ROUTE_KEYS, PlanFault::UnknownIn(number), members)?;
    let route = route_numbered(alloc, own, number, tracks, members)?;
    stand_apart(before, &route)?;
    Ok(route)
}

/// Returns the number. Returns `Twice` if an earlier route has this number.
fn new_number(before: &[Route], number: u32) -> Result<u32, PlanFault>
    ensures { result ≡ new_number (map planned_route before.now) number }
{
    if is_taken(before, number) {
        Err(PlanFault::Twice(number))
    } else {
        Ok(number)
    }
}

/// Returns whether a route has this number.
fn is_taken(before: &[Route], number: u32) -> bool
    ensures { result ≡ list_any (λ route. is_numbered number (planned_route route)) before.now }
{
    before.iter().any(|route| route.number == number)
}

//! A plan, printed: the routes, and which of them conflict.

ghost use Rattle.std.specs.Prelude.{◌≡◌, ◌++◌, OnOk, IfOk, string_bytes};
ghost use Rattle.std.specs.List.{flat_map};
ghost use Rattle.srcp_plan_file.specs.Output.{bus_line, conflict_line, conflict_lines, line_of, more, printed};
ghost use Rattle.srcp_plan_file.specs.Output.{route_line};

mod route;
mod shared;

use crate::drawing::Piece;
use crate::plan::Plan;
use route::print_route;
use shared::{Shared, shared_devices};
use srcp_routes::Route;
use std::alloc::{AllocError, Global};
use std::vec::Vec;

/// Returns the locking table of a plan: the routes' own bus, and the number of each route with the elements on its way.
/// Then comes a line for each two conflicting routes. The line says by which turnouts, signal, blocks and piece of
/// track of the first the two conflict.
///
/// # Errors
/// Fails if memory is refused.
pub fn print_plan(alloc: Global, plan: &Plan) -> Result<Vec<u8>, AllocError>
    ensures { IfOk result (λ text. text.items ≡ printed plan.now) }
{
    let mut text = Vec::new(alloc);
    print_bus(alloc, plan.bus, &mut text)?;
    let (drawing, drawn) = (&plan.tracks.text, &plan.tracks.pieces);
    print_routes(alloc, drawing, drawn, &plan.routes, &mut text)?;
    print_conflicts(alloc, drawn, &plan.routes, &mut text)?;
    Ok(text)
}

fn print_bus(alloc: Global, bus: u8, text: &mut Vec<u8>) -> Result<(), AllocError>
    ensures { OnOk result (text.new.items ≡ text.old.items ++ bus_line bus) }
{
    let line = format!(in alloc; "bus {bus}\n")?;
    text.extend_from_slice(line.as_bytes())
}

fn print_routes(
    alloc: Global,
    drawing: &[u8],
    drawn: &[Piece],
    routes: &[Route],
    text: &mut Vec<u8>,
) -> Result<(), AllocError>
    ensures { OnOk result (text.new.items ≡ text.old.items ++ flat_map (route_line drawing.now drawn.now) routes.now) }
{
    for route in routes {
        print_route(alloc, drawing, drawn, route, text)?;
    }
    Ok(())
}

/// Prints a line for each two conflicting routes.
fn print_conflicts(
    alloc: Global,
    drawn: &[Piece],
    routes: &[Route],
    text: &mut Vec<u8>,
) -> Result<(), AllocError>
    ensures { OnOk result (text.new.items ≡ text.old.items ++ conflict_lines drawn.now routes.now) }
{
    for n in 0..routes.len() {
        print_conflicts_of(alloc, drawn, &routes[n], &routes[n + 1..], text)?;
    }
    Ok(())
}

/// Prints a line for each of the others with which a route conflicts.
fn print_conflicts_of(
    alloc: Global,
    drawn: &[Piece],
    route: &Route,
    others: &[Route],
    text: &mut Vec<u8>,
) -> Result<(), AllocError>
    ensures { OnOk result (text.new.items ≡ text.old.items ++ flat_map (conflict_line drawn.now route.now) others.now) }
{
    for other in others {
        print_conflict(alloc, drawn, route, other, text)?;
    }
    Ok(())
}

/// Prints by what two routes conflict, if they do.
fn print_conflict(
    alloc: Global,
    drawn: &[Piece],
    route: &Route,
    other: &Route,
    text: &mut Vec<u8>,
) -> Result<(), AllocError>
    ensures { OnOk result (text.new.items ≡ text.old.items ++ conflict_line drawn.now route.now other.now) }
{
    let devices = shared_devices(alloc, drawn, route, other)?;
    print_shared(alloc, route.number, other.number, &devices, text)
}

/// Prints what two routes share, if they share anything.
fn print_shared(
    alloc: Global,
    number: u32,
    other: u32,
    devices: &[Shared],
    text: &mut Vec<u8>,
) -> Result<(), AllocError>
    ensures { OnOk result (text.new.items ≡ text.old.items ++ line_of number other devices.now) }
{
    match devices.split_first() {
        Some((first, others)) => {
            let front = format!(in alloc; "route {number} conflicts with route {other}: {first}")?;
            text.extend_from_slice(front.as_bytes())?;
            print_more(alloc, others, text)?;
            text.push(b'\n')?;
            Ok(())
        }
        None => Ok(()),
    }
}

/// Prints each of these behind a comma.
fn print_more(alloc: Global, devices: &[Shared], text: &mut Vec<u8>) -> Result<(), AllocError>
    ensures { OnOk result (text.new.items ≡ text.old.items ++ flat_map more devices.now) }
{
    for device in devices {
        print_one_more(alloc, *device, text)?;
    }
    Ok(())
}

fn print_one_more(alloc: Global, device: Shared, text: &mut Vec<u8>) -> Result<(), AllocError>
    ensures { OnOk result (text.new.items ≡ text.old.items ++ more device) }
{
    let words = format!(in alloc; ", {device}")?;
    text.extend_from_slice(words.as_bytes())
}

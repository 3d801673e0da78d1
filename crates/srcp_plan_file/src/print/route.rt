//! The line of a route: its number, and the elements on its way.

ghost use Rattle.std.specs.Prelude.{◌≡◌, ◌++◌, OnOk};
ghost use Rattle.std.specs.List.{flat_map};
ghost use Rattle.srcp_plan_file.specs.Output.{name_text, passed_text, route_line, way_text};

use crate::drawing::{Piece, name_of};
use srcp_routes::Route;
use std::alloc::{AllocError, Global};
use std::vec::Vec;

/// Prints the line of a route.
pub(super) fn print_route(
    alloc: Global,
    drawing: &[u8],
    drawn: &[Piece],
    route: &Route,
    text: &mut Vec<u8>,
) -> Result<(), AllocError>
    ensures { OnOk result (text.new.items ≡ text.old.items ++ route_line drawing.now drawn.now route.now) }
{
    let number = route.number;
    let front = format!(in alloc; "route {number}")?;
    text.extend_from_slice(front.as_bytes())?;
    print_way(drawing, drawn, &route.pieces, text)?;
    text.push(b'\n')?;
    Ok(())
}

/// Prints the elements on a way, if there is one.
fn print_way(
    drawing: &[u8],
    drawn: &[Piece],
    pieces: &[usize],
    text: &mut Vec<u8>,
) -> Result<(), AllocError>
    ensures { OnOk result (text.new.items ≡ text.old.items ++ way_text drawing.now drawn.now pieces.now) }
{
    if pieces.is_empty() {
        return Ok(());
    }
    text.extend_from_slice(b" over")?;
    for n in pieces {
        print_passed(drawing, drawn, *n, text)?;
    }
    Ok(())
}

/// Prints the name of the piece at a place, if that is an element.
fn print_passed(
    drawing: &[u8],
    drawn: &[Piece],
    n: usize,
    text: &mut Vec<u8>,
) -> Result<(), AllocError>
    ensures { OnOk result (text.new.items ≡ text.old.items ++ passed_text drawing.now drawn.now n) }
{
    match drawn.get(n) {
        Some(piece) if piece.shape.is_name() => {
            text.push(b' ')?;
            text.extend_from_slice(name_of(drawing, *piece))
        }
        _ => Ok(()),
    }
}

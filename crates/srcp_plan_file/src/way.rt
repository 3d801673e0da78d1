//! The way of a route over a drawing: from an element to another, over turnouts that are put to their ports.

ghost use Rattle.std.specs.Prelude.{◌≡◌, IfOk, option_map};
ghost use Rattle.std.specs.List.{find};
ghost use Rattle.srcp_plan_file.specs.Ways.{branches, comes_straight, first_join, goes_straight, has_fork, is_straight};
ghost use Rattle.srcp_plan_file.specs.Ways.{kind_at, leads, leads_straight, meets_straight, next, only_join, way};
ghost use Rattle.srcp_plan_file.specs.Ways.{way_over};

use crate::element::Kind;
use crate::join::{Join, turned};
use srcp_routes::{Device, Setting, is_same};
use std::alloc::{AllocError, Global};
use std::vec::Vec;

/// Returns what a piece is.
pub(crate) fn kind_at(kinds: &[Kind], n: usize) -> Kind
    ensures { result ≡ kind_at kinds.now n }
{
    kinds.get(n).copied().unwrap_or(Kind::Beside)
}

/// Returns whether these turnouts put this one to the port of its branch, if it is among them.
fn branches(turnouts: &[Setting], device: Device, branch: u8) -> Option<bool>
    ensures { result ≡ branches turnouts.now device branch }
{
    let turnout = turnouts
        .iter()
        .find(|turnout| is_same(turnout.device, device))?;
    Some(turnout.port == branch)
}

/// Returns the first join by which a train may leave a piece.
pub(crate) fn first_join(joins: &[Join], n: usize) -> Option<Join>
    ensures { result ≡ first_join joins.now n }
{
    for join in joins {
        if join.from == n {
            return Some(*join);
        }
    }
    None
}

/// Returns whether a train may leave a piece by two joins or more.
fn has_fork(joins: &[Join], n: usize) -> bool
    ensures { result ≡ has_fork joins.now n }
{
    joins.iter().filter(|join| join.from == n).count() > 1
}

/// Returns the join by which a train leaves a piece, if there is only one.
fn only_join(joins: &[Join], n: usize) -> Option<Join>
    ensures { result ≡ only_join joins.now n }
{
    if has_fork(joins, n) {
        None
    } else {
        first_join(joins, n)
    }
}

/// Returns whether a join leads on straight from the join by which a train came.
fn goes_straight(came: Join, join: Join) -> bool
    ensures { result ≡ goes_straight came join }
{
    join.from == came.to && came.enters.is_opposite(join.leaves)
}

/// Returns whether a join leads straight to the join by which a train goes on.
fn comes_straight(goes: Join, join: Join) -> bool
    ensures { result ≡ comes_straight goes join }
{
    join.to == goes.from && join.enters.is_opposite(goes.leaves)
}

/// Returns whether any join leads on straight from the join by which a train came.
fn leads_straight(joins: &[Join], came: Join) -> bool
    ensures { result ≡ leads_straight joins.now came }
{
    joins.iter().any(|join| goes_straight(came, *join))
}

/// Returns whether any join leads straight to the join by which a train goes on.
fn meets_straight(joins: &[Join], goes: Join) -> bool
    ensures { result ≡ meets_straight joins.now goes }
{
    joins.iter().any(|join| comes_straight(goes, *join))
}

/// Returns whether the way from one join to the other leads straight over a turnout. Of two tracks that both branch
/// off, the upper one counts as straight.
fn is_straight(joins: &[Join], came: Join, goes: Join) -> bool
    ensures { result ≡ is_straight joins.now came goes }
{
    if came.enters.is_opposite(goes.leaves) {
        return true;
    }
    if has_fork(joins, came.to) {
        goes.leaves.is_up() && !leads_straight(joins, came)
    } else {
        came.enters.is_up() && !meets_straight(joins, goes)
    }
}

/// Returns whether a turnout that leads to its branch, or straight, leads from one join to the other.
fn leads(joins: &[Join], to_branch: bool, came: Join, goes: Join) -> bool
    ensures { result ≡ leads joins.now to_branch came goes }
{
    if to_branch {
        goes.from == came.to && !is_straight(joins, came, goes)
    } else {
        goes.from == came.to && is_straight(joins, came, goes)
    }
}

/// Returns the join that leads on straight from the join by which a train came, if any.
fn straight_join(joins: &[Join], came: Join) -> Option<Join>
    ensures { result ≡ find (goes_straight came) joins.now }
{
    for join in joins {
        if goes_straight(came, *join) {
            return Some(*join);
        }
    }
    None
}

/// Returns the join to which a turnout leads from the join by which a train came, if any.
fn led_join(joins: &[Join], to_branch: bool, came: Join) -> Option<Join>
    ensures { result ≡ find (leads joins.now to_branch came) joins.now }
{
    for join in joins {
        if leads(joins, to_branch, came, *join) {
            return Some(*join);
        }
    }
    None
}

/// Returns the join over which a train goes on that came by a join, if any.
pub(crate) fn next(joins: &[Join], kinds: &[Kind], turnouts: &[Setting], came: Join) -> Option<Join>
    ensures { result ≡ next joins.now kinds.now turnouts.now came }
{
    match kind_at(kinds, came.to) {
        Kind::Track | Kind::Button | Kind::Signal(_) | Kind::Sensor(_) => only_join(joins, came.to),
        Kind::Crossing => straight_join(joins, came),
        Kind::Turnout(device, branch) => {
            let to_branch = branches(turnouts, device, branch)?;
            led_join(joins, to_branch, came)
        }
        Kind::Beside => None,
    }
}

/// Returns the pieces of the way from a piece to another over these joins, without the first, if there is a way.
fn way_over(
    alloc: Global,
    joins: &[Join],
    kinds: &[Kind],
    turnouts: &[Setting],
    begin: usize,
    goal: usize,
) -> Result<Option<Vec<usize>>, AllocError>
    ensures { IfOk result (λ found. option_map (λ pieces. pieces.items) found
        ≡ way_over joins.now kinds.now turnouts.now begin goal) }
{
    let mut pieces = Vec::new(alloc);
    let Some(mut came) = first_join(joins, begin) else {
        return Ok(None);
    };
    for _passed in 0..joins.len() {
        pieces.push(came.to)?;
        if came.to == goal {
            return Ok(Some(pieces));
        }
        match next(joins, kinds, turnouts, came) {
            Some(join) => came = join,
            None => return Ok(None),
        }
    }
    Ok(None)
}

/// Returns the pieces of the way from a piece to another, without the first, if there is a way.
pub(crate) fn find_way(
    alloc: Global,
    joins: &[Join],
    kinds: &[Kind],
    turnouts: &[Setting],
    begin: usize,
    goal: usize,
) -> Result<Option<Vec<usize>>, AllocError>
    ensures { IfOk result (λ found. option_map (λ pieces. pieces.items) found
        ≡ way joins.now kinds.now turnouts.now begin goal) }
{
    match way_over(alloc, joins, kinds, turnouts, begin, goal)? {
        Some(pieces) => Ok(Some(pieces)),
        None => {
            let back = turned(alloc, joins)?;
            way_over(alloc, &back, kinds, turnouts, begin, goal)
        }
    }
}

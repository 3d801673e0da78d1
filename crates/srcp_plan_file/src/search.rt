//! The turnouts of a route of which the plan names the ends alone: those of the ways from one end to the other.

ghost use Rattle.std.specs.Prelude.{◌≡◌, ◌++◌, IfOk, OnOk, map};
ghost use Rattle.std.specs.List.{flat_map};
ghost use Rattle.srcp_plan_file.specs.Searches.{arrived, begun, onward, onwards, other_port, walked};
ghost use Rattle.srcp_plan_file.specs.Searches.{and_put, ways_between, ways_over};

use crate::element::Kind;
use crate::join::{Join, turned};
use crate::way::{first_join, kind_at, next};
use srcp_routes::{Device, Setting, has_accessory};
use std::alloc::{AllocError, Global};
use std::vec::Vec;

/// Describes how far a way has come.
#[derive(Drop)]
pub(crate) struct Walk {
    /// The join by which a train has come.
    came: Join,
    /// The turnouts so far, each put as the way needs it.
    pub(crate) turnouts: Vec<Setting>,
}

/// Returns the port of a turnout that leads straight on.
fn other_port(branch: u8) -> u8
    ensures { result ≡ other_port branch }
{
    if branch == 0 { 1 } else { 0 }
}

/// Returns the turnouts and one more.
fn and_put(
    alloc: Global,
    turnouts: &[Setting],
    device: Device,
    port: u8,
) -> Result<Vec<Setting>, AllocError>
    ensures { IfOk result (λ more. more.items ≡ and_put turnouts.now device port) }
{
    let mut more = turnouts.to_vec(alloc)?;
    more.push(Setting { device, port })?;
    Ok(more)
}

/// Adds the way that goes on over these turnouts, if it does.
fn add_onward(
    joins: &[Join],
    kinds: &[Kind],
    came: Join,
    turnouts: Vec<Setting>,
    ways: &mut Vec<Walk>,
) -> Result<(), AllocError>
    ensures { OnOk result (map walked ways.new.items
        ≡ map walked ways.old.items ++ onward joins.now kinds.now came turnouts.items) }
{
    match next(joins, kinds, &turnouts, came) {
        Some(join) => {
            ways.push(Walk {
                came: join,
                turnouts,
            })?;
            Ok(())
        }
        None => Ok(()),
    }
}

/// Adds the ways in which a way goes on that has not come to its goal.
fn add_onwards(
    alloc: Global,
    joins: &[Join],
    kinds: &[Kind],
    goal: usize,
    walk: &Walk,
    ways: &mut Vec<Walk>,
) -> Result<(), AllocError>
    ensures { OnOk result (map walked ways.new.items
        ≡ map walked ways.old.items ++ onwards joins.now kinds.now goal (walked walk.now)) }
{
    let came = walk.came;
    if came.to == goal {
        return Ok(());
    }
    match kind_at(kinds, came.to) {
        Kind::Button => Ok(()),
        Kind::Turnout(device, branch) if !has_accessory(&walk.turnouts, device) => {
            let straight = and_put(alloc, &walk.turnouts, device, other_port(branch))?;
            add_onward(joins, kinds, came, straight, ways)?;
            let branching = and_put(alloc, &walk.turnouts, device, branch)?;
            add_onward(joins, kinds, came, branching, ways)
        }
        _ => add_onward(joins, kinds, came, walk.turnouts.to_vec(alloc)?, ways),
    }
}

/// Returns these ways, each as far as it goes by one join more.
fn go_on(
    alloc: Global,
    joins: &[Join],
    kinds: &[Kind],
    goal: usize,
    walks: &[Walk],
) -> Result<Vec<Walk>, AllocError>
    ensures { IfOk result (λ ways. map walked ways.items
        ≡ flat_map (onwards joins.now kinds.now goal) (map walked walks.now)) }
{
    let mut ways = Vec::new(alloc);
    for walk in walks {
        add_onwards(alloc, joins, kinds, goal, walk, &mut ways)?;
    }
    Ok(ways)
}

/// Adds those of these ways that have come to the goal.
fn add_arrived(
    alloc: Global,
    goal: usize,
    walks: &[Walk],
    found: &mut Vec<Walk>,
) -> Result<(), AllocError>
    ensures { OnOk result (map walked found.new.items
        ≡ map walked found.old.items ++ arrived goal (map walked walks.now)) }
{
    for walk in walks {
        if walk.came.to == goal {
            found.push(Walk {
                came: walk.came,
                turnouts: walk.turnouts.to_vec(alloc)?,
            })?;
        }
    }
    Ok(())
}

/// Returns the way that leaves a piece, if there is one.
fn begun(alloc: Global, joins: &[Join], begin: usize) -> Result<Vec<Walk>, AllocError>
    ensures { IfOk result (λ walks. map walked walks.items ≡ begun joins.now begin) }
{
    let mut walks = Vec::new(alloc);
    if let Some(came) = first_join(joins, begin) {
        walks.push(Walk {
            came,
            turnouts: Vec::new(alloc),
        })?;
    }
    Ok(walks)
}

/// Adds the ways from a piece to another over these joins.
fn add_ways(
    alloc: Global,
    joins: &[Join],
    kinds: &[Kind],
    begin: usize,
    goal: usize,
    found: &mut Vec<Walk>,
) -> Result<(), AllocError>
    ensures { OnOk result (map walked found.new.items
        ≡ map walked found.old.items ++ ways_over joins.now kinds.now begin goal) }
{
    let mut walks = begun(alloc, joins, begin)?;
    for _passed in 0..joins.len() {
        add_arrived(alloc, goal, &walks, found)?;
        walks = go_on(alloc, joins, kinds, goal, &walks)?;
    }
    Ok(())
}

/// Returns the ways from a piece to another that pass no button, to the right and to the left.
pub(crate) fn find_ways(
    alloc: Global,
    joins: &[Join],
    kinds: &[Kind],
    begin: usize,
    goal: usize,
) -> Result<Vec<Walk>, AllocError>
    ensures { IfOk result (λ found. map walked found.items ≡ ways_between joins.now kinds.now begin goal) }
{
    let mut found = Vec::new(alloc);
    add_ways(alloc, joins, kinds, begin, goal, &mut found)?;
    let back = turned(alloc, joins)?;
    add_ways(alloc, &back, kinds, begin, goal, &mut found)?;
    Ok(found)
}

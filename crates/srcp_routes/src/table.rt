//! What stands at a place of the plan: a route's stage, whether the route is wanted, its train, and what is in its way.

ghost use Rattle.std.specs.Prelude.{◌≡◌, ◌&&◌, IfOk, length, map, not};
ghost use Rattle.std.specs.List.{range_with_len};
ghost use Rattle.srcp_routes.specs.Plan.{conflict_at, has_passed, is_clear, is_freed, stage_at, train_at};
ghost use Rattle.srcp_routes.specs.Plan.{train_behind, train_sent, train_told, wanted_at};
ghost use Rattle.srcp_routes.specs.Stages.{lost_stage};

use crate::conflict::{Sensed, conflicts, is_same};
use crate::stage::lost;
use crate::train::{Train, is_through, lets_go, moved};
use crate::{Device, Route, Stage};
use std::alloc::{AllocError, Global};
use std::vec::Vec;

/// Returns whether the routes at two places conflict.
fn conflict_at(routes: &[Route], n: usize, m: usize) -> bool
    ensures { result ≡ conflict_at routes.now n m }
{
    match (routes.get(n), routes.get(m)) {
        (Some(route), Some(other)) => conflicts(route, other),
        _ => false,
    }
}

/// Returns the stage of the route at a place.
pub(crate) fn stage_at(stages: &[Stage], n: usize) -> Stage
    ensures { result ≡ stage_at stages.now n }
{
    stages.get(n).copied().unwrap_or(Stage::Idle)
}

/// Returns whether the route at a place is wanted.
pub(crate) fn wanted_at(wanted: &[bool], n: usize) -> bool
    ensures { result ≡ wanted_at wanted.now n }
{
    wanted.get(n).copied().unwrap_or(false)
}

/// Returns the train that the route at a place has let go.
pub(crate) fn train_at(trains: &[Option<Train>], n: usize) -> Option<Train>
    ensures { result ≡ train_at trains.now n }
{
    trains.get(n).copied().unwrap_or(None)
}

/// Returns whether each route that conflicts with the route at a place is `Idle`.
pub(crate) fn is_clear(routes: &[Route], stages: &[Stage], n: usize) -> bool
    ensures { result ≡ is_clear routes.now stages.now n }
{
    for m in 0..routes.len() {
        if conflict_at(routes, n, m) && !stage_at(stages, m).is_idle() {
            return false;
        }
    }
    true
}

/// Returns whether the route at a place is held, and the fall of this sensor gives the route back.
fn is_freed(routes: &[Route], stages: &[Stage], sensor: Device, n: usize) -> bool
    ensures { result ≡ is_freed routes.now stages.now sensor n }
{
    match routes.get(n).and_then(|route| route.frees) {
        Some(freeing) => is_same(freeing, sensor) && stage_at(stages, n).is_held(),
        None => false,
    }
}

/// Gives back each held route that the fall of this sensor gives back.
pub(crate) fn give_freed(routes: &[Route], stages: &[Stage], sensor: Device, wanted: &mut [bool])
    ensures { wanted.new ≡ map (λ n. wanted_at wanted.old n && not (is_freed routes.now stages.now sensor n))
        (range_with_len 0 (length wanted.old)) }
{
    for n in 0..wanted.len() {
        if is_freed(routes, stages, sensor, n) {
            wanted[n] = false;
        }
    }
}

/// Returns the train of the route at a place, once something was told of a sensor.
fn train_told(
    routes: &[Route],
    sensors: &[Sensed],
    trains: &[Option<Train>],
    told: Sensed,
    n: usize,
) -> Option<Train>
    ensures { result ≡ train_told routes.now sensors.now trains.now told n }
{
    let route = routes.get(n)?;
    let train = train_at(trains, n)?;
    Some(moved(route, sensors, told, train))
}

/// Returns whether the train of the route at a place has passed each section but the last then.
fn has_passed(
    routes: &[Route],
    sensors: &[Sensed],
    trains: &[Option<Train>],
    told: Sensed,
    n: usize,
) -> bool
    ensures { result ≡ has_passed routes.now sensors.now trains.now told n }
{
    match (routes.get(n), train_told(routes, sensors, trains, told, n)) {
        (Some(route), Some(train)) => is_through(route, train),
        _ => false,
    }
}

/// Gives back each route whose train has passed, once something was told of a sensor.
fn give_passed(
    routes: &[Route],
    sensors: &[Sensed],
    trains: &[Option<Train>],
    told: Sensed,
    wanted: &mut [bool],
)
    ensures { wanted.new ≡ map (λ n. wanted_at wanted.old n
        && not (has_passed routes.now sensors.now trains.now told n)) (range_with_len 0 (length wanted.old)) }
{
    for n in 0..wanted.len() {
        if has_passed(routes, sensors, trains, told, n) {
            wanted[n] = false;
        }
    }
}

/// Returns the train of the route at a place, if the route is wanted, once something was told of a sensor.
fn train_behind(
    routes: &[Route],
    sensors: &[Sensed],
    wanted: &[bool],
    trains: &[Option<Train>],
    told: Sensed,
    n: usize,
) -> Option<Train>
    ensures { result ≡ train_behind routes.now sensors.now wanted.now trains.now told n }
{
    if wanted_at(wanted, n) {
        train_told(routes, sensors, trains, told, n)
    } else {
        None
    }
}

/// Follows the train of each wanted route, once something was told of a sensor. The other routes have no train then.
fn follow_wanted(
    routes: &[Route],
    sensors: &[Sensed],
    wanted: &[bool],
    told: Sensed,
    trains: &mut [Option<Train>],
)
    ensures { trains.new ≡ map (train_behind routes.now sensors.now wanted.now trains.old told)
        (range_with_len 0 (length trains.old)) }
{
    for n in 0..trains.len() {
        let train = train_behind(routes, sensors, wanted, trains, told, n);
        trains[n] = train;
    }
}

/// Follows the trains, once something was told of a sensor, and gives back each route whose train has passed.
pub(crate) fn follow(
    routes: &[Route],
    sensors: &[Sensed],
    told: Sensed,
    wanted: &mut [bool],
    trains: &mut [Option<Train>],
)
    ensures wanted { wanted.new ≡ map (λ n. wanted_at wanted.old n
        && not (has_passed routes.now sensors.now trains.old told n)) (range_with_len 0 (length wanted.old)) }
    ensures trains { trains.new ≡ map (train_behind routes.now sensors.now wanted.new trains.old told)
        (range_with_len 0 (length trains.old)) }
{
    give_passed(routes, sensors, trains, told, wanted);
    follow_wanted(routes, sensors, wanted, told, trains);
}

/// Returns the train of the route at a place as the route sends the order of a stage.
pub(crate) fn train_sent(
    routes: &[Route],
    trains: &[Option<Train>],
    stage: Stage,
    n: usize,
) -> Option<Train>
    ensures { result ≡ train_sent routes.now trains.now stage n }
{
    match routes.get(n) {
        Some(route) if lets_go(route, stage) => Some(Train { head: 0, tail: 0 }),
        _ => train_at(trains, n),
    }
}

/// Returns the stages of all routes as a command session begins.
pub(crate) fn lost_stages(alloc: Global, routes: &[Route]) -> Result<Vec<Stage>, AllocError>
    ensures { IfOk result (λ stages. stages.items ≡ map lost_stage routes.now) }
{
    routes.iter().map(|route| lost(route)).collect(alloc)
}

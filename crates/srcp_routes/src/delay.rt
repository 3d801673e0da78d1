//! For how many seconds a route that was given back keeps its locks.

ghost use Rattle.std.specs.Prelude.{◌≡◌, ◌&&◌, map, nat_lt};
ghost use Rattle.srcp_routes.specs.Plan.{delay_at, delay_sent, stage_at, stops_short};
ghost use Rattle.srcp_routes.specs.Stages.{is_hiding};
ghost use Rattle.srcp_routes.specs.Steps.{less};

use crate::conflict::{Sensed, are_free};
use crate::table::stage_at;
use crate::{Route, Stage};

/// Returns the delay of the route at a place.
pub(crate) fn delay_at(delays: &[u32], n: usize) -> u32
    ensures { result ≡ delay_at delays.now n }
{
    delays.get(n).copied().unwrap_or(0)
}

/// Returns whether the route at a place, which was given back, keeps its locks for its delay.
pub(crate) fn is_kept(stages: &[Stage], delays: &[u32], n: usize) -> bool
    ensures { result ≡ (is_hiding (stage_at stages.now n) && nat_lt 0 (delay_at delays.now n)) }
{
    stage_at(stages, n).is_hiding() && delay_at(delays, n) > 0
}

/// Returns whether the signal of a route is stopped at this stage though a train may have seen "go".
fn stops_short(route: &Route, sensors: &[Sensed], stage: Stage) -> bool
    ensures { result ≡ stops_short route.now sensors.now stage }
{
    stage.is_stopping() && !are_free(sensors, &route.approach)
}

/// Returns the delay of the route at a place as the route sends the order of a stage.
pub(crate) fn delay_sent(
    routes: &[Route],
    sensors: &[Sensed],
    delays: &[u32],
    stage: Stage,
    n: usize,
) -> u32
    ensures { result ≡ delay_sent routes.now sensors.now delays.now stage n }
{
    match routes.get(n) {
        Some(route) if stops_short(route, sensors, stage) => route.delay,
        _ => delay_at(delays, n),
    }
}

/// Returns a delay once a second of it has passed.
fn one_less(delay: u32) -> u32
    ensures { result ≡ less delay }
{
    delay.saturating_sub(1)
}

/// Counts a second of each delay.
pub(crate) fn count_second(delays: &mut [u32])
    ensures { delays.new ≡ map less delays.old }
{
    for delay in delays.iter_mut() {
        *delay = one_less(*delay);
    }
}

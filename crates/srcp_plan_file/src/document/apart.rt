//! Accessories used in two ways by a plan.

ghost use Rattle.std.specs.Prelude.{◌≡◌, map};
ghost use Rattle.srcp_plan_file.specs.Document.{apart_from, apart_from_all};
ghost use Rattle.srcp_plan_file.specs.Plan.{crosses, is_crossed, mixes, planned_route, turns_signal};

use crate::plan::PlanFault;
use srcp_routes::{Route, Signal, has_accessory, is_same};

/// Returns whether the signal of the first route is a turnout of the second.
fn turns_signal(route: &Route, other: &Route) -> bool
    ensures { result ≡ turns_signal (planned_route route.now) (planned_route other.now) }
{
    match route.signal {
        Some(signal) => has_accessory(&other.turnouts, signal.device),
        None => false,
    }
}

/// Returns whether the signal of either route is a turnout of the other.
fn mixes(route: &Route, other: &Route) -> bool
    ensures { result ≡ mixes (planned_route route.now) (planned_route other.now) }
{
    turns_signal(route, other) || turns_signal(other, route)
}

/// Returns whether two signals are the same accessory, and a port shows "go" for either and "stop" for the other.
fn is_crossed(one: Signal, two: Signal) -> bool
    ensures { result ≡ is_crossed one two }
{
    is_same(one.device, two.device) && (one.go == two.stop || one.stop == two.go)
}

/// Returns whether a port of a signal shows "go" for either route and "stop" for the other.
fn crosses(route: &Route, other: &Route) -> bool
    ensures { result ≡ crosses (planned_route route.now) (planned_route other.now) }
{
    match (route.signal, other.signal) {
        (Some(one), Some(two)) => is_crossed(one, two),
        _ => false,
    }
}

/// Returns a fault if a route uses an accessory in another way than the other route does.
fn stand_apart_from(other: &Route, route: &Route) -> Result<(), PlanFault>
    ensures { result ≡ apart_from (planned_route other.now) (planned_route route.now) }
{
    if mixes(other, route) {
        return Err(PlanFault::Mixed(other.number, route.number));
    }
    if crosses(other, route) {
        return Err(PlanFault::Crossed(other.number, route.number));
    }
    Ok(())
}

/// Returns the first fault if a route uses an accessory in another way than an earlier route does.
pub(super) fn stand_apart(before: &[Route], route: &Route) -> Result<(), PlanFault>
    ensures { result ≡ apart_from_all (map planned_route before.now) (planned_route route.now) }
{
    for other in before {
        stand_apart_from(other, route)?;
    }
    Ok(())
}

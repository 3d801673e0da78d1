//! How far the train of a route has come over the sections of the route's way.

ghost use Rattle.std.specs.Prelude.{◌≡◌};
ghost use Rattle.srcp_routes.specs.Trains.{has_entered, head_told, is_taken_at, is_through, lets_go, moved, tail_told};

use crate::conflict::{Sensed, is_occupied, is_same};
use crate::{Route, Stage};

/// Says how far a train has come since the route let the train go.
#[derive(Clone, Copy, Debug, PartialEq, Eq)]
pub(crate) struct Train {
    /// The number of sections that the train has entered.
    pub(crate) head: usize,
    /// The number of sections that the train has passed.
    pub(crate) tail: usize,
}

/// Returns whether a route lets a train go by the order at a stage: the order shows "go", or tells that a route without
/// a signal is set.
pub(crate) fn lets_go(route: &Route, stage: Stage) -> bool
    ensures { result ≡ lets_go route.now stage }
{
    match stage {
        Stage::Showing => true,
        Stage::Reporting => route.signal.is_none(),
        _ => false,
    }
}

/// Returns whether a train, if there is one, has entered the first section.
pub(crate) fn has_entered(train: Option<Train>) -> bool
    ensures { result ≡ has_entered train }
{
    match train {
        Some(train) => train.head > 0,
        None => false,
    }
}

/// Returns whether the section of a route at a place is occupied.
fn is_taken_at(route: &Route, sensors: &[Sensed], place: usize) -> bool
    ensures { result ≡ is_taken_at route.now sensors.now place }
{
    match route.sections.get(place) {
        Some(section) => is_occupied(sensors, *section),
        None => false,
    }
}

/// Returns how many sections a train has entered, once something was told of a sensor.
fn head_told(route: &Route, told: Sensed, train: Train) -> usize
    ensures { result ≡ head_told route.now told train }
{
    match route.sections.get(train.head) {
        Some(next) if told.occupancy.is_occupied() && is_same(*next, told.sensor) => train.head + 1,
        _ => train.head,
    }
}

/// Returns how many sections a train has passed, once something was told of a sensor.
fn tail_told(route: &Route, sensors: &[Sensed], told: Sensed, train: Train) -> usize
    ensures { result ≡ tail_told route.now sensors.now told train }
{
    match route.sections.get(train.tail) {
        Some(last)
            if told.occupancy.is_free()
                && is_same(*last, told.sensor)
                && train.tail + 1 < train.head
                && is_taken_at(route, sensors, train.tail + 1) => { train.tail + 1 }
        _ => train.tail,
    }
}

/// Returns a train once something was told of a sensor.
pub(crate) fn moved(route: &Route, sensors: &[Sensed], told: Sensed, train: Train) -> Train
    ensures { result ≡ moved route.now sensors.now told train }
{
    Train {
        head: head_told(route, told, train),
        tail: tail_told(route, sensors, told, train),
    }
}

/// Returns whether a train has passed each section of a route but the last.
pub(crate) fn is_through(route: &Route, train: Train) -> bool
    ensures { result ≡ is_through route.now train }
{
    train.tail > 0 && train.tail == route.sections.len().saturating_sub(1)
}

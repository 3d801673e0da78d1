//! All locomotives of a station: what changes each of them, and which is the next to be told of.

ghost use Rattle.std.specs.Prelude.{◌≡◌, map};
ghost use Rattle.std.specs.List.{list_any, position};
ghost use Rattle.srcp_driver.specs.Cabs.{aged, forgotten, held, is_stopping, is_to_drive, is_to_name, is_to_put};
ghost use Rattle.srcp_driver.specs.Cabs.{is_to_stop, joined};
ghost use Rattle.srcp_driver.specs.Steps.{first, first_name, first_put, name_at, put_at, tell_at};

use crate::cab::Cab;
use crate::event::{Put, Tell};

/// Holds each locomotive.
pub(crate) fn hold_all(cabs: &mut [Cab])
    ensures { cabs.new ≡ map held cabs.old }
{
    for cab in cabs.iter_mut() {
        *cab = cab.held();
    }
}

/// Forgets what the station was told of each locomotive, and holds it.
pub(crate) fn forget_all(cabs: &mut [Cab])
    ensures { cabs.new ≡ map forgotten cabs.old }
{
    for cab in cabs.iter_mut() {
        *cab = cab.forgotten();
    }
}

/// Notes of each locomotive that a moment has come.
pub(crate) fn age_all(cabs: &mut [Cab], now: u64)
    ensures { cabs.new ≡ map (aged now) cabs.old }
{
    for cab in cabs.iter_mut() {
        *cab = cab.aged(now);
    }
}

/// Notes of each locomotive that a session with the registry has begun.
pub(crate) fn join_all(cabs: &mut [Cab])
    ensures { cabs.new ≡ map joined cabs.old }
{
    for cab in cabs.iter_mut() {
        *cab = cab.joined();
    }
}

/// Returns the order to set the row of the locomotive at this place.
fn put_at(cabs: &[Cab], n: usize) -> Option<Put>
    ensures { result ≡ put_at cabs.now n }
{
    match cabs.get(n) {
        Some(cab) => Some(Put::Cab(n, cab.wanted())),
        None => None,
    }
}

/// Returns the place of the first locomotive whose row is to be set, if any.
fn first_to_put(cabs: &[Cab]) -> Option<usize>
    ensures { result ≡ position is_to_put cabs.now }
{
    cabs.iter().position(|cab| cab.is_to_put())
}

/// Returns the order to the registry for the first locomotive whose row is to be set, if any.
pub(crate) fn first_put(cabs: &[Cab]) -> Option<Put>
    ensures { result ≡ first_put cabs.now }
{
    match first_to_put(cabs) {
        Some(n) => put_at(cabs, n),
        None => None,
    }
}

/// Returns the order to say whether the locomotive at this place is silent.
fn name_at(cabs: &[Cab], now: u64, n: usize) -> Option<Put>
    ensures { result ≡ name_at cabs.now now n }
{
    match cabs.get(n) {
        Some(cab) => Some(Put::Silent(n, cab.is_silent(now))),
        None => None,
    }
}

/// Returns the place of the first locomotive of which the registry is to say whether it is silent, if any.
fn first_to_name(cabs: &[Cab], now: u64) -> Option<usize>
    ensures { result ≡ position (is_to_name now) cabs.now }
{
    cabs.iter().position(|cab| cab.is_to_name(now))
}

/// Returns the order to the registry for the first locomotive that is silent, or is not any more, if any.
pub(crate) fn first_name(cabs: &[Cab], now: u64) -> Option<Put>
    ensures { result ≡ first_name cabs.now now }
{
    match first_to_name(cabs, now) {
        Some(n) => name_at(cabs, now, n),
        None => None,
    }
}

/// Returns the order for the locomotive at this place.
fn tell_at(cabs: &[Cab], n: usize) -> Option<Tell>
    ensures { result ≡ tell_at cabs.now n }
{
    match cabs.get(n) {
        Some(cab) => Some(Tell::Cab(n, cab.wanted())),
        None => None,
    }
}

/// Returns the place of the first locomotive whose stop is to be told, if any.
fn first_to_stop(cabs: &[Cab]) -> Option<usize>
    ensures { result ≡ position is_to_stop cabs.now }
{
    cabs.iter().position(|cab| cab.is_to_stop())
}

/// Returns the place of the first locomotive whose drive is to be told, if any.
fn first_to_drive(cabs: &[Cab]) -> Option<usize>
    ensures { result ≡ position is_to_drive cabs.now }
{
    cabs.iter().position(|cab| cab.is_to_drive())
}

/// Returns whether a stop is not confirmed, of a locomotive that was not silent as the power was switched on.
pub(crate) fn is_any_stopping(cabs: &[Cab], on_at: u64) -> bool
    ensures { result ≡ list_any (is_stopping on_at) cabs.now }
{
    cabs.iter().any(|cab| cab.is_stopping(on_at))
}

/// Returns the order for the first locomotive whose stop is to be told, if any.
pub(crate) fn first_stop(cabs: &[Cab]) -> Option<Tell>
    ensures { result ≡ first is_to_stop cabs.now }
{
    match first_to_stop(cabs) {
        Some(n) => tell_at(cabs, n),
        None => None,
    }
}

/// Returns the order for the first locomotive whose drive is to be told, if any.
pub(crate) fn first_drive(cabs: &[Cab]) -> Option<Tell>
    ensures { result ≡ first is_to_drive cabs.now }
{
    match first_to_drive(cabs) {
        Some(n) => tell_at(cabs, n),
        None => None,
    }
}

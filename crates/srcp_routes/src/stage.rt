//! The stages of a route: the order at each stage, and what comes after the order.

ghost use Rattle.std.specs.Prelude.{◌≡◌};
ghost use Rattle.srcp_routes.specs.Stages.{after_reply, by_signal, falls, first_stage, is_held, is_hiding, is_idle};
ghost use Rattle.srcp_routes.specs.Stages.{is_stopping, leaving_stage, left_stage, lost_stage, order_of, ready_stage};
ghost use Rattle.srcp_routes.specs.Stages.{retried_stage, show_setting, stop_setting, turned_back};

use crate::{Order, Route, Setting, Signal};

/// Says how far a route has come.
///
/// ```text
/// Idle ---> Locking ---> Throwing ---> Ready ---> Showing ---> Reporting ---> Set
///   ^          |            |            |           |             |           |
///   |          |            |            |           +-------------+-----------+---> Stopping <---> Stuck
///   |          |            |            |                                               |
///   |          |            +------------+-----------------------------------> Hiding <--+
///   |          v                                                                 |
///   +----- Unlocking <-----------------------------------------------------------+
///
/// any stage --- a command session begins ---> Clearing ---> Closing ---> Idle
///                                                 ^
///                                                 +-------> Blocked
///
/// Reporting, Set --- the train enters ---> Falling ---> Fallen ---> Hiding
///                                             |
///                                             +-------> Stuck
/// ```
///
/// A route goes to the right while it is wanted and its orders are accepted. It goes down if an order is refused, or if
/// the route is given back. A signal that could not be stopped leaves the route `Stuck` or `Blocked`. The signal is to
/// be stopped again if the route is given back once more.
///
/// A route without a signal passes over `Ready`, `Showing`, `Stopping` and `Clearing`. A route without turnouts passes
/// over `Locking`, `Throwing`, `Ready` and `Unlocking`.
#[derive(Clone, Copy, Debug, PartialEq, Eq)]
pub enum Stage {
    /// The route holds nothing, and the signal shows "stop".
    Idle,
    /// The route holds nothing, and the signal is to be stopped.
    Clearing,
    /// The route holds nothing, and the signal could not be stopped.
    Blocked,
    /// The route holds nothing, and is to be reported as not set.
    Closing,
    /// This number of turnouts is locked, and the next is being locked.
    Locking(usize),
    /// All turnouts are locked, this number is thrown, and the next is being thrown.
    Throwing(usize),
    /// All turnouts are thrown, and the signal waits for the blocks.
    Ready,
    /// The signal is being shown.
    Showing,
    /// The route is to be reported as set.
    Reporting,
    /// The route is set.
    Set,
    /// The signal is to be stopped behind the head of a train. The route was reported as set, or is to be.
    Falling(bool),
    /// The signal was stopped behind the head of a train. The route is set, or is to be reported so.
    Fallen(bool),
    /// The signal is to be stopped, and the route holds its locks.
    Stopping,
    /// The signal could not be stopped, and the route keeps its locks.
    Stuck,
    /// The route is to be reported as not set, and holds its locks.
    Hiding,
    /// This number of turnouts stays locked, and the next is being unlocked.
    Unlocking(usize),
}

impl Stage {
    /// Returns whether a route holds nothing at this stage, and the signal shows "stop".
    pub(crate) fn is_idle(self) -> bool
        ensures { result ≡ is_idle self }
    {
        matches!(self, Stage::Idle)
    }

    /// Returns whether the signal is to be stopped, since the route is given back.
    pub(crate) fn is_stopping(self) -> bool
        ensures { result ≡ is_stopping self }
    {
        matches!(self, Stage::Stopping)
    }

    /// Returns whether a route that was given back is to be reported as not set, and to give up its locks then.
    pub(crate) fn is_hiding(self) -> bool
        ensures { result ≡ is_hiding self }
    {
        matches!(self, Stage::Hiding)
    }

    /// Returns whether a route holds locks at this stage, or may be about to.
    pub fn is_held(self) -> bool
        ensures { result ≡ is_held self }
    {
        !matches!(
            self,
            Stage::Idle | Stage::Clearing | Stage::Blocked | Stage::Closing
        )
    }
}

/// Returns the setting in which a signal shows "go".
fn show_setting(signal: Signal) -> Setting
    ensures { result ≡ show_setting signal }
{
    Setting {
        device: signal.device,
        port: signal.go,
    }
}

/// Returns the setting in which a signal shows "stop".
fn stop_setting(signal: Signal) -> Setting
    ensures { result ≡ stop_setting signal }
{
    Setting {
        device: signal.device,
        port: signal.stop,
    }
}

/// Returns the stage of a route with this number of locks to give up.
fn left_stage(left: usize) -> Stage
    ensures { result ≡ left_stage left }
{
    if left == 0 {
        Stage::Idle
    } else {
        Stage::Unlocking(left - 1)
    }
}

/// Returns one stage for a route that has a signal, and another for a route without one.
fn by_signal(route: &Route, with_one: Stage, without: Stage) -> Stage
    ensures { result ≡ by_signal route.now with_one without }
{
    match route.signal {
        Some(_) => with_one,
        None => without,
    }
}

/// Returns the stage in which a route whose signal may show "go" is given back.
fn leaving_stage(route: &Route) -> Stage
    ensures { result ≡ leaving_stage route.now }
{
    by_signal(route, Stage::Stopping, Stage::Hiding)
}

/// Returns the stage of a route as a command session begins: the route holds no lock.
pub(crate) fn lost(route: &Route) -> Stage
    ensures { result ≡ lost_stage route.now }
{
    by_signal(route, Stage::Clearing, Stage::Closing)
}

/// Returns the stage in which a route begins.
fn first_stage(route: &Route) -> Stage
    ensures { result ≡ first_stage route.now }
{
    if route.turnouts.is_empty() {
        by_signal(route, Stage::Showing, Stage::Reporting)
    } else {
        Stage::Locking(0)
    }
}

/// Returns the stage of a route that is given back: a signal that could not be stopped is to be stopped again.
pub(crate) fn retried(stage: Stage) -> Stage
    ensures { result ≡ retried_stage stage }
{
    match stage {
        Stage::Blocked => Stage::Clearing,
        Stage::Stuck => Stage::Stopping,
        other => other,
    }
}

/// Returns the order of a route at a stage, if any.
pub(crate) fn order_of(route: &Route, stage: Stage) -> Option<Order>
    ensures { result ≡ order_of route.now stage }
{
    match stage {
        Stage::Locking(done) => Some(Order::Lock(route.turnouts.get(done)?.device)),
        Stage::Throwing(done) => Some(Order::Throw(*route.turnouts.get(done)?)),
        Stage::Unlocking(left) => Some(Order::Unlock(route.turnouts.get(left)?.device)),
        Stage::Showing => Some(Order::Show(show_setting(route.signal?))),
        Stage::Clearing | Stage::Stopping | Stage::Falling(_) => {
            Some(Order::Stop(stop_setting(route.signal?)))
        }
        Stage::Reporting | Stage::Fallen(false) => Some(Order::Report(route.number, true)),
        Stage::Closing | Stage::Hiding => Some(Order::Report(route.number, false)),
        Stage::Idle
        | Stage::Blocked
        | Stage::Ready
        | Stage::Set
        | Stage::Fallen(true)
        | Stage::Stuck => None,
    }
}

/// Returns the stage after the reply to the order at a stage.
pub(crate) fn after_reply(route: &Route, stage: Stage, ok: bool) -> Stage
    ensures { result ≡ after_reply route.now stage ok }
{
    let count = route.turnouts.len();
    let last = count.saturating_sub(1);
    match (stage, ok) {
        (Stage::Clearing, true) => Stage::Closing,
        (Stage::Clearing, false) => Stage::Blocked,
        (Stage::Closing, _) => Stage::Idle,
        (Stage::Locking(done), true) if done < last => Stage::Locking(done + 1),
        (Stage::Locking(_), true) => Stage::Throwing(0),
        (Stage::Locking(done), false) => left_stage(done),
        (Stage::Throwing(done), true) if done < last => Stage::Throwing(done + 1),
        (Stage::Throwing(_), true) => by_signal(route, Stage::Ready, Stage::Reporting),
        (Stage::Throwing(_), false) => Stage::Hiding,
        (Stage::Showing, true) => Stage::Reporting,
        (Stage::Showing, false) => Stage::Stopping,
        (Stage::Reporting, true) => Stage::Set,
        (Stage::Reporting, false) => leaving_stage(route),
        (Stage::Falling(is_told), true) => Stage::Fallen(is_told),
        (Stage::Fallen(false), true) => Stage::Fallen(true),
        (Stage::Fallen(false), false) | (Stage::Stopping, true) => Stage::Hiding,
        (Stage::Falling(_) | Stage::Stopping, false) => Stage::Stuck,
        (Stage::Hiding, _) => left_stage(count),
        (Stage::Unlocking(left), _) => left_stage(left),
        (other, _) => other,
    }
}

/// Returns the stage in which a route that is not wanted goes back, in the safe order.
fn turned_back(route: &Route, stage: Stage) -> Stage
    ensures { result ≡ turned_back route.now stage }
{
    match stage {
        Stage::Locking(done) => left_stage(done),
        Stage::Throwing(_) | Stage::Ready | Stage::Fallen(_) => Stage::Hiding,
        Stage::Reporting | Stage::Set => leaving_stage(route),
        other => other,
    }
}

/// Returns the stage whose order a route may send next, by whether the route is wanted, the blocks are free, and the
/// route may begin.
pub(crate) fn ready(
    route: &Route,
    is_wanted: bool,
    is_free: bool,
    may_begin: bool,
    stage: Stage,
) -> Stage
    ensures { result ≡ ready_stage route.now is_wanted is_free may_begin stage }
{
    match stage {
        Stage::Idle if may_begin => first_stage(route),
        Stage::Showing => Stage::Stopping,
        Stage::Ready if is_wanted && is_free => Stage::Showing,
        other if is_wanted => other,
        other => turned_back(route, other),
    }
}

/// Returns the stage at which the signal of a route falls, if the signal shows "go" at this stage and a train has
/// entered the route. Returns this stage otherwise.
pub(crate) fn fall(route: &Route, has_entered: bool, stage: Stage) -> Stage
    ensures { result ≡ falls route.now has_entered stage }
{
    match stage {
        Stage::Reporting if has_entered => by_signal(route, Stage::Falling(false), stage),
        Stage::Set if has_entered => by_signal(route, Stage::Falling(true), stage),
        other => other,
    }
}

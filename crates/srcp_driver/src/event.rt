//! What a driver is told, and what it orders.

use crate::drive::Drive;

/// Names an event. A locomotive is named by its place.
#[derive(Clone, Copy, Debug, PartialEq, Eq)]
pub enum Event {
    /// A row of the registry says what a locomotive is to do. A listed one may be of before a loss.
    Row {
        cab: usize,
        drive: Drive,
        is_listed: bool,
    },
    /// A row of the registry says whether the power is to be on. A listed one may be of before a loss.
    Power {
        is_on: bool,
        is_listed: bool,
    },
    /// The station has begun, perhaps anew: it knows of nothing that it was told before.
    Greeted,
    /// The station is gone: its line is closed, or it is silent.
    Gone,
    /// Something else was lost: the server is away for too long, or the station has cut its power.
    Lost,
    /// All are to stop.
    StopAll,
    /// The station reports what a locomotive does.
    Said(usize, Drive),
    /// The station reports whether the power is on.
    SaidPower(bool),
    /// The clock shows this many milliseconds. The pace says how many orders the station may be told until the next
    /// moment.
    Moment(u64),
    /// The registry has accepted or refused what it was asked.
    Reply(bool),
    /// A session with the registry has begun.
    Joined,
    /// The station may be told one thing more.
    Ready,
}

/// Says what a station is told.
#[derive(Clone, Copy, Debug, PartialEq, Eq)]
pub enum Tell {
    /// All make an emergency stop.
    StopAll,
    /// The power is on, or off.
    Power(bool),
    /// The locomotive at this place does this.
    Cab(usize, Drive),
}

/// Says what the registry is asked to set.
#[derive(Clone, Copy, Debug, PartialEq, Eq)]
pub enum Put {
    /// The power is on, or off.
    Power(bool),
    /// The locomotive at this place does this.
    Cab(usize, Drive),
    /// The station confirms no order for the locomotive at this place, or confirms orders again.
    Silent(usize, bool),
}

/// Says what an event leads to.
#[derive(Clone, Copy, Debug, PartialEq, Eq)]
pub struct Orders {
    /// What the station is told, if anything.
    pub tell: Option<Tell>,
    /// What the registry is asked, if anything.
    pub put: Option<Put>,
}

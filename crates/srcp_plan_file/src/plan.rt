//! The content of a plan, and the reasons to refuse one.

use crate::tracks::Tracks;
use srcp_routes::Route;
use std::vec::Vec;
use thiserror::Error;

/// Holds what a plan says.
#[derive(Drop)]
pub struct Plan {
    /// The routes' own bus: there routes are asked for and told, and no device of a route is on this bus.
    pub bus: u8,
    /// The tracks as they are drawn.
    pub tracks: Tracks,
    /// The routes, in the order of the document.
    pub routes: Vec<Route>,
}

/// Names a key of a plan. A plan writes the key in lower case.
#[derive(Clone, Copy, Debug, PartialEq, Eq)]
pub enum Field {
    Bus,
    Route,
    Number,
    Turnouts,
    Blocks,
    Signal,
    Frees,
    Sections,
    Approach,
    Delay,
    Plan,
    Legend,
    From,
    To,
    Turnout,
    Sensor,
    Button,
    Names,
    Functions,
    Name,
}

/// Says why a plan is refused.
#[derive(Clone, Copy, Debug, PartialEq, Eq, Error)]
pub enum PlanFault {
    /// The bytes are no TOML document.
    NotToml,
    /// A required key is missing.
    Missing(Field),
    /// The key's value is of another type or beyond the key's limits.
    OutOfRange(Field),
    /// A key is none of a plan.
    Unknown,
    /// Two routes have this number.
    Twice(u32),
    /// In the route of this number the key's value is of another type, beyond the limits, or on the routes' own bus.
    Beyond(u32, Field),
    /// A key of the route of this number is none of a route.
    UnknownIn(u32),
    /// The route of this number names an accessory twice.
    Repeated(u32),
    /// No way over the drawing leads from one end of the route of this number to the other past no button.
    NoTrack(u32),
    /// Several ways do so.
    Several(u32),
    /// No track of the drawing leads from one end of the route of this number to the other over its turnouts.
    NoWay(u32),
    /// The signal of either of these routes is a turnout of the other.
    Mixed(u32, u32),
    /// A port of a signal shows "go" for either of these routes and "stop" for the other.
    Crossed(u32, u32),
    /// Memory is refused.
    Memory,
}

//! What a plan says of a route, and the orders that routes send.

ghost use Rattle.std.specs.Prelude.{◌≡◌};
ghost use Rattle.srcp_routes.specs.Conflicts.{is_taken, is_vacant};

use std::vec::Vec;

/// Names an accessory or a sensor.
///
/// ```
/// let sensor = Device { bus: 1, address: 17 };
/// blocks.push(sensor)?;
/// ```
#[derive(Clone, Copy, Debug, PartialEq, Eq)]
pub struct Device {
    /// The bus.
    pub bus: u8,
    /// The address on the bus.
    pub address: u32,
}

/// Says which port of an accessory has to be on.
///
/// ```
/// let turnout = Device { bus: 1, address: 4 };
/// turnouts.push(Setting { device: turnout, port: 0 })?;
/// ```
#[derive(Clone, Copy, Debug, PartialEq, Eq)]
pub struct Setting {
    /// The accessory.
    pub device: Device,
    /// The port.
    pub port: u8,
}

/// Says how an accessory shows the signal of a route.
///
/// ```
/// let signal = Signal { device: Device { bus: 1, address: 9 }, go: 0, stop: 1 };
/// ```
#[derive(Clone, Copy, Debug, PartialEq, Eq)]
pub struct Signal {
    /// The accessory.
    pub device: Device,
    /// The port that shows "go".
    pub go: u8,
    /// The port that shows "stop".
    pub stop: u8,
}

/// Says what is known of a sensor.
#[derive(Clone, Copy, Debug, PartialEq, Eq)]
pub enum Occupancy {
    /// Nothing is known of the sensor.
    Unknown,
    /// The sensor was last told to be 0.
    Free,
    /// The sensor was last told to be 1.
    Occupied,
}

impl Occupancy {
    /// Returns whether a sensor is known to be 0.
    pub(crate) fn is_free(self) -> bool
        ensures { result ≡ is_vacant self }
    {
        matches!(self, Occupancy::Free)
    }

    /// Returns whether a sensor is known to be 1.
    pub(crate) fn is_occupied(self) -> bool
        ensures { result ≡ is_taken self }
    {
        matches!(self, Occupancy::Occupied)
    }
}

/// Describes a route.
///
/// ```
/// let route = Route { number: 1, turnouts, blocks, signal: None, frees: None, sections, approach, delay: 30, pieces };
/// routes.push(route)?;
/// let mut interlocking = Interlocking::new(alloc, routes)?;
/// ```
#[derive(Drop)]
pub struct Route {
    /// The number by which the route is asked for and reported.
    pub number: u32,
    /// The turnouts, each with the port that the route wants.
    pub turnouts: Vec<Setting>,
    /// The sensors that have to be known to be 0.
    pub blocks: Vec<Device>,
    /// The signal, if any.
    pub signal: Option<Signal>,
    /// The sensor that gives the route back as the sensor falls from 1 to 0, if any.
    pub frees: Option<Device>,
    /// The sensors along the route's way, in the order in which a train comes to them. A train that has passed each of
    /// them but the last gives the route back.
    pub sections: Vec<Device>,
    /// The sensors before the signal, at which a train may have seen "go".
    pub approach: Vec<Device>,
    /// For how many seconds the route keeps its locks if its signal is stopped while the approach is not known to be
    /// free.
    pub delay: u32,
    /// The pieces of track of the route's way, by their numbers in a drawing.
    pub pieces: Vec<usize>,
}

/// Says what a route commands.
#[derive(Clone, Copy, Debug, PartialEq, Eq)]
pub enum Order {
    /// Locks a turnout.
    Lock(Device),
    /// Throws a turnout.
    Throw(Setting),
    /// Shows "go".
    Show(Setting),
    /// Shows "stop".
    Stop(Setting),
    /// Reports whether the route with this number is set.
    Report(u32, bool),
    /// Gives up the lock of a turnout.
    Unlock(Device),
}

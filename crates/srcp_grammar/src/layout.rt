//! The layout of a server: its buses, and what each offers.

ghost use Rattle.std.specs.Prelude.{◌≡◌, ◌↔◌, [], false, IsTrue, OnOk, OnErr, IfErr, option_copied};
ghost use Rattle.srcp_grammar.specs.Layout.{IsBus, IsLayout, IsFaultOf, bus_numbered, has_number, with_bus};

use srcp_info::{FEWEST_PORTS, GREATEST_BUS, GREATEST_FB, GREATEST_GA, GREATEST_GL, MOST_PORTS};
use std::alloc::Global;
use std::marker::Model;

/// Says what a bus offers. A group with 0 or false in its field is not on the bus. Bus 0 of SRCP 0.8 is the server
/// itself, and is in no layout.
///
/// ```
/// let bus = Bus {
///     number: 1,
///     power: true,
///     gl_max: 9999,
///     ga_max: 256,
///     ga_ports: 2,
///     fb_ports: 16,
/// };
/// layout.add(bus)?;
/// ```
#[derive(Clone, Copy, Debug, PartialEq, Eq)]
pub struct Bus {
    /// The number of the bus, from 1 to 250.
    pub number: u8,
    /// True if the power of the bus can be switched.
    pub power: bool,
    /// The greatest address of a locomotive, at most 10239.
    pub gl_max: u32,
    /// The greatest address of an accessory, at most 2044.
    pub ga_max: u32,
    /// How many ports an accessory has, from 2 to 8. Says nothing if `ga_max` is 0.
    pub ga_ports: u8,
    /// How many feedback ports there are, at most 4096.
    pub fb_ports: u32,
}

impl Bus {
    /// Returns whether each field is within its limits.
    fn is_in_range(&self) -> bool
        ensures { IsTrue result ↔ IsBus self.now }
    {
        1 <= self.number
            && self.number <= GREATEST_BUS
            && self.gl_max <= GREATEST_GL
            && self.ga_max <= GREATEST_GA
            && (self.ga_max == 0
                || FEWEST_PORTS <= self.ga_ports && u32::from(self.ga_ports) <= MOST_PORTS)
            && self.fb_ports <= GREATEST_FB
    }
}

/// Returns the bus of this number among these.
pub(crate) fn bus_numbered(buses: &[Bus], number: u8) -> Option<&Bus>
    ensures { option_copied result ≡ bus_numbered buses.now number }
{
    buses.iter().find(|bus| bus.number == number)
}

/// Says why a layout does not take a bus.
#[derive(Clone, Copy, Debug, PartialEq, Eq)]
pub enum LayoutFault {
    /// A field is beyond its limits.
    OutOfRange,
    /// The layout has a bus of this number.
    Twice,
    /// Memory is refused.
    Memory,
}

/// Holds the buses of a server, by rising number.
///
/// ```
/// let mut layout = Layout::new(alloc);
/// let bus = Bus {
///     number: 1,
///     power: true,
///     gl_max: 100,
///     ga_max: 0,
///     ga_ports: 2,
///     fb_ports: 8,
/// };
/// layout.add(bus)?;
/// ```
#[derive(Drop)]
pub struct Layout {
    buses: Vec<Bus>,
}

impl Model for Layout {
    ghost use Rattle.std.specs.Prelude.{List};
    ghost use Rattle.srcp_grammar.specs.declared.layout.Bus.{Bus};

    ghost Value = { List Bus };

    ghost use Rattle.srcp_grammar.specs.Layout.{IsLayout};

    ghost view = { λ a. a.buses.items };

    ghost invariant = { λ a. IsLayout a.buses.items };
}

impl Layout {
    /// Makes a layout with no bus.
    pub fn new(alloc: Global) -> Layout
        ensures { result ≡ [] }
    {
        Layout {
            buses: Vec::new(alloc),
        }
    }

    /// Adds a bus at the place of its number.
    ///
    /// # Errors
    /// Returns the first of these that holds, and then the layout stays as it is:
    /// 1. a field is beyond its limits (`OutOfRange`);
    /// 2. the layout has a bus of this number (`Twice`);
    /// 3. memory is refused (`Memory`).
    pub fn add(&mut self, bus: Bus) -> Result<(), LayoutFault>
        ensures ok { OnOk result (self.new ≡ with_bus bus self.old) }
        ensures valid { OnOk result (IsBus bus × (has_number self.old bus.number ≡ false)) }
        ensures fault { IfErr result (IsFaultOf self.old bus) }
        ensures err { OnErr result (self.new ≡ self.old) }
    {
        if !bus.is_in_range() {
            return Err(LayoutFault::OutOfRange);
        }
        if self.bus(bus.number).is_some() {
            return Err(LayoutFault::Twice);
        }
        // By rising number, since a listing goes by bus.
        let index = self
            .buses
            .partition_point(|other| other.number < bus.number);
        if self.buses.insert(index, bus).is_err() {
            return Err(LayoutFault::Memory);
        }
        Ok(())
    }

    /// Returns the bus of this number, if the layout has one.
    pub fn bus(&self, number: u8) -> Option<&Bus>
        ensures { option_copied result ≡ bus_numbered self.now number }
    {
        bus_numbered(&self.buses, number)
    }

    /// Returns the buses by rising number, each within the limits.
    pub fn buses(&self) -> &[Bus]
        ensures all { result.now ≡ self.now }
        ensures laid_out { IsLayout self.now }
    {
        &self.buses
    }
}

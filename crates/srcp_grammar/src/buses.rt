//! The buses that a command can name, and what is on them.

ghost use Rattle.std.specs.Prelude.{◌≡◌};
ghost use Rattle.srcp_grammar.specs.Layout.{bus_at, has_group};

use crate::command::CommandGroup;
use crate::layout::{Bus, bus_numbered};

/// Bus 0, which is the server itself.
pub const SERVER: Bus = Bus {
    number: 0,
    power: false,
    gl_max: 0,
    ga_max: 0,
    ga_ports: 0,
    fb_ports: 0,
};

/// Returns the bus of this number: the server, or a bus of the layout. Returns `None` for any other number.
pub(crate) fn bus_at(buses: &[Bus], number: u8) -> Option<Bus>
    ensures { result ≡ bus_at buses.now number }
{
    if number == SERVER.number {
        return Some(SERVER);
    }
    bus_numbered(buses, number).copied()
}

/// Returns whether the bus has the group, given by the third word of a command.
pub(crate) fn has_group(bus: &Bus, group: CommandGroup) -> bool
    ensures { result ≡ has_group bus.now group }
{
    match group {
        CommandGroup::Session => bus.number == SERVER.number,
        CommandGroup::Power => bus.power,
        CommandGroup::Gl => bus.gl_max > 0,
        CommandGroup::Ga => bus.ga_max > 0,
        CommandGroup::Fb => bus.fb_ports > 0,
        CommandGroup::Lock => bus.gl_max > 0 || bus.ga_max > 0,
    }
}

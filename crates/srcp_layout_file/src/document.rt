//! A configuration, read from a TOML document.

ghost use Rattle.std.specs.Prelude.{◌≡◌, ◌≤◌, [], false, map, IfOk};
ghost use Rattle.toml.specs.View.{table_view, view as data_of};
ghost use Rattle.srcp_grammar.specs.Layout.{IsBus, has_number};
ghost use Rattle.srcp_layout_file.specs.Gives.{Gives};
ghost use Rattle.srcp_layout_file.specs.declared.config.Field.TheVariants as field;
ghost use Rattle.srcp_layout_file.specs.Document.{config_of, config_in, buses_in, bus_in, bus_of};
ghost use Rattle.srcp_layout_file.specs.Document.{if_named, number_beside};
ghost use Rattle.srcp_layout_file.specs.Faults.{config_key};
ghost use Rattle.srcp_layout_file.specs.Member.{given_or, number_at};

mod groups;

use crate::config::{Config, ConfigFault, Field};
use crate::limits::{DEFAULT_PORT, GREATEST_PORT};
use crate::member::{array_at, given_or, number_at, read_members};
use groups::groups_in;
use srcp_grammar::{Bus, Layout, LayoutFault};
use srcp_info::{FEWEST_PORTS, GREATEST_BUS, GREATEST_FB, GREATEST_GA, GREATEST_GL, MOST_PORTS};
use std::alloc::Global;
use toml::{Table, Value};

/// Reads a configuration: a TOML document with a port and buses. Ignores other keys.
///
/// # Errors
/// Returns the first fault, in this order: the document (`NotToml`), the port, the buses. Then bus by bus, in the
/// order of the document: the bus's number, and whether an earlier bus has this number (`Twice`). The groups of the
/// bus follow from left to right, then what these need: gl_max, ga_max, ga_ports, fb_ports. Returns `Memory` if memory
/// is refused.
pub fn read_layout(alloc: Global, bytes: &[u8]) -> Result<Config, ConfigFault>
    ensures { Gives (λ config. config) ConfigFault.Memory result (config_of bytes.now) }
{
    let members = read_members(alloc, bytes, ConfigFault::NotToml, ConfigFault::Memory)?;
    read_document(alloc, &members)
}

/// Reads a document.
fn read_document(alloc: Global, members: &Table) -> Result<Config, ConfigFault>
    ensures { Gives (λ config. config) ConfigFault.Memory result (config_in (table_view members.now)) }
{
    let port = given_or(members, Field::Port, DEFAULT_PORT, 1, GREATEST_PORT)?;
    let layout = read_buses(alloc, array_at(members, Field::Bus)?)?;
    Ok(Config {
        port: port as u16,
        layout,
    })
}

/// Reads the buses, in the order of the document.
fn read_buses(alloc: Global, values: &[Value]) -> Result<Layout, ConfigFault>
    ensures { Gives (λ layout. layout) ConfigFault.Memory result (buses_in [] (map data_of values.now)) }
{
    let mut layout = Layout::new(alloc);
    for value in values {
        let bus = bus_in(&layout, value)?;
        match layout.add(bus) {
            Ok(()) => {}
            Err(LayoutFault::Memory) => return Err(ConfigFault::Memory),
            Err(LayoutFault::OutOfRange | LayoutFault::Twice) => unreachable!(),
        }
    }
    Ok(layout)
}

/// Reads a bus, whose number differs from those of the buses before.
fn bus_in(before: &Layout, value: &Value) -> Result<Bus, ConfigFault>
    ensures bus { result ≡ bus_in before.now (data_of value.now) }
    ensures new { IfOk result (λ bus. IsBus bus × (has_number before.now bus.number ≡ false)) }
{
    match value.as_table() {
        Some(members) => bus_of(before, members),
        None => Err(ConfigFault::OutOfRange(Field::Bus)),
    }
}

/// Reads the number and the groups of a bus, and what these groups need.
fn bus_of(before: &Layout, members: &Table) -> Result<Bus, ConfigFault>
    ensures bus { result ≡ bus_of before.now (table_view members.now) }
    ensures new { IfOk result (λ bus. IsBus bus × (has_number before.now bus.number ≡ false)) }
{
    let number = number_beside(before, members)?;
    let groups = groups_in(array_at(members, Field::Groups)?)?;
    let gl_max = number_if(groups.gl, members, Field::GlMax, GREATEST_GL)?;
    let ga_max = number_if(groups.ga, members, Field::GaMax, GREATEST_GA)?;
    let ga_ports = ports_if(groups.ga, members)?;
    let fb_ports = number_if(groups.fb, members, Field::FbPorts, GREATEST_FB)?;
    Ok(Bus {
        number,
        power: groups.power,
        gl_max,
        ga_max,
        ga_ports,
        fb_ports,
    })
}

/// Reads the number of a bus. Returns `Twice` if an earlier bus has this number.
fn number_beside(before: &Layout, members: &Table) -> Result<u8, ConfigFault>
    ensures number { result ≡ number_beside before.now (table_view members.now) }
    ensures new { IfOk result (λ number.
        (1 ≤ number) × (number ≤ GREATEST_BUS) × (has_number before.now number ≡ false)) }
{
    let number = number_at(members, Field::Number, 1, u32::from(GREATEST_BUS))? as u8;
    if before.bus(number).is_some() {
        Err(ConfigFault::Twice(number))
    } else {
        Ok(number)
    }
}

/// Reads how many ports an accessory has. Returns `FEWEST_PORTS` if the bus has no accessories.
fn ports_if(is_there: bool, members: &Table) -> Result<u8, ConfigFault>
    ensures ports { result
        ≡ if_named is_there FEWEST_PORTS (given_or FEWEST_PORTS FEWEST_PORTS MOST_PORTS (config_key field.GaPorts)
        (table_view members.now)) }
    ensures within { IfOk result (λ ports. (FEWEST_PORTS ≤ ports) × (ports ≤ MOST_PORTS)) }
{
    if is_there {
        let fewest = u32::from(FEWEST_PORTS);
        let ports = given_or(members, Field::GaPorts, fewest, fewest, MOST_PORTS)?;
        Ok(ports as u8)
    } else {
        Ok(FEWEST_PORTS)
    }
}

/// Reads the integer at the key, from 1 to `high`, if the bus has the group. Returns 0 if the bus has no such group.
fn number_if(is_there: bool, members: &Table, field: Field, high: u32) -> Result<u32, ConfigFault>
    ensures value { result
        ≡ if_named is_there 0 (number_at 1 high (config_key field) (table_view members.now)) }
    ensures within { IfOk result (λ n. n ≤ high) }
{
    if is_there {
        number_at(members, field, 1, high)
    } else {
        Ok(0)
    }
}

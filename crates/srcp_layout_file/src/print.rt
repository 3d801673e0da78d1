//! A configuration, printed.

ghost use Rattle.std.specs.Prelude.{◌≡◌, ◌∷◌, ◌++◌, [], OnOk, IfOk, decimal, string_bytes};
ghost use Rattle.std.specs.List.{flat_map};
ghost use Rattle.srcp_info.specs.Line.{after_spaces};
ghost use Rattle.srcp_layout_file.specs.Output.{bus_line, checked, group_words, port_line, port_words, power_words};

use crate::config::Config;
use srcp_grammar::Bus;
use srcp_info::FEWEST_PORTS;
use std::alloc::{AllocError, Global};
use std::string::String;
use std::vec::Vec;

/// Returns the text of a configuration: the port, then each bus by rising number, with the groups of the bus and their
/// sizes. The text has the ports of an accessory if there are more than two.
///
/// # Errors
/// Fails if memory is refused.
pub fn print_config(alloc: Global, config: &Config) -> Result<Vec<u8>, AllocError>
    ensures { IfOk result (λ text. text.items ≡ checked config.now) }
{
    let mut text = Vec::new(alloc);
    let line = port_line(alloc, config.port)?;
    text.extend_from_slice(line.as_bytes())?;
    print_buses(alloc, config.layout.buses(), &mut text)?;
    Ok(text)
}

fn port_line(alloc: Global, port: u16) -> Result<String, AllocError>
    ensures { IfOk result (λ line. string_bytes line ≡ port_line port) }
{
    format!(in alloc; "port {port}\n")
}

fn print_buses(alloc: Global, buses: &[Bus], text: &mut Vec<u8>) -> Result<(), AllocError>
    ensures { OnOk result (text.new.items ≡ text.old.items ++ flat_map bus_line buses.now) }
{
    for bus in buses {
        print_bus(alloc, bus, text)?;
    }
    Ok(())
}

fn print_bus(alloc: Global, bus: &Bus, text: &mut Vec<u8>) -> Result<(), AllocError>
    ensures { OnOk result (text.new.items ≡ text.old.items ++ bus_line bus.now) }
{
    let number = bus.number;
    let front = format!(in alloc; "bus {number}")?;
    text.extend_from_slice(front.as_bytes())?;
    print_power(bus.power, text)?;
    print_group(alloc, "GL", bus.gl_max, text)?;
    print_group(alloc, "GA", bus.ga_max, text)?;
    print_ports(alloc, bus, text)?;
    print_group(alloc, "FB", bus.fb_ports, text)?;
    text.push(b'\n')?;
    Ok(())
}

fn print_power(power: bool, text: &mut Vec<u8>) -> Result<(), AllocError>
    ensures { OnOk result (text.new.items ≡ text.old.items ++ after_spaces (power_words power)) }
{
    if power {
        text.extend_from_slice(b" POWER".as_slice())?;
    }
    Ok(())
}

/// Prints a group's name, and the group's size if that is not 0.
fn print_group(alloc: Global, name: &str, count: u32, text: &mut Vec<u8>) -> Result<(), AllocError>
    ensures { OnOk result (text.new.items
        ≡ text.old.items ++ after_spaces (group_words name.now count)) }
{
    if count == 0 {
        return Ok(());
    }
    print_count(alloc, name, count, text)
}

/// Prints how many ports an accessory of the bus has, if there are more than two.
fn print_ports(alloc: Global, bus: &Bus, text: &mut Vec<u8>) -> Result<(), AllocError>
    ensures { OnOk result (text.new.items ≡ text.old.items ++ after_spaces (port_words bus.now)) }
{
    if bus.ga_max == 0 || bus.ga_ports <= FEWEST_PORTS {
        return Ok(());
    }
    print_count(alloc, "PORTS", u32::from(bus.ga_ports), text)
}

fn print_count(alloc: Global, name: &str, count: u32, text: &mut Vec<u8>) -> Result<(), AllocError>
    ensures { OnOk result (text.new.items
        ≡ text.old.items ++ after_spaces (name.now ∷ decimal count ∷ [])) }
{
    let words = count_words(alloc, name, count)?;
    text.extend_from_slice(words.as_bytes())
}

fn count_words(alloc: Global, name: &str, count: u32) -> Result<String, AllocError>
    ensures { IfOk result (λ words. string_bytes words
        ≡ after_spaces (name.now ∷ decimal count ∷ [])) }
{
    format!(in alloc; " {name} {count}")
}

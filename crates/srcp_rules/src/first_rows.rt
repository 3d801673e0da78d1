//! The rows that begin with the registry.

ghost use Rattle.std.specs.Prelude.{◌≡◌, [], ◌∷◌, ◌++◌, OnOk, Some, None, false, map, if◌then◌else◌};
ghost use Rattle.std.specs.List.{range_with_len};
ghost use Rattle.srcp_info.specs.declared.value.Value.TheVariants as value;
ghost use Rattle.srcp_grammar.specs.Devices.{fb_device, power_device};
ghost use Rattle.srcp_rules.specs.State.{first_row};

use crate::device::{fb_device, power_device};
use crate::obeyed::Memory;
use crate::registry::row_put;
use srcp_grammar::Bus;
use srcp_info::{Device, Row, Text, Value};

/// Appends the power row of a bus, off, if the bus has power.
pub(crate) fn push_power(rows: &mut Vec<Row>, bus: &Bus) -> Result<(), Memory>
    ensures { OnOk result
        (rows.new.items
        ≡ rows.old.items
        ++ (if bus.now.power then first_row 0 (power_device bus.now.number) (value.Power false []) ∷ []
        else [])) }
{
    if let Some(row) = power_row(bus) {
        rows.extend_from_slice(&[row])?;
    }
    Ok(())
}

/// Makes the power row of a bus, off, if the bus has power.
pub(crate) fn power_row(bus: &Bus) -> Option<Row>
    ensures { result
        ≡ (if bus.now.power then Some (first_row 0 (power_device bus.now.number) (value.Power false [])) else None) }
{
    if !bus.power {
        return None;
    }
    let off = Value::Power {
        on: false,
        text: Text::new(),
    };
    Some(first_row(power_device(bus.number), off))
}

/// Appends the rows of a bus's feedback ports, each 0.
pub(crate) fn push_ports(rows: &mut Vec<Row>, bus: u8, ports: u32) -> Result<(), Memory>
    ensures { OnOk result
        (rows.new.items
        ≡ rows.old.items
        ++ map (λ port. first_row 0 (fb_device bus port) (value.Fb false)) (range_with_len 1 ports)) }
{
    for below in 0..ports {
        let row = first_row(fb_device(bus, below + 1), Value::Fb { on: false });
        rows.extend_from_slice(&[row])?;
    }
    Ok(())
}

/// Makes the row of a device, there from the moment 0 on.
fn first_row(device: Device, value: Value) -> Row
    ensures { result ≡ first_row 0 device value }
{
    row_put(0, device.first_key(), value, None)
}

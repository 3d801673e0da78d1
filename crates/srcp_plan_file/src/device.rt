//! Turnouts, sensors and signals of a plan, each an array of numbers.

ghost use Rattle.std.specs.Prelude.{◌≡◌, map};
ghost use Rattle.toml.specs.View.{view as data_of};
ghost use Rattle.srcp_plan_file.specs.Devices.{device_of, other_bus, sensor_of, signal_of, signal_with, turnout_of};
ghost use Rattle.srcp_plan_file.specs.Devices.{is_sensor, is_turnout};

use crate::plan::PlanFault;
use srcp_info::{GREATEST_BUS, GREATEST_FB, GREATEST_GA, MOST_PORTS};
use srcp_layout_file::member::ranged;
use srcp_routes::{Device, Setting, Signal};
use toml::Value;

/// The last port of an accessory, whose ports are counted from 0.
const LAST_PORT: u32 = MOST_PORTS - 1;

/// Returns a bus. Returns the fault `beyond` if this is the routes' own.
fn other_bus(own: u8, bus: u8, beyond: PlanFault) -> Result<u8, PlanFault>
    ensures { result ≡ other_bus own beyond bus }
{
    if bus == own { Err(beyond) } else { Ok(bus) }
}

/// Reads a device from its bus and its address.
fn device_of(
    own: u8,
    bus: &Value,
    address: &Value,
    greatest: u32,
    beyond: PlanFault,
) -> Result<Device, PlanFault>
    ensures { result ≡ device_of own greatest beyond (data_of bus.now) (data_of address.now) }
{
    let bus = ranged(bus, 1, u32::from(GREATEST_BUS), beyond)? as u8;
    let bus = other_bus(own, bus, beyond)?;
    let address = ranged(address, 1, greatest, beyond)?;
    Ok(Device { bus, address })
}

/// Reads a turnout from its bus, its address and its port.
pub(crate) fn turnout_of(own: u8, values: &[Value], beyond: PlanFault) -> Result<Setting, PlanFault>
    ensures { result ≡ turnout_of own beyond (map data_of values.now) }
{
    match values {
        [bus, address, port] => {
            let device = device_of(own, bus, address, GREATEST_GA, beyond)?;
            let port = ranged(port, 0, LAST_PORT, beyond)? as u8;
            Ok(Setting { device, port })
        }
        _ => Err(beyond),
    }
}

/// Returns whether a turnout is within the limits, and on another bus than the routes' own.
pub(crate) fn is_turnout(own: u8, turnout: Setting) -> bool
    ensures { result ≡ is_turnout own turnout }
{
    let device = turnout.device;
    device.bus != own
        && (1 <= device.bus && device.bus <= GREATEST_BUS)
        && (1 <= device.address && device.address <= GREATEST_GA)
        && u32::from(turnout.port) <= LAST_PORT
}

/// Returns whether a sensor is within the limits, and on another bus than the routes' own.
pub(crate) fn is_sensor(own: u8, sensor: Device) -> bool
    ensures { result ≡ is_sensor own sensor }
{
    sensor.bus != own
        && (1 <= sensor.bus && sensor.bus <= GREATEST_BUS)
        && (1 <= sensor.address && sensor.address <= GREATEST_FB)
}

/// Reads a sensor from its bus and its address.
pub(crate) fn sensor_of(own: u8, values: &[Value], beyond: PlanFault) -> Result<Device, PlanFault>
    ensures { result ≡ sensor_of own beyond (map data_of values.now) }
{
    match values {
        [bus, address] => device_of(own, bus, address, GREATEST_FB, beyond),
        _ => Err(beyond),
    }
}

/// Returns a signal. Returns the fault `beyond` if both ports are the same.
fn signal_with(device: Device, go: u8, stop: u8, beyond: PlanFault) -> Result<Signal, PlanFault>
    ensures { result ≡ signal_with beyond device go stop }
{
    if go == stop {
        Err(beyond)
    } else {
        Ok(Signal { device, go, stop })
    }
}

/// Reads a signal from its bus, its address, and its ports for "go" and "stop".
pub(crate) fn signal_of(own: u8, values: &[Value], beyond: PlanFault) -> Result<Signal, PlanFault>
    ensures { result ≡ signal_of own beyond (map data_of values.now) }
{
    match values {
        [bus, address, go, stop] => {
            let device = device_of(own, bus, address, GREATEST_GA, beyond)?;
            let go = ranged(go, 0, LAST_PORT, beyond)? as u8;
            let stop = ranged(stop, 0, LAST_PORT, beyond)? as u8;
            signal_with(device, go, stop, beyond)
        }
        _ => Err(beyond),
    }
}

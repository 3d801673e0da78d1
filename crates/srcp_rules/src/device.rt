//! The devices that a command names, and the keys of their rows.

ghost use Rattle.std.specs.Prelude.{◌≡◌};
ghost use Rattle.srcp_grammar.specs.declared.command.DeviceGroup.TheVariants as devices;
ghost use Rattle.srcp_grammar.specs.Devices.{device_at, fb_device, key_at, lock_at, power_device, session_device};

use srcp_grammar::{DeviceGroup, Target};
use srcp_info::{Device, Group, Key};

/// Returns the device of a session's row.
pub(crate) fn session_device(session: u32) -> Device
    ensures { result ≡ session_device session }
{
    Device {
        bus: 0,
        group: Group::Session,
        address: session,
    }
}

/// Returns the device of the power of a bus.
pub(crate) fn power_device(bus: u8) -> Device
    ensures { result ≡ power_device bus }
{
    Device {
        bus,
        group: Group::Power,
        address: 0,
    }
}

/// Returns the device of a feedback port.
pub(crate) fn fb_device(bus: u8, port: u32) -> Device
    ensures { result ≡ fb_device bus port }
{
    Device {
        bus,
        group: Group::Fb,
        address: port,
    }
}

/// Names a locomotive.
pub(crate) fn gl(bus: u8, address: u32) -> Target
    ensures { result ≡ record { bus = bus; group = devices.Gl; address = address } }
{
    Target {
        bus,
        group: DeviceGroup::Gl,
        address,
    }
}

/// Names an accessory.
pub(crate) fn ga(bus: u8, address: u32) -> Target
    ensures { result ≡ record { bus = bus; group = devices.Ga; address = address } }
{
    Target {
        bus,
        group: DeviceGroup::Ga,
        address,
    }
}

/// Returns the device of a locomotive or an accessory.
pub(crate) fn device_at(target: Target) -> Device
    ensures { result ≡ device_at target }
{
    let group = match target.group {
        DeviceGroup::Gl => Group::Gl,
        DeviceGroup::Ga => Group::Ga,
    };
    Device {
        bus: target.bus,
        group,
        address: target.address,
    }
}

/// Returns the lock of a locomotive or an accessory. The lock is a device of its own.
pub(crate) fn lock_at(target: Target) -> Device
    ensures { result ≡ lock_at target }
{
    let group = match target.group {
        DeviceGroup::Gl => Group::LockGl,
        DeviceGroup::Ga => Group::LockGa,
    };
    Device {
        bus: target.bus,
        group,
        address: target.address,
    }
}

/// Returns the key of the device's row at a port.
pub(crate) fn key_at(device: Device, port: u8) -> Key
    ensures { result ≡ key_at device port }
{
    Key {
        bus: device.bus,
        group: device.group,
        address: device.address,
        port,
    }
}

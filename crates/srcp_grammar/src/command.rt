//! What a command asks for: one variant for each pair of an operation and a group.

use srcp_info::{Bits, Letter, Text};

/// Lists the operations, named by the first word of a command.
#[derive(Clone, Copy, Debug, PartialEq, Eq)]
pub enum Operation {
    Get,
    Set,
    Check,
    Init,
    Term,
    Wait,
    Verify,
    Reset,
}

/// Lists what the third word of a command can name.
#[derive(Clone, Copy, Debug, PartialEq, Eq)]
pub enum CommandGroup {
    Session,
    Power,
    Gl,
    Ga,
    Fb,
    Lock,
}

/// Lists the groups of lockable devices, as the word behind LOCK names them.
#[derive(Clone, Copy, Debug, PartialEq, Eq)]
pub enum DeviceGroup {
    /// Locomotives.
    Gl,
    /// Accessories.
    Ga,
}

/// Names a locomotive or an accessory.
///
/// ```
/// let target = Target {
///     bus: 1,
///     group: DeviceGroup::Gl,
///     address: 3,
/// };
/// ```
#[derive(Clone, Copy, Debug, PartialEq, Eq)]
pub struct Target {
    /// The bus.
    pub bus: u8,
    /// The group of the device.
    pub group: DeviceGroup,
    /// The device's address.
    pub address: u32,
}

/// Says what SET and CHECK ask of a locomotive.
#[derive(Clone, Copy, Debug, PartialEq, Eq)]
pub struct Drive {
    /// The bus.
    pub bus: u8,
    /// The locomotive's address.
    pub address: u32,
    /// The drive mode, by its number in `DriveMode`.
    pub mode: u32,
    /// V, the speed, from 0 to 65535, and at most `vmax` unless `vmax` is 0. In an emergency stop 0 is kept.
    pub v: u32,
    /// Vmax, the greatest speed, from 0 to 65535. Zero means no limit.
    pub vmax: u32,
    /// The first functions, true if on, at most 29. Functions not given keep their values.
    pub functions: Bits,
}

/// Says what SET and CHECK ask of a port of an accessory.
#[derive(Clone, Copy, Debug, PartialEq, Eq)]
pub struct Switch {
    /// The bus.
    pub bus: u8,
    /// The accessory's address.
    pub address: u32,
    /// The port, from 0 on and below the number of ports of each accessory on the bus.
    pub port: u8,
    /// True for on, which is 1 in a line.
    pub on: bool,
    /// After how many milliseconds a port that is on falls back, from 0 to 60000. The word -1 is `None`. Both 0 and
    /// `None` mean never.
    pub time: Option<u32>,
}

/// Says what SET and CHECK ask of the power of a bus.
#[derive(Clone, Copy, Debug, PartialEq, Eq)]
pub struct PowerSwitch {
    /// The bus.
    pub bus: u8,
    /// True for on.
    pub on: bool,
    /// The reason, in the sender's words. May be empty.
    pub text: Text,
}

/// Says what SET and CHECK ask of a feedback port.
#[derive(Clone, Copy, Debug, PartialEq, Eq)]
pub struct Sensor {
    /// The bus.
    pub bus: u8,
    /// The feedback port, from 1 to the last of the bus.
    pub port: u32,
    /// True for on, which is 1 in a line.
    pub on: bool,
}

/// Says what SET and CHECK ask of a lock.
#[derive(Clone, Copy, Debug, PartialEq, Eq)]
pub struct TimedLock {
    /// The device.
    pub target: Target,
    /// For how many seconds, from 0 to 86400. A lock of 0 seconds stays as long as the session.
    pub seconds: u32,
}

/// Says what INIT makes of a locomotive.
#[derive(Clone, Copy, Debug, PartialEq, Eq)]
pub struct NewGl {
    /// The bus.
    pub bus: u8,
    /// The locomotive's address.
    pub address: u32,
    /// The protocol of the decoder.
    pub letter: Letter,
    /// The version of that protocol, from 0 to 255.
    pub version: u32,
    /// How many speed steps the decoder has, from 1 to 1000.
    pub steps: u32,
    /// How many functions the locomotive has, from 0 to 29.
    pub functions: u32,
}

/// Says what INIT makes of an accessory.
#[derive(Clone, Copy, Debug, PartialEq, Eq)]
pub struct NewGa {
    /// The bus.
    pub bus: u8,
    /// The accessory's address.
    pub address: u32,
    /// The protocol of the decoder.
    pub letter: Letter,
    /// How many ports the bus gives each accessory, from 2 to 8.
    pub ports: u8,
}

/// Holds a command of SRCP 0.8, with the words as read. Each pair of an operation and a group has a variant. `bus` is
/// the number of a bus, from 1 to 250. `address` is the address of a device on the bus, from 1 to the greatest there.
#[derive(Clone, Copy, Debug, PartialEq, Eq)]
pub enum Command {
    /// Asks for the row of a session.
    GetSession {
        /// The named id. No session has the id 0.
        session: u32,
    },
    /// Ends the sender's session.
    TermSession {
        /// The named id, if any.
        session: Option<u32>,
    },
    /// Asks for the power of a bus.
    GetPower {
        /// The bus.
        bus: u8,
    },
    /// Turns the power of a bus on or off.
    SetPower(PowerSwitch),
    /// Answers as `SetPower` does, and changes nothing.
    CheckPower(PowerSwitch),
    /// Is accepted, and changes nothing.
    InitPower {
        /// The bus.
        bus: u8,
    },
    /// Asks what a locomotive does.
    GetGl {
        /// The bus.
        bus: u8,
        /// The locomotive's address.
        address: u32,
    },
    /// Drives a locomotive.
    SetGl(Drive),
    /// Answers as `SetGl` does, and changes nothing.
    CheckGl(Drive),
    /// Makes a locomotive, or makes the locomotive anew if its parameters are others.
    InitGl(NewGl),
    /// Removes a locomotive, and its lock first.
    TermGl {
        /// The bus.
        bus: u8,
        /// The locomotive's address.
        address: u32,
    },
    /// Asks for a port of an accessory.
    GetGa {
        /// The bus.
        bus: u8,
        /// The accessory's address.
        address: u32,
        /// The port, from 0 on and below the number of ports of each accessory on the bus.
        port: u8,
    },
    /// Switches a port of an accessory.
    SetGa(Switch),
    /// Answers as `SetGa` does, and changes nothing.
    CheckGa(Switch),
    /// Makes an accessory, or makes the accessory anew if its protocol is another.
    InitGa(NewGa),
    /// Removes an accessory, and its lock first.
    TermGa {
        /// The bus.
        bus: u8,
        /// The accessory's address.
        address: u32,
    },
    /// Asks for a feedback port.
    GetFb {
        /// The bus.
        bus: u8,
        /// The feedback port, from 1 to the last of the bus.
        port: u32,
    },
    /// Sets a feedback port, in place of a sensor.
    SetFb(Sensor),
    /// Answers as `SetFb` does, and changes nothing.
    CheckFb(Sensor),
    /// Is accepted, and changes nothing.
    InitFb {
        /// The bus, which has feedback ports.
        bus: u8,
    },
    /// Asks for the lock of a device.
    GetLock(Target),
    /// Locks a device for the session, or renews the lock.
    SetLock(TimedLock),
    /// Answers as `SetLock` does, and changes nothing.
    CheckLock(TimedLock),
    /// Removes the lock of a device.
    TermLock(Target),
}

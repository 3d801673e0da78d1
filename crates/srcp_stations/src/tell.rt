//! What a DCC-EX is told.

use crate::drive::Drive;

/// Names what a station is told.
#[derive(Clone, Copy, Debug, PartialEq, Eq)]
pub enum Tell {
    /// All make an emergency stop.
    StopAll,
    /// The power of all tracks is on, or off.
    Power(bool),
    /// The locomotive of this address drives so.
    Cab(u32, Drive),
    /// This function of the locomotive of this address is on, or off.
    Function(u32, u8, bool),
    /// The turnout of this address is thrown, or not.
    Turnout(u32, bool),
    /// The station keeps nothing of the locomotive of this address any more.
    Forget(u32),
    /// The station is asked how the locomotive of this address is.
    Ask(u32),
    /// The station is asked who it is.
    Hello,
    /// The station is asked whether it is there. It says how many slots it has.
    Alive,
    /// The station is asked for all sensors.
    Sensors,
    /// A decoder at the programming track is asked for a CV.
    ReadCv(u32),
    /// A value is written into a CV of a decoder at the programming track.
    WriteCv(u32, u8),
}

//! The limits of what stations say and are told.

/// The greatest address of a locomotive.
pub const GREATEST_CAB: u32 = 10_239;

/// The greatest step of a speed.
pub const GREATEST_STEP: u8 = 126;

/// The greatest number of a function of a locomotive.
pub const GREATEST_FUNCTION: u8 = 28;

/// The greatest address of a turnout.
pub const GREATEST_TURNOUT: u32 = 2_044;

/// The greatest number of a sensor, or of a slot, that a station says: one of five digits.
pub const GREATEST_NUMBER: u32 = 99_999;

/// The greatest count of slots that a station says: one of four digits.
pub const GREATEST_COUNT: u32 = 9_999;

/// The bit of the code of a speed that is on if a locomotive drives forward.
pub(crate) const FORWARD_BIT: u32 = 128;

/// The greatest number of a CV of a decoder.
pub const GREATEST_CV: u32 = 1_024;

/// The most tracks that have a letter.
pub const MOST_TRACKS: u8 = 8;

/// The most bytes of a command.
pub const LONGEST_TELL: usize = 16;

/// How many values a byte has.
pub(crate) const BYTE_VALUES: u16 = 256;

/// The bytes of a dataset of a Z21 before its data: its length and its header.
pub(crate) const HEAD_LENGTH: u16 = 4;

/// The header of a dataset that has a command of the X-BUS.
pub const XBUS_HEADER: u16 = 0x40;

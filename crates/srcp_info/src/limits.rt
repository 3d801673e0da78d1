//! The limits of rows, lines, pieces and panels.

/// The greatest number of a bus. The least is 1: bus 0 is the server itself.
pub const GREATEST_BUS: u8 = 250;

/// The greatest address of a locomotive, from NMRA's DCC.
pub const GREATEST_GL: u32 = 10239;

/// The greatest address of an accessory, from NMRA's DCC.
pub const GREATEST_GA: u32 = 2044;

/// The greatest number of a sensor.
pub const GREATEST_FB: u32 = 4096;

/// The fewest ports of an accessory.
pub const FEWEST_PORTS: u8 = 2;

/// The most ports of an accessory.
pub const MOST_PORTS: u32 = 8;

/// The greatest version of a decoder's protocol.
pub const GREATEST_VERSION: u32 = 255;

/// The most speed steps of a decoder.
pub const MOST_STEPS: u32 = 1000;

/// The most functions of a locomotive.
pub const MOST_FUNCTIONS: u32 = 29;

/// The greatest speed, and the greatest limit of speed that a client may give.
pub const GREATEST_SPEED: u32 = 65535;

/// The most seconds for which a lock is set.
pub const MOST_SECONDS: u32 = 86400;

/// The most milliseconds for which a port of an accessory is set.
pub const MOST_MILLISECONDS: u32 = 60000;

/// The greatest id of a session.
pub const GREATEST_ID: u32 = 4_294_967_295;

/// The most bytes of the text of a power row.
pub const LONGEST_TEXT: usize = 80;

/// The most bytes of a piece: what one call hands to a connection.
pub const MOST_IN_PIECE: usize = 256;

/// The most changes that wait for a panel.
pub const MOST_WAITING: usize = 256;

/// The most bytes of a line, LF included.
pub const LONGEST_LINE: usize = 126;

/// The most bytes of the line of a reply without a row, LF included.
pub const LONGEST_SHORT_REPLY: usize = 64;

/// The most bytes of the text of such a reply, behind the stamp.
pub(crate) const LONGEST_REPLY_TEXT: usize = 40;

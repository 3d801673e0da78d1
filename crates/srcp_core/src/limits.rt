//! The limits of a core. SRCP 0.8 has none of them.

use srcp_info::{LONGEST_SHORT_REPLY, MOST_IN_PIECE};

/// The most connections that are open at once.
pub const MOST_CONNECTIONS: usize = 64;

/// The most unsent bytes of a connection. They are a short reply for each byte of a piece, and the reply to a line that
/// was begun in an earlier piece.
pub const MOST_UNSENT: usize = LONGEST_SHORT_REPLY * MOST_IN_PIECE + MOST_OF_BEGUN;

/// The bytes that are kept for the reply to a line begun in an earlier piece.
const MOST_OF_BEGUN: usize = 256;

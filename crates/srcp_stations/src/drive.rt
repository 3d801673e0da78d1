//! How a locomotive drives.

/// Names how fast a locomotive drives.
#[derive(Clone, Copy, Debug, PartialEq, Eq)]
pub enum Speed {
    /// An emergency stop.
    Halt,
    /// The locomotive stands.
    Stand,
    /// The locomotive drives at a step, from 1 to `GREATEST_STEP`.
    Step(u8),
}

/// Says how fast a locomotive drives, and which way.
#[derive(Clone, Copy, Debug, PartialEq, Eq)]
pub struct Drive {
    /// How fast.
    pub speed: Speed,
    /// Whether forward.
    pub is_forward: bool,
}

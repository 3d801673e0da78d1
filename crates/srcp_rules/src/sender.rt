//! The sender of a command.

ghost use Rattle.srcp_info.specs.WellFormed.{IsMoment};

/// Names the sender of a command, and the moment of sending.
#[derive(Clone, Copy)]
pub(crate) struct Sender {
    /// The id of the session.
    pub(crate) session: u32,
    /// The moment, in milliseconds.
    pub(crate) moment: u64,
    // A contract knows the range of a parameter, but not that of a field.
    ghost fits: { IsMoment moment },
}

//! The rows of a registry, with an index of due moments, and another of the sessions with locks. A moment and the end
//! of a session cost what they change, and not a walk over all rows.
#![tactic(auto)]

mod index;
mod indexed;
mod indexes;

pub use indexed::Indexed;

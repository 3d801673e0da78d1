//! The words of command stations: which bytes a station is told, and which bytes say what.
//!
//! The crate knows no line of a serial port, no socket and no clock, and does not know which order is told next: that
//! is in `srcp_driver`.
#![tactic(auto)]

mod command;
mod dataset;
mod drive;
pub mod laws;
mod limits;
mod message;
mod put;
mod read;
mod said;
mod scan;
mod tell;
mod text;

pub use command::tell_line;
pub use dataset::{first_dataset, xbus};
pub use drive::{Drive, Speed};
pub use limits::{
    GREATEST_CAB, GREATEST_COUNT, GREATEST_CV, GREATEST_FUNCTION, GREATEST_NUMBER, GREATEST_STEP,
    GREATEST_TURNOUT, LONGEST_TELL, MOST_TRACKS, XBUS_HEADER,
};
pub use message::said_line;
pub use read::read_said;
pub use said::{CvValue, Report, Said, Track, is_said};
pub use tell::Tell;

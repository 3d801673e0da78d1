//! What a DCC-EX says.

ghost use Rattle.std.specs.Prelude.{◌↔◌, IsTrue};
ghost use Rattle.srcp_stations.specs.Said.{IsCab, IsDrive, IsReport, IsSaid, IsSlot};

use crate::drive::{Drive, Speed};
use crate::limits::{
    GREATEST_CAB, GREATEST_COUNT, GREATEST_CV, GREATEST_NUMBER, GREATEST_STEP, MOST_TRACKS,
};

/// Names the track of which a station tells the power.
#[derive(Clone, Copy, Debug, PartialEq, Eq)]
pub enum Track {
    /// All tracks.
    All,
    /// The main track.
    Main,
    /// The main track, and the programming track joined to it.
    Join,
    /// The programming track.
    Prog,
    /// The track of a letter: 0 is A, and a station has tracks up to H.
    Letter(u8),
}

/// Says how a locomotive is, as a station tells it.
#[derive(Clone, Copy, Debug, PartialEq, Eq)]
pub struct Report {
    /// The address.
    pub cab: u32,
    /// The slot in which the station keeps the locomotive, if it keeps it.
    pub slot: Option<u32>,
    /// How it drives.
    pub drive: Drive,
    /// A bit for each function, that of F0 the lowest.
    pub functions: u32,
}

/// Names what a station says of a CV of a decoder.
#[derive(Clone, Copy, Debug, PartialEq, Eq)]
pub enum CvValue {
    /// The CV has this value.
    Is(u8),
    /// No decoder answers.
    Nobody,
    /// The station cannot measure at its programming track.
    CannotMeasure,
    /// The station has no programming track.
    NoTrack,
}

/// Names what a station says.
#[derive(Clone, Copy, Debug, PartialEq, Eq)]
pub enum Said {
    /// The station begins, or answers the question who it is.
    Banner,
    /// A track is overloaded.
    Overload,
    /// A sensor is on, or off.
    Sensor(u32, bool),
    /// The station has so many slots for locomotives. This answers the question whether it is there.
    Slots(u32),
    /// The power of a track is on, or off.
    Power(Track, bool),
    /// A locomotive is so.
    Locomotive(Report),
    /// The station has refused a command.
    Refused,
    /// A CV is so. `true` if the station has checked a value.
    Cv(bool, u32, CvValue),
}

/// Returns whether a speed has a code.
pub(crate) fn is_drive(drive: Drive) -> bool
    ensures { IsTrue result ↔ IsDrive drive }
{
    match drive.speed {
        Speed::Halt | Speed::Stand => true,
        Speed::Step(step) => 1 <= step && step <= GREATEST_STEP,
    }
}

fn is_slot(slot: Option<u32>) -> bool
    ensures { IsTrue result ↔ IsSlot slot }
{
    match slot {
        Some(number) => number <= GREATEST_NUMBER,
        None => true,
    }
}

fn is_cab(cab: u32) -> bool
    ensures { IsTrue result ↔ IsCab cab }
{
    1 <= cab && cab <= GREATEST_CAB
}

fn is_report(report: Report) -> bool
    ensures { IsTrue result ↔ IsReport report }
{
    is_cab(report.cab) && is_slot(report.slot) && is_drive(report.drive)
}

/// Returns whether a station can say this: all numbers are within their limits.
pub fn is_said(said: Said) -> bool
    ensures { IsTrue result ↔ IsSaid said }
{
    match said {
        Said::Sensor(number, _) => number <= GREATEST_NUMBER,
        Said::Slots(count) => count <= GREATEST_COUNT,
        Said::Locomotive(report) => is_report(report),
        Said::Power(Track::Letter(place), _) => place < MOST_TRACKS,
        Said::Cv(_, cv, _) => 1 <= cv && cv <= GREATEST_CV,
        Said::Banner | Said::Overload | Said::Power(_, _) | Said::Refused => true,
    }
}

//! What rows, reports, losses, moments and orders make of one locomotive.

ghost use Rattle.std.specs.Prelude.{◌≡◌};
ghost use Rattle.srcp_driver.specs.Cabs.{aged, asked, forgotten, handed, held, is_due, is_kept, is_own, joined, named};
ghost use Rattle.srcp_driver.specs.Cabs.{refused, reported, silent_from, still_asked, told, with_row};

use crate::cab::Cab;
use crate::drive::{Drive, is_alike, is_same, is_value};

/// Is how many milliseconds the station has to confirm an order, before the driver tells that order again.
pub const CONFIRMS: u64 = 250;

impl Cab {
    /// Returns whether this is what the registry was asked to set, and drives: a row that rests may be somebody's stop.
    fn is_own(self, drive: Drive) -> bool
        ensures { result ≡ is_own self.asked drive }
    {
        drive.drives() && is_value(self.asked, drive)
    }

    /// Returns what the registry was asked, and has not done, once the row is this.
    fn still_asked(self, drive: Drive) -> Option<Drive>
        ensures { result ≡ still_asked self.asked drive }
    {
        if is_value(self.asked, drive) {
            None
        } else {
            self.asked
        }
    }

    /// Returns whether a row that drives is no command, since the locomotive is held: nobody has put its row to rest
    /// since a loss. If the registry has refused that, a row that says something else is a command.
    fn is_kept(self, drive: Drive) -> bool
        ensures { result ≡ is_kept drive self }
    {
        self.is_held && (!self.is_refused || is_same(self.row, drive))
    }

    /// Returns the locomotive once its row is this. A row that answers an order of this driver is no command. A row
    /// that drives is none if it is old, or the locomotive is held. A row that rests is told again, so that a report of
    /// before does not count.
    pub(crate) fn with_row(self, drive: Drive, is_old: bool) -> Cab
        ensures { result ≡ with_row drive is_old self }
    {
        if self.is_own(drive) {
            Cab {
                row: drive,
                asked: None,
                is_refused: false,
                ..self
            }
        } else {
            let is_held = drive.drives() && (is_old || self.is_kept(drive));
            Cab {
                row: drive,
                command: if is_held { None } else { Some(drive) },
                is_held,
                asked: self.still_asked(drive),
                is_refused: false,
                told: if drive.drives() { self.told } else { None },
                ..self
            }
        }
    }

    /// Returns the locomotive after a loss: the station is told again what the locomotive is to do.
    pub(crate) fn held(self) -> Cab
        ensures { result ≡ held self }
    {
        Cab {
            command: None,
            is_held: self.is_held || self.row.drives(),
            is_refused: false,
            told: None,
            ..self
        }
    }

    /// Returns the locomotive once the station has begun anew.
    pub(crate) fn forgotten(self) -> Cab
        ensures { result ≡ forgotten self }
    {
        Cab {
            awaited: None,
            is_late: false,
            ..self.held()
        }
    }

    /// Returns the locomotive once a hand throttle has it do this.
    fn handed(self, drive: Drive) -> Cab
        ensures { result ≡ handed drive self }
    {
        Cab {
            command: Some(drive),
            is_refused: false,
            told: Some(drive),
            ..self
        }
    }

    /// Returns the locomotive once the station has reported that it does this: what it was told, or else, if it has
    /// confirmed what it was told, what a hand throttle has it do.
    pub(crate) fn reported(self, drive: Drive) -> Cab
        ensures { result ≡ reported drive self }
    {
        match (self.awaited, self.told) {
            (Some(told), _) => {
                if is_same(told, drive) {
                    Cab {
                        awaited: None,
                        is_late: false,
                        ..self
                    }
                } else {
                    self
                }
            }
            (None, Some(told)) => {
                if is_alike(told, drive) {
                    self
                } else {
                    self.handed(drive)
                }
            }
            (None, None) => self,
        }
    }

    /// Returns whether the station had time to confirm what it was told, and has not.
    fn is_due(self, now: u64) -> bool
        ensures { result ≡ is_due now self }
    {
        self.awaited.is_some() && now.saturating_sub(self.told_at) >= CONFIRMS
    }

    /// Returns the locomotive at a moment: what the station was told may be lost.
    pub(crate) fn aged(self, now: u64) -> Cab
        ensures { result ≡ aged now self }
    {
        if self.is_due(now) {
            Cab {
                told: None,
                is_late: true,
                ..self
            }
        } else {
            self
        }
    }

    /// Returns from which moment the station has confirmed nothing, once the station is told this.
    fn silent_from(self, drive: Drive, now: u64) -> u64
        ensures { result ≡ silent_from drive now self }
    {
        match self.awaited {
            Some(told) if told.drives() == drive.drives() => self.since,
            _ => now,
        }
    }

    /// Returns the locomotive once the station is told this of it.
    pub(crate) fn told(self, drive: Drive, now: u64) -> Cab
        ensures { result ≡ told drive now self }
    {
        Cab {
            told: Some(drive),
            awaited: Some(drive),
            is_late: false,
            told_at: now,
            since: self.silent_from(drive, now),
            ..self
        }
    }

    /// Returns the locomotive once the registry is asked to set its row to this.
    pub(crate) fn asked(self, drive: Drive) -> Cab
        ensures { result ≡ asked drive self }
    {
        Cab {
            asked: Some(drive),
            ..self
        }
    }

    /// Returns the locomotive once the registry has refused to set its row to this: it rests, if that was commanded.
    pub(crate) fn refused(self, drive: Drive) -> Cab
        ensures { result ≡ refused drive self }
    {
        let is_commanded = is_value(self.command, drive);
        Cab {
            command: if is_commanded { None } else { self.command },
            asked: None,
            is_refused: true,
            ..self
        }
    }

    /// Returns the locomotive once the registry is asked to say whether it is silent.
    pub(crate) fn named(self, is_silent: bool) -> Cab
        ensures { result ≡ named is_silent self }
    {
        Cab {
            is_named: is_silent,
            ..self
        }
    }

    /// Returns the locomotive once a session with the registry has begun.
    pub(crate) fn joined(self) -> Cab
        ensures { result ≡ joined self }
    {
        Cab {
            asked: None,
            is_refused: false,
            is_named: false,
            ..self
        }
    }
}

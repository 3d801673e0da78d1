//! The power of the track.

ghost use Rattle.std.specs.Prelude.{◌≡◌};
ghost use Rattle.srcp_driver.specs.Powers.{dark, is_cut, is_power_to_put, is_to_cut, is_to_switch_on, is_told};
ghost use Rattle.srcp_driver.specs.Powers.{power_aged, power_asked, power_forgotten, power_held, power_joined};
ghost use Rattle.srcp_driver.specs.Powers.{power_reported, power_row, power_told};

use crate::changes::CONFIRMS;

/// Describes the power of the track.
#[derive(Clone, Copy, Debug, PartialEq, Eq)]
pub struct Power {
    /// Whether its row of the registry says that it is on.
    pub row: bool,
    /// Whether somebody has switched it on since the last loss, by a row or at the station.
    pub is_on: bool,
    /// The moment at which its row said last that it is on.
    pub on_at: u64,
    /// What the registry was asked to set the row to, until the row says so.
    pub asked: Option<bool>,
    /// What the station was told last, unless that may be lost, or something was lost since.
    pub told: Option<bool>,
    /// What the station was told last, until it has confirmed that.
    pub awaited: Option<bool>,
    /// Whether the station has not confirmed that in time.
    pub is_late: bool,
    /// The moment at which the station was told that.
    pub told_at: u64,
}

/// Returns the power before any event.
pub(crate) fn dark() -> Power
    ensures { result ≡ dark }
{
    Power {
        row: false,
        is_on: false,
        on_at: 0,
        asked: None,
        told: None,
        awaited: None,
        is_late: false,
        told_at: 0,
    }
}

/// Returns whether there is a value, and it is this one.
pub(crate) fn is_told(value: Option<bool>, is_on: bool) -> bool
    ensures { result ≡ is_told value is_on }
{
    match value {
        Some(last) => last == is_on,
        None => false,
    }
}

impl Power {
    /// Returns whether the station is to be told that the power is off. The station may be told so though it has not
    /// confirmed that the power is on.
    pub(crate) fn is_to_cut(self) -> bool
        ensures { result ≡ is_to_cut self }
    {
        let may_tell = match self.awaited {
            Some(is_on) => self.is_late || is_on,
            None => true,
        };
        !self.is_on && !is_told(self.told, false) && may_tell
    }

    /// Returns whether the station is to be told that the power is on.
    pub(crate) fn is_to_switch_on(self) -> bool
        ensures { result ≡ is_to_switch_on self }
    {
        let may_tell = match self.awaited {
            Some(_) => self.is_late,
            None => true,
        };
        self.is_on && !is_told(self.told, true) && may_tell
    }

    /// Returns whether the registry is to be asked to set the row.
    pub(crate) fn is_to_put(self) -> bool
        ensures { result ≡ is_power_to_put self }
    {
        self.row != self.is_on && self.asked.is_none()
    }

    /// Returns the power once its row is this. A row that answers an order of this driver is no command, nor is an old
    /// one.
    pub(crate) fn with_row(self, is_on: bool, is_old: bool, now: u64) -> Power
        ensures { result ≡ power_row is_on is_old now self }
    {
        let is_own = is_on && is_told(self.asked, true);
        Power {
            row: is_on,
            is_on: if is_own { self.is_on } else { is_on && !is_old },
            on_at: if is_on { now } else { self.on_at },
            asked: if is_told(self.asked, is_on) {
                None
            } else {
                self.asked
            },
            ..self
        }
    }

    /// Returns the power after a loss: off until somebody switches it on, which the station is told.
    pub(crate) fn held(self) -> Power
        ensures { result ≡ power_held self }
    {
        Power {
            is_on: false,
            told: None,
            ..self
        }
    }

    /// Returns the power once the station has begun anew, or is gone.
    pub(crate) fn forgotten(self) -> Power
        ensures { result ≡ power_forgotten self }
    {
        Power {
            is_on: false,
            told: None,
            awaited: None,
            is_late: false,
            ..self
        }
    }

    /// Returns whether a report that the power is on, or off, says that a hand has switched it off: the station was
    /// told last that it is on. The report may also come before the station has confirmed that.
    pub(crate) fn is_cut(self, is_on: bool) -> bool
        ensures { result ≡ is_cut is_on self }
    {
        let is_awaited = is_told(self.awaited, true);
        let is_last = self.awaited.is_none() && is_told(self.told, true);
        !is_on && (is_awaited || is_last)
    }

    /// Returns the power once the station has reported that it is on, or off: what it was told, or else, if it has
    /// confirmed what it was told, what a hand has done.
    pub(crate) fn reported(self, is_on: bool) -> Power
        ensures { result ≡ power_reported is_on self }
    {
        if self.is_cut(is_on) {
            return Power {
                is_on: false,
                told: Some(false),
                awaited: None,
                is_late: false,
                ..self
            };
        }
        match (self.awaited, self.told) {
            (Some(told), _) => {
                if told == is_on {
                    Power {
                        awaited: None,
                        is_late: false,
                        ..self
                    }
                } else {
                    self
                }
            }
            (None, Some(told)) => Power {
                is_on: if told == is_on { self.is_on } else { is_on },
                told: Some(is_on),
                ..self
            },
            (None, None) => self,
        }
    }

    /// Returns the power at a moment: what the station was told may be lost.
    pub(crate) fn aged(self, now: u64) -> Power
        ensures { result ≡ power_aged now self }
    {
        if self.awaited.is_some() && now.saturating_sub(self.told_at) >= CONFIRMS {
            Power {
                told: None,
                is_late: true,
                ..self
            }
        } else {
            self
        }
    }

    /// Returns the power once the station is told that it is on, or off.
    pub(crate) fn told(self, is_on: bool, now: u64) -> Power
        ensures { result ≡ power_told is_on now self }
    {
        Power {
            told: Some(is_on),
            awaited: Some(is_on),
            is_late: false,
            told_at: now,
            ..self
        }
    }

    /// Returns the power once the registry is asked to set its row to this.
    pub(crate) fn asked(self, is_on: bool) -> Power
        ensures { result ≡ power_asked is_on self }
    {
        Power {
            asked: Some(is_on),
            ..self
        }
    }

    /// Returns the power once a session with the registry has begun.
    pub(crate) fn joined(self) -> Power
        ensures { result ≡ power_joined self }
    {
        Power {
            asked: None,
            ..self
        }
    }
}

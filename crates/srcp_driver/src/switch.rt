//! What is on or off at the station: a function of a locomotive, or how a turnout lies.

ghost use Rattle.std.specs.Prelude.{◌≡◌};
ghost use Rattle.srcp_driver.specs.Powers.{is_told};
ghost use Rattle.srcp_driver.specs.Switches.{is_due, is_switch_to_put, is_to_tell, switch_aged, switch_asked};
ghost use Rattle.srcp_driver.specs.Switches.{switch_forgotten, switch_joined, switch_kept, switch_refused};
ghost use Rattle.srcp_driver.specs.Switches.{switch_reported};
ghost use Rattle.srcp_driver.specs.Switches.{switch_row, switch_told, unknown};

use crate::changes::CONFIRMS;
use crate::power::is_told;

/// Describes a function of a locomotive, or a turnout.
#[derive(Clone, Copy, Debug)]
pub struct Switch {
    /// What its row of the registry says.
    pub row: bool,
    /// The newest command, by a row or by a hand at the station.
    pub command: Option<bool>,
    /// What the registry was asked to set the row to, until the row says so.
    pub asked: Option<bool>,
    /// What the station was told last, unless that may be lost.
    pub told: Option<bool>,
    /// What the station was told last, until it has confirmed that.
    pub awaited: Option<bool>,
    /// Whether the station has not confirmed that in time.
    pub is_late: bool,
    /// The moment at which the station was told that.
    pub told_at: u64,
}

/// Returns what nobody has commanded.
pub(crate) fn unknown() -> Switch
    ensures { result ≡ unknown }
{
    Switch {
        row: false,
        command: None,
        asked: None,
        told: None,
        awaited: None,
        is_late: false,
        told_at: 0,
    }
}

impl Switch {
    /// Returns whether the station is to be told what is commanded.
    pub(crate) fn is_to_tell(self) -> bool
        ensures { result ≡ is_to_tell self }
    {
        let may_tell = self.awaited.is_none() || self.is_late;
        match self.command {
            Some(is_on) => !is_told(self.told, is_on) && may_tell,
            None => false,
        }
    }

    /// Returns whether the registry is to be asked to set the row.
    pub(crate) fn is_to_put(self) -> bool
        ensures { result ≡ is_switch_to_put self }
    {
        match self.command {
            Some(is_on) => self.row != is_on && self.asked.is_none(),
            None => false,
        }
    }

    /// Returns the same once its row is this. A row that answers an order of this driver is no command.
    pub(crate) fn with_row(self, is_on: bool) -> Switch
        ensures { result ≡ switch_row is_on self }
    {
        if is_told(self.asked, is_on) {
            Switch {
                row: is_on,
                asked: None,
                ..self
            }
        } else {
            Switch {
                row: is_on,
                command: Some(is_on),
                ..self
            }
        }
    }

    /// Returns the same once the station has begun anew and knows of nothing.
    pub(crate) fn forgotten(self) -> Switch
        ensures { result ≡ switch_forgotten self }
    {
        Switch {
            told: None,
            awaited: None,
            is_late: false,
            ..self
        }
    }

    /// Returns the same once the station has begun anew and kept what it has confirmed.
    pub(crate) fn kept(self) -> Switch
        ensures { result ≡ switch_kept self }
    {
        if self.awaited.is_some() {
            self.forgotten()
        } else {
            self
        }
    }

    /// Returns the same once the station has reported that it is on, or off: what it was told, or else, if it has
    /// confirmed what it was told, what a hand has done.
    pub(crate) fn reported(self, is_on: bool) -> Switch
        ensures { result ≡ switch_reported is_on self }
    {
        if self.awaited.is_some() {
            if is_told(self.awaited, is_on) {
                Switch {
                    awaited: None,
                    is_late: false,
                    ..self
                }
            } else {
                self
            }
        } else if is_told(self.told, is_on) || (self.told.is_none() && self.command.is_some()) {
            self
        } else {
            Switch {
                command: Some(is_on),
                told: Some(is_on),
                ..self
            }
        }
    }

    /// Returns whether the station had time to confirm what it was told, and has not.
    fn is_due(self, now: u64) -> bool
        ensures { result ≡ is_due now self }
    {
        self.awaited.is_some() && now.saturating_sub(self.told_at) >= CONFIRMS
    }

    /// Returns the same at a moment: what the station was told may be lost.
    pub(crate) fn aged(self, now: u64) -> Switch
        ensures { result ≡ switch_aged now self }
    {
        if self.is_due(now) {
            Switch {
                told: None,
                is_late: true,
                ..self
            }
        } else {
            self
        }
    }

    /// Returns the same once the station is told that it is on, or off. `confirms` says whether the station reports it.
    pub(crate) fn told(self, is_on: bool, confirms: bool, now: u64) -> Switch
        ensures { result ≡ switch_told is_on confirms now self }
    {
        Switch {
            told: Some(is_on),
            awaited: if confirms { Some(is_on) } else { None },
            is_late: false,
            told_at: now,
            ..self
        }
    }

    /// Returns the same once the registry is asked to set its row to this.
    pub(crate) fn asked(self, is_on: bool) -> Switch
        ensures { result ≡ switch_asked is_on self }
    {
        Switch {
            asked: Some(is_on),
            ..self
        }
    }

    /// Returns the same once the registry has refused to set its row: it is put back.
    pub(crate) fn refused(self) -> Switch
        ensures { result ≡ switch_refused self }
    {
        Switch {
            command: Some(self.row),
            asked: None,
            ..self
        }
    }

    /// Returns the same once a session with the registry has begun.
    pub(crate) fn joined(self) -> Switch
        ensures { result ≡ switch_joined self }
    {
        Switch {
            asked: None,
            ..self
        }
    }
}

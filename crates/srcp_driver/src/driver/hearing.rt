//! What each event makes of a station with its locomotives and its power.

ghost use Rattle.std.specs.Prelude.{◌≡◌};
ghost use Rattle.srcp_driver.specs.Steps.{happens, is_old};
ghost use Rattle.srcp_driver.specs.declared.event.Event.TheVariants.{Gone, Greeted, Joined, Lost, Moment, Reply, Row};
ghost use Rattle.srcp_driver.specs.declared.event.Event.TheVariants.{Said};
ghost use Rattle.srcp_driver.specs.declared.event.Event.TheVariants.{SaidPower};
ghost use Rattle.srcp_driver.specs.declared.event.Event.TheVariants as event;

use crate::cabs::{age_all, forget_all, hold_all, join_all};
use crate::drive::Drive;
use crate::driver::Driver;
use crate::event::Put;

/// Returns whether a row may be of before a loss: it is listed, or the station is not there.
fn is_old(is_listed: bool, is_here: bool) -> bool
    ensures { result ≡ is_old is_listed is_here }
{
    is_listed || !is_here
}

impl Driver {
    /// Notes the row of a locomotive.
    pub(super) fn row(&mut self, n: usize, drive: Drive, is_listed: bool)
        ensures { self.new ≡ happens self.old (Row n drive is_listed) }
    {
        let is_old = is_old(is_listed, self.is_here);
        if n < self.cabs.len() {
            let cab = self.cabs[n];
            self.cabs[n] = cab.with_row(drive, is_old);
        }
    }

    /// Notes the row of the power.
    pub(super) fn power(&mut self, is_on: bool, is_listed: bool)
        ensures { self.new ≡ happens self.old (event.Power is_on is_listed) }
    {
        let is_old = is_old(is_listed, self.is_here);
        self.power = self.power.with_row(is_on, is_old, self.clock);
    }

    /// Notes that the station has begun.
    pub(super) fn greet(&mut self)
        ensures { self.new ≡ happens self.old Greeted }
    {
        forget_all(&mut self.cabs);
        self.power = self.power.forgotten();
        self.is_here = true;
        self.stops_all = true;
    }

    /// Notes that the station is gone.
    pub(super) fn leave(&mut self)
        ensures { self.new ≡ happens self.old Gone }
    {
        forget_all(&mut self.cabs);
        self.power = self.power.forgotten();
        self.is_here = false;
    }

    /// Notes that something was lost.
    pub(super) fn lose(&mut self)
        ensures { self.new ≡ happens self.old Lost }
    {
        hold_all(&mut self.cabs);
        self.power = self.power.held();
    }

    /// Notes that all are to stop.
    pub(super) fn stop(&mut self)
        ensures { self.new ≡ happens self.old event.StopAll }
    {
        hold_all(&mut self.cabs);
        self.stops_all = true;
    }

    /// Notes what the station reports of a locomotive.
    pub(super) fn report(&mut self, n: usize, drive: Drive)
        ensures { self.new ≡ happens self.old (Said n drive) }
    {
        if self.is_here && n < self.cabs.len() {
            let cab = self.cabs[n];
            self.cabs[n] = cab.reported(drive);
        }
    }

    /// Notes what the station reports of the power. If a hand has switched it off, that is a loss.
    pub(super) fn report_power(&mut self, is_on: bool)
        ensures { self.new ≡ happens self.old (SaidPower is_on) }
    {
        if self.is_here {
            if self.power.is_cut(is_on) {
                hold_all(&mut self.cabs);
            }
            self.power = self.power.reported(is_on);
        }
    }

    /// Notes that a moment has come.
    pub(super) fn pass(&mut self, now: u64)
        ensures { self.new ≡ happens self.old (Moment now) }
    {
        age_all(&mut self.cabs, now);
        self.power = self.power.aged(now);
        self.clock = now;
        self.left = self.pace;
    }

    /// Notes that the registry has accepted or refused what it was asked.
    pub(super) fn reply(&mut self, is_accepted: bool)
        ensures { self.new ≡ happens self.old (Reply is_accepted) }
    {
        if !is_accepted {
            if let Some(Put::Cab(n, drive)) = self.waiting {
                if n < self.cabs.len() {
                    let cab = self.cabs[n];
                    self.cabs[n] = cab.refused(drive);
                }
            }
        }
        self.waiting = None;
    }

    /// Notes that a session with the registry has begun.
    pub(super) fn join(&mut self)
        ensures { self.new ≡ happens self.old Joined }
    {
        join_all(&mut self.cabs);
        self.power = self.power.joined();
        self.waiting = None;
    }
}

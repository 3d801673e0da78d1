//! All functions, or all turnouts, of a station: what each event makes of them, and which order is told next.

ghost use Rattle.std.specs.Prelude.{◌≡◌, IfOk, false};
ghost use Rattle.srcp_driver.specs.Board.{begun, board_heard, board_puts, board_start, board_step, board_tells, is_row};
ghost use Rattle.srcp_driver.specs.Board.{may_go, next_setting, setting_put, setting_to_put, setting_told};
ghost use Rattle.srcp_driver.specs.declared.settings.BoardEvent.TheVariants.{Reply};

use crate::settings::{BoardEvent, Kind, Setting, Settings};
use crate::switch::{Switch, unknown};
use crate::switches::{age_all, first_to_put, first_to_tell, forget_all, join_all, keep_all};
use std::alloc::{AllocError, Global};
use std::marker::Model;
use std::vec::Vec;

/// Tells a station of its functions, or of its turnouts, what the registry wants, and asks the registry to set what a
/// hand has done: at most one order of each after an event.
#[derive(Drop)]
pub struct Switchboard {
    switches: Vec<Switch>,
    kind: Kind,
    is_here: bool,
    waiting: Option<Setting>,
    clock: u64,
    last: Option<u64>,
}

impl Model for Switchboard {
    ghost use Rattle.srcp_driver.specs.Board.{Board};

    ghost Value = { Board };

    ghost view = { λ b. record {
      switches = b.switches.items;
      kind = b.kind;
      is_here = b.is_here;
      waiting = b.waiting;
      clock = b.clock;
      last = b.last;
    } };
}

impl Switchboard {
    /// Makes a board of a number of functions or turnouts, which waits for the station. No other call takes memory.
    ///
    /// # Errors
    /// Returns an error if memory is refused.
    pub fn new(alloc: Global, count: usize, kind: Kind) -> Result<Switchboard, AllocError>
        ensures { IfOk result (λ board. board ≡ board_start count kind) }
    {
        let switches = vec![in alloc; unknown(); count]?;
        Ok(Switchboard {
            switches,
            kind,
            is_here: false,
            waiting: None,
            clock: 0,
            last: None,
        })
    }

    /// Notes that the station has begun, or is gone.
    fn begin(&mut self)
        ensures { self.new ≡ record self.old { switches = begun self.old } }
    {
        if self.kind.is_kept {
            keep_all(&mut self.switches);
        } else {
            forget_all(&mut self.switches);
        }
    }

    /// Notes that the registry has refused what it was asked, if it was asked: the row stays, and so is the command.
    fn put_back(&mut self)
        ensures { self.new ≡ board_heard self.old (Reply false) }
    {
        if let Some(setting) = self.waiting {
            if setting.place < self.switches.len() {
                let switch = self.switches[setting.place];
                self.switches[setting.place] = switch.refused();
            }
            self.waiting = None;
        }
    }

    /// Notes an event.
    fn hear(&mut self, event: BoardEvent)
        ensures { self.new ≡ board_heard self.old event }
    {
        match event {
            BoardEvent::Row(n, is_on) => {
                if n < self.switches.len() {
                    let switch = self.switches[n];
                    self.switches[n] = switch.with_row(is_on);
                }
            }
            BoardEvent::Said(n, is_on) => {
                if self.is_here && n < self.switches.len() {
                    let switch = self.switches[n];
                    self.switches[n] = switch.reported(is_on);
                }
            }
            BoardEvent::Greeted => {
                self.begin();
                self.is_here = true;
            }
            BoardEvent::Gone => {
                self.begin();
                self.is_here = false;
            }
            BoardEvent::Moment(now) => {
                age_all(&mut self.switches, now);
                self.clock = now;
            }
            BoardEvent::Reply(is_accepted) => {
                if is_accepted {
                    self.waiting = None;
                } else {
                    self.put_back();
                }
            }
            BoardEvent::Joined => {
                join_all(&mut self.switches);
                self.waiting = None;
            }
            BoardEvent::Turn => {}
        }
    }

    /// Returns whether an order may go: the station is there, and the last one was long enough ago.
    fn may_go(&self) -> bool
        ensures { result ≡ may_go self.now }
    {
        let is_time = match self.last {
            Some(last) => self.clock.saturating_sub(last) >= self.kind.gap,
            None => true,
        };
        self.is_here && is_time
    }

    /// Returns what the station is told next, if anything.
    fn next(&self) -> Option<Setting>
        ensures { result ≡ next_setting self.now }
    {
        if self.may_go() {
            first_to_tell(&self.switches)
        } else {
            None
        }
    }

    /// Notes that the station is told something.
    fn note(&mut self, setting: Setting)
        ensures { self.new ≡ setting_told self.old setting }
    {
        if setting.place < self.switches.len() {
            let switch = self.switches[setting.place];
            self.switches[setting.place] = switch.told(
                setting.is_on,
                self.kind.confirms,
                self.clock,
            );
        }
        self.last = Some(self.clock);
    }

    /// Tells the next order, if there is one, and returns it.
    fn tell(&mut self) -> Option<Setting>
        ensures board { self.new ≡ board_tells self.old }
        ensures order { result ≡ next_setting self.old }
    {
        let order = self.next();
        if let Some(setting) = order {
            self.note(setting);
        }
        order
    }

    /// Returns what the registry is asked next, if anything.
    fn next_put(&self) -> Option<Setting>
        ensures { result ≡ setting_to_put self.now }
    {
        if self.waiting.is_some() {
            None
        } else {
            first_to_put(&self.switches)
        }
    }

    /// Notes that the registry is asked.
    fn note_put(&mut self, setting: Setting)
        ensures { self.new ≡ setting_put self.old setting }
    {
        if setting.place < self.switches.len() {
            let switch = self.switches[setting.place];
            self.switches[setting.place] = switch.asked(setting.is_on);
        }
        self.waiting = Some(setting);
    }

    /// Asks the registry what is next, if there is anything, and returns it.
    fn put(&mut self) -> Option<Setting>
        ensures board { self.new ≡ board_puts self.old }
        ensures order { result ≡ setting_to_put self.old }
    {
        let order = self.next_put();
        if let Some(setting) = order {
            self.note_put(setting);
        }
        order
    }

    /// Returns whether the row of the function or turnout at this place says that, on or off. So it does of none.
    pub fn is_row(&self, place: usize, is_on: bool) -> bool
        ensures { result ≡ is_row self.now.switches place is_on }
    {
        match self.switches.get(place) {
            Some(switch) => switch.row == is_on,
            None => true,
        }
    }

    /// Takes in an event, and returns what the station is told then, and what the registry is asked. `may_tell` says
    /// whether the station may be told anything, as it is not while a locomotive is to stop.
    pub fn step(&mut self, event: BoardEvent, may_tell: bool) -> Settings
        ensures board { self.new ≡ (board_step self.old event may_tell).board }
        ensures tell { result.tell ≡ (board_step self.old event may_tell).tell }
        ensures put { result.put ≡ (board_step self.old event may_tell).put }
    {
        self.hear(event);
        let tell = if may_tell { self.tell() } else { None };
        let put = self.put();
        Settings { tell, put }
    }
}

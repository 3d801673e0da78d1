//! The driver's desk of a station.

ghost use Rattle.std.specs.Prelude.{◌≡◌, ◌≤◌, ◌++◌, IfOk, length};
ghost use Rattle.srcp_drive.specs.Desks.{TakesIn, acted, boards, desk_of, driven, driver_drive, is_main};
ghost use Rattle.srcp_drive.specs.Desks.{longest_orders, maybe, next, one, orders_text, says, taken};

use crate::engine::{Engine, MOST_CABS, free, place_of, turn_asked};
use crate::hearing::{Heard, hear};
use crate::orders::{MOST_FUNCTIONS, function_text, put_text, sense_text, tell_text, turnout_text};
use crate::settling::settle;
use srcp_driver::{BoardEvent, Drive, Driver, Event, Kind, Orders, Speed, Switchboard};
use srcp_info::Key;
use srcp_stations::{GREATEST_TURNOUT, Report, Said, Track};
use srcp_text::{LineBuf, put_bytes};
use std::alloc::{AllocError, Global};
use std::marker::Model;
use std::vec::Vec;

/// How many orders the driver may tell the station between two moments. What paces the orders is that the caller hands
/// in `ready` for each.
const PACE: usize = 1000;

/// How many milliseconds lie between two turnouts that are thrown.
const TURNOUT_GAP: u64 = 333;

/// Drives a station by the lines handed in.
///
/// ```
/// let mut desk = DriverDesk::new(alloc, 1)?;
/// let lines = desk.step(b"panel 1.000 100 INFO 1 GL 3 1 60 126 0");
/// out.write(&lines)?; // tell <t 3 60 1>, tell <t 3>
/// ```
#[derive(Drop)]
pub struct DriverDesk {
    pub(crate) bus: u8,
    pub(crate) engines: Vec<Engine>,
    pub(crate) driver: Driver,
    pub(crate) functions: Switchboard,
    pub(crate) turnouts: Switchboard,
    pub(crate) last_row: Option<Key>,
    pub(crate) is_on: bool,
}

impl Model for DriverDesk {
    ghost use Rattle.srcp_drive.specs.Desks.{Desk};

    ghost Value = { Desk };

    ghost view = { λ d. record {
      bus = d.bus;
      engines = d.engines.items;
      driver = d.driver;
      functions = d.functions;
      turnouts = d.turnouts;
      last_row = d.last_row;
      is_on = d.is_on;
    } };
}

/// Returns a drive as the driver knows it.
fn driver_drive(drive: srcp_stations::Drive) -> Drive
    ensures { result ≡ driver_drive drive }
{
    let speed = match drive.speed {
        srcp_stations::Speed::Halt => Speed::Halt,
        srcp_stations::Speed::Stand => Speed::Stand,
        srcp_stations::Speed::Step(step) => Speed::Step(step),
    };
    Drive {
        speed,
        is_forward: drive.is_forward,
    }
}

/// Returns whether the power of a track is that of the main track.
fn is_main(track: Track) -> bool
    ensures { result ≡ is_main track }
{
    match track {
        Track::All | Track::Main | Track::Join => true,
        Track::Letter(place) => place == 0,
        Track::Prog => false,
    }
}

impl DriverDesk {
    /// Makes the desk of a bus, which waits for the station. No other call takes memory.
    ///
    /// # Errors
    /// Returns an error if memory is refused.
    pub fn new(alloc: Global, bus: u8) -> Result<DriverDesk, AllocError>
        ensures { IfOk result (λ desk. desk ≡ desk_of bus) }
    {
        let engines = vec![in alloc; free(); MOST_CABS]?;
        let driver = Driver::new(alloc, MOST_CABS, PACE)?;
        let lights = Kind {
            is_kept: false,
            confirms: false,
            gap: 0,
        };
        let functions = Switchboard::new(alloc, MOST_CABS * MOST_FUNCTIONS, lights)?;
        let thrown = Kind {
            is_kept: true,
            confirms: false,
            gap: TURNOUT_GAP,
        };
        let turnouts = Switchboard::new(alloc, GREATEST_TURNOUT as usize, thrown)?;
        Ok(DriverDesk {
            bus,
            engines,
            driver,
            functions,
            turnouts,
            last_row: None,
            is_on: false,
        })
    }

    /// Has the driver take in an event, and returns what follows for the station and the registry.
    fn ask(&mut self, event: Event) -> Orders
        ensures desk { self.new ≡ record self.old { driver = (acted self.old event).table } }
        ensures tell { result.tell ≡ (acted self.old event).tell }
        ensures put { result.put ≡ (acted self.old event).put }
    {
        let orders = self.driver.step(event);
        settle(&mut self.driver, &self.engines, MOST_CABS, orders)
    }

    /// Does the same, and notes in which direction the registry is asked to have a locomotive drive.
    fn act(&mut self, event: Event) -> Orders
        ensures desk { self.new ≡ driven self.old event }
        ensures tell { result.tell ≡ (acted self.old event).tell }
        ensures put { result.put ≡ (acted self.old event).put }
    {
        let orders = self.ask(event);
        turn_asked(&mut self.engines, orders.put);
        orders
    }

    /// Returns the lines of orders.
    fn lines_of(&self, orders: Orders) -> LineBuf
        ensures text { result.items ≡ orders_text self.now orders.tell orders.put }
        ensures few { length result.items ≤ longest_orders }
    {
        let mut line = tell_text(&self.engines, orders.tell);
        put_bytes(&put_text(self.bus, &self.engines, orders.put), &mut line);
        line
    }

    /// Has the driver take in an event, and returns the lines that follow.
    #[tactic(auto, unfolding(crate::specs::Desks::one))]
    pub(crate) fn drive(&mut self, event: Event) -> LineBuf
        ensures desk { self.new ≡ (one self.old event).desk }
        ensures text { result.items ≡ (one self.old event).text }
        ensures few { length result.items ≤ longest_orders }
    {
        let orders = self.act(event);
        self.lines_of(orders)
    }

    /// Has the driver take in an event if there is one, and returns the lines that follow.
    #[tactic(auto, unfolding(crate::specs::Desks::maybe))]
    pub(crate) fn drive_maybe(&mut self, event: Option<Event>) -> LineBuf
        ensures desk { self.new ≡ (maybe self.old event).desk }
        ensures text { result.items ≡ (maybe self.old event).text }
        ensures few { length result.items ≤ longest_orders }
    {
        match event {
            Some(event) => self.drive(event),
            None => LineBuf::new(),
        }
    }

    /// Has the driver take in an event if there is one, and returns the lines that follow behind others.
    pub(crate) fn drive_also(&mut self, mut lines: LineBuf, event: Option<Event>) -> LineBuf
        requires { length lines.items ≤ longest_orders }
        ensures desk { self.new ≡ (maybe self.old event).desk }
        ensures text { result.items ≡ lines.items ++ (maybe self.old event).text }
    {
        put_bytes(&self.drive_maybe(event), &mut lines);
        lines
    }

    /// Has functions and turnouts take in an event. Nothing is told.
    #[tactic(auto, unfolding(crate::specs::Desks::boards))]
    fn tell_boards(&mut self, event: BoardEvent)
        ensures { self.new ≡ boards self.old event }
    {
        self.functions.step(event, false);
        self.turnouts.step(event, false);
    }

    /// Takes in that the station takes one thing more: an order of the driver, or else a function, or else a turnout.
    #[tactic(auto, unfolding(crate::specs::Desks::next))]
    fn next(&mut self) -> LineBuf
        ensures desk { self.new ≡ (next self.old).desk }
        ensures text { result.items ≡ (next self.old).text }
    {
        let orders = self.act(Event::Ready);
        let is_quiet = orders.tell.is_none();
        let function = self.functions.step(BoardEvent::Turn, is_quiet).tell;
        let is_quiet = is_quiet && function.is_none();
        let turnout = self.turnouts.step(BoardEvent::Turn, is_quiet).tell;
        let mut lines = self.lines_of(orders);
        put_bytes(&function_text(&self.engines, function), &mut lines);
        put_bytes(&turnout_text(turnout), &mut lines);
        lines
    }

    /// Takes in what the station reports of a locomotive. One that the station does not keep is not reported.
    #[tactic(auto, unfolding(crate::specs::Desks::says))]
    fn report(&mut self, report: Report) -> LineBuf
        ensures desk { self.new ≡ (says self.old (Said.Locomotive report)).desk }
        ensures text { result.items ≡ (says self.old (Said.Locomotive report)).text }
    {
        if report.slot.is_none() {
            return LineBuf::new();
        }
        match place_of(&self.engines, report.cab) {
            Some(n) => self.drive(Event::Said(n, driver_drive(report.drive))),
            None => LineBuf::new(),
        }
    }

    /// Takes in what the station says.
    #[tactic(auto, unfolding(crate::specs::Desks::says))]
    fn hear_station(&mut self, said: Said) -> LineBuf
        ensures desk { self.new ≡ (says self.old said).desk }
        ensures text { result.items ≡ (says self.old said).text }
    {
        match said {
            Said::Banner => {
                self.tell_boards(BoardEvent::Greeted);
                self.drive(Event::Greeted)
            }
            Said::Overload => self.drive(Event::Lost),
            Said::Sensor(number, is_on) => sense_text(self.bus, number, is_on),
            Said::Power(track, is_on) if is_main(track) => self.drive(Event::SaidPower(is_on)),
            Said::Locomotive(report) => self.report(report),
            _ => LineBuf::new(),
        }
    }

    /// Takes in what a line told, and returns the lines that follow.
    #[tactic(auto, unfolding(crate::specs::Desks::taken))]
    fn take(&mut self, heard: Heard) -> LineBuf
        ensures desk { self.new ≡ (taken self.old heard).desk }
        ensures text { result.items ≡ (taken self.old heard).text }
    {
        match heard {
            Heard::Changed(change) => self.change(change),
            Heard::Lists => {
                self.last_row = None;
                LineBuf::new()
            }
            Heard::Joined => self.drive(Event::Joined),
            Heard::Replied(is_accepted) => self.drive(Event::Reply(is_accepted)),
            Heard::Says(said) => self.hear_station(said),
            Heard::Gone => {
                self.tell_boards(BoardEvent::Gone);
                self.drive(Event::Gone)
            }
            Heard::Away => self.drive(Event::Lost),
            Heard::Moment(now) => {
                self.tell_boards(BoardEvent::Moment(now));
                self.drive(Event::Moment(now))
            }
            Heard::Ready => self.next(),
        }
    }

    /// Takes in a line, without its LF, and returns the lines that follow, each with its LF. A line that tells of
    /// nothing changes nothing, and no line follows.
    pub fn step(&mut self, line: &[u8]) -> LineBuf
        ensures { TakesIn self.old line.now self.new result.items }
    {
        match hear(line) {
            Some(heard) => self.take(heard),
            None => LineBuf::new(),
        }
    }
}

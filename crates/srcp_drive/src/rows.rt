//! What the rows of the registry make of a desk.

ghost use Rattle.std.specs.Prelude.{◌≡◌, ◌<◌, ◌≤◌, ◌+◌, ◌^◌, length};
ghost use Rattle.srcp_drive.specs.Desks.{cab_does, cab_row, changed, function_heard, functions_heard, gone, is_gl};
ghost use Rattle.srcp_drive.specs.Desks.{is_listed, is_only_told, is_stop_all, left_over, power_event, power_row};
ghost use Rattle.srcp_drive.specs.Desks.{row_noted, row_taken, turnout_row};
ghost use Rattle.srcp_drive.specs.Engines.{most_cabs};
ghost use Rattle.srcp_info.specs.Limits.{most_functions};

use crate::desk::DriverDesk;
use crate::engine::{Engine, State, drive_at, make, place_of, turn};
use crate::orders::MOST_FUNCTIONS;
use srcp_driver::{BoardEvent, Drive, Event, Speed, Switchboard};
use srcp_info::{Change, Group, Key, Value};
use srcp_text::LineBuf;

/// Returns whether a row is listed, if the row of a key was the last that was listed: the rows of a listing come in
/// their order, and no other row comes before its turn in the listing.
fn is_listed(last: Option<Key>, key: Key) -> bool
    ensures { result ≡ is_listed last key }
{
    match last {
        Some(last) => key.is_after(&last),
        None => true,
    }
}

/// Returns whether a text of the power is STOP ALL.
fn is_stop_all(text: &[u8]) -> bool
    ensures { result ≡ is_stop_all text.now }
{
    text == b"stop all".as_slice()
}

/// Returns whether the text of a row of power that is on is there to be read alone, and switches nothing on.
fn is_only_told(text: &[u8]) -> bool
    ensures { result ≡ is_only_told text.now }
{
    is_stop_all(text)
        || text == b"all stood".as_slice()
        || text == b"confirms again".as_slice()
        || text.starts_with(b"does not confirm:")
        || text.starts_with(b"thrown by hand:")
}

/// Returns what a row of the power tells the driver of the power. A text that is told alone tells nothing if the power
/// was on, and switches nothing on if it was off.
fn power_event(is_listed: bool, was_on: bool, is_on: bool, is_only_told: bool) -> Option<Event>
    ensures { result ≡ power_event is_listed was_on is_on is_only_told }
{
    if is_on && is_only_told {
        if was_on {
            None
        } else {
            Some(Event::Power {
                is_on: true,
                is_listed: true,
            })
        }
    } else {
        Some(Event::Power { is_on, is_listed })
    }
}

/// Has a board take in the row of a function. A row that says what the board has changes nothing.
#[tactic(auto, unfolding(crate::specs::Desks::function_heard))]
fn hear_function(board: &mut Switchboard, place: usize, is_on: bool)
    ensures { board.new ≡ function_heard board.old place is_on }
{
    if !board.is_row(place, is_on) {
        board.step(BoardEvent::Row(place, is_on), false);
    }
}

/// Has a board take in the rows of functions, from that of a place on.
fn hear_functions(board: &mut Switchboard, first: usize, bits: &[bool])
    requires { first + length bits.now < 2 ^ 32 }
    ensures { board.new ≡ functions_heard board.old first bits.now }
{
    let mut place = first;
    for on in bits {
        hear_function(board, place, *on);
        place += 1;
    }
}

/// Returns whether the group is that of locomotives.
fn is_gl(group: Group) -> bool
    ensures { result ≡ is_gl group }
{
    matches!(group, Group::Gl)
}

/// Notes that the locomotive at a place is not driven any more.
fn leave(engines: &mut [Engine], n: usize)
    ensures { engines.new ≡ left_over engines.old n }
{
    if n < engines.len() {
        let engine = engines[n];
        engines[n] = Engine { steps: 0, ..engine };
    }
}

impl DriverDesk {
    /// Takes in what the row of the locomotive at a place has it do.
    #[tactic(auto, unfolding(crate::specs::Desks::cab_does))]
    fn cab_does(&mut self, n: usize, drive: Drive, is_listed: bool, functions: &[bool]) -> LineBuf
        requires place { n < most_cabs }
        requires few { length functions.now ≤ most_functions }
        ensures desk { self.new ≡ (cab_does self.old n drive is_listed functions.now).desk }
        ensures text { result.items ≡ (cab_does self.old n drive is_listed functions.now).text }
    {
        turn(&mut self.engines, n, drive);
        hear_functions(&mut self.functions, n * MOST_FUNCTIONS, functions);
        self.drive(Event::Row {
            cab: n,
            drive,
            is_listed,
        })
    }

    /// Takes in the row of a locomotive, if the locomotive is driven.
    #[tactic(auto, unfolding(crate::specs::Desks::cab_row))]
    fn cab_row(
        &mut self,
        address: u32,
        is_listed: bool,
        state: State,
        functions: &[bool],
    ) -> LineBuf
        requires { length functions.now ≤ most_functions }
        ensures desk { self.new ≡ (cab_row self.old address is_listed state functions.now).desk }
        ensures text { result.items ≡ (cab_row self.old address is_listed state functions.now).text }
    {
        match place_of(&self.engines, address) {
            Some(n) => match drive_at(&self.engines, n, state) {
                Some(drive) => self.cab_does(n, drive, is_listed, functions),
                None => LineBuf::new(),
            },
            None => LineBuf::new(),
        }
    }

    /// Takes in the row of the power: all stop first, if the text says that.
    #[tactic(auto, unfolding(crate::specs::Desks::power_row))]
    fn power_row(&mut self, is_listed: bool, is_on: bool, text: &[u8]) -> LineBuf
        ensures desk { self.new ≡ (power_row self.old is_listed is_on text.now).desk }
        ensures text { result.items ≡ (power_row self.old is_listed is_on text.now).text }
    {
        let event = power_event(is_listed, self.is_on, is_on, is_only_told(text));
        self.is_on = is_on;
        if is_stop_all(text) {
            let lines = self.drive(Event::StopAll);
            self.drive_also(lines, event)
        } else {
            self.drive_maybe(event)
        }
    }

    /// Takes in the row of a port of an accessory: the port that was put on last says how a turnout lies.
    #[tactic(auto, unfolding(crate::specs::Desks::turnout_row))]
    fn turnout_row(&mut self, key: Key, is_on: bool)
        ensures { self.new ≡ turnout_row self.old key is_on }
    {
        if is_on && 1 <= key.address {
            let place = (key.address - 1) as usize;
            self.turnouts
                .step(BoardEvent::Row(place, 1 < key.port), false);
        }
    }

    /// Takes in a row of this bus.
    #[tactic(auto, unfolding(crate::specs::Desks::row_taken))]
    fn row(&mut self, key: Key, is_listed: bool, value: Value) -> LineBuf
        ensures desk { self.new ≡ (row_taken self.old key is_listed value).desk }
        ensures text { result.items ≡ (row_taken self.old key is_listed value).text }
    {
        match value {
            Value::GlInit { letter, steps, .. } => {
                make(&mut self.engines, key.address, letter, steps);
                LineBuf::new()
            }
            Value::GlState {
                mode,
                v,
                vmax,
                functions,
            } => {
                let _few = functions.len();
                let state = State { mode, v, vmax };
                self.cab_row(key.address, is_listed, state, functions.as_slice())
            }
            Value::Power { on, text } => self.power_row(is_listed, on, text.as_bytes()),
            Value::GaPort { on } => {
                self.turnout_row(key, on);
                LineBuf::new()
            }
            _ => LineBuf::new(),
        }
    }

    /// Takes in that a locomotive is gone from the registry: it stands.
    #[tactic(auto, unfolding(crate::specs::Desks::gone))]
    fn gone(&mut self, address: u32) -> LineBuf
        ensures desk { self.new ≡ (gone self.old address).desk }
        ensures text { result.items ≡ (gone self.old address).text }
    {
        match place_of(&self.engines, address) {
            Some(n) => {
                leave(&mut self.engines, n);
                let drive = Drive {
                    speed: Speed::Stand,
                    is_forward: true,
                };
                self.drive(Event::Row {
                    cab: n,
                    drive,
                    is_listed: false,
                })
            }
            None => LineBuf::new(),
        }
    }

    /// Notes that a row was listed last, if it was, and takes it in if it is of this bus.
    #[tactic(auto, unfolding(crate::specs::Desks::row_noted))]
    fn note_row(&mut self, key: Key, is_listed: bool, value: Value) -> LineBuf
        ensures desk { self.new ≡ (row_noted self.old key is_listed value).desk }
        ensures text { result.items ≡ (row_noted self.old key is_listed value).text }
    {
        if is_listed {
            self.last_row = Some(key);
        }
        if key.bus == self.bus {
            self.row(key, is_listed, value)
        } else {
            LineBuf::new()
        }
    }

    /// Takes in a change.
    #[tactic(auto, unfolding(crate::specs::Desks::changed))]
    pub(crate) fn change(&mut self, change: Change) -> LineBuf
        ensures desk { self.new ≡ (changed self.old change).desk }
        ensures text { result.items ≡ (changed self.old change).text }
    {
        match change {
            Change::Put(shown) => {
                let is_listed = is_listed(self.last_row, shown.key);
                self.note_row(shown.key, is_listed, shown.value)
            }
            Change::Gone { device, .. } => {
                if device.bus == self.bus && is_gl(device.group) {
                    self.gone(device.address)
                } else {
                    LineBuf::new()
                }
            }
        }
    }
}

//! Lines, taken as events.

ghost use Rattle.std.specs.Prelude.{◌≡◌};
ghost use Rattle.srcp_interlock.specs.Hearing.{is_go, is_refusal, coded_event, reply_event, port_event, place_of};
ghost use Rattle.srcp_interlock.specs.Hearing.{occupancy_of, row_event, change_event, Hears, named_sensor};
ghost use Rattle.srcp_interlock.specs.Hearing.{second_event, unknown_event, words_event};
ghost use Rattle.srcp_text.specs.Words.{words_of};

use srcp_info::{Change, GREATEST_BUS, Key, Value, read_change};
use srcp_routes::{Device, Event, Occupancy};
use srcp_text::{Words, read_number, words};

/// Returns whether these words of a reply, behind the code, say that a command session begins.
fn is_go(mut words: Words<'_>) -> bool
    ensures { result ≡ is_go words.entry }
{
    let Some(_ok) = words.next() else {
        return false;
    };
    let Some(go) = words.next() else {
        return false;
    };
    words.next().is_some() && words.next().is_none() && go == b"GO".as_slice()
}

/// Returns whether a code is from 400 to 599.
fn is_refusal(code: &[u8]) -> bool
    ensures { result ≡ is_refusal code.now }
{
    match code.first() {
        Some(digit) => *digit == b'4' || *digit == b'5',
        None => false,
    }
}

/// Returns the event of a reply with this code and the words behind, if any.
fn coded_event(code: &[u8], more: Words<'_>) -> Option<Event>
    ensures { result ≡ coded_event code.now more.entry }
{
    if code == b"200".as_slice() {
        return Some(if is_go(more) {
            Event::Lost
        } else {
            Event::Reply(true)
        });
    }
    if is_refusal(code) {
        Some(Event::Reply(false))
    } else {
        None
    }
}

/// Returns the event of a line as a reply, if any.
fn reply_event(line: &[u8]) -> Option<Event>
    ensures { result ≡ reply_event (words_of line.now) }
{
    let mut words = words(line);
    let _stamp = words.next()?;
    let code = words.next()?;
    coded_event(code, words)
}

/// Returns the sensor that the words of a bus and of an address name, if any.
fn named_sensor(bus: &[u8], address: &[u8]) -> Option<Device>
    ensures { result ≡ named_sensor bus.now address.now }
{
    let bus = read_number(bus, u32::MAX)?;
    let address = read_number(address, u32::MAX)?;
    if bus > u32::from(GREATEST_BUS) {
        return None;
    }
    Some(Device {
        bus: bus as u8,
        address,
    })
}

/// Returns the event of a line that tells that a sensor is not known any more, if the line does. No panel is sent
/// such a line, since no sensor goes: who hands lines to the box may write one.
fn unknown_event(line: &[u8]) -> Option<Event>
    ensures { result ≡ unknown_event (words_of line.now) }
{
    let mut words = words(line);
    let _stamp = words.next()?;
    let code = words.next()?;
    let _info = words.next()?;
    let bus = words.next()?;
    let group = words.next()?;
    let address = words.next()?;
    if words.next().is_some() || code != b"102".as_slice() || group != b"FB".as_slice() {
        return None;
    }
    let sensor = named_sensor(bus, address)?;
    Some(Event::Told(sensor, Occupancy::Unknown))
}

/// Returns the event of a line that tells that a second has passed, if the line does. No panel is sent such a line: who
/// hands lines to the box writes one each second.
fn second_event(line: &[u8]) -> Option<Event>
    ensures { result ≡ second_event (words_of line.now) }
{
    let mut words = words(line);
    let _stamp = words.next()?;
    let code = words.next()?;
    let _info = words.next()?;
    let _bus = words.next()?;
    let group = words.next()?;
    if words.next().is_some() || code != b"100".as_slice() || group != b"TIME".as_slice() {
        return None;
    }
    Some(Event::Second)
}

/// Returns the event of a line by its words, if any: that of a reply, of a sensor that is not known any more, or of a
/// second that has passed.
fn words_event(line: &[u8]) -> Option<Event>
    ensures { result ≡ words_event (words_of line.now) }
{
    let replied = reply_event(line);
    if replied.is_some() {
        return replied;
    }
    let unknown = unknown_event(line);
    if unknown.is_some() {
        return unknown;
    }
    second_event(line)
}

/// Returns what a port with the value 1 says of the route at a place, if anything. `row` is the port's number plus 1.
fn port_event(row: u8, place: usize) -> Option<Event>
    ensures { result ≡ port_event row place }
{
    match row {
        2 => Some(Event::Ask(place)),
        1 => Some(Event::Give(place)),
        _ => None,
    }
}

/// Returns the place of the route with this number, if any.
fn place_of(numbers: &[u32], number: u32) -> Option<usize>
    ensures { result ≡ place_of numbers.now number }
{
    numbers.iter().position(|other| *other == number)
}

/// Returns what a sensor is known to be that is on or off.
fn occupancy_of(on: bool) -> Occupancy
    ensures { result ≡ occupancy_of on }
{
    if on {
        Occupancy::Occupied
    } else {
        Occupancy::Free
    }
}

/// Returns the event of a row with this key and value, if any.
fn row_event(own: u8, numbers: &[u32], key: Key, value: Value) -> Option<Event>
    ensures { result ≡ row_event own numbers.now key value }
{
    match value {
        Value::GaPort { on } if on && key.bus == own => {
            let place = place_of(numbers, key.address)?;
            port_event(key.port, place)
        }
        Value::Fb { on } => {
            let sensor = Device {
                bus: key.bus,
                address: key.address,
            };
            Some(Event::Told(sensor, occupancy_of(on)))
        }
        _ => None,
    }
}

/// Returns the event of a change, if any.
fn change_event(own: u8, numbers: &[u32], change: Change) -> Option<Event>
    ensures { result ≡ change_event own numbers.now change }
{
    match change {
        Change::Put(shown) => row_event(own, numbers, shown.key, shown.value),
        Change::Gone { .. } => None,
    }
}

/// Returns the event of a line, by its words or as a change, if any.
pub(crate) fn hear(own: u8, numbers: &[u32], line: &[u8]) -> Option<Event>
    ensures { Hears own numbers.now line.now result }
{
    let told = words_event(line);
    if told.is_some() {
        return told;
    }
    match read_change(line) {
        Some(change) => change_event(own, numbers, change),
        None => None,
    }
}

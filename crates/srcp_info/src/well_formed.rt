//! Rows and changes that have a line.

ghost use Rattle.std.specs.Prelude.{◌≡◌, ◌≤◌, ◌↔◌, IsTrue};
ghost use Rattle.std.specs.List.{list_all, slice_split};
ghost use Rattle.srcp_info.specs.WellFormed.{IsBetween, IsAddress, IsSpeed, IsValueAt, IsWellFormed, is_lock};
ghost use Rattle.srcp_info.specs.WellFormed.{is_space, is_text, is_text_byte, is_text_word};

use crate::change::Change;
use crate::key::Group;
use crate::limits::{
    GREATEST_BUS, GREATEST_FB, GREATEST_GA, GREATEST_GL, GREATEST_SPEED, GREATEST_VERSION,
    MOST_FUNCTIONS, MOST_PORTS, MOST_SECONDS, MOST_STEPS,
};
use crate::value::{Bits, DriveMode, Text, Value};

/// Returns whether a byte can stand in a word of a text: control bytes, space and DEL cannot.
fn is_text_byte(byte: u8) -> bool
    ensures { result ≡ is_text_byte byte }
{
    byte > b' ' && byte != 127
}

fn are_text_bytes(bytes: &[u8]) -> bool
    ensures { result ≡ list_all is_text_byte bytes.now }
{
    bytes.iter().all(|byte| is_text_byte(*byte))
}

/// Returns whether a word can stand in a text: at least 1 byte, each of which can stand in a word.
fn is_text_word(word: &[u8]) -> bool
    ensures { result ≡ is_text_word word.now }
{
    !word.is_empty() && are_text_bytes(word)
}

fn is_space(byte: u8) -> bool
    ensures { result ≡ is_space byte }
{
    byte == b' '
}

/// Returns whether each space of a text stands between two words.
fn are_text_words(text: &[u8]) -> bool
    ensures { result ≡ list_all is_text_word (slice_split is_space text.now) }
{
    text.split(|byte| is_space(*byte))
        .all(|word| is_text_word(word))
}

/// Returns whether a power row can show the text. Such a text has at most 80 bytes, no control bytes and no DEL. Each
/// space stands between two words.
pub fn is_text(text: &[u8]) -> bool
    ensures { result ≡ is_text text.now }
{
    text.len() <= Text::CAPACITY && (text.is_empty() || are_text_words(text))
}

fn is_between(low: u32, high: u32, number: u32) -> bool
    ensures { IsTrue result ↔ IsBetween low high number }
{
    low <= number && number <= high
}

/// Returns whether the group has a device of this address on this bus.
fn is_address(group: Group, bus: u8, address: u32) -> bool
    ensures { IsTrue result ↔ IsAddress group bus address }
{
    let on_bus = is_between(1, u32::from(GREATEST_BUS), u32::from(bus));
    match group {
        Group::Session => bus == 0 && address >= 1,
        Group::Power => on_bus && address == 0,
        Group::Gl | Group::LockGl => on_bus && is_between(1, GREATEST_GL, address),
        Group::Ga | Group::LockGa => on_bus && is_between(1, GREATEST_GA, address),
        Group::Fb => on_bus && is_between(1, GREATEST_FB, address),
    }
}

/// Returns whether the devices of the group are locks.
fn is_lock(group: Group) -> bool
    ensures { result ≡ is_lock group }
{
    match group {
        Group::LockGl | Group::LockGa => true,
        Group::Session | Group::Power | Group::Gl | Group::Ga | Group::Fb => false,
    }
}

/// Returns whether a locomotive can have this speed. No speed is above the greatest, unless the greatest is 0. The
/// speed of an emergency stop is 0.
fn is_speed(mode: u32, v: u32, vmax: u32) -> bool
    ensures { IsTrue result ↔ IsSpeed mode v vmax }
{
    mode <= DriveMode::EmergencyStop as u32
        && v <= GREATEST_SPEED
        && vmax <= GREATEST_SPEED
        && (v <= vmax || vmax == 0)
        && (mode != DriveMode::EmergencyStop as u32 || v == 0)
}

/// Returns whether the row at this group and port can have the value.
fn is_value_at(group: Group, port: u8, value: &Value) -> bool
    ensures { IsTrue result ↔ IsValueAt group port value.now }
{
    match value {
        Value::Session { .. } => group == Group::Session && port == 0,
        Value::Power { text, .. } => {
            group == Group::Power && port == 0 && is_text(text.as_bytes())
        }
        Value::GlInit {
            version,
            steps,
            functions,
            ..
        } => {
            group == Group::Gl
                && port == 0
                && *version <= GREATEST_VERSION
                && is_between(1, MOST_STEPS, *steps)
                && *functions <= MOST_FUNCTIONS
        }
        Value::GlState {
            mode,
            v,
            vmax,
            functions,
        } => {
            group == Group::Gl
                && port == 1
                && is_speed(*mode, *v, *vmax)
                && functions.len() <= Bits::CAPACITY
        }
        Value::GaInit { .. } => group == Group::Ga && port == 0,
        Value::GaPort { .. } => group == Group::Ga && is_between(1, MOST_PORTS, u32::from(port)),
        Value::Fb { .. } => group == Group::Fb && port == 0,
        Value::Lock { seconds, session } => {
            is_lock(group) && port == 0 && *seconds <= MOST_SECONDS && *session >= 1
        }
    }
}

/// Returns whether the change has a line. Its numbers are in the ranges of their group then, and the row at its key can
/// have its value.
pub(crate) fn is_well_formed(change: Change) -> bool
    ensures { IsTrue result ↔ IsWellFormed change }
{
    match change {
        Change::Put(shown) => {
            let key = shown.key;
            is_address(key.group, key.bus, key.address)
                && is_value_at(key.group, key.port, &shown.value)
        }
        Change::Gone { device, .. } => {
            is_address(device.group, device.bus, device.address) && device.group.can_go()
        }
    }
}

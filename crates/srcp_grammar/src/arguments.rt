//! The words behind the group, by what each command asks for.

ghost use Rattle.std.specs.Prelude.{◌≡◌, ℕ, Ok, Err, MatchResult, ◌<◌, ◌+◌, List, [], ◌∷◌, MatchOption, length, nat_lt};
ghost use Rattle.std.specs.Prelude.{if◌then◌else◌};
ghost use Rattle.srcp_grammar.specs.declared.command.Command.{Command};
ghost use Rattle.srcp_grammar.specs.declared.command.Command.TheVariants.{GetSession};
ghost use Rattle.srcp_grammar.specs.Layout.{address_max};
ghost use Rattle.srcp_grammar.specs.Grammar.{driven, ga_port, get_ga, init_ga, init_gl, one_number};
ghost use Rattle.srcp_grammar.specs.Grammar.{named_lock, powered, sensed, switched, term_session, timed_lock, bit_of};
ghost use Rattle.srcp_grammar.specs.Grammar.{bits_of};
ghost use Rattle.srcp_info.specs.declared.change.Code.TheVariants.{C418 as TooLong};
ghost use Rattle.srcp_info.specs.Limits.{greatest_id};

use crate::command::{
    Command, DeviceGroup, Drive, NewGa, NewGl, PowerSwitch, Sensor, Switch, Target, TimedLock,
};
use crate::layout::Bus;
use crate::power_text::parse_text;
use crate::single_words::{
    next_word, no_more, parse_bit, parse_device_group, parse_letter, parse_number, parse_on_off,
    parse_time,
};
use srcp_info::{
    Bits, Code, DriveMode, GREATEST_ID, GREATEST_SPEED, GREATEST_VERSION, Letter, MOST_FUNCTIONS,
    MOST_SECONDS, MOST_STEPS,
};
use srcp_text::{Words, is_keyword};

/// The speed steps of a decoder of protocol P, if the command names none.
const DEFAULT_STEPS: u32 = 28;

/// The functions of a locomotive with such a decoder, if the command names none.
const DEFAULT_FUNCTIONS: u32 = 5;

/// Reads an address and nothing else.
pub(crate) fn parse_address(most: u32, mut words: Words<'_>) -> Result<u32, Code>
    ensures { (make : ℕ → Command)
        → MatchResult result (λ address. one_number 1 most make words.entry ≡ Ok (make address))
        (λ code. one_number 1 most make words.entry ≡ Err code) }
{
    let word = next_word(&mut words)?;
    no_more(words)?;
    parse_number(1, most, word)
}

pub(crate) fn parse_get_session(mut words: Words<'_>) -> Result<Command, Code>
    ensures { result ≡ one_number 0 greatest_id GetSession words.entry }
{
    let word = next_word(&mut words)?;
    no_more(words)?;
    Ok(Command::GetSession {
        session: parse_number(0, GREATEST_ID, word)?,
    })
}

pub(crate) fn parse_term_session(mut words: Words<'_>) -> Result<Command, Code>
    ensures { result ≡ term_session words.entry }
{
    let Some(word) = words.next() else {
        return Ok(Command::TermSession { session: None });
    };
    no_more(words)?;
    Ok(Command::TermSession {
        session: Some(parse_number(0, GREATEST_ID, word)?),
    })
}

/// Reads an accessory's port, from 0 on.
fn parse_port(bus: &Bus, word: &[u8]) -> Result<u8, Code>
    ensures { result ≡ ga_port bus.now word.now }
{
    let port = parse_number(0, u32::from(bus.ga_ports.saturating_sub(1)), word)?;
    Ok(port as u8)
}

pub(crate) fn parse_get_ga(bus: &Bus, mut words: Words<'_>) -> Result<Command, Code>
    ensures { result ≡ get_ga bus.now words.entry }
{
    let first = next_word(&mut words)?;
    let second = next_word(&mut words)?;
    no_more(words)?;
    let address = parse_number(1, bus.ga_max, first)?;
    let port = parse_port(bus, second)?;
    Ok(Command::GetGa {
        bus: bus.number,
        address,
        port,
    })
}

/// Reads address, port, value and time.
pub(crate) fn parse_switch(bus: &Bus, mut words: Words<'_>) -> Result<Switch, Code>
    ensures { result ≡ switched bus.now words.entry }
{
    let first = next_word(&mut words)?;
    let second = next_word(&mut words)?;
    let third = next_word(&mut words)?;
    let fourth = next_word(&mut words)?;
    // The words are counted before any is read, so 418 comes before 412.
    no_more(words)?;
    Ok(Switch {
        bus: bus.number,
        address: parse_number(1, bus.ga_max, first)?,
        port: parse_port(bus, second)?,
        on: parse_bit(third)?,
        time: parse_time(fourth)?,
    })
}

/// Reads address and letter. Any words may follow.
pub(crate) fn parse_init_ga(bus: &Bus, mut words: Words<'_>) -> Result<NewGa, Code>
    ensures { result ≡ init_ga bus.now words.entry }
{
    let first = next_word(&mut words)?;
    let second = next_word(&mut words)?;
    Ok(NewGa {
        bus: bus.number,
        address: parse_number(1, bus.ga_max, first)?,
        letter: parse_letter(second)?,
        ports: bus.ga_ports,
    })
}

/// Reads port and value.
pub(crate) fn parse_sensor(bus: &Bus, mut words: Words<'_>) -> Result<Sensor, Code>
    ensures { result ≡ sensed bus.now words.entry }
{
    let first = next_word(&mut words)?;
    let second = next_word(&mut words)?;
    no_more(words)?;
    Ok(Sensor {
        bus: bus.number,
        port: parse_number(1, bus.fb_ports, first)?,
        on: parse_bit(second)?,
    })
}

/// Returns the greatest address of the bus's locomotives or accessories.
fn address_max(bus: &Bus, group: DeviceGroup) -> u32
    ensures { result ≡ address_max bus.now group }
{
    match group {
        DeviceGroup::Gl => bus.gl_max,
        DeviceGroup::Ga => bus.ga_max,
    }
}

/// Reads group and address.
pub(crate) fn parse_lock(bus: &Bus, mut words: Words<'_>) -> Result<Target, Code>
    ensures { result ≡ named_lock bus.now words.entry }
{
    let first = next_word(&mut words)?;
    let second = next_word(&mut words)?;
    no_more(words)?;
    let group = parse_device_group(bus, first)?;
    Ok(Target {
        bus: bus.number,
        group,
        address: parse_number(1, address_max(bus, group), second)?,
    })
}

/// Reads group, address and seconds.
pub(crate) fn parse_timed_lock(bus: &Bus, mut words: Words<'_>) -> Result<TimedLock, Code>
    ensures { result ≡ timed_lock bus.now words.entry }
{
    let first = next_word(&mut words)?;
    let second = next_word(&mut words)?;
    let third = next_word(&mut words)?;
    no_more(words)?;
    let group = parse_device_group(bus, first)?;
    let target = Target {
        bus: bus.number,
        group,
        address: parse_number(1, address_max(bus, group), second)?,
    };
    Ok(TimedLock {
        target,
        seconds: parse_number(0, MOST_SECONDS, third)?,
    })
}

/// Reads address, letter, version, steps and number of functions. P alone is short for P 1 28 5.
pub(crate) fn parse_init_gl(bus: &Bus, mut words: Words<'_>) -> Result<NewGl, Code>
    ensures { result ≡ init_gl bus.now words.entry }
{
    let first = next_word(&mut words)?;
    let second = next_word(&mut words)?;
    let Some(third) = words.next() else {
        if !is_keyword(b"P", second) {
            return Err(Code::TOO_SHORT);
        }
        return Ok(NewGl {
            bus: bus.number,
            address: parse_number(1, bus.gl_max, first)?,
            letter: Letter::P,
            version: 1,
            steps: DEFAULT_STEPS,
            functions: DEFAULT_FUNCTIONS,
        });
    };
    let fourth = next_word(&mut words)?;
    let fifth = next_word(&mut words)?;
    no_more(words)?;
    Ok(NewGl {
        bus: bus.number,
        address: parse_number(1, bus.gl_max, first)?,
        letter: parse_letter(second)?,
        version: parse_number(0, GREATEST_VERSION, third)?,
        steps: parse_number(1, MOST_STEPS, fourth)?,
        functions: parse_number(0, MOST_FUNCTIONS, fifth)?,
    })
}

/// Reads ON or OFF, then the words of the text.
pub(crate) fn parse_power(bus: &Bus, mut words: Words<'_>) -> Result<PowerSwitch, Code>
    ensures { result ≡ powered bus.now words.entry }
{
    let first = next_word(&mut words)?;
    Ok(PowerSwitch {
        bus: bus.number,
        on: parse_on_off(first)?,
        text: parse_text(words)?,
    })
}

/// Reads address, mode, V, Vmax, and at most 29 functions.
#[inline(always)]
pub(crate) fn parse_drive(bus: &Bus, mut words: Words<'_>) -> Result<Drive, Code>
    ensures { result ≡ driven bus.now words.entry }
{
    let first = next_word(&mut words)?;
    let second = next_word(&mut words)?;
    let third = next_word(&mut words)?;
    let fourth = next_word(&mut words)?;
    let functions = parse_functions(words)?;
    let address = parse_number(1, bus.gl_max, first)?;
    let mode = parse_number(0, DriveMode::EmergencyStop as u32, second)?;
    let v = parse_number(0, GREATEST_SPEED, third)?;
    let vmax = parse_number(0, GREATEST_SPEED, fourth)?;
    if vmax < v && vmax != 0 {
        return Err(Code::WRONG_VALUE);
    }
    Ok(Drive {
        bus: bus.number,
        address,
        mode,
        v,
        vmax,
        functions: functions?,
    })
}

/// Reads the functions, each 0 or 1. More than a locomotive can have are 418, whatever the words are. The inner result
/// is 412 if a word is neither 0 nor 1.
fn parse_functions(mut words: Words<'_>) -> Result<Result<Bits, Code>, Code>
    ensures { result ≡ (if nat_lt MOST_FUNCTIONS (length words.entry) then Err TooLong else Ok (bits_of words.entry)) }
{
    let mut functions = Bits::new();
    while functions.len() < Bits::CAPACITY
        && let Some(bit) = words.next_bit()
    {
        functions.push(bit);
    }
    while let Some(word) = words.next() {
        if functions.len() == Bits::CAPACITY {
            return Err(Code::TOO_LONG);
        }
        match parse_bit(word) {
            Ok(bit) => functions.push(bit),
            Err(code) => return refuse_function(functions.len(), words, code),
        }
    }
    Ok(Ok(functions))
}

/// Refuses a function that is neither 0 nor 1 behind `before` others. Returns 418 if these and the words that follow
/// are too many, else 412 inside.
#[cold]
fn refuse_function(
    before: usize,
    mut words: Words<'_>,
    code: Code,
) -> Result<Result<Bits, Code>, Code>
    requires { before < MOST_FUNCTIONS }
    ensures { result
        ≡ (if nat_lt MOST_FUNCTIONS (before + 1 + length words.entry) then Err TooLong else Ok (Err code)) }
{
    let mut count = before + 1;
    while let Some(_) = words.next() {
        if count == Bits::CAPACITY {
            return Err(Code::TOO_LONG);
        }
        count += 1;
    }
    Ok(Err(code))
}

//! A whole line as a command. Each group has its operations; any other pair is 423.

ghost use Rattle.std.specs.Prelude.{◌≡◌, IfOk, option_and_then};
ghost use Rattle.std.specs.Option.{ok_or};
ghost use Rattle.srcp_info.specs.declared.change.Code.TheVariants.{C412 as WrongValue};
ghost use Rattle.srcp_text.specs.Words.{number_of};
ghost use Rattle.srcp_grammar.specs.Command.{IsCommandOf};
ghost use Rattle.srcp_grammar.specs.Grammar.{parsed, directed, reads, asked};
ghost use Rattle.srcp_grammar.specs.Layout.{bus_at};
ghost use Rattle.srcp_grammar.specs.declared.layout.Bus.{Bus};
ghost use Rattle.srcp_grammar.specs.declared.command.CommandGroup.TheVariants as named;

use crate::arguments::{
    parse_address, parse_drive, parse_get_ga, parse_get_session, parse_init_ga, parse_init_gl,
    parse_lock, parse_power, parse_sensor, parse_switch, parse_term_session, parse_timed_lock,
};
use crate::buses::{bus_at, has_group};
use crate::command::{Command, CommandGroup, Operation};
use crate::layout::{Bus, Layout};
use crate::single_words::{next_word, no_more, parse_group, parse_operation};
use srcp_info::{Code, GREATEST_BUS};
use srcp_text::{Words, read_number, words};

/// Returns the command of a line of a command session, by the layout. Keywords are in capital or small letters. Spaces
/// and tabs separate words.
///
/// # Errors
/// Returns the first of these refusals:
/// 1. 410 if the first word is no operation, or there is none;
/// 2. 419 if the bus or the group is missing;
/// 3. 412 if the second word is neither 0, the server itself, nor the number of a bus of the layout;
/// 4. 421 if the third word is no group;
/// 5. 422 if the group is not on the bus;
/// 6. 423 if the group does not have the operation;
/// 7. 419 or 418 if words are missing or too many;
/// 8. 412 or 420 for the first word not allowed at its place.
pub fn parse_command(line: &[u8], layout: &Layout) -> Result<Command, Code>
    ensures reads { result ≡ reads layout.now line.now }
    ensures fits { IfOk result (IsCommandOf layout.now) }
{
    parse_words(layout.buses(), words(line))
}

/// Reads the number of a bus. Any other word is 412.
fn parse_bus(buses: &[Bus], word: &[u8]) -> Result<Bus, Code>
    ensures { result ≡ ok_or (option_and_then (bus_at buses.now) (number_of GREATEST_BUS word.now)) WrongValue }
{
    let Some(number) = read_number(word, u32::from(GREATEST_BUS)) else {
        return Err(Code::WRONG_VALUE);
    };
    match bus_at(buses, number as u8) {
        Some(bus) => Ok(bus),
        None => Err(Code::WRONG_VALUE),
    }
}

/// Reads the operation, the bus, the group, which has to be on the bus, and then the words of the operation.
fn parse_words(buses: &[Bus], mut words: Words<'_>) -> Result<Command, Code>
    ensures { result ≡ parsed buses.now words.entry }
{
    let Some(first) = words.next() else {
        return Err(Code::UNKNOWN_COMMAND);
    };
    let operation = parse_operation(first)?;
    // Both words are taken before either is read: a missing word is 419, also behind a wrong bus.
    let second = next_word(&mut words)?;
    let third = next_word(&mut words)?;
    let bus = parse_bus(buses, second)?;
    let group = parse_group(third)?;
    if !has_group(&bus, group) {
        return Err(Code::UNSUPPORTED_DEVICE_GROUP);
    }
    match group {
        CommandGroup::Session => parse_session_command(operation, words),
        CommandGroup::Power => parse_power_command(operation, &bus, words),
        CommandGroup::Gl => parse_gl_command(operation, &bus, words),
        CommandGroup::Ga => parse_ga_command(operation, &bus, words),
        CommandGroup::Fb => parse_fb_command(operation, &bus, words),
        CommandGroup::Lock => parse_lock_command(operation, &bus, words),
    }
}

fn parse_session_command(operation: Operation, words: Words<'_>) -> Result<Command, Code>
    ensures { (bus : Bus) → result ≡ asked bus operation named.Session words.entry }
{
    match operation {
        Operation::Get => parse_get_session(words),
        Operation::Term => parse_term_session(words),
        _ => Err(Code::UNSUPPORTED_OPERATION),
    }
}

fn parse_power_command(operation: Operation, bus: &Bus, words: Words<'_>) -> Result<Command, Code>
    ensures { result ≡ asked bus.now operation named.Power words.entry }
{
    let number = bus.number;
    match operation {
        Operation::Get => {
            no_more(words)?;
            Ok(Command::GetPower { bus: number })
        }
        Operation::Set => Ok(Command::SetPower(parse_power(bus, words)?)),
        Operation::Check => Ok(Command::CheckPower(parse_power(bus, words)?)),
        Operation::Init => Ok(Command::InitPower { bus: number }),
        _ => Err(Code::UNSUPPORTED_OPERATION),
    }
}

fn parse_gl_command(operation: Operation, bus: &Bus, words: Words<'_>) -> Result<Command, Code>
    ensures { result ≡ asked bus.now operation named.Gl words.entry }
{
    let number = bus.number;
    match operation {
        Operation::Get => Ok(Command::GetGl {
            bus: number,
            address: parse_address(bus.gl_max, words)?,
        }),
        Operation::Set => Ok(Command::SetGl(parse_drive(bus, words)?)),
        Operation::Check => Ok(Command::CheckGl(parse_drive(bus, words)?)),
        Operation::Init => Ok(Command::InitGl(parse_init_gl(bus, words)?)),
        Operation::Term => Ok(Command::TermGl {
            bus: number,
            address: parse_address(bus.gl_max, words)?,
        }),
        _ => Err(Code::UNSUPPORTED_OPERATION),
    }
}

fn parse_ga_command(operation: Operation, bus: &Bus, words: Words<'_>) -> Result<Command, Code>
    ensures { result ≡ asked bus.now operation named.Ga words.entry }
{
    let number = bus.number;
    match operation {
        Operation::Get => parse_get_ga(bus, words),
        Operation::Set => Ok(Command::SetGa(parse_switch(bus, words)?)),
        Operation::Check => Ok(Command::CheckGa(parse_switch(bus, words)?)),
        Operation::Init => Ok(Command::InitGa(parse_init_ga(bus, words)?)),
        Operation::Term => Ok(Command::TermGa {
            bus: number,
            address: parse_address(bus.ga_max, words)?,
        }),
        _ => Err(Code::UNSUPPORTED_OPERATION),
    }
}

fn parse_fb_command(operation: Operation, bus: &Bus, words: Words<'_>) -> Result<Command, Code>
    ensures { result ≡ asked bus.now operation named.Fb words.entry }
{
    let number = bus.number;
    match operation {
        Operation::Get => Ok(Command::GetFb {
            bus: number,
            port: parse_address(bus.fb_ports, words)?,
        }),
        Operation::Set => Ok(Command::SetFb(parse_sensor(bus, words)?)),
        Operation::Check => Ok(Command::CheckFb(parse_sensor(bus, words)?)),
        Operation::Init => Ok(Command::InitFb { bus: number }),
        _ => Err(Code::UNSUPPORTED_OPERATION),
    }
}

fn parse_lock_command(operation: Operation, bus: &Bus, words: Words<'_>) -> Result<Command, Code>
    ensures { result ≡ asked bus.now operation named.Lock words.entry }
{
    match operation {
        Operation::Get => Ok(Command::GetLock(parse_lock(bus, words)?)),
        Operation::Set => Ok(Command::SetLock(parse_timed_lock(bus, words)?)),
        Operation::Check => Ok(Command::CheckLock(parse_timed_lock(bus, words)?)),
        Operation::Term => Ok(Command::TermLock(parse_lock(bus, words)?)),
        _ => Err(Code::UNSUPPORTED_OPERATION),
    }
}

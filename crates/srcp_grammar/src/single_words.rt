//! Single words of a command.

ghost use Rattle.std.specs.Prelude.{◌≡◌, ℕ, List, [], ◌∷◌, MatchResult};
ghost use Rattle.std.specs.Option.{ok_or};
ghost use Rattle.srcp_info.specs.declared.change.Code.TheVariants.{C410 as UnknownCommand, C421 as UnsupportedDevice};
ghost use Rattle.srcp_info.specs.declared.change.Code.TheVariants.{C412 as WrongValue};
ghost use Rattle.srcp_info.specs.declared.change.Code.TheVariants.{C418 as TooLong, C419 as TooShort};
ghost use Rattle.srcp_grammar.specs.Grammar.{bit_of, device_group_on, groups, letter_of, named_in, number_in};
ghost use Rattle.srcp_grammar.specs.Grammar.{operations, switches, time_of};

use crate::command::{CommandGroup, DeviceGroup, Operation};
use crate::layout::Bus;
use srcp_info::{Code, Letter, MOST_MILLISECONDS};
use srcp_text::{Words, is_keyword, read_number};

/// Returns the next word. Without a word the command is too short: 419.
pub(crate) fn next_word<'a>(words: &mut Words<'a>) -> Result<&'a [u8], Code>
    ensures { MatchResult result (λ word. words.old ≡ word.now ∷ words.new)
        (λ code. (words.old ≡ []) × (code ≡ TooShort)) }
{
    match words.next() {
        Some(word) => Ok(word),
        None => Err(Code::TOO_SHORT),
    }
}

/// Checks for the end of the words. With a word left the command is too long: 418.
pub(crate) fn no_more(mut words: Words<'_>) -> Result<(), Code>
    ensures { MatchResult result (λ _. words.entry ≡ [])
        (λ code. ((word : List ℕ) × (others : List (List ℕ)) × (words.entry ≡ word ∷ others)) × (code ≡ TooLong)) }
{
    match words.next() {
        Some(_) => Err(Code::TOO_LONG),
        None => Ok(()),
    }
}

/// Reads a number from `least` to `most`. Any other word is 412.
#[inline(always)]
pub(crate) fn parse_number(least: u32, most: u32, word: &[u8]) -> Result<u32, Code>
    ensures { result ≡ number_in least most word.now }
{
    match read_number(word, most) {
        Some(number) if number >= least => Ok(number),
        _ => Err(Code::WRONG_VALUE),
    }
}

/// Reads 0 or 1. Any other word is 412. The words "0" and "1" themselves are read without a call.
pub(crate) fn parse_bit(word: &[u8]) -> Result<bool, Code>
    ensures { result ≡ bit_of word.now }
{
    match word {
        b"0" => Ok(false),
        b"1" => Ok(true),
        _ => Ok(parse_number(0, 1, word)? == 1),
    }
}

/// Reads a decoder protocol. Any other word is 420.
pub(crate) fn parse_letter(word: &[u8]) -> Result<Letter, Code>
    ensures { result ≡ letter_of word.now }
{
    if is_keyword(b"N", word) {
        return Ok(Letter::N);
    }
    if is_keyword(b"M", word) {
        return Ok(Letter::M);
    }
    if is_keyword(b"S", word) {
        return Ok(Letter::S);
    }
    if is_keyword(b"P", word) {
        return Ok(Letter::P);
    }
    Err(Code::UNSUPPORTED_DEVICE_PROTOCOL)
}

/// Reads ON or OFF. Any other word is 412.
pub(crate) fn parse_on_off(word: &[u8]) -> Result<bool, Code>
    ensures { result ≡ ok_or (named_in switches word.now) WrongValue }
{
    if is_keyword(b"ON", word) {
        return Ok(true);
    }
    if is_keyword(b"OFF", word) {
        return Ok(false);
    }
    Err(Code::WRONG_VALUE)
}

/// Reads milliseconds up to 60000. Returns `None` for the word -1. Any other word is 412.
pub(crate) fn parse_time(word: &[u8]) -> Result<Option<u32>, Code>
    ensures { result ≡ time_of word.now }
{
    if word == b"-1".as_slice() {
        return Ok(None);
    }
    Ok(Some(parse_number(0, MOST_MILLISECONDS, word)?))
}

/// Reads the operation, the first word of a command. Any other word is 410. SET, the first word of most lines, is
/// compared first.
pub(crate) fn parse_operation(word: &[u8]) -> Result<Operation, Code>
    ensures { result ≡ ok_or (named_in operations word.now) UnknownCommand }
{
    if is_keyword(b"SET", word) {
        return Ok(Operation::Set);
    }
    if is_keyword(b"GET", word) {
        return Ok(Operation::Get);
    }
    if is_keyword(b"CHECK", word) {
        return Ok(Operation::Check);
    }
    if is_keyword(b"INIT", word) {
        return Ok(Operation::Init);
    }
    if is_keyword(b"TERM", word) {
        return Ok(Operation::Term);
    }
    if is_keyword(b"WAIT", word) {
        return Ok(Operation::Wait);
    }
    if is_keyword(b"VERIFY", word) {
        return Ok(Operation::Verify);
    }
    if is_keyword(b"RESET", word) {
        return Ok(Operation::Reset);
    }
    Err(Code::UNKNOWN_COMMAND)
}

/// Reads the group, the third word of a command. Any other word is 421.
pub(crate) fn parse_group(word: &[u8]) -> Result<CommandGroup, Code>
    ensures { result ≡ ok_or (named_in groups word.now) UnsupportedDevice }
{
    if is_keyword(b"GL", word) {
        return Ok(CommandGroup::Gl);
    }
    if is_keyword(b"GA", word) {
        return Ok(CommandGroup::Ga);
    }
    if is_keyword(b"FB", word) {
        return Ok(CommandGroup::Fb);
    }
    if is_keyword(b"LOCK", word) {
        return Ok(CommandGroup::Lock);
    }
    if is_keyword(b"POWER", word) {
        return Ok(CommandGroup::Power);
    }
    if is_keyword(b"SESSION", word) {
        return Ok(CommandGroup::Session);
    }
    Err(Code::UNSUPPORTED_DEVICE)
}

/// Reads the group of a LOCK command, which has to be on the bus. Any other word is 412.
pub(crate) fn parse_device_group(bus: &Bus, word: &[u8]) -> Result<DeviceGroup, Code>
    ensures { result ≡ device_group_on bus.now word.now }
{
    if is_keyword(b"GL", word) && bus.gl_max > 0 {
        return Ok(DeviceGroup::Gl);
    }
    if is_keyword(b"GA", word) && bus.ga_max > 0 {
        return Ok(DeviceGroup::Ga);
    }
    Err(Code::WRONG_VALUE)
}

//! The fixed words and texts of a line.

ghost use Rattle.std.specs.Prelude.{◌≡◌};
ghost use Rattle.srcp_info.specs.Line.{letter_word, mode_word, switch_word, value_code, code_text};

use crate::change::Code;
use crate::value::{Letter, Mode, Value};

/// Returns the word for a decoder protocol.
pub(crate) fn letter_word(letter: Letter) -> &'static [u8; 1]
    ensures { result.now ≡ letter_word letter }
{
    match letter {
        Letter::N => b"N",
        Letter::M => b"M",
        Letter::S => b"S",
        Letter::P => b"P",
    }
}

/// Returns the word for a session's mode.
pub(crate) fn mode_word(mode: Mode) -> &'static [u8]
    ensures { result.now ≡ mode_word mode }
{
    match mode {
        Mode::Command => b"COMMAND",
        Mode::Info => b"INFO",
    }
}

/// Returns `ON` or `OFF`.
pub(crate) fn switch_word(on: bool) -> &'static [u8]
    ensures { result.now ≡ switch_word on }
{
    if on { b"ON" } else { b"OFF" }
}

/// Returns the number of the line of a value: 101 for what a device is, 100 for what the device does.
pub(crate) fn value_code(value: &Value) -> &'static [u8; 3]
    ensures { result.now ≡ value_code value.now }
{
    match value {
        Value::Session { .. } | Value::GlInit { .. } | Value::GaInit { .. } => b"101",
        Value::Power { .. }
        | Value::GlState { .. }
        | Value::GaPort { .. }
        | Value::Fb { .. }
        | Value::Lock { .. } => b"100",
    }
}

/// Returns the number of a refusal, and its text.
pub(crate) fn code_text(code: Code) -> &'static [u8]
    ensures { result.now ≡ code_text code }
{
    match code {
        Code::C400 => b"400 ERROR unsupported protocol",
        Code::C401 => b"401 ERROR unsupported connection mode",
        Code::C402 => b"402 ERROR insufficient data",
        Code::C410 => b"410 ERROR unknown command",
        Code::C412 => b"412 ERROR wrong value",
        Code::C414 => b"414 ERROR device locked",
        Code::C415 => b"415 ERROR forbidden",
        Code::C416 => b"416 ERROR no data",
        Code::C418 => b"418 ERROR list too long",
        Code::C419 => b"419 ERROR list too short",
        Code::C420 => b"420 ERROR unsupported device protocol",
        Code::C421 => b"421 ERROR unsupported device",
        Code::C422 => b"422 ERROR unsupported device group",
        Code::C423 => b"423 ERROR unsupported operation",
        Code::C500 => b"500 ERROR out of resources",
    }
}

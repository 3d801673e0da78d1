//! Changes and replies, written as lines.

ghost use Rattle.std.specs.Prelude.{◌≡◌, ◌+◌, ◌≤◌, [], ◌∷◌, ◌++◌, length, map, decimal};
ghost use Rattle.std.specs.List.{join_with_byte};
ghost use Rattle.arrayvec.specs.ArrayVec.{array_vec_len};
ghost use Rattle.srcp_text.specs.Stamp.{stamp as stamp_of};
ghost use Rattle.srcp_info.specs.Line.{after_spaces, bit_word, letter_word, switch_word, group_words, value_words};
ghost use Rattle.srcp_info.specs.Line.{info_words, spaced, line, reply_line};
ghost use Rattle.srcp_info.specs.WellFormed.{IsWellFormed, IsWellFormedShown, IsWellFormedReply, ShowsNoRow, IsValueAt};

use crate::change::{Change, Reply, Shown};
use crate::key::{Device, Group, Key};
use crate::limits::{LONGEST_LINE, LONGEST_REPLY_TEXT, LONGEST_SHORT_REPLY};
use crate::value::{Bits, Letter, Text, Value};
use crate::words::{code_text, letter_word, mode_word, switch_word, value_code};
use arrayvec::ArrayVec;
use srcp_text::{put_bytes, put_number, put_stamp};

/// The bytes of a line in memory: `LONGEST_LINE`, rounded up to a multiple of 16. A plain array of such a length is
/// copied without a call.
pub const LINE_CAPACITY: usize = 128;

/// Holds a line of a change or of a reply.
pub type InfoLine = ArrayVec<u8, LINE_CAPACITY>;

/// Appends a space and a word.
fn put_word<const N: usize>(word: &[u8], buffer: &mut ArrayVec<u8, N>)
    requires { array_vec_len buffer.old + 1 + length word.now ≤ N }
    ensures { buffer.new.items ≡ buffer.old.items ++ 32 ∷ word.now }
{
    buffer.push(b' ');
    put_bytes(word, buffer);
}

/// Appends a space and the word for a decoder protocol.
fn put_letter<const N: usize>(letter: Letter, buffer: &mut ArrayVec<u8, N>)
    requires { array_vec_len buffer.old + 1 + length (letter_word letter) ≤ N }
    ensures { buffer.new.items ≡ buffer.old.items ++ 32 ∷ letter_word letter }
{
    buffer.push(b' ');
    buffer.push(letter_word(letter)[0]);
}

/// Appends a space and a bit: 1 for on, 0 for off.
fn put_bit<const N: usize>(on: bool, buffer: &mut ArrayVec<u8, N>)
    requires { array_vec_len buffer.old + 1 + length (bit_word on) ≤ N }
    ensures { buffer.new.items ≡ buffer.old.items ++ 32 ∷ bit_word on }
{
    buffer.push(b' ');
    buffer.push(b'0' + u8::from(on));
}

/// Appends a space and a number.
#[inline(never)]
fn put_numeral<const N: usize>(number: u32, buffer: &mut ArrayVec<u8, N>)
    requires { array_vec_len buffer.old + 1 + length (decimal number) ≤ N }
    ensures { buffer.new.items ≡ buffer.old.items ++ 32 ∷ decimal number }
{
    buffer.push(b' ');
    put_number(u64::from(number), buffer);
}

/// Appends each number behind a space.
#[inline(always)]
fn put_numerals<const N: usize>(numbers: &[u32], buffer: &mut ArrayVec<u8, N>)
    requires { array_vec_len buffer.old + length (after_spaces (map decimal numbers.now)) ≤ N }
    ensures { buffer.new.items ≡ buffer.old.items ++ after_spaces (map decimal numbers.now) }
{
    for number in numbers {
        put_numeral(*number, buffer);
    }
}

/// Appends the words of a group.
fn put_group<const N: usize>(group: Group, buffer: &mut ArrayVec<u8, N>)
    requires { array_vec_len buffer.old + length (after_spaces (group_words group)) ≤ N }
    ensures { buffer.new.items ≡ buffer.old.items ++ after_spaces (group_words group) }
{
    match group {
        Group::Session => put_bytes(b" SESSION", buffer),
        Group::Power => put_bytes(b" POWER", buffer),
        Group::Gl => put_bytes(b" GL", buffer),
        Group::Ga => put_bytes(b" GA", buffer),
        Group::Fb => put_bytes(b" FB", buffer),
        Group::LockGl => put_bytes(b" LOCK GL", buffer),
        Group::LockGa => put_bytes(b" LOCK GA", buffer),
    }
}

/// Appends what a POWER line says: ON or OFF, and the text if there is one.
fn put_power<const N: usize>(on: bool, text: &Text, buffer: &mut ArrayVec<u8, N>)
    requires { array_vec_len buffer.old
        + length (after_spaces (value_words 0 0 (Value.Power on text.now))) ≤ N }
    ensures { buffer.new.items
        ≡ buffer.old.items ++ after_spaces (value_words 0 0 (Value.Power on text.now)) }
{
    put_word(switch_word(on), buffer);
    if !text.is_empty() {
        put_word(text.as_bytes(), buffer);
    }
}

/// Appends each function as 1 or 0.
fn put_functions<const N: usize>(functions: &Bits, buffer: &mut ArrayVec<u8, N>)
    requires { array_vec_len buffer.old
        + length (after_spaces (map bit_word functions.now)) ≤ N }
    ensures { buffer.new.items ≡ buffer.old.items ++ after_spaces (map bit_word functions.now) }
{
    let count = functions.len();
    let bits = functions.as_slice();
    // The functions are appended at once, since each push reads and writes the length of the line.
    let mut words = [0; 2 * Bits::CAPACITY];
    for index in 0..count {
        words[2 * index] = b' ';
        words[2 * index + 1] = b'0' + u8::from(bits[index]);
    }
    put_bytes(&words[..2 * count], buffer);
}

/// Appends what the line of a row says after the words of its group.
fn put_value<const N: usize>(key: &Key, value: &Value, buffer: &mut ArrayVec<u8, N>)
    requires fits_key { IsValueAt key.now.group key.now.port value.now }
    requires fits { array_vec_len buffer.old
        + length (after_spaces (value_words key.now.address key.now.port value.now)) ≤ N }
    ensures { buffer.new.items
        ≡ buffer.old.items ++ after_spaces (value_words key.now.address key.now.port value.now) }
{
    match value {
        Value::Session { mode } => {
            put_numeral(key.address, buffer);
            put_word(mode_word(*mode), buffer);
        }
        Value::Power { on, text } => put_power(*on, text, buffer),
        Value::GlInit {
            letter,
            version,
            steps,
            functions,
        } => {
            put_numeral(key.address, buffer);
            put_letter(*letter, buffer);
            put_numerals(&[*version, *steps, *functions], buffer);
        }
        Value::GlState {
            mode,
            v,
            vmax,
            functions,
        } => {
            put_numerals(&[key.address, *mode, *v, *vmax], buffer);
            put_functions(functions, buffer);
        }
        Value::GaInit { letter } => {
            put_numeral(key.address, buffer);
            put_letter(*letter, buffer);
        }
        Value::GaPort { on } => {
            put_numerals(&[key.address, u32::from(key.port - 1)], buffer);
            put_bit(*on, buffer);
        }
        Value::Fb { on } => {
            put_numeral(key.address, buffer);
            put_bit(*on, buffer);
        }
        &Value::Lock { seconds, session } => put_numerals(&[key.address, seconds, session], buffer),
    }
}

/// Appends what all lines of changes begin with, up to the words of the group.
#[inline(always)]
fn put_info<const N: usize>(
    moment: u64,
    code: &[u8; 3],
    bus: u8,
    group: Group,
    buffer: &mut ArrayVec<u8, N>,
)
    requires { array_vec_len buffer.old
        + length (join_with_byte 32 (info_words moment code.now bus group [])) ≤ N }
    ensures { buffer.new.items
        ≡ buffer.old.items ++ join_with_byte 32 (info_words moment code.now bus group []) }
{
    put_stamp(moment, buffer);
    // An array of fixed length is appended without a call.
    put_bytes(
        &[
            b' ', code[0], code[1], code[2], b' ', b'I', b'N', b'F', b'O',
        ],
        buffer,
    );
    put_numeral(u32::from(bus), buffer);
    put_group(group, buffer);
}

/// Writes the line of a row, LF included, into an empty buffer with capacity for the longest line. The line has at most
/// 126 bytes, and is the line by `write_change` of a change to this row. Allocates no memory.
pub fn write_shown<const N: usize>(shown: &Shown, buffer: &mut ArrayVec<u8, N>)
    requires well_formed { IsWellFormedShown shown.now }
    requires fits { LONGEST_LINE ≤ N }
    requires empty { buffer.old.items ≡ [] }
    ensures line { buffer.new.items ≡ line (Change.Put shown.now) }
    ensures most { array_vec_len buffer.new ≤ LONGEST_LINE }
{
    let key = &shown.key;
    put_info(
        shown.stamp,
        value_code(&shown.value),
        key.bus,
        key.group,
        buffer,
    );
    put_value(key, &shown.value, buffer);
    buffer.push(b'\n');
}

/// Writes the line of a removed device.
fn write_gone<const N: usize>(stamp: u64, device: &Device, buffer: &mut ArrayVec<u8, N>)
    requires well_formed { IsWellFormed (Change.Gone stamp device.now) }
    requires fits { LONGEST_LINE ≤ N }
    requires empty { buffer.old.items ≡ [] }
    ensures line { buffer.new.items ≡ line (Change.Gone stamp device.now) }
    ensures most { array_vec_len buffer.new ≤ LONGEST_LINE }
{
    put_info(stamp, b"102", device.bus, device.group, buffer);
    put_numeral(device.address, buffer);
    buffer.push(b'\n');
}

/// Writes the line of a change, LF included, into an empty buffer with capacity for the longest line. The line has at
/// most 126 bytes. The form is from SRCP 0.8, with a single space between two words, numbers without leading zeros, and
/// capital letters alone. Allocates no memory.
pub fn write_change<const N: usize>(change: &Change, buffer: &mut ArrayVec<u8, N>)
    requires well_formed { IsWellFormed change.now }
    requires fits { LONGEST_LINE ≤ N }
    requires empty { buffer.old.items ≡ [] }
    ensures line { buffer.new.items ≡ line change.now }
    ensures most { array_vec_len buffer.new ≤ LONGEST_LINE }
{
    match change {
        Change::Put(shown) => write_shown(shown, buffer),
        Change::Gone { stamp, device } => write_gone(*stamp, device, buffer),
    }
}

/// Writes a moment and a text as a line.
fn write_text<const N: usize>(stamp: u64, text: &[u8], buffer: &mut ArrayVec<u8, N>)
    requires short { length text.now ≤ LONGEST_REPLY_TEXT }
    requires fits { LONGEST_LINE ≤ N }
    requires empty { buffer.old.items ≡ [] }
    ensures line { buffer.new.items ≡ spaced (stamp_of stamp ∷ text.now ∷ []) }
    ensures most { array_vec_len buffer.new ≤ LONGEST_SHORT_REPLY }
{
    put_stamp(stamp, buffer);
    put_word(text, buffer);
    buffer.push(b'\n');
}

/// Writes the reply to GO: the moment, and the id of the new session.
fn write_go<const N: usize>(stamp: u64, id: u32, buffer: &mut ArrayVec<u8, N>)
    requires fits { LONGEST_LINE ≤ N }
    requires empty { buffer.old.items ≡ [] }
    ensures line { buffer.new.items ≡ reply_line stamp (Reply.Go id) }
    ensures most { array_vec_len buffer.new ≤ LONGEST_SHORT_REPLY }
{
    put_stamp(stamp, buffer);
    put_word(b"200 OK GO", buffer);
    put_numeral(id, buffer);
    buffer.push(b'\n');
}

/// Writes the line of a reply at a moment of `stamp` milliseconds, LF included, into an empty buffer with capacity for
/// the longest line. A row in a reply keeps its own stamp. The line has at most 126 bytes, and at most 64 without a
/// row. Allocates no memory.
pub fn write_reply<const N: usize>(stamp: u64, reply: &Reply, buffer: &mut ArrayVec<u8, N>)
    requires well_formed { IsWellFormedReply reply.now }
    requires fits { LONGEST_LINE ≤ N }
    requires empty { buffer.old.items ≡ [] }
    ensures line { buffer.new.items ≡ reply_line stamp reply.now }
    ensures most { array_vec_len buffer.new ≤ LONGEST_LINE }
    ensures short { ShowsNoRow reply.now → array_vec_len buffer.new ≤ LONGEST_SHORT_REPLY }
{
    match reply {
        Reply::Accepted => write_text(stamp, b"200 OK", buffer),
        Reply::Protocol => write_text(stamp, b"201 OK PROTOCOL SRCP", buffer),
        Reply::Mode => write_text(stamp, b"202 OK CONNECTIONMODE", buffer),
        Reply::Go(id) => write_go(stamp, *id, buffer),
        Reply::Shows(shown) => write_shown(shown, buffer),
        Reply::Refused(code) => write_text(stamp, code_text(*code), buffer),
    }
}

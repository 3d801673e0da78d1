//! The words of a line in order, each read as a word of an information line.

ghost use Rattle.std.specs.Prelude.{◌≡◌, ℕ, ◌^◌, ◌<◌, ◌≤◌, ◌++◌, ◌∷◌, List, Bool, false, length, map, decimal, codes};
ghost use Rattle.std.specs.Prelude.{position, ◌==◌};
ghost use Rattle.std.specs.List.{join_with_byte, list_any, before_first, after_first};
ghost use Rattle.srcp_text.specs.Stamp.{stamp};
ghost use Rattle.srcp_info.specs.declared.key.Group.{Group};
ghost use Rattle.srcp_info.specs.declared.value.Letter.{Letter};
ghost use Rattle.srcp_info.specs.declared.value.Mode.{Mode};
ghost use Rattle.srcp_info.specs.declared.scan.InfoKind.{InfoKind};
ghost use Rattle.srcp_info.specs.Line.{group_words, mode_word, letter_word, bit_word, switch_word};
ghost use Rattle.srcp_info.specs.Read.{kind_code};
ghost use Rattle.srcp_info.specs.WellFormed.{is_space};

use crate::key::Group;
use crate::limits::MOST_FUNCTIONS;
use crate::value::{Bits, Letter, Mode};
use srcp_text::{read_number, read_plain};

/// Says what an information line is about.
#[derive(Clone, Copy, PartialEq, Eq)]
pub(crate) enum InfoKind {
    /// What a device does: the number of the line is 100.
    State,
    /// What a device is: 101.
    Init,
    /// A removed device: 102.
    Term,
}

/// Returns the offset of the first wanted byte, or `None` if the text has none.
fn place_of(wanted: u8, text: &[u8]) -> Option<usize>
    ensures { result ≡ position (λ byte. byte == wanted) text.now }
{
    text.iter().position(|byte| *byte == wanted)
}

/// Returns what stands before the first separator, and what stands after it. Returns all of the text and nothing if
/// there is no separator.
pub(crate) fn cut(text: &[u8], separator: u8) -> (&[u8], &[u8])
    ensures before { result.0.now ≡ before_first (λ byte. byte == separator) text.now }
    ensures after { result.1.now ≡ after_first (λ byte. byte == separator) text.now }
{
    match place_of(separator, text) {
        Some(at) => (&text[..at], &text[at + 1..]),
        None => (text, &[]),
    }
}

/// Returns the first word, and the text after the space behind the word.
pub(crate) fn next_word(text: &[u8]) -> (&[u8], &[u8])
    ensures { (word : List ℕ) (others : List (List ℕ)) → list_any is_space word ≡ false
        → text.now ≡ join_with_byte 32 (word ∷ others)
        → (result.0.now ≡ word) × (result.1.now ≡ join_with_byte 32 others) }
{
    cut(text, b' ')
}

/// Returns the first word as a number, and the text after the space behind the word.
pub(crate) fn next_number(text: &[u8]) -> (u32, &[u8])
    ensures { (number : ℕ) (others : List (List ℕ)) → number < 2 ^ 32
        → text.now ≡ join_with_byte 32 (decimal number ∷ others)
        → (result.0 ≡ number) × (result.1.now ≡ join_with_byte 32 others) }
{
    let (word, rest) = next_word(text);
    // 0 stands for a word that is no number: `read_change` writes the change again and compares the lines.
    (read_number(word, u32::MAX).unwrap_or(0), rest)
}

/// Returns the group of a single word, or `None` if no group has this name.
fn group_named(word: &[u8]) -> Option<Group>
    ensures session { word.now ≡ codes "SESSION" → result ≡ Some Group.Session }
    ensures power { word.now ≡ codes "POWER" → result ≡ Some Group.Power }
    ensures gl { word.now ≡ codes "GL" → result ≡ Some Group.Gl }
    ensures ga { word.now ≡ codes "GA" → result ≡ Some Group.Ga }
    ensures fb { word.now ≡ codes "FB" → result ≡ Some Group.Fb }
    ensures lock { word.now ≡ codes "LOCK" → result ≡ None }
{
    match word {
        b"SESSION" => Some(Group::Session),
        b"POWER" => Some(Group::Power),
        b"GL" => Some(Group::Gl),
        b"GA" => Some(Group::Ga),
        b"FB" => Some(Group::Fb),
        _ => None,
    }
}

/// Returns the group of the first word, or of the first two, and the text after the group.
pub(crate) fn next_group(text: &[u8]) -> (Group, &[u8])
    ensures { (group : Group) (others : List (List ℕ))
        → text.now ≡ join_with_byte 32 (group_words group ++ others)
        → (result.0 ≡ group) × (result.1.now ≡ join_with_byte 32 others) }
{
    let (word, rest) = next_word(text);
    match group_named(word) {
        Some(group) => (group, rest),
        None => next_lock_group(rest),
    }
}

/// Returns the group of locks for the word after LOCK, and the text after this word.
fn next_lock_group(text: &[u8]) -> (Group, &[u8])
    ensures gl { (others : List (List ℕ)) → text.now ≡ join_with_byte 32 (codes "GL" ∷ others)
        → (result.0 ≡ Group.LockGl) × (result.1.now ≡ join_with_byte 32 others) }
    ensures ga { (others : List (List ℕ)) → text.now ≡ join_with_byte 32 (codes "GA" ∷ others)
        → (result.0 ≡ Group.LockGa) × (result.1.now ≡ join_with_byte 32 others) }
{
    let (word, rest) = next_word(text);
    match word {
        b"GL" => (Group::LockGl, rest),
        _ => (Group::LockGa, rest),
    }
}

/// Returns what a line of this number is about.
pub(crate) fn kind_of(code: &[u8]) -> InfoKind
    ensures { (kind : InfoKind) → code.now ≡ kind_code kind → result ≡ kind }
{
    match code {
        b"102" => InfoKind::Term,
        b"101" => InfoKind::Init,
        _ => InfoKind::State,
    }
}

/// Returns the mode of a session with this name.
pub(crate) fn mode_named(text: &[u8]) -> Mode
    ensures { (mode : Mode) → text.now ≡ mode_word mode → result ≡ mode }
{
    match text {
        b"INFO" => Mode::Info,
        _ => Mode::Command,
    }
}

/// Returns the decoder protocol of the first word, and the text after the word.
pub(crate) fn next_letter(text: &[u8]) -> (Letter, &[u8])
    ensures { (letter : Letter) (others : List (List ℕ))
        → text.now ≡ join_with_byte 32 (letter_word letter ∷ others)
        → (result.0 ≡ letter) × (result.1.now ≡ join_with_byte 32 others) }
{
    let (word, rest) = next_word(text);
    match word {
        b"N" => (Letter::N, rest),
        b"M" => (Letter::M, rest),
        b"S" => (Letter::S, rest),
        // Any other word too, since `read_change` compares the lines.
        _ => (Letter::P, rest),
    }
}

/// Returns whether the first word is 1, and the text after the word.
pub(crate) fn next_bit(text: &[u8]) -> (bool, &[u8])
    ensures { (on : Bool) (others : List (List ℕ))
        → text.now ≡ join_with_byte 32 (bit_word on ∷ others)
        → (result.0 ≡ on) × (result.1.now ≡ join_with_byte 32 others) }
{
    let (word, rest) = next_word(text);
    match word {
        b"1" => (true, rest),
        _ => (false, rest),
    }
}

/// Returns whether the first word is ON, and the text after the word.
pub(crate) fn next_switch(text: &[u8]) -> (bool, &[u8])
    ensures { (on : Bool) (others : List (List ℕ))
        → text.now ≡ join_with_byte 32 (switch_word on ∷ others)
        → (result.0 ≡ on) × (result.1.now ≡ join_with_byte 32 others) }
{
    let (word, rest) = next_word(text);
    match word {
        b"ON" => (true, rest),
        _ => (false, rest),
    }
}

/// Returns the functions that the words of a text write.
pub(crate) fn functions_of(text: &[u8]) -> Bits
    ensures { (functions : List Bool) → length functions ≤ MOST_FUNCTIONS
        → text.now ≡ join_with_byte 32 (map bit_word functions)
        → result ≡ functions }
{
    let mut functions = Bits::new();
    let mut rest = text;
    while !rest.is_empty() && functions.len() < Bits::CAPACITY {
        let (on, more) = next_bit(rest);
        functions.push(on);
        rest = more;
    }
    functions
}

/// Returns the moment of a stamp, in milliseconds.
pub(crate) fn moment_of(word: &[u8]) -> u64
    ensures { (moment : ℕ) → moment < 2 ^ 64 → word.now ≡ stamp moment → result ≡ moment }
{
    let (seconds, thousandths) = cut(word, b'.');
    let seconds = read_plain(seconds, u64::MAX / 1000).unwrap_or(0);
    let thousandths = read_number(thousandths, 999).unwrap_or(0);
    seconds
        .saturating_mul(1000)
        .saturating_add(u64::from(thousandths))
}

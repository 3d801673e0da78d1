//! Words, put at the end of a message or a command that is being written.

ghost use Rattle.std.specs.Prelude.{◌≡◌, ◌+◌, ◌≤◌, ◌∷◌, ◌++◌, length, decimal};
ghost use Rattle.srcp_text.specs.Limits.{longest_written};
ghost use Rattle.srcp_stations.specs.Limits.{longest_word};
ghost use Rattle.srcp_stations.specs.Tell.{bit_word};

use srcp_text::{LineBuf, put_bytes, put_number};

/// Begins a line with these bytes, a few of them.
pub(crate) fn begun(head: &[u8]) -> LineBuf
    requires { length head.now ≤ longest_word }
    ensures items { result.items ≡ head.now }
    ensures few { length result.items ≤ longest_word }
{
    let mut line = LineBuf::new();
    put_bytes(head, &mut line);
    line
}

/// Appends a space and a word.
pub(crate) fn put_word(word: &[u8], line: &mut LineBuf)
    requires short { length word.now ≤ longest_word }
    requires room { length line.old.items + longest_word + 1 ≤ longest_written }
    ensures items { line.new.items ≡ line.old.items ++ 32 ∷ word.now }
    ensures few { length line.new.items ≤ length line.old.items + longest_word + 1 }
{
    line.push(b' ');
    put_bytes(word, line);
}

/// Appends a space and a number.
pub(crate) fn put_numeral(number: u32, line: &mut LineBuf)
    requires room { length line.old.items + longest_word + 1 ≤ longest_written }
    ensures items { line.new.items ≡ line.old.items ++ 32 ∷ decimal number }
    ensures few { length line.new.items ≤ length line.old.items + longest_word + 1 }
{
    line.push(b' ');
    put_number(u64::from(number), line);
}

/// Appends a space, and 1 for on or 0 for off.
pub(crate) fn put_bit(is_on: bool, line: &mut LineBuf)
    requires room { length line.old.items + longest_word + 1 ≤ longest_written }
    ensures items { line.new.items ≡ line.old.items ++ 32 ∷ bit_word is_on }
    ensures few { length line.new.items ≤ length line.old.items + longest_word + 1 }
{
    put_word(if is_on { b"1" } else { b"0" }, line);
}

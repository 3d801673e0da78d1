//! Datasets of a Z21, each a part of a datagram.

ghost use Rattle.std.specs.Prelude.{◌≡◌, ℕ, ◌+◌, ◌*◌, ◌<◌, ◌≤◌, ◌++◌, List, IfSome, IfNone, length};
ghost use Rattle.srcp_text.specs.Limits.{longest_written};
ghost use Rattle.srcp_stations.specs.Limits.{byte_values, longest_word, most_in_command};
ghost use Rattle.srcp_stations.specs.Dataset.{Begins, check, is_checked, two_bytes, xbus};

use crate::limits::{BYTE_VALUES, HEAD_LENGTH, XBUS_HEADER};
use srcp_text::{LineBuf, put_bytes};

/// Returns the byte that makes a command of the X-BUS whole, and 0 for a whole one: all bytes joined by exclusive or.
fn check(bytes: &[u8]) -> u8
    ensures { result ≡ check bytes.now }
{
    let mut sum = 0;
    for byte in bytes {
        sum ^= *byte;
    }
    sum
}

/// Appends a number in two bytes, the low one first.
fn put_two_bytes(number: u16, line: &mut LineBuf)
    requires { length line.old.items + longest_word ≤ longest_written }
    ensures { line.new.items ≡ line.old.items ++ two_bytes number }
{
    line.push((number % BYTE_VALUES) as u8);
    line.push((number / BYTE_VALUES) as u8);
}

/// Returns the dataset of a command of the X-BUS, with its check byte. A command has at most 8 bytes.
///
/// ```
/// socket.send(&xbus(&[0x21, 0x24]))?; // asks for the state of the station
/// ```
pub fn xbus(body: &[u8]) -> LineBuf
    requires { length body.now ≤ most_in_command }
    ensures { result.items ≡ xbus body.now }
{
    let mut line = LineBuf::new();
    put_two_bytes(HEAD_LENGTH + body.len() as u16 + 1, &mut line);
    put_two_bytes(XBUS_HEADER, &mut line);
    put_bytes(body, &mut line);
    line.push(check(body));
    line
}

/// Returns the number that two bytes write.
fn number_of(low: u8, high: u8) -> u16
    ensures { result ≡ low + byte_values * high }
{
    u16::from(low) + BYTE_VALUES * u16::from(high)
}

/// Returns whether the check byte of a command of the X-BUS is right. Other datasets have none.
fn is_checked(header: u16, body: &[u8]) -> bool
    ensures { result ≡ is_checked header body.now }
{
    header != XBUS_HEADER || (!body.is_empty() && check(body) == 0)
}

/// Returns the header and the body of the first dataset of a datagram, and what follows it. Returns `None` if the
/// datagram begins with none: one that is cut, or whose check byte is wrong.
pub fn first_dataset(bytes: &[u8]) -> Option<(u16, &[u8], &[u8])>
    ensures some { IfSome result (λ found. Begins bytes.now found.0 found.1.now found.2.now) }
    ensures none { IfNone result ((header : ℕ) (body rest : List ℕ) → Begins bytes.now header body rest → ⊥) }
{
    let head = usize::from(HEAD_LENGTH);
    if bytes.len() < head {
        return None;
    }
    let len = usize::from(number_of(bytes[0], bytes[1]));
    if len < head || bytes.len() < len {
        return None;
    }
    let header = number_of(bytes[2], bytes[3]);
    let body = &bytes[head..len];
    if !is_checked(header, body) {
        return None;
    }
    Some((header, body, &bytes[len..]))
}

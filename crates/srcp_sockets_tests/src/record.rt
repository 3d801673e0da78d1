//! The calls of a system, and what they say of the sockets.

use std::alloc::{AllocError, Global};
use std::vec::Vec;

/// Holds a call of the system.
#[derive(Drop)]
pub(crate) enum Entry {
    /// The bytes that the socket took.
    Writes { socket: u32, bytes: Vec<u8> },
    Shuts(u32),
    Closes(u32),
    /// The longest time that the wait may take.
    Waits(Option<u64>),
    /// What the clock showed.
    Clocks(u64),
}

/// Returns the bytes taken by a socket, all writes joined.
pub(crate) fn took_of(
    alloc: Global,
    entries: &[Entry],
    number: u32,
) -> Result<Vec<u8>, AllocError> {
    let mut took = Vec::new(alloc);
    for entry in entries {
        if let Entry::Writes { socket, bytes } = entry
            && *socket == number
        {
            took.extend_from_slice(bytes)?;
        }
    }
    Ok(took)
}

/// Returns what the clock showed when a socket took the last bytes with this line, or `None` without such bytes.
pub(crate) fn time_of(entries: &[Entry], number: u32, line: &[u8]) -> Option<u64> {
    let mut shown = None;
    let mut time = None;
    for entry in entries {
        match entry {
            Entry::Clocks(now) => shown = Some(*now),
            Entry::Writes { socket, bytes } if *socket == number => {
                if has_line(bytes, line) {
                    time = shown;
                }
            }
            _ => (),
        }
    }
    time
}

/// Returns whether any of the lines has this end.
fn has_line(bytes: &[u8], end: &[u8]) -> bool {
    bytes
        .split_inclusive(|byte| *byte == b'\n')
        .any(|line| line.ends_with(end))
}

/// Returns the most lines that a socket took in one write.
pub(crate) fn most_lines(entries: &[Entry], number: u32) -> usize {
    let mut most = 0;
    for entry in entries {
        if let Entry::Writes { socket, bytes } = entry
            && *socket == number
        {
            most = lines_in(bytes).max(most);
        }
    }
    most
}

/// Returns how many line ends are in bytes.
pub(crate) fn lines_in(bytes: &[u8]) -> usize {
    bytes.iter().filter(|byte| **byte == b'\n').count()
}

/// Returns what the clock showed last when a socket was closed, or `None` if the socket was not closed.
pub(crate) fn closed_at(entries: &[Entry], number: u32) -> Option<u64> {
    let mut shown = None;
    for entry in entries {
        match entry {
            Entry::Clocks(now) => shown = Some(*now),
            Entry::Closes(socket) if *socket == number => return shown,
            _ => (),
        }
    }
    None
}

/// Returns how often a socket was shut down.
pub(crate) fn shuts(entries: &[Entry], number: u32) -> usize {
    entries
        .iter()
        .filter(|entry| matches!(entry, Entry::Shuts(socket) if *socket == number))
        .count()
}

//! A reader and a writer in memory.

use std::alloc::Global;
use std::io;
use std::io::{Read, Write};
use std::vec::Vec;

/// Gives bytes a few at a time, and then ends or fails.
#[derive(Drop)]
pub(crate) struct Source<'a> {
    bytes: &'a [u8],
    at_once: usize,
    fails: bool,
}

impl<'a> Source<'a> {
    pub(crate) fn new(bytes: &'a [u8], at_once: usize, fails: bool) -> Source<'a> {
        Source {
            bytes,
            at_once,
            fails,
        }
    }
}

impl Read for Source<'_> {
    fn read(&mut self, buf: &mut [u8]) -> io::Result<usize> {
        let count = self.bytes.len().min(self.at_once).min(buf.len());
        if count == 0 && self.fails {
            return Err(io::Error::from(io::ErrorKind::Other));
        }
        let (now, later) = self.bytes.split_at(count);
        buf[..count].copy_from_slice(now);
        self.bytes = later;
        Ok(count)
    }
}

/// Takes a byte at a time while there is room. Then takes nothing, or fails.
#[derive(Drop)]
pub(crate) struct Sink {
    pub taken: Vec<u8>,
    room: usize,
    fails: bool,
}

impl Sink {
    pub(crate) fn new(alloc: Global, room: usize, fails: bool) -> Sink {
        Sink {
            taken: Vec::new(alloc),
            room,
            fails,
        }
    }
}

impl Write for Sink {
    fn write(&mut self, buf: &[u8]) -> io::Result<usize> {
        if buf.is_empty() || self.taken.len() >= self.room {
            return if self.fails {
                Err(io::Error::from(io::ErrorKind::Other))
            } else {
                Ok(0)
            };
        }
        self.taken.push(buf[0])?;
        Ok(1)
    }

    fn flush(&mut self) -> io::Result<()> {
        Ok(())
    }
}

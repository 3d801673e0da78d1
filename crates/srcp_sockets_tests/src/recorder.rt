//! A system with a record of the calls.

ghost use Rattle.std.specs.Prelude.{◌≡◌, [], IfOk, None};

use crate::network::Network;
use crate::record::Entry;
use srcp_sockets::{Ready, SocketDoor, System};
use std::alloc::{AllocError, Global};
use std::io::ErrorKind;
use std::vec::Vec;

/// Holds a network and the calls, up to the first for which memory is refused.
#[derive(Drop)]
pub(crate) struct Recorder<'a> {
    alloc: Global,
    network: Network<'a>,
    entries: Option<Vec<Entry>>,
}

/// Opens a door to a network, with clocks at 0.
pub(crate) fn open<'a>(
    alloc: Global,
    network: Network<'a>,
) -> Result<SocketDoor<Recorder<'a>>, AllocError>
    ensures faults { IfOk result (λ door. door.faults ≡ 0) }
    ensures log { IfOk result (λ door. door.sockets.system.log.steps ≡ []) }
    ensures limit { IfOk result (λ door. door.sockets.most ≡ None) }
{
    let system = Recorder {
        alloc,
        network,
        entries: Some(Vec::new(alloc)),
    };
    SocketDoor::open(system, alloc, 0, 0)
}

impl Recorder<'_> {
    /// Returns all calls.
    ///
    /// # Errors
    /// Fails if memory was refused for any of them.
    pub(crate) fn entries(&self) -> Result<&[Entry], AllocError> {
        match &self.entries {
            Some(entries) => Ok(entries.as_slice()),
            None => Err(AllocError),
        }
    }

    fn note(&mut self, entry: Entry) {
        if let Some(mut entries) = self.entries.take()
            && entries.push(entry).is_ok()
        {
            self.entries = Some(entries);
        }
    }
}

impl System for Recorder<'_> {
    fn accept(&mut self, _number: u32) -> Result<(), ErrorKind> {
        self.network.accept()
    }

    fn read(&mut self, socket: u32, buffer: &mut [u8]) -> Result<usize, ErrorKind> {
        self.network.read(socket, buffer)
    }

    fn write(&mut self, socket: u32, bytes: &[u8]) -> Result<usize, ErrorKind> {
        let count = self.network.write(socket, bytes)?;
        match Vec::from_slice(self.alloc, bytes.get(..count).unwrap_or(bytes)) {
            Ok(bytes) => self.note(Entry::Writes { socket, bytes }),
            Err(_) => self.entries = None,
        }
        Ok(count)
    }

    fn shutdown(&mut self, socket: u32) {
        self.network.shutdown(socket);
        self.note(Entry::Shuts(socket));
    }

    fn close(&mut self, socket: u32) {
        self.network.close(socket);
        self.note(Entry::Closes(socket));
    }

    fn wait(&mut self, most: Option<u64>, ready: &mut [Ready]) -> usize {
        self.note(Entry::Waits(most));
        self.network.wait(most, ready)
    }

    fn clock(&mut self) -> Option<u64> {
        let now = self.network.clock();
        self.note(Entry::Clocks(now));
        Some(now)
    }
}

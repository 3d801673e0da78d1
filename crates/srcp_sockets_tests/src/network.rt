//! Sockets in memory, on a time of their own.

ghost use Rattle.std.specs.Prelude.{◌≤◌, IfOk, length};

use srcp_sockets::Ready;
use std::alloc::{AllocError, Global};
use std::io::ErrorKind;
use std::vec::Vec;

/// How often the clock is read in a millisecond.
const LOOKS: u64 = 4;

/// What happens to a socket.
#[derive(Clone, Copy)]
pub(crate) enum Happens<'a> {
    /// The client connects.
    Connects,
    /// The client sends bytes.
    Sends(&'a [u8]),
    /// The client sends bytes behind urgent data: a read ends at the urgent data.
    SendsUrgently(&'a [u8]),
    /// The client sends no more.
    HalfCloses,
    /// The client is gone: no call finds anything of the client.
    Resets,
    /// The client makes room for this many more bytes.
    Receives(usize),
    /// The client makes no more room, and what room there was is gone.
    Fills,
    /// The server stands still for this many milliseconds, whatever the socket.
    StandsStill(u64),
}

/// An event and its time, in milliseconds.
#[derive(Clone, Copy)]
pub(crate) struct Event<'a> {
    pub at: u64,
    pub socket: u32,
    pub what: Happens<'a>,
}

/// Makes an event of a socket at a time in milliseconds.
pub(crate) fn at(at: u64, socket: u32, what: Happens<'_>) -> Event<'_> {
    Event { at, socket, what }
}

/// A socket, with what the client and the server did.
#[derive(Drop)]
struct Socket {
    number: u32,
    accepted: bool,
    // The bytes from the client. The server has read a prefix of these.
    sent: Vec<u8>,
    read: usize,
    // The index of the byte behind the last urgent data.
    mark: usize,
    over: bool,
    reset: bool,
    // Whether the server shut the socket for writing, and whether the server closed the socket.
    shut: bool,
    closed: bool,
    // How many bytes have room.
    room: usize,
    // The socket's readiness since the last wait.
    edge: Option<Ready>,
}

/// The sockets of a server, with events at their times. After the last event nothing happens.
#[derive(Drop)]
pub(crate) struct Network<'a> {
    alloc: Global,
    events: &'a [Event<'a>],
    // How many events have happened.
    happened: usize,
    now: u64,
    looks: u64,
    // True if each second call of a socket is interrupted.
    interrupts: bool,
    calls: u64,
    sockets: Vec<Socket>,
    // The readiness of the listener: socket 0.
    wanted: bool,
}

impl Socket {
    fn new(alloc: Global, number: u32) -> Socket {
        Socket {
            number,
            accepted: false,
            sent: Vec::new(alloc),
            read: 0,
            mark: 0,
            over: false,
            reset: false,
            shut: false,
            closed: false,
            room: 0,
            edge: None,
        }
    }

    /// Reads what was sent, up to urgent data.
    fn read(&mut self, buffer: &mut [u8]) -> Result<usize, ErrorKind>
        ensures { IfOk result (λ count. count ≤ length buffer.new) }
    {
        if self.reset || self.closed {
            return Err(ErrorKind::ConnectionReset);
        }
        let end = if self.read < self.mark {
            self.mark
        } else {
            self.sent.len()
        };
        let left = self.sent.get(self.read..end).unwrap_or(&[]);
        let count = left.len().min(buffer.len());
        if count == 0 {
            return if self.over {
                Ok(0)
            } else {
                Err(ErrorKind::WouldBlock)
            };
        }
        buffer[..count].copy_from_slice(&left[..count]);
        self.read = self.read.saturating_add(count);
        Ok(count)
    }

    /// Takes as many bytes as have room.
    fn write(&mut self, bytes: &[u8]) -> Result<usize, ErrorKind>
        ensures { IfOk result (λ count. count ≤ length bytes.now) }
    {
        if self.reset || self.shut || self.closed {
            return Err(ErrorKind::BrokenPipe);
        }
        let count = bytes.len().min(self.room);
        if count == 0 {
            return Err(ErrorKind::WouldBlock);
        }
        self.room -= count;
        Ok(count)
    }

    /// Applies an event, and records the readiness of the event's socket.
    fn take(&mut self, what: Happens<'_>) -> Result<(), AllocError> {
        match what {
            Happens::Connects => self.ready(true, false, false, true),
            Happens::Sends(bytes) => {
                self.sent.extend_from_slice(bytes)?;
                self.ready(true, false, false, false);
            }
            Happens::SendsUrgently(bytes) => {
                self.mark = self.sent.len();
                self.sent.extend_from_slice(bytes)?;
                self.ready(true, false, true, false);
            }
            Happens::HalfCloses => {
                self.over = true;
                self.ready(true, true, false, false);
            }
            Happens::Resets => {
                self.reset = true;
                self.ready(true, true, false, true);
            }
            Happens::Receives(count) => {
                self.room = self.room.saturating_add(count);
                self.ready(false, false, false, true);
            }
            Happens::Fills => self.room = 0,
            Happens::StandsStill(_) => (),
        }
        Ok(())
    }

    fn ready(&mut self, readable: bool, closed: bool, urgent: bool, writable: bool) {
        let edge = Ready {
            socket: self.number,
            readable,
            closed,
            urgent,
            writable,
        };
        self.edge = Some(match self.edge {
            Some(old) => Ready {
                socket: self.number,
                readable: old.readable || readable,
                closed: old.closed || closed,
                urgent: old.urgent || urgent,
                writable: old.writable || writable,
            },
            None => edge,
        });
    }
}

impl<'a> Network<'a> {
    pub(crate) fn new(alloc: Global, events: &'a [Event<'a>], interrupts: bool) -> Network<'a> {
        Network {
            alloc,
            events,
            happened: 0,
            now: 0,
            looks: 0,
            interrupts,
            calls: 0,
            sockets: Vec::new(alloc),
            wanted: false,
        }
    }

    /// Accepts the first connecting client.
    pub(crate) fn accept(&mut self) -> Result<(), ErrorKind> {
        if self.is_interrupted() {
            return Err(ErrorKind::Interrupted);
        }
        for socket in &mut self.sockets {
            if !socket.accepted {
                socket.accepted = true;
                return Ok(());
            }
        }
        Err(ErrorKind::WouldBlock)
    }

    pub(crate) fn read(&mut self, number: u32, buffer: &mut [u8]) -> Result<usize, ErrorKind>
        ensures { IfOk result (λ count. count ≤ length buffer.new) }
    {
        if self.is_interrupted() {
            return Err(ErrorKind::Interrupted);
        }
        match self.sockets.get_mut(index_of(number)) {
            Some(socket) => socket.read(buffer),
            None => Err(ErrorKind::NotFound),
        }
    }

    pub(crate) fn write(&mut self, number: u32, bytes: &[u8]) -> Result<usize, ErrorKind>
        ensures { IfOk result (λ count. count ≤ length bytes.now) }
    {
        if self.is_interrupted() {
            return Err(ErrorKind::Interrupted);
        }
        match self.sockets.get_mut(index_of(number)) {
            Some(socket) => socket.write(bytes),
            None => Err(ErrorKind::NotFound),
        }
    }

    /// Shuts a socket for writing.
    pub(crate) fn shutdown(&mut self, number: u32) {
        if let Some(socket) = self.sockets.get_mut(index_of(number)) {
            socket.shut = true;
        }
    }

    /// Closes a socket.
    pub(crate) fn close(&mut self, number: u32) {
        if let Some(socket) = self.sockets.get_mut(index_of(number)) {
            socket.closed = true;
        }
    }

    /// Waits until a socket is ready, at most `most` milliseconds if `most` is given. Returns how many sockets are
    /// ready.
    pub(crate) fn wait(&mut self, most: Option<u64>, ready: &mut [Ready]) -> usize
        ensures { result ≤ length ready.new }
    {
        self.happen();
        let found = self.take_edges(ready);
        if found > 0 {
            return found;
        }
        let end = most.map(|most| self.now.saturating_add(most));
        let next = self.events.get(self.happened).map(|event| event.at);
        self.now = match (end, next) {
            (Some(end), Some(next)) => end.min(next.max(self.now)),
            (Some(end), None) => end,
            (None, Some(next)) => next.max(self.now),
            (None, None) => self.now,
        };
        self.happen();
        self.take_edges(ready)
    }

    /// Reads the clock. Each read advances the clock.
    pub(crate) fn clock(&mut self) -> u64 {
        self.looks = self.looks.saturating_add(1);
        if self.looks % LOOKS == 0 {
            self.now = self.now.saturating_add(1);
        }
        self.now
    }

    /// Applies all events whose time has come.
    fn happen(&mut self) {
        for _ in 0..self.events.len() {
            let Some(event) = self.events.get(self.happened) else {
                break;
            };
            let event = *event;
            if event.at > self.now {
                break;
            }
            self.happened = self.happened.saturating_add(1);
            let _ = self.take(event);
        }
    }

    fn take(&mut self, event: Event<'_>) -> Result<(), AllocError> {
        match event.what {
            Happens::Connects => {
                self.sockets.push(Socket::new(self.alloc, event.socket))?;
                self.wanted = true;
            }
            Happens::StandsStill(milliseconds) => {
                self.now = self.now.saturating_add(milliseconds);
            }
            _ => (),
        }
        match self.sockets.get_mut(index_of(event.socket)) {
            Some(socket) => socket.take(event.what),
            None => Ok(()),
        }
    }

    /// Writes the readiness since the last wait to the beginning of `ready`. Returns for how many sockets.
    fn take_edges(&mut self, ready: &mut [Ready]) -> usize
        ensures { result ≤ length ready.new }
    {
        let mut count = 0;
        if self.wanted && !ready.is_empty() {
            self.wanted = false;
            ready[0] = Ready {
                socket: 0,
                readable: true,
                closed: false,
                urgent: false,
                writable: false,
            };
            count = 1;
        }
        for socket in &mut self.sockets {
            if !socket.accepted || socket.closed || count >= ready.len() {
                continue;
            }
            if let Some(edge) = socket.edge.take() {
                ready[count] = edge;
                count += 1;
            }
        }
        count
    }

    fn is_interrupted(&mut self) -> bool {
        self.calls = self.calls.saturating_add(1);
        self.interrupts && self.calls % 2 == 1
    }
}

/// Returns the index of a socket. The first socket has the number 1, and each later socket the next number.
fn index_of(number: u32) -> usize {
    (number as usize).saturating_sub(1)
}

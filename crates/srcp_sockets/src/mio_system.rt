//! The system of the machine: mio's sockets and a clock. A call that names a number finds the socket of that number and
//! makes the system call. A wait that failed or was ended early is followed by a rest.

ghost use Rattle.std.specs.Prelude.{◌≡◌, ◌≢◌, ◌/◌, ◌||◌, IfOk, ◌<◌, ◌≤◌, IfNone, IfSome, length, min, All};
ghost use Rattle.std.specs.Prelude.{None, Option, Some, ℕ, true, if◌then◌else◌, slice_index_or};
ghost use Rattle.std.specs.List.Sorted.{IsNonDecreasingBy};
ghost use Rattle.std.specs.Duration.{as_nanos};
ghost use Rattle.srcp_info.specs.Limits.{greatest_u64};
ghost use Rattle.srcp_sockets.specs.Early.{is_early};
ghost use Rattle.srcp_log.specs.Limits.{failed_wait};

use crate::door::MOST_READY;
use crate::options::{LOST_AFTER, lose_after, reset, set_options};
use crate::silence::{LOOK_EVERY, Watch};
use mio::net::{TcpListener, TcpStream};
use mio::{Events, Interest, Poll, Token};
use srcp_peers::{Ready, System};
use std::alloc::Global;
use std::io;
use std::io::{ErrorKind, Read, Write};
use std::net::{Net, Shutdown, SocketAddr};
use std::time::{Clock, Duration};
use std::vec::Vec;

/// The listener's token; the token of a socket is the socket's number.
const LISTENER: Token = Token(0);

/// Limits the rest after a wait that failed or ended early, in milliseconds.
const FAILED_WAIT: u64 = 8;

/// A socket with its number.
#[derive(Drop)]
struct Socket {
    number: u32,
    stream: TcpStream,
    // True if the socket was shut down: the system still delivers what it holds.
    shut: bool,
    // How the socket takes what is written.
    watch: Watch,
}

impl Socket {
    /// Shuts down the way to the peer.
    fn shutdown(&mut self) {
        self.shut = true;
        let _ = self.stream.shutdown(Shutdown::Write);
    }

    /// Writes once, and notes how much the socket took. `now` is what the clock showed, in milliseconds.
    fn write(&mut self, bytes: &[u8], now: u64) -> Result<usize, ErrorKind>
        ensures { IfOk result (λ count. count ≤ length bytes.now) }
    {
        if self.watch.is_over() {
            return Err(ErrorKind::TimedOut);
        }
        match self.stream.write(bytes) {
            Ok(count) => {
                self.note(count, bytes.len(), now);
                Ok(count)
            }
            Err(fault) => {
                self.note(0, bytes.len(), now);
                Err(fault.kind())
            }
        }
    }

    /// Notes that a write took `count` of `all` bytes.
    fn note(&mut self, count: usize, all: usize, now: u64) {
        if matches!(self.watch, Watch::Taking) && count < all {
            // The system's own time would go on while this peer reads slowly: a session that read 35 KB a second
            // without a pause was reset after 30 seconds.
            lose_after(&self.stream, 0);
        }
        self.watch = self.watch.after_write(count, all, now);
    }

    /// Looks at a socket that was found full.
    fn look(&mut self, now: u64) {
        let after = self.watch.after_look(now);
        if matches!((self.watch, after), (Watch::Emptied { .. }, Watch::Taking)) {
            lose_after(&self.stream, LOST_AFTER);
        }
        self.watch = after;
    }

    /// Returns whether a look found the peer lost, once.
    fn tells_loss(&mut self) -> bool {
        let news = matches!(self.watch, Watch::Lost);
        if news {
            self.watch = Watch::Told;
        }
        news
    }

    /// Resets a connection that was not shut down. Its peer was lost, or did not take all in time.
    fn give_up(&self) {
        if !self.shut {
            reset(&self.stream);
        }
    }
}

/// Makes the calls of a door, with the sockets of the machine and a clock.
#[derive(Drop)]
pub struct MioSystem<C: Clock + Drop> {
    /// The address of the listener.
    pub address: SocketAddr,
    /// What the wall clock showed before the listener was opened, in milliseconds; 0 if the clock could not be read.
    pub wall: u64,
    /// What the monotonic clock showed then, in milliseconds.
    pub start: u64,
    listener: TcpListener,
    poll: Poll,
    events: Events<Global>,
    clock: C,
    // The last time that the clock showed, in milliseconds, and that at which the sockets were looked at.
    shown: u64,
    looked: u64,
    // By rising numbers.
    sockets: Vec<Socket>,
    // The index of the last socket that was asked.
    recent: usize,
}

impl<C: Clock + Drop> MioSystem<C> {
    /// Listens at an address.
    ///
    /// # Errors
    /// Returns the error of the system, or an error if memory is refused.
    pub(crate) fn listen<N: Net>(
        net: &N,
        alloc: Global,
        address: SocketAddr,
        clock: C,
    ) -> io::Result<MioSystem<C>>
        ensures { IfOk result (λ system. system.address ≡ address) }
    {
        let wall = clock.since_1970().map_or(0, milliseconds);
        let start = clock.monotonic().map_or(0, milliseconds);
        let mut listener = TcpListener::bind(net, address)?;
        let poll = Poll::new(net)?;
        poll.registry()
            .register(&mut listener, LISTENER, Interest::READABLE)?;
        Ok(MioSystem {
            address,
            wall,
            start,
            listener,
            poll,
            events: Events::with_capacity(alloc, MOST_READY)?,
            clock,
            shown: 0,
            looked: 0,
            sockets: Vec::new(alloc),
            recent: 0,
        })
    }

    fn accept_and_register(&mut self, number: u32) -> io::Result<()> {
        let (mut stream, _) = self.listener.accept()?;
        self.poll.registry().register(
            &mut stream,
            Token(number as usize),
            Interest::READABLE | Interest::WRITABLE | Interest::PRIORITY,
        )?;
        stream.set_nodelay(true)?;
        // Set at the listener, the options would miss a peer that came before.
        set_options(&stream);
        self.sockets.push(Socket {
            number,
            stream,
            shut: false,
            watch: Watch::Taking,
        })?;
        Ok(())
    }

    fn read_clock(&self) -> Option<u64> {
        self.clock.monotonic().ok().map(milliseconds)
    }

    /// Returns whether a wait that found no socket ready ended before its time of `most` milliseconds. A signal ends a
    /// wait early. A wait with no limit always ended early, and a wait of 0 ms never.
    fn ends_early(&self, most: Option<u64>) -> bool
        ensures { (now : Option ℕ) × (result ≡ is_early self.now.shown now most) }
    {
        let now = match most {
            None | Some(0) => None,
            Some(_) => self.read_clock(),
        };
        is_early(self.shown, now, most)
    }

    fn socket(&mut self, number: u32) -> Result<&mut Socket, ErrorKind> {
        let Some(index) = self.index_of(number) else {
            return Err(ErrorKind::NotFound);
        };
        self.recent = index;
        Ok(&mut self.sockets[index])
    }

    /// Looks at the sockets that were found full, if the last look is `LOOK_EVERY` milliseconds ago.
    fn look(&mut self) {
        if self.shown.saturating_sub(self.looked) < LOOK_EVERY {
            return;
        }
        self.looked = self.shown;
        for socket in &mut self.sockets {
            socket.look(self.shown);
        }
    }

    /// Returns the number of a socket whose peer a look found lost, if any is left to be told.
    fn next_lost(&mut self) -> Option<u32> {
        for socket in &mut self.sockets {
            if socket.tells_loss() {
                return Some(socket.number);
            }
        }
        None
    }

    /// Returns how long a wait of `most` milliseconds may take: not past the next look, if a socket is to be looked at.
    fn limited(&self, most: Option<u64>) -> Option<u64> {
        if self.sockets.iter().any(|socket| socket.watch.is_due()) {
            Some(most.unwrap_or(LOOK_EVERY).min(LOOK_EVERY))
        } else {
            most
        }
    }

    /// Returns the index of a socket with this number. If the numbers rise, `None` says that no socket has the number.
    /// The search begins behind the last socket that was asked, since sockets are asked by rising numbers.
    fn index_of(&self, number: u32) -> Option<usize>
        ensures found { IfSome result (λ index. (index < length self.now.sockets.items)
            × ((d : Socket) → (slice_index_or self.now.sockets.items index d).number ≡ number)) }
        ensures absent { IsNonDecreasingBy (λ socket. socket.number) self.now.sockets.items
            → IfNone result (All (λ socket. socket.number ≢ number) self.now.sockets.items) }
    {
        let next = self.recent.saturating_add(1);
        if self.is_at(next, number) {
            return Some(next);
        }
        self.sockets
            .binary_search_by_key(&number, |socket| socket.number)
            .ok()
    }

    /// Returns whether there is a socket at this index and it has this number.
    fn is_at(&self, index: usize, number: u32) -> bool
        ensures { result ≡ true → (index < length self.now.sockets.items)
            × ((d : Socket) → (slice_index_or self.now.sockets.items index d).number ≡ number) }
    {
        match self.sockets.get(index) {
            Some(socket) => socket.number == number,
            None => false,
        }
    }
}

impl<C: Clock + Drop> System for MioSystem<C> {
    fn accept(&mut self, number: u32) -> Result<(), ErrorKind> {
        match self.accept_and_register(number) {
            Ok(()) => Ok(()),
            Err(fault) => Err(fault.kind()),
        }
    }

    fn read(&mut self, socket: u32, buffer: &mut [u8]) -> Result<usize, ErrorKind> {
        let socket = self.socket(socket)?;
        if socket.watch.is_over() {
            return Err(ErrorKind::TimedOut);
        }
        match socket.stream.read(buffer) {
            Ok(count) => Ok(count),
            Err(fault) => Err(fault.kind()),
        }
    }

    fn write(&mut self, socket: u32, bytes: &[u8]) -> Result<usize, ErrorKind> {
        let now = self.shown;
        self.socket(socket)?.write(bytes, now)
    }

    fn shutdown(&mut self, socket: u32) {
        if let Ok(socket) = self.socket(socket) {
            socket.shutdown();
        }
    }

    fn close(&mut self, socket: u32) {
        if let Ok(socket) = self.socket(socket) {
            socket.give_up();
        }
        self.sockets.retain(|one| one.number != socket);
    }

    fn wait(&mut self, most: Option<u64>, ready: &mut [Ready]) -> usize {
        self.look();
        if let Some(number) = self.next_lost() {
            if let Some(first) = ready.first_mut() {
                *first = lost(number);
                return 1;
            }
        }
        let most = self.limited(most);
        let waited = self
            .poll
            .poll(&mut self.events, most.map(Duration::from_millis));
        // A wait that ended early without a ready socket was interrupted, and the rest keeps the next turns from
        // spinning.
        let early = self.events.is_empty() && self.ends_early(most);
        if let Some(rest) = rest_after(waited.is_err(), early) {
            self.clock.sleep(Duration::from_millis(rest));
            return 0;
        }
        let mut count = 0;
        for event in &self.events {
            if count >= ready.len() {
                break;
            }
            let Token(token) = event.token();
            ready[count] = Ready {
                socket: u32::try_from(token).unwrap_or(u32::MAX),
                readable: event.is_readable(),
                closed: event.is_read_closed() || event.is_error(),
                urgent: event.is_priority(),
                writable: event.is_writable() || event.is_error(),
            };
            count += 1;
        }
        count
    }

    fn clock(&mut self) -> Option<u64> {
        self.shown = self.read_clock()?;
        Some(self.shown)
    }
}

/// Returns how a socket is told ready whose peer is lost: a read and a write of it find that.
fn lost(socket: u32) -> Ready {
    Ready {
        socket,
        readable: true,
        closed: true,
        urgent: false,
        writable: true,
    }
}

/// Returns whether a wait of `most` milliseconds ended early: a wait with no limit, or one with fewer milliseconds
/// between two times of the clock, `shown` and `now`. If the clock cannot be read, a wait with a limit did not.
fn is_early(shown: u64, now: Option<u64>, most: Option<u64>) -> bool
    ensures { result ≡ is_early shown now most }
{
    let Some(most) = most else {
        return true;
    };
    now.is_some_and(|now| now.saturating_sub(shown) < most)
}

/// Returns how long the system rests after a wait, in milliseconds: 8 if the wait failed or ended early. Otherwise it
/// does not rest.
fn rest_after(failed: bool, early: bool) -> Option<u64>
    ensures { result ≡ (if failed || early then Some failed_wait else None) }
{
    if failed || early {
        Some(FAILED_WAIT)
    } else {
        None
    }
}

/// Returns a time in milliseconds.
fn milliseconds(time: Duration) -> u64
    ensures { result ≡ min (as_nanos time / 1000000) greatest_u64 }
{
    u64::try_from(time.as_millis()).unwrap_or(u64::MAX)
}

//! Serving over sockets of this machine, in one process.

use srcp_core::LoggedCore;
use srcp_host::serve_sockets;
use srcp_rules::{Flat, Layout};
use srcp_serve::{Door, DoorFault, Served};
use srcp_sockets::SocketDoor;
use std::cell::Cell;
use std::io;
use std::io::{ErrorKind, Read, Write};
use std::net::{Ipv4Addr, Net, OpenListener, SocketAddr, TcpListener, TcpStream};
use std::test::Fail;
use std::time::{Clock, Duration};

const BOTH_LINES: &[u8] = b"srcp_server 1.0; SRCP 0.8.4; SRCPOTHER 0.8.3\n0.000 200 OK GO 1\n";

/// A clock standing at 0.
#[derive(Clone, Copy)]
struct Still;

impl Clock for Still {
    fn monotonic(&self) -> io::Result<Duration> {
        Ok(Duration::from_millis(0))
    }

    fn since_1970(&self) -> io::Result<Duration> {
        Ok(Duration::from_millis(0))
    }
}

/// A clock set by hand, in milliseconds.
#[derive(Drop)]
struct Hands {
    wall: Cell<u64>,
    elapsed: Cell<u64>,
}

impl Clock for Hands {
    fn monotonic(&self) -> io::Result<Duration> {
        Ok(Duration::from_millis(self.elapsed.get()))
    }

    fn since_1970(&self) -> io::Result<Duration> {
        Ok(Duration::from_millis(self.wall.get()))
    }
}

/// An unreadable clock.
#[derive(Clone, Copy)]
struct Broken;

impl Clock for Broken {
    fn monotonic(&self) -> io::Result<Duration> {
        Err(io::Error::from(ErrorKind::Other))
    }

    fn since_1970(&self) -> io::Result<Duration> {
        Err(io::Error::from(ErrorKind::Other))
    }
}

/// Returns a port on which no program listens.
fn free_port<N: Net>(net: &N) -> io::Result<u16> {
    let listener = TcpListener::bind(net, SocketAddr::from((Ipv4Addr::LOCALHOST, 0)))?;
    Ok(listener.local_addr()?.port())
}

#[test]
fn answers_a_client(rt: HostRuntime) -> Result<(), Fail> {
    let layout = Layout::new(rt.alloc());
    let mut core = LoggedCore::<Flat>::new(rt.alloc(), &layout)?;
    let port = free_port(&rt)?;
    let mut door = SocketDoor::listen(&rt, rt.alloc(), port, Still)?;
    door.wait_at_most(0);
    let address = SocketAddr::from((Ipv4Addr::LOCALHOST, port));
    let mut client = TcpStream::connect(&rt, address)?;
    client.write_all(b"GO\n")?;
    let served = Served {
        turns: 10_000,
        opened: 1,
        faults: 0,
    };
    assert_eq!(rt; serve_sockets(&mut core, &mut door, 10_000), served);
    let mut heard = [0u8; 63];
    client.read_exact(&mut heard)?;
    assert_eq!(rt; heard.as_slice(), BOTH_LINES);
    Ok(())
}

#[test]
fn listens_with_a_clock_that_cannot_be_read(rt: HostRuntime) -> Result<(), Fail> {
    let mut door = SocketDoor::listen(&rt, rt.alloc(), free_port(&rt)?, Broken)?;
    door.wait_at_most(0);
    door.expect(None, None);
    assert_eq!(rt; door.now(), Err(DoorFault::Now));
    Ok(())
}

#[test]
fn time_goes_forward_in_steps_where_something_falls_due(rt: HostRuntime) -> Result<(), Fail> {
    let clock = Hands {
        wall: Cell::new(10_000_000),
        elapsed: Cell::new(500),
    };
    let mut door = SocketDoor::listen(&rt, rt.alloc(), free_port(&rt)?, &clock)?;
    door.wait_at_most(0);
    // The wall clock is set back by an hour. The loop is stopped for 32 milliseconds without a deadline, for 32 with
    // one, and for an hour with a deadline at once. Then a late turn takes 10 milliseconds: the next goes on by 20.
    for (wall, elapsed, due, moment) in [
        (10_000_000, 500, None, 10_000_000),
        (6_400_007, 507, None, 10_000_007),
        (6_400_039, 539, Some(10_000_040), 10_000_039),
        (6_400_071, 571, Some(10_000_042), 10_000_042),
        (6_400_071, 571, Some(10_000_053), 10_000_053),
        (6_400_071, 571, Some(10_000_090), 10_000_071),
        (10_000_071, 3_600_571, Some(10_000_090), 13_000_071),
        (10_000_071, 3_600_571, Some(13_000_072), 13_000_072),
        (10_000_071, 3_600_581, Some(13_000_073), 13_000_092),
        (10_000_071, 3_600_581, None, 13_600_081),
    ] {
        clock.wall.set(wall);
        clock.elapsed.set(elapsed);
        door.expect(due, None);
        assert_eq!(rt; door.now(), Ok(moment));
    }
    Ok(())
}

#[test]
fn delivers_what_was_taken_in_the_last_turn(rt: HostRuntime) -> Result<(), Fail> {
    let layout = Layout::new(rt.alloc());
    let mut core = LoggedCore::<Flat>::new(rt.alloc(), &layout)?;
    let port = free_port(&rt)?;
    let address = SocketAddr::from((Ipv4Addr::LOCALHOST, port));
    let mut door = SocketDoor::listen(&rt, rt.alloc(), port, Still)?;
    door.wait_at_most(0);
    let mut client = TcpStream::connect(&rt, address)?;
    assert_eq!(rt; serve_sockets(&mut core, &mut door, 1).opened, 1);
    drop(door);
    let mut heard = [0u8; 45];
    client.read_exact(&mut heard)?;
    assert_eq!(rt; heard.as_slice(), &BOTH_LINES[..45]);
    Ok(())
}

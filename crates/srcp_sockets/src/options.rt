//! The options of the sockets, and the reset. After a reset the system holds nothing for a socket.

ghost use Rattle.std.specs.Prelude.{◌≡◌};
ghost use Rattle.srcp_sockets.specs.Options.{option_value};

use libc::net as c;
use mio::net::TcpStream;
use std::os::fd::AsRawFd;

// Without this limit, 62 panels that read nothing took 261 MB of the system's memory. Each 62 that were closed
// meanwhile took as much again.
/// How many bytes the system holds for a peer that does not read. The system doubles this for its own notes beside the
/// bytes.
const SEND_BUFFER: u32 = 131_072;

/// How many seconds after the last byte of a peer the peer's system is asked whether the peer is there.
const PROBE_AFTER: u32 = 10;

/// How many seconds lie between two such questions.
const PROBE_EVERY: u32 = 5;

// Without this limit, the locks of a throttle whose computer is gone stay for ever.
/// For how many milliseconds the system of a peer may answer nothing. Then the peer is lost.
pub(crate) const LOST_AFTER: u32 = 30_000;

/// How many such questions may stay unanswered before the peer is lost.
const MOST_PROBES: u32 = 4;

/// Sets the options of an accepted socket. They limit how much the system holds for a peer that does not read, and find
/// a peer that is gone. An option that the system refuses is left out: the peer is served all the same.
pub(crate) fn set_options(stream: &TcpStream) {
    let fd = stream.as_raw_fd();
    let (socket, tcp) = (c::SOL_SOCKET, c::IPPROTO_TCP);
    let buffer = value_of(SEND_BUFFER);
    let _ = unsafe { c::setsockopt(fd, socket, c::SO_SNDBUF, &buffer, 4) };
    let on = value_of(1);
    let _ = unsafe { c::setsockopt(fd, socket, c::SO_KEEPALIVE, &on, 4) };
    let after = value_of(PROBE_AFTER);
    let _ = unsafe { c::setsockopt(fd, tcp, c::TCP_KEEPIDLE, &after, 4) };
    let every = value_of(PROBE_EVERY);
    let _ = unsafe { c::setsockopt(fd, tcp, c::TCP_KEEPINTVL, &every, 4) };
    let most = value_of(MOST_PROBES);
    let _ = unsafe { c::setsockopt(fd, tcp, c::TCP_KEEPCNT, &most, 4) };
    lose_after(stream, LOST_AFTER);
}

/// Has the system find the peer lost if the peer's system answers nothing for `milliseconds`; 0 is never. The time of
/// Linux also goes on while the next bytes do not fit the peer's window, though the peer answers and reads.
pub(crate) fn lose_after(stream: &TcpStream, milliseconds: u32) {
    // By `TCP_INFO` Linux tells how many questions stayed unanswered, which would need no option. The kit's library has
    // no `TCP_INFO`.
    let value = value_of(milliseconds);
    let _ = unsafe {
        c::setsockopt(
            stream.as_raw_fd(),
            c::IPPROTO_TCP,
            c::TCP_USER_TIMEOUT,
            &value,
            4,
        )
    };
}

/// Resets a connection: the system drops what it holds for the peer, and the peer finds the connection lost. Linux does
/// so if a socket is connected to an address of no family, whose bytes are 0.
pub(crate) fn reset(stream: &TcpStream) {
    // The kit's library has no `SO_LINGER`, by which a close would reset.
    let nowhere = [0; c::_SS_SIZE];
    let _ = unsafe { c::connect(stream.as_raw_fd(), &nowhere, 16) };
}

/// Returns the value of an option as the system reads the value: the first four bytes, the lowest first.
fn value_of(number: u32) -> [u8; 16]
    ensures { result ≡ option_value number }
{
    let mut value = [0; 16];
    value[..4].copy_from_slice(&number.to_le_bytes());
    value
}

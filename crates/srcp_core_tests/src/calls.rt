//! Single calls of a core.

use crate::fixture::{
    assert_all, assert_answer, assert_refused, assert_state, open, open_command, over_core,
    take_all, take_lent,
};
use srcp_core::{Core, CoreFault};
use srcp_rules::Flat;
use std::alloc::Global;
use std::process::Abort;
use std::test::Fail;
use std::vec::Vec;

const WELCOME: &[u8] = b"srcp_server 1.0; SRCP 0.8.4; SRCPOTHER 0.8.3\n";

/// Sends these bytes singly. Until the last of them is sent the connection is neither ready nor closing, and refuses
/// the piece.
fn take_byte_by_byte(
    rt: &impl Abort,
    alloc: Global,
    core: &mut Core<'_, Flat>,
    conn: usize,
    bytes: &[u8],
    piece: &[u8],
    fault: CoreFault,
) -> Result<(), Fail> {
    let mut taken = Vec::new(alloc);
    for _ in bytes {
        assert_state(rt, core, conn, false, false);
        assert_refused(rt, core, conn, piece, fault);
        take_lent(core, conn, 1, &mut taken)?;
    }
    assert_eq!(rt; taken.as_slice(), bytes);
    Ok(())
}

/// Opens a connection, and sends the welcome line byte by byte.
fn welcome(rt: &impl Abort, alloc: Global, core: &mut Core<'_, Flat>) -> Result<(), Fail> {
    let conn = core.connect()?;
    take_byte_by_byte(rt, alloc, core, conn, WELCOME, b"GO\n", CoreFault::Busy)?;
    assert_state(rt, core, conn, true, false);
    Ok(())
}

#[test]
fn ready_once_the_welcome_line_is_taken(rt: HostRuntime) -> Result<(), Fail> {
    over_core(rt.alloc(), |core| welcome(&rt, rt.alloc(), core))
}

/// Pieces of a session, each with the replies to it.
const PIECES: [(&[u8], &[u8]); 5] = [
    (b"SET PROTOCOL SRCP 0.8", b""),
    (b".4\n", b"0.000 201 OK PROTOCOL SRCP\n"),
    (b"GO\n", b"0.000 200 OK GO 1\n"),
    (b"", b""),
    (
        b"GET 1 POWER\nGET 1 FB 2\n",
        b"0.000 100 INFO 1 POWER OFF\n0.000 100 INFO 1 FB 2 0\n",
    ),
];

/// Sends a piece in and the replies out. The connection is ready if there are none, and once they are sent.
fn take_replies(
    rt: &impl Abort,
    alloc: Global,
    core: &mut Core<'_, Flat>,
    conn: usize,
    piece: &[u8],
    replies: &[u8],
) -> Result<(), Fail> {
    assert_eq!(rt; core.receive(conn, piece), Ok(()));
    assert_state(rt, core, conn, replies.is_empty(), false);
    assert_all(rt, alloc, core, conn, replies)?;
    assert_state(rt, core, conn, true, false);
    Ok(())
}

/// Sends all pieces in.
fn hold_session(rt: &impl Abort, alloc: Global, core: &mut Core<'_, Flat>) -> Result<(), Fail> {
    let conn = open(alloc, core)?;
    for (piece, replies) in PIECES {
        take_replies(rt, alloc, core, conn, piece, replies)?;
    }
    assert_eq!(rt; core.denied(), 0);
    Ok(())
}

#[test]
fn ready_once_the_replies_are_taken(rt: HostRuntime) -> Result<(), Fail> {
    over_core(rt.alloc(), |core| hold_session(&rt, rt.alloc(), core))
}

/// Asserts that the connection is to be closed: the connection accepts no piece, and sends nothing.
fn assert_closing(
    rt: &impl Abort,
    alloc: Global,
    core: &mut Core<'_, Flat>,
    conn: usize,
) -> Result<(), Fail> {
    assert_state(rt, core, conn, false, true);
    assert_refused(rt, core, conn, b"GET 1 POWER\n", CoreFault::Closing);
    assert_refused(rt, core, conn, &[0; 257], CoreFault::Closing);
    assert_all(rt, alloc, core, conn, b"")
}

/// Ends a command session by the session's own command, and sends the reply.
fn end_session(rt: &impl Abort, alloc: Global, core: &mut Core<'_, Flat>) -> Result<(), Fail> {
    let conn = open_command(alloc, core)?;
    let piece = b"TERM 0 SESSION\nGET 1 POWER\n";
    assert_eq!(rt; core.receive(conn, piece), Ok(()));
    let reply = b"0.000 200 OK\n";
    let command = b"GET 1 POWER\n";
    take_byte_by_byte(rt, alloc, core, conn, reply, command, CoreFault::Closing)?;
    assert_closing(rt, alloc, core, conn)
}

#[test]
fn closing_once_the_last_reply_is_taken(rt: HostRuntime) -> Result<(), Fail> {
    over_core(rt.alloc(), |core| end_session(&rt, rt.alloc(), core))
}

/// Asserts that no call finds a connection under the key.
fn assert_absent(rt: &impl Abort, core: &mut Core<'_, Flat>, conn: usize) {
    assert_eq!(rt; core.hangup(conn), Err(CoreFault::NoSuch));
    assert_refused(rt, core, conn, &[0; 257], CoreFault::NoSuch);
    assert_eq!(rt; core.outgoing(conn).err(), Some(CoreFault::NoSuch));
    assert_state(rt, core, conn, false, false);
}

/// Hangs up a connection. No other has a key so large.
fn hang_up(rt: &impl Abort, alloc: Global, core: &mut Core<'_, Flat>) -> Result<(), Fail> {
    let conn = open_command(alloc, core)?;
    assert_eq!(rt; core.hangup(conn), Ok(()));
    assert_absent(rt, core, conn);
    assert_absent(rt, core, 1_000_000);
    assert_eq!(rt; core.denied(), 0);
    Ok(())
}

#[test]
fn no_call_finds_a_connection_after_its_hang_up(rt: HostRuntime) -> Result<(), Fail> {
    over_core(rt.alloc(), |core| hang_up(&rt, rt.alloc(), core))
}

/// Asserts that the connection refuses a piece of 257 bytes, and accepts any number of pieces of 256 bytes.
fn take_long_pieces(rt: &impl Abort, core: &mut Core<'_, Flat>, conn: usize) {
    let long = [b'x'; 257];
    assert_refused(rt, core, conn, &long, CoreFault::PieceTooLong);
    assert_state(rt, core, conn, true, false);
    for _ in 0..3 {
        assert_eq!(rt; core.receive(conn, &long[..256]), Ok(()));
        assert_state(rt, core, conn, true, false);
    }
}

/// Sends the pieces of a long line, to the end.
fn send_long_line(rt: &impl Abort, alloc: Global, core: &mut Core<'_, Flat>) -> Result<(), Fail> {
    let conn = core.connect()?;
    assert_refused(rt, core, conn, &[b'x'; 257], CoreFault::Busy);
    take_all(alloc, core, conn)?;
    take_long_pieces(rt, core, conn);
    let reply = b"0.000 410 ERROR unknown command\n";
    assert_answer(rt, alloc, core, conn, b"\n", reply)
}

#[test]
fn a_piece_has_at_most_256_bytes(rt: HostRuntime) -> Result<(), Fail> {
    over_core(rt.alloc(), |core| send_long_line(&rt, rt.alloc(), core))
}

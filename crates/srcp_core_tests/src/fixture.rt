//! Layouts, connections and sessions for the tests, and what several of them assert. A test leaves all but the layout
//! and the core to functions that borrow these two. Each function is then proved in a few seconds.
use srcp_core::{Core, CoreFault};
use srcp_info::Mirror;
use srcp_rules::{Bus, Flat, Layout};
use std::alloc::Global;
use std::process::Abort;
use std::test::Fail;
use std::vec::Vec;

/// The most lines sent at once.
const MOST_LINES: usize = 1000;

/// Makes bus 1 with power, locomotives, accessories of two ports and 2 feedback ports.
pub(crate) fn one_bus(alloc: Global) -> Result<Layout, Fail> {
    let mut layout = Layout::new(alloc);
    layout.add(Bus {
        number: 1,
        power: true,
        gl_max: 10239,
        ga_max: 2044,
        ga_ports: 2,
        fb_ports: 2,
    })?;
    Ok(layout)
}

/// Runs a test over a new core of a single bus.
pub(crate) fn over_core<F: FnOnce(&mut Core<'_, Flat>) -> Result<(), Fail>>(
    alloc: Global,
    test: F,
) -> Result<(), Fail>
    requires { F.IsAlwaysCallable test }
{
    let layout = one_bus(alloc)?;
    let mut core = Core::<Flat>::new(alloc, &layout, 0, 0)?;
    test(&mut core)
}

/// Sends at most `most` of the lent bytes. Returns how many were sent.
pub(crate) fn take_lent(
    core: &mut Core<'_, Flat>,
    conn: usize,
    most: usize,
    taken: &mut Vec<u8>,
) -> Result<usize, Fail> {
    let bytes = core.outgoing(conn)?;
    let count = bytes.len().min(most);
    taken.extend_from_slice(&bytes[..count])?;
    core.sent(conn, count);
    Ok(count)
}

/// Sends all lent bytes, until none are lent.
pub(crate) fn take_all(
    alloc: Global,
    core: &mut Core<'_, Flat>,
    conn: usize,
) -> Result<Vec<u8>, Fail> {
    let mut taken = Vec::new(alloc);
    for _ in 0..MOST_LINES {
        if take_lent(core, conn, usize::MAX, &mut taken)? == 0 {
            break;
        }
    }
    Ok(taken)
}

/// Sends a piece in, and the bytes lent once after the piece out.
pub(crate) fn answer(
    alloc: Global,
    core: &mut Core<'_, Flat>,
    conn: usize,
    piece: &[u8],
) -> Result<Vec<u8>, Fail> {
    core.receive(conn, piece)?;
    let mut taken = Vec::new(alloc);
    take_lent(core, conn, usize::MAX, &mut taken)?;
    Ok(taken)
}

/// Opens a connection, and sends the welcome line.
pub(crate) fn open(alloc: Global, core: &mut Core<'_, Flat>) -> Result<usize, Fail> {
    let conn = core.connect()?;
    let mut taken = Vec::new(alloc);
    take_lent(core, conn, usize::MAX, &mut taken)?;
    Ok(conn)
}

/// Opens a command session, and sends the replies.
pub(crate) fn open_command(alloc: Global, core: &mut Core<'_, Flat>) -> Result<usize, Fail> {
    let conn = open(alloc, core)?;
    answer(alloc, core, conn, b"GO\n")?;
    Ok(conn)
}

/// Opens an information session, and sends the replies and no byte more.
pub(crate) fn open_panel(alloc: Global, core: &mut Core<'_, Flat>) -> Result<usize, Fail> {
    let conn = open(alloc, core)?;
    answer(alloc, core, conn, b"SET CONNECTIONMODE SRCP INFO\nGO\n")?;
    Ok(conn)
}

/// Sends a piece in, and asserts which bytes are lent once after the piece.
pub(crate) fn assert_answer(
    rt: &impl Abort,
    alloc: Global,
    core: &mut Core<'_, Flat>,
    conn: usize,
    piece: &[u8],
    wanted: &[u8],
) -> Result<(), Fail> {
    let taken = answer(alloc, core, conn, piece)?;
    assert_eq!(rt; taken.as_slice(), wanted);
    Ok(())
}

/// Sends all lent bytes, and asserts which bytes they are.
pub(crate) fn assert_all(
    rt: &impl Abort,
    alloc: Global,
    core: &mut Core<'_, Flat>,
    conn: usize,
    wanted: &[u8],
) -> Result<(), Fail> {
    let taken = take_all(alloc, core, conn)?;
    assert_eq!(rt; taken.as_slice(), wanted);
    Ok(())
}

/// Asserts whether a connection is ready, and whether the connection is to be closed.
pub(crate) fn assert_state(
    rt: &impl Abort,
    core: &Core<'_, Flat>,
    conn: usize,
    ready: bool,
    closing: bool,
) {
    assert_eq!(rt; core.ready(conn), ready);
    assert_eq!(rt; core.closing(conn), closing);
}

/// Asserts the refusal of a piece.
pub(crate) fn assert_refused(
    rt: &impl Abort,
    core: &mut Core<'_, Flat>,
    conn: usize,
    piece: &[u8],
    fault: CoreFault,
) {
    assert_eq!(rt; core.receive(conn, piece), Err(fault));
}

/// Returns the mirror of these lines, without the first `skipped` of them.
pub(crate) fn mirror_of(alloc: Global, lines: &[u8], skipped: usize) -> Result<Mirror, Fail> {
    let mut mirror = Mirror::new(alloc);
    for line in lines.split(|byte| *byte == b'\n').skip(skipped) {
        if !line.is_empty() {
            mirror.apply(line)?;
        }
    }
    Ok(mirror)
}

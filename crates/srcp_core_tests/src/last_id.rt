//! Sessions up to the last id.

use crate::fixture::{assert_answer, one_bus, open};
use srcp_core::Core;
use srcp_rules::Flat;
use std::alloc::Global;
use std::process::Abort;
use std::test::Fail;

const REFUSED: &[u8] = b"0.000 500 ERROR out of resources\n";

const CHOSEN: &[u8] = b"0.000 202 OK CONNECTIONMODE\n";

/// Lines before a session, each with the reply.
const LINES: [(&[u8], &[u8]); 5] = [
    (b"GO\n", REFUSED),
    (b"SET CONNECTIONMODE SRCP INFO\n", CHOSEN),
    (b"GO\n", REFUSED),
    (b"SET CONNECTIONMODE SRCP COMMAND\n", CHOSEN),
    (b"go\n", REFUSED),
];

/// Asserts that no line begins a session, and the connection goes on.
fn assert_no_session(
    rt: &impl Abort,
    alloc: Global,
    core: &mut Core<'_, Flat>,
) -> Result<(), Fail> {
    let conn = open(alloc, core)?;
    for (line, reply) in LINES {
        assert_answer(rt, alloc, core, conn, line, reply)?;
    }
    assert_eq!(rt; core.denied(), 0);
    assert!(rt; core.ready(conn));
    Ok(())
}

#[test]
fn no_session_begins_after_the_last_id(rt: HostRuntime) -> Result<(), Fail> {
    let layout = one_bus(rt.alloc())?;
    let mut core = Core::<Flat>::new(rt.alloc(), &layout, 0, 4_294_967_295)?;
    assert_no_session(&rt, rt.alloc(), &mut core)
}

/// Asserts that the first session has the id, and the second none.
fn assert_given_once(
    rt: &impl Abort,
    alloc: Global,
    core: &mut Core<'_, Flat>,
) -> Result<(), Fail> {
    let first = open(alloc, core)?;
    let second = open(alloc, core)?;
    let given = b"12.050 200 OK GO 4294967295\n";
    assert_answer(rt, alloc, core, first, b"GO\n", given)?;
    let refused = b"12.050 500 ERROR out of resources\n";
    assert_answer(rt, alloc, core, second, b"GO\n", refused)?;
    assert_eq!(rt; core.denied(), 0);
    Ok(())
}

#[test]
fn the_last_id_is_given_once(rt: HostRuntime) -> Result<(), Fail> {
    let layout = one_bus(rt.alloc())?;
    let mut core = Core::<Flat>::new(rt.alloc(), &layout, 12_050, 4_294_967_294)?;
    assert_given_once(&rt, rt.alloc(), &mut core)
}

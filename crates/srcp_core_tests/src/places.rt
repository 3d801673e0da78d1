//! The limit of 64 connections.

use crate::fixture::over_core;
use srcp_core::{Core, CoreFault};
use srcp_rules::Flat;
use std::alloc::Global;
use std::process::Abort;
use std::test::Fail;
use std::vec::Vec;

/// Opens 64 connections, and returns their keys.
fn open_all(alloc: Global, core: &mut Core<'_, Flat>) -> Result<Vec<usize>, Fail> {
    let mut open = Vec::new(alloc);
    for _ in 0..64 {
        open.push(core.connect()?)?;
    }
    Ok(open)
}

/// Asserts that no more connections can be opened.
fn assert_full(rt: &impl Abort, core: &mut Core<'_, Flat>) {
    assert_eq!(rt; core.connect(), Err(CoreFault::Full));
}

/// Asserts that a single connection more can be opened after a hang-up, and no second.
fn open_anew(rt: &impl Abort, core: &mut Core<'_, Flat>, conn: usize) {
    assert_eq!(rt; core.hangup(conn), Ok(()));
    assert!(rt; core.connect().is_ok());
    assert_full(rt, core);
}

/// Hangs up each connection in turn, and opens another in its place.
fn assert_limit(rt: &impl Abort, alloc: Global, core: &mut Core<'_, Flat>) -> Result<(), Fail> {
    let open = open_all(alloc, core)?;
    assert_full(rt, core);
    for conn in &open {
        open_anew(rt, core, *conn);
    }
    assert_eq!(rt; core.denied(), 0);
    Ok(())
}

#[test]
fn sixty_four_connections_may_be_open(rt: HostRuntime) -> Result<(), Fail> {
    over_core(rt.alloc(), |core| assert_limit(&rt, rt.alloc(), core))
}

//! Memory, given to all.

use crate::fixture::{assert_answer, mirror_of, open_command, open_panel, over_core, take_all};
use srcp_core::Core;
use srcp_rules::Flat;
use std::alloc::Global;
use std::process::Abort;
use std::test::Fail;

/// Makes a locomotive and an accessory, and locks both.
fn make_devices(
    rt: &impl Abort,
    alloc: Global,
    core: &mut Core<'_, Flat>,
    command: usize,
) -> Result<(), Fail> {
    for line in [
        b"INIT 1 GL 3 N 1 28 2\n".as_slice(),
        b"INIT 1 GA 5 M\n".as_slice(),
        b"SET 1 LOCK GL 3 60\n".as_slice(),
        b"SET 1 LOCK GA 5 0\n".as_slice(),
    ] {
        assert_answer(rt, alloc, core, command, line, b"0.000 200 OK\n")?;
    }
    Ok(())
}

/// Asserts how many rows the mirror of all lines of a panel has.
fn assert_mirrored(
    rt: &impl Abort,
    alloc: Global,
    core: &mut Core<'_, Flat>,
    rows: usize,
) -> Result<(), Fail> {
    let panel = open_panel(alloc, core)?;
    let listing = take_all(alloc, core, panel)?;
    let mirror = mirror_of(alloc, listing.as_slice(), 0)?;
    assert_eq!(rt; mirror.rows().len(), rows);
    Ok(())
}

/// Asserts that devices are made, a panel gets their rows, and no allocation is refused.
fn assert_granted(rt: &impl Abort, alloc: Global, core: &mut Core<'_, Flat>) -> Result<(), Fail> {
    let command = open_command(alloc, core)?;
    make_devices(rt, alloc, core, command)?;
    assert_mirrored(rt, alloc, core, 12)?;
    assert_eq!(rt; core.denied(), 0);
    Ok(())
}

#[test]
fn nothing_is_refused_if_there_is_memory(rt: HostRuntime) -> Result<(), Fail> {
    over_core(rt.alloc(), |core| assert_granted(&rt, rt.alloc(), core))
}

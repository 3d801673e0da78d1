//! A core with a later first moment.

use crate::fixture::{assert_all, assert_answer, one_bus, open_command, open_panel};
use srcp_core::Core;
use srcp_rules::Flat;
use std::alloc::Global;
use std::process::Abort;
use std::test::Fail;

const LISTING: &[u8] = b"12.050 101 INFO 0 SESSION 1 COMMAND
20.000 101 INFO 0 SESSION 2 INFO
12.050 100 INFO 1 POWER OFF
12.050 100 INFO 1 FB 1 0
12.050 100 INFO 1 FB 2 0
";

/// Asserts the lines of rows present from the beginning, listed at a later moment.
fn assert_told_later(
    rt: &impl Abort,
    alloc: Global,
    core: &mut Core<'_, Flat>,
) -> Result<(), Fail> {
    let command = open_command(alloc, core)?;
    core.advance(20_000);
    assert_answer(
        rt,
        alloc,
        core,
        command,
        b"GET 1 POWER\n",
        b"12.050 100 INFO 1 POWER OFF\n",
    )?;
    let panel = open_panel(alloc, core)?;
    assert_all(rt, alloc, core, panel, LISTING)
}

#[test]
fn the_rows_of_the_beginning_have_the_first_moment(rt: HostRuntime) -> Result<(), Fail> {
    let layout = one_bus(rt.alloc())?;
    let mut core = Core::<Flat>::new(rt.alloc(), &layout, 12_050, 0)?;
    assert_told_later(&rt, rt.alloc(), &mut core)
}

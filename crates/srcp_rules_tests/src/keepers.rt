//! The two keepers of rows, compared.

use crate::served::Served;
use srcp_info::Row;
use srcp_rules::Bus;
use std::alloc::Global;
use std::process::Abort;
use std::test::Fail;

/// Appends all rows of each keeper before the first line and after each line. Fails if the keepers differ in an
/// answer.
fn walk_at_each(
    served: &mut Served,
    alloc: Global,
    lines: &[(u32, u64, &str)],
    flat: &mut Vec<Row>,
    nested: &mut Vec<Row>,
) -> Result<(), Fail> {
    served.walk(flat, nested)?;
    for line in lines {
        served.take(alloc, line)?;
        served.walk(flat, nested)?;
    }
    Ok(())
}

/// Asserts that the keepers answer the same at each line. Before the first and after each of them they have the same
/// rows, at least `least` in all.
fn keep_the_same(
    rt: &impl Abort,
    alloc: Global,
    buses: &[Bus],
    lines: &[(u32, u64, &str)],
    least: usize,
) -> Result<(), Fail> {
    let mut served = Served::open(alloc, buses)?;
    let mut flat = Vec::new(alloc);
    let mut nested = Vec::new(alloc);
    walk_at_each(&mut served, alloc, lines, &mut flat, &mut nested)?;
    assert_eq!(rt; nested.as_slice(), flat.as_slice());
    assert!(rt; nested.len() >= least);
    Ok(())
}

const LOCOMOTIVES_ALONE: Bus = Bus {
    number: 1,
    power: false,
    gl_max: 10,
    ga_max: 0,
    ga_ports: 0,
    fb_ports: 0,
};

const NO_GROUP: Bus = Bus {
    number: 2,
    power: false,
    gl_max: 0,
    ga_max: 0,
    ga_ports: 0,
    fb_ports: 0,
};

const POWER_AND_A_PORT: Bus = Bus {
    number: 3,
    power: true,
    gl_max: 0,
    ga_max: 0,
    ga_ports: 0,
    fb_ports: 1,
};

const EVERYTHING: Bus = Bus {
    number: 7,
    power: true,
    gl_max: 10239,
    ga_max: 2044,
    ga_ports: 8,
    fb_ports: 3,
};

#[test]
fn small_buses_are_walked_alike(rt: HostRuntime) -> Result<(), Fail> {
    let lines = [
        (5, 1, "go"),
        (5, 2, "INIT 1 GL 10 N 1 28 2"),
        (5, 3, "INIT 1 GL 3 N 1 28 2"),
        (5, 4, "SET 1 GL 10 1 5 28 0 1"),
        (5, 5, "SET 1 LOCK GL 10 1"),
        (5, 6, "SET 1 LOCK GL 3 0"),
        (5, 7, "SET 2 POWER ON"),
        (5, 8, "SET 3 POWER ON why not"),
        (5, 9, "SET 3 FB 1 1"),
        (5, 10, "GET 1 GL 10"),
        (5, 11, "TERM 1 GL 3"),
        (5, 1005, "GET 1 LOCK GL 10"),
        (5, 1006, "end"),
    ];
    keep_the_same(
        &rt,
        rt.alloc(),
        &[LOCOMOTIVES_ALONE, NO_GROUP, POWER_AND_A_PORT],
        &lines,
        28,
    )
}

#[test]
fn all_groups_are_walked_alike(rt: HostRuntime) -> Result<(), Fail> {
    let lines = [
        (5, 1, "go"),
        (2, 1, "go"),
        (5, 2, "INIT 7 GL 10239 N 1 28 5"),
        (5, 3, "INIT 7 GL 1 N 2 28 0"),
        (5, 4, "INIT 7 GA 2044 N"),
        (2, 5, "INIT 7 GA 12 M"),
        (2, 6, "INIT 1 GL 5 P"),
        (5, 7, "SET 7 GA 2044 7 1 500"),
        (5, 8, "SET 7 GA 12 0 1 300"),
        (5, 9, "SET 7 LOCK GA 12 0"),
        (2, 10, "SET 7 LOCK GA 12 5"),
        (2, 11, "SET 7 LOCK GL 1 5"),
        (5, 12, "SET 7 FB 3 1"),
        (5, 13, "SET 7 GL 10239 1 14 28 1 0 1 0 1"),
        (5, 14, "INIT 7 GA 2044 N"),
        (5, 15, "INIT 7 GA 2044 M"),
        (2, 16, "TERM 7 GA 12"),
        (5, 400, "GET 7 GA 12 0"),
        (5, 401, "TERM 7 GA 12"),
        (5, 402, "TERM 7 LOCK GA 12"),
        (2, 403, "SET 7 LOCK GA 2044 0"),
        (2, 404, "end"),
        (5, 5500, "GET 7 LOCK GL 1"),
        (5, 5501, "TERM 7 GL 1"),
        (5, 5502, "GET 7 GL 10239"),
        (5, 5503, "end"),
    ];
    keep_the_same(
        &rt,
        rt.alloc(),
        &[LOCOMOTIVES_ALONE, NO_GROUP, POWER_AND_A_PORT, EVERYTHING],
        &lines,
        162,
    )
}

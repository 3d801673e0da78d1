//! A signal box over a stream that fails. The cases of `tests/cases` run the box with more plans.

use crate::memory_io::{Sink, Source};
use crate::streams::written;
use srcp_plan_file::read_plan;
use srcp_tool::{ToolFault, interlock};
use std::alloc::{AllocError, Global};
use std::io::{Read, Write};
use std::test::Fail;
use std::vec::Vec;

/// A plan of a single route.
const PLAN: &[u8] = b"bus = 9
[[route]]
number = 1
turnouts = [[1, 12, 1]]
blocks = [[1, 5]]
signal = [1, 40, 1, 0]
";

/// Lines by which the route is set and given back, each with what the box sends by the line.
const STEPS: [(&[u8], &[u8]); 15] = [
    (b"0.000 200 OK GO 7\n", b"SET 1 GA 40 0 1 250\n"),
    (b"0.100 200 OK\n", b"SET 9 FB 1 0\n"),
    (b"0.200 200 OK\r\n", b""),
    (b"not a line of the protocol\n", b""),
    (b"\n", b""),
    (b"0.500 100 INFO 1 FB 5 0\n", b""),
    (b"1.000 100 INFO 9 GA 1 1 1\r\n", b"SET 1 LOCK GA 12 0\n"),
    (b"1.100 200 OK\n", b"SET 1 GA 12 1 1 250\n"),
    (b"1.200 200 OK\n", b"SET 1 GA 40 1 1 250\n"),
    (b"1.300 200 OK\n", b"SET 9 FB 1 1\n"),
    (b"1.400 200 OK\n", b""),
    (b"2.000 100 INFO 9 GA 1 0 1\n", b"SET 1 GA 40 0 1 250\n"),
    (b"2.100 200 OK\n", b"SET 9 FB 1 0\n"),
    (b"2.200 200 OK\n", b"TERM 1 LOCK GA 12\n"),
    (b"2.300 200 OK\n", b""),
];

/// Returns the first lines of the steps, and what the box sends by them.
fn first(alloc: Global, count: usize) -> Result<(Vec<u8>, Vec<u8>), AllocError> {
    let mut input = Vec::new(alloc);
    let mut output = Vec::new(alloc);
    for (line, sent) in STEPS.into_iter().take(count) {
        input.extend_from_slice(line)?;
        output.extend_from_slice(sent)?;
    }
    Ok((input, output))
}

/// Runs the box of the plan.
fn run<R: Read, W: Write>(alloc: Global, reader: &mut R, writer: &mut W) -> Result<(), ToolFault> {
    let plan = read_plan(alloc, PLAN)?;
    interlock(alloc, plan.bus, plan.routes, reader, writer)
}

#[test]
fn sends_what_the_lines_gave_if_a_read_fails(rt: HostRuntime) -> Result<(), Fail> {
    for count in 0..STEPS.len() + 1 {
        let (mut input, wanted) = first(rt.alloc(), count)?;
        input.extend_from_slice(b"3.000 200 OK GO 8")?;
        let mut lines = Source::new(input.as_slice(), 7, true);
        let mut output = Vec::new(rt.alloc());
        let answer = run(rt.alloc(), &mut lines, &mut output);
        assert_eq!(rt; answer, Err(ToolFault::Input));
        assert_eq!(rt; output.as_slice(), wanted.as_slice());
    }
    Ok(())
}

#[test]
fn sends_a_prefix_if_a_write_fails(rt: HostRuntime) -> Result<(), Fail> {
    let (input, wanted) = first(rt.alloc(), STEPS.len())?;
    for room in 0..wanted.len() + 1 {
        let mut lines = Source::new(input.as_slice(), 1000, false);
        let mut sink = Sink::new(rt.alloc(), room, room % 2 == 0);
        let answer = run(rt.alloc(), &mut lines, &mut sink);
        assert_eq!(rt; answer, written(room, wanted.as_slice()));
        assert_eq!(rt; sink.taken.as_slice(), &wanted.as_slice()[..room]);
    }
    Ok(())
}

//! Streams that fail after some bytes.

use crate::memory_io::{Sink, Source};
use srcp_rules::{Flat, Layout};
use srcp_tool::{ToolFault, check, mirror, read_config, replay};
use std::alloc::Global;
use std::test::Fail;
use std::vec::Vec;

const SCRIPT: &[u8] = b"open\nroom 1 1000\nbytes 1 GO\\n\nroom 1 1000\n";

const RECORD: &[u8] = b"connection 1 63 open
srcp_server 1.0; SRCP 0.8.4; SRCPOTHER 0.8.3
0.000 200 OK GO 1
rows 1
0.000 101 INFO 0 SESSION 1 COMMAND
";

const CONFIG: &[u8] = b"bus = [{number = 9, groups = [\"GA\"], ga_max = 1}]";

const CHECKED: &[u8] = b"port 4303\nbus 9 GA 1\n";

/// A listing of nine rows.
const ROWS: &[u8] = b"0.000 101 INFO 0 SESSION 1 COMMAND
0.000 100 INFO 1 POWER OFF
1.000 101 INFO 1 GL 3 N 1 28 2
1.000 100 INFO 1 GL 3 1 0 0 0 0
1.000 101 INFO 1 GA 5 M
1.000 100 INFO 1 GA 5 0 0
1.000 100 INFO 1 GA 5 1 0
0.000 100 INFO 1 FB 1 0
1.000 100 INFO 1 LOCK GL 3 60 1
";

/// Makes a reader to give these bytes and then fail.
fn failing(bytes: &[u8]) -> Source<'_> {
    Source::new(bytes, 7, true)
}

/// Makes a reader to give these bytes and then end.
fn ending(bytes: &[u8]) -> Source<'_> {
    Source::new(bytes, 7, false)
}

#[test]
fn replays_nothing_if_a_read_fails(rt: HostRuntime) {
    let layout = Layout::new(rt.alloc());
    for front in 0..SCRIPT.len() + 1 {
        let mut script = failing(&SCRIPT[..front]);
        let mut output = Vec::new(rt.alloc());
        let answer = replay::<Flat, Source<'_>, Vec<u8>>(
            rt.alloc(),
            &layout,
            &mut script,
            &mut output,
        );
        assert_eq!(rt; answer, Err(ToolFault::Input));
        assert!(rt; output.is_empty());
    }
}

#[test]
fn replays_a_prefix_if_a_write_fails(rt: HostRuntime) {
    let layout = Layout::new(rt.alloc());
    for room in 0..RECORD.len() + 1 {
        let mut script = ending(SCRIPT);
        let mut sink = Sink::new(rt.alloc(), room, room % 2 == 0);
        let answer = replay::<Flat, Source<'_>, Sink>(rt.alloc(), &layout, &mut script, &mut sink);
        assert_eq!(rt; answer, written(room, RECORD));
        assert_eq!(rt; sink.taken.as_slice(), &RECORD[..room]);
    }
}

#[test]
fn mirrors_nothing_if_a_read_fails(rt: HostRuntime) {
    for front in 0..ROWS.len() + 1 {
        let mut lines = failing(&ROWS[..front]);
        let mut output = Vec::new(rt.alloc());
        let answer = mirror(rt.alloc(), &mut lines, &mut output);
        assert_eq!(rt; answer, Err(ToolFault::Input));
        assert!(rt; output.is_empty());
    }
}

#[test]
fn tells_a_failing_read_before_a_wrong_line(rt: HostRuntime) {
    let mut lines = Source::new(b"GET 1 POWER\n", 10, true);
    let mut output = Vec::new(rt.alloc());
    assert_eq!(rt;
        mirror(rt.alloc(), &mut lines, &mut output),
        Err(ToolFault::Input)
    );
    assert!(rt; output.is_empty());
}

#[test]
fn mirrors_a_prefix_if_a_write_fails(rt: HostRuntime) {
    for room in 0..ROWS.len() + 1 {
        let mut lines = ending(ROWS);
        let mut sink = Sink::new(rt.alloc(), room, room % 2 == 0);
        let answer = mirror(rt.alloc(), &mut lines, &mut sink);
        assert_eq!(rt; answer, written(room, ROWS));
        assert_eq!(rt; sink.taken.as_slice(), &ROWS[..room]);
    }
}

#[test]
fn reads_no_configuration_if_a_read_fails(rt: HostRuntime) {
    for front in 0..CONFIG.len() + 1 {
        let answer = read_config(rt.alloc(), &mut failing(&CONFIG[..front])).err();
        assert_eq!(rt; answer, Some(ToolFault::Unreadable));
    }
}

#[test]
fn checks_a_prefix_if_a_write_fails(rt: HostRuntime) {
    for room in 0..CHECKED.len() + 1 {
        let mut sink = Sink::new(rt.alloc(), room, room % 2 == 0);
        let answer = check(rt.alloc(), CONFIG, &mut sink);
        assert_eq!(rt; answer, written(room, CHECKED));
        assert_eq!(rt; sink.taken.as_slice(), &CHECKED[..room]);
    }
}

/// Returns the result of writing a text into `room` bytes.
pub(crate) fn written(room: usize, text: &[u8]) -> Result<(), ToolFault> {
    if room < text.len() {
        Err(ToolFault::Output)
    } else {
        Ok(())
    }
}

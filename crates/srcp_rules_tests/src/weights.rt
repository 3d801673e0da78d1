//! The weights of lines.

use srcp_rules::{MOST_CHANGES, weight};
use std::test::Fail;

#[test]
fn weighs_a_line_by_its_words(rt: HostRuntime) -> Result<(), Fail> {
    for (line, want) in [
        ("", 0),
        (" \t ", 0),
        ("GET 1 POWER", 0),
        ("get", 0),
        ("Check 1 GA 1 0 1 -1", 0),
        ("set 1 GL 3 1 10 28", 1),
        ("\tSET\t1 POWER ON", 1),
        ("SETS 1 POWER ON", MOST_CHANGES),
        ("go", 1),
        ("Go on", 1),
        ("TERM 0 SESSION", 0),
        (" term\t0 \t session 3 4", 0),
        ("TERM 1 SESSION", MOST_CHANGES),
        ("TERM 0 LOCK", MOST_CHANGES),
        ("TERM 0", MOST_CHANGES),
        ("TERM 1 GA 1", MOST_CHANGES),
        ("INIT 0 SESSION", MOST_CHANGES),
        ("init 1 GA 1 N", MOST_CHANGES),
        ("WAIT 1 FB 1 1 10", MOST_CHANGES),
        ("FOO", MOST_CHANGES),
    ] {
        if weight(line.as_bytes()) != want {
            return Err(Fail::from(line));
        }
    }
    Ok(())
}

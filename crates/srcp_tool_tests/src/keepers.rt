//! The same run over both keepers of rows.

use crate::memory_io::Source;
use srcp_layout_file::read_layout;
use srcp_rules::{Flat, Layout, Nested, Rows};
use srcp_tool::{ToolFault, replay};
use std::alloc::Global;
use std::test::Fail;
use std::vec::Vec;

const CONFIG: &[u8] = b"[[bus]]
number = 2
groups = []
[[bus]]
number = 3
groups = [\"POWER\", \"FB\"]
fb_ports = 1
[[bus]]
number = 1
groups = [\"POWER\", \"GL\", \"GA\", \"FB\"]
gl_max = 100
ga_max = 9
ga_ports = 4
fb_ports = 3
";

const SCRIPTS: [&[u8]; 4] = [
    // Devices are made out of order, locked and driven, and the panel, opened first, is sent each change.
    b"open\nroom 1 1000\nbytes 1 SET CONNECTIONMODE SRCP INFO\\nGO\\n\nroom 1 90
open\nroom 2 1000\nbytes 2 GO\\n\nroom 2 1000
bytes 2 INIT 1 GL 30 N 1 28 5\\nINIT 1 GA 7 N\\nINIT 1 GL 3 N 1 28 2\\nSET 1 LOCK GL 3 9\\n\nroom 2 1000
bytes 2 SET 1 GL 3 1 12 28 1\\nSET 1 GA 7 3 1 400\\nSET 3 FB 1 1\\nSET 1 LOCK GA 7 2\\n\nroom 2 1000
room 1 120\nat 400\nroom 1 10000\nat 2000\nroom 1 10000\nat 9000\nroom 1 10000\n",
    // Devices go while a listing is between their rows, and come again.
    b"open\nroom 1 1000\nbytes 1 GO\\nINIT 1 GA 5 N\\nINIT 1 GL 9 N 1 28 1\\nSET 1 LOCK GA 5 0\\n\nroom 1 1000
open\nroom 2 1000\nbytes 2 SET CONNECTIONMODE SRCP INFO\\nGO\\n\nroom 2 300
bytes 1 TERM 1 GA 5\\nINIT 1 GA 5 M\\nTERM 1 GL 9\\nINIT 1 GL 8 N 1 28 3\\n\nroom 1 1000\nroom 2 10000\n",
    // The end of a session frees what the session locked.
    b"at 1000\nopen\nroom 1 1000\nbytes 1 GO\\nINIT 1 GL 2 N 1 28 0\\nINIT 1 GA 2 N\\nINIT 1 GL 1 N 1 28 0\\n
room 1 1000
bytes 1 SET 1 LOCK GA 2 0\\nSET 1 LOCK GL 2 0\\nSET 1 LOCK GL 1 60\\n\nroom 1 1000
open\nroom 2 1000\nbytes 2 SET CONNECTIONMODE SRCP INFO\\nGO\\n\nroom 2 10000\nshut 1\nroom 2 10000\n",
    // Refusals, and rows looked up.
    b"open\nroom 1 1000\nbytes 1 GO\\nGET 2 POWER\\nGET 3 POWER\\nGET 1 GL 3\\nSET 1 GA 3 0 1 -1\\nGET 1 FB 4\\n
room 1 1000
bytes 1 INIT 1 GA 9 N\\nGET 1 GA 9 3\\nGET 1 GA 9 4\\nGET 0 SESSION 1\\nTERM 0 SESSION 1\\n\nroom 1 1000\nroom 9 1\n",
];

/// Returns what is printed of a run of the script.
fn printed<R: Rows>(alloc: Global, layout: &Layout, script: &[u8]) -> Result<Vec<u8>, ToolFault> {
    let mut reader = Source::new(script, 1000, false);
    let mut output = Vec::new(alloc);
    replay::<R, Source<'_>, Vec<u8>>(alloc, layout, &mut reader, &mut output)?;
    Ok(output)
}

#[test]
fn both_keepers_of_rows_make_the_same_run(rt: HostRuntime) -> Result<(), Fail> {
    let layout = read_layout(rt.alloc(), CONFIG)?.layout;
    for script in SCRIPTS {
        let flat = printed::<Flat>(rt.alloc(), &layout, script)?;
        let nested = printed::<Nested>(rt.alloc(), &layout, script)?;
        assert_eq!(rt; nested.as_slice(), flat.as_slice());
        assert!(rt; flat.len() > 500);
    }
    Ok(())
}

//! Allocating calls, each alone.
use crate::outcome::{Outcome, Refused};
use clap::error::ErrorKind;
use srcp_core::{Core, CoreFault};
use srcp_feed::InfoFeed;
use srcp_info::{Change, MOST_WAITING, Mirror, MirrorFault};
use srcp_layout_file::{ConfigFault, read_layout};
use srcp_rules::{Bus, Flat, Layout, LayoutFault, Nested, Rows};
use srcp_script::{Cause, read_script};
use srcp_tool::{Tool, read_words};
use std::alloc::Global;
use std::string::String;
use std::vec::Vec;

/// A configuration of a single bus.
const CONFIGURATION: &[u8] =
    b"port = 4303\n[[bus]]\nnumber = 1\ngroups = [\"POWER\", \"GL\"]\ngl_max = 9\n";

/// A script of three events.
const SCRIPT: &[u8] = b"open\nbytes 1 GO\\n\nroom 1 1000\n";

/// Lines of rows absent from a mirror.
const LINES: [&[u8]; 6] = [
    b"0.000 100 INFO 1 FB 6 0",
    b"0.000 100 INFO 1 FB 5 0",
    b"0.000 100 INFO 1 FB 4 0",
    b"0.000 100 INFO 1 FB 3 0",
    b"0.000 100 INFO 1 FB 2 0",
    b"0.000 100 INFO 1 FB 1 0",
];

/// Makes a bus with every group.
pub(crate) fn bus(number: u8) -> Bus {
    Bus {
        number,
        power: true,
        gl_max: 10239,
        ga_max: 2044,
        ga_ports: 2,
        fb_ports: 2,
    }
}

/// Makes a layout of a single bus.
pub(crate) fn one_bus(alloc: Global) -> Result<Layout, Refused> {
    let mut layout = Layout::new(alloc);
    layout.add(bus(1))?;
    Ok(layout)
}

/// Makes a vector with capacity for as many changes as may wait. With memory the same call succeeds, here and below.
pub(crate) fn queue(alloc: Global) -> Outcome {
    let makes = || Vec::<Change>::with_capacity(alloc, MOST_WAITING).is_ok();
    if makes() {
        Outcome::Granted
    } else {
        Outcome::refused_if(makes())
    }
}

/// Begins the feed of a panel.
pub(crate) fn feed(alloc: Global) -> Result<Outcome, Refused> {
    let layout = one_bus(alloc)?;
    let rows = Flat::empty(alloc, &layout)?;
    Ok(match InfoFeed::begin(alloc, &rows) {
        Ok(_) => Outcome::Granted,
        Err(_) => Outcome::refused_if(InfoFeed::begin(alloc, &rows).is_ok()),
    })
}

/// Applies lines to a mirror. A refusal does not change the mirror, and the same call with memory succeeds.
pub(crate) fn mirror(alloc: Global) -> Outcome {
    let mut mirror = Mirror::new(alloc);
    let mut outcome = Outcome::Granted;
    for (count, line) in LINES.into_iter().enumerate() {
        if mirror.apply(line) == Err(MirrorFault::Memory) {
            outcome = Outcome::refused_if(mirror.rows().len() == count);
            if mirror.apply(line) != Ok(()) {
                return Outcome::Broken;
            }
        }
    }
    if mirror.rows().len() == LINES.len() {
        outcome
    } else {
        Outcome::Broken
    }
}

/// Adds buses to a layout, in the same way.
pub(crate) fn layout(alloc: Global) -> Outcome {
    let mut layout = Layout::new(alloc);
    let mut outcome = Outcome::Granted;
    for (count, number) in (1..10).enumerate() {
        if layout.add(bus(number)) == Err(LayoutFault::Memory) {
            outcome = Outcome::refused_if(layout.buses().len() == count);
            if layout.add(bus(number)) != Ok(()) {
                return Outcome::Broken;
            }
        }
    }
    if layout.buses().len() == 9 {
        outcome
    } else {
        Outcome::Broken
    }
}

/// Opens a connection, in the same way. The refusal is counted.
pub(crate) fn connect(alloc: Global) -> Result<Outcome, Refused> {
    let layout = one_bus(alloc)?;
    let mut core = Core::<Nested>::new(alloc, &layout, 0, 0)?;
    Ok(match core.connect() {
        Ok(_) => Outcome::granted_if(core.denied() == 0),
        Err(CoreFault::Memory) => {
            let counted = core.denied() == 1;
            Outcome::refused_if(core.connect().is_ok() && counted)
        }
        Err(_) => Outcome::Broken,
    })
}

/// Reads a configuration.
pub(crate) fn configuration(alloc: Global) -> Outcome {
    match read_layout(alloc, CONFIGURATION) {
        Ok(config) => Outcome::granted_if(config.layout.buses().len() == 1),
        Err(ConfigFault::Memory) => {
            Outcome::refused_if(read_layout(alloc, CONFIGURATION).is_ok())
        }
        Err(_) => Outcome::Broken,
    }
}

/// Reads a script.
pub(crate) fn script(alloc: Global) -> Outcome {
    match read_script(alloc, SCRIPT) {
        Ok(events) => Outcome::granted_if(events.len() == 3),
        Err(fault) => {
            let is_memory = matches!(fault.cause, Cause::Memory);
            Outcome::refused_if(is_memory && read_script(alloc, SCRIPT).is_ok())
        }
    }
}

/// Reads the words of the program.
pub(crate) fn words(alloc: Global) -> Result<Outcome, Refused> {
    let mut words = Vec::new(alloc);
    for word in ["srcp_server", "check", "--config", "f"] {
        words.push(String::from_str(alloc, word)?)?;
    }
    Ok(match read_words(alloc, &words) {
        Ok(Tool::Check { config }) => Outcome::granted_if(config == "f"),
        Ok(_) => Outcome::Broken,
        Err(fault) => {
            let is_memory = fault.kind() == ErrorKind::OutOfMemory;
            Outcome::refused_if(is_memory && read_words(alloc, &words).is_ok())
        }
    })
}

//! The program `srcp_server`: a layout served, a script replayed, information lines mirrored, a configuration checked.
#![tactic(auto)]

ghost use Rattle.std.specs.Prelude.{◌≡◌};
ghost use Rattle.srcp_host.specs.Faults.{host_text};
ghost use Rattle.srcp_server.specs.Statuses.{host_status};
ghost use Rattle.srcp_tool.specs.Faults.{fault_status, fault_text};

use clap::error::ErrorKind;
use srcp_host::{HostFault, serve_here};
use srcp_info::FEWEST_PORTS;
use srcp_layout_file::read_layout;
use srcp_plan_file::read_plan;
use srcp_rules::{Bus, Layout, Nested};
use srcp_tool::{
    Tool, ToolFault, check, check_plan, interlock, mirror, read_config, read_words, replay,
};
use std::alloc::Global;
use std::io::{Read, Write};
use std::net::Net;
use std::process::ExitCode;
use std::rt::{Env, Files};
use std::string::String;
use std::time::Clock;
use std::vec::Vec;
use std::{env, fs, io};

/// Does what the words ask for. Prints a fault on standard error, and returns the fault's status.
fn main(rt: HostRuntime) -> ExitCode {
    let words = match words_given(&rt) {
        Ok(words) => words,
        Err(fault) => return print_no_words(&rt, &fault),
    };
    let tool = match read_words(rt.alloc(), &words) {
        Ok(tool) => tool,
        Err(refused) => return print_refusal(&rt, &refused),
    };
    let done = match tool {
        Tool::Mirror => mirror(rt.alloc(), &mut rt.stdin(), &mut rt.stdout()),
        Tool::Interlock { plan } => set_routes(&rt, plan, &mut rt.stdin(), &mut rt.stdout()),
        Tool::Check { config } => check_file(&rt, config, &mut rt.stdout()),
        Tool::CheckPlan { plan } => check_plan_file(&rt, plan, &mut rt.stdout()),
        Tool::Replay { config } => replay_input(&rt, config, &mut rt.stdin(), &mut rt.stdout()),
        Tool::Serve { config, turns } => serve_layout(&rt, config, turns),
    };
    match done {
        Ok(()) => ExitCode::SUCCESS,
        Err(fault) => print_fault(&rt, fault),
    }
}

/// Returns the program's name and the words behind the name.
fn words_given<R: Env + AllocGlobal>(rt: &R) -> io::Result<Vec<String>> {
    Ok(env::args(rt)?.collect(rt.alloc())?)
}

/// Prints why the words cannot be read, as `clap` would if a word is no UTF-8.
fn print_no_words<R: Eprint>(rt: &R, fault: &io::Error) -> ExitCode {
    if fault.kind() == io::ErrorKind::OutOfMemory {
        return print_fault(rt, ToolFault::Memory);
    }
    let _ = eprintln!(rt;
        "error: invalid UTF-8 was detected in one or more arguments\n\nFor more information, try '--help'."
    );
    ExitCode::from(2)
}

/// Prints what `clap` says of refused words, or of words asking for help or for the version.
fn print_refusal<R: Print + Eprint>(rt: &R, refused: &clap::Error) -> ExitCode {
    if refused.kind() == ErrorKind::OutOfMemory {
        return print_fault(rt, ToolFault::Memory);
    }
    let _ = refused.print(rt);
    if refused.use_stderr() {
        ExitCode::from(2)
    } else {
        ExitCode::SUCCESS
    }
}

fn print_fault<R: Eprint>(rt: &R, fault: ToolFault) -> ExitCode {
    let _ = eprintln!(rt; "srcp_server: {fault}");
    ExitCode::from(fault.status())
}

/// Checks the configuration in a file.
fn check_file<R: Files + AllocGlobal, W: Write>(
    rt: &R,
    path: &str,
    writer: &mut W,
) -> Result<(), ToolFault> {
    let config = read_config_file(rt, path)?;
    check(rt.alloc(), &config, writer)
}

/// Checks the plan in a file.
fn check_plan_file<R: Files + AllocGlobal, W: Write>(
    rt: &R,
    path: &str,
    writer: &mut W,
) -> Result<(), ToolFault> {
    let plan = read_config_file(rt, path)?;
    check_plan(rt.alloc(), &plan, writer)
}

/// Sets the routes of the plan in a file by the lines on the input.
fn set_routes<R: Files + AllocGlobal, I: Read, W: Write>(
    rt: &R,
    path: &str,
    reader: &mut I,
    writer: &mut W,
) -> Result<(), ToolFault> {
    let plan = read_plan(rt.alloc(), &read_config_file(rt, path)?)?;
    interlock(rt.alloc(), plan.bus, plan.routes, reader, writer)
}

fn read_config_file<R: Files + AllocGlobal>(rt: &R, path: &str) -> Result<Vec<u8>, ToolFault> {
    match fs::open(rt, path) {
        Ok(mut file) => read_config(rt.alloc(), &mut file),
        Err(_) => Err(ToolFault::Unreadable),
    }
}

/// Replays a script over the layout of the configuration in a file, or over the built-in layout.
fn replay_input<R: Files + AllocGlobal, I: Read, W: Write>(
    rt: &R,
    path: Option<&str>,
    reader: &mut I,
    writer: &mut W,
) -> Result<(), ToolFault> {
    let layout = match path {
        Some(path) => read_layout(rt.alloc(), &read_config_file(rt, path)?)?.layout,
        None => built_in_layout(rt.alloc())?,
    };
    replay::<Nested, I, W>(rt.alloc(), &layout, reader, writer)
}

/// Makes the layout of a server without a configuration: bus 1 with POWER alone.
fn built_in_layout(alloc: Global) -> Result<Layout, ToolFault> {
    // Stands in the program, since nothing else has a use for this layout.
    let mut layout = Layout::new(alloc);
    let bus = Bus {
        number: 1,
        power: true,
        gl_max: 0,
        ga_max: 0,
        ga_ports: FEWEST_PORTS,
        fb_ports: 0,
    };
    match layout.add(bus) {
        Ok(()) => Ok(layout),
        Err(_) => Err(ToolFault::Memory),
    }
}

/// Serves the layout of the configuration in a file for `turns` turns, to the peers at the configuration's port.
fn serve_layout<R: Files + AllocGlobal + Net + Clock>(
    rt: &R,
    path: &str,
    turns: u64,
) -> Result<(), ToolFault> {
    let config = read_config_file(rt, path)?;
    match serve_here::<Nested, R>(rt, rt.alloc(), &config, turns) {
        Ok(_) => Ok(()),
        Err(fault) => Err(tool_fault(fault)),
    }
}

/// Returns the program's fault for a fault of serving, with the same text.
fn tool_fault(fault: HostFault) -> ToolFault
    ensures text { fault_text result ≡ host_text fault }
    ensures status { fault_status result ≡ host_status fault }
{
    // A port that cannot be had is a fault of three types. One type would stand in `srcp_layout_file`, which knows no
    // socket, no command line and no status.
    match fault {
        HostFault::Config(fault) => ToolFault::Config(fault),
        HostFault::Port => ToolFault::Listen,
        HostFault::Memory => ToolFault::Memory,
    }
}

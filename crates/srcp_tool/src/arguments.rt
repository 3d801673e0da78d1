//! The words of the command line.

ghost use Rattle.std.specs.Prelude.{◌≡◌, false, map, option_map, string_bytes, IfOk, Some};
ghost use Rattle.clap.specs.Words.{app_of, found_of, kind_of, rows_of, rule_of, subcommand_rows_of, FailsBy};
ghost use Rattle.clap.specs.declared.builder.Command.TheViews.{out-Command as fields_of};
ghost use Rattle.srcp_tool.specs.Arguments.{file_rule, turns_rule, server_app, over_lines_app};
ghost use Rattle.srcp_tool.specs.Arguments.{replay_app, mirror_app, interlock_app, check_app, serve_app, program_app};
ghost use Rattle.srcp_tool.specs.Arguments.{config_in, plan_in, turns_in, checked};
ghost use Rattle.srcp_tool.specs.Arguments.{subtask, task_of, task_in, task, refusal_of};

use crate::tool::Tool;
use clap::error::ErrorKind;
use clap::{Arg, ArgMatches, Command, Error, value_parser};
use std::alloc::{AllocError, Global};
use std::string::String;

/// The version of what clients are told, which the welcome line has too, and that of the release.
const VERSION: &str = "1.0 (release 1.20)";

/// The help for the option `--config`.
const CONFIG_HELP: &str = "The configuration: a TOML document with the port and the buses";

/// The help for the option `--plan`.
const PLAN_HELP: &str = "The plan of a signal box: a TOML document with its routes";

/// The text for a check of no file, or of two.
const ONE_FILE: &str = "check needs either --config or --plan";

/// Returns what the words ask for, the program's name first.
///
/// # Errors
/// Returns the answer of `clap` if the words ask for no task of the program, or for `--help` or `--version`. The answer
/// has a text, the stream for the text, and the status. The answer's kind is `OutOfMemory` if memory is refused, and
/// `MissingRequiredArgument` if a check is of no file, or of two.
pub fn read_words<'a>(alloc: Global, words: &'a [String]) -> Result<Tool<'a>, Error>
    ensures task { IfOk result (λ tool. Some (task_of tool) ≡ task (map string_bytes words.entry.now)) }
    ensures kinds { FailsBy (refusal_of (map string_bytes words.entry.now)) result }
{
    let mut program = program(alloc)?;
    let matches = program.try_get_matches_from_mut(words)?;
    match tool_in(&matches) {
        Some(tool) => Ok(tool),
        None => Err(no_one_file(alloc)?),
    }
}

/// Returns the error for a check of no file, or of two. The error shows how `check` is used.
fn no_one_file(alloc: Global) -> Result<Error, AllocError>
    ensures { IfOk result (λ error. kind_of error ≡ ErrorKind.MissingRequiredArgument) }
{
    let mut check = check(alloc)?.bin_name("srcp_server check")?;
    check.error(ErrorKind::MissingRequiredArgument, ONE_FILE)
}

/// Returns what the matches ask for. Without a subcommand this is a replay. Returns `None` for a check of no file or of
/// two.
fn tool_in<'a>(matches: &ArgMatches<'a>) -> Option<Tool<'a>>
    ensures { option_map task_of result ≡ task_in (subcommand_rows_of matches.now) }
{
    match matches.subcommand() {
        None => Some(Tool::Replay { config: None }),
        Some((name, found)) => subtool(name, found),
    }
}

fn subtool<'a>(name: &str, found: &ArgMatches<'a>) -> Option<Tool<'a>>
    ensures { option_map task_of result ≡ subtask name.now (rows_of (found_of found.now)) }
{
    match name {
        "mirror" => Some(Tool::Mirror),
        // `clap` refuses this subcommand without a plan
        "interlock" => Some(Tool::Interlock {
            plan: plan_in(found).unwrap_or(""),
        }),
        "check" => checked(config_in(found), plan_in(found)),
        // `clap` refuses this subcommand without a configuration
        "serve" => Some(Tool::Serve {
            config: config_in(found).unwrap_or(""),
            turns: turns_in(found),
        }),
        _ => Some(Tool::Replay {
            config: config_in(found),
        }),
    }
}

/// Returns the check of the given file. Returns `None` if no file or both are given.
fn checked<'a>(config: Option<&'a str>, plan: Option<&'a str>) -> Option<Tool<'a>>
    ensures { option_map task_of result ≡ checked (option_map (λ file. file.now) config.entry)
        (option_map (λ file. file.now) plan.entry) }
{
    match (config, plan) {
        (Some(config), None) => Some(Tool::Check { config }),
        (None, Some(plan)) => Some(Tool::CheckPlan { plan }),
        _ => None,
    }
}

/// Returns the file behind `--plan`.
fn plan_in<'a>(found: &ArgMatches<'a>) -> Option<&'a str>
    ensures { option_map (λ file. file.now) result ≡ plan_in (rows_of (found_of found.now)) }
{
    found.get_str("plan")
}

/// Returns the file behind `--config`.
fn config_in<'a>(found: &ArgMatches<'a>) -> Option<&'a str>
    ensures { option_map (λ file. file.now) result ≡ config_in (rows_of (found_of found.now)) }
{
    found.get_str("config")
}

/// Returns the number behind `--turns`, or the greatest u64 without this option.
fn turns_in(found: &ArgMatches<'_>) -> u64
    ensures { result ≡ turns_in (rows_of (found_of found.now)) }
{
    found.get_one::<u64>("turns").unwrap_or(u64::MAX)
}

/// Makes the command with its five subcommands.
fn program<'a>(alloc: Global) -> Result<Command<'a>, AllocError>
    ensures app { IfOk result (λ command. app_of command ≡ program_app) }
    ensures local { IfOk result (λ command. (fields_of command).has_globals ≡ false) }
{
    let check = check(alloc)?;
    let serve = serve(alloc)?;
    let command = over_lines(alloc)?.subcommand(check)?;
    command.subcommand(serve)
}

/// Makes the command with the three subcommands over standard input.
fn over_lines<'a>(alloc: Global) -> Result<Command<'a>, AllocError>
    ensures app { IfOk result (λ command. app_of command ≡ over_lines_app) }
    ensures local { IfOk result (λ command. (fields_of command).has_globals ≡ false) }
{
    let replay = replay(alloc)?;
    let mirror = mirror(alloc);
    let interlock = interlock(alloc)?;
    let command = server(alloc).subcommand(replay)?;
    let command = command.subcommand(mirror)?;
    command.subcommand(interlock)
}

/// Makes the command without its subcommands.
fn server<'a>(alloc: Global) -> Command<'a>
    ensures app { app_of result ≡ server_app }
    ensures local { (fields_of result).has_globals ≡ false }
{
    Command::new(alloc, "srcp_server").version(VERSION).about(
        "A server for model railways that speaks SRCP 0.8. Without a command it replays.",
    )
}

fn replay<'a>(alloc: Global) -> Result<Command<'a>, AllocError>
    ensures app { IfOk result (λ command. app_of command ≡ replay_app) }
    ensures local { IfOk result (λ command. (fields_of command).has_globals ≡ false) }
{
    Command::new(alloc, "replay")
        .about("Runs the script on standard input, and prints what every connection is sent")
        .arg(file(alloc, "config", CONFIG_HELP, false))
}

fn mirror<'a>(alloc: Global) -> Command<'a>
    ensures app { app_of result ≡ mirror_app }
    ensures local { (fields_of result).has_globals ≡ false }
{
    Command::new(alloc, "mirror").about(
        "Reads the lines that a panel was sent, and prints the rows that they tell of",
    )
}

fn interlock<'a>(alloc: Global) -> Result<Command<'a>, AllocError>
    ensures app { IfOk result (λ command. app_of command ≡ interlock_app) }
    ensures local { IfOk result (λ command. (fields_of command).has_globals ≡ false) }
{
    Command::new(alloc, "interlock")
        .about(
            "Sets the routes of a plan: reads what a panel is sent and replies, and prints commands",
        )
        .arg(file(alloc, "plan", PLAN_HELP, true))
}

fn check<'a>(alloc: Global) -> Result<Command<'a>, AllocError>
    ensures app { IfOk result (λ command. app_of command ≡ check_app) }
    ensures local { IfOk result (λ command. (fields_of command).has_globals ≡ false) }
{
    let command = Command::new(alloc, "check")
        .about(
            "Reads a configuration, and prints what it says; or a plan, and prints which routes conflict",
        )
        .arg(file(alloc, "config", CONFIG_HELP, false))?;
    command.arg(file(alloc, "plan", PLAN_HELP, false))
}

fn serve<'a>(alloc: Global) -> Result<Command<'a>, AllocError>
    ensures app { IfOk result (λ command. app_of command ≡ serve_app) }
    ensures local { IfOk result (λ command. (fields_of command).has_globals ≡ false) }
{
    let command = Command::new(alloc, "serve")
        .about("Serves throttles and panels on 127.0.0.1")
        .arg(file(alloc, "config", CONFIG_HELP, true))?;
    command.arg(turns(alloc))
}

/// Makes the option of this name, which takes a file.
fn file<'a>(alloc: Global, name: &'a str, help: &'a str, required: bool) -> Arg<'a>
    ensures rule { rule_of result ≡ file_rule name.entry.now required }
    ensures local { result.global ≡ false }
{
    Arg::new(alloc, name)
        .long(name)
        .value_name("FILE")
        .help(help)
        .required(required)
}

/// Makes the option `--turns N`.
fn turns<'a>(alloc: Global) -> Arg<'a>
    ensures rule { rule_of result ≡ turns_rule }
    ensures local { result.global ≡ false }
{
    Arg::new(alloc, "turns")
        .long("turns")
        .value_name("N")
        .value_parser(value_parser!(u64))
        .help("Ends after this number of turns, each a look at every connection")
}

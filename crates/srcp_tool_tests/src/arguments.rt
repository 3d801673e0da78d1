//! Words of the command line. Cases of `tests/run_cases.py` run the program by all of them.

use clap::error::ErrorKind;
use srcp_tool::{Tool, read_words};
use std::alloc::{AllocError, Global};
use std::string::String;
use std::test::Fail;
use std::vec::Vec;

/// Returns the program's name and these words, as a command line has them.
fn given(alloc: Global, words: &[&str]) -> Result<Vec<String>, AllocError> {
    let mut given = Vec::new(alloc);
    given.push(String::from_str(alloc, "srcp_server")?)?;
    for word in words {
        given.push(String::from_str(alloc, word)?)?;
    }
    Ok(given)
}

#[test]
fn replays_without_words(rt: HostRuntime) -> Result<(), Fail> {
    let words = given(rt.alloc(), &[])?;
    let tool = read_words(rt.alloc(), &words)?;
    assert!(rt; matches!(tool, Tool::Replay { config: None }));
    Ok(())
}

#[test]
fn checks_a_configuration(rt: HostRuntime) -> Result<(), Fail> {
    let words = given(rt.alloc(), &["check", "--config=f"])?;
    let tool = read_words(rt.alloc(), &words)?;
    assert!(rt; matches!(tool, Tool::Check { config: "f" }));
    Ok(())
}

/// Returns what is wrong with the words, and the status of the refusal.
fn refused(alloc: Global, words: &[&str]) -> Option<(ErrorKind, i32)> {
    let words = given(alloc, words).ok()?;
    let error = read_words(alloc, &words).err()?;
    Some((error.kind(), error.exit_code()))
}

#[test]
fn refuses_a_check_of_no_file(rt: HostRuntime) {
    let answer = refused(rt.alloc(), &["check"]);
    assert_eq!(rt; answer, Some((ErrorKind::MissingRequiredArgument, 2)));
}

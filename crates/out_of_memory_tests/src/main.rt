//! A trial of what is left if memory is refused, for `tests/run_out_of_memory.py`. Standard input names the trial and
//! the number of allocations before the trial. `rt try --fail-alloc N` refuses the Nth allocation of a program. This
//! number of allocations therefore says which allocation of the trial is refused. The program prints the outcome. The
//! lines after the first are the script of a listing, whose record is printed first. Without a name all trials without
//! a script are made, and each has to be granted.
#![tactic(auto)]

mod calls;
mod door;
mod listing;
mod outcome;
mod play;

use crate::outcome::{Outcome, Refused};
use srcp_rules::{Flat, Nested};
use srcp_text::{read_number, words};
use std::alloc::Global;
use std::io::{Read, Write};
use std::process::ExitCode;
use std::vec::Vec;

/// The most allocations before a trial.
const MOST_BEFORE: u32 = 10_000;

/// The names of the trials without a script.
const TRIALS: [&[u8]; 11] = [
    b"queue",
    b"feed",
    b"mirror",
    b"layout",
    b"connect",
    b"configuration",
    b"script",
    b"words",
    b"serve",
    b"play-flat",
    b"play-nested",
];

/// Makes the trial named by standard input, or all trials without a script if there is no name.
fn main(rt: HostRuntime) -> ExitCode {
    let mut input = [0; 1024];
    let count = match rt.stdin().read(&mut input) {
        Ok(count) => count,
        Err(_) => return ExitCode::FAILURE,
    };
    let (asked, script) = cut_at_line_feed(&input[..count]);
    let mut words = words(asked);
    match words.next() {
        Some(name) => {
            let before = words.next().and_then(|word| read_number(word, MOST_BEFORE));
            let before = before.unwrap_or(0);
            let outcome = trial_after(rt.alloc(), before, name, script, &mut rt.stdout());
            let _ = println!(rt; "{outcome}");
        }
        None => {
            for name in TRIALS {
                let outcome = trial_after(rt.alloc(), 0, name, script, &mut rt.stdout());
                let _ = println!(rt; "{outcome}");
            }
        }
    }
    ExitCode::SUCCESS
}

/// Returns the text before the first LF, and the text behind this LF.
fn cut_at_line_feed(text: &[u8]) -> (&[u8], &[u8]) {
    match text.iter().position(|byte| *byte == b'\n') {
        Some(place) => (&text[..place], &text[place + 1..]),
        None => (text, &[]),
    }
}

/// Makes `before` allocations, and then the trial of this name.
fn trial_after<W: Write>(
    alloc: Global,
    before: u32,
    name: &[u8],
    script: &[u8],
    out: &mut W,
) -> Outcome {
    let made = allocations(alloc, before);
    let outcome = match trial(alloc, name, script, out) {
        Ok(outcome) => outcome,
        Err(Refused) => Outcome::Unprepared,
    };
    match made {
        Ok(_) => outcome,
        Err(Refused) => Outcome::Unprepared,
    }
}

/// Makes a first allocation, and then `count` more.
fn allocations(alloc: Global, count: u32) -> Result<Vec<Vec<u32>>, Refused> {
    let mut made = Vec::with_capacity(alloc, MOST_BEFORE as usize)?;
    for index in 0..count {
        let mut one = Vec::new(alloc);
        one.push(index)?;
        made.push(one)?;
    }
    Ok(made)
}

/// Makes the trial of this name.
fn trial<W: Write>(
    alloc: Global,
    name: &[u8],
    script: &[u8],
    out: &mut W,
) -> Result<Outcome, Refused> {
    match name {
        b"queue" => Ok(calls::queue(alloc)),
        b"feed" => calls::feed(alloc),
        b"mirror" => Ok(calls::mirror(alloc)),
        b"layout" => Ok(calls::layout(alloc)),
        b"connect" => calls::connect(alloc),
        b"configuration" => Ok(calls::configuration(alloc)),
        b"script" => Ok(calls::script(alloc)),
        b"words" => calls::words(alloc),
        b"serve" => door::serve(alloc),
        b"play-flat" => play::play::<Flat>(alloc),
        b"play-nested" => play::play::<Nested>(alloc),
        b"listing-flat" => listing::listing::<Flat, W>(alloc, script, out),
        b"listing-nested" => listing::listing::<Nested, W>(alloc, script, out),
        _ => Ok(Outcome::Broken),
    }
}

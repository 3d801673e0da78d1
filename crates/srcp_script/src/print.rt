//! The record of a run, printed.

ghost use Rattle.std.specs.Prelude.{◌≡◌, ◌+◌, ◌≤◌, [], ◌∷◌, ◌++◌, OnOk, IfOk, decimal, length, not, string_bytes};
ghost use Rattle.std.specs.List.{flat_map, AllByRecursion};
ghost use Rattle.srcp_text.specs.Marks.{rest};
ghost use Rattle.srcp_text.specs.Words.{is_empty};
ghost use Rattle.srcp_info.specs.Client.{listing};
ghost use Rattle.srcp_info.specs.Line.{line};
ghost use Rattle.srcp_info.specs.WellFormed.{IsWellFormedShown};
ghost use Rattle.srcp_info.specs.declared.change.Change.TheVariants as change;
ghost use Rattle.srcp_rules.specs.State.{shown_rows};
ghost use Rattle.srcp_script.specs.Output.{finish_word, fault_word, ended, connection_line, refusal_line, rows_line};
ghost use Rattle.srcp_script.specs.Output.{longest_count, printed_end};

use srcp_core::{ConnRecord, CoreFault, Finish, Record, Refusal};
use srcp_info::{InfoLine, Row, Shown, write_shown};
use srcp_text::{LONGEST_WRITTEN, LineBuf, put_bytes, put_number};
use std::alloc::{AllocError, Global};
use std::string::String;
use std::vec::Vec;

/// Returns the line of a connection: the number, how many bytes the connection was sent, and the state. Allocates no
/// memory.
#[tactic(auto, using(crate::proofs::Prints::finish_most))]
pub fn connection_line(number: usize, conn: &ConnRecord) -> LineBuf
    ensures { result.items ≡ connection_line number conn.now }
{
    let mut line = LineBuf::new();
    put_bytes(b"connection ".as_slice(), &mut line);
    put_count(number, &mut line);
    put_count(conn.sent.as_slice().len(), &mut line);
    put_bytes(finish_word(conn.finish).as_bytes(), &mut line);
    line.push(b'\n');
    line
}

/// Appends a number of at most 20 bytes and a space.
#[tactic(auto, using(crate::proofs::Prints::number_most))]
fn put_count(number: usize, line: &mut LineBuf)
    requires { length line.old.items + longest_count ≤ LONGEST_WRITTEN }
    ensures items { line.new.items ≡ line.old.items ++ decimal number ++ 32 ∷ [] }
    ensures most { length line.new.items ≤ length line.old.items + longest_count }
{
    put_number(number as u64, line);
    line.push(b' ');
}

/// Returns what the last line of these bytes lacks: an LF if there are bytes and the last is no LF, else nothing.
pub fn line_end(bytes: &[u8]) -> &'static [u8]
    ensures { bytes.now ++ result.now ≡ ended bytes.now }
{
    if is_cut(bytes) { b"\n" } else { b"" }
}

/// Returns whether there are bytes and the last is no LF.
fn is_cut(bytes: &[u8]) -> bool
    ensures { result ≡ not (is_empty (rest bytes.now)) }
{
    !bytes.is_empty() && bytes[bytes.len() - 1] != b'\n'
}

fn finish_word(finish: Finish) -> &'static str
    ensures { result.now ≡ finish_word finish }
{
    match finish {
        Finish::Live => "open",
        Finish::Closing => "closing",
        Finish::Overrun => "overrun",
        Finish::Shut => "shut",
    }
}

/// Returns the text behind the connections of a run: the refused events, and the rows in key order.
///
/// # Errors
/// Fails if memory is refused.
pub fn print_end(alloc: Global, run: &Record) -> Result<Vec<u8>, AllocError>
    requires { AllByRecursion (λ row. IsWellFormedShown row.shown) run.now.rows }
    ensures { IfOk result (λ text. text.items ≡ printed_end run.now) }
{
    let mut text = Vec::new(alloc);
    print_refusals(alloc, run.refused.as_slice(), &mut text)?;
    print_rows(alloc, run.rows.as_slice(), &mut text)?;
    Ok(text)
}

fn print_refusals(alloc: Global, refusals: &[Refusal], text: &mut Vec<u8>) -> Result<(), AllocError>
    ensures { OnOk result (text.new.items ≡ text.old.items ++ flat_map refusal_line refusals.now) }
{
    for refusal in refusals {
        let line = refusal_line(alloc, refusal)?;
        text.extend_from_slice(line.as_bytes())?;
    }
    Ok(())
}

fn refusal_line(alloc: Global, refusal: &Refusal) -> Result<String, AllocError>
    ensures { IfOk result (λ line. string_bytes line ≡ refusal_line refusal.now) }
{
    let event = refusal.event;
    let word = fault_word(refusal.fault);
    format!(in alloc; "refused {event} {word}\n")
}

fn fault_word(fault: CoreFault) -> &'static str
    ensures { result.now ≡ fault_word fault }
{
    match fault {
        CoreFault::Full => "Full",
        CoreFault::Memory => "Memory",
        CoreFault::NoSuch => "NoSuch",
        CoreFault::Busy => "Busy",
        CoreFault::PieceTooLong => "PieceTooLong",
        CoreFault::Closing => "Closing",
    }
}

fn print_rows(alloc: Global, rows: &[Row], text: &mut Vec<u8>) -> Result<(), AllocError>
    requires { AllByRecursion (λ row. IsWellFormedShown row.shown) rows.now }
    ensures { OnOk result (text.new.items
        ≡ text.old.items ++ (rows_line rows.now ++ listing (shown_rows rows.now))) }
{
    let line = rows_line(alloc, rows)?;
    text.extend_from_slice(line.as_bytes())?;
    for row in rows {
        print_shown(&row.shown, text)?;
    }
    Ok(())
}

fn rows_line(alloc: Global, rows: &[Row]) -> Result<String, AllocError>
    ensures { IfOk result (λ line. string_bytes line ≡ rows_line rows.now) }
{
    let count = rows.len();
    format!(in alloc; "rows {count}\n")
}

/// Appends the line of a row to a text.
///
/// # Errors
/// Fails if memory is refused.
pub fn print_shown(shown: &Shown, text: &mut Vec<u8>) -> Result<(), AllocError>
    requires { IsWellFormedShown shown.now }
    ensures { OnOk result (text.new.items ≡ text.old.items ++ line (change.Put shown.now)) }
{
    let mut line = InfoLine::new();
    write_shown(shown, &mut line);
    text.extend_from_slice(&line)
}

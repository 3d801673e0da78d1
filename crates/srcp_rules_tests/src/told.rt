//! The answers of a keeper of any kind to its sessions.

ghost use Rattle.std.specs.Prelude.{◌≡◌};
ghost use Rattle.std.specs.List.{AllByRecursion};
ghost use Rattle.srcp_info.specs.WellFormed.{IsWellFormed, IsWellFormedReply};
ghost use Rattle.srcp_grammar.specs.Devices.{session_device};
ghost use Rattle.srcp_rules.specs.State.{IsWhole, is_there};

use srcp_info::{Change, Cursor, Device, Group, Mode, Reply, Row, write_change, write_reply};
use srcp_rules::{Layout, Rows, begin_session, due_next, free_next, obey, parse_command};
use srcp_text::LineBuf;
use std::test::Fail;

/// Appends the line of a reply.
pub(crate) fn push_reply(said: &mut Vec<u8>, moment: u64, reply: &Reply) -> Result<(), Fail>
    requires { IsWellFormedReply reply.now }
{
    let mut line = LineBuf::new();
    write_reply(moment, reply, &mut line);
    said.extend_from_slice(line.as_slice())?;
    Ok(())
}

/// Appends the line of a change.
pub(crate) fn push_change(said: &mut Vec<u8>, change: &Change) -> Result<(), Fail>
    requires { IsWellFormed change.now }
{
    let mut line = LineBuf::new();
    write_change(change, &mut line);
    said.extend_from_slice(line.as_slice())?;
    Ok(())
}

/// Appends the lines of changes.
pub(crate) fn push_changes(said: &mut Vec<u8>, changes: &[Change]) -> Result<(), Fail>
    requires { AllByRecursion IsWellFormed changes.now }
{
    for change in changes {
        push_change(said, change)?;
    }
    Ok(())
}

/// Appends all rows, walked from the start to the end.
pub(crate) fn push_rows<R: Rows>(walked: &mut Vec<Row>, rows: &R) -> Result<(), Fail> {
    let mut cursor = Cursor::Start;
    for _ in 0..1000 {
        let Some(row) = rows.row_after(cursor) else {
            break;
        };
        walked.extend_from_slice(&[*row])?;
        cursor = Cursor::After(row.shown.key);
    }
    match rows.row_after(Cursor::Done) {
        Some(_) => Err(Fail::from("a row after the end")),
        None => Ok(()),
    }
}

/// Returns whether the session has a row.
fn has_session<R: Rows>(rows: &R, session: u32) -> bool
    ensures { result ≡ is_there (session_device session) (R.state rows.now) }
{
    let own = Device {
        bus: 0,
        group: Group::Session,
        address: session,
    };
    rows.row(&own.first_key()).is_some()
}

/// Appends the change at the beginning of a command session.
pub(crate) fn push_begun<R: Rows>(
    said: &mut Vec<u8>,
    rows: &mut R,
    session: u32,
    moment: u64,
) -> Result<(), Fail>
    requires whole { IsWhole (R.buses rows.old) (R.state rows.old) }
    ensures layout { R.buses rows.new ≡ R.buses rows.old }
    ensures whole { IsWhole (R.buses rows.new) (R.state rows.new) }
{
    if session == 0 || has_session(rows, session) {
        return Err(Fail::from("a session that is there"));
    }
    match begin_session(rows, session, moment, Mode::Command) {
        Ok(change) => push_change(said, &change),
        Err(_) => Err(Fail::from("no memory")),
    }
}

/// Appends the reply to a session's line, the changes made, and a last line if the session is to end.
pub(crate) fn push_line<R: Rows>(
    said: &mut Vec<u8>,
    layout: &Layout,
    rows: &mut R,
    session: u32,
    moment: u64,
    line: &[u8],
) -> Result<(), Fail>
    requires same { R.buses rows.old ≡ layout.now }
    requires whole { IsWhole (R.buses rows.old) (R.state rows.old) }
    ensures layout { R.buses rows.new ≡ R.buses rows.old }
    ensures whole { IsWhole (R.buses rows.new) (R.state rows.new) }
{
    let command = match parse_command(line, layout) {
        Ok(command) => command,
        Err(code) => return push_reply(said, moment, &Reply::Refused(code)),
    };
    if !has_session(rows, session) {
        return Err(Fail::from("no such session"));
    }
    let obeyed = obey(rows, session, moment, &command);
    push_reply(said, moment, &obeyed.reply)?;
    push_changes(said, obeyed.changes.as_slice())?;
    if obeyed.ends {
        said.extend_from_slice(b"the session ends\n")?;
    }
    Ok(())
}

/// Appends the changes at a moment.
pub(crate) fn push_due<R: Rows>(said: &mut Vec<u8>, rows: &mut R, moment: u64) -> Result<(), Fail>
    requires whole { IsWhole (R.buses rows.old) (R.state rows.old) }
    ensures layout { R.buses rows.new ≡ R.buses rows.old }
    ensures whole { IsWhole (R.buses rows.new) (R.state rows.new) }
{
    let mut cursor = Cursor::Start;
    for _ in 0..20 {
        let Some(change) = due_next(rows, moment, cursor) else {
            return Ok(());
        };
        push_change(said, &change)?;
        cursor = Cursor::After(change.key());
    }
    Err(Fail::from("more than 20 changes"))
}

/// Appends the changes at the end of a session.
pub(crate) fn push_end<R: Rows>(
    said: &mut Vec<u8>,
    rows: &mut R,
    session: u32,
    moment: u64,
) -> Result<(), Fail>
    requires whole { IsWhole (R.buses rows.old) (R.state rows.old) }
    ensures layout { R.buses rows.new ≡ R.buses rows.old }
    ensures whole { IsWhole (R.buses rows.new) (R.state rows.new) }
{
    for _ in 0..20 {
        let Some(change) = free_next(rows, session, moment) else {
            return Ok(());
        };
        push_change(said, &change)?;
    }
    Err(Fail::from("more than 20 changes"))
}

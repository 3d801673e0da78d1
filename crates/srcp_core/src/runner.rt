//! A run over a list of events.
ghost use Rattle.std.specs.Prelude.{◌≡◌, ◌≤◌, IfOk, OnOk};
ghost use Rattle.std.specs.List.{AllByRecursion};
ghost use Rattle.srcp_info.specs.WellFormed.{IsMoment, IsWellFormedShown};
ghost use Rattle.srcp_grammar.specs.Layout.{IsLayout};
ghost use Rattle.srcp_core.specs.Promised.{IsPromised, IsPromisedOutline};
ghost use Rattle.srcp_core.specs.Recording.{Becomes};
ghost use Rattle.srcp_core.specs.Run.{RunsTold, PlainMoments, HasPlainMoment};
ghost use Rattle.srcp_core.specs.Run.{Happens, Follows, count_at, taken_at, taking};

use crate::event::Event;
use crate::record::{CoreFault, Record, Step};
use crate::recorder::{Detail, Full, Outline, Recorder};
use crate::server_core::Core;
use srcp_rules::{Layout, Memory, Rows};
use std::alloc::Global;

/// Says why a run returns no record.
#[derive(Clone, Copy, Debug, PartialEq, Eq)]
pub enum RunFault {
    /// Memory for the core or the record is refused.
    Memory,
}

impl From<Memory> for RunFault {
    fn from(_: Memory) -> RunFault {
        RunFault::Memory
    }
}

/// Carries out the events over the registry of the layout, and returns the record of the run. The first moment is 0,
/// and the first session id is 1. A refused event changes nothing, and the run goes on.
///
/// `promised` says: memory answered each event in some way (`grants`), and of the events under these answers:
/// - The record is the record of their course (`is`).
/// - Each connection is served rightly (`connections`). A connection without an information session is sent its replies
///   alone, rooms add up, and nothing is sent after an overrun.
/// - Each information session is told rightly (`connections`), however the writes are cut. While the registry stays the
///   same, the listing is sent. Once the session is settled, each device that was there all the time was listed exactly
///   once. A client that applies all lines then holds the registry.
/// - The registry is whole after each step (`world`).
/// - The record counts exactly the answers that refused (`counted`), each of them asked for (`asked`). If none is
///   counted, memory gave in each event (`given`), and the course is the course with ample memory
///   (`laws::ample_memory`).
///
/// # Errors
/// Returns `Memory` if memory is refused to the core when it is made, or to the record.
pub fn run<R: Rows>(alloc: Global, layout: &Layout, events: &[Event]) -> Result<Record, RunFault>
    ensures well_formed { IfOk result (λ run. AllByRecursion (λ row. IsWellFormedShown row.shown) run.rows) }
    ensures promised { IfOk result (λ run. IsPromised layout.now events.now run) }
{
    carry_out::<R, Full>(alloc, layout, events)
}

/// Carries out the events as `run` does, and returns the outline of the record. The outline has no steps. Of each
/// connection it has what was sent, and how the connection is at the end. The rows and the refused events are the same.
///
/// Allocates less than `run`, since no change is kept beside each line of a panel.
///
/// # Errors
/// Returns `Memory` if memory is refused to the core when it is made, or to the record.
pub fn run_in_outline<R: Rows>(
    alloc: Global,
    layout: &Layout,
    events: &[Event],
) -> Result<Record, RunFault>
    ensures well_formed { IfOk result (λ run. AllByRecursion (λ row. IsWellFormedShown row.shown) run.rows) }
    ensures promised { IfOk result (λ run. IsPromisedOutline layout.now events.now run) }
{
    carry_out::<R, Outline>(alloc, layout, events)
}

/// Carries out all events, and keeps the record in the detail `D`.
fn carry_out<R: Rows, D: Detail>(
    alloc: Global,
    layout: &Layout,
    events: &[Event],
) -> Result<Record, RunFault>
    ensures well_formed { IfOk result (λ run. AllByRecursion (λ row. IsWellFormedShown row.shown) run.rows) }
    ensures record { IfOk result (λ run. RunsTold D.IN_FULL layout.now events.now run) }
    ensures moments { IfOk result (λ _. PlainMoments events.now) }
    ensures laid_out { IfOk result (λ _. IsLayout layout.now) }
{
    // Called for the contract, which says the layout's limits.
    let _ = layout.buses();
    let mut core = Core::<R>::new(alloc, layout, 0, 0)?;
    let mut recorder = Recorder::<D>::new(alloc);
    for index in 0..events.len() {
        // A refused event is counted by events: a line that a script skips counts for none.
        follow(&mut core, &mut recorder, index + 1, &events[index])?;
    }
    Ok(recorder.record(&core)?)
}

/// Carries out the event of this number, and records a refusal.
fn follow<R: Rows, D: Detail>(
    core: &mut Core<'_, R>,
    recorder: &mut Recorder<D>,
    number: usize,
    event: &Event,
) -> Result<(), Memory>
    ensures course { OnOk result (Follows D.IN_FULL number event.now recorder.old core.old recorder.new core.new) }
    ensures moment { HasPlainMoment event.now }
{
    if let Some(fault) = happen(core, recorder, event)? {
        recorder.refused(number, fault)?;
    }
    Ok(())
}

/// Carries out an event. Returns why the event is refused, if refused.
fn happen<R: Rows, D: Detail>(
    core: &mut Core<'_, R>,
    recorder: &mut Recorder<D>,
    event: &Event,
) -> Result<Option<CoreFault>, Memory>
    ensures course { IfOk result
        (λ refusal. Happens D.IN_FULL event.now refusal recorder.old core.old recorder.new core.new) }
    ensures moment { HasPlainMoment event.now }
{
    match event {
        Event::Open => open(core, recorder),
        Event::Bytes { conn, piece } => bytes(core, recorder, *conn, piece.as_slice()),
        Event::Room { conn, bytes } => room(core, recorder, *conn, *bytes),
        Event::At(moment) => advance(core, recorder, *moment),
        Event::Shut { conn } => shut(core, recorder, *conn),
    }
}

/// Opens a connection, and records the key. Returns why the opening is refused, if refused, as each of these functions
/// does.
fn open<R: Rows, D: Detail>(
    core: &mut Core<'_, R>,
    recorder: &mut Recorder<D>,
) -> Result<Option<CoreFault>, Memory>
    ensures { IfOk result
        (λ refusal. Happens D.IN_FULL Event.Open refusal recorder.old core.old recorder.new core.new) }
{
    match core.connect() {
        Ok(key) => {
            recorder.opened(key)?;
            Ok(None)
        }
        Err(fault) => Ok(Some(fault)),
    }
}

/// Takes a piece line by line, and records the steps of each.
fn bytes<R: Rows, D: Detail>(
    core: &mut Core<'_, R>,
    recorder: &mut Recorder<D>,
    conn: usize,
    piece: &[u8],
) -> Result<Option<CoreFault>, Memory>
    ensures { IfOk result
        (λ refusal.
        Happens D.IN_FULL (Event.Bytes conn piece.now) refusal recorder.old core.old recorder.new core.new) }
{
    let Some(key) = recorder.key(conn) else {
        return Ok(Some(CoreFault::NoSuch));
    };
    if let Some(fault) = core.bytes_fault(key, piece) {
        return Ok(Some(fault));
    }
    let mut start = 0;
    while let Some((stop, line)) = core.answer_line(key, piece, start) {
        recorder.answered(conn, &line)?;
        start = stop;
    }
    Ok(None)
}

/// Sends `bytes` bytes of a connection, or all bytes owed if there are fewer.
fn room<R: Rows, D: Detail>(
    core: &mut Core<'_, R>,
    recorder: &mut Recorder<D>,
    conn: usize,
    bytes: usize,
) -> Result<Option<CoreFault>, Memory>
    ensures { IfOk result
        (λ refusal. Happens D.IN_FULL (Event.Room conn bytes) refusal recorder.old core.old recorder.new core.new) }
{
    let Some(key) = recorder.key(conn) else {
        return Ok(Some(CoreFault::NoSuch));
    };
    let mut left = bytes;
    loop {
        let count = take(core, recorder, conn, key, left)?;
        left -= count;
        if left == 0 || count == 0 {
            return Ok(None);
        }
    }
}

/// Sends at most `bytes` bytes of a connection, once the next line is appended if nothing is unsent. Returns how many
/// were sent.
fn take<R: Rows, D: Detail>(
    core: &mut Core<'_, R>,
    recorder: &mut Recorder<D>,
    conn: usize,
    key: usize,
    most: usize,
) -> Result<usize, Memory>
    ensures most { IfOk result (λ count. count ≤ most) }
    ensures count { IfOk result (λ count. count ≡ count_at key most core.old) }
    ensures recorder { OnOk result (Becomes D.IN_FULL (taking conn key most core.old) recorder.old recorder.new) }
    ensures core { OnOk result (core.new ≡ taken_at key most core.old) }
    ensures denied { core.new.denied ≡ core.old.denied }
{
    recorder.gave(conn, core, key)?;
    let count = match core.outgoing(key) {
        Ok(bytes) => {
            let count = bytes.len().min(most);
            recorder.sent(conn, &bytes[..count])?;
            count
        }
        Err(_) => return Ok(0),
    };
    core.sent(key, count);
    Ok(count)
}

/// Advances to a moment, and records the step.
fn advance<R: Rows, D: Detail>(
    core: &mut Core<'_, R>,
    recorder: &mut Recorder<D>,
    moment: u64,
) -> Result<Option<CoreFault>, Memory>
    ensures course { IfOk result
        (λ refusal. Happens D.IN_FULL (Event.At moment) refusal recorder.old core.old recorder.new core.new) }
    ensures fits { IsMoment moment }
{
    core.advance(moment);
    recorder.step(&Step::Moment(core.moment()))?;
    Ok(None)
}

/// Hangs up a connection, and records the end of the session if the session goes on.
fn shut<R: Rows, D: Detail>(
    core: &mut Core<'_, R>,
    recorder: &mut Recorder<D>,
    conn: usize,
) -> Result<Option<CoreFault>, Memory>
    ensures { IfOk result
        (λ refusal. Happens D.IN_FULL (Event.Shut conn) refusal recorder.old core.old recorder.new core.new) }
{
    let Some(key) = recorder.key(conn) else {
        return Ok(Some(CoreFault::NoSuch));
    };
    // The end of a session by its own command is recorded already, and a hang-up then is no further step.
    let session = core.live_session(key);
    if let Err(fault) = core.hangup(key) {
        return Ok(Some(fault));
    }
    recorder.shut(conn);
    if let Some(session) = session {
        recorder.step(&Step::Ended {
            session,
            moment: core.moment(),
        })?;
    }
    Ok(None)
}

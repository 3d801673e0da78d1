//! The record of a run while the run goes on.
ghost use Rattle.std.specs.Prelude.{◌≡◌, ◌∷◌, ◌++◌, [], OnOk, IfOk};
ghost use Rattle.std.specs.List.{AllByRecursion};
ghost use Rattle.srcp_info.specs.WellFormed.{IsWellFormedShown};
ghost use Rattle.srcp_core.specs.Course.{is_info};
ghost use Rattle.srcp_core.specs.Machine.{item_at, steps_in};
ghost use Rattle.srcp_core.specs.Recording.{key_of, nothing_recorded, opened, shut, began, noted, stepped, gave};
ghost use Rattle.srcp_core.specs.Recording.{with_sent, with_item, with_refusal, without_key};
ghost use Rattle.srcp_core.specs.Recording.{changed_record, finished, Becomes};

use crate::entries::Entries;
use crate::line::LineRecord;
use crate::record::{ConnRecord, CoreFault, Finish, Item, Record, Refusal, Step};
use crate::server_core::Core;
use srcp_feed::Next;
use srcp_info::Mode;
use srcp_rules::{Memory, Rows};
use std::alloc::Global;
use std::marker::{Model, PhantomData};

// A type parameter, so that `carry_out` stands once and the compiler drops what an outline has no use for. The steps
// and items of a full record take three times the memory of all else.
/// Says how much of a run is kept.
pub(crate) trait Detail {
    ghost use Rattle.std.specs.Prelude.{Bool};

    ghost IN_FULL: { Bool };

    /// True if all of a record is kept: steps and items, and each field of a connection.
    const IN_FULL: bool;
}

/// All of a record.
pub(crate) struct Full;

impl Detail for Full {
    ghost use Rattle.std.specs.Prelude.{true};

    ghost IN_FULL = { true };

    const IN_FULL: bool = true;
}

/// The outline of a record.
pub(crate) struct Outline;

impl Detail for Outline {
    ghost use Rattle.std.specs.Prelude.{false};

    ghost IN_FULL = { false };

    const IN_FULL: bool = false;
}

/// Keeps the record of a run. Connections are named by their numbers, from 1 on.
#[derive(Drop)]
pub(crate) struct Recorder<D: Detail> {
    alloc: Global,
    // The key of each connection, while it is open.
    keys: Vec<Option<usize>>,
    steps: Vec<Step>,
    connections: Vec<ConnRecord>,
    refused: Vec<Refusal>,
    detail: PhantomData<D>,
}

impl<D: Detail> Model for Recorder<D> {
    ghost use Rattle.srcp_core.specs.Recording.{Recording};

    ghost Value = { Recording };

    ghost view = { λ r.
        record {
          keys = r.keys.items;
          steps = r.steps.items;
          connections = r.connections.items;
          refused = r.refused.items;
        } };
}

impl<D: Detail> Recorder<D> {
    /// Makes an empty record.
    pub(crate) fn new(alloc: Global) -> Recorder<D>
        ensures { result ≡ nothing_recorded }
    {
        Recorder {
            alloc,
            keys: Vec::new(alloc),
            steps: Vec::new(alloc),
            connections: Vec::new(alloc),
            refused: Vec::new(alloc),
            detail: PhantomData,
        }
    }

    /// Returns the key of an open connection, or `None` if the connection is not open.
    pub(crate) fn key(&self, conn: usize) -> Option<usize>
        ensures { result ≡ key_of conn self.now.keys }
    {
        let index = conn.checked_sub(1)?;
        *self.keys.get(index)?
    }

    /// Records the opening of a connection under a key.
    pub(crate) fn opened(&mut self, key: usize) -> Result<(), Memory>
        ensures { OnOk result (Becomes D.IN_FULL (opened key) self.old self.new) }
    {
        self.keys.push(Some(key))?;
        self.connections.push(ConnRecord {
            session: 0,
            info: false,
            go_step: 0,
            sent: Entries::new(self.alloc),
            items: Entries::new(self.alloc),
            finish: Finish::Live,
        })?;
        Ok(())
    }

    /// Records the hang-up of a connection.
    pub(crate) fn shut(&mut self, conn: usize)
        ensures { Becomes D.IN_FULL (shut conn) self.old self.new }
    {
        free(&mut self.keys, conn);
        set_finish(&mut self.connections, conn, Finish::Shut);
    }

    /// Records the refusal of the event of this number.
    pub(crate) fn refused(&mut self, event: usize, fault: CoreFault) -> Result<(), Memory>
        ensures { OnOk result (Becomes D.IN_FULL (with_refusal event fault) self.old self.new) }
    {
        Ok(self.refused.push(Refusal { event, fault })?)
    }

    /// Records a step of the registry.
    pub(crate) fn step(&mut self, step: &Step) -> Result<(), Memory>
        ensures { OnOk result (Becomes D.IN_FULL (stepped (step.now ∷ [])) self.old self.new) }
    {
        if !D::IN_FULL {
            return Ok(());
        }
        Ok(self.steps.extend_from_slice(&[*step])?)
    }

    /// Records the answer to a line of a connection.
    pub(crate) fn answered(&mut self, conn: usize, line: &LineRecord) -> Result<(), Memory>
        ensures { OnOk result (Becomes D.IN_FULL (noted conn (steps_in line.now)) self.old self.new) }
    {
        if let Some(step) = &line.step {
            self.note(conn, step)?;
        }
        if let Some(end) = &line.end {
            self.note(conn, end)?;
        }
        Ok(())
    }

    /// Records a step of the registry at a line of a connection.
    fn note(&mut self, conn: usize, step: &Step) -> Result<(), Memory>
        ensures { OnOk result (Becomes D.IN_FULL (noted conn (step.now ∷ [])) self.old self.new) }
    {
        self.step(step)?;
        self.began(conn, step);
        Ok(())
    }

    /// Records the beginning of a session, if the step is one.
    fn began(&mut self, conn: usize, step: &Step)
        ensures { Becomes D.IN_FULL (began conn step.now) self.old self.new }
    {
        if !D::IN_FULL {
            return;
        }
        if let Step::Began { session, mode, .. } = step {
            // The step that begins the session is recorded already, so the session counts that step too.
            let go_step = self.steps.len();
            begin(&mut self.connections, conn, *session, *mode, go_step);
        }
    }

    /// Records what an information session is given next, or nothing if nothing is left.
    pub(crate) fn gave<R: Rows>(
        &mut self,
        conn: usize,
        core: &Core<'_, R>,
        key: usize,
    ) -> Result<(), Memory>
        ensures { OnOk result (Becomes D.IN_FULL (gave conn (item_at key core.now)) self.old self.new) }
    {
        if !D::IN_FULL {
            return Ok(());
        }
        match core.item(key) {
            None | Some(Next::Settled) => Ok(()),
            Some(what) => give(&mut self.connections, conn, self.steps.len(), what),
        }
    }

    /// Records the sending of these bytes of a connection.
    pub(crate) fn sent(&mut self, conn: usize, bytes: &[u8]) -> Result<(), Memory>
        ensures { OnOk result (Becomes D.IN_FULL (with_sent conn bytes.now) self.old self.new) }
    {
        take(&mut self.connections, conn, bytes)
    }

    /// Returns the record of the run, with the state of the core at the end.
    pub(crate) fn record<R: Rows>(mut self, core: &Core<'_, R>) -> Result<Record, Memory>
        ensures well_formed { IfOk result (λ run. AllByRecursion (λ row. IsWellFormedShown row.shown) run.rows) }
        ensures steps { IfOk result (λ run. run.steps ≡ self.steps) }
        ensures refused { IfOk result (λ run. run.refused ≡ self.refused) }
        ensures connections { IfOk result (λ run. run.connections ≡ finished core.now self.keys self.connections) }
        ensures rows { IfOk result (λ run. run.rows ≡ core.now.rows) }
        ensures denied { IfOk result (λ run. run.denied ≡ core.now.denied) }
    {
        finish_all(&self.keys, &mut self.connections, core);
        Ok(Record {
            steps: Entries::of(self.steps),
            connections: Entries::of(self.connections),
            refused: Entries::of(self.refused),
            rows: core.rows(self.alloc)?,
            denied: core.denied(),
        })
    }
}

/// Records how each open connection is at the end.
fn finish_all<R: Rows>(
    keys: &[Option<usize>],
    connections: &mut Vec<ConnRecord>,
    core: &Core<'_, R>,
)
    ensures { connections.new.items ≡ finished core.now keys.now connections.old.items }
{
    for index in 0..keys.len() {
        if let Some(key) = keys[index] {
            set_finish(connections, index + 1, core.finish_of(key));
        }
    }
}

/// Drops the key of the connection of the number.
fn free(keys: &mut Vec<Option<usize>>, conn: usize)
    ensures { keys.new.items ≡ without_key conn keys.old.items }
{
    let Some(index) = conn.checked_sub(1) else {
        return;
    };
    if let Some(key) = keys.get_mut(index) {
        *key = None;
    }
}

// Four functions look up the record of a number, each for itself. A function that lends the record saves three lines
// in each, but takes seven, and definitions that say what a lent record becomes.
/// Records the beginning of a session of the connection of the number.
fn begin(connections: &mut Vec<ConnRecord>, conn: usize, session: u32, mode: Mode, go_step: usize)
    ensures { connections.new.items
        ≡ changed_record conn (λ one. record one { session = session; info = is_info mode; go_step = go_step })
        connections.old.items }
{
    let Some(index) = conn.checked_sub(1) else {
        return;
    };
    if let Some(connection) = connections.get_mut(index) {
        connection.session = session;
        connection.info = mode == Mode::Info;
        connection.go_step = go_step;
    }
}

/// Records a line given to the connection of the number.
fn give(
    connections: &mut Vec<ConnRecord>,
    conn: usize,
    steps: usize,
    what: Next,
) -> Result<(), Memory>
    ensures { OnOk result (connections.new.items ≡ changed_record conn (with_item steps what) connections.old.items) }
{
    let Some(index) = conn.checked_sub(1) else {
        return Ok(());
    };
    match connections.get_mut(index) {
        Some(connection) => Ok(connection.items.extend(&[Item { steps, what }])?),
        None => Ok(()),
    }
}

/// Records the sending of bytes of the connection of the number.
fn take(connections: &mut Vec<ConnRecord>, conn: usize, bytes: &[u8]) -> Result<(), Memory>
    ensures { OnOk result
        (connections.new.items
        ≡ changed_record conn (λ one. record one { sent = one.sent ++ bytes.now }) connections.old.items) }
{
    let Some(index) = conn.checked_sub(1) else {
        return Ok(());
    };
    match connections.get_mut(index) {
        Some(connection) => Ok(connection.sent.extend(bytes)?),
        None => Ok(()),
    }
}

/// Records how the connection of the number is.
fn set_finish(connections: &mut Vec<ConnRecord>, conn: usize, finish: Finish)
    ensures { connections.new.items
        ≡ changed_record conn (λ one. record one { finish = finish }) connections.old.items }
{
    let Some(index) = conn.checked_sub(1) else {
        return;
    };
    if let Some(connection) = connections.get_mut(index) {
        connection.finish = finish;
    }
}

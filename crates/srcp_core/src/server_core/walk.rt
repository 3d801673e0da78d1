//! Walks over all connections, and over the changes of a moment and of a session's end.
ghost use Rattle.std.specs.Prelude.{◌≡◌, ◌≤◌, count_by, is_some, map};
ghost use Rattle.std.specs.List.{AllByRecursion};
ghost use Rattle.srcp_info.specs.declared.change.Change.{Change};
ghost use Rattle.srcp_info.specs.WellFormed.{IsWellFormed};
ghost use Rattle.srcp_rules.specs.Due.{due, freed};
ghost use Rattle.srcp_rules.specs.State.{IsWhole, updated_all};
ghost use Rattle.srcp_core.specs.Machine.{panel_keys, slack_at, told_all, told_each};
ghost use Rattle.srcp_core.specs.Waits.{least, changes_left};

use crate::connection::Connection;
use crate::limits::MOST_CONNECTIONS;
use arrayvec::ArrayVec;
use slab::Slab;
use srcp_feed::ChangeLine;
use srcp_info::{Change, Cursor, MOST_WAITING};
use srcp_rules::{Rows, due_next, free_next};

/// Holds the keys of the connections with an information session.
pub(crate) type PanelKeys = ArrayVec<usize, MOST_CONNECTIONS>;

/// Returns the keys of the connections with an information session, in order.
pub(crate) fn panel_keys(connections: &Slab<Connection>) -> PanelKeys
    requires { count_by is_some connections.now.slots ≤ MOST_CONNECTIONS }
    ensures { result.items ≡ panel_keys connections.now.slots }
{
    let mut keys = ArrayVec::new();
    for (key, connection) in connections.iter() {
        if connection.is_panel() {
            keys.push(key);
        }
    }
    keys
}

/// Returns how many more changes each information session can queue, or `MOST_WAITING` if there is none.
pub(crate) fn least_slack(connections: &Slab<Connection>) -> usize
    ensures { result ≡ changes_left (least (map slack_at connections.now.slots)) }
{
    let mut least = MOST_WAITING;
    for (_, connection) in connections.iter() {
        if let Some(slack) = connection.slack() {
            least = least.min(slack);
        }
    }
    least
}

/// Queues the change for every information session. `panels` are the keys of the connections with such a session.
#[tactic(auto, using(crate::proofs::Invariants::EveryPlaceIsTold::told_panels))]
pub(crate) fn tell_all(connections: &mut Slab<Connection>, panels: &[usize], change: &Change)
    requires panels { panels.now ≡ panel_keys connections.old.slots }
    requires change { IsWellFormed change.now }
    ensures slots { connections.new.slots ≡ told_all change.now connections.old.slots }
    ensures capacity { connections.new.capacity ≡ connections.old.capacity }
{
    if panels.is_empty() {
        return;
    }
    // The line is written once for all panels, and each panel copies the line.
    let told = ChangeLine::new(change);
    for key in panels {
        if let Some(connection) = connections.get_mut(*key) {
            connection.tell(&told);
        }
    }
}

/// Queues each change in turn for every information session.
#[tactic(auto, using(crate::proofs::Invariants::PanelsStay::panels_told_each))]
pub(crate) fn tell_each(connections: &mut Slab<Connection>, panels: &[usize], changes: &[Change])
    requires panels { panels.now ≡ panel_keys connections.old.slots }
    requires changes { AllByRecursion IsWellFormed changes.now }
    ensures slots { connections.new.slots ≡ told_each changes.now connections.old.slots }
    ensures capacity { connections.new.capacity ≡ connections.old.capacity }
{
    for change in changes {
        tell_all(connections, panels, change);
    }
}

/// Ends a session: removes the locks, then the session's row, and tells every connection.
pub(crate) fn free_all<R: Rows>(
    rows: &mut R,
    connections: &mut Slab<Connection>,
    panels: &[usize],
    session: u32,
    moment: u64,
)
    requires whole { IsWhole (R.buses rows.old) (R.state rows.old) }
    requires panels { panels.now ≡ panel_keys connections.old.slots }
    ensures layout { R.buses rows.new ≡ R.buses rows.old }
    ensures rows { R.state rows.new ≡ updated_all (freed (R.state rows.old) session moment) (R.state rows.old) }
    ensures slots { connections.new.slots
        ≡ told_each (map (λ update. update.change) (freed (R.state rows.old) session moment)) connections.old.slots }
    ensures capacity { connections.new.capacity ≡ connections.old.capacity }
{
    while let Some(change) = free_next(rows, session, moment) {
        tell_all(connections, panels, &change);
    }
}

/// Carries out the rows due at the moment, in key order, and tells every connection.
pub(crate) fn carry_out_due<R: Rows>(
    rows: &mut R,
    connections: &mut Slab<Connection>,
    panels: &[usize],
    moment: u64,
)
    requires whole { IsWhole (R.buses rows.old) (R.state rows.old) }
    requires panels { panels.now ≡ panel_keys connections.old.slots }
    ensures layout { R.buses rows.new ≡ R.buses rows.old }
    ensures rows { R.state rows.new ≡ updated_all (due (R.state rows.old) moment) (R.state rows.old) }
    ensures slots { connections.new.slots
        ≡ told_each (map (λ update. update.change) (due (R.state rows.old) moment)) connections.old.slots }
    ensures capacity { connections.new.capacity ≡ connections.old.capacity }
{
    let mut at = Cursor::Start;
    while let Some(change) = due_next(rows, moment, at) {
        tell_all(connections, panels, &change);
        at = Cursor::After(change.key());
    }
}

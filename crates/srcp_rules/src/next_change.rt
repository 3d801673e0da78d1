//! The next change of a moment or of the end of a session.

ghost use Rattle.std.specs.Prelude.{◌≡◌, IfSome, option_map, slice_get};
ghost use Rattle.srcp_info.specs.WellFormed.{IsWellFormed};
ghost use Rattle.srcp_rules.specs.Due.{due_after, due_change, freed};
ghost use Rattle.srcp_rules.specs.State.{AddsNoRow, IsWhole, MayFall, row_at, updated, updated_if};

use crate::device::session_device;
use crate::registry::{is_there, put_of, remove, row_put};
use crate::rows::Rows;
use srcp_info::{Change, Cursor, Row, Value};

/// Carries out the first of the moment's changes beyond the cursor, in key order. Returns `None`, and changes nothing,
/// if there is none. A due lock ends, and a due port becomes 0, as in SRCP 0.8 (GA, LOCK). A row is due from its due
/// moment on.
pub fn due_next<R: Rows>(rows: &mut R, moment: u64, cursor: Cursor) -> Option<Change>
    requires whole { IsWhole (R.buses rows.old) (R.state rows.old) }
    ensures change { result ≡ option_map (λ update. update.change) (due_after (R.state rows.old) moment cursor) }
    ensures rows { R.state rows.new ≡ updated_if (due_after (R.state rows.old) moment cursor) (R.state rows.old) }
    ensures layout { R.buses rows.new ≡ R.buses rows.old }
    ensures whole { IsWhole (R.buses rows.new) (R.state rows.new) }
    ensures well_formed { IfSome result IsWellFormed }
    ensures adds_no_row { IfSome result (AddsNoRow (R.state rows.old)) }
{
    // A call carries out a single change. Each leaves the registry whole, so panels can be told between two.
    let row = rows.next_due(moment, cursor)?;
    Some(carry_out(rows, moment, &row))
}

/// Carries out the change of a due row.
fn carry_out<R: Rows>(rows: &mut R, moment: u64, row: &Row) -> Change
    requires whole { IsWhole (R.buses rows.old) (R.state rows.old) }
    requires there { row_at row.now.shown.key (R.state rows.old) ≡ Some row.now }
    requires may { MayFall row.now.shown.value }
    ensures change { result ≡ (due_change moment row.now.shown.key row.now.shown.value).change }
    ensures rows { R.state rows.new
        ≡ updated (due_change moment row.now.shown.key row.now.shown.value) (R.state rows.old) }
    ensures layout { R.buses rows.new ≡ R.buses rows.old }
{
    let key = row.shown.key;
    match row.shown.value {
        Value::Lock { .. } => remove(rows, moment, key.device()),
        _ => {
            let clear = row_put(moment, key, Value::GaPort { on: false }, None);
            rows.set(clear);
            put_of(&clear)
        }
    }
}

/// Carries out the first of the changes of a session's end: the locks are removed in key order, and the session's row
/// last. Returns `None`, and changes nothing, if the session has neither. Locks go with their session in SRCP 0.8
/// (LOCK).
pub fn free_next<R: Rows>(rows: &mut R, session: u32, moment: u64) -> Option<Change>
    requires whole { IsWhole (R.buses rows.old) (R.state rows.old) }
    ensures change { result
        ≡ option_map (λ update. update.change) (slice_get (freed (R.state rows.old) session moment) 0) }
    ensures rows { R.state rows.new
        ≡ updated_if (slice_get (freed (R.state rows.old) session moment) 0) (R.state rows.old) }
    ensures layout { R.buses rows.new ≡ R.buses rows.old }
    ensures whole { IsWhole (R.buses rows.new) (R.state rows.new) }
    ensures well_formed { IfSome result IsWellFormed }
{
    if let Some(row) = rows.first_held(session) {
        let lock = row.shown.key.device();
        return Some(remove(rows, moment, lock));
    }
    let own = session_device(session);
    if !is_there(rows, own) {
        return None;
    }
    Some(remove(rows, moment, own))
}

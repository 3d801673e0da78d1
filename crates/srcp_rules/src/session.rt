//! The beginning of a session.

ghost use Rattle.std.specs.Prelude.{◌≡◌, ◌≤◌, false, IfOk, OnOk, OnErr};
ghost use Rattle.srcp_info.specs.WellFormed.{IsWellFormed};
ghost use Rattle.srcp_rules.specs.Due.{began};
ghost use Rattle.srcp_grammar.specs.Devices.{session_device};
ghost use Rattle.srcp_rules.specs.State.{AddsNoRow, IsWhole, is_there, updated};

use crate::device::session_device;
use crate::obeyed::Memory;
use crate::registry::{put_of, row_put};
use crate::rows::Rows;
use srcp_info::{Change, Mode, Value};

/// Adds the row of a new session, and returns its Put. The id is at least 1 and not there, and the registry is whole.
/// In a whole registry such an id has no row at all, as `Rows::add` requires.
///
/// # Errors
/// Returns `Memory`, and changes nothing, if memory is refused.
pub fn begin_session<R: Rows>(
    rows: &mut R,
    session: u32,
    moment: u64,
    mode: Mode,
) -> Result<Change, Memory>
    requires whole { IsWhole (R.buses rows.old) (R.state rows.old) }
    requires session { 1 ≤ session }
    requires free { is_there (session_device session) (R.state rows.old) ≡ false }
    ensures change { IfOk result (λ change. change ≡ (began session moment mode).change) }
    ensures rows { OnOk result (R.state rows.new ≡ updated (began session moment mode) (R.state rows.old)) }
    ensures err { OnErr result (R.state rows.new ≡ R.state rows.old) }
    ensures layout { R.buses rows.new ≡ R.buses rows.old }
    ensures whole { IsWhole (R.buses rows.new) (R.state rows.new) }
    ensures well_formed { IfOk result IsWellFormed }
    ensures adds_no_row { IfOk result (AddsNoRow (R.state rows.old)) }
{
    let key = session_device(session).first_key();
    let row = row_put(moment, key, Value::Session { mode }, None);
    let change = put_of(&row);
    // The id has no first row. A registry that is not whole may still have another row of the id, which `add` forbids.
    rows.add(&[row])?;
    Ok(change)
}

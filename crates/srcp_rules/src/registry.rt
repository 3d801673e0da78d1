//! Sets, shows and removes rows of a registry, each with its change.

ghost use Rattle.std.specs.Prelude.{◌≡◌, [], ◌∷◌, IsTrue};
ghost use Rattle.srcp_info.specs.WellFormed.{can_go};
ghost use Rattle.srcp_rules.specs.Effect.{accepted, gone_at, put_at, shown_at};
ghost use Rattle.srcp_rules.specs.Obeyed.{IsTold, Took};
ghost use Rattle.srcp_rules.specs.State.{IsRowOf, has_row, is_there, put_of, updated, row_put};

use crate::obeyed::Obeyed;
use crate::rows::Rows;
use srcp_info::{Change, Code, Device, Key, Reply, Row, Shown, Value};

/// Returns whether the device is there.
pub(crate) fn is_there<R: Rows>(rows: &R, device: Device) -> bool
    ensures { result ≡ is_there device (R.state rows.now) }
{
    rows.row(&device.first_key()).is_some()
}

/// Makes the row of a Put at the moment.
pub(crate) fn row_put(moment: u64, key: Key, value: Value, due: Option<u64>) -> Row
    ensures { result ≡ row_put moment key value due }
{
    let shown = Shown {
        key,
        stamp: moment,
        value,
    };
    Row { shown, due }
}

/// Returns the change for a client when the row is set.
pub(crate) fn put_of(row: &Row) -> Change
    ensures { result ≡ (put_of row.now).change }
{
    Change::Put(row.shown)
}

/// Replaces a row, and makes that the command's only change. The row has to be there.
pub(crate) fn replace_row<R: Rows>(
    rows: &mut R,
    moment: u64,
    key: Key,
    value: Value,
    due: Option<u64>,
    obeyed: &mut Obeyed,
)
    requires blank { IsTold (accepted []) obeyed.old }
    requires there { IsTrue (has_row key (R.state rows.old)) }
    requires fits { IsRowOf (R.buses rows.old) (row_put moment key value due) }
    ensures took { Took (accepted (put_at moment key value due ∷ [])) (R.state rows.old) (R.state rows.new) obeyed.new }
    ensures layout { R.buses rows.new ≡ R.buses rows.old }
{
    let row = row_put(moment, key, value, due);
    obeyed.changes.push(put_of(&row));
    rows.set(row);
}

/// Answers with the row at the key, or with 416 if there is none.
pub(crate) fn show<R: Rows>(rows: &R, key: &Key, obeyed: &mut Obeyed)
    requires { IsTold (accepted []) obeyed.old }
    ensures { Took (shown_at key.now (R.state rows.now)) (R.state rows.now) (R.state rows.now) obeyed.new }
{
    match rows.row(key) {
        Some(row) => obeyed.reply = Reply::Shows(row.shown),
        None => obeyed.refuse(Code::NO_SUCH_DEVICE),
    }
}

/// Removes the rows of a device, and returns the change.
pub(crate) fn remove<R: Rows>(rows: &mut R, moment: u64, device: Device) -> Change
    requires { IsTrue (can_go device.group) }
    ensures change { result ≡ (gone_at moment device).change }
    ensures layout { R.buses rows.new ≡ R.buses rows.old }
    ensures rows { R.state rows.new ≡ updated (gone_at moment device) (R.state rows.old) }
{
    rows.drop_device(device);
    Change::Gone {
        stamp: moment,
        device,
    }
}

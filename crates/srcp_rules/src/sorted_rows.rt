//! Rows in one list, by rising key.

ghost use Rattle.std.specs.Prelude.{◌≡◌, ◌+◌, ◌<◌, ◌≤◌, IsTrue, IfOk, IfErr, OnOk, OnErr, option_copied, vec_len};
ghost use Rattle.std.specs.Prelude.{vec_capacity};
ghost use Rattle.srcp_rules.specs.Rows.{put_rows};
ghost use Rattle.srcp_rules.specs.KeyIndex.{HasKeyAt, IsGapAt};
ghost use Rattle.srcp_rules.specs.Filter.{passes};
ghost use Rattle.srcp_rules.specs.State.{IsRising, first_beyond, has_row, put_row, row_after, row_at, without};

use crate::filter::RowFilter;
use crate::obeyed::Memory;
use srcp_info::{Cursor, Device, Key, Row, compare};

/// Searches rows by rising key. Returns `Ok` with the index of the row at the key, or `Err` with the index for a new
/// row there.
pub(crate) fn index_of(rows: &[Row], key: &Key) -> Result<usize, usize>
    requires { IsRising rows.now }
    ensures at { IfOk result (HasKeyAt rows.now key.now) }
    ensures gap { IfErr result (IsGapAt rows.now key.now) }
{
    rows.binary_search_by(|row| compare(&row.shown.key, key))
}

/// Returns the row at the key.
pub(crate) fn row_in<'a>(rows: &'a [Row], key: &Key) -> Option<&'a Row>
    requires { IsRising rows.now }
    ensures { option_copied result ≡ row_at key.now rows.now }
{
    match index_of(rows, key) {
        Ok(index) => Some(&rows[index]),
        Err(_) => None,
    }
}

/// Returns the row with the least key beyond the cursor.
#[inline(always)]
pub(crate) fn row_after_in(rows: &[Row], cursor: Cursor) -> Option<&Row>
    requires { IsRising rows.now }
    ensures { option_copied result ≡ row_after cursor rows.now }
{
    let index = rows.partition_point(|row| cursor.has_reached(&row.shown.key));
    rows.get(index)
}

/// Finds the first row beyond the cursor that the filter passes.
pub(crate) fn first_in(rows: &[Row], cursor: Cursor, filter: RowFilter) -> Option<&Row>
    ensures { option_copied result ≡ first_beyond cursor (passes filter) rows.now }
{
    rows.iter().find(|row| !cursor.has_reached(&row.shown.key) && filter.passes(row))
}

/// Sets the row at its key. There has to be capacity for another row.
fn put(rows: &mut Vec<Row>, row: Row)
    requires rising { IsRising rows.old.items }
    requires capacity { vec_len rows.old < vec_capacity rows.old }
    ensures rows { rows.new.items ≡ put_row row rows.old.items }
    ensures len { vec_len rows.new ≤ vec_len rows.old + 1 }
    ensures capacity { vec_capacity rows.old ≤ vec_capacity rows.new }
{
    match index_of(rows, &row.shown.key) {
        Ok(index) => rows[index] = row,
        Err(index) => {
            // There is capacity, so no memory can be refused.
            let _ = rows.insert(index, row);
        }
    }
}

/// Adds rows, each at its key.
pub(crate) fn add_all(rows: &mut Vec<Row>, added: &[Row]) -> Result<(), Memory>
    requires { IsRising rows.old.items }
    ensures ok { OnOk result (rows.new.items ≡ put_rows added.now rows.old.items) }
    ensures err { OnErr result (rows.new.items ≡ rows.old.items) }
{
    rows.reserve(added.len())?;
    for row in added {
        put(rows, *row);
    }
    Ok(())
}

/// Replaces a row, which has to be there.
pub(crate) fn set_in(rows: &mut Vec<Row>, row: Row)
    requires rising { IsRising rows.old.items }
    requires there { IsTrue (has_row row.shown.key rows.old.items) }
    ensures { rows.new.items ≡ put_row row rows.old.items }
{
    if let Ok(index) = index_of(rows, &row.shown.key) {
        rows[index] = row;
    }
}

/// Removes the rows of a device.
pub(crate) fn drop_in(rows: &mut Vec<Row>, device: Device)
    ensures { rows.new.items ≡ without device rows.old.items }
{
    rows.retain(|row| !device.owns(&row.shown.key));
}

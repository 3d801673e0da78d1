//! The rows of one device, by port.

ghost use Rattle.std.specs.Prelude.{◌≡◌, ◌<◌, ◌≤◌, IsTrue, length, option_copied, slice_set};
ghost use Rattle.srcp_info.specs.declared.change.Cursor.TheVariants.{After};
ghost use Rattle.srcp_rules.specs.Nested.{AreOfDevice};
ghost use Rattle.srcp_rules.specs.State.{IsRising, has_row, put_row, row_after, row_at};

use crate::sorted_rows::index_of;
use arrayvec::ArrayVec;
use srcp_info::{Key, Row};
use std::marker::Model;

/// Keeps the rows of a device by rising port: at most N, in the value itself. Contracts see the list of the rows.
#[derive(Drop)]
pub(crate) struct DeviceRows<const N: usize> {
    rows: ArrayVec<Row, N>,
}

impl<const N: usize> Model for DeviceRows<N> {
    ghost use Rattle.srcp_rules.specs.State.{State};

    ghost Value = { State };

    ghost view = { λ d. d.rows.items };
}

impl<const N: usize> DeviceRows<N> {
    /// Keeps these rows.
    pub(crate) fn of(rows: &[Row]) -> DeviceRows<N>
        requires { length rows.now ≤ N }
        ensures { result ≡ rows.now }
    {
        let mut kept = ArrayVec::new();
        kept.try_extend_from_slice(rows).unwrap();
        DeviceRows { rows: kept }
    }

    /// Returns the rows.
    pub(crate) fn as_slice(&self) -> &[Row]
        ensures { result.now ≡ self.now }
    {
        self.rows.as_slice()
    }

    /// Returns the row at a key of the device. The rows differ by their ports alone.
    pub(crate) fn row(&self, key: &Key) -> Option<&Row>
        requires { AreOfDevice key.now.bus key.now.group key.now.address self.now }
        ensures { option_copied result ≡ row_at key.now self.now }
    {
        self.as_slice()
            .iter()
            .find(|row| row.shown.key.port == key.port)
    }

    /// Returns the row with the least key beyond a key of the device.
    #[inline(always)]
    pub(crate) fn row_after(&self, last: &Key) -> Option<&Row>
        requires { AreOfDevice last.now.bus last.now.group last.now.address self.now }
        ensures { option_copied result ≡ row_after (After last.now) self.now }
    {
        self.as_slice()
            .iter()
            .find(|row| row.shown.key.port > last.port)
    }

    /// Replaces a row, which has to be there.
    pub(crate) fn set(&mut self, row: &Row)
        requires rising { IsRising self.old }
        requires there { IsTrue (has_row row.now.shown.key self.old) }
        ensures { self.new ≡ put_row row.now self.old }
    {
        if let Ok(index) = index_of(self.as_slice(), &row.shown.key) {
            put(&mut self.rows, index, *row);
        }
    }
}

/// Puts a row in the place of another.
fn put<const N: usize>(rows: &mut ArrayVec<Row, N>, index: usize, row: Row)
    requires { index < length rows.old.items }
    ensures { rows.new.items ≡ slice_set rows.old.items index row }
{
    rows[index] = row;
}

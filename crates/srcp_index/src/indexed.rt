//! The rows of a keeper, with an index of due moments, and another of the sessions with locks.
ghost use Rattle.std.specs.Prelude.{◌≡◌, ◌+◌, ◌<◌, ◌≤◌, length};
ghost use Rattle.std.specs.List.{AllByRecursion};
ghost use Rattle.srcp_index.specs.Earliest.{IsEarliestDue};
ghost use Rattle.srcp_index.specs.Indexed.{IsIndexed, removable_rows, may_rank};

use crate::indexes::Indexes;
use srcp_info::{Cursor, Device, Group, Key, Row};
use srcp_rules::{Layout, Memory, Rows, most_rows};
use std::alloc::Global;
use std::marker::Model;

/// Holds the rows of a keeper with their indexes. Contracts see the keeper alone.
///
/// ```
/// let rows: Indexed<Nested> = Indexed::empty(alloc, &layout)?;
/// assert_eq!(rows.earliest_due(), None);
/// ```
#[derive(Drop)]
pub struct Indexed<R: Rows> {
    rows: R,
    indexes: Indexes,
    /// The number of rows of devices that come and go. The indexes reserve memory for as many.
    // Exact: with a count that stayed as devices went, each INIT would reserve more memory.
    count: usize,
}

impl<R: Rows> Model for Indexed<R> {
    ghost use Rattle.srcp_index.specs.Indexed.{IsIndexed};

    ghost Value = { R };

    ghost view = { λ x. x.rows };

    ghost invariant = { λ x. IsIndexed (R.state x.rows) x.indexes x.count };
}

impl<R: Rows> Indexed<R> {
    /// Returns the moment at which the first of the rows falls due, or `None` if no row has a due moment.
    pub fn earliest_due(&self) -> Option<u64>
        ensures { IsEarliestDue result (R.state self.now) }
    {
        self.indexes.moments.least()
    }
}

impl<R: Rows> Rows for Indexed<R> {
    ghost buses = { λ x. R.buses x };

    ghost state = { λ x. R.state x };

    fn empty(alloc: Global, layout: &Layout) -> Result<Self, Memory> {
        // Called for the contract, which says the layout's limits.
        let _ = layout.buses();
        let rows = R::empty(alloc, layout)?;
        Ok(Indexed {
            rows,
            indexes: Indexes::new(alloc),
            count: 0,
        })
    }

    fn row(&self, key: &Key) -> Option<&Row> {
        self.rows.row(key)
    }

    #[inline(always)]
    fn row_after(&self, cursor: Cursor) -> Option<&Row> {
        self.rows.row_after(cursor)
    }

    fn next_due(&mut self, moment: u64, cursor: Cursor) -> Option<Row> {
        self.indexes.moments.sort_for(moment);
        let pair = self.indexes.moments.first_due_beyond(cursor)?;
        self.rows.row(&pair.key).copied()
    }

    fn first_held(&self, session: u32) -> Option<Row> {
        let pair = self.indexes.sessions.first_of(u64::from(session))?;
        self.rows.row(&pair.key).copied()
    }

    fn add(&mut self, added: &[Row]) -> Result<(), Memory> {
        let Some(total) = self.count.checked_add(added.len()) else {
            return Err(Memory);
        };
        self.indexes.reserve(total)?;
        self.rows.add(added)?;
        self.indexes.insert_all(added);
        self.count += removable_rows(added);
        Ok(())
    }

    #[inline(always)]
    fn set(&mut self, row: Row) {
        // A row of any other group has no rank, and is set without a look at the row before.
        if !may_rank(row.shown.key.group) {
            return self.rows.set(row);
        }
        let Some(old) = self.rows.row(&row.shown.key) else {
            return;
        };
        self.indexes.remove(old);
        self.indexes.insert(&row);
        self.rows.set(row);
    }

    fn drop_device(&mut self, device: Device) {
        // As many ports as the group may have: a lock has a single row, and an accessory nine.
        for port in 0..most_rows(device.group) {
            let key = Key {
                bus: device.bus,
                group: device.group,
                address: device.address,
                port,
            };
            if let Some(row) = self.rows.row(&key) {
                self.indexes.remove(row);
                self.count -= 1;
            }
        }
        self.rows.drop_device(device);
    }
}

/// Returns whether a row of the group may have a due moment or a holder. Only accessories and locks have such rows.
fn may_rank(group: Group) -> bool
    ensures { result ≡ may_rank group }
{
    matches!(group, Group::Ga | Group::LockGl | Group::LockGa)
}

/// Counts the rows of devices that come and go.
fn removable_rows(rows: &[Row]) -> usize
    ensures { result ≡ removable_rows rows.now }
{
    rows.iter()
        .filter(|row| row.shown.key.group.can_go())
        .count()
}

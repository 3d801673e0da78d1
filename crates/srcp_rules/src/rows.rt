//! The interface of a keeper of rows.

ghost use Rattle.std.specs.Prelude.{◌≡◌, List, IsTrue, IfOk, OnOk, OnErr, find, option_copied};
ghost use Rattle.srcp_info.specs.declared.key.Device.{Device};
ghost use Rattle.srcp_info.specs.WellFormed.{can_go};
ghost use Rattle.srcp_grammar.specs.declared.layout.Bus.{Bus};
ghost use Rattle.srcp_rules.specs.Due.{is_due, is_held_by};
ghost use Rattle.srcp_rules.specs.Rows.{AreNewRowsOf, most_rows, put_rows};
ghost use Rattle.srcp_rules.specs.State.{State, IsRowOf, first_beyond, has_row, opening, put_row, row_at, row_after};
ghost use Rattle.srcp_rules.specs.State.{without};

use crate::obeyed::Memory;
use srcp_grammar::Layout;
use srcp_info::{Cursor, Device, Group, Key, MOST_PORTS, Row};
use std::alloc::Global;

/// Limits the rows of a device: an accessory with the most ports has as many.
pub(crate) const MOST_ROWS: usize = 1 + MOST_PORTS as usize;

/// Returns how many rows a device of the group has at most. Each port of a row is below this number.
pub fn most_rows(group: Group) -> u8
    ensures { result ≡ most_rows group }
{
    match group {
        Group::Gl => 2,
        Group::Ga => MOST_ROWS as u8,
        _ => 1,
    }
}

// A layout and a state, and not one value of both: the value saves a clause of 35 functions, and is written out at 263
// places that name a part alone.
/// Keeps the rows of a registry, and the layout of the registry. The rows are in order of bus, group, address and port.
pub trait Rows: Drop {
    /// The buses of the layout.
    ghost buses: { Self → List Bus };

    /// The rows in key order.
    ghost state: { Self → State };

    /// Makes the registry of the layout at the moment 0: the power of each bus is off and its feedback ports are 0.
    /// Fails if memory is refused.
    fn empty(alloc: Global, layout: &Layout) -> Result<Self, Memory>
        ensures layout { IfOk result (λ kept. buses kept ≡ layout.now) }
        ensures rows { IfOk result (λ kept. state kept ≡ opening layout.now 0) };

    /// Returns the row at the key, or `None` if no row has this key.
    fn row(&self, key: &Key) -> Option<&Row>
        ensures { option_copied result ≡ row_at key.now (state self.now) };

    /// Returns the row with the least key beyond the cursor, or `None` if the cursor is past the last row or `Done`.
    fn row_after(&self, cursor: Cursor) -> Option<&Row>
        ensures { option_copied result ≡ row_after cursor (state self.now) };

    /// Finds the first row beyond the cursor, in key order, whose due moment has come. Returns `None` if there is no
    /// such row.
    fn next_due(&mut self, moment: u64, cursor: Cursor) -> Option<Row>
        ensures row { result ≡ first_beyond cursor (is_due moment) (state self.old) }
        ensures layout { buses self.new ≡ buses self.old }
        ensures rows { state self.new ≡ state self.old };

    /// Finds the first lock of the session, in key order. Returns `None` if the session holds no lock.
    fn first_held(&self, session: u32) -> Option<Row>
        ensures { result ≡ find (is_held_by session) (state self.now) };

    /// Adds all rows of a single new device, in key order. Fails, and changes nothing, if memory is refused.
    fn add(&mut self, added: &[Row]) -> Result<(), Memory>
        requires { (device : Device) × AreNewRowsOf (buses self.old) (state self.old) device added.now }
        ensures layout { buses self.new ≡ buses self.old }
        ensures ok { OnOk result (state self.new ≡ put_rows added.now (state self.old)) }
        ensures err { OnErr result (state self.new ≡ state self.old) };

    /// Replaces the row at the key of `row`. A row with this key has to be there.
    fn set(&mut self, row: Row)
        requires there { IsTrue (has_row row.shown.key (state self.old)) }
        requires fits { IsRowOf (buses self.old) row }
        ensures layout { buses self.new ≡ buses self.old }
        ensures rows { state self.new ≡ put_row row (state self.old) };

    /// Removes the rows of a device, if there are any. The device has to be of a group that comes and goes.
    fn drop_device(&mut self, device: Device)
        requires { IsTrue (can_go device.group) }
        ensures layout { buses self.new ≡ buses self.old }
        ensures rows { state self.new ≡ without device (state self.old) };
}

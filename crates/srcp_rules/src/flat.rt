//! A keeper of rows in one vector.

ghost use Rattle.std.specs.Prelude.{◌≡◌, ◌++◌, IfOk, OnOk};
ghost use Rattle.srcp_rules.specs.State.{IsRising, opening, opening_on};

use crate::filter::RowFilter;
use crate::first_rows::{push_ports, push_power};
use crate::obeyed::Memory;
use crate::rows::Rows;
use crate::sorted_rows::{add_all, drop_in, first_in, row_after_in, row_in, set_in};
use srcp_grammar::{Bus, Layout};
use srcp_info::{Cursor, Device, Key, Row};
use std::alloc::Global;
use std::marker::Model;

/// Keeps the rows of a registry in one vector, by rising key.
///
/// ```
/// let mut rows = Flat::empty(alloc, &layout)?;
/// begin_session(&mut rows, 1, moment, Mode::Command)?;
/// let obeyed = obey(&mut rows, 1, moment, &command);
/// ```
#[derive(Drop)]
pub struct Flat {
    buses: Vec<Bus>,
    rows: Vec<Row>,
}

impl Model for Flat {
    ghost use Rattle.srcp_rules.specs.Rows.{Kept};

    ghost Value = { Kept };

    ghost use Rattle.srcp_rules.specs.State.{IsRising};

    ghost view = { λ f. record { buses = f.buses.items; state = f.rows.items } };

    ghost invariant = { λ f. IsRising f.rows.items };
}

impl Rows for Flat {
    ghost buses = { λ f. f.buses };

    ghost state = { λ f. f.state };

    fn empty(alloc: Global, layout: &Layout) -> Result<Self, Memory> {
        let buses = Vec::from_slice(alloc, layout.buses())?;
        let rows = opening_rows(alloc, layout)?;
        Ok(Flat { buses, rows })
    }

    fn row(&self, key: &Key) -> Option<&Row> {
        row_in(&self.rows, key)
    }

    fn row_after(&self, cursor: Cursor) -> Option<&Row> {
        row_after_in(&self.rows, cursor)
    }

    fn next_due(&mut self, moment: u64, cursor: Cursor) -> Option<Row> {
        first_in(&self.rows, cursor, RowFilter::Due(moment)).copied()
    }

    fn first_held(&self, session: u32) -> Option<Row> {
        first_in(&self.rows, Cursor::Start, RowFilter::HeldBy(session)).copied()
    }

    fn add(&mut self, added: &[Row]) -> Result<(), Memory> {
        add_all(&mut self.rows, added)
    }

    fn set(&mut self, row: Row) {
        set_in(&mut self.rows, row);
    }

    fn drop_device(&mut self, device: Device) {
        drop_in(&mut self.rows, device);
    }
}

/// Makes the rows of the layout at the moment 0.
fn opening_rows(alloc: Global, layout: &Layout) -> Result<Vec<Row>, Memory>
    ensures rows { IfOk result (λ rows. rows.items ≡ opening layout.now 0) }
    ensures rising { IfOk result (λ rows. IsRising rows.items) }
{
    let mut rows = Vec::new(alloc);
    for bus in layout.buses() {
        push_opening(&mut rows, bus)?;
    }
    Ok(rows)
}

/// Appends the opening rows of a bus.
fn push_opening(rows: &mut Vec<Row>, bus: &Bus) -> Result<(), Memory>
    ensures { OnOk result (rows.new.items ≡ rows.old.items ++ opening_on 0 bus.now) }
{
    push_power(rows, bus)?;
    push_ports(rows, bus.number, bus.fb_ports)
}

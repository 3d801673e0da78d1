//! A keeper of rows by bus, group and address.

ghost use Rattle.std.specs.Prelude.{◌≡◌, ◌<◌, [], ◌∷◌, ◌++◌, true, map, Some, IfOk, IfSome, OnOk, option_copied};
ghost use Rattle.std.specs.List.{AllByRecursion};
ghost use Rattle.std.specs.Map.{keys_of};
ghost use Rattle.srcp_info.specs.declared.key.Key.{Key};
ghost use Rattle.srcp_info.specs.Key.{has_reached};
ghost use Rattle.srcp_grammar.specs.Layout.{server};
ghost use Rattle.srcp_rules.specs.Filter.{passes};
ghost use Rattle.srcp_rules.specs.State.{first_beyond, opening, row_after};
ghost use Rattle.srcp_rules.specs.Nested.{AreRowsOfBus, AreSorted, bus_rows, listed};

mod bus_rows;
mod device_rows;
mod devices;

use crate::filter::RowFilter;
use crate::nested::bus_rows::BusRows;
use crate::obeyed::Memory;
use crate::rows::Rows;
use srcp_grammar::{Bus, Layout, SERVER};
use srcp_info::{Cursor, Device, Key, Row};
use std::alloc::Global;
use std::collections::BTreeMap;
use std::marker::Model;

/// Keeps the rows of a registry in a record for each bus. The first record is of the server's own bus.
///
/// ```
/// let rows = Nested::empty(alloc, &layout)?;
/// let mut at = Cursor::Start;
/// while let Some(row) = rows.row_after(at) {
///     print(row);
///     at = Cursor::After(row.shown.key);
/// }
/// ```
#[derive(Drop)]
pub struct Nested {
    buses: Vec<Bus>,
    by_number: BTreeMap<u8, BusRows>,
}

impl Model for Nested {
    ghost use Rattle.srcp_rules.specs.Rows.{Kept};

    ghost Value = { Kept };

    ghost use Rattle.srcp_rules.specs.Nested.{AreRowsOfLayout, bus_rows, listed};

    ghost view = { λ n. record { buses = n.buses.items; state = listed bus_rows n.by_number.entries } };

    ghost invariant = { λ n. AreRowsOfLayout n.buses.items n.by_number.entries };
}

impl Rows for Nested {
    ghost buses = { λ n. n.buses };

    ghost state = { λ n. n.state };

    fn empty(alloc: Global, layout: &Layout) -> Result<Self, Memory> {
        let buses = Vec::from_slice(alloc, layout.buses())?;
        let by_number = opening_buses(alloc, layout)?;
        Ok(Nested { buses, by_number })
    }

    fn row(&self, key: &Key) -> Option<&Row> {
        self.by_number.get(&key.bus)?.row(key)
    }

    #[inline(always)]
    fn row_after(&self, cursor: Cursor) -> Option<&Row> {
        match self.row_after_in_own_group(cursor) {
            Some(row) => Some(row),
            None => self.row_after_of_each_bus(cursor),
        }
    }

    fn next_due(&mut self, moment: u64, cursor: Cursor) -> Option<Row> {
        self.first_after(cursor, RowFilter::Due(moment))
    }

    fn first_held(&self, session: u32) -> Option<Row> {
        self.first_after(Cursor::Start, RowFilter::HeldBy(session))
    }

    fn add(&mut self, added: &[Row]) -> Result<(), Memory> {
        let Some(first) = added.first() else {
            return Ok(());
        };
        match self.by_number.get_mut(&first.shown.key.bus) {
            Some(rows) => rows.add(first, added),
            None => unreachable!(),
        }
    }

    #[inline(always)]
    fn set(&mut self, row: Row) {
        let Some(rows) = self.by_number.get_mut(&row.shown.key.bus) else {
            return;
        };
        rows.set(&row);
    }

    fn drop_device(&mut self, device: Device) {
        let Some(rows) = self.by_number.get_mut(&device.bus) else {
            return;
        };
        rows.drop_device(device);
    }
}

impl Nested {
    /// Finds the row with the least key beyond the cursor, if the row is of the cursor's own group. Nearly each row of
    /// a listing is.
    #[inline(always)]
    fn row_after_in_own_group(&self, cursor: Cursor) -> Option<&Row>
        ensures { IfSome result (λ row. Some row.now ≡ row_after cursor self.now.state) }
    {
        let Cursor::After(last) = cursor else {
            return None;
        };
        let rows = self.by_number.get(&last.bus)?;
        rows.row_after_in_group(last.bus, last.group, cursor)
    }

    /// Finds the row with the least key beyond the cursor, bus by bus.
    #[cold]
    #[inline(never)]
    fn row_after_of_each_bus(&self, cursor: Cursor) -> Option<&Row>
        ensures { option_copied result ≡ row_after cursor self.now.state }
    {
        for (number, rows) in self.by_number.range(first_bus(cursor)..) {
            if let Some(row) = rows.row_after(*number, cursor) {
                return Some(row);
            }
        }
        None
    }

    /// Finds the first row beyond the cursor that the filter passes.
    fn first_after(&self, cursor: Cursor, filter: RowFilter) -> Option<Row>
        ensures { result ≡ first_beyond cursor (passes filter) self.now.state }
    {
        // The proof learns here that the rows are in key order.
        let _rows = &self.by_number;
        let mut at = cursor;
        while let Some(row) = self.row_after(at) {
            if filter.passes(row) {
                return Some(*row);
            }
            at = Cursor::After(row.shown.key);
        }
        None
    }
}

/// Makes the rows of the server's own bus and of each bus of a layout, as they are at the moment 0.
fn opening_buses(alloc: Global, layout: &Layout) -> Result<BTreeMap<u8, BusRows>, Memory>
    ensures each { IfOk result (λ buses. AllByRecursion (λ e. AreRowsOfBus e.0 e.1) buses.entries) }
    ensures sorted { IfOk result (λ buses. AreSorted buses.entries) }
    ensures numbers { IfOk result (λ buses. keys_of buses.entries ≡ map (λ bus. bus.number) (server ∷ layout.now)) }
    ensures rows { IfOk result (λ buses. listed bus_rows buses.entries ≡ opening layout.now 0) }
{
    let mut buses = BTreeMap::new(alloc);
    let server = BusRows::opening(alloc, &SERVER)?;
    add_bus(&mut buses, SERVER.number, server)?;
    for bus in layout.buses() {
        let rows = BusRows::opening(alloc, bus)?;
        add_bus(&mut buses, bus.number, rows)?;
    }
    Ok(buses)
}

/// Adds the rows of a bus behind those of all others.
fn add_bus(buses: &mut BTreeMap<u8, BusRows>, number: u8, rows: BusRows) -> Result<(), Memory>
    requires { AllByRecursion (λ n. n < number) (keys_of buses.old.entries) }
    ensures entries { OnOk result (buses.new.entries ≡ buses.old.entries ++ (number, rows) ∷ []) }
    ensures sorted { OnOk result (AreSorted buses.new.entries) }
{
    match buses.insert(number, rows) {
        Ok(_) => Ok(()),
        Err(_) => Err(Memory),
    }
}

/// Returns a bus below which the cursor has reached all keys.
fn first_bus(cursor: Cursor) -> u8
    ensures { (key : Key) → key.bus < result → has_reached cursor key ≡ true }
{
    match cursor {
        Cursor::Start => 0,
        Cursor::After(key) => key.bus,
        Cursor::Done => u8::MAX,
    }
}

//! The rows of one bus, by group.

ghost use Rattle.std.specs.Prelude.{◌≡◌, ◌≤◌, ℕ, false, map, IsTrue, IfOk, OnOk, OnErr, length, option_copied};
ghost use Rattle.std.specs.List.{range_with_len};
ghost use Rattle.srcp_info.specs.declared.value.Value.TheVariants as value;
ghost use Rattle.srcp_info.specs.Key.{device_of};
ghost use Rattle.srcp_info.specs.WellFormed.{can_go};
ghost use Rattle.srcp_rules.specs.Rows.{most_rows, put_rows};
ghost use Rattle.srcp_grammar.specs.Devices.{fb_device, key_at};
ghost use Rattle.srcp_rules.specs.State.{first_row, has_row, opening_on, put_row, row_after, row_at, without};
ghost use Rattle.srcp_rules.specs.Nested.{AreOfDevice, AreRowsOfBus, bus_rows, group_rows};

use crate::first_rows::{power_row, push_ports};
use crate::nested::devices::Devices;
use crate::obeyed::Memory;
use crate::rows::MOST_ROWS;
use crate::sorted_rows::{add_all, drop_in, row_after_in, row_in, set_in};
use srcp_grammar::Bus;
use srcp_info::{Cursor, Device, GROUPS, Group, Key, Row};
use std::alloc::Global;

/// Keeps the rows of one bus.
#[derive(Drop)]
pub(crate) struct BusRows {
    /// The rows of the sessions, by rising number. Only the server's own bus has sessions.
    sessions: Vec<Row>,
    /// The power row, if the bus has power.
    power: Option<Row>,
    locomotives: Devices<2>,
    accessories: Devices<MOST_ROWS>,
    /// The rows of the feedback ports, by rising port.
    feedback: Vec<Row>,
    locomotive_locks: Devices<1>,
    accessory_locks: Devices<1>,
}

impl BusRows {
    /// Makes the rows of the bus at the moment 0.
    pub(crate) fn opening(alloc: Global, bus: &Bus) -> Result<BusRows, Memory>
        ensures bus { IfOk result (AreRowsOfBus bus.now.number) }
        ensures rows { IfOk result (λ rows. bus_rows rows ≡ opening_on 0 bus.now) }
    {
        let feedback = feedback_rows(alloc, bus)?;
        Ok(BusRows {
            sessions: Vec::new(alloc),
            power: power_row(bus),
            locomotives: Devices::new(alloc),
            accessories: Devices::new(alloc),
            feedback,
            locomotive_locks: Devices::new(alloc),
            accessory_locks: Devices::new(alloc),
        })
    }

    /// Returns the row at the key.
    pub(crate) fn row(&self, key: &Key) -> Option<&Row>
        requires { AreRowsOfBus key.now.bus self.now }
        ensures { option_copied result ≡ row_at key.now (bus_rows self.now) }
    {
        match key.group {
            Group::Session => row_in(&self.sessions, key),
            Group::Power => row_in(self.power.as_slice(), key),
            Group::Gl => self.locomotives.row(key),
            Group::Ga => self.accessories.row(key),
            Group::Fb => row_in(&self.feedback, key),
            Group::LockGl => self.locomotive_locks.row(key),
            Group::LockGa => self.accessory_locks.row(key),
        }
    }

    /// Returns the row with the least key beyond the cursor. `bus` is the number of the bus.
    #[cold]
    #[inline(never)]
    pub(crate) fn row_after(&self, bus: u8, cursor: Cursor) -> Option<&Row>
        requires { AreRowsOfBus bus self.now }
        ensures { option_copied result ≡ row_after cursor (bus_rows self.now) }
    {
        for group in GROUPS {
            if let Some(row) = self.row_after_in_group(bus, group, cursor) {
                return Some(row);
            }
        }
        None
    }

    /// Finds the row of the group with the least key beyond the cursor.
    #[inline(always)]
    pub(crate) fn row_after_in_group(&self, bus: u8, group: Group, cursor: Cursor) -> Option<&Row>
        requires { AreRowsOfBus bus self.now }
        ensures { option_copied result ≡ row_after cursor (group_rows self.now group) }
    {
        match group {
            Group::Session => row_after_in(&self.sessions, cursor),
            Group::Power => row_after_in(self.power.as_slice(), cursor),
            Group::Gl => self.locomotives.row_after(bus, group, cursor),
            Group::Ga => self.accessories.row_after(bus, group, cursor),
            Group::Fb => row_after_in(&self.feedback, cursor),
            Group::LockGl => self.locomotive_locks.row_after(bus, group, cursor),
            Group::LockGa => self.accessory_locks.row_after(bus, group, cursor),
        }
    }

    /// Adds the rows of a new device, of a group that comes and goes. Fails if memory is refused.
    pub(crate) fn add(&mut self, first: &Row, added: &[Row]) -> Result<(), Memory>
        requires bus { AreRowsOfBus first.now.shown.key.bus self.old }
        requires comes { IsTrue (can_go first.now.shown.key.group) }
        requires device { AreOfDevice first.now.shown.key.bus first.now.shown.key.group first.now.shown.key.address
            added.now }
        requires few { length added.now ≤ most_rows first.now.shown.key.group }
        requires free { (port : ℕ) → has_row (key_at (device_of first.now.shown.key) port) (bus_rows self.old) ≡ false }
        ensures ok { OnOk result (bus_rows self.new ≡ put_rows added.now (bus_rows self.old)) }
        ensures err { OnErr result (bus_rows self.new ≡ bus_rows self.old) }
        ensures bus { AreRowsOfBus first.now.shown.key.bus self.new }
    {
        match first.shown.key.group {
            Group::Session => add_all(&mut self.sessions, added),
            Group::Gl => self.locomotives.add(first, added),
            Group::Ga => self.accessories.add(first, added),
            Group::LockGl => self.locomotive_locks.add(first, added),
            Group::LockGa => self.accessory_locks.add(first, added),
            Group::Power | Group::Fb => unreachable!(),
        }
    }

    /// Replaces a row, which has to be there.
    pub(crate) fn set(&mut self, row: &Row)
        requires bus { AreRowsOfBus row.now.shown.key.bus self.old }
        requires there { IsTrue (has_row row.now.shown.key (bus_rows self.old)) }
        ensures rows { bus_rows self.new ≡ put_row row.now (bus_rows self.old) }
        ensures bus { AreRowsOfBus row.now.shown.key.bus self.new }
    {
        match row.shown.key.group {
            Group::Session => set_in(&mut self.sessions, *row),
            Group::Power => self.power = Some(*row),
            Group::Gl => self.locomotives.set(row),
            Group::Ga => self.accessories.set(row),
            Group::Fb => set_in(&mut self.feedback, *row),
            Group::LockGl => self.locomotive_locks.set(row),
            Group::LockGa => self.accessory_locks.set(row),
        }
    }

    /// Removes the rows of a device of a group that comes and goes.
    pub(crate) fn drop_device(&mut self, device: Device)
        requires bus { AreRowsOfBus device.bus self.old }
        requires goes { IsTrue (can_go device.group) }
        ensures rows { bus_rows self.new ≡ without device (bus_rows self.old) }
        ensures bus { AreRowsOfBus device.bus self.new }
    {
        match device.group {
            Group::Session => drop_in(&mut self.sessions, device),
            Group::Gl => self.locomotives.drop_device(device),
            Group::Ga => self.accessories.drop_device(device),
            Group::LockGl => self.locomotive_locks.drop_device(device),
            Group::LockGa => self.accessory_locks.drop_device(device),
            Group::Power | Group::Fb => {}
        }
    }
}

/// Makes the rows of a bus's feedback ports, each 0.
fn feedback_rows(alloc: Global, bus: &Bus) -> Result<Vec<Row>, Memory>
    ensures { IfOk result
        (λ rows. rows.items
        ≡ map (λ port. first_row 0 (fb_device bus.now.number port) (value.Fb false))
        (range_with_len 1 bus.now.fb_ports)) }
{
    let mut rows = Vec::new(alloc);
    push_ports(&mut rows, bus.number, bus.fb_ports)?;
    Ok(rows)
}

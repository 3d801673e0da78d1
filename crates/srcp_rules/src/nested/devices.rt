//! The devices of one group of one bus, each at the slot of its address.
ghost use Rattle.std.specs.Prelude.{◌≡◌, ◌+◌, ◌<◌, ◌≤◌, ℕ, [], None, drop, false, IsTrue, IfSome, OnOk, OnErr, length};
ghost use Rattle.std.specs.Prelude.{option_copied, slice_get};
ghost use Rattle.std.specs.Box.{box_value};
ghost use Rattle.std.specs.Mem.{FitsInMemory};
ghost use Rattle.std.specs.Option.{option_map, option_map_or};
ghost use Rattle.srcp_rules.specs.Rows.{put_rows};
ghost use Rattle.srcp_grammar.specs.Devices.{key_at};
ghost use Rattle.srcp_rules.specs.State.{has_row, put_row, row_after, row_at, without};
ghost use Rattle.srcp_info.specs.declared.key.Group.{Group};
ghost use Rattle.srcp_info.specs.declared.change.Cursor.TheVariants.{After};
ghost use Rattle.srcp_info.specs.Key.{device_of};
ghost use Rattle.srcp_rules.specs.contracts.nested.device_rows.DeviceRows.{the_row as device_row};
ghost use Rattle.srcp_rules.specs.Nested.{AreDevices, AreOfDevice, device_rows, entry_at};
ghost use Rattle.srcp_rules.specs.Numbered.{numbered};

use crate::nested::device_rows::DeviceRows;
use crate::obeyed::Memory;
use srcp_info::{Cursor, Device, Group, Key, Row};
use std::alloc::Global;
use std::marker::Model;

/// Keeps the rows of devices of a single group and bus: at most N of each. There is a slot for each address up to the
/// greatest ever added: a look-up needs no search. Contracts see the devices that are there, by address.
#[derive(Drop)]
pub(crate) struct Devices<const N: usize> {
    // An ordered map took 200 instructions of a listing's line more. A slot stays once its device is gone: the address
    // is most often made again. With the greatest addresses of 250 buses the server holds 52 MB at worst.
    slots: Vec<Option<Box<DeviceRows<N>>>>,
    alloc: Global,
}

impl<const N: usize> Model for Devices<N> {
    ghost use Rattle.std.specs.Prelude.{ℕ, List};
    ghost use Rattle.std.specs.Box.{box_value};
    ghost use Rattle.srcp_rules.specs.State.{State};
    ghost use Rattle.srcp_rules.specs.Numbered.{numbered};

    ghost Value = { List (ℕ × State) };

    ghost view = { λ d. numbered box_value 0 d.slots.items };
}

impl<const N: usize> Devices<N> {
    /// Makes a store of no device.
    pub(crate) fn new(alloc: Global) -> Devices<N>
        ensures { result ≡ [] }
    {
        Devices {
            slots: Vec::new(alloc),
            alloc,
        }
    }

    /// Returns the device at an address.
    #[inline(always)]
    fn device(&self, address: u32) -> Option<&DeviceRows<N>>
        ensures { option_copied result ≡ entry_at address self.now }
    {
        match self.slots.get(address as usize)? {
            Some(device) => Some(device),
            None => None,
        }
    }

    /// Returns the row at the key.
    pub(crate) fn row(&self, key: &Key) -> Option<&Row>
        requires devices { AreDevices key.now.bus key.now.group self.now }
        requires fits { FitsInMemory (device_row N.row) }
        ensures { option_copied result ≡ row_at key.now (device_rows self.now) }
    {
        self.device(key.address)?.row(key)
    }

    /// Returns the row with the least key.
    fn first(&self) -> Option<&Row>
        requires devices { (bus : ℕ) × (group : Group) × AreDevices bus group self.now }
        requires fits { FitsInMemory (device_row N.row) }
        ensures { option_copied result ≡ slice_get (device_rows self.now) 0 }
    {
        first_device(&self.slots, 0)?.as_slice().first()
    }

    /// Returns the row with the least key beyond the cursor. The devices have to be of this group and this bus.
    #[inline(always)]
    pub(crate) fn row_after(&self, bus: u8, group: Group, cursor: Cursor) -> Option<&Row>
        requires devices { AreDevices bus group self.now }
        requires fits { FitsInMemory (device_row N.row) }
        ensures { option_copied result ≡ row_after cursor (device_rows self.now) }
    {
        let least = Key {
            bus,
            group,
            address: 0,
            port: 0,
        };
        match cursor {
            Cursor::After(last) if last.bus == bus && last.group == group => self.row_beyond(&last),
            _ if cursor.has_reached(&least) => None,
            _ => self.first(),
        }
    }

    /// Returns the row with the least key beyond a key of the group itself.
    #[inline(always)]
    fn row_beyond(&self, last: &Key) -> Option<&Row>
        requires devices { AreDevices last.now.bus last.now.group self.now }
        requires fits { FitsInMemory (device_row N.row) }
        ensures { option_copied result ≡ row_after (After last.now) (device_rows self.now) }
    {
        let slots = &self.slots;
        if let Some(row) = self.row_beyond_in_device(last) {
            return Some(row);
        }
        first_device(slots, last.address as usize + 1)?
            .as_slice()
            .first()
    }

    /// Returns the row with the least key beyond a key, if the row is of the key's own device.
    #[inline(always)]
    fn row_beyond_in_device(&self, last: &Key) -> Option<&Row>
        requires devices { AreDevices last.now.bus last.now.group self.now }
        requires fits { FitsInMemory (device_row N.row) }
        ensures { option_copied result
            ≡ option_map_or (λ rows. row_after (After last.now) rows) (entry_at last.now.address self.now) None }
    {
        self.device(last.address)?.row_after(last)
    }

    /// Adds the rows of a new device. Fails if memory is refused.
    pub(crate) fn add(&mut self, first: &Row, added: &[Row]) -> Result<(), Memory>
        requires devices { AreDevices first.now.shown.key.bus first.now.shown.key.group self.old }
        requires device { AreOfDevice first.now.shown.key.bus first.now.shown.key.group first.now.shown.key.address
            added.now }
        requires few { length added.now ≤ N }
        requires fits { FitsInMemory (device_row N.row) }
        requires free { (port : ℕ)
            → has_row (key_at (device_of first.now.shown.key) port) (device_rows self.old) ≡ false }
        ensures ok { OnOk result (device_rows self.new ≡ put_rows added.now (device_rows self.old)) }
        ensures err { OnErr result (device_rows self.new ≡ device_rows self.old) }
        ensures devices { AreDevices first.now.shown.key.bus first.now.shown.key.group self.new }
    {
        let slot = first.shown.key.address as usize;
        grow(&mut self.slots, slot)?;
        let Ok(device) = Box::new(self.alloc, DeviceRows::of(added)) else {
            return Err(Memory);
        };
        self.slots[slot] = Some(device);
        Ok(())
    }

    /// Replaces a row, which has to be there.
    pub(crate) fn set(&mut self, row: &Row)
        requires devices { AreDevices row.now.shown.key.bus row.now.shown.key.group self.old }
        requires there { IsTrue (has_row row.now.shown.key (device_rows self.old)) }
        requires fits { FitsInMemory (device_row N.row) }
        ensures rows { device_rows self.new ≡ put_row row.now (device_rows self.old) }
        ensures devices { AreDevices row.now.shown.key.bus row.now.shown.key.group self.new }
    {
        let Some(slot) = self.slots.get_mut(row.shown.key.address as usize) else {
            return;
        };
        let Some(device) = slot else {
            return;
        };
        device.set(row);
    }

    /// Removes the rows of a device.
    pub(crate) fn drop_device(&mut self, device: Device)
        requires { AreDevices device.bus device.group self.old }
        ensures rows { device_rows self.new ≡ without device (device_rows self.old) }
        ensures devices { AreDevices device.bus device.group self.new }
    {
        let Some(slot) = self.slots.get_mut(device.address as usize) else {
            return;
        };
        *slot = None;
    }
}

/// Returns the first device from this slot on, or `None` if all these slots are empty.
#[inline(always)]
fn first_device<const N: usize>(
    slots: &[Option<Box<DeviceRows<N>>>],
    from: usize,
) -> Option<&DeviceRows<N>>
    ensures { option_copied result
        ≡ option_map (λ e. e.1) (slice_get (numbered box_value from (drop from slots.now)) 0) }
{
    // At worst a listing goes over three million empty slots, in 20 to 31 ms.
    for slot in from..slots.len() {
        if let Some(device) = &slots[slot] {
            return Some(device);
        }
    }
    None
}

/// Makes slots up to this one. Fails if memory is refused.
fn grow<const N: usize>(
    slots: &mut Vec<Option<Box<DeviceRows<N>>>>,
    slot: usize,
) -> Result<(), Memory>
    ensures same { numbered box_value 0 slots.new.items
        ≡ numbered box_value 0 slots.old.items }
    ensures there { OnOk result (slot < length slots.new.items) }
{
    while slots.len() <= slot {
        if slots.push(None).is_err() {
            return Err(Memory);
        }
    }
    Ok(())
}

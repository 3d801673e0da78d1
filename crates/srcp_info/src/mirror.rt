//! The rows of a client, which applies each line sent to the client.

ghost use Rattle.std.specs.Prelude.{◌≡◌, ◌+◌, ◌<◌, true, false, not, [], length, Err, OnOk, OnErr};
ghost use Rattle.std.specs.List.{filter, AllByRecursion};
ghost use Rattle.srcp_info.specs.declared.change.Shown.{Shown};
ghost use Rattle.srcp_info.specs.declared.change.Change.{Change};
ghost use Rattle.srcp_info.specs.Key.{owns};
ghost use Rattle.srcp_info.specs.Client.{IsRisingBy, put, changed};
ghost use Rattle.srcp_info.specs.WellFormed.{IsWellFormedShown};
ghost use Rattle.srcp_info.specs.Read.{IsLineOf};

use crate::change::{Change, Shown};
use crate::key::{Device, Key};
use crate::read::read_change;
use std::alloc::Global;
use std::collections::BTreeMap;
use std::collections::btree_map::Values;
use std::marker::Model;

/// Says why a line was not applied.
#[derive(Clone, Copy, Debug, PartialEq, Eq)]
pub enum MirrorFault {
    /// No well-formed change has this line.
    NotInfo,
    /// Memory for another row is refused.
    Memory,
}

/// Holds the rows of a client, which applies each line sent to the client. Contracts see the list of the rows, by
/// rising key.
///
/// ```
/// let mut mirror = Mirror::new(alloc);
/// mirror.apply(b"1.000 100 INFO 1 POWER ON")?;
/// for row in mirror.rows() {
///     show(row);
/// }
/// ```
#[derive(Drop)]
pub struct Mirror {
    // A map costs little for rows in any order. A list by rising keys moves its rows for each row between others.
    by_key: BTreeMap<Key, Shown>,
}

impl Model for Mirror {
    ghost use Rattle.std.specs.Prelude.{List};
    ghost use Rattle.srcp_info.specs.declared.change.Shown.{Shown};
    ghost use Rattle.std.specs.BTreeMap.{values};
    ghost use Rattle.std.specs.List.{AllByRecursion};
    ghost use Rattle.srcp_info.specs.Client.{AreAtKeys};
    ghost use Rattle.srcp_info.specs.WellFormed.{IsWellFormedShown};

    ghost Value = { List Shown };

    ghost view = { λ m. values m.by_key };

    ghost invariant = { λ m.
        AreAtKeys m.by_key.entries × AllByRecursion IsWellFormedShown (values m.by_key) };
}

impl Mirror {
    /// Makes a mirror of no rows. Allocates no memory.
    pub fn new(alloc: Global) -> Mirror
        ensures { result ≡ [] }
    {
        Mirror {
            by_key: BTreeMap::new(alloc),
        }
    }

    /// Applies a line, given without the LF: puts the row at its key, or removes all rows of the device.
    ///
    /// # Errors
    /// Returns one of these, and then the mirror stays as it was:
    /// - `NotInfo` if no well-formed change has this line;
    /// - `Memory` if memory for another row is refused.
    pub fn apply(&mut self, line: &[u8]) -> Result<(), MirrorFault>
        ensures ok { OnOk result ((change : Change)
            × IsLineOf line.now change × (self.new ≡ changed change self.old)) }
        ensures not_info { result ≡ Err MirrorFault.NotInfo
            → (change : Change) → IsLineOf line.now change → ⊥ }
        ensures memory { result ≡ Err MirrorFault.Memory → (shown : Shown)
            × IsLineOf line.now (Change.Put shown)
            × (length (put shown self.old) ≡ length self.old + 1) }
        ensures err { OnErr result (self.new ≡ self.old) }
    {
        match read_change(line) {
            None => Err(MirrorFault::NotInfo),
            Some(Change::Put(shown)) => {
                let Ok(_) = self.by_key.insert(shown.key, shown) else {
                    return Err(MirrorFault::Memory);
                };
                Ok(())
            }
            Some(Change::Gone { device, .. }) => {
                drop_device(&mut self.by_key, &device);
                Ok(())
            }
        }
    }

    /// Returns the rows, by rising key.
    pub fn rows(&self) -> Values<'_, Key, Shown>
        ensures rows { result ≡ self.now }
        ensures rising { IsRisingBy (λ row. row.key) result }
        ensures well_formed { AllByRecursion IsWellFormedShown result }
    {
        self.by_key.values()
    }
}

/// Removes all rows of a device.
fn drop_device(by_key: &mut BTreeMap<Key, Shown>, device: &Device)
    ensures { by_key.new.entries
        ≡ filter (λ entry. not (owns device.now entry.0)) by_key.old.entries }
{
    while drop_first(by_key, device) {}
}

/// Removes the first row of a device. Returns whether there was one.
fn drop_first(by_key: &mut BTreeMap<Key, Shown>, device: &Device) -> bool
    ensures others { filter (λ entry. not (owns device.now entry.0)) by_key.new.entries
        ≡ filter (λ entry. not (owns device.now entry.0)) by_key.old.entries }
    ensures fewer { result ≡ true → length by_key.new.entries < length by_key.old.entries }
    ensures none { result ≡ false → by_key.new.entries
        ≡ filter (λ entry. not (owns device.now entry.0)) by_key.new.entries }
{
    let Some((key, _)) = by_key.range(device.first_key()..).next() else {
        return false;
    };
    let key = *key;
    if !device.owns(&key) {
        return false;
    }
    let _ = by_key.remove(&key);
    true
}

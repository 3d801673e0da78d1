//! Values of a TOML document: present, of the key's type, and within the key's limits. Each crate that reads such a
//! document names its own keys (`Key`) and faults.

ghost use Rattle.std.specs.Prelude.{◌≡◌, ◌≤◌, map, option_map, IfOk};
ghost use Rattle.toml.specs.View.{table_view, view as data_of};
ghost use Rattle.srcp_layout_file.specs.Gives.{Gives, Shows};
ghost use Rattle.srcp_layout_file.specs.Member.{array_at, array_in, document, given_or, number_at, ranged, required};
ghost use Rattle.srcp_layout_file.specs.Member.{value_at};

use std::alloc::Global;
use toml::{Table, Value};

/// Names a key of a document, and the faults of the value at the key.
pub trait Key: Copy {
    ghost use Rattle.srcp_layout_file.specs.Member.{Named};

    /// Says why a document is refused.
    type Fault: Copy;

    // What the three functions return.
    ghost named: { Self → Named Self.Fault };

    /// Returns the key as a document writes it.
    fn name(self) -> &'static str
        ensures { result.now ≡ (named self).name };

    /// Returns the fault of a document without the key.
    fn missing(self) -> Self::Fault
        ensures { result ≡ (named self).missing };

    /// Returns the fault of a value of another type or beyond its limits.
    fn beyond(self) -> Self::Fault
        ensures { result ≡ (named self).beyond };
}

/// Reads the members of a document from the document's bytes.
///
/// # Errors
/// Returns `not_toml` if the bytes are no TOML document, and `memory` if memory is refused.
pub fn read_members<E: Copy>(
    alloc: Global,
    bytes: &[u8],
    not_toml: E,
    memory: E,
) -> Result<Table, E>
    ensures { Gives table_view memory result (document not_toml bytes.now) }
{
    // Which text is no TOML document is the definition of the crate `toml`.
    match toml::table_from_slice(alloc, bytes) {
        Ok(members) => Ok(members),
        Err(fault) if fault.is_memory() => Err(memory),
        Err(_) => Err(not_toml),
    }
}

/// Returns the value at a key, if there is one.
pub fn value_at<K: Key>(members: &Table, key: K) -> Option<&Value>
    ensures { option_map (λ value. data_of value.now) result ≡ value_at (K.named key) (table_view members.now) }
{
    members.get(key.name())
}

/// Returns the value at a key. Returns the key's fault if there is none.
fn required<K: Key>(members: &Table, key: K) -> Result<&Value, K::Fault>
    ensures { Shows (λ value. data_of value.now) result (required (K.named key) (table_view members.now)) }
{
    match value_at(members, key) {
        Some(value) => Ok(value),
        None => Err(key.missing()),
    }
}

/// Returns the values of an array.
///
/// # Errors
/// Returns `beyond` for a value of another type.
pub fn array_in<E: Copy>(value: &Value, beyond: E) -> Result<&[Value], E>
    ensures { Shows (λ values. map data_of values.now) result (array_in beyond (data_of value.now)) }
{
    match value.as_array() {
        Some(values) => Ok(values.as_slice()),
        None => Err(beyond),
    }
}

/// Returns the values of the array at a key.
///
/// # Errors
/// Returns the key's fault if there is no value, or a value of another type.
pub fn array_at<K: Key>(members: &Table, key: K) -> Result<&[Value], K::Fault>
    ensures { Shows (λ values. map data_of values.now) result
        (array_at (K.named key) (table_view members.now)) }
{
    array_in(required(members, key)?, key.beyond())
}

/// Returns an integer from `low` to `high`.
///
/// # Errors
/// Returns `beyond` for any other value.
pub fn ranged<E: Copy>(value: &Value, low: u32, high: u32, beyond: E) -> Result<u32, E>
    ensures value { result ≡ ranged low high beyond (data_of value.now) }
    ensures within { IfOk result (λ n. (low ≤ n) × (n ≤ high)) }
{
    match value.as_integer() {
        Some(n) => match u32::try_from(n) {
            Ok(n) if low <= n && n <= high => Ok(n),
            _ => Err(beyond),
        },
        None => Err(beyond),
    }
}

/// Returns the integer at a key, from `low` to `high`.
///
/// # Errors
/// Returns the key's fault if there is no value, or any other value.
pub fn number_at<K: Key>(members: &Table, key: K, low: u32, high: u32) -> Result<u32, K::Fault>
    ensures value { result ≡ number_at low high (K.named key) (table_view members.now) }
    ensures within { IfOk result (λ n. (low ≤ n) × (n ≤ high)) }
{
    ranged(required(members, key)?, low, high, key.beyond())
}

/// Returns the integer at a key, from `low` to `high`, or the default if there is no value.
///
/// # Errors
/// Returns the key's fault for any other value.
pub(crate) fn given_or<K: Key>(
    members: &Table,
    key: K,
    default: u32,
    low: u32,
    high: u32,
) -> Result<u32, K::Fault>
    requires { (low ≤ default) × (default ≤ high) }
    ensures value { result ≡ given_or default low high (K.named key) (table_view members.now) }
    ensures within { IfOk result (λ n. (low ≤ n) × (n ≤ high)) }
{
    match value_at(members, key) {
        Some(value) => ranged(value, low, high, key.beyond()),
        None => Ok(default),
    }
}

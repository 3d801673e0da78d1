//! What each piece of a drawing is: by its shape, and by what the legend says of its name.

ghost use Rattle.std.specs.Prelude.{◌≡◌, IfOk, map, option_map};
ghost use Rattle.toml.specs.Data.{get_member};
ghost use Rattle.toml.specs.View.{table_view, view as data_of};
ghost use Rattle.srcp_plan_file.specs.Elements.{entry_kind, kind_of, named_kind, passed_kind, table_kind, text_of};
ghost use Rattle.srcp_plan_file.specs.Elements.{sensor_kind, signal_kind, turnout_kind};

use crate::device::{sensor_of, signal_of, turnout_of};
use crate::drawing::{Piece, Shape, name_of};
use crate::plan::{Field, PlanFault};
use srcp_layout_file::member::{array_in, value_at};
use srcp_routes::Device;
use std::alloc::{AllocError, Global};
use std::vec::Vec;
use toml::{Table, Value};

/// Says how a train passes a piece.
#[derive(Clone, Copy, Debug, PartialEq, Eq)]
pub(crate) enum Kind {
    /// The train goes on as the track does.
    Track,
    /// The train goes straight on.
    Crossing,
    /// The train goes on as the track does, and a route may begin or end here.
    Button,
    /// The train goes on as the track does, past this signal.
    Signal(Device),
    /// The train goes on as the track does, over this sensor.
    Sensor(Device),
    /// The train goes on as this turnout is put. The port is that of the branch.
    Turnout(Device, u8),
    /// No train passes: what stands beside the tracks, or what the legend does not name.
    Beside,
}

/// Returns the kind of a turnout: its bus, its address and the port of its branch.
fn turnout_kind(value: &Value) -> Kind
    ensures { result ≡ turnout_kind (data_of value.now) }
{
    let beyond = PlanFault::OutOfRange(Field::Turnout);
    let Ok(values) = array_in(value, beyond) else {
        return Kind::Beside;
    };
    match turnout_of(0, values, beyond) {
        Ok(turnout) => Kind::Turnout(turnout.device, turnout.port),
        Err(_) => Kind::Beside,
    }
}

/// Returns the kind of a signal.
fn signal_kind(value: &Value) -> Kind
    ensures { result ≡ signal_kind (data_of value.now) }
{
    let beyond = PlanFault::OutOfRange(Field::Signal);
    let Ok(values) = array_in(value, beyond) else {
        return Kind::Track;
    };
    match signal_of(0, values, beyond) {
        Ok(signal) => Kind::Signal(signal.device),
        Err(_) => Kind::Track,
    }
}

/// Returns the kind of a sensor.
fn sensor_kind(value: &Value) -> Kind
    ensures { result ≡ sensor_kind (data_of value.now) }
{
    let beyond = PlanFault::OutOfRange(Field::Sensor);
    let Ok(values) = array_in(value, beyond) else {
        return Kind::Track;
    };
    match sensor_of(0, values, beyond) {
        Ok(device) => Kind::Sensor(device),
        Err(_) => Kind::Track,
    }
}

/// Returns the kind of an entry of the legend that is no turnout.
fn passed_kind(entry: &Table) -> Kind
    ensures { result ≡ passed_kind (table_view entry.now) }
{
    if let Some(value) = value_at(entry, Field::Signal) {
        return signal_kind(value);
    }
    match value_at(entry, Field::Sensor) {
        Some(value) => sensor_kind(value),
        None if value_at(entry, Field::Button).is_some() => Kind::Button,
        None => Kind::Beside,
    }
}

/// Returns the kind of an entry of the legend.
fn table_kind(entry: &Table) -> Kind
    ensures { result ≡ table_kind (table_view entry.now) }
{
    match value_at(entry, Field::Turnout) {
        Some(value) => turnout_kind(value),
        None => passed_kind(entry),
    }
}

/// Returns the kind of what stands at a name in the legend.
fn entry_kind(value: &Value) -> Kind
    ensures { result ≡ entry_kind (data_of value.now) }
{
    match value.as_table() {
        Some(entry) => table_kind(entry),
        None => Kind::Beside,
    }
}

/// Returns a name as text, if it is text.
fn as_text(name: &[u8]) -> Option<&str>
    ensures { option_map (λ text. text.now) result ≡ text_of name.now }
{
    match str::from_utf8(name) {
        Ok(text) => Some(text),
        Err(_) => None,
    }
}

/// Returns what stands at a name in the legend, if anything.
fn entry_at<'a>(legend: &'a Table, name: &str) -> Option<&'a Value>
    ensures { option_map (λ value. data_of value.now) result ≡ get_member name.now (table_view legend.now) }
{
    legend.get(name)
}

/// Returns the kind of a name.
fn named_kind(legend: &Table, name: &[u8]) -> Kind
    ensures { result ≡ named_kind (table_view legend.now) name.now }
{
    match as_text(name) {
        Some(text) => match entry_at(legend, text) {
            Some(value) => entry_kind(value),
            None => Kind::Beside,
        },
        None => Kind::Beside,
    }
}

/// Returns the kind of a piece.
fn kind_of(text: &[u8], legend: Option<&Table>, piece: Piece) -> Kind
    ensures { result ≡ kind_of text.now (option_map (λ entries. table_view entries.now) legend.entry) piece }
{
    match (piece.shape, legend) {
        (Shape::Track | Shape::Rising | Shape::Falling, _) => Kind::Track,
        (Shape::Crossing, _) => Kind::Crossing,
        (Shape::Name, Some(legend)) => named_kind(legend, name_of(text, piece)),
        (Shape::Name, None) => Kind::Beside,
    }
}

/// Returns the kind of each piece of a drawing.
pub(crate) fn kinds_of(
    alloc: Global,
    text: &[u8],
    legend: Option<&Table>,
    pieces: &[Piece],
) -> Result<Vec<Kind>, AllocError>
    ensures { IfOk result (λ kinds. kinds.items
        ≡ map (kind_of text.now (option_map (λ entries. table_view entries.now) legend.entry)) pieces.now) }
{
    pieces
        .iter()
        .map(|piece| kind_of(text, legend, *piece))
        .collect(alloc)
}

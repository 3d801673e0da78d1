//! The drawing of a plan as pieces of track: what stands in which row and in which columns.

ghost use Rattle.std.specs.Prelude.{◌≡◌, ◌+◌, ◌<◌, ◌≤◌, ◌^◌, IfOk};
ghost use Rattle.srcp_plan_file.specs.Drawing.{drawing, ended, finished, goes_on, is_flat, moved, name_of, shape_of};
ghost use Rattle.srcp_plan_file.specs.Drawing.{is_name, opened, takes_column};

use std::alloc::{AllocError, Global};
use std::vec::Vec;

/// Says what a piece of a drawing is by its characters.
#[derive(Clone, Copy, Debug, PartialEq, Eq)]
pub(crate) enum Shape {
    /// Track from left to right: `=`.
    Track,
    /// A diagonal that rises to the right: `/`.
    Rising,
    /// A diagonal that falls to the right: `\`.
    Falling,
    /// A crossing: `+`.
    Crossing,
    /// The name of an element.
    Name,
}

impl Shape {
    /// Returns whether a piece of this shape is no diagonal.
    pub(crate) fn is_flat(self) -> bool
        ensures { result ≡ is_flat self }
    {
        !matches!(self, Shape::Rising | Shape::Falling)
    }

    /// Returns whether a piece of this shape is the name of an element.
    pub(crate) fn is_name(self) -> bool
        ensures { result ≡ is_name self }
    {
        matches!(self, Shape::Name)
    }
}

/// Describes a piece of track: `=` as far as it goes, a diagonal, a crossing, or the name of an element.
#[derive(Clone, Copy, Debug, PartialEq, Eq)]
pub(crate) struct Piece {
    /// The shape.
    pub(crate) shape: Shape,
    /// The row, counted from 1.
    pub(crate) row: usize,
    /// The first column, counted from 1.
    pub(crate) left: usize,
    /// The column behind the last one.
    pub(crate) right: usize,
    /// The place of the first byte in the drawing.
    pub(crate) begin: usize,
    /// The place behind the last byte.
    pub(crate) end: usize,
}

/// Holds where a piece begins whose end has not been read.
#[derive(Clone, Copy, Debug, PartialEq, Eq)]
struct Open {
    shape: Shape,
    left: usize,
    begin: usize,
}

/// Says how far a drawing is read: the row and the column of the next character, and the piece that has not ended.
#[derive(Clone, Copy, Debug, PartialEq, Eq)]
struct Pen {
    row: usize,
    column: usize,
    begun: Option<Open>,
}

/// Returns what a byte draws, if anything.
fn shape_of(byte: u8) -> Option<Shape>
    ensures { result ≡ shape_of byte }
{
    match byte {
        b' ' | b'\r' | b'\n' => None,
        b'=' => Some(Shape::Track),
        b'/' => Some(Shape::Rising),
        b'\\' => Some(Shape::Falling),
        b'+' => Some(Shape::Crossing),
        _ => Some(Shape::Name),
    }
}

/// Returns whether a piece goes on with a byte that draws `next`.
fn goes_on(shape: Shape, next: Option<Shape>) -> bool
    ensures { result ≡ goes_on shape next }
{
    match (shape, next) {
        (Shape::Track, Some(Shape::Track)) | (Shape::Name, Some(Shape::Name)) => true,
        _ => false,
    }
}

/// Returns whether a byte begins a character, and so takes a column.
fn takes_column(byte: u8) -> bool
    ensures { result ≡ takes_column byte }
{
    byte < 128 || byte >= 192
}

/// Returns the piece that has not ended, as if it ended here.
fn finished(pen: Pen, at: usize) -> Option<Piece>
    ensures { result ≡ finished pen at }
{
    let part = pen.begun?;
    Some(Piece {
        shape: part.shape,
        row: pen.row,
        left: part.left,
        right: pen.column,
        begin: part.begin,
        end: at,
    })
}

/// Returns the piece that ends before the byte at a place, if any.
fn ended(pen: Pen, at: usize, byte: u8) -> Option<Piece>
    ensures { result ≡ ended pen at byte }
{
    match pen.begun {
        Some(part) if goes_on(part.shape, shape_of(byte)) => None,
        _ => finished(pen, at),
    }
}

/// Returns the piece that has not ended behind the byte at a place, if any.
fn opened(pen: Pen, at: usize, byte: u8) -> Option<Open>
    ensures { result ≡ opened pen at byte }
{
    match pen.begun {
        Some(part) if goes_on(part.shape, shape_of(byte)) => Some(part),
        _ => Some(Open {
            shape: shape_of(byte)?,
            left: pen.column,
            begin: at,
        }),
    }
}

/// Returns how far the drawing is read behind the byte at a place.
fn moved(pen: Pen, at: usize, byte: u8) -> Pen
    requires row { pen.row ≤ at + 1 }
    requires column { pen.column ≤ at + 1 }
    requires at { at < 2 ^ 63 }
    ensures pen { result ≡ moved pen at byte }
    ensures row { result.row ≤ at + 2 }
    ensures column { result.column ≤ at + 2 }
{
    let begun = opened(pen, at, byte);
    if byte == b'\n' {
        Pen {
            row: pen.row + 1,
            column: 1,
            begun,
        }
    } else if takes_column(byte) {
        Pen {
            row: pen.row,
            column: pen.column + 1,
            begun,
        }
    } else {
        Pen {
            row: pen.row,
            column: pen.column,
            begun,
        }
    }
}

/// Returns the pieces of a drawing, from the first row to the last, and from left to right.
pub(crate) fn draw(alloc: Global, text: &[u8]) -> Result<Vec<Piece>, AllocError>
    ensures { IfOk result (λ pieces. pieces.items ≡ drawing text.now) }
{
    let mut pieces = Vec::new(alloc);
    let mut pen = Pen {
        row: 1,
        column: 1,
        begun: None,
    };
    for (at, byte) in text.iter().enumerate() {
        if let Some(piece) = ended(pen, at, *byte) {
            pieces.push(piece)?;
        }
        pen = moved(pen, at, *byte);
    }
    if let Some(piece) = finished(pen, text.len()) {
        pieces.push(piece)?;
    }
    Ok(pieces)
}

/// Returns the characters of a piece.
pub(crate) fn name_of<'a>(text: &'a [u8], piece: Piece) -> &'a [u8]
    ensures { result.now ≡ name_of text.now piece }
{
    if piece.begin <= piece.end && piece.end <= text.len() {
        &text[piece.begin..piece.end]
    } else {
        &[]
    }
}

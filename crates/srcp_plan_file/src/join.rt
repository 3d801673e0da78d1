//! The joins of a drawing: which piece of track is joined to which, and on which side.

ghost use Rattle.std.specs.Prelude.{◌≡◌, IfOk, map};
ghost use Rattle.srcp_plan_file.specs.Joins.{back_of, is_below, is_like, is_opposite, is_up, joins_of};
ghost use Rattle.srcp_plan_file.specs.Joins.{left_join, lies_left, lies_right, opposite, right_join, rise_of};
ghost use Rattle.srcp_plan_file.specs.Joins.{beside_left, beside_right, beyond_left, beyond_right, ends_left};
ghost use Rattle.srcp_plan_file.specs.Joins.{ends_right, flat_left, flat_right, joins_back};

use crate::drawing::{Piece, Shape};
use std::alloc::{AllocError, Global};
use std::vec::Vec;

/// Says at which corner or side of a piece a join is.
#[derive(Clone, Copy, Debug, PartialEq, Eq)]
pub(crate) enum Slope {
    /// The upper corner.
    Up,
    /// The side.
    Level,
    /// The lower corner.
    Down,
}

/// Describes a join of two pieces, as a train passes over it.
#[derive(Clone, Copy, Debug, PartialEq, Eq)]
pub(crate) struct Join {
    /// The number of the piece that the train leaves.
    pub(crate) from: usize,
    /// Where the train leaves that piece.
    pub(crate) leaves: Slope,
    /// The number of the piece that the train enters.
    pub(crate) to: usize,
    /// Where the train enters that piece.
    pub(crate) enters: Slope,
}

impl Slope {
    /// Returns the slope at which straight track leaves what it has entered at this one.
    pub(crate) fn opposite(self) -> Slope
        ensures { result ≡ opposite self }
    {
        match self {
            Slope::Up => Slope::Down,
            Slope::Level => Slope::Level,
            Slope::Down => Slope::Up,
        }
    }

    /// Returns whether this is the upper corner.
    pub(crate) fn is_up(self) -> bool
        ensures { result ≡ is_up self }
    {
        matches!(self, Slope::Up)
    }

    /// Returns whether straight track that enters at this slope leaves at the other.
    pub(crate) fn is_opposite(self, other: Slope) -> bool
        ensures { result ≡ is_opposite self other }
    {
        matches!(
            (self, other),
            (Slope::Up, Slope::Down) | (Slope::Level, Slope::Level) | (Slope::Down, Slope::Up)
        )
    }
}

impl Join {
    /// Returns the join as a train passes over it the other way.
    fn back(self) -> Join
        ensures { result ≡ back_of self }
    {
        Join {
            from: self.to,
            leaves: self.enters,
            to: self.from,
            enters: self.leaves,
        }
    }
}

/// Returns whether two diagonals lie in one direction.
fn is_like(shape: Shape, other: Shape) -> bool
    ensures { result ≡ is_like shape other }
{
    matches!(
        (shape, other),
        (Shape::Rising, Shape::Rising) | (Shape::Falling, Shape::Falling)
    )
}

/// Returns whether the second piece is in the row below the first.
fn is_below(upper: Piece, lower: Piece) -> bool
    ensures { result ≡ is_below upper lower }
{
    lower.row.saturating_sub(upper.row) == 1
}

/// Returns whether the column behind a piece is one of the other.
fn lies_right(piece: Piece, other: Piece) -> bool
    ensures { result ≡ lies_right piece other }
{
    other.left <= piece.right && piece.right < other.right
}

/// Returns whether the column before a piece is one of the other.
fn lies_left(piece: Piece, other: Piece) -> bool
    ensures { result ≡ lies_left piece other }
{
    other.left < piece.left && piece.left <= other.right
}

/// Returns where a train leaves a diagonal to the right.
fn rise_of(shape: Shape) -> Slope
    ensures { result ≡ rise_of shape }
{
    match shape {
        Shape::Rising => Slope::Up,
        Shape::Falling => Slope::Down,
        Shape::Track | Shape::Crossing | Shape::Name => Slope::Level,
    }
}

/// Returns whether the right end of a diagonal points to the other piece.
fn beyond_right(piece: Piece, other: Piece) -> bool
    ensures { result ≡ beyond_right piece other }
{
    let is_next = match piece.shape {
        Shape::Rising => is_below(other, piece),
        Shape::Falling => is_below(piece, other),
        Shape::Track | Shape::Crossing | Shape::Name => false,
    };
    is_next && lies_right(piece, other)
}

/// Returns whether the left end of a diagonal points to the other piece.
fn beyond_left(piece: Piece, other: Piece) -> bool
    ensures { result ≡ beyond_left piece other }
{
    let is_next = match piece.shape {
        Shape::Rising => is_below(piece, other),
        Shape::Falling => is_below(other, piece),
        Shape::Track | Shape::Crossing | Shape::Name => false,
    };
    is_next && lies_left(piece, other)
}

/// Returns whether the other piece is no diagonal, and stands to the right in the same row.
fn flat_right(piece: Piece, other: Piece) -> bool
    ensures { result ≡ flat_right piece other }
{
    other.shape.is_flat() && other.row == piece.row && lies_right(piece, other)
}

/// Returns whether the other piece is no diagonal, and stands to the left in the same row.
fn flat_left(piece: Piece, other: Piece) -> bool
    ensures { result ≡ flat_left piece other }
{
    other.shape.is_flat() && other.row == piece.row && lies_left(piece, other)
}

/// Returns the piece to which the right end of a piece points, if any.
fn ends_right(pieces: &[Piece], piece: Piece) -> Option<usize>
    ensures { result ≡ ends_right pieces.now piece }
{
    pieces.iter().position(|other| {
        (other.shape.is_flat() || is_like(piece.shape, other.shape)) && beyond_right(piece, *other)
    })
}

/// Returns the piece to which the left end of a diagonal points, if that is no diagonal.
fn ends_left(pieces: &[Piece], piece: Piece) -> Option<usize>
    ensures { result ≡ ends_left pieces.now piece }
{
    pieces.iter().position(|other| other.shape.is_flat() && beyond_left(piece, *other))
}

/// Returns the piece that stands to the right of a piece, if any.
fn beside_right(pieces: &[Piece], piece: Piece) -> Option<usize>
    ensures { result ≡ beside_right pieces.now piece }
{
    pieces.iter().position(|other| flat_right(piece, *other))
}

/// Returns the piece that stands to the left of a piece, if any.
fn beside_left(pieces: &[Piece], piece: Piece) -> Option<usize>
    ensures { result ≡ beside_left pieces.now piece }
{
    pieces.iter().position(|other| flat_left(piece, *other))
}

/// Returns the join of a piece to the right: to what its end points to, else to what stands beside it.
fn right_join(pieces: &[Piece], n: usize, piece: Piece) -> Option<Join>
    ensures { result ≡ right_join pieces.now n piece }
{
    let leaves = rise_of(piece.shape);
    if let Some(to) = ends_right(pieces, piece) {
        return Some(Join {
            from: n,
            leaves,
            to,
            enters: leaves.opposite(),
        });
    }
    let to = beside_right(pieces, piece)?;
    Some(Join {
        from: n,
        leaves,
        to,
        enters: Slope::Level,
    })
}

/// Returns whether a diagonal of the same direction stands where the left end of this one points to: that one has the
/// join.
fn joins_back(pieces: &[Piece], piece: Piece) -> bool
    ensures { result ≡ joins_back pieces.now piece }
{
    pieces.iter().any(|other| is_like(piece.shape, other.shape) && beyond_left(piece, *other))
}

/// Returns the join to the left end of a diagonal, unless it is that of another diagonal.
fn left_join(pieces: &[Piece], n: usize, piece: Piece) -> Option<Join>
    ensures { result ≡ left_join pieces.now n piece }
{
    if piece.shape.is_flat() || joins_back(pieces, piece) {
        return None;
    }
    let leaves = rise_of(piece.shape);
    let enters = leaves.opposite();
    if let Some(from) = ends_left(pieces, piece) {
        return Some(Join {
            from,
            leaves,
            to: n,
            enters,
        });
    }
    let from = beside_left(pieces, piece)?;
    Some(Join {
        from,
        leaves: Slope::Level,
        to: n,
        enters,
    })
}

/// Returns the joins of a drawing, each as a train passes over it to the right.
pub(crate) fn joins_of(alloc: Global, pieces: &[Piece]) -> Result<Vec<Join>, AllocError>
    ensures { IfOk result (λ joins. joins.items ≡ joins_of pieces.now) }
{
    let mut joins = Vec::new(alloc);
    for n in 0..pieces.len() {
        if let Some(join) = right_join(pieces, n, pieces[n]) {
            joins.push(join)?;
        }
        if let Some(join) = left_join(pieces, n, pieces[n]) {
            joins.push(join)?;
        }
    }
    Ok(joins)
}

/// Returns the same joins, each as a train passes over it the other way.
pub(crate) fn turned(alloc: Global, joins: &[Join]) -> Result<Vec<Join>, AllocError>
    ensures { IfOk result (λ back. back.items ≡ map back_of joins.now) }
{
    joins.iter().map(|join| join.back()).collect(alloc)
}

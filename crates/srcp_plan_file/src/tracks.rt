//! The tracks of a plan as they are drawn, and the way of a route over them.

ghost use Rattle.std.specs.Prelude.{◌≡◌, IfOk, map, option_and_then, option_map};
ghost use Rattle.toml.specs.View.{table_view};
ghost use Rattle.srcp_plan_file.specs.Document.{drawn_in, drawn_of, legend_at, piece_named, text_at, way_between};
ghost use Rattle.srcp_plan_file.specs.Document.{ways_named};
ghost use Rattle.srcp_plan_file.specs.Plan.{drawn};
ghost use Rattle.srcp_plan_file.specs.Searches.{walked};

use crate::drawing::{Piece, draw, name_of};
use crate::element::{Kind, kinds_of};
use crate::join::{Join, joins_of};
use crate::plan::Field;
use crate::search::{Walk, find_ways};
use crate::way::find_way;
use srcp_layout_file::member::value_at;
use srcp_routes::Setting;
use std::alloc::{AllocError, Global};
use std::vec::Vec;
use toml::Table;

/// Holds the tracks of a drawing. A piece of track is named by its place among the pieces.
#[derive(Drop)]
pub struct Tracks {
    /// The characters of the drawing.
    pub(crate) text: Vec<u8>,
    /// The pieces, from the first row to the last, and from left to right.
    pub(crate) pieces: Vec<Piece>,
    /// What each piece is.
    pub(crate) kinds: Vec<Kind>,
    /// Which pieces are joined, as a train passes to the right.
    pub(crate) joins: Vec<Join>,
}

/// Returns the text at a key, if there is one.
pub(crate) fn text_at(members: &Table, field: Field) -> Option<&str>
    ensures { option_map (λ text. text.now) result ≡ text_at field (table_view members.now) }
{
    match value_at(members, field) {
        Some(value) => value.as_str(),
        None => None,
    }
}

/// Returns the legend of a plan, if there is one.
fn legend_at(members: &Table) -> Option<&Table>
    ensures { option_map (λ entries. table_view entries.now) result ≡ legend_at (table_view members.now) }
{
    match value_at(members, Field::Legend) {
        Some(value) => value.as_table(),
        None => None,
    }
}

/// Returns the tracks of a drawing with this legend.
fn tracks_of(alloc: Global, text: &[u8], legend: Option<&Table>) -> Result<Tracks, AllocError>
    ensures { IfOk result (λ tracks. drawn tracks
        ≡ drawn_of text.now (option_map (λ entries. table_view entries.now) legend.entry)) }
{
    let pieces = draw(alloc, text)?;
    let kinds = kinds_of(alloc, text, legend, &pieces)?;
    let joins = joins_of(alloc, &pieces)?;
    Ok(Tracks {
        text: text.to_vec(alloc)?,
        pieces,
        kinds,
        joins,
    })
}

/// Reads the tracks of a document. A document without a drawing has none.
pub(crate) fn read_tracks(alloc: Global, members: &Table) -> Result<Tracks, AllocError>
    ensures { IfOk result (λ tracks. drawn tracks ≡ drawn_in (table_view members.now)) }
{
    let legend = legend_at(members);
    match text_at(members, Field::Plan) {
        Some(text) => tracks_of(alloc, text.as_bytes(), legend),
        None => tracks_of(alloc, &[], legend),
    }
}

impl Tracks {
    /// Returns the piece of this name.
    fn piece_named(&self, name: &[u8]) -> Option<usize>
        ensures { result ≡ piece_named (drawn self.now) name.now }
    {
        self.pieces
            .iter()
            .position(|piece| name_of(&self.text, *piece) == name)
    }

    /// Returns the ways from one name to another that pass no button.
    pub(crate) fn ways_named(
        &self,
        alloc: Global,
        from: &str,
        to: &str,
    ) -> Result<Vec<Walk>, AllocError>
        ensures { IfOk result (λ found. map walked found.items ≡ ways_named (drawn self.now) from.now to.now) }
    {
        let begin = self.piece_named(from.as_bytes());
        let goal = self.piece_named(to.as_bytes());
        match (begin, goal) {
            (Some(begin), Some(goal)) => { find_ways(alloc, &self.joins, &self.kinds, begin, goal) }
            _ => Ok(Vec::new(alloc)),
        }
    }

    /// Returns the pieces of the way from one name to another, without the first, if there is a way.
    pub(crate) fn way_between(
        &self,
        alloc: Global,
        turnouts: &[Setting],
        from: &str,
        to: &str,
    ) -> Result<Option<Vec<usize>>, AllocError>
        ensures { IfOk result (λ found. option_map (λ pieces. pieces.items) found
            ≡ way_between (drawn self.now) turnouts.now from.now to.now) }
    {
        let begin = self.piece_named(from.as_bytes());
        let goal = self.piece_named(to.as_bytes());
        match (begin, goal) {
            (Some(begin), Some(goal)) => {
                find_way(alloc, &self.joins, &self.kinds, turnouts, begin, goal)
            }
            _ => Ok(None),
        }
    }
}

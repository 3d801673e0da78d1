//! The index of due moments, and the index of the sessions with locks.
ghost use Rattle.std.specs.Prelude.{◌≡◌, ◌+◌, ◌≤◌, IsSome, [], OnOk, length};
ghost use Rattle.srcp_index.specs.Indexed.{HasReserved, due_of, pair_edited, row_edited, with_rows};
ghost use Rattle.srcp_index.specs.Ordered.{insert_by, remove_by};
ghost use Rattle.srcp_rules.specs.State.{holder_of};

use crate::index::{Index, Pair};
use srcp_info::{Key, Row, Value};
use srcp_rules::Memory;
use std::alloc::Global;

/// Holds both indexes of the rows of a registry.
#[derive(Drop)]
pub(crate) struct Indexes {
    /// The due moments of rows, if any.
    pub(crate) moments: Index,
    /// The sessions with locks.
    pub(crate) sessions: Index,
}

impl Indexes {
    /// Makes indexes of no row.
    pub(crate) fn new(alloc: Global) -> Indexes
        ensures moments { result.moments.pairs ≡ [] }
        ensures sessions { result.sessions.pairs ≡ [] }
        ensures since { result.sessions.since ≡ 0 }
    {
        Indexes {
            moments: Index::new(alloc),
            sessions: Index::new(alloc),
        }
    }

    /// Reserves memory for the pairs of `total` rows in all. Fails if memory is refused, and the pairs stay.
    pub(crate) fn reserve(&mut self, total: usize) -> Result<(), Memory>
        ensures moments { self.new.moments.pairs ≡ self.old.moments.pairs }
        ensures sessions { self.new.sessions.pairs ≡ self.old.sessions.pairs }
        ensures moments_since { self.new.moments.since ≡ self.old.moments.since }
        ensures sessions_since { self.new.sessions.since ≡ self.old.sessions.since }
        ensures moments_more { self.old.moments.reserved ≤ self.new.moments.reserved }
        ensures sessions_more { self.old.sessions.reserved ≤ self.new.sessions.reserved }
        ensures moments_reserved { OnOk result (total ≤ self.new.moments.reserved) }
        ensures sessions_reserved { OnOk result (total ≤ self.new.sessions.reserved) }
    {
        // Each row that may come and go has a place in both, with a rank or without: 24 bytes in either.
        if self.moments.reserve(total).is_err() || self.sessions.reserve(total).is_err() {
            return Err(Memory);
        }
        Ok(())
    }

    /// Inserts the pairs of a row.
    pub(crate) fn insert(&mut self, row: &Row)
        requires moments { IsSome (due_of row.now) → HasReserved self.old.moments }
        requires sessions { IsSome (holder_of row.now) → HasReserved self.old.sessions }
        ensures { self.new ≡ row_edited insert_by row.now self.old }
    {
        insert_ranked(&mut self.moments, row.due, row.shown.key);
        insert_ranked(&mut self.sessions, holder(row), row.shown.key);
    }

    /// Inserts the pairs of rows.
    pub(crate) fn insert_all(&mut self, rows: &[Row])
        requires moments { length self.old.moments.pairs + length rows.now ≤ self.old.moments.reserved }
        requires sessions { length self.old.sessions.pairs + length rows.now ≤ self.old.sessions.reserved }
        ensures { self.new ≡ with_rows rows.now self.old }
    {
        for row in rows {
            self.insert(row);
        }
    }

    /// Removes the pairs of a row.
    pub(crate) fn remove(&mut self, row: &Row)
        ensures { self.new ≡ row_edited remove_by row.now self.old }
    {
        remove_ranked(&mut self.moments, row.due, row.shown.key);
        remove_ranked(&mut self.sessions, holder(row), row.shown.key);
    }
}

/// Returns the session that holds the lock of a row, if the row is a lock.
fn holder(row: &Row) -> Option<u64>
    ensures { result ≡ holder_of row.now }
{
    match row.shown.value {
        Value::Lock { session, .. } => Some(u64::from(session)),
        _ => None,
    }
}

/// Inserts the pair of a key, if the key has a rank.
fn insert_ranked(index: &mut Index, rank: Option<u64>, key: Key)
    requires { IsSome rank → HasReserved index.old }
    ensures { index.new ≡ pair_edited insert_by rank key index.old }
{
    if let Some(rank) = rank {
        index.insert(Pair { rank, key });
    }
}

/// Removes the pair of a key, if the key has a rank.
fn remove_ranked(index: &mut Index, rank: Option<u64>, key: Key)
    ensures { index.new ≡ pair_edited remove_by rank key index.old }
{
    if let Some(rank) = rank {
        index.remove(Pair { rank, key });
    }
}

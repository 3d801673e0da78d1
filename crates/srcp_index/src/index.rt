//! Pairs of a rank and a key in order, in memory reserved ahead.
ghost use Rattle.std.specs.Prelude.{◌≡◌, ◌+◌, ◌<◌, ◌≤◌, ◌==◌, [], length, take, drop, find, fold, min, nat_le};
ghost use Rattle.std.specs.Prelude.{take_while, true, false, IsTrue, IfOk, OnOk, slice_get};
ghost use Rattle.std.specs.VecDeque.{deque_len, deque_capacity};
ghost use Rattle.std.specs.List.{AllByRecursion};
ghost use Rattle.std.specs.List.Sorted.{IsPermutation};
ghost use Rattle.srcp_index.specs.Ordered.{IsInOrder, insert_by, remove_by, order_by};
ghost use Rattle.srcp_index.specs.Pairs.{IsLeastRank, before, is_due_beyond, order};

use srcp_info::{Cursor, Key, compare as compare_keys};
use std::alloc::{AllocError, Global};
use std::cmp::Ordering;
use std::collections::VecDeque;
use std::marker::Model;

/// Pairs a key with its rank.
#[derive(Clone, Copy, Debug, PartialEq, Eq)]
pub(crate) struct Pair {
    pub(crate) rank: u64,
    pub(crate) key: Key,
}

/// Compares two pairs. Ranks up to `since` are equal. Pairs of equal rank go by their keys.
fn compare(since: u64, a: &Pair, b: &Pair) -> Ordering
    ensures { result ≡ order since a.now b.now }
{
    // So the pairs that are due stand first, in key order, which is the order of changes.
    let ranks = a
        .rank
        .saturating_sub(since)
        .cmp(&b.rank.saturating_sub(since));
    ranks.then(compare_keys(&a.key, &b.key).then(a.rank.cmp(&b.rank)))
}

/// Returns whether `a` comes before `b`.
fn is_before(since: u64, a: &Pair, b: &Pair) -> bool
    ensures { result ≡ before since a.now b.now }
{
    compare(since, a, b).is_lt()
}

/// Returns how many pairs come before this pair.
fn count_before(pairs: &VecDeque<Pair>, since: u64, pair: &Pair) -> usize
    requires { IsInOrder (before since) pairs.now.items }
    ensures bound { result ≤ length pairs.now.items }
    ensures prefix { AllByRecursion (λ x. before since x pair.now ≡ true) (take result pairs.now.items) }
    ensures back { AllByRecursion (λ x. before since x pair.now ≡ false) (drop result pairs.now.items) }
{
    pairs.partition_point(|x| is_before(since, x, pair))
}

/// Inserts a pair in order. Memory for the pair has to be reserved.
fn insert_in(pairs: &mut VecDeque<Pair>, since: u64, pair: Pair)
    requires order { IsInOrder (before since) pairs.old.items }
    requires reserved { deque_len pairs.old < deque_capacity pairs.old }
    ensures pairs { pairs.new.items ≡ insert_by (before since) pair pairs.old.items }
    ensures len { deque_len pairs.new ≡ deque_len pairs.old + 1 }
    ensures capacity { deque_capacity pairs.old ≤ deque_capacity pairs.new }
{
    let index = count_before(pairs, since, &pair);
    let _ = pairs.insert(index, pair);
}

/// Removes a pair, if it is there.
fn remove_from(pairs: &mut VecDeque<Pair>, since: u64, pair: Pair)
    requires order { IsInOrder (before since) pairs.old.items }
    ensures pairs { pairs.new.items ≡ remove_by (before since) pair pairs.old.items }
    ensures capacity { deque_capacity pairs.new ≡ deque_capacity pairs.old }
{
    let index = count_before(pairs, since, &pair);
    if index < pairs.len() && !is_before(since, &pair, &pairs[index]) {
        pairs.remove(index);
    }
}

/// Sorts pairs from the order of a moment into the order of another. Only pairs with a rank up to the later moment
/// move.
fn reorder(pairs: &mut [Pair], since: u64, moment: u64)
    requires { IsInOrder (before since) pairs.old }
    ensures { pairs.new ≡ order_by (before moment) pairs.old }
{
    let latest = since.max(moment);
    let count = pairs.partition_point(|pair| pair.rank <= latest);
    let (front, _) = pairs.split_at_mut(count);
    sort(front, moment);
}

/// Sorts the pairs of a ring from the order of a moment into the order of another.
fn reorder_in(pairs: &mut VecDeque<Pair>, since: u64, moment: u64)
    requires { IsInOrder (before since) pairs.old.items }
    ensures pairs { pairs.new.items ≡ order_by (before moment) pairs.old.items }
    ensures capacity { deque_capacity pairs.new ≡ deque_capacity pairs.old }
{
    reorder(pairs.make_contiguous(), since, moment);
}

/// Sorts pairs into the order of a moment.
fn sort(pairs: &mut [Pair], moment: u64)
    ensures permutation { IsPermutation pairs.old pairs.new }
    ensures order { IsInOrder (before moment) pairs.new }
    ensures len { length pairs.new ≡ length pairs.old }
{
    pairs.sort_unstable_by(|a, b| compare(moment, a, b));
}

/// Returns whether the rank is up to the moment, and the key beyond the cursor.
fn is_due_beyond(moment: u64, cursor: Cursor, pair: &Pair) -> bool
    ensures { result ≡ is_due_beyond moment cursor pair.now }
{
    pair.rank <= moment && !cursor.has_reached(&pair.key)
}

/// Returns the first pair whose rank is up to `since` and whose key is beyond the cursor.
fn first_due_in(pairs: &VecDeque<Pair>, since: u64, cursor: Cursor) -> Option<Pair>
    requires { IsInOrder (before since) pairs.now.items }
    ensures { result ≡ find (is_due_beyond since cursor) pairs.now.items }
{
    let index = pairs.partition_point(|x| x.rank <= since && !is_due_beyond(since, cursor, x));
    let pair = *pairs.get(index)?;
    is_due_beyond(since, cursor, &pair).then_some(pair)
}

/// Returns the first pair of a rank.
fn first_in(pairs: &VecDeque<Pair>, rank: u64) -> Option<Pair>
    requires { IsInOrder (before 0) pairs.now.items }
    ensures { result ≡ find (λ x. x.rank == rank) pairs.now.items }
{
    let index = pairs.partition_point(|x| x.rank < rank);
    let pair = *pairs.get(index)?;
    (pair.rank == rank).then_some(pair)
}

/// Returns the least of `rank` and all ranks up to `since`. Pairs of such ranks come first, and the search ends behind
/// them.
fn least_due(pairs: &VecDeque<Pair>, since: u64, rank: u64) -> u64
    ensures { result
        ≡ fold (λ least pair. min least pair.rank) rank (take_while (λ pair. nat_le pair.rank since) pairs.now.items) }
{
    pairs
        .iter()
        .take_while(|pair| pair.rank <= since)
        .fold(rank, |least, pair| least.min(pair.rank))
}

/// Returns the least rank, or `None` if there is no pair.
fn least_in(pairs: &VecDeque<Pair>, since: u64) -> Option<u64>
    requires { IsInOrder (before since) pairs.now.items }
    ensures { IsLeastRank result pairs.now.items }
{
    let first = pairs.front()?;
    Some(least_due(pairs, since, first.rank))
}

/// Holds pairs in the order of a moment. Contracts see the list, the moment, and how many pairs are reserved.
#[derive(Drop)]
pub(crate) struct Index {
    since: u64,
    /// The number of pairs that `reserve` made memory for.
    reserved: usize,
    // A ring reserves capacity, as a `BTreeMap` cannot: SET of a port and moments may take no memory. Pairs that fall
    // together are its first, and a ring moves its shorter side.
    pairs: VecDeque<Pair>,
}

impl Model for Index {
    ghost use Rattle.std.specs.Prelude.{◌≤◌};
    ghost use Rattle.std.specs.VecDeque.{deque_capacity};
    ghost use Rattle.srcp_index.specs.Ordered.{IsInOrder};
    ghost use Rattle.srcp_index.specs.Pairs.{IndexModel, before};

    ghost Value = { IndexModel };

    ghost view = { λ x. record { since = x.since; pairs = x.pairs.items; reserved = x.reserved } };

    ghost invariant = { λ x. IsInOrder (before x.since) x.pairs.items × (x.reserved ≤ deque_capacity x.pairs) };
}

impl Index {
    /// Makes an index of no pairs.
    pub(crate) fn new(alloc: Global) -> Index
        ensures pairs { result.pairs ≡ [] }
        ensures since { result.since ≡ 0 }
    {
        Index {
            since: 0,
            reserved: 0,
            pairs: VecDeque::new(alloc),
        }
    }

    /// Reserves memory for `total` pairs in all. Fails if memory is refused, and the pairs stay. No other call
    /// allocates.
    pub(crate) fn reserve(&mut self, total: usize) -> Result<(), AllocError>
        ensures pairs { self.new.pairs ≡ self.old.pairs }
        ensures since { self.new.since ≡ self.old.since }
        ensures more { self.old.reserved ≤ self.new.reserved }
        ensures ok { OnOk result (total ≤ self.new.reserved) }
    {
        self.pairs.reserve(total.saturating_sub(self.pairs.len()))?;
        self.reserved = self.reserved.max(total);
        Ok(())
    }

    /// Inserts a pair at its place in the order.
    pub(crate) fn insert(&mut self, pair: Pair)
        requires reserved { length self.old.pairs < self.old.reserved }
        ensures pairs { self.new.pairs ≡ insert_by (before self.old.since) pair self.old.pairs }
        ensures len { length self.new.pairs ≡ length self.old.pairs + 1 }
        ensures since { self.new.since ≡ self.old.since }
        ensures reserved { self.new.reserved ≡ self.old.reserved }
    {
        insert_in(&mut self.pairs, self.since, pair);
    }

    /// Removes a pair, if it is there.
    pub(crate) fn remove(&mut self, pair: Pair)
        ensures pairs { self.new.pairs ≡ remove_by (before self.old.since) pair self.old.pairs }
        ensures since { self.new.since ≡ self.old.since }
        ensures reserved { self.new.reserved ≡ self.old.reserved }
    {
        remove_from(&mut self.pairs, self.since, pair);
    }

    /// Sorts the pairs for the moment. Pairs with a rank up to the moment come first, in the order of their keys.
    pub(crate) fn sort_for(&mut self, moment: u64)
        ensures pairs { self.new.pairs ≡ order_by (before moment) self.old.pairs }
        ensures since { self.new.since ≡ moment }
        ensures reserved { self.new.reserved ≡ self.old.reserved }
    {
        if moment != self.since {
            reorder_in(&mut self.pairs, self.since, moment);
            self.since = moment;
        }
    }

    /// Returns the first pair whose rank is up to the moment and whose key is beyond the cursor.
    pub(crate) fn first_due_beyond(&self, cursor: Cursor) -> Option<Pair>
        ensures { result ≡ find (is_due_beyond self.now.since cursor) self.now.pairs }
    {
        first_due_in(&self.pairs, self.since, cursor)
    }

    /// Returns the least rank, or `None` if there is no pair.
    pub(crate) fn least(&self) -> Option<u64>
        ensures { IsLeastRank result self.now.pairs }
    {
        least_in(&self.pairs, self.since)
    }

    /// Returns the first pair of a rank.
    pub(crate) fn first_of(&self, rank: u64) -> Option<Pair>
        requires { self.now.since ≡ 0 }
        ensures { result ≡ find (λ x. x.rank == rank) self.now.pairs }
    {
        first_in(&self.pairs, rank)
    }
}

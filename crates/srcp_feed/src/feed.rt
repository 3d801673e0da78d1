//! The feed of an information session.

ghost use Rattle.std.specs.Prelude.{◌≡◌, ◌≢◌, ◌<◌, ◌≤◌, List, [], ◌++◌, drop, length, IfOk, IfSome, IfNone};
ghost use Rattle.std.specs.Prelude.{option_copied, slice_get};
ghost use Rattle.srcp_info.specs.Client.{changed, IsRisingBy};
ghost use Rattle.srcp_info.specs.declared.change.Change.{Change};
ghost use Rattle.srcp_info.specs.declared.change.Shown.{Shown};
ghost use Rattle.srcp_rules.specs.State.{row_after, shown_rows};
ghost use Rattle.srcp_feed.specs.Cursor.{concerns, said};
ghost use Rattle.srcp_feed.specs.Feed.{beginning, told, told_answer, next_of, after_next, HoldsPassed};

use crate::queue::Queue;
use crate::{ChangeLine, Waiting};
use srcp_info::{Change, Cursor, MOST_WAITING, Row, Shown};
use srcp_rules::{Memory, Rows};
use std::alloc::Global;
use std::marker::Model;

/// Says what a feed did with a change.
#[derive(Clone, Copy, Debug, PartialEq, Eq)]
pub enum Told {
    /// The listing has not reached the row, and will meet the change there.
    Skipped,
    /// The change is queued.
    Queued,
    /// The queue is full.
    Overrun,
}

/// Says what an information session is given next.
#[derive(Clone, Copy, Debug, PartialEq, Eq)]
pub enum Next {
    /// A waiting change.
    Told(Change),
    /// The next row of the listing.
    Listed(Shown),
    /// Nothing is left to give.
    Settled,
}

/// Gives an information session its changes and rows: the waiting changes, then the next rows of its listing. Holds the
/// listing's cursor and the waiting changes, and no row.
///
/// ```
/// let mut feed = InfoFeed::begin(alloc, &rows)?;
/// if feed.tell(&change) == Told::Overrun {
///     return Err(closed());
/// }
/// while feed.next(&rows) != Next::Settled {}
/// ```
#[derive(Drop)]
pub struct InfoFeed {
    cursor: Cursor,
    waiting: Queue,
}

impl Model for InfoFeed {
    ghost use Rattle.srcp_feed.specs.Feed.{Feed};

    ghost Value = { Feed };

    ghost view = { λ f. record { cursor = f.cursor; queue = f.waiting } };
}

impl InfoFeed {
    /// Begins a listing with no waiting change. Allocates the slots of all changes that may wait. No other call
    /// allocates. Fails with `Memory` if memory is refused.
    pub fn begin<R: Rows>(alloc: Global, _rows: &R) -> Result<InfoFeed, Memory>
        ensures { IfOk result (λ feed. feed ≡ beginning) }
    {
        Ok(InfoFeed {
            cursor: Cursor::Start,
            waiting: Queue::new(alloc)?,
        })
    }

    /// Takes in a change of the registry. A change of a row already passed by the listing is queued. Any other change
    /// is skipped, since the listing meets the row. Answers `Overrun`, and leaves the feed unchanged, if the change
    /// would be queued and `MOST_WAITING` changes wait already.
    pub fn tell(&mut self, change: &Change) -> Told
        ensures answer { result ≡ told_answer change.now self.old }
        ensures feed { self.new ≡ told change.now self.old }
        ensures holds { (given : List Change) (rows : List Shown)
            → result ≢ Told.Overrun
            → HoldsPassed given self.old rows
            → HoldsPassed given self.new (changed change.now rows) }
    {
        self.tell_line(&ChangeLine::without_line(change))
    }

    /// Takes in a change as `tell` does, and keeps the line of the change.
    pub fn tell_line(&mut self, change: &ChangeLine<'_>) -> Told
        ensures answer { result ≡ told_answer change.now self.old }
        ensures feed { self.new ≡ told change.now self.old }
    {
        if !self.has_passed(change.change()) {
            return Told::Skipped;
        }
        if self.waiting.push(change.waiting()) {
            Told::Queued
        } else {
            Told::Overrun
        }
    }

    /// Returns whether the listing has passed the row of a change. A listing that is done has passed all rows, whatever
    /// the key.
    fn has_passed(&self, change: &Change) -> bool
        ensures { result ≡ concerns self.now.cursor change.now }
    {
        matches!(self.cursor, Cursor::Done) || self.cursor.has_reached(&change.key())
    }

    /// Lends the first waiting change, with its line, or `None` if no change waits.
    pub fn first(&self) -> Option<&Waiting>
        ensures { option_copied result ≡ slice_get self.now.queue 0 }
    {
        self.waiting.first()
    }

    /// Drops the first waiting change, once the session was given the change. A change has to wait.
    pub fn drop_first(&mut self)
        requires { 0 < length self.old.queue }
        ensures { self.new ≡ record self.old { queue = drop 1 self.old.queue } }
    {
        self.waiting.drop_first();
    }

    /// Returns what the session is given next: the first waiting change, else the least row above the cursor, else
    /// `Settled`. From `Settled` on the listing is done, and every change is queued.
    pub fn next<R: Rows>(&mut self, rows: &R) -> Next
        ensures answer { result ≡ next_of (shown_rows (R.state rows.now)) self.old }
        ensures feed { self.new ≡ after_next (shown_rows (R.state rows.now)) self.old }
        ensures holds { (given : List Change)
            → IsRisingBy (λ row. row.key) (shown_rows (R.state rows.now))
            → HoldsPassed given self.old (shown_rows (R.state rows.now))
            → HoldsPassed (given ++ said result) self.new (shown_rows (R.state rows.now)) }
    {
        if let Some(told) = self.first() {
            let change = told.change();
            self.drop_first();
            return Next::Told(change);
        }
        match self.list(rows) {
            Some(row) => Next::Listed(row.shown),
            None => Next::Settled,
        }
    }

    /// Returns the next row for the session, or `None` if no row is left. No change may wait. Advances the listing as
    /// `next` does.
    #[inline(always)]
    pub fn list<'a, R: Rows>(&mut self, rows: &'a R) -> Option<&'a Row>
        requires { self.old.queue ≡ [] }
        ensures listed { IfSome result
            (λ row. next_of (shown_rows (R.state rows.now)) self.old ≡ Next.Listed row.now.shown) }
        ensures settled { IfNone result (next_of (shown_rows (R.state rows.now)) self.old ≡ Next.Settled) }
        ensures feed { self.new ≡ after_next (shown_rows (R.state rows.now)) self.old }
    {
        // A panel whose listing is done is visited often.
        if let Cursor::Done = self.cursor {
            return None;
        }
        match rows.row_after(self.cursor) {
            Some(row) => {
                self.cursor = Cursor::After(row.shown.key);
                Some(row)
            }
            None => {
                self.cursor = Cursor::Done;
                None
            }
        }
    }

    /// Returns the answer of `next`, and advances nothing.
    pub fn peek<R: Rows>(&self, rows: &R) -> Next
        ensures { result ≡ next_of (shown_rows (R.state rows.now)) self.now }
    {
        if let Some(told) = self.first() {
            return Next::Told(told.change());
        }
        match rows.row_after(self.cursor) {
            Some(row) => Next::Listed(row.shown),
            None => Next::Settled,
        }
    }

    /// Returns how far the listing has come.
    pub fn cursor(&self) -> Cursor
        ensures { result ≡ self.now.cursor }
    {
        self.cursor
    }

    /// Returns how many changes wait, at most `MOST_WAITING`.
    pub fn waiting(&self) -> usize
        ensures value { result ≡ length self.now.queue }
        ensures most { result ≤ MOST_WAITING }
    {
        self.waiting.len()
    }
}

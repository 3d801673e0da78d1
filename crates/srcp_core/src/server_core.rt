//! The core: the registry, and the connections with their sessions.

ghost use Rattle.std.specs.Prelude.{◌≡◌, ◌≤◌, IfOk, IfErr, IsSome, MatchResult, None, is_none, [], map};
ghost use Rattle.srcp_core.specs.Connection.{is_last};
ghost use Rattle.srcp_core.specs.Held.{at};
ghost use Rattle.srcp_core.specs.Machine.{opening_held, IsAdmitted, IsNotAdmitted, finish_at, hung_up, bytes_fault};
ghost use Rattle.srcp_core.specs.Machine.{advanced, live_session, slack_at};
ghost use Rattle.srcp_index.specs.Earliest.{IsEarliestDue};
ghost use Rattle.std.specs.List.{AllByRecursion};
ghost use Rattle.srcp_info.specs.WellFormed.{IsWellFormedShown};
ghost use Rattle.srcp_grammar.specs.Layout.{IsLayout};
ghost use Rattle.srcp_rules.specs.State.{IsRising};
ghost use Rattle.srcp_core.specs.Waits.{least};

mod answer;
mod outgoing;
mod receive;
mod stamp;
mod walk;

use crate::accepted::Accepted;
use crate::connection::Connection;
use crate::entries::Entries;
use crate::limits::MOST_CONNECTIONS;
use crate::record::{CoreFault, Finish, RowList};
use slab::Slab;
use srcp_index::Indexed;
use srcp_info::Cursor;
use srcp_rules::{Layout, Memory, Obeyed, Rows};
use std::alloc::Global;
use std::marker::Model;
use walk::{PanelKeys, carry_out_due, free_all, least_slack, panel_keys};

/// Holds the registry of a layout, and the connections to it with their sessions. The comments of `LoggedCore` say what
/// the calls of the same names do.
#[derive(Drop)]
pub struct Core<'a, R: Rows> {
    alloc: Global,
    layout: &'a Layout,
    rows: Indexed<R>,
    moment: u64,
    last_id: u32,
    connections: Slab<Connection>,
    /// The keys of the connections with an information session.
    panels: PanelKeys,
    denied: u64,
    /// The line of `200 OK` at the moment of the last such reply.
    accepted: Accepted,
    /// The outcome of the last command, kept to allocate the buffers once.
    obeyed: Obeyed,
}

impl<'a, R: Rows> Model for Core<'a, R> {
    ghost use Rattle.std.specs.Prelude.{◌≡◌, ◌≤◌};
    ghost use Rattle.srcp_core.specs.Held.{Held, IsSound};
    ghost use Rattle.srcp_core.specs.Machine.{panel_keys};
    ghost use Rattle.srcp_core.specs.declared.limits.TheConstants.{MOST_CONNECTIONS};

    ghost Value = { Held };

    ghost view = { λ c.
        record {
          buses = c.layout.now;
          rows = R.state c.rows;
          moment = c.moment;
          last_id = c.last_id;
          places = c.connections.slots;
          denied = c.denied;
        } };

    ghost invariant = { λ c.
        IsSound (record {
          buses = c.layout.now;
          rows = R.state c.rows;
          moment = c.moment;
          last_id = c.last_id;
          places = c.connections.slots;
          denied = c.denied;
        })
        × (R.buses c.rows ≡ c.layout.now) × (MOST_CONNECTIONS ≤ c.connections.capacity)
        × (c.panels.items ≡ panel_keys c.connections.slots) };
}

impl<'a, R: Rows> Core<'a, R> {
    /// Makes a core with no connection, and with the registry of the layout at a moment in milliseconds. The power of
    /// each bus with power is off, and each feedback port is 0, stamped with this moment. `last_id` is the last used
    /// session id, or 0. Law: `first` of `laws::calls_follow`.
    ///
    /// # Errors
    /// Returns `Memory` if memory is refused to the registry or to the 64 slots of connections.
    pub fn new(
        alloc: Global,
        layout: &'a Layout,
        moment: u64,
        last_id: u32,
    ) -> Result<Core<'a, R>, Memory>
        ensures { IfOk result (λ core. core ≡ opening_held layout.now moment last_id) }
    {
        // Called for the contract, which says the layout's limits.
        let _ = layout.buses();
        let mut rows = Indexed::empty(alloc, layout)?;
        stamp::stamp_all(&mut rows, moment);
        let connections = Slab::with_capacity(alloc, MOST_CONNECTIONS)?;
        Ok(Core {
            alloc,
            layout,
            rows,
            moment,
            last_id,
            connections,
            panels: PanelKeys::new(),
            denied: 0,
            accepted: Accepted::at(moment),
            obeyed: Obeyed::new(),
        })
    }

    /// Advances to the moment. Law: `moment` of `laws::calls_follow`.
    pub fn advance(&mut self, moment: u64)
        ensures { self.new ≡ advanced moment self.old }
    {
        self.moment = self.moment.max(moment);
        carry_out_due(
            &mut self.rows,
            &mut self.connections,
            self.panels.as_slice(),
            self.moment,
        );
    }

    /// Returns the moment at which the first of the rows falls due. Law: `due` of `laws::calls_follow`.
    pub fn earliest_due(&self) -> Option<u64>
        ensures { IsEarliestDue result self.now.rows }
    {
        self.rows.earliest_due()
    }

    /// Opens a connection, and returns the key of the connection. Laws: `opened`, `not_opened`, `accepts`, `refuses`,
    /// `named` and `counted` of `laws::calls_follow`.
    ///
    /// # Errors
    /// Returns `Full` or `Memory` (`IsNotAdmitted`).
    #[tactic(auto, using(crate::proofs::Invariants::PanelsStay::panels_inserted))]
    pub fn connect(&mut self) -> Result<usize, CoreFault>
        ensures admitted { IfOk result (λ key. IsAdmitted key self.old self.new) }
        ensures refused { IfErr result (λ fault. IsNotAdmitted fault self.old self.new) }
    {
        if self.connections.len() >= MOST_CONNECTIONS {
            return Err(CoreFault::Full);
        }
        match Connection::new(self.alloc) {
            Ok(connection) => Ok(self.connections.insert_reserved(connection)),
            Err(Memory) => {
                self.count_denied();
                Err(CoreFault::Memory)
            }
        }
    }

    /// Removes a connection, and ends the session of the connection if the session goes on. Laws: `shut`, `shuts` and
    /// `there` of `laws::calls_follow`.
    ///
    /// # Errors
    /// Returns `NoSuch` if there is no such connection, and then nothing changes.
    pub fn hangup(&mut self, conn: usize) -> Result<(), CoreFault>
        ensures absent { MatchResult result (λ _. IsSome (at self.old conn))
            (λ fault. (fault ≡ CoreFault.NoSuch) × (at self.old conn ≡ None)) }
        ensures core { self.new ≡ hung_up conn self.old }
    {
        // The connection goes first: the changes of the session's end are for the other panels alone.
        let Some(connection) = self.connections.try_remove(conn) else {
            return Err(CoreFault::NoSuch);
        };
        self.panels = panel_keys(&self.connections);
        if let Some(session) = connection.live_session() {
            free_all(
                &mut self.rows,
                &mut self.connections,
                self.panels.as_slice(),
                session,
                self.moment,
            );
        }
        Ok(())
    }

    /// Returns whether `receive` accepts a piece of at most 256 bytes. Laws: `bytes` and `takes` of
    /// `laws::calls_follow`.
    pub fn ready(&self, conn: usize) -> bool
        ensures { result ≡ is_none (bytes_fault conn [] self.now) }
    {
        match self.connections.get(conn) {
            Some(connection) => !connection.is_over() && connection.is_sent(),
            None => false,
        }
    }

    /// Returns whether the connection is to be closed. Law: `closes` of `laws::calls_follow`.
    pub fn closing(&self, conn: usize) -> bool
        ensures { result ≡ is_last (finish_at conn self.now) }
    {
        matches!(self.finish_of(conn), Finish::Overrun | Finish::Closing)
    }

    /// Returns how many allocations were refused since `new`.
    pub fn denied(&self) -> u64
        ensures count { result ≡ self.now.denied }
        ensures laid_out { IsLayout self.now.buses }
    {
        self.denied
    }

    /// Returns how many more changes each information session can queue. Law: `slack` of `laws::calls_follow`.
    pub fn slack(&self) -> Option<usize>
        ensures { result ≡ least (map slack_at self.now.places) }
    {
        if self.panels.is_empty() {
            return None;
        }
        Some(least_slack(&self.connections))
    }

    /// Returns the last moment, in milliseconds.
    pub(crate) fn moment(&self) -> u64
        ensures { result ≡ self.now.moment }
    {
        self.moment
    }

    /// Returns the session of a connection, or `None` if no session began or the session ended.
    pub(crate) fn live_session(&self, conn: usize) -> Option<u32>
        ensures { result ≡ live_session conn self.now }
    {
        self.connections.get(conn)?.live_session()
    }

    /// Returns the state of a connection, or `Shut` if no connection has this key.
    pub(crate) fn finish_of(&self, conn: usize) -> Finish
        ensures { result ≡ finish_at conn self.now }
    {
        match self.connections.get(conn) {
            None => Finish::Shut,
            Some(connection) if connection.overran() => Finish::Overrun,
            Some(connection) if connection.is_done() => Finish::Closing,
            Some(_) => Finish::Live,
        }
    }

    /// Returns all rows, in key order.
    pub(crate) fn rows(&self, alloc: Global) -> Result<RowList, Memory>
        ensures rows { IfOk result (λ rows. rows ≡ self.now.rows) }
        ensures well_formed { IfOk result (AllByRecursion (λ row. IsWellFormedShown row.shown)) }
    {
        all_rows(alloc, &self.rows)
    }
}

/// Returns all rows of a keeper, in key order.
fn all_rows<R: Rows>(alloc: Global, rows: &R) -> Result<RowList, Memory>
    requires { IsRising (R.state rows.now) }
    ensures { IfOk result (λ list. list ≡ R.state rows.now) }
{
    let mut list = Entries::new(alloc);
    let mut at = Cursor::Start;
    while let Some(row) = rows.row_after(at) {
        at = Cursor::After(row.shown.key);
        list.extend(&[*row])?;
    }
    Ok(list)
}

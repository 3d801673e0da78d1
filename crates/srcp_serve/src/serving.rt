//! Turns of a server: what a server asks of the door in each turn, and what the server does with the answers.

ghost use Rattle.std.specs.Prelude.{◌≡◌, ◌<◌, ◌≤◌, ◌+◌, replicate, None, Some, is_none, length, position, slice_set};
ghost use Rattle.srcp_info.specs.Limits.{greatest_u64};
ghost use Rattle.srcp_core.specs.declared.limits.TheConstants.{MOST_CONNECTIONS};
ghost use Rattle.srcp_serve.specs.Slots.{AcceptsOne, MakesTurn, MayFree, Connects, ServesCourse, TakesMoment, one_if};
ghost use Rattle.srcp_serve.specs.Slots.{VisitsSlot, VisitsSlots, AreFreeFrom};
ghost use Rattle.srcp_serve.specs.Tally.{CallsDoor};
ghost use Rattle.srcp_serve.specs.Turns.{AreMoment, AreAccept, AreAboutPeers, IsTurn, AreTurns, Asks};
ghost use Rattle.std.specs.List.{slice_index_or};

mod visit;

use crate::tally::Tally;
use srcp_core::{LoggedCore, MOST_CONNECTIONS, MOST_IN_PIECE};
use srcp_door::Door;
use srcp_rules::Rows;
use std::marker::Model;
use visit::Client;

/// Counts what a server did until its end.
#[derive(Clone, Copy, Debug, PartialEq, Eq)]
pub struct Served {
    /// The number of turns.
    pub turns: u64,
    /// The number of peers that got a connection.
    pub opened: u64,
    /// The number of failed calls of the door. The count stops at the greatest u64.
    pub faults: u64,
}

/// Holds a server over a door, with the slots of its peers.
#[derive(Drop)]
struct Server<'d, D: Door> {
    door: &'d mut D,
    slots: Slots,
    tally: Tally,
    // One read buffer serves all peers, since a new one would be cleared for each visit.
    buffer: [u8; MOST_IN_PIECE],
}

/// Serves the peers of a door for `turns` turns, over a core without connections. Returns how many connections were
/// opened, and how many calls of the door failed.
///
/// Each turn advances the core to the door's time, accepts one pending peer, if any, and visits each peer with a slot.
/// A visit reads the peer if the peer's connection accepts bytes, and writes what the core lends. The visit closes the
/// peer if the peer is lost or the connection is to be closed. Serving goes on after a failed call, and if memory is
/// refused. A new peer is closed then, or a line is answered 500.
pub fn serve<R: Rows, D: Door>(core: &mut LoggedCore<'_, R>, door: &mut D, turns: u64) -> Served
    ensures turns { result.turns ≡ turns }
    ensures faults { D.faults door.new < greatest_u64 → D.faults door.old + result.faults ≡ D.faults door.new }
    ensures trace { Asks (AreTurns turns) (D.trace door.old) (D.trace door.new) }
    ensures limit { D.limit door.new ≡ D.limit door.old }
    ensures course { ServesCourse turns result.opened core.old (D.trace door.old) core.new (D.trace door.new) }
{
    let mut server = Server::new(door);
    let mut opened = 0;
    for _ in 0..turns {
        let opens = server.turn(core);
        opened = one_more_if(opens, opened);
    }
    Served {
        turns,
        opened,
        faults: server.tally.faults,
    }
}

/// Returns the count, plus 1 if `counts` is true.
fn one_more_if(counts: bool, count: u64) -> u64
    requires { count < greatest_u64 }
    ensures { result ≡ count + one_if counts }
{
    if counts { count + 1 } else { count }
}

impl<'d, D: Door> Server<'d, D> {
    /// Makes a server with every slot free and no call failed.
    fn new(door: &'d mut D) -> Server<'d, D>
        ensures same_door { result.door.ghost_name ≡ door.entry.ghost_name }
        ensures door { result.door.now ≡ door.old }
        ensures slots { result.slots ≡ replicate MOST_CONNECTIONS None }
        ensures faults { result.tally.faults ≡ 0 }
    {
        Server {
            door,
            slots: Slots::new(),
            tally: Tally::new(),
            buffer: [0; MOST_IN_PIECE],
        }
    }

    /// Makes a turn. Returns whether a peer was connected.
    fn turn<R: Rows>(&mut self, core: &mut LoggedCore<'_, R>) -> bool
        requires { self.old.tally.faults ≤ D.faults self.old.door.now }
        ensures calls { CallsDoor D.faults D.trace D.limit IsTurn self.old self.new }
        ensures course { MakesTurn core.old (D.trace self.old.door.now) self.old.slots
            core.new (D.trace self.new.door.now) self.new.slots result }
    {
        self.take_moment(core);
        let opens = self.accept_one(core);
        self.visit_slots(core);
        opens
    }

    /// Visits the peers with slots, in the order of the slots.
    fn visit_slots<R: Rows>(&mut self, core: &mut LoggedCore<'_, R>)
        requires { self.old.tally.faults ≤ D.faults self.old.door.now }
        ensures calls { CallsDoor D.faults D.trace D.limit AreAboutPeers self.old self.new }
        ensures course { VisitsSlots core.old (D.trace self.old.door.now) self.old.slots
            core.new (D.trace self.new.door.now) self.new.slots }
    {
        let end = self.slots.end();
        for slot in 0..end {
            self.visit_slot(core, slot);
        }
    }

    /// Visits the peer of the slot, if any. Frees the slot if the visit closed the peer.
    fn visit_slot<R: Rows>(&mut self, core: &mut LoggedCore<'_, R>, slot: usize)
        requires counted { self.old.tally.faults ≤ D.faults self.old.door.now }
        requires within { slot < MOST_CONNECTIONS }
        ensures calls { CallsDoor D.faults D.trace D.limit AreAboutPeers self.old self.new }
        ensures course { VisitsSlot core.old (D.trace self.old.door.now) self.old.slots
            core.new (D.trace self.new.door.now) self.new.slots slot }
        ensures slots { MayFree slot self.old.slots self.new.slots }
    {
        let Some(client) = self.slots.client(slot) else {
            return;
        };
        if !self.visit(core, client) {
            self.slots.free(slot);
        }
    }

    /// Tells the door what to expect, asks the door for the time, and advances the core to that time. If the door
    /// fails, the core keeps its moment.
    fn take_moment<R: Rows>(&mut self, core: &mut LoggedCore<'_, R>)
        requires { self.old.tally.faults ≤ D.faults self.old.door.now }
        ensures slots { self.new.slots ≡ self.old.slots }
        ensures calls { CallsDoor D.faults D.trace D.limit AreMoment self.old self.new }
        ensures course { TakesMoment core.old (D.trace self.old.door.now)
            core.new (D.trace self.new.door.now) }
    {
        // By these the door hands out no more lines than the panels can take, and sleeps until the first row is due.
        self.door.expect(core.earliest_due(), core.slack());
        match self.door.now() {
            Ok(moment) => core.advance(moment),
            Err(_) => self.tally.fault(),
        }
    }

    /// Accepts one peer, if one is pending. Returns whether the peer got a slot.
    fn accept_one<R: Rows>(&mut self, core: &mut LoggedCore<'_, R>) -> bool
        requires { self.old.tally.faults ≤ D.faults self.old.door.now }
        ensures calls { CallsDoor D.faults D.trace D.limit AreAccept self.old self.new }
        ensures course { AcceptsOne core.old (D.trace self.old.door.now) self.old.slots
            core.new (D.trace self.new.door.now) self.new.slots result }
    {
        match self.door.accept() {
            Ok(None) => false,
            Ok(Some(peer)) => self.connect(core, peer),
            Err(_) => {
                self.tally.fault();
                false
            }
        }
    }

    /// Gives a peer a connection and the first free slot. Closes the peer if the core refuses the connection. Returns
    /// whether the peer got a slot.
    fn connect<R: Rows>(&mut self, core: &mut LoggedCore<'_, R>, peer: u32) -> bool
        requires { self.old.tally.faults ≤ D.faults self.old.door.now }
        ensures calls { CallsDoor D.faults D.trace D.limit AreAboutPeers self.old self.new }
        ensures course { Connects core.old (D.trace self.old.door.now) self.old.slots
            core.new (D.trace self.new.door.now) self.new.slots peer result }
    {
        let Ok(key) = core.connect() else {
            self.close(peer);
            return false;
        };
        let client = Client { peer, key };
        // The core had fewer connections than there are slots, so one is free.
        let Some(free) = self.slots.first_free() else {
            self.disconnect(core, client);
            return false;
        };
        self.slots.give(free, client);
        true
    }
}

/// Holds the slots, each with the peer that has it. Contracts see a list.
#[derive(Drop)]
struct Slots {
    clients: [Option<Client>; MOST_CONNECTIONS],
    // All slots from here on are free, so a turn skips them.
    end: usize,
}

impl Model for Slots {
    ghost use Rattle.std.specs.Prelude.{◌≡◌, ◌≤◌, Option, List, length};
    ghost use Rattle.srcp_core.specs.declared.limits.TheConstants.{MOST_CONNECTIONS};
    ghost use Rattle.srcp_serve.specs.Slots.{AreFreeFrom};
    ghost use Rattle.srcp_serve.specs.declared.serving.visit.Client.{Client};

    ghost Value = { List (Option Client) };

    ghost view = { λ p. p.clients };

    ghost invariant = { λ p.
        (length p.clients ≡ MOST_CONNECTIONS) × (p.end ≤ MOST_CONNECTIONS) × AreFreeFrom p.end p.clients };
}

impl Slots {
    /// Makes free slots.
    fn new() -> Slots
        ensures { result ≡ replicate MOST_CONNECTIONS None }
    {
        Slots {
            clients: [None; MOST_CONNECTIONS],
            end: 0,
        }
    }

    /// Returns the end of the slots in use: all slots from this end on are free.
    fn end(&self) -> usize
        ensures free { AreFreeFrom result self.now }
        ensures most { result ≤ MOST_CONNECTIONS }
        ensures all { length self.now ≡ MOST_CONNECTIONS }
    {
        self.end
    }

    /// Returns the peer of the slot, if any.
    fn client(&self, slot: usize) -> Option<Client>
        requires { slot < MOST_CONNECTIONS }
        ensures { result ≡ slice_index_or self.now slot None }
    {
        self.clients[slot]
    }

    /// Returns the first free slot, if any.
    fn first_free(&self) -> Option<usize>
        ensures first { result ≡ position is_none self.now }
        ensures all { length self.now ≡ MOST_CONNECTIONS }
    {
        self.clients.iter().position(|slot| slot.is_none())
    }

    /// Gives the slot to a peer.
    fn give(&mut self, slot: usize, client: Client)
        requires { slot < MOST_CONNECTIONS }
        ensures { self.new ≡ slice_set self.old slot (Some client) }
    {
        self.clients[slot] = Some(client);
        self.end = self.end.max(slot + 1);
    }

    /// Frees the slot.
    fn free(&mut self, slot: usize)
        requires { slot < MOST_CONNECTIONS }
        ensures { self.new ≡ slice_set self.old slot None }
    {
        self.clients[slot] = None;
    }
}

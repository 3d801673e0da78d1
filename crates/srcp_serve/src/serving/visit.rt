//! The visit of a peer that has a slot.

ghost use Rattle.std.specs.Prelude.{◌≡◌, ◌<◌, ◌≤◌, ◌+◌};
ghost use Rattle.srcp_serve.specs.Tally.{CallsDoor};
ghost use Rattle.srcp_serve.specs.Turns.{AreAboutPeers};
ghost use Rattle.srcp_serve.specs.Visits.{Closes, Disconnects, ReadsIn, Visits, WritesOnce, WritesOut};

use super::Server;
use srcp_core::LoggedCore;
use srcp_door::{Door, Got, MOST_WRITES};
use srcp_rules::Rows;

/// A peer that has a connection, and the key of that connection.
#[derive(Clone, Copy)]
pub(super) struct Client {
    pub peer: u32,
    pub key: usize,
}

/// Says how a write went.
#[derive(Clone, Copy)]
enum Wrote {
    /// The peer took all bytes.
    All,
    /// Nothing was lent, or the peer took a part.
    Less,
    /// The peer is lost.
    Failed,
}

impl<'d, D: Door> Server<'d, D> {
    /// Reads from the peer and writes to it. Closes it if it is lost or its connection is to be closed. Returns
    /// whether it keeps its slot.
    pub(super) fn visit<R: Rows>(&mut self, core: &mut LoggedCore<'_, R>, client: Client) -> bool
        requires { self.old.tally.faults ≤ D.faults self.old.door.now }
        ensures slots { self.new.slots ≡ self.old.slots }
        ensures calls { CallsDoor D.faults D.trace D.limit AreAboutPeers self.old self.new }
        ensures course { Visits client.peer client.key core.old (D.trace self.old.door.now)
            core.new (D.trace self.new.door.now) result }
    {
        if self.read_in(core, client) && self.write_out(core, client) && !core.closing(client.key) {
            return true;
        }
        self.disconnect(core, client);
        false
    }

    /// Hangs up the connection of a peer and closes the peer.
    pub(super) fn disconnect<R: Rows>(&mut self, core: &mut LoggedCore<'_, R>, client: Client)
        requires { self.old.tally.faults ≤ D.faults self.old.door.now }
        ensures slots { self.new.slots ≡ self.old.slots }
        ensures calls { CallsDoor D.faults D.trace D.limit AreAboutPeers self.old self.new }
        ensures course { Disconnects client.peer client.key core.old (D.trace self.old.door.now)
            core.new (D.trace self.new.door.now) }
    {
        let _ = core.hangup(client.key);
        self.close(client.peer);
    }

    /// Closes a peer. A failure is counted, and the peer is closed all the same.
    pub(super) fn close(&mut self, peer: u32)
        requires { self.old.tally.faults ≤ D.faults self.old.door.now }
        ensures slots { self.new.slots ≡ self.old.slots }
        ensures calls { CallsDoor D.faults D.trace D.limit AreAboutPeers self.old self.new }
        ensures course { Closes peer (D.trace self.old.door.now) (D.trace self.new.door.now) }
    {
        match self.door.close(peer) {
            Ok(()) => (),
            Err(_) => self.tally.fault(),
        }
    }

    /// Reads once, if the connection accepts bytes. Returns false if the peer is lost.
    fn read_in<R: Rows>(&mut self, core: &mut LoggedCore<'_, R>, client: Client) -> bool
        requires { self.old.tally.faults ≤ D.faults self.old.door.now }
        ensures slots { self.new.slots ≡ self.old.slots }
        ensures calls { CallsDoor D.faults D.trace D.limit AreAboutPeers self.old self.new }
        ensures course { ReadsIn client.peer client.key core.old (D.trace self.old.door.now)
            core.new (D.trace self.new.door.now) result }
    {
        if !core.ready(client.key) {
            return true;
        }
        match self.door.read(client.peer, &mut self.buffer) {
            Ok(Got::Bytes(count)) => core.receive(client.key, &self.buffer[..count]).is_ok(),
            Ok(Got::Nothing) => true,
            Ok(Got::Ended) => false,
            Err(_) => {
                self.tally.fault();
                false
            }
        }
    }

    /// Writes what the core lends, as long as the peer takes all of it. Returns false if the peer is lost.
    fn write_out<R: Rows>(&mut self, core: &mut LoggedCore<'_, R>, client: Client) -> bool
        requires { self.old.tally.faults ≤ D.faults self.old.door.now }
        ensures slots { self.new.slots ≡ self.old.slots }
        ensures calls { CallsDoor D.faults D.trace D.limit AreAboutPeers self.old self.new }
        ensures course { WritesOut client.peer client.key core.old (D.trace self.old.door.now)
            core.new (D.trace self.new.door.now) result }
    {
        for _ in 0..MOST_WRITES {
            match self.write_once(core, client) {
                Wrote::All => (),
                Wrote::Less => return true,
                Wrote::Failed => return false,
            }
        }
        true
    }

    /// Writes what the core lends, once, and drops of it what the peer took.
    fn write_once<R: Rows>(&mut self, core: &mut LoggedCore<'_, R>, client: Client) -> Wrote
        requires { self.old.tally.faults ≤ D.faults self.old.door.now }
        ensures slots { self.new.slots ≡ self.old.slots }
        ensures calls { CallsDoor D.faults D.trace D.limit AreAboutPeers self.old self.new }
        ensures course { WritesOnce client.peer client.key core.old (D.trace self.old.door.now)
            core.new (D.trace self.new.door.now) result }
    {
        let Ok(lent) = core.outgoing(client.key) else {
            return Wrote::Less;
        };
        if lent.is_empty() {
            return Wrote::Less;
        }
        let handed = lent.len();
        let Ok(count) = self.door.write(client.peer, lent) else {
            self.tally.fault();
            return Wrote::Failed;
        };
        core.sent(client.key, count);
        if count < handed {
            Wrote::Less
        } else {
            Wrote::All
        }
    }
}

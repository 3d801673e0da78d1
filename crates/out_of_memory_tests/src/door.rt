//! Serving two peers, with memory refused to either of them.
ghost use Rattle.srcp_door.specs.Calls.{one_more};

use crate::calls::one_bus;
use crate::outcome::{Outcome, Refused};
use srcp_core::LoggedCore;
use srcp_rules::Nested;
use srcp_serve::{Door, DoorFault, Got, Served, serve as serve_turns};
use std::alloc::Global;

/// A door to two peers. They connect in the first two turns, send nothing and take all.
#[derive(Drop)]
struct TwoPeers {
    came: u32,
    closed: u32,
}

impl Door for TwoPeers {
    ghost faults = { λ _. 0 };

    fn expect(&mut self, _due: Option<u64>, _slack: Option<usize>) {}

    fn now(&mut self) -> Result<u64, DoorFault> {
        Ok(0)
    }

    fn accept(&mut self) -> Result<Option<u32>, DoorFault> {
        if self.came >= 2 {
            return Ok(None);
        }
        self.came += 1;
        Ok(Some(self.came))
    }

    fn read(&mut self, _peer: u32, _buf: &mut [u8]) -> Result<Got, DoorFault> {
        Ok(Got::Nothing)
    }

    fn write(&mut self, _peer: u32, bytes: &[u8]) -> Result<usize, DoorFault> {
        Ok(bytes.len())
    }

    fn close(&mut self, _peer: u32) -> Result<(), DoorFault> {
        self.closed = self.closed.saturating_add(1);
        Ok(())
    }
}

/// Serves three turns over this door. If memory is refused to a connection, the connection's peer is closed, and the
/// other peer is served.
pub(crate) fn serve(alloc: Global) -> Result<Outcome, Refused> {
    let layout = one_bus(alloc)?;
    let mut core = LoggedCore::<Nested>::new(alloc, &layout)?;
    let mut door = TwoPeers { came: 0, closed: 0 };
    let served = serve_turns(&mut core, &mut door, 3);
    let opened = served.opened;
    let all_turns = served
        == Served {
            turns: 3,
            opened,
            faults: 0,
        };
    Ok(match opened {
        1 => Outcome::refused_if(all_turns && door.closed == 1 && core.denied() == 1),
        _ => Outcome::granted_if(
            all_turns && opened == 2 && door.closed == 0 && core.denied() == 0,
        ),
    })
}

//! Opening a door at a port of the machine itself.

ghost use Rattle.std.specs.Prelude.{◌≡◌, [], IfOk, None};
ghost use Rattle.srcp_peers.specs.Turns.{first_turn};
ghost use Rattle.srcp_sockets.specs.Faults.{IsLocal};

use crate::door::SocketDoor;
use crate::fault::{ListenFault, fault_of};
use crate::mio_system::MioSystem;
use std::alloc::Global;
use std::io;
use std::net::{IpAddr, Ipv4Addr, Net, SocketAddr};
use std::time::Clock;

impl<C: Clock + Drop> SocketDoor<MioSystem<C>> {
    /// Opens a door at a port of 127.0.0.1, over a system with an empty log. The moments begin with the wall clock at
    /// the time of the call, and go on with the monotonic clock. A clock that cannot be read, or stands before zero,
    /// counts as 0.
    ///
    /// # Errors
    /// Returns `Port` if the port is taken or refused, or the system has no descriptors left for the port. Returns
    /// `Memory` if memory is refused. In both cases no socket listens then.
    pub fn listen<N: Net>(
        net: &N,
        alloc: Global,
        port: u16,
        clock: C,
    ) -> Result<SocketDoor<MioSystem<C>>, ListenFault>
        ensures faults { IfOk result (λ door. door.faults ≡ 0) }
        ensures address { IfOk result (λ door. IsLocal door.sockets.system.system.address port) }
        ensures log { IfOk result (λ door. door.sockets.system.log.steps ≡ []) }
        ensures limit { IfOk result (λ door. door.sockets.most ≡ None) }
        ensures moments { IfOk result (λ door. door.sockets.turn
            ≡ first_turn door.sockets.system.system.wall door.sockets.system.system.start) }
    {
        match open(net, alloc, local_address(port), clock) {
            Ok(door) => Ok(door),
            Err(error) => Err(fault_of(&error)),
        }
    }
}

fn open<N: Net, C: Clock + Drop>(
    net: &N,
    alloc: Global,
    address: SocketAddr,
    clock: C,
) -> io::Result<SocketDoor<MioSystem<C>>>
    ensures faults { IfOk result (λ door. door.faults ≡ 0) }
    ensures address { IfOk result (λ door. door.sockets.system.system.address ≡ address) }
    ensures log { IfOk result (λ door. door.sockets.system.log.steps ≡ []) }
    ensures limit { IfOk result (λ door. door.sockets.most ≡ None) }
    ensures moments { IfOk result (λ door. door.sockets.turn
        ≡ first_turn door.sockets.system.system.wall door.sockets.system.system.start) }
{
    let system = MioSystem::listen(net, alloc, address, clock)?;
    let (wall, start) = (system.wall, system.start);
    match SocketDoor::open(system, alloc, wall, start) {
        Ok(door) => Ok(door),
        Err(error) => Err(io::Error::from(error)),
    }
}

/// Returns the address of a port of the machine itself.
fn local_address(port: u16) -> SocketAddr
    ensures { IsLocal result port }
{
    SocketAddr::new(IpAddr::V4(Ipv4Addr::LOCALHOST), port)
}

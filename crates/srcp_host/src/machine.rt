//! The machine: sockets and clocks.

ghost use Rattle.std.specs.Prelude.{◌≡◌, ◌<◌, IfErr, IfOk, None};
ghost use Rattle.srcp_info.specs.Limits.{greatest_u64};
ghost use Rattle.srcp_host.specs.Here.{RefusesHere, ServesHere};
ghost use Rattle.srcp_host.specs.Hosting.{longest_of_turns};
ghost use Rattle.srcp_sockets.specs.Faults.{IsLocal};

use crate::fault::HostFault;
use crate::hosting::{Hosted, serve_file};
use crate::opener::Opener;
use srcp_rules::Rows;
use srcp_sockets::{ListenFault, MioSystem, SocketDoor};
use std::alloc::Global;
use std::net::Net;
use std::time::Clock;

/// Opens a door at a port of the machine itself, as `SocketDoor::listen` does.
///
/// ```
/// let mut machine = Machine { rt };
/// let mut door = machine.open(rt.alloc(), 4303)?;
/// let served = serve_sockets(&mut core, &mut door, turns);
/// ```
#[derive(Drop)]
pub struct Machine<'a, R: Net + Clock> {
    /// What has the sockets and the clocks.
    pub rt: &'a R,
}

impl<'a, R: Net + Clock> Opener for Machine<'a, R> {
    type System = MioSystem<&'a R>;

    ghost answers = { λ _ port answer _. IfOk answer (λ system. IsLocal system.address port) };

    fn open(
        &mut self,
        alloc: Global,
        port: u16,
    ) -> Result<SocketDoor<MioSystem<&'a R>>, ListenFault> {
        SocketDoor::listen(self.rt, alloc, port, self.rt)
    }
}

/// Serves the layout of a file for `turns` turns, to the peers at the file's port of the machine itself, as
/// `serve_file` does. The log of the door says what was served.
///
/// # Errors
/// Returns the first fault, as `serve_file` does.
pub fn serve_here<'a, K: Rows, R: Net + Clock>(
    rt: &'a R,
    alloc: Global,
    file: &[u8],
    turns: u64,
) -> Result<Hosted<MioSystem<&'a R>>, HostFault>
    ensures served { IfOk result (λ hosted. ServesHere file.now turns hosted.served
        hosted.door.sockets.system.system hosted.door.sockets.system.log.steps) }
    ensures faults { IfOk result (λ hosted. hosted.door.faults < greatest_u64
        → hosted.served.faults ≡ hosted.door.faults) }
    ensures limit { IfOk result (λ hosted. hosted.door.sockets.most ≡ longest_of_turns turns None) }
    ensures refused { IfErr result (λ fault. RefusesHere file.now fault) }
{
    serve_file::<K, Machine<R>>(&mut Machine { rt }, alloc, file, turns)
}

//! Serves real sockets: the theorem from the core to the system call.

ghost use Rattle.std.specs.Prelude.{◌≡◌, ◌<◌, ◌+◌};
ghost use Rattle.srcp_info.specs.Limits.{greatest_u64};
ghost use Rattle.srcp_host.specs.Follows.{Follows};

use srcp_core::LoggedCore;
use srcp_rules::Rows;
use srcp_serve::{Served, serve};
use srcp_sockets::{SocketDoor, System};

/// Serves the peers of a door for `turns` turns. Returns how many connections were opened, and how many calls of the
/// door failed. Whatever the system answers, what socket k took is a prefix of what the course sends connection k.
/// Connection k of that course is fed a prefix of what socket k gave. In that course the core counted exactly the
/// refusals of memory.
pub fn serve_sockets<R: Rows, S: System>(
    core: &mut LoggedCore<'_, R>,
    door: &mut SocketDoor<S>,
    turns: u64,
) -> Served
    ensures turns { result.turns ≡ turns }
    ensures faults { door.new.faults < greatest_u64 → door.old.faults + result.faults ≡ door.new.faults }
    ensures limit { door.new.sockets.most ≡ door.old.sockets.most }
    ensures course { Follows turns result.opened core.old door.old.sockets.system.log.steps
        core.new door.new.sockets.system.log.steps }
{
    serve(core, door, turns)
}

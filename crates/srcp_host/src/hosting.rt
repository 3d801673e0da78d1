//! Serving a file.

ghost use Rattle.std.specs.Prelude.{◌≡◌, ◌<◌, IfErr, IfOk, None};
ghost use Rattle.srcp_info.specs.Limits.{greatest_u64};
ghost use Rattle.srcp_host.specs.Hosting.{Refuses, Serves, longest_of_turns};

use crate::course::serve_sockets;
use crate::fault::HostFault;
use crate::opener::Opener;
use srcp_core::LoggedCore;
use srcp_layout_file::read_layout;
use srcp_rules::Rows;
use srcp_serve::Served;
use srcp_sockets::{SocketDoor, System};
use std::alloc::Global;

/// The longest wait of a turn if turns are counted, in milliseconds.
const LONGEST_TURN: u64 = 8;

/// Holds what is left once all turns were served.
#[derive(Drop)]
pub struct Hosted<S: System> {
    /// The counts of the turns.
    pub served: Served,
    /// The door. Dropping the door delivers what was taken.
    pub door: SocketDoor<S>,
}

/// Serves the layout of a file for `turns` turns, to the peers of a door opened at the file's port. `R` keeps the rows.
/// The core begins at moment 0, and the first session has the id 1. If there are fewer turns than the greatest u64, a
/// turn waits 8 ms at most.
///
/// # Errors
/// Returns the first fault: `Config` for the file's fault, and then nothing is opened, or `Port` if the file's port
/// cannot be had. Returns `Memory` if memory is refused on the way.
pub fn serve_file<R: Rows, O: Opener>(
    opener: &mut O,
    alloc: Global,
    file: &[u8],
    turns: u64,
) -> Result<Hosted<O::System>, HostFault>
    ensures served { IfOk result (λ hosted. Serves O.answers file.now turns opener.old opener.new hosted.served
        hosted.door.sockets.system.log.steps) }
    ensures faults { IfOk result (λ hosted. hosted.door.faults < greatest_u64
        → hosted.served.faults ≡ hosted.door.faults) }
    ensures limit { IfOk result (λ hosted. hosted.door.sockets.most ≡ longest_of_turns turns None) }
    ensures refused { IfErr result (λ fault. Refuses O.answers file.now opener.old opener.new fault) }
{
    let config = read_layout(alloc, file)?;
    // The port stands in the file, so the caller hands over an opener and no door.
    let mut door = opener.open(alloc, config.port)?;
    let mut core = LoggedCore::<R>::new(alloc, &config.layout)?;
    limit_waits(&mut door, turns);
    let served = serve_sockets(&mut core, &mut door, turns);
    // The caller gets the door back and drops the door, which delivers. So the contract says what the sockets took.
    Ok(Hosted { served, door })
}

/// Limits how long a turn waits, if turns are counted.
fn limit_waits<S: System>(door: &mut SocketDoor<S>, turns: u64)
    ensures system { door.new.sockets.system ≡ door.old.sockets.system }
    ensures faults { door.new.faults ≡ door.old.faults }
    ensures wait { door.new.sockets.most ≡ longest_of_turns turns door.old.sockets.most }
{
    // Counted turns are to be made even if nothing happens.
    if turns < u64::MAX {
        door.wait_at_most(LONGEST_TURN);
    }
}

//! Laws of the limits.

ghost use Rattle.std.specs.Prelude.{◌+◌, ◌≤◌};
ghost use Rattle.srcp_door.specs.Limits.{most_locks};

use crate::pacing::RESERVE;
use srcp_grammar::MOST_CHANGES;
use srcp_info::MOST_WAITING;

/// States that the reserve for moments and ends of sessions is enough for a session that ends with `most_locks` locks.
/// The rest of the slack is enough for any line while no change waits for a panel.
pub fn turns_suffice()
    ensures ends { most_locks + 1 ≤ RESERVE }
    ensures lines { RESERVE + MOST_CHANGES ≤ MOST_WAITING }
{}

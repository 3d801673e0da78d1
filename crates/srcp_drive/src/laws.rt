//! Laws of lines and desks. Each function does nothing: its `ensures` is the law.

ghost use Rattle.srcp_drive.specs.Laws.{BoardsAskNothing, DriverIsFirst, LinesDiffer, NothingChanges};
ghost use Rattle.srcp_drive.specs.Laws.{RepliesAreHeard, StopAllIsFirst};

/// States that no line tells two things, also none that tells of nothing.
pub fn lines_differ()
    ensures { LinesDiffer }
{}

/// States that a line that tells of nothing changes nothing, and that no line follows.
pub fn nothing_changes()
    ensures { NothingChanges }
{}

/// States how the lines are heard with which the server answers commands. `200 OK` is heard as an accepted order, each
/// refusal as a refused order, and the reply to `GO` as a session that begins.
pub fn replies_are_heard()
    ensures { RepliesAreHeard }
{}

/// States that all are told to stop first, as the power of the bus says STOP ALL and the station is there.
pub fn stop_all_is_first()
    ensures { StopAllIsFirst }
{}

/// States that a function or a turnout is told only if the driver has nothing to tell.
pub fn driver_is_first()
    ensures { DriverIsFirst }
{}

/// States that nothing is asked of the registry for functions and turnouts, after any lines: no order is dropped.
pub fn boards_ask_nothing()
    ensures { BoardsAskNothing }
{}

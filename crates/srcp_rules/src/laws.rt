//! Laws of every command, every moment, and every session's beginning and end. Each function does nothing: its
//! `ensures` is a law.

ghost use Rattle.srcp_rules.specs.Laws.{OpeningsAreWhole, UpdatesKeepRising, StepsKeepWhole, MomentsKeepWhole};
ghost use Rattle.srcp_rules.specs.Laws.{EndsKeepWhole, StepsAddNoRow, EndsAddNoRow, StepsCanBeTold, RepliesCanBeTold};
ghost use Rattle.srcp_rules.specs.Laws.{CommandsAreSteps, MomentsAreSteps, EndsAreSteps, BeginningsAreSteps};
ghost use Rattle.srcp_rules.specs.Laws.{BeginningsCanBeTold, CommandsChangeLittle};
ghost use Rattle.srcp_rules.specs.Laws.{RefusalsChangeNothing, RefusalsNeedNoMemory, ChecksAnswerAsSets, LocksHold};
ghost use Rattle.srcp_rules.specs.Laws.{CommandsKeepSessions, MomentsKeepSessions, EndsFreeAll};
ghost use Rattle.srcp_rules.specs.Weight.{LinesWeighEnough, WeightsAreSmall, GoesWeighOne};
ghost use Rattle.srcp_rules.specs.Laws.{MomentsCarryOut, PortsAreSet, LocksAreSet, PortsFallBack, LocksRunOut};
ghost use Rattle.srcp_rules.specs.Laws.{MomentsEnd};
ghost use Rattle.srcp_rules.specs.SafetyLaws.{DrivesAreSet, EndsChangeNoDevice, EndsKeepOtherLocks, PowersAreSet};
ghost use Rattle.srcp_rules.specs.SafetyLaws.{InitsStandStill, OwnLocksLast, SensorsAreSet, StopsStop};

/// States: the registry of a layout begins whole.
pub fn openings_are_whole()
    ensures { OpeningsAreWhole }
{}

/// States: each update leaves the keys rising.
pub fn updates_keep_rising()
    ensures { UpdatesKeepRising }
{}

/// States: a command, a moment, and a session's beginning and end leave a whole registry whole (`steps`). So does each
/// change of a moment and of an end, and the later changes are still to come (`moments`, `ends`).
pub fn steps_keep_whole()
    ensures steps { StepsKeepWhole }
    ensures moments { MomentsKeepWhole }
    ensures ends { EndsKeepWhole }
{}

/// States: no Put of a step gives a row to a device that has rows. A session's end gives none
/// in any registry (`ends`).
pub fn steps_add_no_row()
    ensures steps { StepsAddNoRow }
    ensures ends { EndsAddNoRow }
{}

/// States: a command makes at most 11 changes.
pub fn commands_change_little()
    ensures { CommandsChangeLittle }
{}

/// States: a line brings at most its weight. The weight is at most 11, and 1 if the first word is GO.
pub fn lines_weigh_enough()
    ensures enough { LinesWeighEnough }
    ensures small { WeightsAreSmall }
    ensures goes { GoesWeighOne }
{}

/// States: the changes of a step and the reply to a command can be written as lines.
pub fn steps_can_be_told()
    ensures changes { StepsCanBeTold }
    ensures replies { RepliesCanBeTold }
{}

/// States: what the three laws above say of a step holds of the changes of each kind of step. The kinds are a command,
/// a moment, and a session's end and beginning. The change of a beginning can be written as a line in any registry
/// (`told`).
pub fn steps_by_kind()
    ensures commands { CommandsAreSteps }
    ensures moments { MomentsAreSteps }
    ensures ends { EndsAreSteps }
    ensures beginnings { BeginningsAreSteps }
    ensures told { BeginningsCanBeTold }
{}

/// States: a refused command changes nothing and ends nothing (`nothing`). A command refused by another rule has this
/// refusal, whatever memory answers (`memory`).
pub fn refusals_change_nothing()
    ensures nothing { RefusalsChangeNothing }
    ensures memory { RefusalsNeedNoMemory }
{}

/// States: CHECK answers what SET would, and changes nothing.
pub fn checks_answer_as_sets()
    ensures { ChecksAnswerAsSets }
{}

/// States: no command of a session changes a device locked by another session, or the lock.
pub fn locks_hold()
    ensures { LocksHold }
{}

/// States: no command touches the row of a session.
pub fn commands_keep_sessions()
    ensures { CommandsKeepSessions }
{}

/// States: no moment touches the row of a session.
pub fn moments_keep_sessions()
    ensures { MomentsKeepSessions }
{}

/// States: the end of a session removes the locks and the row of the session, and no other session's row.
pub fn ends_free_all()
    ensures { EndsFreeAll }
{}

/// States: a moment changes each due row, whoever holds the lock: a lock is gone, and a port is 0. All other rows stay.
pub fn moments_carry_out()
    ensures { MomentsCarryOut }
{}

/// States: after an accepted SET of a port, the port has its due moment or none, whatever the port had before.
pub fn ports_are_set()
    ensures { PortsAreSet }
{}

/// States: after an accepted SET of a lock, the lock has its due moment or none, whatever the lock had before.
pub fn locks_are_set()
    ensures { LocksAreSet }
{}

/// States: a port set to 1 for a time is 1 at each moment before the end of the time. From the end on it is 0.
pub fn ports_fall_back()
    ensures { PortsFallBack }
{}

/// States: a lock set for a time is there at each moment before the end of the time, and gone from the end on.
pub fn locks_run_out()
    ensures { LocksRunOut }
{}

/// States: a moment past the greatest is the greatest.
pub fn moments_end()
    ensures { MomentsEnd }
{}

/// States: SET of power is accepted, on or off, whatever is locked. GET then shows the new power, and no other row
/// changes.
pub fn powers_are_set()
    ensures { PowersAreSet }
{}

/// States: SET of a feedback port is accepted, whatever is locked. GET then shows the new value, and no other row
/// changes.
pub fn sensors_are_set()
    ensures { SensorsAreSet }
{}

/// States: after an accepted SET of a locomotive, the locomotive drives as the command says, and GET shows so.
/// Functions not in the command stay, and no other row changes.
pub fn drives_are_set()
    ensures { DrivesAreSet }
{}

/// States: an emergency stop without functions is accepted if the locomotive is there and no other session has its
/// lock. The locomotive then stands, and the functions stay.
pub fn stops_stop()
    ensures { StopsStop }
{}

/// States: an accepted INIT of a locomotive leaves the locomotive as before if the parameters are the same. Any other
/// locomotive stands still afterwards, forward, with all functions off.
pub fn inits_stand_still()
    ensures { InitsStandStill }
{}

/// States: a session keeps a lock of its own over each of its commands but three. These are TERM of the lock, and TERM
/// and INIT of the device.
pub fn own_locks_last()
    ensures { OwnLocksLast }
{}

/// States: the end of a session changes no locomotive, no accessory, no power and no feedback port (`devices`). Locks
/// of other sessions stay too (`locks`).
pub fn ends_change_no_device()
    ensures devices { EndsChangeNoDevice }
    ensures locks { EndsKeepOtherLocks }
{}

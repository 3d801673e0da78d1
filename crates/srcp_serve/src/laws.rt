//! Laws of every list of calls that serving makes. Each function does nothing: its `ensures` is the law.

ghost use Rattle.std.specs.Prelude.{List};
ghost use Rattle.srcp_grammar.specs.Layout.{IsLayout};
ghost use Rattle.srcp_grammar.specs.declared.layout.Bus.{Bus};
ghost use Rattle.srcp_serve.specs.Given.{GivesUnlessCounted};
ghost use Rattle.srcp_serve.specs.Lendings.{LendingsTellNothing};
ghost use Rattle.srcp_serve.specs.Serving.{FedIsHanded, SentIsTaken};
ghost use Rattle.srcp_serve.specs.Settling.{SettlesSoon, WaitsAreGoneAfterAVisit};
ghost use Rattle.srcp_serve.specs.Pacing.{IsLight, IsPaced, LinesGoOn, PiecesWeighEnough, ServingSparesAll, TurnsSpare};
ghost use Rattle.srcp_serve.specs.Pacing.{PacedReadsSpare, PacedReadsSpareAll, TurnsWeighEnough};

/// States that each peer took, to the byte, what the course of the calls sends the peer's connection. The calls are
/// those of some turns, no peer was accepted twice, and each answer is allowed to a door.
pub fn sent_is_taken()
    ensures { (buses : List Bus) → SentIsTaken buses }
{}

/// States that each connection was fed, to the byte, what the door handed out of the connection's peer. The calls are
/// those of `sent_is_taken`.
pub fn fed_is_handed()
    ensures { (buses : List Bus) → FedIsHanded buses }
{}

/// States that the course of any events is that of the events without the lendings of writes, so that each write which
/// took bytes is one room. Only the numbers of events and of refused events are others.
pub fn lendings_tell_nothing()
    ensures { (buses : List Bus) → LendingsTellNothing buses }
{}

/// States that memory was given in all calls, if the core counted exactly their refusals, and counts none.
pub fn gives_unless_counted()
    ensures { GivesUnlessCounted }
{}

/// States that a turn makes no panel overrun if the turn's changes are at most the slack that the door was told
/// (`each`). This is said of each panel, also of a panel that is closed in the turn. The slack is 256 if there was no
/// panel. If this is true of each turn, no panel ever overran (`all`).
pub fn paced_turns()
    ensures each { (buses : List Bus) → TurnsSpare buses (IsPaced buses) }
    ensures all { (buses : List Bus) → ServingSparesAll buses (IsPaced buses) }
{}

/// States that a turn makes no panel overrun if the turn's lines are light enough (`each`). This is said of each panel,
/// also of a panel that is closed in the turn. Two sums together have to be within the slack that the door was told,
/// which is 256 if there was no panel. The first sums the weights, by `srcp_grammar::weight`, of the lines that end in
/// the bytes of the turn. The second counts the changes of the turn's moment and of the ends of sessions. If each turn
/// is this light, no panel ever overran (`all`).
pub fn light_turns()
    ensures each { (buses : List Bus) → IsLayout buses → TurnsSpare buses (IsLight buses) }
    ensures all { (buses : List Bus) → IsLayout buses → ServingSparesAll buses (IsLight buses) }
{}

/// States that the lines that end in a piece weigh no more than the door weighs the piece (`weigh`). Of the bytes
/// before, the door knows only whether a line began in them, and counts the greatest weight then. The weight is the
/// same whether the bytes were handed out in two pieces or in one (`line`).
pub fn pieces_weigh_enough()
    ensures weigh { (buses : List Bus) → PiecesWeighEnough buses }
    ensures line { LinesGoOn }
{}

/// States that the lines that end in the bytes of a turn weigh no more than what the door handed out in the turn, as
/// the door weighs that. The calls are those of `sent_is_taken`. Of the bytes that the door handed out of a peer
/// before, it knows only whether a line began in them.
pub fn turns_weigh_enough()
    ensures { (buses : List Bus) → TurnsWeighEnough buses }
{}

/// States that a turn makes no panel overrun if two bounds hold (`each`). First, what the door hands out in the turn
/// weighs at most the slack less 160, or at most 11. The weight is the door's, and 11 is the most of one line. Second,
/// the turn's moment and the ends of sessions bring at most 160 changes. With what is handed out, of which at most 11
/// count, these are within the slack. If each turn is so, no panel ever overran (`all`). The calls are those of
/// `sent_is_taken`.
pub fn paced_reads()
    ensures each { (buses : List Bus) → IsLayout buses → PacedReadsSpare buses }
    ensures all { (buses : List Bus) → IsLayout buses → PacedReadsSpareAll buses }
{}

/// States that an information session is settled after enough turns that bring no change. In each of these turns the
/// session's peer takes all that is handed to the peer, and is not lost. The turns are enough if 300 times their number
/// is at least the lines owed to the session, and one more if bytes were unsent.
pub fn settles_soon()
    ensures { (buses : List Bus) → SettlesSoon buses }
{}

/// States that no change waits for an information session right after a visit in which the peer takes all that is
/// handed to the peer. At most 256 wait, a visit writes up to 300 times, and changes go before rows.
pub fn waits_are_gone_after_a_visit()
    ensures { (buses : List Bus) → WaitsAreGoneAfterAVisit buses }
{}

//! Laws of every door over a system, whatever the system answered. Each function does nothing: its `ensures` is the
//! law.

ghost use Rattle.std.specs.Prelude.{◌≡◌, ◌++◌, ◌∷◌, ◌==◌, ◌&&◌, ◌||◌, ◌*◌, ◌<◌, ◌≤◌, ◌⊎◌, ℕ, List, length};
ghost use Rattle.std.specs.Prelude.{nat_lt, slice_index_or, Option, Some, Ok, Err, Result, true, false};
ghost use Rattle.std.specs.Io.{StartsWith};
ghost use Rattle.srcp_peers.specs.declared.peer.Peer.{Peer};
ghost use Rattle.srcp_door.specs.declared.door.DoorFault.{DoorFault};
ghost use Rattle.srcp_door.specs.declared.door.Got.{Got};
ghost use Rattle.srcp_peers.specs.declared.system.Ready.{Ready};
ghost use Rattle.srcp_door.specs.Calls.{ReadCall, NowCall, WriteCall};
ghost use Rattle.srcp_peers.specs.Accounts.{account, is_at_rest, is_held, is_short_wait, may_close, may_end, may_fail};
ghost use Rattle.srcp_peers.specs.Accounts.{is_owed, may_shut};
ghost use Rattle.srcp_peers.specs.Steps.{Closes, Shuts, Step, Answers, Waits};
ghost use Rattle.srcp_log.specs.Asked.{AreAsked};
ghost use Rattle.srcp_log.specs.Duties.{IsHandedOut, has_waited, held_piece, is_end, is_failing, is_fault};
ghost use Rattle.srcp_log.specs.Duties.{is_leaving, is_shown, last_shown, takes_input};
ghost use Rattle.srcp_log.specs.Doors.{IsThere};
ghost use Rattle.srcp_log.specs.Waits.{IsIdle, NoneLingers, closes, has_to_close, has_work, is_brief, is_flush_due};
ghost use Rattle.srcp_log.specs.Waits.{is_written, lasts};
ghost use Rattle.srcp_peers.specs.Limits.{longest_sleep, retry_delay};
ghost use Rattle.srcp_log.specs.KeptTimes.{AreKeptTimes, ArePaced};
ghost use Rattle.srcp_log.specs.Limits.{most_lingering, most_ready};
ghost use Rattle.srcp_log.specs.Loads.{AreBounded, load};
ghost use Rattle.srcp_log.specs.Services.{AreInTurn, NobodyStarves};
ghost use Rattle.srcp_log.specs.Shares.{AreFilled};
ghost use Rattle.srcp_peers.specs.Sizes.{AreSmall};
ghost use Rattle.srcp_peers.specs.Times.{times};
ghost use Rattle.srcp_peers.specs.Turns.{got_bytes, has_ticked, is_pending, reports_end};
ghost use Rattle.srcp_peers.specs.Streams.{gave, handed, taken, took};
ghost use Rattle.srcp_sockets.specs.Silence.{NobodyIsLostWhoTakes};

use crate::door::SocketDoor;
use srcp_door::MOST_WRITES;
use srcp_info::LONGEST_LINE;
use srcp_peers::{MOST_OUTGOING, System};

/// States that each socket took a prefix of what the door said to have taken for the peer. What the door handed out of
/// a peer is a prefix of what the peer's socket gave.
pub fn sockets_follow<S: System>(door: &SocketDoor<S>)
    ensures took { let log = door.now.sockets.system.log.steps in (socket : ℕ)
        → StartsWith (taken socket log) (took socket log) }
    ensures handed { let log = door.now.sockets.system.log.steps in (socket : ℕ)
        → StartsWith (gave socket log) (handed socket log) }
{}

/// States that bytes taken for a peer, and not yet taken by the socket, are held in order. This holds while the peer is
/// there or is kept, unless a write found that the socket takes no more.
pub fn untaken_is_held<S: System>(door: &SocketDoor<S>)
    ensures { let log = door.now.sockets.system.log.steps in (k : ℕ) (d : Peer)
        → k < length door.now.sockets.peers.items
        → (let peer = slice_index_or door.now.sockets.peers.items k d in
        ((account peer.number log).sent.lost ≡ true)
        ⊎ (taken peer.number log ≡ took peer.number log ++ peer.outgoing)) }
{}

/// States that the end of a peer was reported only after a read of the peer's socket had found the end. By then all
/// input before the end was handed out, and the socket had taken all bytes taken for the peer.
pub fn ends_are_true<S: System>(door: &SocketDoor<S>)
    ensures { (before after : List Step) (socket : ℕ) (buffer : List ℕ)
        → door.now.sockets.system.log.steps ≡ before ++ Answers (ReadCall socket (Ok Got.Ended) buffer) ∷ after
        → may_end (account socket before) ≡ true }
{}

/// States that a read was reported as failed only if a read or a write of the socket had failed before, or the peer was
/// not there. A failed write was reported only if the peer was not there.
pub fn faults_are_true<S: System>(door: &SocketDoor<S>)
    ensures read { (before after : List Step) (socket : ℕ) (fault : DoorFault) (buffer : List ℕ)
        → door.now.sockets.system.log.steps ≡ before ++ Answers (ReadCall socket (Err fault) buffer) ∷ after
        → may_fail (account socket before) ≡ true }
    ensures write { (before after : List Step) (socket : ℕ) (bytes : List ℕ) (fault : DoorFault)
        → door.now.sockets.system.log.steps ≡ before ++ Answers (WriteCall socket bytes (Err fault)) ∷ after
        → (account socket before).watched ≡ false }
{}

/// States what a wait owes to a peer that is there. The wait may leave the peer with less than a piece held, and with
/// something that a read might find. Then the peer was read before the next moment was reported.
pub fn peers_are_read<S: System>(door: &SocketDoor<S>)
    ensures { (before after : List Step) (socket : ℕ) (answer : Result ℕ DoorFault)
        → door.now.sockets.system.log.steps ≡ before ++ Answers (NowCall answer) ∷ after
        → ((account socket before).watched && (account socket before).unread) ≡ false }
{}

/// States that a wait longer than the retry delay found at rest each peer that was there, and the listener, which is
/// socket 0. A wait longer than the back-pressure delay, which is 0 or 1 ms, found at rest each peer that was there. So
/// no input was held that the core takes. The wait came after a turn in which nothing happened, unless there was no
/// panel.
pub fn waits_are_safe<S: System>(door: &SocketDoor<S>)
    ensures long { (before after : List Step) (most : Option ℕ) (count : ℕ) (ready : List Ready)
        → door.now.sockets.system.log.steps ≡ before ++ Waits most count ready ∷ after → is_short_wait most ≡ false
        → (socket : ℕ) → ((account socket before).watched || (socket == 0)) ≡ true
        → is_at_rest (account socket before).sent (account socket before).received ≡ true }
    ensures peers { (before after : List Step) (most : Option ℕ) (count : ℕ) (ready : List Ready)
        → door.now.sockets.system.log.steps ≡ before ++ Waits most count ready ∷ after
        → (socket : ℕ) → has_work (account socket before) ≡ true
        → is_brief door.now.sockets.turn.timekeeper.wall door.now.sockets.turn.timekeeper.start before most ≡ true }
    ensures held { (before after : List Step) (most : Option ℕ) (count : ℕ) (ready : List Ready)
        → door.now.sockets.system.log.steps ≡ before ++ Waits most count ready ∷ after
        → (socket : ℕ) → takes_input (account socket before) ≡ true
        → is_brief door.now.sockets.turn.timekeeper.wall door.now.sockets.turn.timekeeper.start before most ≡ true }
    ensures panels { (before after : List Step) (most : Option ℕ) (count : ℕ) (ready : List Ready)
        → door.now.sockets.system.log.steps ≡ before ++ Waits most count ready ∷ after
        → (let turn = (times door.now.sockets.turn.timekeeper.wall door.now.sockets.turn.timekeeper.start before).turn
        in is_pending turn.slack turn.busy ≡ true)
        → is_brief door.now.sockets.turn.timekeeper.wall door.now.sockets.turn.timekeeper.start before most ≡ true }
{}

/// States that a socket was shut down and closed at most once, after the core closed its peer. The socket was shut down
/// when it had taken all bytes taken for the peer. There are three cases in which the socket was closed. First, it took
/// all these bytes and was shut down. Second, a write had found that it takes no more. Third, 10 seconds were over by
/// the clock that was read. An accepted socket that is not closed has a peer.
pub fn closed_rightly<S: System>(door: &SocketDoor<S>)
    ensures shut { (before after : List Step) (socket : ℕ)
        → door.now.sockets.system.log.steps ≡ before ++ Shuts socket ∷ after
        → may_shut (account socket before) ≡ true }
    ensures closed { (before after : List Step) (socket : ℕ)
        → door.now.sockets.system.log.steps ≡ before ++ Closes socket ∷ after
        → may_close (account socket before) ≡ true }
    ensures kept { let log = door.now.sockets.system.log.steps in (socket : ℕ)
        → (account socket log).lingering.kept ≡ true → IsThere socket door.now.sockets.peers.items }
{}

/// States that each moment was the moment to report by a clock that was read since the moment before. No wait ended
/// past what the door expects to fall due, and no wait began in a late turn. A wait longer than the retry delay came
/// after a turn in which nothing happened, unless there was no panel. No input was handed out in a late turn.
pub fn times_are_kept<S: System>(door: &SocketDoor<S>)
    ensures { AreKeptTimes (times door.now.sockets.turn.timekeeper.wall door.now.sockets.turn.timekeeper.start
        door.now.sockets.system.log.steps) }
{}

/// States that the door answered `accept` as the system did. The answer was the number of the accepted connection, a
/// fault if the system failed, or nobody if the system found nobody or was interrupted. If the system was not asked,
/// the answer was nobody, or a fault.
pub fn accepts_are_true<S: System>(door: &SocketDoor<S>)
    ensures { (times door.now.sockets.turn.timekeeper.wall door.now.sockets.turn.timekeeper.start
        door.now.sockets.system.log.steps).honest ≡ true }
{}

/// States what is true if the door answered `accept` by nobody. The door had asked the system since the last answer of
/// `accept`, or the listener (socket 0) was found quiet, or there was no place. No place means that at least 128
/// accepted sockets are not closed, or 63 linger and are owed nothing. With one more there is no place, and one may
/// have been closed just now to make a place. If the door answered by a fault, it had asked the system since then, or
/// the numbers ran out: as many peers had come as there are numbers.
pub fn accepts_are_asked<S: System>(door: &SocketDoor<S>)
    ensures { AreAsked door.now.sockets.system.log.steps }
{}

/// States that each moment was reported as the next step behind a look at the clock: as a fault if the clock could not
/// be read, else as a time. Consider a door that had not waited since it answered the call before. Input of a peer was
/// held that the core takes (`waits`). The clock had not gone on since the turn before, and no panel was so far behind
/// for the second turn that no line may go (`ticked`). Each wait could find 128 sockets ready (`hears`).
pub fn turns_wait<S: System>(door: &SocketDoor<S>)
    ensures clock { (before after : List Step) (answer : Result ℕ DoorFault)
        → door.now.sockets.system.log.steps ≡ before ++ Answers (NowCall answer) ∷ after
        → is_shown (last_shown before) answer ≡ true }
    ensures waits { (before after : List Step) (answer : Result ℕ DoorFault)
        → door.now.sockets.system.log.steps ≡ before ++ Answers (NowCall answer) ∷ after
        → ((socket : ℕ) → takes_input (account socket before) ≡ false) → has_waited before ≡ true }
    ensures ticked { (before after : List Step) (answer : Result ℕ DoorFault)
        → door.now.sockets.system.log.steps ≡ before ++ Answers (NowCall answer) ∷ after
        → has_ticked (times door.now.sockets.turn.timekeeper.wall door.now.sockets.turn.timekeeper.start before).turn
        ≡ true → has_waited before ≡ true }
    ensures hears { (before after : List Step) (most : Option ℕ) (count : ℕ) (ready : List Ready)
        → door.now.sockets.system.log.steps ≡ before ++ Waits most count ready ∷ after → length ready ≡ most_ready }
{}

/// States that a wait found no lingering socket that has to be closed, unless 64 sockets were closed since the moment
/// before. A socket has to be closed if a write found that it takes no more, or 10 seconds are over by the clock read.
/// So has one that was shut down and whose input ended, or of which a read failed. By then each lingering socket that
/// took all bytes taken for its peer was shut down, unless a write found that it takes no more.
pub fn gone_are_closed<S: System>(door: &SocketDoor<S>)
    ensures closed { (before after : List Step) (most : Option ℕ) (count : ℕ) (ready : List Ready)
        → door.now.sockets.system.log.steps ≡ before ++ Waits most count ready ∷ after
        → nat_lt (closes before) most_lingering ≡ true → (socket : ℕ) → has_to_close (account socket before) ≡ false }
    ensures shut { (before after : List Step) (most : Option ℕ) (count : ℕ) (ready : List Ready)
        → door.now.sockets.system.log.steps ≡ before ++ Waits most count ready ∷ after
        → (socket : ℕ) → may_shut (account socket before) ≡ true → (account socket before).sent.lost ≡ true }
{}

/// States why a wait is short, if no limit of the waits was set. A wait of less than 8 ms has one of three reasons:
///
/// - something happened since the wait before, and there is a panel;
/// - a peer that is there, or the listener, was not found at rest;
/// - something falls due before the wait is over.
///
/// A wait of less than an hour has one of these too, or a socket lingers.
pub fn waits_have_reasons<S: System>(door: &SocketDoor<S>)
    ensures delay { door.now.sockets.most ≡ None
        → (before after : List Step) (most : Option ℕ) (count : ℕ) (ready : List Ready)
        → door.now.sockets.system.log.steps ≡ before ++ Waits most count ready ∷ after
        → IsIdle door.now.sockets.turn.timekeeper.wall door.now.sockets.turn.timekeeper.start before most
        → lasts retry_delay most ≡ true }
    ensures sleep { door.now.sockets.most ≡ None
        → (before after : List Step) (most : Option ℕ) (count : ℕ) (ready : List Ready)
        → door.now.sockets.system.log.steps ≡ before ++ Waits most count ready ∷ after
        → IsIdle door.now.sockets.turn.timekeeper.wall door.now.sockets.turn.timekeeper.start before most
        → NoneLingers before → lasts longest_sleep most ≡ true }
{}

/// States that a flush came before three kinds of waits. The clock had gone on since the turn before, so all is written
/// once a millisecond; or nothing happened since the wait before; or there was no panel. Consider each socket that was
/// not closed, and had not taken all bytes taken for its peer. The socket was written to since the door answered the
/// call before; or a write had found that it takes nothing now, or no more.
pub fn queued_is_offered<S: System>(door: &SocketDoor<S>)
    ensures { (before after : List Step) (most : Option ℕ) (count : ℕ) (ready : List Ready)
        → door.now.sockets.system.log.steps ≡ before ++ Waits most count ready ∷ after
        → is_flush_due door.now.sockets.turn.timekeeper.wall door.now.sockets.turn.timekeeper.start before ≡ true
        → (socket : ℕ) → (account socket before).lingering.kept ≡ true
        → is_owed (account socket before).sent ≡ true
        → (((account socket before).sent.full || (account socket before).sent.lost) || is_written socket before)
        ≡ true }
{}

/// States what a read did if input of the peer was held and the turn was not late. The read reported no end. If no line
/// ends in the piece that the buffer takes, the read handed out all of the piece. Else the read handed out at least the
/// lines at the start of the piece that weigh nothing.
pub fn input_is_handed_out<S: System>(door: &SocketDoor<S>)
    ensures { (before after : List Step) (socket : ℕ) (answer : Result Got DoorFault) (buffer : List ℕ)
        → door.now.sockets.system.log.steps ≡ before ++ Answers (ReadCall socket answer buffer) ∷ after
        → (account socket before).watched ≡ true → is_held (account socket before).received ≡ true
        → (let t = times door.now.sockets.turn.timekeeper.wall door.now.sockets.turn.timekeeper.start before in
        t.turn.late ≡ false → (reports_end answer ≡ false)
        × IsHandedOut (t.lines socket) (held_piece (account socket before).received (length buffer))
        (length (got_bytes answer buffer))) }
{}

/// States what a read handed out at least, also of lines that weigh something. The read was the first since the moment
/// of a peer that was there by then, and input of that peer was held. The turn was not late, and its pace let any line
/// through. The turn before was not late either, and any line might still go at its end. Then the read handed out as
/// many lines as the pace lets through, and at least one if a line ends in the piece.
pub fn lines_are_handed_out<S: System>(door: &SocketDoor<S>)
    ensures { AreFilled door.now.sockets.turn.timekeeper.wall door.now.sockets.turn.timekeeper.start
        door.now.sockets.system.log.steps }
{}

/// States that no peer starves. A peer is served when the peer comes, and when input of the peer is handed out. Lines
/// that weigh something may be handed out of a peer while not every line may go. Then the door held input that the core
/// takes of no peer that was served longer ago (`in_turn`). So between that service of the peer and the one before,
/// each other peer was served of which the door holds such input (`between`). Both are of the first 2^64 - 2 services.
pub fn nobody_starves<S: System>(door: &SocketDoor<S>)
    ensures in_turn { AreInTurn door.now.sockets.turn.timekeeper.wall door.now.sockets.turn.timekeeper.start
        door.now.sockets.system.log.steps }
    ensures between { NobodyStarves door.now.sockets.turn.timekeeper.wall door.now.sockets.turn.timekeeper.start
        door.now.sockets.system.log.steps }
{}

/// States that nobody is lost for silence whose socket takes something. Let a peer not have been found lost as its
/// socket took something. Then no look within 30 seconds from there finds the peer lost, whatever the socket takes.
pub fn nobody_is_lost_who_takes()
    ensures { NobodyIsLostWhoTakes }
{}

/// States that a read of a peer that was not there reported a fault. So did a read of a peer with nothing held of which
/// a read or a write had failed. The exceptions are a late turn, and a turn that had reported another end.
pub fn faults_are_told<S: System>(door: &SocketDoor<S>)
    ensures { (before after : List Step) (socket : ℕ) (answer : Result Got DoorFault) (buffer : List ℕ)
        → door.now.sockets.system.log.steps ≡ before ++ Answers (ReadCall socket answer buffer) ∷ after
        → is_failing (account socket before) ≡ true
        → (let t = times door.now.sockets.turn.timekeeper.wall door.now.sockets.turn.timekeeper.start before in
        t.turn.late ≡ false → t.turn.may_report_end ≡ true → is_fault answer ≡ true) }
{}

/// States that a read of a leaving peer reported the peer's end. A leaving peer was there and had not failed. A read
/// had found the end, all input before was handed out, and the socket had taken all bytes taken for the peer. A visit
/// behind the end had no more for the peer: fewer than 300 writes, and no cut write. The exceptions are a late turn,
/// and a turn that had reported another end.
pub fn ends_are_told<S: System>(door: &SocketDoor<S>)
    ensures { (before after : List Step) (socket : ℕ) (answer : Result Got DoorFault) (buffer : List ℕ)
        → door.now.sockets.system.log.steps ≡ before ++ Answers (ReadCall socket answer buffer) ∷ after
        → is_leaving socket before ≡ true
        → (let t = times door.now.sockets.turn.timekeeper.wall door.now.sockets.turn.timekeeper.start before in
        t.turn.late ≡ false → t.turn.may_report_end ≡ true → is_end answer ≡ true) }
{}

/// States that the lines handed out from one moment to the next weighed at most the slack less 160. The slack is what
/// the door was given before, or 256 if there was no panel. Another bound holds if this leaves less than the greatest
/// weight of a line, and the line that the clock let through last is as many milliseconds ago as it weighs. Then one
/// read at most handed out lines that weigh something, and these weighed no more than a line can. Between two moments
/// the end of at most one peer was reported.
pub fn turns_are_paced<S: System>(door: &SocketDoor<S>)
    ensures { ArePaced (times door.now.sockets.turn.timekeeper.wall door.now.sockets.turn.timekeeper.start
        door.now.sockets.system.log.steps) }
{}

/// States how many calls of the system the door made for an answer, counted from the previous answer. For a moment
/// there were at most 517. These are a write, a shutdown and a read of each of 129 peers, 64 reads and 64 closes of
/// those that linger, a wait, and a look at the clock. For an accept there was one at most, and for each other answer
/// none. After the last answer there was none. Each read had space for 4,096 bytes at most, and each write offered
/// 40,960 at most (`small`).
pub fn turns_are_bounded<S: System>(door: &SocketDoor<S>)
    ensures few { AreBounded door.now.sockets.system.log.steps }
    ensures idle { load door.now.sockets.system.log.steps ≡ 0 }
    ensures small { AreSmall door.now.sockets.system.log.steps }
{}

/// States that the most lines that a peer is written in a visit can be queued.
pub fn visits_fit()
    ensures { MOST_WRITES * LONGEST_LINE ≤ MOST_OUTGOING }
{}

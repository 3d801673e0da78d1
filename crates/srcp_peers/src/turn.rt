//! What a door knows of the turn in progress, and how long that turn may wait.

ghost use Rattle.std.specs.Prelude.{◌≡◌, ◌<◌, ◌≤◌, ◌-◌, ◌/◌, ◌||◌, ◌⊎◌, true, false, ℕ, List, Some, None, Ok, Err};
ghost use Rattle.std.specs.Prelude.{IfErr, Result, cond, length, take, ◌↔◌, IsTrue, All, min};
ghost use Rattle.srcp_door.specs.declared.door.DoorFault.{DoorFault};
ghost use Rattle.srcp_door.specs.Calls.{ExpectCall, AcceptCall, WriteCall, CloseCall};
ghost use Rattle.srcp_door.specs.Pacing.{Allows, fits, is_short_pace, line_after, share_after, weight_of};
ghost use Rattle.srcp_door.specs.declared.pacing.LineBoundary.{LineBoundary};
ghost use Rattle.srcp_peers.specs.Turns.{after_call, after_read, after_wait, begun, earlier, ended, first_turn};
ghost use Rattle.srcp_peers.specs.Turns.{handed_out, is_behind, is_pending, is_short, shortfall};
ghost use Rattle.srcp_peers.specs.Turns.{backpressure_delay, moment_at, own_pace};
ghost use Rattle.srcp_peers.specs.Turns.{reports_end, time_left, reported_at, next_after, step_at, ticks};
ghost use Rattle.std.specs.Option.{option_map};
ghost use Rattle.srcp_peers.specs.Accounts.{is_short_wait};
ghost use Rattle.srcp_peers.specs.Peers.{is_busy, is_resting};
ghost use Rattle.std.specs.List.{list_all, list_any};
ghost use Rattle.srcp_peers.specs.Listeners.{listening_after_failure};
ghost use Rattle.srcp_peers.specs.Waiting.{IsWithin, longest_wait, sooner};

use crate::peer::Peer;
use crate::system::IoFailure;
use srcp_door::{DoorFault, Got, MOST_WRITES, Pace, RESERVE, Share, Timekeeper};
use srcp_grammar::MOST_CHANGES;

/// The least step of the monotonic clock, in milliseconds.
const TICK: u64 = 1;

/// A wait for a due moment ends early by this part of the wait. The system may end a wait late by a thousandth of the
/// wait, or a two-hundredth for a process of low priority. The turns behind the wait spend the rest.
const EARLY_PART: u64 = 128;

/// In a turn behind a late turn, the moment goes on at twice the clock's speed, for this many milliseconds at most.
const MOST_TWICE: u64 = 500;

/// Holds what a door knows of its turn.
///
/// ```
/// let mut turn = Turn::new(wall, start);
/// turn.expect(due, slack);
/// turn.wait();
/// let moment = turn.report_moment(system.clock())?;
/// ```
#[derive(Drop)]
pub struct Turn {
    /// The clocks at the start, and the last moment reported.
    pub timekeeper: Timekeeper,
    /// What the monotonic clock showed when the last moment was reported, in milliseconds; 0 before the first.
    pub clock: u64,
    /// What `clock` was in the turn before.
    pub previous_clock: u64,
    /// The moment at which something falls due next, if anything does.
    pub due: Option<u64>,
    /// How many more changes each panel can take, or `None` without a panel.
    pub slack: Option<usize>,
    /// The slack that the turn before began with.
    pub previous_slack: Option<usize>,
    /// True if something happened since the last wait.
    pub busy: bool,
    /// True if the last moment reported is behind the time.
    pub late: bool,
    /// How much the lines may still weigh that are handed out.
    pub pace: Pace,
    /// What the monotonic clock has to show before the clock lets a line through, in milliseconds.
    pub next_line: u64,
    /// True if the end of a peer may still be reported in this turn.
    pub may_report_end: bool,
}

impl Turn {
    /// Starts the first turn, with nothing due and no panel. `wall` is the wall clock and `start` the monotonic clock,
    /// in milliseconds.
    pub fn new(wall: u64, start: u64) -> Turn
        ensures { result ≡ first_turn wall start }
    {
        Turn {
            timekeeper: Timekeeper::new(wall, start),
            clock: 0,
            previous_clock: 0,
            due: None,
            slack: None,
            previous_slack: None,
            busy: true,
            late: false,
            pace: Pace::Paced { left: 0 },
            next_line: 0,
            may_report_end: false,
        }
    }

    /// Returns how many milliseconds the next wait may take, if anything falls due.
    pub(crate) fn left(&self) -> Option<u64>
        ensures { result ≡ time_left self.now }
    {
        if self.late {
            return Some(0);
        }
        match self.due {
            Some(due) => Some(earlier(self.timekeeper.left_until(due))),
            None => None,
        }
    }

    /// Returns whether a panel may have something coming.
    pub fn is_pending(&self) -> bool
        ensures { result ≡ is_pending self.now.slack self.now.busy }
    {
        match self.slack {
            Some(_) => self.busy,
            None => false,
        }
    }

    /// Returns how many milliseconds the turn waits although there is work to do: `TICK` if a panel lacked space for a
    /// line in two turns running, else 0.
    pub fn backpressure_delay(&self) -> u64
        ensures { result ≡ backpressure_delay self.now }
    {
        if is_behind(self.previous_slack) && is_behind(self.slack) {
            TICK
        } else {
            0
        }
    }

    /// Returns how many changes the panels lack for a line to go before the clock goes on. Returns `MOST_WRITES`
    /// without a panel.
    pub fn shortfall(&self) -> u32
        ensures { result ≡ shortfall self.now.slack }
    {
        match self.slack {
            Some(slack) => u32::try_from(RESERVE.saturating_sub(slack)).unwrap_or(MOST_WRITES),
            None => MOST_WRITES,
        }
    }

    /// Returns whether the panels can take less than a line may bring.
    pub fn is_short(&self) -> bool
        ensures { result ≡ is_short self.now.slack }
    {
        self.slack
            .is_some_and(|slack| slack < RESERVE + MOST_CHANGES)
    }

    /// Notes what falls due next, and how many changes the panels can still take.
    pub fn expect(&mut self, due: Option<u64>, slack: Option<usize>)
        ensures { self.new ≡ after_call self.old (ExpectCall due slack) }
    {
        self.due = due;
        self.previous_slack = self.slack;
        self.slack = slack;
    }

    /// Notes that a wait began.
    pub fn wait(&mut self)
        ensures { self.new ≡ after_wait self.old }
    {
        self.busy = false;
    }

    /// Returns the moment to report, if the monotonic clock shows a time. Moments never go back. After a stall the
    /// moments go from one due moment to the next. If the turns are slow, the moments go on twice as fast as the clock.
    /// From now on lines may be handed out again, as many as the panels can take, and the end of one peer may be
    /// reported.
    ///
    /// # Errors
    /// Returns `Now` if the clock cannot be read.
    pub fn report_moment(&mut self, shown: Option<u64>) -> Result<u64, DoorFault>
        ensures none { shown ≡ None → (result ≡ Err DoorFault.Now) × (self.new ≡ begun self.old false) }
        ensures some { (time : ℕ) → shown ≡ Some time
            → (result ≡ Ok (moment_at self.old time))
            × (self.new ≡ reported_at self.old time (moment_at self.old time)) }
        ensures fault { IfErr result (λ fault. fault ≡ DoorFault.Now) }
    {
        let Some(time) = shown else {
            self.begin(false);
            return Err(DoorFault::Now);
        };
        let step = self.step(time);
        self.timekeeper.pass(time, self.due);
        let moment = self.timekeeper.report(time, step);
        self.late = self.timekeeper.is_late(time);
        self.begin(self.ticks(time));
        self.clock = time;
        Ok(moment)
    }

    /// Returns by how many milliseconds the moment goes on at most if something falls due. The count begins one
    /// millisecond before the due moment.
    fn step(&self, time: u64) -> u64
        ensures { result ≡ step_at self.now time }
    {
        if !self.late {
            return 1;
        }
        // Slow turns would never catch up by single steps, since a late turn hands out nothing. All that falls due in
        // this step comes at one moment: more than 256 changes of such a moment close a panel.
        let passed = time.saturating_sub(self.clock).min(MOST_TWICE);
        (2 * passed).max(1)
    }

    /// Returns whether the clock went on, and now lets a line through. A line that the clock let through keeps the next
    /// line back for as many milliseconds as the first weighs.
    fn ticks(&self, time: u64) -> bool
        ensures { result ≡ ticks self.now time }
    {
        time != self.clock && self.next_line <= time
    }

    /// Begins the pace of a turn, and keeps what the clock showed before. `tick` says whether the clock lets a line
    /// through.
    fn begin(&mut self, tick: bool)
        ensures { self.new ≡ begun self.old tick }
    {
        self.previous_clock = self.clock;
        self.pace = Pace::of_turn(self.slack, tick);
        self.may_report_end = true;
    }

    /// Returns whether the end of a peer may be reported now. If so, no other end may be reported in this turn.
    pub(crate) fn allow_end(&mut self) -> bool
        ensures allowed { result ≡ self.old.may_report_end }
        ensures new { self.new ≡ cond result (ended self.old) self.old }
    {
        let allowed = self.may_report_end;
        self.busy = self.busy || allowed;
        self.may_report_end = false;
        allowed
    }

    /// Answers a read of a peer whose end is due: with the end, unless the turn reported another.
    pub(crate) fn report_end(&mut self) -> Result<Got, DoorFault>
        ensures exact { result ≡ cond self.old.may_report_end (Ok Got.Ended) (Ok Got.Nothing) }
        ensures reported { (result ≡ Ok Got.Nothing) ⊎ (result ≡ Ok Got.Ended) }
        ensures new { (line : LineBoundary) (buffer : List ℕ) → self.new ≡ after_read self.old line result buffer }
        ensures ends { reports_end result ≡ true → self.old.may_report_end ≡ true }
    {
        if self.allow_end() {
            Ok(Got::Ended)
        } else {
            Ok(Got::Nothing)
        }
    }

    /// Answers a read of a peer that is lost or not there: with a fault, unless the turn reported another end.
    ///
    /// # Errors
    /// Returns `Read` unless the turn reported another end.
    pub fn report_fault(&mut self) -> Result<Got, DoorFault>
        ensures exact { result ≡ cond self.old.may_report_end (Err DoorFault.Read) (Ok Got.Nothing) }
        ensures reported { (result ≡ Ok Got.Nothing) ⊎ (result ≡ Err DoorFault.Read) }
        ensures new { (line : LineBoundary) (buffer : List ℕ) → self.new ≡ after_read self.old line result buffer }
        ensures ends { reports_end result ≡ true → self.old.may_report_end ≡ true }
    {
        if self.allow_end() {
            Err(DoorFault::Read)
        } else {
            Ok(Got::Nothing)
        }
    }

    /// Returns whether not every line may be handed out now.
    pub fn is_slow(&self) -> bool
        ensures { result ≡ is_short_pace self.now.pace }
    {
        self.pace.is_short()
    }

    /// Returns the pace of a peer's lines. If the peer waits for others and not every line may be handed out, no line
    /// that weighs something may be.
    fn own_pace(&self, waits: bool) -> Pace
        ensures { result ≡ own_pace waits self.now.pace }
    {
        if waits && self.is_slow() {
            Pace::Paced { left: 0 }
        } else {
            self.pace
        }
    }

    /// Returns how many bytes of a peer's piece may be handed out now, by the peer's share of the lines. With
    /// `waits` the peer waits for others. Notes these bytes as handed out.
    pub(crate) fn allow(&mut self, waits: bool, share: &mut Share, piece: &[u8]) -> usize
        ensures within { result ≤ length piece.now }
        ensures nothing { result ≡ 0 → self.new ≡ self.old }
        ensures some { 0 < result → self.new ≡ handed_out self.old share.old.line (take result piece.now) }
        ensures line { share.new.line ≡ line_after share.old.line (take result piece.now) }
        ensures fits { fits self.old.pace (weight_of share.old.line (take result piece.now)) ≡ true }
        ensures allows { Allows (own_pace waits self.old.pace) share.old piece.now result }
        ensures own { fits (own_pace waits self.old.pace) (weight_of share.old.line (take result piece.now)) ≡ true }
        ensures share { share.new ≡ share_after self.old.pace share.old (take result piece.now) }
    {
        let mut pace = self.own_pace(waits);
        let allowed = pace.allow(share, piece);
        self.busy = self.busy || allowed.count > 0;
        self.next_line = self.next_after(self.pace, allowed.weight);
        if allowed.weight > 0 {
            self.pace = pace;
        }
        allowed.count
    }

    /// Returns what the clock has to show before it lets the next line through, after lines of this weight went at this
    /// pace.
    fn next_after(&self, pace: Pace, weight: usize) -> u64
        ensures { result ≡ next_after self.now.clock self.now.next_line pace weight }
    {
        match pace {
            // An INIT of an accessory with eight ports is told in nine lines. So a line each millisecond, of any
            // weight, would bring a panel up to nine changes a millisecond.
            Pace::OneLine if weight > 0 => self.clock.saturating_add(weight as u64),
            Pace::OneLine | Pace::Paced { .. } => self.next_line,
        }
    }

    /// Notes the answer of an accept.
    pub fn note_accept(&mut self, answer: Result<Option<u32>, DoorFault>)
        ensures { self.new ≡ after_call self.old (AcceptCall answer) }
    {
        self.note(matches!(answer, Ok(Some(_))));
    }

    /// Notes how many bytes were taken for a peer.
    pub fn note_write(&mut self, answer: Result<usize, DoorFault>)
        ensures { (peer : ℕ) (bytes : List ℕ) → self.new ≡ after_call self.old (WriteCall peer bytes answer) }
    {
        self.note(!matches!(answer, Ok(0)));
    }

    /// Notes that a peer was closed.
    pub fn note_close(&mut self)
        ensures { (peer : ℕ) (answer : Result Unit DoorFault) → self.new ≡ after_call self.old (CloseCall peer answer) }
    {
        self.note(true);
    }

    /// Notes whether something happened.
    fn note(&mut self, stirs: bool)
        ensures { self.new ≡ record self.old { busy = self.old.busy || stirs } }
    {
        self.busy = self.busy || stirs;
    }
}

/// Returns whether a panel that can take `slack` more changes is so far behind that no line may go.
fn is_behind(slack: Option<usize>) -> bool
    ensures { result ≡ is_behind slack }
{
    slack.is_some_and(|slack| slack <= RESERVE)
}

/// Returns how long to wait for what falls due after `left` milliseconds.
fn earlier(left: u64) -> u64
    ensures { result ≡ earlier left }
{
    left - left / EARLY_PART
}

/// The longest wait in milliseconds if a call of the system is to be made again, or a peer lingers.
pub const RETRY_DELAY: u64 = 8;

/// The longest wait for what falls due, in milliseconds: an hour.
const LONGEST_SLEEP: u64 = 3_600_000;

/// Says whether a pending connection may be accepted.
///
/// ```text
///              found ready                  an accept failed, or there is no place
/// Quiet ------------------------> Ready ------------------------------------------> BackingOff
///   ^   <------------------------       <------------------------------------------     |
///   |     nobody is pending               found ready, or an accept was interrupted     |
///   +-----------------------------------------------------------------------------------+   nobody is pending
/// ```
#[derive(Clone, Copy)]
pub enum Listening {
    /// A pending connection may be accepted.
    Ready,
    /// A pending connection may be accepted after the retry delay, since the last accept failed.
    BackingOff,
    /// No pending connection may be accepted, until the listener is found ready.
    Quiet,
}

impl Listening {
    /// Returns whether no pending connection may be accepted.
    pub fn is_quiet(self) -> bool
        ensures { IsTrue result ↔ self ≡ Listening.Quiet }
    {
        matches!(self, Listening::Quiet)
    }

    /// Returns what follows an accept that failed.
    pub fn after_failure(said: IoFailure) -> Listening
        ensures { result ≡ listening_after_failure said }
    {
        match said {
            IoFailure::WouldBlock => Listening::Quiet,
            IoFailure::Interrupted => Listening::Ready,
            IoFailure::Fatal => Listening::BackingOff,
        }
    }
}

/// Returns how many milliseconds a turn waits at most, or `None` if only a socket ends the wait. The turn does not wait
/// while a peer that is there, the listener or a panel may have something. There is an exception: if, for the second
/// turn, a panel is too far behind for a line to go, the turn waits until the clock goes on. No wait goes past what
/// falls due, or past `most` if given. While a peer lingers no wait is longer than the retry delay.
pub fn longest_wait(
    peers: &[Peer],
    listening: Listening,
    turn: &Turn,
    most: Option<u64>,
) -> Option<u64>
    ensures exact { result ≡ longest_wait peers.now listening turn.now most }
    ensures rest { is_short_wait result ≡ false → All (λ peer. is_resting peer ≡ true) peers.now }
    ensures accepts { is_short_wait result ≡ false → listening ≡ Listening.Quiet }
    ensures panels { is_short_wait result ≡ false → is_pending turn.now.slack turn.now.busy ≡ false }
    ensures due { (left : ℕ) → time_left turn.now ≡ Some left → IsWithin left result }
{
    let left = sooner(turn.left(), most);
    // No socket would report a queued change, held input or new space, so the turn does not wait for a socket then.
    // All other turns wait at once: a further turn before each wait cost a lone command a tenth of its time.
    if turn.is_pending() || are_busy(peers) {
        return sooner(left, Some(turn.backpressure_delay()));
    }
    match listening {
        Listening::Ready => Some(0),
        Listening::Quiet if are_resting(peers) => left.map(|left| left.min(LONGEST_SLEEP)),
        Listening::Quiet | Listening::BackingOff => sooner(left, Some(RETRY_DELAY)),
    }
}

/// Returns the lesser of two waits; `None` is without limit.
fn sooner(one: Option<u64>, other: Option<u64>) -> Option<u64>
    ensures exact { result ≡ sooner one other }
    ensures one { (n : ℕ) → one ≡ Some n → IsWithin n result }
{
    match (one, other) {
        (Some(one), Some(other)) => Some(one.min(other)),
        (Some(left), None) | (None, Some(left)) => Some(left),
        (None, None) => None,
    }
}

/// Returns whether there is work to do for a peer that is there before any socket is found ready.
fn are_busy(peers: &[Peer]) -> bool
    ensures { result ≡ list_any is_busy peers.now }
{
    peers.iter().any(|peer| peer.is_busy())
}

/// Returns whether all peers are there, with no work to do until a socket is found ready.
fn are_resting(peers: &[Peer]) -> bool
    ensures is { result ≡ list_all is_resting peers.now }
    ensures yes { result ≡ true → All (λ peer. is_resting peer ≡ true) peers.now }
{
    peers.iter().all(|peer| peer.is_resting())
}

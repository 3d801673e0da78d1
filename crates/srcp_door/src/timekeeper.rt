//! Moments that never go back.

ghost use Rattle.std.specs.Prelude.{◌≡◌, ◌<◌, ◌≤◌, ◌+◌, ◌-◌, ◌*◌, ◌↔◌, IsTrue, max};
ghost use Rattle.srcp_door.specs.Moments.{Moments, next_moment, passed, target, most_behind};

use std::marker::Model;

/// The most milliseconds by which a moment may lag behind the clock.
const MOST_BEHIND: u64 = 600_000;

// If moments followed the wall clock, setting that clock forward would end every pulse at once. So on a machine that
// was suspended timers go on as they stood, and stamps stay behind by as long.
/// Reports moments in milliseconds since 1970: the wall clock at the start, and what elapsed since on the monotonic
/// clock. Contracts see both clocks at the start, and the last moment.
///
/// ```
/// let mut timekeeper = Timekeeper::new(wall, elapsed);
/// timekeeper.pass(later, None);
/// let moment = timekeeper.report(later, 10);
/// ```
#[derive(Drop)]
pub struct Timekeeper {
    wall: u64,
    start: u64,
    last: u64,
}

impl Model for Timekeeper {
    ghost use Rattle.srcp_door.specs.Moments.{Moments};

    ghost Value = { Moments };

    ghost view = { λ t. record { wall = t.wall; start = t.start; last = t.last } };
}

impl Timekeeper {
    /// Begins with the wall clock and the monotonic clock at the start.
    pub fn new(wall: u64, start: u64) -> Timekeeper
        ensures { result ≡ record { wall = wall; start = start; last = wall } }
    {
        Timekeeper {
            wall,
            start,
            last: wall,
        }
    }

    /// Jumps to the present, but only up to the moment before the deadline `due`, if any. Only time with deadlines is
    /// caught up in steps.
    pub fn pass(&mut self, elapsed: u64, due: Option<u64>)
        ensures { self.new ≡ record self.old { last = passed self.old.last (target self.old elapsed) due } }
    {
        let goal = self.goal(elapsed);
        // So changes that are due one after another come one after another, also after a stall.
        let before_due = due.map_or(goal, |due| due.saturating_sub(1));
        self.last = self.last.max(goal.min(before_due));
    }

    /// Returns the next moment, if the monotonic clock shows `elapsed`. The step from the last moment is at most `step`
    /// milliseconds, unless the last moment lags by more than 10 minutes.
    pub fn report(&mut self, elapsed: u64, step: u64) -> u64
        ensures reported { result ≡ next_moment step most_behind self.old.last (target self.old elapsed) }
        ensures new { self.new ≡ record { wall = self.old.wall; start = self.old.start; last = result } }
        ensures forward { self.old.last ≤ result }
        ensures within { result ≤ max self.old.last (target self.old elapsed) }
        ensures step { target self.old elapsed ≤ self.old.last + step + most_behind → result ≤ self.old.last + step }
        ensures reached { target self.old elapsed ≤ self.old.last + step
            → result ≡ max self.old.last (target self.old elapsed) }
        ensures behind { target self.old elapsed ≤ result + most_behind }
    {
        let goal = self.goal(elapsed);
        let next = self.last.saturating_add(step);
        let far = goal.saturating_sub(MOST_BEHIND);
        self.last = self.last.max(goal.min(next.max(far)));
        self.last
    }

    /// Returns whether the last moment is behind the clock.
    pub fn is_late(&self, elapsed: u64) -> bool
        ensures { IsTrue result ↔ self.now.last < target self.now elapsed }
    {
        self.last < self.goal(elapsed)
    }

    /// Returns how many milliseconds are left from the last moment to `moment`, or 0 if `moment` has come.
    pub fn left_until(&self, moment: u64) -> u64
        ensures { result ≡ moment - self.now.last }
    {
        moment.saturating_sub(self.last)
    }

    /// Returns the moment that the monotonic clock stands for.
    fn goal(&self, elapsed: u64) -> u64
        ensures { result ≡ target self.now elapsed }
    {
        self.wall.saturating_add(elapsed.saturating_sub(self.start))
    }
}

//! How a locomotive drives, and which of two drives is more urgent.

ghost use Rattle.std.specs.Prelude.{◌≡◌};
ghost use Rattle.srcp_driver.specs.Drives.{drives, is_alike, is_same, is_same_speed, is_value, rank, rest};

/// Names how fast a locomotive drives.
#[derive(Clone, Copy, Debug, PartialEq, Eq)]
pub enum Speed {
    /// An emergency stop.
    Halt,
    /// The locomotive stands.
    Stand,
    /// The locomotive drives at a step.
    Step(u8),
}

/// Says what a locomotive does.
///
/// ```
/// let drive = Drive { speed: Speed::Step(60), is_forward: true };
/// let order = driver.step(Event::Row { cab: 3, drive, is_listed: false });
/// ```
#[derive(Clone, Copy, Debug, PartialEq, Eq)]
pub struct Drive {
    /// How fast.
    pub speed: Speed,
    /// Whether forward.
    pub is_forward: bool,
}

impl Drive {
    /// Returns whether a locomotive moves then.
    pub fn drives(self) -> bool
        ensures { result ≡ drives self }
    {
        matches!(self.speed, Speed::Step(_))
    }

    /// Returns the same, but at rest: what drives stands, and an emergency stop stays.
    pub(crate) fn rest(self) -> Drive
        ensures { result ≡ rest self }
    {
        if self.drives() {
            Drive {
                speed: Speed::Stand,
                is_forward: self.is_forward,
            }
        } else {
            self
        }
    }
}

/// Returns how urgent a speed is: what is more urgent is told though the station has not confirmed what it was told.
pub(crate) fn rank(speed: Speed) -> u8
    ensures { result ≡ rank speed }
{
    match speed {
        Speed::Step(_) => 0,
        Speed::Stand => 1,
        Speed::Halt => 2,
    }
}

/// Returns whether two speeds are the same.
fn is_same_speed(a: Speed, b: Speed) -> bool
    ensures { result ≡ is_same_speed a b }
{
    match (a, b) {
        (Speed::Halt, Speed::Halt) | (Speed::Stand, Speed::Stand) => true,
        (Speed::Step(x), Speed::Step(y)) => x == y,
        _ => false,
    }
}

/// Returns whether two locomotives do the same.
pub(crate) fn is_same(a: Drive, b: Drive) -> bool
    ensures { result ≡ is_same a b }
{
    is_same_speed(a.speed, b.speed) && a.is_forward == b.is_forward
}

/// Returns whether two locomotives do the same, or both rest.
pub(crate) fn is_alike(a: Drive, b: Drive) -> bool
    ensures { result ≡ is_alike a b }
{
    is_same(a, b) || (!a.drives() && !b.drives() && a.is_forward == b.is_forward)
}

/// Returns whether there is a value, and it is this one.
pub(crate) fn is_value(value: Option<Drive>, drive: Drive) -> bool
    ensures { result ≡ is_value value drive }
{
    match value {
        Some(other) => is_same(other, drive),
        None => false,
    }
}

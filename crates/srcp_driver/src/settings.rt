//! What a board of functions or turnouts is told, and what it orders.

/// Names an event. A function or a turnout is named by its place.
#[derive(Clone, Copy, Debug)]
pub enum BoardEvent {
    /// A row of the registry says whether it is to be on.
    Row(usize, bool),
    /// The station reports whether it is on.
    Said(usize, bool),
    /// The station has begun, perhaps anew.
    Greeted,
    /// The station is gone.
    Gone,
    /// The clock shows this many milliseconds.
    Moment(u64),
    /// The registry has accepted or refused what it was asked.
    Reply(bool),
    /// A session with the registry has begun.
    Joined,
    /// An order may follow.
    Turn,
}

/// Says that the function or the turnout at a place is on, or off.
#[derive(Clone, Copy, Debug)]
pub struct Setting {
    /// Its place.
    pub place: usize,
    /// Whether it is on.
    pub is_on: bool,
}

/// Says what an event leads to.
#[derive(Clone, Copy, Debug)]
pub struct Settings {
    /// What the station is told, if anything.
    pub tell: Option<Setting>,
    /// What the registry is asked to set, if anything.
    pub put: Option<Setting>,
}

/// Says how a station has these.
#[derive(Clone, Copy, Debug)]
pub struct Kind {
    /// Whether a station that begins anew keeps how they are, as turnouts lie. Its functions are off then.
    pub is_kept: bool,
    /// Whether the station reports what it was told.
    pub confirms: bool,
    /// How many milliseconds lie between two orders at least.
    pub gap: u64,
}

//! The count of a door's failed calls.

ghost use Rattle.std.specs.Prelude.{◌≡◌};
ghost use Rattle.srcp_door.specs.Calls.{one_more};

/// Counts the failed calls of a door. The count stops at the greatest u64.
#[derive(Drop)]
pub(crate) struct Tally {
    /// The number of failed calls.
    pub faults: u64,
}

impl Tally {
    /// Makes a count of 0.
    pub(crate) fn new() -> Tally
        ensures { result ≡ record { faults = 0 } }
    {
        Tally { faults: 0 }
    }

    /// Counts one more failed call.
    pub(crate) fn fault(&mut self)
        ensures { self.new ≡ record self.old { faults = one_more self.old.faults } }
    {
        self.faults = self.faults.saturating_add(1);
    }
}

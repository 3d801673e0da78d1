//! A filter of rows.

ghost use Rattle.std.specs.Prelude.{◌≡◌, ◌≤◌};
ghost use Rattle.srcp_rules.specs.Filter.{passes};

use srcp_info::{Row, Value};

// Both keepers search by this filter, each by a walk of its own. One walk over `Rows` would save 24 lines, and need
// rows that rise, which no clause of `Rows` promises.
/// Says which rows a search looks for.
#[derive(Clone, Copy)]
pub(crate) enum RowFilter {
    /// Rows whose due moment is not after this moment.
    Due(u64),
    /// The locks of this session.
    HeldBy(u32),
}

impl RowFilter {
    /// Returns whether the filter passes the row.
    pub(crate) fn passes(&self, row: &Row) -> bool
        ensures { result ≡ passes self.now row.now }
    {
        match self {
            RowFilter::Due(moment) => match row.due {
                Some(due) => due <= *moment,
                None => false,
            },
            RowFilter::HeldBy(session) => match row.shown.value {
                Value::Lock {
                    session: holder,
                    ..
                } => holder == *session,
                _ => false,
            },
        }
    }
}

//! The stamps of the first rows of a registry.
ghost use Rattle.std.specs.Prelude.{◌≡◌};
ghost use Rattle.srcp_grammar.specs.Layout.{IsLayout};
ghost use Rattle.srcp_rules.specs.State.{opening};

use srcp_info::Cursor;
use srcp_rules::Rows;

/// Stamps each row of a new registry with the moment.
pub(super) fn stamp_all<R: Rows>(rows: &mut R, moment: u64)
    requires laid_out { IsLayout (R.buses rows.old) }
    requires opens { R.state rows.old ≡ opening (R.buses rows.old) 0 }
    ensures layout { R.buses rows.new ≡ R.buses rows.old }
    ensures rows { R.state rows.new ≡ opening (R.buses rows.old) moment }
{
    let mut at = Cursor::Start;
    while let Some(row) = rows.row_after(at) {
        let mut stamped = *row;
        stamped.shown.stamp = moment;
        at = Cursor::After(stamped.shown.key);
        rows.set(stamped);
    }
}

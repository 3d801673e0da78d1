//! The keys that a plan and its routes may have.

ghost use Rattle.std.specs.Prelude.{◌≡◌, [], ◌∷◌};
ghost use Rattle.toml.specs.View.{table_view};
ghost use Rattle.srcp_plan_file.specs.Keys.{has_unknown, key_count, known_count, only_known};

use crate::plan::{Field, PlanFault};
use srcp_layout_file::member::value_at;
use toml::Table;

/// The keys of a plan: what the routes, the drawing, and the page read of it.
pub(crate) const PLAN_KEYS: [Field; 6] = [
    Field::Bus,
    Field::Route,
    Field::Plan,
    Field::Legend,
    Field::Names,
    Field::Functions,
];

/// The keys of a route.
pub(crate) const ROUTE_KEYS: [Field; 11] = [
    Field::Number,
    Field::Name,
    Field::From,
    Field::To,
    Field::Turnouts,
    Field::Blocks,
    Field::Signal,
    Field::Frees,
    Field::Sections,
    Field::Approach,
    Field::Delay,
];

/// Returns how many keys there are.
fn key_count(members: &Table) -> usize
    ensures { result ≡ key_count (table_view members.now) }
{
    members.len()
}

/// Returns how many of these keys are there.
fn known_count(keys: &[Field], members: &Table) -> usize
    ensures { result ≡ known_count keys.now (table_view members.now) }
{
    keys.iter()
        .filter(|key| value_at(members, **key).is_some())
        .count()
}

/// Returns the fault `wrong` if a key is there that is none of these.
pub(crate) fn only_known(keys: &[Field], wrong: PlanFault, members: &Table) -> Result<(), PlanFault>
    ensures { result ≡ only_known keys.now wrong (table_view members.now) }
{
    if known_count(keys, members) < key_count(members) {
        Err(wrong)
    } else {
        Ok(())
    }
}

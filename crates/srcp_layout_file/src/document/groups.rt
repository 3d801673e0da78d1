//! Groups of a bus of a configuration.

ghost use Rattle.std.specs.Prelude.{◌≡◌, map};
ghost use Rattle.toml.specs.View.{view as data_of};
ghost use Rattle.srcp_layout_file.specs.Gives.{Shows};
ghost use Rattle.srcp_layout_file.specs.Document.{group_in, groups_in, is_group, no_groups, with_group};

use crate::config::{ConfigFault, Field};
use toml::Value;

/// Says which groups a bus has.
#[derive(Clone, Copy)]
pub(super) struct Groups {
    pub(super) power: bool,
    pub(super) gl: bool,
    pub(super) ga: bool,
    pub(super) fb: bool,
}

/// Returns the groups named by the values, read from left to right, or the first fault.
pub(super) fn groups_in(values: &[Value]) -> Result<Groups, ConfigFault>
    ensures { result ≡ groups_in no_groups (map data_of values.now) }
{
    let mut groups = Groups {
        power: false,
        gl: false,
        ga: false,
        fb: false,
    };
    for value in values {
        groups = with_group(groups, group_in(value)?);
    }
    Ok(groups)
}

/// Returns the name of a group. Returns `UnknownGroup` for any other text, and `OutOfRange` for a value of another
/// type.
fn group_in(value: &Value) -> Result<&str, ConfigFault>
    ensures { Shows (λ name. name.now) result (group_in (data_of value.now)) }
{
    match value.as_str() {
        // A value that is no text is out of range, as at each other key, and only a text can be an unknown group.
        Some(name) if is_group(name) => Ok(name),
        Some(_) => Err(ConfigFault::UnknownGroup),
        None => Err(ConfigFault::OutOfRange(Field::Groups)),
    }
}

fn is_group(name: &str) -> bool
    ensures { result ≡ is_group name.now }
{
    name == "POWER" || name == "GL" || name == "GA" || name == "FB"
}

/// Adds the group of this name.
fn with_group(groups: Groups, name: &str) -> Groups
    ensures { result ≡ with_group groups name.now }
{
    Groups {
        power: groups.power || name == "POWER",
        gl: groups.gl || name == "GL",
        ga: groups.ga || name == "GA",
        fb: groups.fb || name == "FB",
    }
}

//! All functions, or all turnouts, of a station: what changes each of them, and which is the next to be told of.

ghost use Rattle.std.specs.Prelude.{◌≡◌, map};
ghost use Rattle.std.specs.List.{position};
ghost use Rattle.srcp_driver.specs.Board.{first_setting, setting_at};
ghost use Rattle.srcp_driver.specs.Switches.{is_switch_to_put, is_to_tell, switch_aged, switch_forgotten};
ghost use Rattle.srcp_driver.specs.Switches.{switch_joined};
ghost use Rattle.srcp_driver.specs.Switches.{switch_kept};

use crate::settings::Setting;
use crate::switch::Switch;

/// Forgets what the station was told.
pub(crate) fn forget_all(switches: &mut [Switch])
    ensures { switches.new ≡ map switch_forgotten switches.old }
{
    for switch in switches.iter_mut() {
        *switch = switch.forgotten();
    }
}

/// Forgets what the station was told and has not confirmed.
pub(crate) fn keep_all(switches: &mut [Switch])
    ensures { switches.new ≡ map switch_kept switches.old }
{
    for switch in switches.iter_mut() {
        *switch = switch.kept();
    }
}

/// Notes of each that a moment has come.
pub(crate) fn age_all(switches: &mut [Switch], now: u64)
    ensures { switches.new ≡ map (switch_aged now) switches.old }
{
    for switch in switches.iter_mut() {
        *switch = switch.aged(now);
    }
}

/// Notes of each that a session with the registry has begun.
pub(crate) fn join_all(switches: &mut [Switch])
    ensures { switches.new ≡ map switch_joined switches.old }
{
    for switch in switches.iter_mut() {
        *switch = switch.joined();
    }
}

/// Returns what is commanded of the one at this place, if anything.
fn setting_at(switches: &[Switch], place: usize) -> Option<Setting>
    ensures { result ≡ setting_at switches.now place }
{
    match switches.get(place) {
        Some(switch) => match switch.command {
            Some(is_on) => Some(Setting { place, is_on }),
            None => None,
        },
        None => None,
    }
}

/// Returns the place of the first that the station is to be told of, if any.
fn place_to_tell(switches: &[Switch]) -> Option<usize>
    ensures { result ≡ position is_to_tell switches.now }
{
    switches.iter().position(|switch| switch.is_to_tell())
}

/// Returns the place of the first whose row the registry is to set, if any.
fn place_to_put(switches: &[Switch]) -> Option<usize>
    ensures { result ≡ position is_switch_to_put switches.now }
{
    switches.iter().position(|switch| switch.is_to_put())
}

/// Returns what the station is to be told of the first that differs, if any.
pub(crate) fn first_to_tell(switches: &[Switch]) -> Option<Setting>
    ensures { result ≡ first_setting is_to_tell switches.now }
{
    match place_to_tell(switches) {
        Some(place) => setting_at(switches, place),
        None => None,
    }
}

/// Returns what the registry is to be asked of the first row that differs, if any.
pub(crate) fn first_to_put(switches: &[Switch]) -> Option<Setting>
    ensures { result ≡ first_setting is_switch_to_put switches.now }
{
    match place_to_put(switches) {
        Some(place) => setting_at(switches, place),
        None => None,
    }
}

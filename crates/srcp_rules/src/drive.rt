//! SET and CHECK of a locomotive, and SET of an accessory.

ghost use Rattle.std.specs.Prelude.{◌≡◌, ◌≤◌, [], length, is_some, IfOk, IfSome};
ghost use Rattle.std.specs.Result.{result_err};
ghost use Rattle.srcp_grammar.specs.declared.command.DeviceGroup.TheVariants as devices;
ghost use Rattle.srcp_grammar.specs.Command.{kept_speed};
ghost use Rattle.srcp_rules.specs.Effect.{accepted, effect, first_refusal, functions_after, gl_refusals, port_end};
ghost use Rattle.srcp_rules.specs.Obeyed.{IsTold, MayObey, Took};
ghost use Rattle.srcp_grammar.specs.Devices.{device_in};
ghost use Rattle.srcp_rules.specs.State.{IsWhole, functions_of, is_there};

use crate::device::{device_at, ga, gl, key_at};
use crate::lock::{is_locked, refusal};
use crate::obeyed::Obeyed;
use crate::registry::replace_row;
use crate::rows::Rows;
use crate::sender::Sender;
use srcp_grammar::{Command, Drive, Switch};
use srcp_info::{Bits, Code, DriveMode, Value};

/// Returns the functions of a locomotive, or `None` if the locomotive is not there. The state row answers both, since a
/// device has all its rows or none.
#[tactic(auto, using(crate::proofs::ObeyLaws::gl_there))]
fn functions_of<R: Rows>(rows: &R, bus: u8, address: u32) -> Option<Bits>
    requires whole { IsWhole (R.buses rows.now) (R.state rows.now) }
    ensures there { is_some result ≡ is_there (device_in devices.Gl bus address) (R.state rows.now) }
    ensures functions { IfSome result
        (λ functions. functions ≡ functions_of bus address (R.state rows.now)) }
{
    let locomotive = device_at(gl(bus, address));
    let row = rows.row(&key_at(locomotive, 1))?;
    match row.shown.value {
        Value::GlState { functions, .. } => Some(functions),
        // No row of a locomotive at port 1 has another value.
        _ => Some(Bits::new()),
    }
}

/// Returns the functions given, followed by the locomotive's own for the rest.
fn functions_after(given: &Bits, before: &Bits) -> Bits
    requires { length given.now ≤ length before.now }
    ensures { result ≡ functions_after given.now before.now }
{
    let mut after = *given;
    for index in given.len()..before.len() {
        after.push(before.as_slice()[index]);
    }
    after
}

/// Returns the functions of the locomotive, or why the session may not drive the locomotive. Refuses a locomotive that
/// is not there, has fewer functions than are given, or is locked by another session.
fn functions_to_drive<R: Rows>(rows: &R, session: u32, drive: &Drive) -> Result<Bits, Code>
    requires whole { IsWhole (R.buses rows.now) (R.state rows.now) }
    ensures before { IfOk result
        (λ before. before ≡ functions_of drive.now.bus drive.now.address (R.state rows.now)) }
    ensures refusal { result_err result ≡ first_refusal (gl_refusals (R.state rows.now) session drive.now) }
{
    let target = gl(drive.bus, drive.address);
    let Some(before) = functions_of(rows, drive.bus, drive.address) else {
        return Err(Code::NO_SUCH_DEVICE);
    };
    if before.len() < drive.functions.len() {
        return Err(Code::TOO_LONG);
    }
    if is_locked(rows, session, target) {
        return Err(Code::DEVICE_LOCKED);
    }
    // Returned, so that SET looks the locomotive up once.
    Ok(before)
}

/// Returns why the session may not drive the locomotive, or `None` if the session may.
pub(crate) fn gl_refusal<R: Rows>(rows: &R, session: u32, drive: &Drive) -> Option<Code>
    requires whole { IsWhole (R.buses rows.now) (R.state rows.now) }
    ensures { result ≡ first_refusal (gl_refusals (R.state rows.now) session drive.now) }
{
    functions_to_drive(rows, session, drive).err()
}

/// Returns V as the registry keeps it: 0 in an emergency stop.
fn kept_speed(mode: u32, v: u32) -> u32
    ensures { result ≡ kept_speed mode v }
{
    if mode == DriveMode::EmergencyStop as u32 {
        0
    } else {
        v
    }
}

/// Carries out SET of a locomotive.
pub(crate) fn set_gl<R: Rows>(rows: &mut R, sender: Sender, drive: &Drive, obeyed: &mut Obeyed)
    requires blank { IsTold (accepted []) obeyed.old }
    requires may { MayObey (R.buses rows.old) (R.state rows.old) sender.session (Command.SetGl drive.now) }
    ensures took { Took (effect (R.state rows.old) sender.session sender.moment (Command.SetGl drive.now))
        (R.state rows.old) (R.state rows.new) obeyed.new }
    ensures layout { R.buses rows.new ≡ R.buses rows.old }
{
    let before = match functions_to_drive(rows, sender.session, drive) {
        Ok(before) => before,
        Err(code) => return obeyed.refuse(code),
    };
    let driven = Value::GlState {
        mode: drive.mode,
        v: kept_speed(drive.mode, drive.v),
        vmax: drive.vmax,
        functions: functions_after(&drive.functions, &before),
    };
    let key = key_at(device_at(gl(drive.bus, drive.address)), 1);
    replace_row(rows, sender.moment, key, driven, None, obeyed);
}

/// Returns when a port set for a time goes back, or `None` if the port is set to 0, for no time or for ever.
fn port_end(moment: u64, on: bool, time: Option<u32>) -> Option<u64>
    ensures { result ≡ port_end moment on time }
{
    match time {
        Some(milliseconds) if on && milliseconds > 0 => {
            // A time beyond the greatest moment ends at the greatest moment.
            Some(moment.saturating_add(u64::from(milliseconds)))
        }
        _ => None,
    }
}

/// Carries out SET of an accessory's port.
pub(crate) fn set_ga<R: Rows>(rows: &mut R, sender: Sender, switch: &Switch, obeyed: &mut Obeyed)
    requires blank { IsTold (accepted []) obeyed.old }
    requires may { MayObey (R.buses rows.old) (R.state rows.old) sender.session (Command.SetGa switch.now) }
    ensures took { Took (effect (R.state rows.old) sender.session sender.moment (Command.SetGa switch.now))
        (R.state rows.old) (R.state rows.new) obeyed.new }
    ensures layout { R.buses rows.new ≡ R.buses rows.old }
{
    let Switch {
        bus,
        address,
        port,
        on,
        time,
    } = *switch;
    let target = ga(bus, address);
    if let Some(code) = refusal(rows, sender.session, target) {
        return obeyed.refuse(code);
    }
    let key = key_at(device_at(target), 1 + port);
    let due = port_end(sender.moment, on, time);
    replace_row(rows, sender.moment, key, Value::GaPort { on }, due, obeyed);
}

//! SET and TERM of a lock, and whether a lock keeps a session from a device.

ghost use Rattle.std.specs.Prelude.{◌≡◌, []};
ghost use Rattle.std.specs.Option.{option_map_or};
ghost use Rattle.srcp_rules.specs.Effect.{accepted, effect, first_refusal, is_locked, lock_end};
ghost use Rattle.srcp_rules.specs.Effect.{refusals, refused};
ghost use Rattle.srcp_rules.specs.Obeyed.{IsObeyed, IsTold, MayObey, Took};

use crate::device::{device_at, lock_at};
use crate::obeyed::Obeyed;
use crate::registry::{is_there, put_of, remove, replace_row, row_put};
use crate::rows::Rows;
use crate::sender::Sender;
use srcp_grammar::{Command, Target, TimedLock};
use srcp_info::{Code, Value};

/// Returns whether another session has the device's lock.
pub(crate) fn is_locked<R: Rows>(rows: &R, session: u32, target: Target) -> bool
    ensures { result ≡ is_locked (R.state rows.now) session target.group target.bus target.address }
{
    match rows.row(&lock_at(target).first_key()) {
        Some(row) => match row.shown.value {
            Value::Lock {
                session: holder,
                ..
            } => holder != session,
            _ => false,
        },
        None => false,
    }
}

/// Returns why the session may not change the device, or `None` if the session may. Refuses a device that is not there,
/// or is locked by another session.
pub(crate) fn refusal<R: Rows>(rows: &R, session: u32, target: Target) -> Option<Code>
    ensures { result ≡ first_refusal (refusals (R.state rows.now) session target.group target.bus target.address) }
{
    if !is_there(rows, device_at(target)) {
        return Some(Code::NO_SUCH_DEVICE);
    }
    if is_locked(rows, session, target) {
        return Some(Code::DEVICE_LOCKED);
    }
    None
}

/// Refuses with the code, if there is one.
pub(crate) fn refuse_if(refusal: Option<Code>, obeyed: &mut Obeyed)
    requires { IsTold (accepted []) obeyed.old }
    ensures { IsTold (option_map_or refused refusal (accepted [])) obeyed.new }
{
    if let Some(code) = refusal {
        obeyed.refuse(code);
    }
}

/// Returns when a lock of some seconds ends, or `None` for 0 seconds: such a lock has no end of its own (SRCP 0.8,
/// LOCK).
fn lock_end(moment: u64, seconds: u32) -> Option<u64>
    ensures { result ≡ lock_end moment seconds }
{
    if seconds == 0 {
        return None;
    }
    Some(moment.saturating_add(1000 * u64::from(seconds)))
}

/// Carries out SET of a lock. Takes memory if the device has no lock.
pub(crate) fn set_lock<R: Rows>(rows: &mut R, sender: Sender, lock: TimedLock, obeyed: &mut Obeyed)
    requires blank { IsTold (accepted []) obeyed.old }
    requires may { MayObey (R.buses rows.old) (R.state rows.old) sender.session
        (Command.SetLock lock) }
    ensures obeyed { IsObeyed (R.state rows.old) (R.state rows.new) sender.session sender.moment
        (Command.SetLock lock) obeyed.new }
    ensures layout { R.buses rows.new ≡ R.buses rows.old }
{
    let TimedLock { target, seconds } = lock;
    if let Some(code) = refusal(rows, sender.session, target) {
        return obeyed.refuse(code);
    }
    let device = lock_at(target);
    let value = Value::Lock {
        seconds,
        session: sender.session,
    };
    let due = lock_end(sender.moment, seconds);
    // A lock that is there is replaced, which takes no memory: so no memory is refused.
    if is_there(rows, device) {
        return replace_row(rows, sender.moment, device.first_key(), value, due, obeyed);
    }
    let row = row_put(sender.moment, device.first_key(), value, due);
    if rows.add(&[row]).is_err() {
        return obeyed.refuse(Code::OUT_OF_RESOURCES);
    }
    obeyed.changes.push(put_of(&row));
}

/// Carries out TERM of a lock.
pub(crate) fn term_lock<R: Rows>(rows: &mut R, sender: Sender, target: Target, obeyed: &mut Obeyed)
    requires blank { IsTold (accepted []) obeyed.old }
    ensures took { Took (effect (R.state rows.old) sender.session sender.moment (Command.TermLock target))
        (R.state rows.old) (R.state rows.new) obeyed.new }
    ensures layout { R.buses rows.new ≡ R.buses rows.old }
{
    let lock = lock_at(target);
    if !is_there(rows, lock) {
        return obeyed.refuse(Code::NO_SUCH_DEVICE);
    }
    if is_locked(rows, sender.session, target) {
        return obeyed.refuse(Code::DEVICE_LOCKED);
    }
    obeyed.changes.push(remove(rows, sender.moment, lock));
}

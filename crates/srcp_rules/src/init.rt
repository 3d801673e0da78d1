//! INIT and TERM of a device, whose lock goes with it.

ghost use Rattle.std.specs.Prelude.{◌≡◌, ◌+◌, ◌++◌, ◌<◌, ◌≤◌, IsTrue, [], length, map, not, true};
ghost use Rattle.std.specs.List.{AllByRecursion};
ghost use Rattle.arrayvec.specs.ArrayVec.{array_vec_len};
ghost use Rattle.srcp_info.specs.WellFormed.{can_go};
ghost use Rattle.srcp_grammar.specs.Layout.{row_count};
ghost use Rattle.srcp_rules.specs.Effect.{accepted, has_init, init_device, is_same_init, refusals, removal, removals};
ghost use Rattle.srcp_rules.specs.Effect.{unless_refused};
ghost use Rattle.srcp_rules.specs.Obeyed.{IsTold, Took, TookUnless};
ghost use Rattle.srcp_rules.specs.Rows.{AreRowsOf, put_rows};
ghost use Rattle.srcp_grammar.specs.Devices.{device_at};
ghost use Rattle.srcp_rules.specs.State.{IsRowOf, IsWhole, has_row, is_there, put_of, updated_all};

use crate::device::{device_at, lock_at};
use crate::lock::{is_locked, refusal};
use crate::obeyed::{CHANGES_CAPACITY, Obeyed};
use crate::registry::{is_there, put_of, remove};
use crate::rows::Rows;
use crate::sender::Sender;
use arrayvec::ArrayVec;
use srcp_grammar::Target;
use srcp_info::{Change, Code, Device, Row, Value};

/// Removes the device, if it is there.
fn remove_if_there<R: Rows>(
    rows: &mut R,
    moment: u64,
    device: Device,
    changes: &mut ArrayVec<Change, CHANGES_CAPACITY>,
)
    requires goes { IsTrue (can_go device.group) }
    requires none { changes.old.items ≡ [] }
    ensures changes { changes.new.items ≡ map (λ update. update.change) (removal (R.state rows.old) moment device) }
    ensures rows { R.state rows.new ≡ updated_all (removal (R.state rows.old) moment device) (R.state rows.old) }
    ensures layout { R.buses rows.new ≡ R.buses rows.old }
{
    if is_there(rows, device) {
        changes.push(remove(rows, moment, device));
    }
}

/// Removes the device's lock and then the device, each if it is there.
fn remove_device<R: Rows>(
    rows: &mut R,
    moment: u64,
    target: Target,
    changes: &mut ArrayVec<Change, CHANGES_CAPACITY>,
)
    requires { changes.old.items ≡ [] }
    ensures changes { changes.new.items
        ≡ map (λ update. update.change) (removals (R.state rows.old) moment target.group target.bus target.address) }
    ensures rows { R.state rows.new
        ≡ updated_all (removals (R.state rows.old) moment target.group target.bus target.address) (R.state rows.old) }
    ensures layout { R.buses rows.new ≡ R.buses rows.old }
{
    let device = device_at(target);
    let has_device = is_there(rows, device);
    remove_if_there(rows, moment, lock_at(target), changes);
    if has_device {
        changes.push(remove(rows, moment, device));
    }
}

/// Carries out TERM of a locomotive or an accessory.
pub(crate) fn term_device<R: Rows>(
    rows: &mut R,
    sender: Sender,
    target: Target,
    obeyed: &mut Obeyed,
)
    requires blank { IsTold (accepted []) obeyed.old }
    ensures took { Took (unless_refused
        (refusals (R.state rows.old) sender.session target.group target.bus target.address)
        (removals (R.state rows.old) sender.moment target.group target.bus target.address))
        (R.state rows.old) (R.state rows.new) obeyed.new }
    ensures layout { R.buses rows.new ≡ R.buses rows.old }
{
    if let Some(code) = refusal(rows, sender.session, target) {
        return obeyed.refuse(code);
    }
    remove_device(rows, sender.moment, target, &mut obeyed.changes);
}

/// Returns whether two first rows have the same parameters.
fn is_same_init(one: &Value, other: &Value) -> bool
    ensures { result ≡ is_same_init one.now other.now }
{
    match (one, other) {
        (
            Value::GlInit {
                letter,
                version,
                steps,
                functions,
            },
            Value::GlInit {
                letter: other_letter,
                version: other_version,
                steps: other_steps,
                functions: other_functions,
            },
        ) => {
            letter == other_letter
                && version == other_version
                && steps == other_steps
                && functions == other_functions
        }
        (
            Value::GaInit { letter },
            Value::GaInit {
                letter: other_letter,
            },
        ) => letter == other_letter,
        _ => false,
    }
}

/// Returns whether the device is there with these parameters.
fn has_init<R: Rows>(rows: &R, target: Target, init: &Value) -> bool
    ensures { result ≡ has_init (R.state rows.now) target.group target.bus target.address init.now }
{
    match rows.row(&device_at(target).first_key()) {
        Some(row) => is_same_init(&row.shown.value, init),
        None => false,
    }
}

/// Replaces rows, each of which has to be there.
fn set_all<R: Rows>(rows: &mut R, fresh: &[Row])
    requires { AllByRecursion (λ row. IsRowOf (R.buses rows.old) row
        × IsTrue (has_row row.shown.key (R.state rows.old)))
        fresh.now }
    ensures rows { R.state rows.new ≡ put_rows fresh.now (R.state rows.old) }
    ensures layout { R.buses rows.new ≡ R.buses rows.old }
{
    for row in fresh {
        rows.set(*row);
    }
}

/// Appends the change of each row.
fn push_puts(changes: &mut ArrayVec<Change, CHANGES_CAPACITY>, fresh: &[Row])
    requires { array_vec_len changes.old + length fresh.now ≤ CHANGES_CAPACITY }
    ensures { changes.new.items ≡ changes.old.items ++ map (λ row. (put_of row).change) fresh.now }
{
    for row in fresh {
        changes.push(put_of(row));
    }
}

/// Resets a device that is there: removes the lock, and sets the rows to their first values. Takes no memory, since
/// each row is there.
fn remake<R: Rows>(
    rows: &mut R,
    moment: u64,
    target: Target,
    fresh: &[Row],
    changes: &mut ArrayVec<Change, CHANGES_CAPACITY>,
)
    requires none { changes.old.items ≡ [] }
    requires whole { IsWhole (R.buses rows.old) (R.state rows.old) }
    requires there { is_there (device_at target) (R.state rows.old) ≡ true }
    requires fresh { AreRowsOf (R.buses rows.old) (device_at target) fresh.now }
    ensures changes { changes.new.items
        ≡ map (λ update. update.change)
        (removals (R.state rows.old) moment target.group target.bus target.address ++ map put_of fresh.now) }
    ensures rows { R.state rows.new
        ≡ updated_all
        (removals (R.state rows.old) moment target.group target.bus target.address ++ map put_of fresh.now)
        (R.state rows.old) }
    ensures layout { R.buses rows.new ≡ R.buses rows.old }
{
    remove_if_there(rows, moment, lock_at(target), changes);
    changes.push(Change::Gone {
        stamp: moment,
        device: device_at(target),
    });
    push_puts(changes, fresh);
    set_all(rows, fresh);
}

/// Carries out INIT of a locomotive or an accessory, whose rows are to be `fresh`.
pub(crate) fn init_device<R: Rows>(
    rows: &mut R,
    sender: Sender,
    target: Target,
    init: &Value,
    fresh: &[Row],
    obeyed: &mut Obeyed,
)
    requires blank { IsTold (accepted []) obeyed.old }
    requires whole { IsWhole (R.buses rows.old) (R.state rows.old) }
    requires some { 0 < row_count (R.buses rows.old) (device_at target) }
    requires fresh { AreRowsOf (R.buses rows.old) (device_at target) fresh.now }
    ensures took { TookUnless
        (init_device (R.state rows.old) sender.session sender.moment target.group target.bus target.address init.now
        (map put_of fresh.now))
        (R.state rows.old) (R.state rows.new) obeyed.new
        (not (is_there (device_at target) (R.state rows.old))) }
    ensures layout { R.buses rows.new ≡ R.buses rows.old }
{
    if is_locked(rows, sender.session, target) {
        return obeyed.refuse(Code::DEVICE_LOCKED);
    }
    if has_init(rows, target, init) {
        return;
    }
    if is_there(rows, device_at(target)) {
        return remake(rows, sender.moment, target, fresh, &mut obeyed.changes);
    }
    if rows.add(fresh).is_err() {
        return obeyed.refuse(Code::OUT_OF_RESOURCES);
    }
    push_puts(&mut obeyed.changes, fresh);
}

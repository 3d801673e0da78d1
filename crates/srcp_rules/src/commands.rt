//! Carries out a command, by a single match of all commands.

ghost use Rattle.std.specs.Prelude.{◌≡◌, ◌≤◌, [], ◌∷◌, IsTrue, None, length};
ghost use Rattle.std.specs.List.{AllByRecursion};
ghost use Rattle.srcp_info.specs.Key.{first_key};
ghost use Rattle.srcp_info.specs.WellFormed.{IsWellFormed, IsWellFormedReply};
ghost use Rattle.srcp_info.specs.declared.value.Value.TheVariants as value;
ghost use Rattle.srcp_grammar.specs.Command.{IsCommandOf};
ghost use Rattle.srcp_rules.specs.Effect.{accepted, put_at, shown_at, term_session};
ghost use Rattle.srcp_rules.specs.Obeyed.{IsObeyed, IsTold, MayObey, Took};
ghost use Rattle.srcp_grammar.specs.Devices.{device_at, fb_device, key_at, power_device, session_device};
ghost use Rattle.srcp_rules.specs.State.{IsWhole, is_there};

use crate::device::{device_at, fb_device, ga, gl, key_at, lock_at, power_device, session_device};
use crate::drive::{gl_refusal, set_ga, set_gl};
use crate::init::term_device;
use crate::lock::{refusal, refuse_if, set_lock, term_lock};
use crate::new_device::{init_ga, init_gl};
use crate::obeyed::Obeyed;
use crate::registry::{replace_row, show};
use crate::rows::Rows;
use crate::sender::Sender;
use srcp_grammar::{Command, MOST_CHANGES, PowerSwitch, Sensor, Switch, Target};
use srcp_info::{Code, Value};

/// Answers TERM of a session. A session can end no session but its own.
fn end_session(session: u32, named: Option<u32>, obeyed: &mut Obeyed)
    requires { IsTold (accepted []) obeyed.old }
    ensures { IsTold (term_session session named) obeyed.new }
{
    match named {
        Some(id) if id != session => obeyed.refuse(Code::FORBIDDEN),
        _ => obeyed.ends = true,
    }
}

/// Carries out SET of the power of a bus.
#[tactic(auto, using(crate::proofs::ObeyLaws::power_row))]
fn set_power<R: Rows>(rows: &mut R, sender: Sender, power: &PowerSwitch, obeyed: &mut Obeyed)
    requires blank { IsTold (accepted []) obeyed.old }
    requires may { MayObey (R.buses rows.old) (R.state rows.old) sender.session (Command.SetPower power.now) }
    ensures took { Took (accepted
        (put_at sender.moment (first_key (power_device power.now.bus)) (value.Power power.now.on power.now.text) None
        ∷ []))
        (R.state rows.old) (R.state rows.new) obeyed.new }
    ensures layout { R.buses rows.new ≡ R.buses rows.old }
{
    let PowerSwitch { bus, on, text } = *power;
    let key = power_device(bus).first_key();
    let value = Value::Power { on, text };
    replace_row(rows, sender.moment, key, value, None, obeyed);
}

/// Carries out SET of a feedback port.
#[tactic(auto, using(crate::proofs::ObeyLaws::fb_row))]
fn set_fb<R: Rows>(rows: &mut R, sender: Sender, sensor: Sensor, obeyed: &mut Obeyed)
    requires blank { IsTold (accepted []) obeyed.old }
    requires may { MayObey (R.buses rows.old) (R.state rows.old) sender.session (Command.SetFb sensor) }
    ensures took { Took (accepted
        (put_at sender.moment (first_key (fb_device sensor.bus sensor.port)) (value.Fb sensor.on) None ∷ []))
        (R.state rows.old) (R.state rows.new) obeyed.new }
    ensures layout { R.buses rows.new ≡ R.buses rows.old }
{
    let Sensor { bus, port, on } = sensor;
    let key = fb_device(bus, port).first_key();
    replace_row(rows, sender.moment, key, Value::Fb { on }, None, obeyed);
}

/// Answers GET of a locomotive or an accessory with its row at a port.
fn show_at<R: Rows>(rows: &R, target: Target, port: u8, obeyed: &mut Obeyed)
    requires { IsTold (accepted []) obeyed.old }
    ensures { Took (shown_at (key_at (device_at target) port) (R.state rows.now))
        (R.state rows.now) (R.state rows.now) obeyed.new }
{
    show(rows, &key_at(device_at(target), port), obeyed);
}

/// Answers the command.
#[tactic(auto, using(srcp_grammar::proofs::LayoutLaws::ga_few))]
fn answer<R: Rows>(rows: &mut R, sender: Sender, command: &Command, obeyed: &mut Obeyed)
    requires blank { IsTold (accepted []) obeyed.old }
    requires may { MayObey (R.buses rows.old) (R.state rows.old) sender.session command.now }
    ensures obeyed { IsObeyed (R.state rows.old) (R.state rows.new)
        sender.session sender.moment command.now obeyed.new }
    ensures layout { R.buses rows.new ≡ R.buses rows.old }
{
    match *command {
        Command::GetSession { session } => show(rows, &session_device(session).first_key(), obeyed),
        Command::TermSession { session } => end_session(sender.session, session, obeyed),
        Command::GetPower { bus } => show(rows, &power_device(bus).first_key(), obeyed),
        Command::SetPower(ref power) => set_power(rows, sender, power, obeyed),
        Command::CheckPower(_) | Command::InitPower { .. } => {}
        Command::GetGl { bus, address } => show_at(rows, gl(bus, address), 1, obeyed),
        Command::SetGl(ref drive) => set_gl(rows, sender, drive, obeyed),
        Command::CheckGl(ref drive) => refuse_if(gl_refusal(rows, sender.session, drive), obeyed),
        Command::InitGl(ref decoder) => init_gl(rows, sender, decoder, obeyed),
        Command::TermGl { bus, address } => term_device(rows, sender, gl(bus, address), obeyed),
        Command::GetGa { bus, address, port } => show_at(rows, ga(bus, address), 1 + port, obeyed),
        Command::SetGa(ref switch) => set_ga(rows, sender, switch, obeyed),
        Command::CheckGa(Switch { bus, address, .. }) => {
            refuse_if(refusal(rows, sender.session, ga(bus, address)), obeyed)
        }
        Command::InitGa(ref decoder) => init_ga(rows, sender, decoder, obeyed),
        Command::TermGa { bus, address } => term_device(rows, sender, ga(bus, address), obeyed),
        Command::GetFb { bus, port } => show(rows, &fb_device(bus, port).first_key(), obeyed),
        Command::SetFb(sensor) => set_fb(rows, sender, sensor, obeyed),
        Command::CheckFb(_) | Command::InitFb { .. } => {}
        Command::GetLock(target) => show(rows, &lock_at(target).first_key(), obeyed),
        Command::SetLock(lock) => set_lock(rows, sender, lock, obeyed),
        Command::CheckLock(lock) => refuse_if(refusal(rows, sender.session, lock.target), obeyed),
        Command::TermLock(target) => term_lock(rows, sender, target, obeyed),
    }
}

/// Executes a command of a session, and returns the reply, the changes in order, and whether the session ends. A
/// refused command changes nothing. The reply is the first of these refusals:
/// 1. 416 if the thing named is not there. GET and TERM of a lock ask for the lock, and GET of a session for the row of
///    the session. All others but INIT ask for the device, SET and CHECK of a lock too.
/// 2. 418 if SET or CHECK of a locomotive has more functions than the locomotive.
/// 3. 414 if another session has the device's lock: for SET, CHECK, INIT and TERM of a locomotive, an accessory or a
///    lock.
/// 4. 415 if TERM names another session.
/// 5. 500 if the command adds rows and memory was refused for them. INIT of a device that is not there adds rows, as
///    does SET of a lock if there is none. Nothing else takes memory.
pub fn obey<R: Rows>(rows: &mut R, session: u32, moment: u64, command: &Command) -> Obeyed
    requires whole { IsWhole (R.buses rows.old) (R.state rows.old) }
    requires begun { IsTrue (is_there (session_device session) (R.state rows.old)) }
    requires command { IsCommandOf (R.buses rows.old) command.now }
    ensures obeyed { IsObeyed (R.state rows.old) (R.state rows.new) session moment command.now result }
    ensures layout { R.buses rows.new ≡ R.buses rows.old }
    ensures whole { IsWhole (R.buses rows.new) (R.state rows.new) }
    ensures reply { IsWellFormedReply result.reply }
    ensures changes { AllByRecursion IsWellFormed result.changes.items }
    ensures few { length result.changes.items ≤ MOST_CHANGES }
{
    let mut obeyed = Obeyed::new();
    obey_into(rows, session, moment, command, &mut obeyed);
    obeyed
}

/// Executes a command as `obey` does, and writes the outcome over what `obeyed` holds. A caller with a single `Obeyed`
/// for all commands does not clear the buffer of changes at each.
pub fn obey_into<R: Rows>(
    rows: &mut R,
    session: u32,
    moment: u64,
    command: &Command,
    obeyed: &mut Obeyed,
)
    requires whole { IsWhole (R.buses rows.old) (R.state rows.old) }
    requires begun { IsTrue (is_there (session_device session) (R.state rows.old)) }
    requires command { IsCommandOf (R.buses rows.old) command.now }
    ensures obeyed { IsObeyed (R.state rows.old) (R.state rows.new) session moment command.now obeyed.new }
    ensures layout { R.buses rows.new ≡ R.buses rows.old }
    ensures whole { IsWhole (R.buses rows.new) (R.state rows.new) }
    ensures reply { IsWellFormedReply obeyed.new.reply }
    ensures changes { AllByRecursion IsWellFormed obeyed.new.changes.items }
    ensures few { length obeyed.new.changes.items ≤ MOST_CHANGES }
{
    obeyed.reset();
    answer(rows, Sender { session, moment }, command, obeyed);
}

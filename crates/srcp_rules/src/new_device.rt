//! INIT of a locomotive and of an accessory: the first rows of each.

ghost use Rattle.std.specs.Prelude.{◌≡◌, ◌≤◌, [], ◌∷◌, false, map, replicate, None};
ghost use Rattle.std.specs.List.{range_with_len};
ghost use Rattle.srcp_info.specs.declared.value.Value.TheVariants as value;
ghost use Rattle.srcp_rules.specs.Obeyed.{IsObeyed, IsTold, MayObey};
ghost use Rattle.srcp_rules.specs.Effect.{accepted};
ghost use Rattle.srcp_grammar.specs.Devices.{key_at};
ghost use Rattle.srcp_rules.specs.State.{row_put};

use crate::device::{device_at, ga, gl, key_at};
use crate::init::init_device;
use crate::obeyed::Obeyed;
use crate::registry::row_put;
use crate::rows::{MOST_ROWS, Rows};
use crate::sender::Sender;
use srcp_grammar::{Command, NewGa, NewGl};
use srcp_info::{Bits, Device, DriveMode, Letter, MOST_FUNCTIONS, MOST_PORTS, Row, Value};

/// Makes the rows of a new locomotive, which stands still, forward, with all functions off.
fn gl_rows(moment: u64, device: Device, init: &Value, functions: u32) -> [Row; 2]
    requires { functions ≤ MOST_FUNCTIONS }
    ensures { result
        ≡ row_put moment (key_at device 0) init.now None
        ∷ row_put moment (key_at device 1) (value.GlState 1 0 0 (replicate functions false)) None ∷ [] }
{
    let resting = Value::GlState {
        mode: DriveMode::Forward as u32,
        v: 0,
        vmax: 0,
        functions: Bits::all_false(functions as usize),
    };
    [
        row_put(moment, key_at(device, 0), *init, None),
        row_put(moment, key_at(device, 1), resting, None),
    ]
}

/// Carries out INIT of a locomotive. A new or changed locomotive stands still, forward, with all functions off.
pub(crate) fn init_gl<R: Rows>(rows: &mut R, sender: Sender, decoder: &NewGl, obeyed: &mut Obeyed)
    requires blank { IsTold (accepted []) obeyed.old }
    requires may { MayObey (R.buses rows.old) (R.state rows.old) sender.session (Command.InitGl decoder.now) }
    ensures obeyed { IsObeyed (R.state rows.old) (R.state rows.new) sender.session sender.moment
        (Command.InitGl decoder.now) obeyed.new }
    ensures layout { R.buses rows.new ≡ R.buses rows.old }
{
    let target = gl(decoder.bus, decoder.address);
    let init = Value::GlInit {
        letter: decoder.letter,
        version: decoder.version,
        steps: decoder.steps,
        functions: decoder.functions,
    };
    let fresh = gl_rows(sender.moment, device_at(target), &init, decoder.functions);
    init_device(rows, sender, target, &init, &fresh, obeyed);
}

/// Makes the row of a new accessory's port, 0.
fn port_row(moment: u64, device: Device, port: u8) -> Row
    ensures { result ≡ row_put moment (key_at device port) (value.GaPort false) None }
{
    row_put(
        moment,
        key_at(device, port),
        Value::GaPort { on: false },
        None,
    )
}

/// Makes the rows of a new accessory with the most ports of any accessory.
fn ga_rows(moment: u64, device: Device, letter: Letter) -> [Row; MOST_ROWS]
    ensures { result
        ≡ row_put moment (key_at device 0) (value.GaInit letter) None
        ∷ map (λ port. row_put moment (key_at device port) (value.GaPort false) None)
        (range_with_len 1 MOST_PORTS) }
{
    [
        // An array of the most rows: only `Rows::add` takes memory, so a refusal comes before any change.
        row_put(moment, key_at(device, 0), Value::GaInit { letter }, None),
        port_row(moment, device, 1),
        port_row(moment, device, 2),
        port_row(moment, device, 3),
        port_row(moment, device, 4),
        port_row(moment, device, 5),
        port_row(moment, device, 6),
        port_row(moment, device, 7),
        port_row(moment, device, 8),
    ]
}

/// Carries out INIT of an accessory. All ports of a new or changed accessory are 0.
pub(crate) fn init_ga<R: Rows>(rows: &mut R, sender: Sender, decoder: &NewGa, obeyed: &mut Obeyed)
    requires blank { IsTold (accepted []) obeyed.old }
    requires may { MayObey (R.buses rows.old) (R.state rows.old) sender.session (Command.InitGa decoder.now) }
    ensures obeyed { IsObeyed (R.state rows.old) (R.state rows.new) sender.session sender.moment
        (Command.InitGa decoder.now) obeyed.new }
    ensures layout { R.buses rows.new ≡ R.buses rows.old }
{
    let target = ga(decoder.bus, decoder.address);
    let letter = decoder.letter;
    let init = Value::GaInit { letter };
    let most = ga_rows(sender.moment, device_at(target), letter);
    let fresh = &most[..1 + usize::from(decoder.ports)];
    init_device(rows, sender, target, &init, fresh, obeyed);
}

//! Lines, read back as changes.

ghost use Rattle.std.specs.Prelude.{◌≡◌, ℕ, ◌^◌, ◌<◌, ◌≤◌, List, Bool, length};
ghost use Rattle.std.specs.List.{join_with_byte};
ghost use Rattle.srcp_info.specs.declared.key.Group.{Group};
ghost use Rattle.srcp_info.specs.declared.value.Letter.{Letter};
ghost use Rattle.srcp_info.specs.declared.value.Mode.{Mode};
ghost use Rattle.srcp_info.specs.declared.scan.InfoKind.{InfoKind};
ghost use Rattle.srcp_info.specs.declared.change.Shown.{Shown};
ghost use Rattle.srcp_info.specs.declared.change.Change.{Change};
ghost use Rattle.srcp_info.specs.Line.{info_words, value_code, value_words};
ghost use Rattle.srcp_info.specs.WellFormed.{IsWellFormedShown};
ghost use Rattle.srcp_info.specs.Read.{kind_code, IsLineOf, Reads};

use crate::change::{Change, Shown};
use crate::key::{Device, Group, Key};
use crate::limits::{LONGEST_TEXT, MOST_FUNCTIONS, MOST_PORTS};
use crate::scan::{
    InfoKind, functions_of, kind_of, mode_named, moment_of, next_bit, next_group, next_letter,
    next_number, next_switch, next_word,
};
use crate::value::{Text, Value};
use crate::well_formed::is_well_formed;
use crate::write::{InfoLine, write_change};

/// Holds what follows the words of the group in the line of a row.
#[derive(Clone, Copy)]
struct Tail {
    address: u32,
    port: u8,
    value: Value,
}

// Each of the next functions reads the tail of a line. A text that no such line has gives any answer: `read_change`
// writes the answer again and compares before it returns.

fn read_session(text: &[u8]) -> Tail
    ensures { (address : ℕ) (mode : Mode) → address < 2 ^ 32
        → text.now ≡ join_with_byte 32 (value_words address 0 (Value.Session mode))
        → result ≡ record { address = address; port = 0; value = Value.Session mode } }
{
    let (address, rest) = next_number(text);
    let mode = mode_named(rest);
    Tail {
        address,
        port: 0,
        value: Value::Session { mode },
    }
}

fn read_power(text: &[u8]) -> Tail
    ensures { (on : Bool) (shown : List ℕ) → length shown ≤ LONGEST_TEXT
        → text.now ≡ join_with_byte 32 (value_words 0 0 (Value.Power on shown))
        → result ≡ record { address = 0; port = 0; value = Value.Power on shown } }
{
    let (on, rest) = next_switch(text);
    let text = Text::from_bytes(rest).unwrap_or(Text::new());
    Tail {
        address: 0,
        port: 0,
        value: Value::Power { on, text },
    }
}

fn read_gl_init(text: &[u8]) -> Tail
    ensures { (address : ℕ) (letter : Letter) (version steps functions : ℕ)
        → address < 2 ^ 32 → version < 2 ^ 32 → steps < 2 ^ 32 → functions < 2 ^ 32
        → text.now ≡ join_with_byte 32
        (value_words address 0 (Value.GlInit letter version steps functions))
        → result ≡ record {
          address = address;
          port = 0;
          value = Value.GlInit letter version steps functions;
        } }
{
    let (address, rest) = next_number(text);
    let (letter, rest) = next_letter(rest);
    let (version, rest) = next_number(rest);
    let (steps, rest) = next_number(rest);
    let (functions, _) = next_number(rest);
    let value = Value::GlInit {
        letter,
        version,
        steps,
        functions,
    };
    Tail {
        address,
        port: 0,
        value,
    }
}

fn read_gl_state(text: &[u8]) -> Tail
    ensures { (address mode v vmax : ℕ) (functions : List Bool)
        → address < 2 ^ 32 → mode < 2 ^ 32 → v < 2 ^ 32 → vmax < 2 ^ 32
        → length functions ≤ MOST_FUNCTIONS
        → text.now ≡ join_with_byte 32
        (value_words address 1 (Value.GlState mode v vmax functions))
        → result ≡ record {
          address = address;
          port = 1;
          value = Value.GlState mode v vmax functions;
        } }
{
    let (address, rest) = next_number(text);
    let (mode, rest) = next_number(rest);
    let (v, rest) = next_number(rest);
    let (vmax, rest) = next_number(rest);
    let value = Value::GlState {
        mode,
        v,
        vmax,
        functions: functions_of(rest),
    };
    Tail {
        address,
        port: 1,
        value,
    }
}

fn read_ga_init(text: &[u8]) -> Tail
    ensures { (address : ℕ) (letter : Letter) → address < 2 ^ 32
        → text.now ≡ join_with_byte 32 (value_words address 0 (Value.GaInit letter))
        → result ≡ record { address = address; port = 0; value = Value.GaInit letter } }
{
    let (address, rest) = next_number(text);
    let (letter, _) = next_letter(rest);
    Tail {
        address,
        port: 0,
        value: Value::GaInit { letter },
    }
}

fn read_ga_port(text: &[u8]) -> Tail
    ensures { (address port : ℕ) (on : Bool) → address < 2 ^ 32 → 1 ≤ port → port ≤ MOST_PORTS
        → text.now ≡ join_with_byte 32 (value_words address port (Value.GaPort on))
        → result ≡ record { address = address; port = port; value = Value.GaPort on } }
{
    let (address, rest) = next_number(text);
    let (port, rest) = next_number(rest);
    let (on, _) = next_bit(rest);
    let port = u8::try_from(port).unwrap_or(u8::MAX).saturating_add(1);
    Tail {
        address,
        port,
        value: Value::GaPort { on },
    }
}

fn read_fb(text: &[u8]) -> Tail
    ensures { (address : ℕ) (on : Bool) → address < 2 ^ 32
        → text.now ≡ join_with_byte 32 (value_words address 0 (Value.Fb on))
        → result ≡ record { address = address; port = 0; value = Value.Fb on } }
{
    let (address, rest) = next_number(text);
    let (on, _) = next_bit(rest);
    Tail {
        address,
        port: 0,
        value: Value::Fb { on },
    }
}

fn read_lock(text: &[u8]) -> Tail
    ensures { (address seconds session : ℕ)
        → address < 2 ^ 32 → seconds < 2 ^ 32 → session < 2 ^ 32
        → text.now ≡ join_with_byte 32 (value_words address 0 (Value.Lock seconds session))
        → result ≡ record { address = address; port = 0; value = Value.Lock seconds session } }
{
    let (address, rest) = next_number(text);
    let (seconds, rest) = next_number(rest);
    let (session, _) = next_number(rest);
    Tail {
        address,
        port: 0,
        value: Value::Lock { seconds, session },
    }
}

/// Reads the tail of the line of a row, by its kind and its group.
fn read_value(kind: InfoKind, group: Group, text: &[u8]) -> Tail
    ensures { (shown : Shown) → IsWellFormedShown shown
        → shown.key.group ≡ group → value_code shown.value ≡ kind_code kind
        → text.now ≡ join_with_byte 32
        (value_words shown.key.address shown.key.port shown.value)
        → result ≡ record {
          address = shown.key.address;
          port = shown.key.port;
          value = shown.value;
        } }
{
    let is_init = kind == InfoKind::Init;
    match group {
        Group::Session => read_session(text),
        Group::Power => read_power(text),
        Group::Gl if is_init => read_gl_init(text),
        Group::Gl => read_gl_state(text),
        Group::Ga if is_init => read_ga_init(text),
        Group::Ga => read_ga_port(text),
        Group::Fb => read_fb(text),
        Group::LockGl | Group::LockGa => read_lock(text),
    }
}

/// Holds what the words of a line say up to the words of the group.
#[derive(Clone, Copy)]
struct Head {
    moment: u64,
    kind: InfoKind,
    bus: u8,
    group: Group,
}

/// Returns the first words of a line, up to the words of the group, and the text after them.
fn next_head(line: &[u8]) -> (Head, &[u8])
    ensures { (moment : ℕ) (kind : InfoKind) (bus : ℕ) (group : Group) (more : List (List ℕ))
        → moment < 2 ^ 64 → bus < 2 ^ 8
        → line.now ≡ join_with_byte 32 (info_words moment (kind_code kind) bus group more)
        → (result.0 ≡ record { moment = moment; kind = kind; bus = bus; group = group })
        × (result.1.now ≡ join_with_byte 32 more) }
{
    let (stamp, rest) = next_word(line);
    let (code, rest) = next_word(rest);
    let (_, rest) = next_word(rest);
    let (bus, rest) = next_number(rest);
    let (group, rest) = next_group(rest);
    let head = Head {
        moment: moment_of(stamp),
        kind: kind_of(code),
        bus: u8::try_from(bus).unwrap_or(0),
        group,
    };
    (head, rest)
}

/// Returns the change of this line, if a well-formed change has the line. Returns any change otherwise.
fn change_of(line: &[u8]) -> Change
    ensures { (change : Change) → IsLineOf line.now change → result ≡ change }
{
    let (head, rest) = next_head(line);
    let Head {
        moment: stamp,
        kind,
        bus,
        group,
    } = head;
    match kind {
        InfoKind::Term => {
            let (address, _) = next_number(rest);
            Change::Gone {
                stamp,
                device: Device {
                    bus,
                    group,
                    address,
                },
            }
        }
        InfoKind::State | InfoKind::Init => {
            let tail = read_value(kind, group, rest);
            Change::Put(Shown {
                key: Key {
                    bus,
                    group,
                    address: tail.address,
                    port: tail.port,
                },
                stamp,
                value: tail.value,
            })
        }
    }
}

/// Returns the change of a line, given without the LF, or `None` if no well-formed change has this line. Allocates no
/// memory. The form of a line is from SRCP 0.8. Any other spelling gives `None`, as two spaces, a leading zero or small
/// letters.
pub fn read_change(line: &[u8]) -> Option<Change>
    ensures { Reads line.now result }
{
    let change = change_of(line);
    if !is_well_formed(change) {
        return None;
    }
    let mut written = InfoLine::new();
    write_change(&change, &mut written);
    written.pop();
    if written.as_slice() == line {
        Some(change)
    } else {
        None
    }
}

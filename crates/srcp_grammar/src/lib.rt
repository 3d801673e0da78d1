//! The layout of a server, which line is which command of the layout, and how many changes a line can bring.
//!
//! No registry is kept here: `srcp_rules` says what a command changes, and whether a session may give the command.
#![tactic(auto)]

ghost use Rattle.std.specs.Prelude.{◌≡◌, ℕ, List, [], ◌∷◌};
ghost use Rattle.srcp_grammar.specs.Command.{IsCommandOf};
ghost use Rattle.srcp_grammar.specs.Grammar.{reads};

mod arguments;
mod buses;
mod command;
mod layout;
mod line_weight;
mod parse;
mod power_text;
mod single_words;

pub use buses::SERVER;
pub use command::{
    Command, DeviceGroup, Drive, NewGa, NewGl, PowerSwitch, Sensor, Switch, Target, TimedLock,
};
pub use layout::{Bus, Layout, LayoutFault};
pub use line_weight::{MOST_CHANGES, weight};
pub use parse::parse_command;

//! The keys of a configuration, and the texts of its faults.

ghost use Rattle.std.specs.Prelude.{Some};
ghost use Rattle.srcp_layout_file.specs.Faults.{config_key, config_text};

use crate::config::{ConfigFault, Field};
use crate::member::Key;
use std::fmt;

impl Key for Field {
    type Fault = ConfigFault;

    ghost named = { config_key };

    fn name(self) -> &'static str {
        match self {
            Field::Port => "port",
            Field::Bus => "bus",
            Field::Number => "number",
            Field::Groups => "groups",
            Field::GlMax => "gl_max",
            Field::GaMax => "ga_max",
            Field::GaPorts => "ga_ports",
            Field::FbPorts => "fb_ports",
        }
    }

    fn missing(self) -> ConfigFault {
        ConfigFault::Missing(self)
    }

    fn beyond(self) -> ConfigFault {
        ConfigFault::OutOfRange(self)
    }
}

impl fmt::Display for ConfigFault {
    ghost output = { λ x. Some (config_text x) };

    fn fmt<W: fmt::Write>(&self, f: &mut fmt::Formatter<W>) -> fmt::Result {
        match self {
            ConfigFault::NotToml => write!(f, "config: not TOML"),
            ConfigFault::Missing(field) => {
                let key = field.name();
                write!(f, "config: {key} missing")
            }
            ConfigFault::OutOfRange(field) => {
                let key = field.name();
                write!(f, "config: {key} out of range")
            }
            ConfigFault::Twice(bus) => write!(f, "config: bus {bus} twice"),
            ConfigFault::UnknownGroup => write!(f, "config: unknown group"),
            ConfigFault::Memory => write!(f, "out of memory"),
        }
    }
}

//! Why nothing is served.

ghost use Rattle.std.specs.Prelude.{◌≡◌, Some};
ghost use Rattle.srcp_host.specs.Faults.{host_text};

use srcp_layout_file::ConfigFault;
use srcp_rules::Memory;
use srcp_sockets::ListenFault;
use std::fmt;
use thiserror::Error;

/// Says why nothing is served.
#[derive(Clone, Copy, Debug, PartialEq, Eq, Error)]
pub enum HostFault {
    /// The configuration is refused.
    Config(ConfigFault),
    /// The port cannot be had.
    Port,
    /// Memory is refused.
    Memory,
}

impl fmt::Display for HostFault {
    ghost output = { λ x. Some (host_text x) };

    fn fmt<W: fmt::Write>(&self, f: &mut fmt::Formatter<W>) -> fmt::Result {
        match self {
            HostFault::Config(fault) => write!(f, "{fault}"),
            HostFault::Port => write!(f, "cannot listen"),
            HostFault::Memory => write!(f, "out of memory"),
        }
    }
}

impl From<ConfigFault> for HostFault {
    ghost use Rattle.srcp_host.specs.Faults.{of_config};

    ghost from_gives = { λ fault e. e ≡ of_config fault };

    fn from(fault: ConfigFault) -> HostFault {
        match fault {
            ConfigFault::Memory => HostFault::Memory,
            _ => HostFault::Config(fault),
        }
    }
}

impl From<ListenFault> for HostFault {
    ghost use Rattle.srcp_host.specs.Faults.{of_listen};

    ghost from_gives = { λ fault e. e ≡ of_listen fault };

    fn from(fault: ListenFault) -> HostFault {
        match fault {
            ListenFault::Port => HostFault::Port,
            ListenFault::Memory => HostFault::Memory,
        }
    }
}

impl From<Memory> for HostFault {
    ghost use Rattle.srcp_host.specs.declared.fault.HostFault.TheVariants as host;

    ghost from_gives = { λ refused e. e ≡ host.Memory };

    fn from(_refused: Memory) -> HostFault {
        HostFault::Memory
    }
}

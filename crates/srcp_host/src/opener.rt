//! What opens a door at a port.

ghost use Rattle.std.specs.Prelude.{◌≡◌, ℕ, [], IfErr, IfOk, None, Result, Ok, Err};
ghost use Rattle.srcp_sockets.specs.declared.fault.ListenFault.{ListenFault};

use srcp_sockets::{ListenFault, SocketDoor, System};
use std::alloc::Global;

/// Opens a door at a port.
pub trait Opener {
    /// The system below the door.
    type System: System;

    // In the first state the opener may answer this for the port: a system, or why there is none. The second state is
    // that of the opener afterwards.
    ghost answers: { Self → (port : ℕ) → Result Self.System ListenFault → Self → Type 0 };

    /// Opens a door at the port. The log of the door is empty, its waits have no limit, and no call of the door has
    /// failed yet.
    ///
    /// # Errors
    /// Returns `Port` if the port cannot be had, and `Memory` if memory is refused.
    fn open(&mut self, alloc: Global, port: u16) -> Result<SocketDoor<Self::System>, ListenFault>
        ensures ok { IfOk result (λ door. answers self.old port (Ok door.sockets.system.system) self.new) }
        ensures log { IfOk result (λ door. door.sockets.system.log.steps ≡ []) }
        ensures limit { IfOk result (λ door. door.sockets.most ≡ None) }
        ensures err { IfErr result (λ fault. answers self.old port (Err fault) self.new) }
        ensures faults { IfOk result (λ door. door.faults ≡ 0) };
}

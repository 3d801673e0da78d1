//! The whole lines of a stream, each applied at the LF.

ghost use Rattle.std.specs.Prelude.{◌≡◌, ◌+◌, ◌^◌, ◌<◌, ◌≤◌, ◌∷◌, ◌++◌, ℕ, List, [], length, OnOk, IsErrOf};
ghost use Rattle.srcp_tool.specs.Mirroring.{HasTaken};
ghost use Rattle.srcp_tool.specs.Output.{RefusesLine};

use crate::stream::begun::BegunLine;
use srcp_info::{Mirror, MirrorFault};
use srcp_script::cut_at;
use std::alloc::Global;

/// Holds the rows made by the whole lines of a stream, the number of those lines, and the begun line after them.
#[derive(Drop)]
pub(super) struct MirroredLines {
    mirror: Mirror,
    count: usize,
    begun: BegunLine,
}

impl MirroredLines {
    /// Makes the rows of no line. Allocates no memory.
    pub(super) fn new(alloc: Global) -> MirroredLines
        ensures taken { HasTaken result [] }
        ensures count { result.count ≡ 0 }
    {
        MirroredLines {
            mirror: Mirror::new(alloc),
            count: 0,
            begun: BegunLine::new(),
        }
    }

    /// Returns how many lines were applied.
    pub(super) fn count(&self) -> usize
        ensures { result ≡ self.now.count }
    {
        self.count
    }

    /// Returns the rows.
    pub(super) fn into_mirror(self) -> Mirror
        ensures { result ≡ self.mirror }
    {
        self.mirror
    }

    /// Applies each line whose LF is in a piece of the stream.
    ///
    /// # Errors
    /// Returns `NotInfo` if the first line not applied is no information line, and `Memory` if memory is refused.
    pub(super) fn take(&mut self, piece: &[u8]) -> Result<(), MirrorFault>
        requires { self.old.count + length piece.now < 2 ^ 64 }
        ensures taken { OnOk result
            ((input : List ℕ) → HasTaken self.old input → HasTaken self.new (input ++ piece.now)) }
        ensures refused { IsErrOf result MirrorFault.NotInfo
            → (input : List ℕ) → HasTaken self.old input → RefusesLine (input ++ piece.now) (self.new.count + 1) }
        ensures count { self.new.count ≤ self.old.count + length piece.now }
    {
        let mut rest = piece;
        loop {
            let (line, behind) = cut_at(b'\n', rest);
            self.begun.add(line);
            // The bytes behind the last LF are neither applied nor refused, however many.
            let Some(behind) = behind else {
                return Ok(());
            };
            self.end_line()?;
            rest = behind;
        }
    }

    /// Applies the begun line, at the LF.
    fn end_line(&mut self) -> Result<(), MirrorFault>
        requires { self.old.count + 1 < 2 ^ 64 }
        ensures taken { OnOk result
            ((input : List ℕ) → HasTaken self.old input → HasTaken self.new (input ++ 10 ∷ [])) }
        ensures refused { IsErrOf result MirrorFault.NotInfo
            → (input : List ℕ) → HasTaken self.old input → RefusesLine (input ++ 10 ∷ []) (self.new.count + 1) }
        ensures count { self.new.count ≤ self.old.count + 1 }
    {
        match self.begun.line() {
            // Each line is judged alone: a lock without its device is accepted, and so is port 7 on any bus.
            Some(line) => self.mirror.apply(line)?,
            None => return Err(MirrorFault::NotInfo),
        }
        self.begun = BegunLine::new();
        self.count += 1;
        Ok(())
    }
}

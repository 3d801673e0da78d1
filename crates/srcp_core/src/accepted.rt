//! The line of an accepted command.

ghost use Rattle.std.specs.Prelude.{◌≡◌, ◌≤◌, length};
ghost use Rattle.srcp_info.specs.Line.{reply_line};
ghost use Rattle.srcp_info.specs.declared.change.Reply.{Reply};

use srcp_info::{InfoLine, LONGEST_SHORT_REPLY, Reply, write_reply};
use std::marker::Model;

/// Holds the line of `200 OK` at a moment, written once for all commands of the moment. Contracts see the moment.
#[derive(Drop)]
pub(crate) struct Accepted {
    moment: u64,
    line: InfoLine,
}

impl Model for Accepted {
    ghost use Rattle.std.specs.Prelude.{◌≡◌, ◌≤◌, ℕ, length};
    ghost use Rattle.srcp_info.specs.Line.{reply_line};
    ghost use Rattle.srcp_info.specs.declared.change.Reply.TheVariants.{Accepted as AcceptedReply};
    ghost use Rattle.srcp_info.specs.declared.limits.TheConstants.{LONGEST_SHORT_REPLY};

    ghost Value = { ℕ };

    ghost view = { λ a. a.moment };

    ghost invariant = { λ a. (a.line.items ≡ reply_line a.moment AcceptedReply)
        × (length a.line.items ≤ LONGEST_SHORT_REPLY) };
}

impl Accepted {
    /// Writes the line of a moment.
    pub(crate) fn at(moment: u64) -> Accepted
        ensures { result ≡ moment }
    {
        let mut line = InfoLine::new();
        write_reply(moment, &Reply::Accepted, &mut line);
        Accepted { moment, line }
    }

    /// Returns the moment.
    pub(crate) fn moment(&self) -> u64
        ensures { result ≡ self.now }
    {
        self.moment
    }

    /// Returns the line.
    pub(crate) fn line(&self) -> &[u8]
        ensures line { result.now ≡ reply_line self.now Reply.Accepted }
        ensures most { length result.now ≤ LONGEST_SHORT_REPLY }
    {
        self.line.as_slice()
    }
}

//! Answers to lines: the handshake before the session, and commands after it.
ghost use Rattle.std.specs.Prelude.{◌≡◌, ◌≢◌, ◌+◌, ◌≤◌, [], ◌∷◌, true, false, length, Ok, OnOk, OnErr, OnSome, IfNone};
ghost use Rattle.std.specs.Prelude.{IfSome, IfOk};
ghost use Rattle.srcp_info.specs.WellFormed.{IsWellFormedReply};
ghost use Rattle.srcp_info.specs.declared.change.Code.TheVariants.{C500};
ghost use Rattle.srcp_info.specs.declared.change.Reply.TheVariants.{Refused};
ghost use Rattle.srcp_grammar.specs.Command.{IsCommandOf};
ghost use Rattle.srcp_rules.specs.Effect.{effect};
ghost use Rattle.srcp_grammar.specs.Devices.{session_device};
ghost use Rattle.srcp_rules.specs.State.{is_there};
ghost use Rattle.srcp_rules.specs.Steps.{wants_memory};
ghost use Rattle.srcp_core.specs.Held.{IsSessionAt, IsSound};
ghost use Rattle.srcp_core.specs.Under.{denied_by};
ghost use Rattle.srcp_core.specs.Handshake.{Goes};
ghost use Rattle.srcp_core.specs.declared.line.Request.TheVariants.{Greets, Commands};
ghost use Rattle.srcp_core.specs.Machine.{changed_at, unsent_at, one_denied, replied, session_begun, carried, freed_of};
ghost use Rattle.srcp_core.specs.Machine.{answered, longest, longest_answer, steps_answered, steps_in, IsRequest};

use super::Core;
use super::walk::{free_all, panel_keys, tell_all, tell_each};
use crate::connection::Panel;
use crate::handshake::Greeting;
use crate::limits::MOST_UNSENT;
use crate::line::{LineRecord, Request};
use crate::record::Step;
use srcp_info::{Code, GREATEST_ID, LONGEST_LINE, LONGEST_SHORT_REPLY, Mode, Reply};
use srcp_rules::{Command, Memory, Rows, begin_session, obey_into};

impl<'a, R: Rows> Core<'a, R> {
    /// Answers a line. Returns the record of the line.
    #[inline(always)]
    pub(super) fn answer(&mut self, conn: usize, request: &Request) -> LineRecord
        requires request { IsRequest conn request.now self.old }
        requires fits { length (unsent_at conn self.old) + longest_answer request.now ≤ MOST_UNSENT }
        ensures core { self.new ≡ answered result.granted conn request.now self.old }
        ensures steps { steps_in result ≡ steps_answered result.granted request.now self.old }
        ensures counted { self.new.denied ≡ denied_by self.old.denied (result.granted ∷ []) }
    {
        // Read for the invariant of the type: the core is sound.
        let _ = &self.layout;
        match request {
            Request::Dropped => LineRecord::nothing(),
            Request::Greets { mode, greeting } => self.greet(conn, *mode, *greeting),
            Request::Commands { session, command } => self.command(conn, *session, command),
        }
    }

    /// Answers a line before the session.
    fn greet(&mut self, conn: usize, mode: Mode, greeting: Greeting) -> LineRecord
        requires { length (unsent_at conn self.old) + LONGEST_SHORT_REPLY ≤ MOST_UNSENT }
        ensures core { self.new ≡ answered result.granted conn (Greets mode greeting) self.old }
        ensures steps { steps_in result ≡ steps_answered result.granted (Greets mode greeting) self.old }
        ensures counted { self.new.denied ≡ denied_by self.old.denied (result.granted ∷ []) }
    {
        match greeting {
            Greeting::Speaks => self.reply(conn, &Reply::Protocol),
            Greeting::Chooses(chosen) => {
                self.set_mode(conn, chosen);
                self.reply(conn, &Reply::Mode);
            }
            Greeting::Goes => return self.go(conn, mode),
            Greeting::Refuses(code) => self.reply(conn, &Reply::Refused(code)),
        }
        LineRecord::nothing()
    }

    /// Sets the mode of the session to come.
    fn set_mode(&mut self, conn: usize, mode: Mode)
        ensures { self.new ≡ changed_at conn (λ p. record p { mode = mode }) self.old }
    {
        let Some(connection) = self.connections.get_mut(conn) else {
            return;
        };
        connection.set_mode(mode);
    }

    /// Answers `GO`.
    fn go(&mut self, conn: usize, mode: Mode) -> LineRecord
        requires { length (unsent_at conn self.old) + LONGEST_SHORT_REPLY ≤ MOST_UNSENT }
        ensures core { self.new ≡ answered result.granted conn (Greets mode Goes) self.old }
        ensures steps { steps_in result ≡ steps_answered result.granted (Greets mode Goes) self.old }
        ensures counted { self.new.denied ≡ denied_by self.old.denied (result.granted ∷ []) }
    {
        if self.last_id >= GREATEST_ID {
            self.reply(conn, &Reply::Refused(Code::OUT_OF_RESOURCES));
            return LineRecord::nothing();
        }
        let session = self.last_id + 1;
        let moment = self.moment;
        match self.begin(conn, session, mode) {
            Ok(()) => {
                self.reply(conn, &Reply::Go(session));
                LineRecord::of(Step::Began {
                    session,
                    moment,
                    mode,
                })
            }
            Err(Memory) => {
                self.deny(conn);
                LineRecord::denied()
            }
        }
    }

    /// Begins a session under the next id. The feed is allocated first, and then the session's row. If memory is
    /// refused, nothing changes.
    fn begin(&mut self, conn: usize, id: u32, mode: Mode) -> Result<(), Memory>
        requires { id ≡ self.old.last_id + 1 }
        ensures ok { OnOk result (self.new ≡ session_begun conn id mode self.old) }
        ensures err { OnErr result (self.new ≡ self.old) }
    {
        let panel = Panel::of_mode(self.alloc, mode, &self.rows)?;
        let change = begin_session(&mut self.rows, id, self.moment, mode)?;
        self.last_id = id;
        tell_all(&mut self.connections, self.panels.as_slice(), &change);
        let Some(connection) = self.connections.get_mut(conn) else {
            return Ok(());
        };
        connection.begin_session(id, panel);
        self.panels = panel_keys(&self.connections);
        Ok(())
    }

    /// Answers a line of a command session.
    #[inline(always)]
    fn command(&mut self, conn: usize, session: u32, command: &Result<Command, Code>) -> LineRecord
        requires session { IsSessionAt session conn self.old }
        requires row { is_there (session_device session) self.old.rows ≡ true }
        requires command { IfOk command.now (IsCommandOf self.old.buses) }
        requires fits { length (unsent_at conn self.old) + longest_answer (Commands session command.now) ≤ MOST_UNSENT }
        ensures core { self.new ≡ answered result.granted conn (Commands session command.now) self.old }
        ensures steps { steps_in result ≡ steps_answered result.granted (Commands session command.now) self.old }
        ensures counted { self.new.denied ≡ denied_by self.old.denied (result.granted ∷ []) }
    {
        match command {
            Ok(command) => self.obey(conn, session, command),
            Err(code) => {
                self.reply(conn, &Reply::Refused(*code));
                LineRecord::nothing()
            }
        }
    }

    /// Answers a command.
    #[inline(always)]
    fn obey(&mut self, conn: usize, session: u32, command: &Command) -> LineRecord
        requires session { IsSessionAt session conn self.old }
        requires row { is_there (session_device session) self.old.rows ≡ true }
        requires command { IsCommandOf self.old.buses command.now }
        requires fits { length (unsent_at conn self.old) + LONGEST_LINE ≤ MOST_UNSENT }
        ensures core { self.new ≡ answered result.granted conn (Commands session (Ok command.now)) self.old }
        ensures steps { steps_in result ≡ steps_answered result.granted (Commands session (Ok command.now)) self.old }
        ensures counted { self.new.denied ≡ denied_by self.old.denied (result.granted ∷ []) }
    {
        let moment = self.moment;
        // A command that could be read is a step, whatever its reply: refused memory (500) is a step without changes.
        let step = Step::Obeyed {
            session,
            moment,
            command: *command,
        };
        let Some(ends) = self.carry_out(conn, session, command) else {
            self.deny(conn);
            return LineRecord {
                granted: false,
                ..LineRecord::of(step)
            };
        };
        if !ends {
            return LineRecord::of(step);
        }
        self.end(conn, session);
        LineRecord {
            end: Some(Step::Ended { session, moment }),
            ..LineRecord::of(step)
        }
    }

    /// Carries out a command, tells every connection the changes, and appends the reply. Returns whether the command
    /// ends its session. Returns `None`, and changes nothing, if an allocation was refused.
    fn carry_out(&mut self, conn: usize, session: u32, command: &Command) -> Option<bool>
        requires row { is_there (session_device session) self.old.rows ≡ true }
        requires command { IsCommandOf self.old.buses command.now }
        requires fits { length (unsent_at conn self.old) + LONGEST_LINE ≤ MOST_UNSENT }
        ensures refused { IfNone result (self.new ≡ self.old) }
        ensures wants { IfNone result (wants_memory self.old.rows session self.old.moment command.now ≡ true) }
        ensures carried { OnSome result
            (self.new ≡ replied conn (effect self.old.rows session self.old.moment command.now).reply
            (carried (effect self.old.rows session self.old.moment command.now).updates self.old)) }
        ensures ends { IfSome result
            (λ ends. ends ≡ (effect self.old.rows session self.old.moment command.now).ends) }
    {
        obey_into(
            &mut self.rows,
            session,
            self.moment,
            command,
            &mut self.obeyed,
        );
        if is_denied(&self.obeyed.reply) {
            return None;
        }
        tell_each(
            &mut self.connections,
            self.panels.as_slice(),
            self.obeyed.changes.as_slice(),
        );
        let reply = self.obeyed.reply;
        let ends = self.obeyed.ends;
        self.reply(conn, &reply);
        Some(ends)
    }

    /// Ends a session by its own command: removes the locks, and then the session's row.
    fn end(&mut self, conn: usize, session: u32)
        requires { IsSessionAt session conn self.old }
        ensures { self.new ≡ freed_of session (changed_at conn (λ p. record p { ended = true }) self.old) }
    {
        let Some(connection) = self.connections.get_mut(conn) else {
            return;
        };
        connection.end();
        free_all(
            &mut self.rows,
            &mut self.connections,
            self.panels.as_slice(),
            session,
            self.moment,
        );
    }

    /// Appends a reply to the unsent bytes.
    fn reply(&mut self, conn: usize, reply: &Reply)
        requires well_formed { IsWellFormedReply reply.now }
        requires fits { length (unsent_at conn self.old) + longest reply.now ≤ MOST_UNSENT }
        ensures { self.new ≡ replied conn reply.now self.old }
    {
        let Some(connection) = self.connections.get_mut(conn) else {
            return;
        };
        connection.reply(self.moment, reply, &mut self.accepted);
    }

    /// Answers a line to which memory was refused.
    fn deny(&mut self, conn: usize)
        requires { length (unsent_at conn self.old) + LONGEST_SHORT_REPLY ≤ MOST_UNSENT }
        ensures { self.new ≡ replied conn (Refused C500) (one_denied self.old) }
    {
        self.count_denied();
        self.reply(conn, &Reply::Refused(Code::OUT_OF_RESOURCES));
    }

    /// Counts another refused allocation.
    pub(super) fn count_denied(&mut self)
        ensures { self.new ≡ one_denied self.old }
    {
        self.denied = self.denied.saturating_add(1);
    }
}

/// Returns whether the reply says that memory was refused.
fn is_denied(reply: &Reply) -> bool
    ensures denied { result ≡ true → reply.now ≡ Refused C500 }
    ensures given { result ≡ false → reply.now ≢ Refused C500 }
{
    matches!(reply, Reply::Refused(Code::C500))
}

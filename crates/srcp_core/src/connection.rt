//! A connection.
ghost use Rattle.std.specs.Prelude.{◌≡◌, ◌≤◌, ◌+◌, ◌++◌, ◌⊎◌, [], length, drop, false, true, ◌&&◌, ◌||◌, IfOk, Some};
ghost use Rattle.std.specs.Prelude.{option_map, vec_capacity};
ghost use Rattle.srcp_rules.specs.State.{shown_rows};
ghost use Rattle.std.specs.List.{AllByRecursion};
ghost use Rattle.srcp_info.specs.Line.{reply_line};
ghost use Rattle.srcp_info.specs.WellFormed.{IsWellFormed, IsWellFormedReply, IsWellFormedShown};
ghost use Rattle.srcp_feed.specs.Feed.{next_of, after_next};
ghost use Rattle.srcp_text.specs.Marks.{Line, TooLong};
ghost use Rattle.srcp_core.specs.Connection.{is_nil, line_of};
ghost use Rattle.srcp_core.specs.Machine.{queue_of, fresh_place, with_unsent, without_sent, begun_place, panel_for};
ghost use Rattle.srcp_core.specs.Machine.{feed_in, has_overrun, is_panel, told_place, filled, item_from};
ghost use Rattle.srcp_core.specs.Machine.{request_of, next_request, live_session_of, longest, slack_in};

use crate::accepted::Accepted;
use crate::handshake::{Greeting, greet};
use crate::limits::MOST_UNSENT;
use crate::line::Request;
use srcp_feed::{ChangeLine, InfoFeed, Next, Told};
use srcp_info::{
    Code, InfoLine, LONGEST_LINE, MOST_WAITING, Mode, Reply, write_reply, write_shown,
};
use srcp_rules::{Layout, Memory, Rows, parse_command};
use srcp_text::{Fed, LineReader};
use std::alloc::Global;
use std::marker::Model;

/// The welcome line of SRCP 0.8, with this server's name and version.
const WELCOME: &[u8] = b"srcp_server 1.0; SRCP 0.8.4; SRCPOTHER 0.8.3\n";

/// Says which changes a connection is told.
#[derive(Drop)]
pub(crate) enum Panel {
    /// None: there is no information session.
    Absent,
    /// Those of the information session's feed.
    Listening(InfoFeed),
    /// None: the change queue of the information session overflowed.
    Overran,
}

impl Panel {
    /// Allocates a feed for a new information session. A command session needs none.
    pub(crate) fn of_mode<R: Rows>(alloc: Global, mode: Mode, rows: &R) -> Result<Panel, Memory>
        ensures { IfOk result (λ panel. panel ≡ panel_for mode) }
    {
        match mode {
            Mode::Command => Ok(Panel::Absent),
            Mode::Info => Ok(Panel::Listening(InfoFeed::begin(alloc, rows)?)),
        }
    }
}

/// Holds the state of a connection.
#[derive(Drop)]
pub struct Connection {
    reader: LineReader,
    mode: Mode,
    session: u32,
    ended: bool,
    // The line of an information session, or else the replies: `line` or `reply` is empty. The last `left` bytes are
    // unsent.
    line: InfoLine,
    reply: Vec<u8>,
    left: usize,
    panel: Panel,
}

impl Model for Connection {
    ghost use Rattle.std.specs.Prelude.{◌≡◌, ◌≤◌, ◌-◌, ◌⊎◌, ◌++◌, [], length, drop, vec_capacity};
    ghost use Rattle.std.specs.List.{AllByRecursion};
    ghost use Rattle.srcp_info.specs.WellFormed.{IsWellFormed};
    ghost use Rattle.srcp_core.specs.Held.{Place};
    ghost use Rattle.srcp_core.specs.declared.limits.TheConstants.{MOST_UNSENT};
    ghost use Rattle.srcp_core.specs.Machine.{queue_of};

    ghost Value = { Place };

    ghost view = { λ c.
        record {
          reader = c.reader;
          mode = c.mode;
          session = c.session;
          ended = c.ended;
          unsent = drop (length (c.line.items ++ c.reply.items) - c.left) (c.line.items ++ c.reply.items);
          panel = c.panel;
        } };

    ghost invariant = { λ c. ((c.line.items ≡ []) ⊎ (c.reply.items ≡ []))
        × (c.left ≤ length (c.line.items ++ c.reply.items)) × (length (c.line.items ++ c.reply.items) ≤ MOST_UNSENT)
        × (MOST_UNSENT ≤ vec_capacity c.reply) × AllByRecursion IsWellFormed (queue_of c.panel) };
}

impl Connection {
    /// Allocates the whole reply buffer, and puts in the welcome line.
    pub(crate) fn new(alloc: Global) -> Result<Connection, Memory>
        ensures { IfOk result (λ c. c ≡ fresh_place) }
    {
        let mut reply = Vec::with_capacity(alloc, MOST_UNSENT)?;
        reply.extend_from_slice(WELCOME)?;
        Ok(Connection {
            reader: LineReader::new(),
            mode: Mode::Command,
            session: 0,
            ended: false,
            line: InfoLine::new(),
            reply,
            left: WELCOME.len(),
            panel: Panel::Absent,
        })
    }

    /// Returns whether no more bytes are accepted: the session ended, or overran.
    pub(crate) fn is_over(&self) -> bool
        ensures { result ≡ (self.now.ended || has_overrun self.now.panel) }
    {
        self.ended || self.overran()
    }

    /// Returns whether the change queue overflowed.
    pub(crate) fn overran(&self) -> bool
        ensures { result ≡ has_overrun self.now.panel }
    {
        matches!(self.panel, Panel::Overran)
    }

    /// Returns whether the session ended by its own command and all replies are sent.
    pub(crate) fn is_done(&self) -> bool
        ensures { result ≡ (self.now.ended && is_nil self.now.unsent) }
    {
        self.ended && self.is_sent()
    }

    /// Returns whether no bytes are unsent.
    pub(crate) fn is_sent(&self) -> bool
        ensures { result ≡ is_nil self.now.unsent }
    {
        self.left == 0
    }

    /// Returns the session, or `None` if no session began or the session ended by its own command.
    pub(crate) fn live_session(&self) -> Option<u32>
        ensures { result ≡ live_session_of (Some self.now) }
    {
        if self.session == 0 || self.ended {
            return None;
        }
        Some(self.session)
    }

    /// Returns the unsent bytes.
    pub(crate) fn unsent(&self) -> &[u8]
        ensures bytes { result.now ≡ self.now.unsent }
        ensures most { length result.now ≤ MOST_UNSENT }
    {
        let line = self.line.as_slice();
        if line.is_empty() {
            &self.reply[self.reply.len() - self.left..]
        } else {
            &line[line.len() - self.left..]
        }
    }

    /// Appends a line to the unsent bytes.
    pub(crate) fn put(&mut self, line: &[u8])
        requires { length self.old.unsent + length line.now ≤ MOST_UNSENT }
        ensures { self.new ≡ with_unsent line.now self.old }
    {
        let start = self.line.len() + self.reply.len() - self.left;
        compact(&mut self.line, &mut self.reply, start);
        self.reply.extend_from_slice(line).unwrap();
        self.left += line.len();
    }

    /// Appends a reply to the unsent bytes, stamped with the moment. `accepted` keeps the line of `200 OK`.
    pub(crate) fn reply(&mut self, moment: u64, reply: &Reply, accepted: &mut Accepted)
        requires well_formed { IsWellFormedReply reply.now }
        requires fits { length self.old.unsent + longest reply.now ≤ MOST_UNSENT }
        ensures { self.new ≡ with_unsent (reply_line moment reply.now) self.old }
    {
        if let Reply::Accepted = reply {
            if accepted.moment() != moment {
                *accepted = Accepted::at(moment);
            }
            self.put(accepted.line());
            return;
        }
        let mut line = InfoLine::new();
        write_reply(moment, reply, &mut line);
        self.put(line.as_slice());
    }

    /// Drops the first `count` unsent bytes, since the peer took them.
    pub(crate) fn consume(&mut self, count: usize)
        requires { count ≤ length self.old.unsent }
        ensures { self.new ≡ without_sent count self.old }
    {
        self.left -= count;
    }

    /// Queues a change for an information session. With a full queue the session overruns: the waiting changes, the
    /// listing and the unsent bytes are dropped.
    pub(crate) fn tell(&mut self, change: &ChangeLine<'_>)
        requires { IsWellFormed change.now }
        ensures { self.new ≡ told_place change.now self.old }
    {
        let Panel::Listening(feed) = &mut self.panel else {
            return;
        };
        if let Told::Overrun = feed.tell_line(change) {
            self.panel = Panel::Overran;
            self.line = InfoLine::new();
            self.reply.clear();
            self.left = 0;
        }
    }

    /// Reads a piece on from `start`. Returns the offset after the next line, and writes to `request` what the line
    /// asks for. A command is large: a result would copy the command.
    #[inline(always)]
    pub(crate) fn next_line(
        &mut self,
        piece: &[u8],
        start: usize,
        layout: &Layout,
        request: &mut Request,
    ) -> Option<usize>
        requires { start ≤ length piece.now }
        ensures { (option_map (λ stop. (stop, request.new)) result, self.new)
            ≡ next_request layout.now piece.now start self.old }
    {
        match self.reader.feed(piece, start) {
            Fed::More => None,
            Fed::Line { stop } => {
                self.interpret(layout, request);
                Some(stop)
            }
            Fed::TooLong { stop } => {
                *request = self.request_too_long();
                Some(stop)
            }
        }
    }

    /// Writes what the found line asks for.
    fn interpret(&self, layout: &Layout, request: &mut Request)
        ensures { request.new ≡ request_of layout.now self.now (Line self.now.reader.line) }
    {
        if self.is_panel() || self.ended {
            *request = Request::Dropped;
            return;
        }
        let line = self.reader.line();
        if self.session == 0 {
            *request = Request::Greets {
                mode: self.mode,
                greeting: greet(line),
            };
        } else {
            *request = Request::Commands {
                session: self.session,
                command: parse_command(line, layout),
            };
        }
    }

    /// Returns what a line of more than 1,000 bytes asks for: a refusal.
    fn request_too_long(&self) -> Request
        ensures { result ≡ request_of [] self.now TooLong }
    {
        if self.is_panel() || self.ended {
            return Request::Dropped;
        }
        if self.session == 0 {
            Request::Greets {
                mode: self.mode,
                greeting: Greeting::Refuses(Code::TOO_LONG),
            }
        } else {
            Request::Commands {
                session: self.session,
                command: Err(Code::TOO_LONG),
            }
        }
    }

    /// Returns whether there is an information session.
    pub(crate) fn is_panel(&self) -> bool
        ensures { result ≡ is_panel self.now.panel }
    {
        !matches!(self.panel, Panel::Absent)
    }

    /// Returns how many more changes the information session can queue, or `None` without such a session. Returns 256
    /// after an overrun.
    pub(crate) fn slack(&self) -> Option<usize>
        ensures { result ≡ slack_in self.now.panel }
    {
        match &self.panel {
            Panel::Absent => None,
            Panel::Listening(feed) => Some(MOST_WAITING - feed.waiting()),
            // Not `None`: the door has to hear that a panel is there that is to be closed.
            Panel::Overran => Some(MOST_WAITING),
        }
    }

    /// Sets the mode of the session to come.
    pub(crate) fn set_mode(&mut self, mode: Mode)
        ensures { self.new ≡ record self.old { mode = mode } }
    {
        self.mode = mode;
    }

    /// Begins the session under the id.
    pub(crate) fn begin_session(&mut self, id: u32, panel: Panel)
        requires { queue_of panel ≡ [] }
        ensures { self.new ≡ begun_place id panel self.old }
    {
        self.session = id;
        self.panel = panel;
    }

    /// Ends the session by its own command.
    pub(crate) fn end(&mut self)
        ensures { self.new ≡ record self.old { ended = true } }
    {
        self.ended = true;
    }

    /// Appends the next line of an information session, if nothing is unsent. Returns false if nothing is unsent then.
    #[inline(always)]
    pub(crate) fn fill<R: Rows>(&mut self, rows: &R) -> bool
        requires { AllByRecursion IsWellFormedShown (shown_rows (R.state rows.now)) }
        ensures place { self.new ≡ filled (shown_rows (R.state rows.now)) self.old }
        ensures none { result ≡ false → self.new.unsent ≡ [] }
        ensures most { self.old.unsent ≡ [] → length self.new.unsent ≤ LONGEST_LINE }
    {
        if !self.is_sent() {
            return true;
        }
        let Panel::Listening(feed) = &mut self.panel else {
            return false;
        };
        self.reply.clear();
        let given = give(feed, rows, &mut self.line);
        self.left = self.line.len();
        given
    }

    /// Returns what `fill` would append, or `None` for nothing.
    pub(crate) fn item<R: Rows>(&self, rows: &R) -> Option<Next>
        ensures { result ≡ item_from (shown_rows (R.state rows.now)) self.now.unsent (feed_in self.now.panel) }
    {
        if !self.is_sent() {
            return None;
        }
        match &self.panel {
            Panel::Listening(feed) => Some(feed.peek(rows)),
            Panel::Absent | Panel::Overran => None,
        }
    }
}

/// Writes the next line of the session. Returns false, and writes no bytes, if nothing is left.
#[inline(always)]
fn give<R: Rows>(feed: &mut InfoFeed, rows: &R, line: &mut InfoLine) -> bool
    requires well_formed { AllByRecursion IsWellFormed feed.old.queue }
    requires shown { AllByRecursion IsWellFormedShown (shown_rows (R.state rows.now)) }
    ensures feed { feed.new ≡ after_next (shown_rows (R.state rows.now)) feed.old }
    ensures line { line.new.items ≡ line_of (next_of (shown_rows (R.state rows.now)) feed.old) }
    ensures none { result ≡ false → line.new.items ≡ [] }
    ensures most { length line.new.items ≤ LONGEST_LINE }
{
    if let Some(first) = feed.first() {
        first.put_into(line);
        feed.drop_first();
        return true;
    }
    // A new line is a few stores of zeros. `clear` would write the zeros byte by byte.
    *line = InfoLine::new();
    let Some(row) = feed.list(rows) else {
        return false;
    };
    write_shown(&row.shown, line);
    true
}

/// Moves the unsent bytes, from `start` on, to the beginning of the reply buffer.
fn compact(line: &mut InfoLine, reply: &mut Vec<u8>, start: usize)
    requires one { (line.old.items ≡ []) ⊎ (reply.old.items ≡ []) }
    requires within { start ≤ length (line.old.items ++ reply.old.items) }
    requires capacity { MOST_UNSENT ≤ vec_capacity reply.old }
    ensures line { line.new.items ≡ [] }
    ensures items { reply.new.items ≡ drop start (line.old.items ++ reply.old.items) }
    ensures capacity { MOST_UNSENT ≤ vec_capacity reply.new }
{
    if !line.is_empty() {
        reply.extend_from_slice(&line.as_slice()[start..]).unwrap();
        *line = InfoLine::new();
        return;
    }
    if start == 0 {
        return;
    }
    let end = reply.len();
    reply.copy_within(start..end, 0);
    reply.truncate(end - start);
}

//! Bytes that come in: the lines ended by them, and what each line asks for.
ghost use Rattle.std.specs.Prelude.{◌≡◌, ◌≤◌, [], length, Some, None, IfNone, IfSome, OnOk, OnErr, MatchResult};
ghost use Rattle.std.specs.Prelude.{option_map};
ghost use Rattle.srcp_core.specs.Held.{IsSound};
ghost use Rattle.srcp_core.specs.Machine.{unsent_at, bytes_fault, next_request_at, IsReceived, AnswersFit};
ghost use Rattle.srcp_core.specs.Machine.{IsLineAnswered};

use super::Core;
use crate::line::{LineRecord, Request};
use crate::record::CoreFault;
use srcp_info::MOST_IN_PIECE;
use srcp_rules::Rows;

impl<'a, R: Rows> Core<'a, R> {
    /// Reads new bytes of a connection, and answers each line that ends in them. Laws: `accepted`, `refused`, `bytes`
    /// and `takes` of `laws::calls_follow`.
    ///
    /// # Errors
    /// Returns the cause of `bytes_fault`, and then nothing changes.
    pub fn receive(&mut self, conn: usize, piece: &[u8]) -> Result<(), CoreFault>
        ensures fault { MatchResult result (λ _. bytes_fault conn piece.now self.old ≡ None)
            (λ fault. bytes_fault conn piece.now self.old ≡ Some fault) }
        ensures refused { OnErr result (self.new ≡ self.old) }
        ensures received { OnOk result (IsReceived conn piece.now self.old self.new) }
    {
        if let Some(fault) = self.bytes_fault(conn, piece) {
            return Err(fault);
        }
        self.answer_lines(conn, piece);
        Ok(())
    }

    /// Returns the first cause to refuse the bytes, or `None` if there is none.
    pub(crate) fn bytes_fault(&self, conn: usize, piece: &[u8]) -> Option<CoreFault>
        ensures { result ≡ bytes_fault conn piece.now self.now }
    {
        let Some(connection) = self.connections.get(conn) else {
            return Some(CoreFault::NoSuch);
        };
        if connection.is_over() {
            return Some(CoreFault::Closing);
        }
        // The bytes of a panel are like all others: once nothing is unsent they are accepted and dropped, even while
        // the listing goes on.
        if !connection.is_sent() {
            return Some(CoreFault::Busy);
        }
        if piece.len() > MOST_IN_PIECE {
            return Some(CoreFault::PieceTooLong);
        }
        None
    }

    /// Answers each line that ends in the piece.
    fn answer_lines(&mut self, conn: usize, piece: &[u8])
        requires idle { unsent_at conn self.old ≡ [] }
        requires few { length piece.now ≤ MOST_IN_PIECE }
        ensures { IsReceived conn piece.now self.old self.new }
    {
        let mut start = 0;
        while let Some((stop, _)) = self.answer_line(conn, piece, start) {
            start = stop;
        }
    }

    /// Reads the piece on from `start` and answers the next line. Returns the offset after the line, and the record of
    /// the line. Inlined with all callees, since then no record is made unless a run is recorded.
    #[inline(always)]
    pub(crate) fn answer_line(
        &mut self,
        conn: usize,
        piece: &[u8],
        start: usize,
    ) -> Option<(usize, LineRecord)>
        requires few { length piece.now ≤ MOST_IN_PIECE }
        requires fits { AnswersFit conn piece.now start self.old }
        ensures none { IfNone result ((None, self.new) ≡ next_request_at conn piece.now start self.old) }
        ensures line { IfSome result (λ r. IsLineAnswered conn piece.now start r.0 r.1 self.old self.new) }
    {
        let mut request = Request::Dropped;
        let stop = self.next_line(conn, piece, start, &mut request)?;
        Some((stop, self.answer(conn, &request)))
    }

    /// Reads the piece on from `start`. Returns the offset after the next line, and writes what the line asks for.
    #[inline(always)]
    fn next_line(
        &mut self,
        conn: usize,
        piece: &[u8],
        start: usize,
        request: &mut Request,
    ) -> Option<usize>
        requires { start ≤ length piece.now }
        ensures found { (option_map (λ stop. (stop, request.new)) result, self.new)
            ≡ next_request_at conn piece.now start self.old }
        ensures sound { IsSound self.new }
    {
        let connection = self.connections.get_mut(conn)?;
        connection.next_line(piece, start, self.layout, request)
    }
}

//! Bytes that go out.
ghost use Rattle.std.specs.Prelude.{◌≡◌, ◌≤◌, [], false, length, None, IsErr, IsSome, IfOk, IfErr, MatchResult, ◌↔◌};
ghost use Rattle.srcp_core.specs.Held.{at};
ghost use Rattle.srcp_core.specs.Machine.{changed_at, without_sent, unsent_at, let_out, item_at};

use super::Core;
use crate::record::CoreFault;
use srcp_feed::Next;
use srcp_info::LONGEST_LINE;
use srcp_rules::Rows;

impl<'a, R: Rows> Core<'a, R> {
    ghost use Rattle.std.specs.Borrow.{sem};
    ghost use Rattle.srcp_core.specs.Lending.{EndsAs};

    /// Lends the unsent bytes of a connection. If an information session has none, the next line is appended first.
    /// Laws: `lent`, `lends`, `lends_none`, `lends_line` and `there` of `laws::calls_follow`.
    ///
    /// # Errors
    /// Returns `NoSuch` if there is no such connection, and then nothing changes.
    #[inline(always)]
    pub fn outgoing(&mut self, conn: usize) -> Result<&[u8], CoreFault>
        ensures* ends { sem 𝓛 (EndsAs R.row R.Rows self.entry (let_out conn self.old)) }
        ensures absent { MatchResult result (λ _. IsSome (at self.old conn))
            (λ fault. (fault ≡ CoreFault.NoSuch) × (at self.old conn ≡ None)) }
        ensures bytes { IfOk result (λ bytes. bytes.now ≡ unsent_at conn (let_out conn self.old)) }
        ensures one_line { unsent_at conn self.old ≡ [] → IfOk result (λ bytes. length bytes.now ≤ LONGEST_LINE) }
    {
        if !self.fill(conn)? {
            return Ok(&[]);
        }
        Ok(self.connections[conn].unsent())
    }

    /// Appends the next line of an information session, if nothing is unsent. Returns false if nothing is unsent then.
    #[inline(always)]
    pub(crate) fn fill(&mut self, conn: usize) -> Result<bool, CoreFault>
        ensures absent { IsErr result ↔ (at self.old conn ≡ None) }
        ensures fault { IfErr result (λ fault. fault ≡ CoreFault.NoSuch) }
        ensures core { self.new ≡ let_out conn self.old }
        ensures none { IfOk result (λ some. some ≡ false → unsent_at conn self.new ≡ []) }
        ensures most { unsent_at conn self.old ≡ [] → length (unsent_at conn self.new) ≤ LONGEST_LINE }
    {
        let Some(connection) = self.connections.get_mut(conn) else {
            return Err(CoreFault::NoSuch);
        };
        Ok(connection.fill(&self.rows))
    }

    /// Lends the unsent bytes of an open connection.
    #[inline(always)]
    pub(crate) fn unsent(&self, conn: usize) -> &[u8]
        requires { IsSome (at self.now conn) }
        ensures { result.now ≡ unsent_at conn self.now }
    {
        self.connections[conn].unsent()
    }

    /// Returns what `fill` would append, if anything.
    pub(crate) fn item(&self, conn: usize) -> Option<Next>
        ensures { result ≡ item_at conn self.now }
    {
        self.connections.get(conn)?.item(&self.rows)
    }

    /// Drops the first `count` unsent bytes of a connection. Laws: `sent`, `none_sent` and `lent_and_sent` of
    /// `laws::calls_follow`.
    pub fn sent(&mut self, conn: usize, count: usize)
        requires open { IsSome (at self.old conn) }
        requires unsent { count ≤ length (unsent_at conn self.old) }
        ensures { self.new ≡ changed_at conn (without_sent count) self.old }
    {
        self.connections[conn].consume(count);
    }
}

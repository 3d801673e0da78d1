//! A registry for tests, kept by both kinds of keepers, and the answers to sessions.

use crate::told::{push_begun, push_due, push_end, push_line, push_rows};
use srcp_info::Row;
use srcp_rules::{Bus, Flat, Layout, Nested, Rows};
use std::alloc::Global;
use std::marker::Model;
use std::test::Fail;

/// Makes a bus with power, 10239 locomotives, 2044 accessories of two ports and 2 feedback ports.
pub(crate) fn bus(number: u8) -> Bus {
    Bus {
        number,
        power: true,
        gl_max: 10239,
        ga_max: 2044,
        ga_ports: 2,
        fb_ports: 2,
    }
}

/// Returns what both keepers answered.
fn agreed(said: Vec<u8>, other: &[u8]) -> Result<Vec<u8>, Fail> {
    if said.as_slice() == other {
        Ok(said)
    } else {
        Err(Fail::from("one keeper tells another thing than the other"))
    }
}

/// Holds a registry of a layout, kept twice.
#[derive(Drop)]
pub(crate) struct Served {
    layout: Layout,
    flat: Flat,
    nested: Nested,
}

impl Model for Served {
    ghost use Rattle.std.specs.Prelude.{◌≡◌};
    ghost use Rattle.srcp_rules.specs.Rows.{Kept};

    ghost Value = { Kept };

    ghost use Rattle.srcp_grammar.specs.Layout.{IsLayout};
    ghost use Rattle.srcp_rules.specs.State.{IsWhole};

    ghost view = { λ s. s.flat };

    ghost invariant = { λ s. IsLayout s.layout × ((s.flat.buses ≡ s.layout) × IsWhole s.flat.buses s.flat.state)
        × ((s.nested.buses ≡ s.layout) × IsWhole s.nested.buses s.nested.state) };
}

impl Served {
    /// Makes the first registry of these buses.
    pub(crate) fn open(alloc: Global, buses: &[Bus]) -> Result<Served, Fail> {
        let mut layout = Layout::new(alloc);
        for bus in buses {
            layout.add(*bus)?;
        }
        let flat = Flat::empty(alloc, &layout)?;
        let nested = Nested::empty(alloc, &layout)?;
        Ok(Served {
            layout,
            flat,
            nested,
        })
    }

    /// Returns the line of the change at the beginning of a command session.
    fn begin(&mut self, alloc: Global, session: u32, moment: u64) -> Result<Vec<u8>, Fail> {
        let mut said = Vec::new(alloc);
        push_begun(&mut said, &mut self.flat, session, moment)?;
        let mut other = Vec::new(alloc);
        push_begun(&mut other, &mut self.nested, session, moment)?;
        agreed(said, &other)
    }

    /// Returns the reply to a session's line, and the line of each change made. A last line follows if the session is
    /// to end.
    fn say(
        &mut self,
        alloc: Global,
        session: u32,
        moment: u64,
        line: &[u8],
    ) -> Result<Vec<u8>, Fail> {
        let mut said = Vec::new(alloc);
        push_line(
            &mut said,
            &self.layout,
            &mut self.flat,
            session,
            moment,
            line,
        )?;
        let mut other = Vec::new(alloc);
        push_line(
            &mut other,
            &self.layout,
            &mut self.nested,
            session,
            moment,
            line,
        )?;
        agreed(said, &other)
    }

    /// Returns the line of each change at the moment.
    fn at(&mut self, alloc: Global, moment: u64) -> Result<Vec<u8>, Fail> {
        let mut said = Vec::new(alloc);
        push_due(&mut said, &mut self.flat, moment)?;
        let mut other = Vec::new(alloc);
        push_due(&mut other, &mut self.nested, moment)?;
        agreed(said, &other)
    }

    /// Returns the line of each change at the end of a session.
    fn end(&mut self, alloc: Global, session: u32, moment: u64) -> Result<Vec<u8>, Fail> {
        let mut said = Vec::new(alloc);
        push_end(&mut said, &mut self.flat, session, moment)?;
        let mut other = Vec::new(alloc);
        push_end(&mut other, &mut self.nested, session, moment)?;
        agreed(said, &other)
    }

    /// Returns the lines that follow a session's line at a moment. `go` begins the session, `end` ends the session, and
    /// `now` is the moment alone.
    fn tell(
        &mut self,
        alloc: Global,
        session: u32,
        moment: u64,
        line: &str,
    ) -> Result<Vec<u8>, Fail> {
        match line {
            "go" => self.begin(alloc, session, moment),
            "end" => self.end(alloc, session, moment),
            "now" => self.at(alloc, moment),
            _ => self.say(alloc, session, moment, line.as_bytes()),
        }
    }

    /// Carries out the moment of a line, and then the line itself.
    pub(crate) fn take(&mut self, alloc: Global, line: &(u32, u64, &str)) -> Result<(), Fail> {
        let (session, moment, text) = *line;
        let _ = self.at(alloc, moment)?;
        let _ = self.tell(alloc, session, moment, text)?;
        Ok(())
    }

    /// Appends all rows of each keeper, walked from the start to the end.
    pub(crate) fn walk(&self, flat: &mut Vec<Row>, nested: &mut Vec<Row>) -> Result<(), Fail> {
        push_rows(flat, &self.flat)?;
        push_rows(nested, &self.nested)
    }
}

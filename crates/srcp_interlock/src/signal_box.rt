//! A signal box.

ghost use Rattle.std.specs.Prelude.{◌≡◌, IfOk, map, option_map};
ghost use Rattle.srcp_interlock.specs.Boxes.{TakesIn, box_after, box_of, box_sends, counted};
ghost use Rattle.srcp_routes.specs.declared.route.Route.{Route as RouteRecord};

use crate::hearing::hear;
use crate::orders::order_line;
use srcp_routes::{Event, Interlocking, Route};
use srcp_text::LineBuf;
use std::alloc::{AllocError, Global};
use std::marker::Model;
use std::vec::Vec;

/// Sets the routes of a plan and gives them back, by the lines sent to the box. These are the lines of a panel, and the
/// replies of the command session that sends the box's lines.
///
/// ```
/// let mut signal_box = SignalBox::new(alloc, 9, routes)?;
/// if let Some(line) = signal_box.step(b"1.000 100 INFO 9 GA 3 1 1") {
///     command_session.write(&line)?;
/// }
/// ```
#[derive(Drop)]
pub struct SignalBox {
    own: u8,
    numbers: Vec<u32>,
    has_begun: bool,
    interlocking: Interlocking,
}

impl Model for SignalBox {
    ghost use Rattle.srcp_interlock.specs.Boxes.{Box};

    ghost Value = { Box };

    ghost view = { λ b. record {
      own = b.own;
      numbers = b.numbers.items;
      begun = b.has_begun;
      table = b.interlocking;
    } };
}

/// Returns the number of each route.
fn numbers_of(alloc: Global, routes: &[Route]) -> Result<Vec<u32>, AllocError>
    ensures { IfOk result (λ numbers. numbers.items ≡ map (λ (route : RouteRecord). route.number) routes.now) }
{
    routes.iter().map(|route| route.number).collect(alloc)
}

/// Returns what counts of the event of a line: nothing, before a command session has begun.
fn counted(has_begun: bool, event: Option<Event>) -> Option<Event>
    ensures { result ≡ counted has_begun event }
{
    match event {
        Some(Event::Lost) => Some(Event::Lost),
        other if has_begun => other,
        _ => None,
    }
}

impl SignalBox {
    /// Makes the box of these routes, which first has to be told that a command session has begun. `own` is the bus of
    /// the routes. Accessory n of this bus asks for route n (port 1) and gives route n back (port 0). Sensor n tells
    /// whether route n is set. No other call takes memory.
    ///
    /// # Errors
    /// Returns an error if memory is refused.
    pub fn new(alloc: Global, own: u8, routes: Vec<Route>) -> Result<SignalBox, AllocError>
        ensures { IfOk result (λ signal_box. signal_box ≡ box_of own routes.items) }
    {
        let numbers = numbers_of(alloc, &routes)?;
        let interlocking = Interlocking::new(alloc, routes)?;
        Ok(SignalBox {
            own,
            numbers,
            has_begun: false,
            interlocking,
        })
    }

    /// Takes in a line, without its LF, and returns the line to send then, with its LF, if any. A line that tells of no
    /// event changes nothing. Neither does any line before the first one that tells that a command session has begun.
    pub fn step(&mut self, line: &[u8]) -> Option<LineBuf>
        ensures { TakesIn self.old line.now self.new (option_map (λ line. line.items) result) }
    {
        let event = hear(self.own, &self.numbers, line);
        self.take(event)
    }

    /// Takes in what a line told, and returns the line to send then, if any.
    fn take(&mut self, event: Option<Event>) -> Option<LineBuf>
        ensures after { self.new ≡ box_after self.old event }
        ensures sends { option_map (λ line. line.items) result ≡ box_sends self.old event }
    {
        let event = counted(self.has_begun, event)?;
        self.has_begun = true;
        let order = self.interlocking.step(event)?;
        Some(order_line(self.own, order))
    }
}

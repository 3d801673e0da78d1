//! All routes of a plan: which route sends an order next, and what each event makes of the routes.

ghost use Rattle.std.specs.Prelude.{◌≡◌, ◌<◌, IfOk, IfSome, length};
ghost use Rattle.srcp_routes.specs.Plan.{start};
ghost use Rattle.srcp_routes.specs.Steps.{due, followed, given, heard, may_begin, next, order_at};
ghost use Rattle.srcp_routes.specs.Steps.{ready_at, ready_in, step, told};
ghost use Rattle.srcp_routes.specs.declared.interlocking.Event.TheVariants.{Ask, Lost};

mod replying;

use crate::conflict::{Sensed, are_free, is_occupied, sense, sensors_of};
use crate::delay::{count_second, delay_sent, is_kept};
use crate::stage::{fall, lost, order_of, ready, retried};
use crate::table::{
    follow, give_freed, is_clear, lost_stages, stage_at, train_at, train_sent, wanted_at,
};
use crate::train::{Train, has_entered};
use crate::{Device, Occupancy, Order, Route, Stage};
use std::alloc::{AllocError, Global};
use std::marker::Model;
use std::vec::Vec;

/// Names an event of an interlocking. A route is named by its place in the plan.
#[derive(Clone, Copy, Debug, PartialEq, Eq)]
pub enum Event {
    /// A route is asked for.
    Ask(usize),
    /// A route is given back.
    Give(usize),
    /// A sensor is told to be free or occupied, or is not known any more.
    Told(Device, Occupancy),
    /// A second has passed.
    Second,
    /// The order that was sent is accepted, or refused.
    Reply(bool),
    /// A command session has begun: the locks of the session before are gone.
    Lost,
}

/// Sets routes and gives routes back: one order at a time, each after the reply to the order before.
///
/// ```
/// let mut interlocking = Interlocking::new(alloc, routes)?;
/// for event in [Event::Lost, Event::Ask(0)] {
///     let mut order = interlocking.step(event);
///     while let Some(sent) = order {
///         order = interlocking.step(Event::Reply(is_accepted(sent)));
///     }
/// }
/// ```
#[derive(Drop)]
pub struct Interlocking {
    routes: Vec<Route>,
    stages: Vec<Stage>,
    wanted: Vec<bool>,
    again: Vec<bool>,
    trains: Vec<Option<Train>>,
    delays: Vec<u32>,
    sensors: Vec<Sensed>,
    waiting: Option<usize>,
}

impl Model for Interlocking {
    ghost use Rattle.std.specs.Prelude.{◌≡◌, ◌<◌, length};
    ghost use Rattle.std.specs.Option.{ForSome};
    ghost use Rattle.srcp_routes.specs.Plan.{Table};

    ghost Value = { Table };

    ghost view = { λ t. record {
      routes = t.routes.items;
      stages = t.stages.items;
      wanted = t.wanted.items;
      again = t.again.items;
      trains = t.trains.items;
      delays = t.delays.items;
      sensors = t.sensors.items;
      waiting = t.waiting;
    } };

    ghost invariant = { λ t.
        (length t.stages.items ≡ length t.routes.items) × (length t.wanted.items ≡ length t.routes.items)
        × (length t.again.items ≡ length t.routes.items) × (length t.trains.items ≡ length t.routes.items)
        × (length t.delays.items ≡ length t.routes.items) };
}

impl Interlocking {
    /// Makes the interlocking of a plan, which first waits for the event that a command session has begun. No other
    /// call takes memory.
    ///
    /// # Errors
    /// Returns an error if memory is refused.
    pub fn new(alloc: Global, routes: Vec<Route>) -> Result<Interlocking, AllocError>
        ensures { IfOk result (λ table. table ≡ start routes.items) }
    {
        let stages = lost_stages(alloc, &routes)?;
        let wanted = vec![in alloc; false; routes.len()]?;
        let again = vec![in alloc; false; routes.len()]?;
        let trains = vec![in alloc; None; routes.len()]?;
        let delays = vec![in alloc; 0; routes.len()]?;
        let sensors = sensors_of(alloc, &routes)?;
        Ok(Interlocking {
            routes,
            stages,
            wanted,
            again,
            trains,
            delays,
            sensors,
            waiting: None,
        })
    }

    /// Returns whether the route at a place may begin.
    fn may_begin(&self, n: usize, is_free: bool) -> bool
        ensures { result ≡ may_begin self.now n is_free }
    {
        stage_at(&self.stages, n).is_idle()
            && wanted_at(&self.wanted, n)
            && is_free
            && is_clear(&self.routes, &self.stages, n)
    }

    /// Returns the stage whose order this route, which stands at a place, may send next.
    fn ready_in(&self, n: usize, route: &Route) -> Stage
        ensures { result ≡ ready_in self.now n route.now }
    {
        let is_free = are_free(&self.sensors, &route.blocks);
        let begins = self.may_begin(n, is_free);
        let stage = stage_at(&self.stages, n);
        let next = ready(route, wanted_at(&self.wanted, n), is_free, begins, stage);
        fall(route, has_entered(train_at(&self.trains, n)), next)
    }

    /// Returns the stage whose order the route at a place may send next.
    fn ready_at(&self, n: usize) -> Stage
        ensures { result ≡ ready_at self.now n }
    {
        match self.routes.get(n) {
            Some(route) => self.ready_in(n, route),
            None => Stage::Idle,
        }
    }

    /// Returns the order that the route at a place may send next, if any.
    fn order_at(&self, n: usize) -> Option<Order>
        ensures { result ≡ order_at self.now n }
    {
        if is_kept(&self.stages, &self.delays, n) {
            return None;
        }
        order_of(self.routes.get(n)?, self.ready_at(n))
    }

    /// Returns the place of the first route that may send an order, among the first `count` places, if any.
    fn due(&self) -> Option<usize>
        ensures first { result ≡ due self.now }
        ensures below { IfSome result (λ n. n < length self.now.routes) }
    {
        for n in 0..self.routes.len() {
            if self.order_at(n).is_some() {
                return Some(n);
            }
        }
        None
    }

    /// Returns the next order to send, and notes that the order waits for a reply. Returns `None` while another order
    /// waits.
    fn next(&mut self) -> Option<Order>
        ensures table { self.new ≡ (next self.old).table }
        ensures order { result ≡ (next self.old).order }
    {
        if self.waiting.is_some() {
            return None;
        }
        let n = self.due()?;
        let order = self.order_at(n);
        let stage = self.ready_at(n);
        let train = train_sent(&self.routes, &self.trains, stage, n);
        let delay = delay_sent(&self.routes, &self.sensors, &self.delays, stage, n);
        self.stages[n] = stage;
        self.trains[n] = train;
        self.delays[n] = delay;
        self.waiting = Some(n);
        order
    }

    /// Notes that a route is asked for. A route that was given back ends first, and is wanted then.
    fn ask(&mut self, n: usize)
        ensures { self.new ≡ heard self.old (Ask n) }
    {
        if n < self.routes.len() {
            if stage_at(&self.stages, n).is_idle() || wanted_at(&self.wanted, n) {
                self.wanted[n] = true;
            } else {
                self.again[n] = true;
            }
        }
    }

    /// Notes that a route is given back.
    fn give(&mut self, n: usize)
        ensures { self.new ≡ given self.old n }
    {
        if n < self.routes.len() {
            let stage = retried(stage_at(&self.stages, n));
            self.stages[n] = stage;
            self.wanted[n] = false;
            self.again[n] = false;
            self.trains[n] = None;
        }
    }

    /// Notes what was told of a sensor.
    fn tell(&mut self, sensor: Device, occupancy: Occupancy)
        ensures { self.new ≡ told self.old sensor occupancy }
    {
        if occupancy.is_free() && is_occupied(&self.sensors, sensor) {
            give_freed(&self.routes, &self.stages, sensor, &mut self.wanted);
        }
        sense(&mut self.sensors, sensor, occupancy);
    }

    /// Follows the trains, and gives back each route whose train has passed.
    fn follow(&mut self, told: Sensed)
        ensures { self.new ≡ followed self.old told }
    {
        let (routes, sensors) = (&self.routes, &self.sensors);
        follow(routes, sensors, told, &mut self.wanted, &mut self.trains);
    }

    /// Notes that a command session has begun.
    #[tactic(auto, using(crate::proofs::Loops::lost_more, crate::proofs::Loops::lost_all))]
    fn lose(&mut self)
        ensures { self.new ≡ heard self.old Lost }
    {
        for n in 0..self.routes.len().min(self.stages.len()) {
            self.stages[n] = lost(&self.routes[n]);
        }
        self.wanted.fill(false);
        self.again.fill(false);
        self.trains.fill(None);
        self.delays.fill(0);
        self.waiting = None;
    }

    /// Notes an event.
    fn hear(&mut self, event: Event)
        ensures { self.new ≡ heard self.old event }
    {
        match event {
            Event::Ask(n) => self.ask(n),
            Event::Give(n) => self.give(n),
            Event::Told(sensor, occupancy) => {
                self.tell(sensor, occupancy);
                self.follow(Sensed { sensor, occupancy });
            }
            Event::Second => count_second(&mut self.delays),
            Event::Reply(ok) => self.reply(ok),
            Event::Lost => self.lose(),
        }
    }

    /// Takes in an event, and returns the order to send then, if any.
    pub fn step(&mut self, event: Event) -> Option<Order>
        ensures table { self.new ≡ (step self.old event).table }
        ensures order { result ≡ (step self.old event).order }
    {
        self.hear(event);
        self.next()
    }
}

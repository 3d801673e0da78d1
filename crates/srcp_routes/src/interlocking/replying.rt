//! What the reply to an order makes of the route that sent the order.

ghost use Rattle.std.specs.Prelude.{◌≡◌};
ghost use Rattle.srcp_routes.specs.Steps.{heard, is_renewed, stage_replied};
ghost use Rattle.srcp_routes.specs.declared.interlocking.Event.TheVariants.{Reply};

use crate::Stage;
use crate::interlocking::Interlocking;
use crate::stage::after_reply;
use crate::table::{stage_at, wanted_at};

impl Interlocking {
    /// Returns the stage of the route at a place after the reply to the route's order.
    fn stage_replied(&self, n: usize, ok: bool) -> Stage
        ensures { result ≡ stage_replied self.now n ok }
    {
        match self.routes.get(n) {
            Some(route) => after_reply(route, stage_at(&self.stages, n), ok),
            None => Stage::Idle,
        }
    }

    /// Returns whether the route at a place ends by the reply to the route's order, and was asked for again before.
    fn is_renewed(&self, n: usize, ok: bool) -> bool
        ensures { result ≡ is_renewed self.now ok n }
    {
        ok && self.stage_replied(n, ok).is_idle() && wanted_at(&self.again, n)
    }

    /// Notes the reply to the waiting order.
    pub(super) fn reply(&mut self, ok: bool)
        ensures { self.new ≡ heard self.old (Reply ok) }
    {
        let Some(n) = self.waiting else {
            return;
        };
        if n < self.routes.len() {
            let stage = self.stage_replied(n, ok);
            let is_renewed = self.is_renewed(n, ok);
            self.stages[n] = stage;
            if is_renewed {
                self.wanted[n] = true;
                self.again[n] = false;
            } else if !ok {
                self.wanted[n] = false;
                self.again[n] = false;
                self.trains[n] = None;
            }
        }
        self.waiting = None;
    }
}

//! Laws of every list of events. Each function does nothing: its `ensures` is the law.

ghost use Rattle.srcp_routes.specs.Laws.{ApproachKept, ApproachLocked, AskedAreServed, CrossApart, EnteredAreDark};
ghost use Rattle.srcp_routes.specs.Laws.{FallsBehind, FreedBehind, GivenEnd, HeldStandAlone, LeftEnds};
ghost use Rattle.srcp_routes.specs.Laws.{OneSensorFreesNone, RepliesSettle, SetIsTold, ShownAreKept, ShownStand};
ghost use Rattle.srcp_routes.specs.Laws.{ShowsAreFree, ThrowsAreLocked, WantedAreServed};

/// States for any plan and any list of events: while a route is held, each other route that conflicts is idle. No two
/// routes that conflict are held at once.
pub fn held_stand_alone()
    ensures { HeldStandAlone }
{}

/// States for any plan and any list of events: two routes that are set have no piece of track in common. A route is set
/// while its signal shows "go". The signal does so from the order that shows it until the reply that accepts a stop. A
/// route is also set from the order that tells so until the reply to the order that tells the opposite. A route is set
/// no longer than its session lasts.
pub fn cross_apart()
    ensures { CrossApart }
{}

/// States for any plan and any list of events how a turnout is thrown. The port is the port that the throwing route
/// wants, and the route holds the turnout's lock. A lock is held from the reply that grants the lock until the order
/// that gives the lock up, and no longer than its session.
pub fn throws_are_locked()
    ensures { ThrowsAreLocked }
{}

/// States for any plan and any list of events what a signal that shows "go" stands over. Each turnout of the signal's
/// route is locked, and was thrown since as the route wants (`stand`). Each block was free as the signal was shown
/// (`free`). Until the signal was stopped, also in the session after, no order locks, throws or unlocks a turnout of
/// the route (`kept`).
pub fn shown_are_safe()
    ensures stand { ShownStand }
    ensures free { ShowsAreFree }
    ensures kept { ShownAreKept }
{}

/// States for any plan and any list of events what stands as a route is told to be set. Each turnout of the route is
/// locked, and was thrown since as the route wants. The order that shows the signal of the route, if
/// there is one, was accepted, and no order stopped the signal since. The signal may be stopped if a train has come
/// into the first section since that order was sent.
pub fn set_is_told()
    ensures { SetIsTold }
{}

/// States for any plan and any list of events what is true once no order waits for a reply. Each route that is asked
/// for is set, or waits for a reason. A set route shows "go" if the route has a signal, unless a train has come into
/// the first section. A block of the route is not free, or the route's own signal could not be stopped. Or the route
/// keeps its locks for its delay. Or the route is behind a conflicting route, which is asked for and held, keeps its
/// locks for its delay, or has a signal that could not be stopped.
pub fn wanted_are_served()
    ensures { WantedAreServed }
{}

/// States the same of each route that is asked for by events alone. A route is asked for from an ask on. That ends if
/// somebody gives the route back, the sensor that frees the route says 0, or the train of the route has passed. It ends
/// too if an order of the route is refused, or a command session begins.
pub fn asked_are_served()
    ensures { AskedAreServed }
{}

/// States for any plan and any list of events what is true of a route that was given back while its signal showed
/// "go". Somebody gave the route back, the sensor that frees the route fell from 1 to 0, or the route's train has
/// passed. Once no order waits for a reply, the signal is stopped, or could not be stopped. It does not matter what was
/// asked for since.
pub fn left_ends()
    ensures { LeftEnds }
{}

/// States for any plan and any list of events what a route does that has let a train go. The route keeps its locks,
/// and is not told to be unset. This ends if somebody gives the route back, an order of the route is refused, or a
/// command session begins. A train ends this as the sensor that frees the route falls from 1 to 0. A train ends this
/// too once it has passed each section of the route but the last, in their order. A section is passed as the section
/// is told to be free, if the train had entered the next one, which is still occupied.
pub fn freed_behind()
    ensures { FreedBehind }
{}

/// States for any plan and any list of events that one sensor alone gives no route back, if that sensor does not free
/// the route. Let a route have let a train go that has entered no section yet. Whatever is told of one sensor then, and
/// however often, the route is not given back by that.
pub fn one_sensor_frees_none()
    ensures { OneSensorFreesNone }
{}

/// States for any plan and any list of events that a signal falls behind the head of a train. Let the train that a
/// route has let go come into the first section. The next order of the route is the stop of the signal, and no later
/// order shows "go" (`next`). Once no order waits for a reply, the signal was stopped (`dark`). So it is until the
/// route is given back.
pub fn falls_behind()
    ensures next { FallsBehind }
    ensures dark { EnteredAreDark }
{}

/// States for any plan and any list of events what is true of a route that was given back and not asked for since. A
/// refused order of the route gives the route back too, and so does the begin of a command session. So does the train
/// that the route has let go, once it has passed, or as the sensor falls that frees the route. Once no order waits for
/// a reply, the route holds no lock, and the signal of the route was stopped if it was shown. Or the route keeps its
/// locks for its delay, or the signal could not be stopped.
pub fn given_end()
    ensures { GivenEnd }
{}

/// States for any plan and any list of events what is true of a route whose signal was stopped while a train might
/// come. The route was given back while its signal showed "go", and as the stop was sent, its approach was not known to
/// be free. Then the route keeps its locks for its delay: no order of the route unlocks a turnout, or tells that the
/// route is not set (`ends`). Each of its turnouts is locked (`kept`). The delay is counted in seconds that are told
/// from that order on. The delay ends early only as a command session begins.
pub fn approach_locked()
    ensures ends { ApproachLocked }
    ensures kept { ApproachKept }
{}

/// States for any plan and any list of events that replies settle the routes. If nothing but replies comes then, some
/// number of replies is enough for no order to wait. It does not matter which accept and which refuse.
pub fn replies_settle()
    ensures { RepliesSettle }
{}

//! Laws of the lines that a box and the server send each other. Each function does nothing: its `ensures` is the law.

ghost use Rattle.srcp_interlock.specs.Laws.{OrdersAreRead, RepliesAreHeard};

/// States that the server reads the line of an order as the command which the order means. The law is for every layout
/// that has that command. So what `srcp_core` says of the command is said of the order.
pub fn orders_are_read()
    ensures { OrdersAreRead }
{}

/// States how the lines are heard with which the server answers commands. `200 OK` is heard as an accepted order, each
/// refusal as a refused order, and the reply to `GO` as a session that begins.
pub fn replies_are_heard()
    ensures { RepliesAreHeard }
{}

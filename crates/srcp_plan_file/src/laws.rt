//! Laws of every two routes, and of every way. Each function does nothing: its `ensures` is the law.

ghost use Rattle.srcp_plan_file.specs.Laws.{FoundAreAll, FoundLead, SharedConflict, WaysLead};

/// States for any two routes: there is something shared for `print_plan` to name exactly if the routes conflict.
pub fn shared_conflict()
    ensures { SharedConflict }
{}

/// States for any drawing and any turnouts: each way that is found leaves its begin, passes from join to join as its
/// turnouts are put, and enters its goal at last.
pub fn ways_lead()
    ensures { WaysLead }
{}

/// States for any drawing and any two pieces: over the turnouts of each way that is found from one to the other, each
/// put as they are found, a way leads from one to the other.
pub fn found_lead()
    ensures { FoundLead }
{}

/// States for any drawing whose turnouts have two ports: whoever leads a way past no button has put the turnouts of a
/// way that is found, and as that way puts them. So if one way is found, there is no other.
pub fn found_are_all()
    ensures { FoundAreAll }
{}

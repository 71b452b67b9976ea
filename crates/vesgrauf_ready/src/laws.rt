//! Laws of all runs: the contract of each function is the law.

ghost use Rattle.vesgrauf_ready.specs.Runs.{NoneStarves, LaterWait, AreByUrgency, AreShared, AreInOrder, LaterWaitInClass};

/// No stream starves (RFC 9218, section 10): one that stays ready takes a turn within `fair` turns for
/// itself and for each other stream of which a turn goes round all; and streams that come later wait.
pub fn none_starves()
    ensures starves { NoneStarves }
    ensures later { LaterWait }
{}

/// Streams are served by their urgency, and those of one urgency that are not incremental by their IDs
/// (RFC 9218, section 10).
pub fn turns_are_by_urgency()
    ensures { AreByUrgency }
{}

/// Incremental streams of one urgency share the bandwidth (RFC 9218, section 10): none takes two turns
/// in a row while another one is ready.
pub fn turns_are_shared()
    ensures { AreShared }
{}

/// Incremental streams of one urgency that become ready while none of them is get their first turns in
/// the order of their IDs, and those that come later wait for the next round.
pub fn turns_are_in_order()
    ensures order { AreInOrder }
    ensures later { LaterWaitInClass }
{}

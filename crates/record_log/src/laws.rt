//! The laws of walking along a log by the offsets of its gates. Each function has an empty body, and its contract is the law
//! that its name says.

ghost use Rattle.record_log.specs.Walking.{WalkBegins, WalkIsAtAGate, WalkGoesOn, WalkEnds};

/// At the first gate of a log all events of its journal are still to come.
pub fn walk_begins()
    ensures { WalkBegins }
{}

/// Between events that were passed and events that are to come, a gate stands, from which a batch may be read.
pub fn walk_is_at_a_gate()
    ensures { WalkIsAtAGate }
{}

/// The batch that is read there has the events that come next, and so the walk goes on at the next gate.
pub fn walk_goes_on()
    ensures { WalkGoesOn }
{}

/// At the closed gate no event is to come.
pub fn walk_ends()
    ensures { WalkEnds }
{}

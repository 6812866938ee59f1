//! Which payload spells which call, and where a payload that spells none goes wrong; with the laws
//! that hold of these words alone.
//!
//! A payload is a MessagePack array of the call's number and its arguments. The words for what
//! spells an integer, a text and an argument of a kind are those of `definitions`, and the calls
//! those of `step_rules`.
//!
//! Each function has an empty body, and its contract is the law that its name says.
#![tactic(auto)]

ghost use Rattle.request_rules.specs.Laws.{SpellsOneCall, NeverBoth, WrongAtOnePlace, CallOrPlace, ReadingFindsCall, ReadingFindsPlace, RequestIsFound, SpelledCallFits};
ghost use Rattle.request_rules.specs.Examples.{WorkedCalls, WorkedFaults};

/// A payload spells at most one call.
pub fn a_payload_spells_one_call()
    ensures { SpellsOneCall }
{}

/// A payload that spells a call is wrong nowhere.
pub fn a_call_is_never_wrong()
    ensures { NeverBoth }
{}

/// A payload is wrong at one place at most.
pub fn a_payload_is_wrong_at_one_place()
    ensures { WrongAtOnePlace }
{}

/// Each payload spells a call, or is wrong at a place.
pub fn a_payload_is_a_call_or_wrong()
    ensures { CallOrPlace }
{}

/// Reading from left to right finds arguments of a call exactly where the call is spelled.
pub fn reading_finds_the_call()
    ensures { ReadingFindsCall }
{}

/// Reading from left to right stops exactly where the payload is wrong.
pub fn reading_finds_the_place()
    ensures { ReadingFindsPlace }
{}

/// The call that a payload spells is computed: it is found exactly where it is spelled, and none is found
/// where the payload is wrong.
pub fn the_call_is_found()
    ensures { RequestIsFound }
{}

/// What a payload of at most 1,048,576 bytes spells is a call that a store may be asked: its numbers are
/// within their ranges, and its texts together have at most 1,048,569 bytes.
pub fn a_spelled_call_fits()
    ensures { SpelledCallFits }
{}

/// A payload of each call, worked out, and a search of all whose filter has a text.
pub fn worked_calls()
    ensures { WorkedCalls }
{}

/// Payloads that are wrong, each with its place.
pub fn worked_faults()
    ensures { WorkedFaults }
{}

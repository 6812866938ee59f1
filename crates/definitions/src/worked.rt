//! The definitions worked out. Each is a function that does nothing, whose contract is a list of values.

ghost use Rattle.definitions.specs.Examples.{WorkedIntegers, WorkedTexts, WorkedArrays, WorkedNoItems, WorkedFrames, WorkedStreams, WorkedIds, WorkedCommands, WorkedMatches, WorkedSearches, WorkedReplies, WorkedUses};

/// Integers, worked out: the first and the last number of each form, and numbers in several widths.
pub fn worked_integers()
    ensures { WorkedIntegers }
{}

/// Texts, worked out: heads of each length, and one text in each width.
pub fn worked_texts()
    ensures { WorkedTexts }
{}

/// Headers of arrays, worked out.
pub fn worked_arrays()
    ensures { WorkedArrays }
{}

/// Bytes that spell no integer, no text or no header, or another number.
pub fn worked_no_items()
    ensures { WorkedNoItems }
{}

/// Frames, worked out: whole, cut, and too long.
pub fn worked_frames()
    ensures { WorkedFrames }
{}

/// Streams of frames, worked out: each way to end, and cuts after some frames.
pub fn worked_streams()
    ensures { WorkedStreams }
{}

/// Ids, worked out: made at a time from random bytes, and printed.
pub fn worked_ids()
    ensures { WorkedIds }
{}

/// Commands, worked out: what is kept of one that ends, and ids of their own.
pub fn worked_commands()
    ensures { WorkedCommands }
{}

/// Matches, worked out: smart case, both ways to compare, and the order of hits.
pub fn worked_matches()
    ensures { WorkedMatches }
{}

/// Pages and answers, worked out.
pub fn worked_searches()
    ensures { WorkedSearches }
{}

/// Replies, worked out in bytes, one for each answer.
pub fn worked_replies()
    ensures { WorkedReplies }
{}

/// What is used by one call and then by another, worked out, and what fits.
pub fn worked_uses()
    ensures { WorkedUses }
{}

//! The laws of frames. Each is a function that does nothing, whose contract is the law.

ghost use Rattle.std.specs.Prelude.{◌≡◌, ℕ, ◌<◌, ◌^◌, List, ◌++◌, length};
ghost use Rattle.std.specs.List.{All};
ghost use Rattle.definitions.specs.Spelling.{IsBytes};
ghost use Rattle.definitions.specs.Frames.{frames, NoWholeFrame, StreamEnding, StreamEnds, CutAfter};

/// A stream is cut into payloads, and a rest that is no whole frame, in one way.
pub fn a_stream_is_cut_in_one_way()
    ensures { (ps qs : List (List ℕ)) (rest others : List ℕ) → All (λ (p : List ℕ). length p < 2 ^ 32) ps → All (λ (p : List ℕ). length p < 2 ^ 32) qs → NoWholeFrame rest → NoWholeFrame others → frames ps ++ rest ≡ frames qs ++ others → (ps ≡ qs) × (rest ≡ others) }
{}

/// A whole input has one list of payloads and one way to end: with its last frame, within a frame, or at a frame that is
/// too long.
pub fn a_whole_input_ends_in_one_way()
    ensures some { (bytes : List ℕ) → IsBytes bytes → (payloads : List (List ℕ)) × (ending : StreamEnding) × StreamEnds bytes payloads ending }
    ensures one { (bytes : List ℕ) (ps qs : List (List ℕ)) (a b : StreamEnding) → StreamEnds bytes ps a → StreamEnds bytes qs b → (ps ≡ qs) × (a ≡ b) }
{}

/// Where at most so many frames are read of an input, it is cut into payloads and a rest in some way, and in one only.
pub fn a_limited_stream_is_cut_in_one_way()
    ensures some { (limit : ℕ) (bytes : List ℕ) → IsBytes bytes → (payloads : List (List ℕ)) × (rest : List ℕ) × CutAfter limit payloads rest × (bytes ≡ frames payloads ++ rest) }
    ensures one { (limit : ℕ) (ps qs : List (List ℕ)) (rest others : List ℕ) → CutAfter limit ps rest → CutAfter limit qs others → frames ps ++ rest ≡ frames qs ++ others → (ps ≡ qs) × (rest ≡ others) }
{}

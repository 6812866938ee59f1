//! Pieces of a text that may have any length.

ghost use Rattle.std.specs.Prelude.{List, ℕ, [], ◌≡◌, ◌++◌, false};
ghost use Rattle.at_edge.specs.Writing.{SinkSeen, WritesAll};
ghost use Rattle.http_wire.specs.Pieces.{IsAt};

use crate::gathered::{Gathered, put};
use arrayvec::ArrayVec;
use at_edge::{Sink, WriteFault, write_all};

/// What is held back of a text, and whether a write of it has failed.
#[derive(Drop)]
pub struct Pieces {
    pub held: Gathered,
    pub failed: bool,
}

/// Nothing yet.
pub fn no_pieces() -> Pieces
    ensures held { result.held.items ≡ [] }
    ensures failed { result.failed ≡ false }
{
    Pieces {
        held: ArrayVec::new(),
        failed: false,
    }
}

/// Writes or holds back one more piece, unless a write has failed.
pub fn put_piece<K: Sink>(sink: &mut K, pieces: &mut Pieces, piece: &[u8])
    ensures { (first : SinkSeen) (text : List ℕ) → IsAt first (K.sink sink.old) pieces.old text → IsAt first (K.sink sink.new) pieces.new (text ++ piece.now) }
{
    if pieces.failed {
        return;
    }
    match put(sink, &mut pieces.held, piece) {
        Ok(()) => (),
        Err(WriteFault) => pieces.failed = true,
    }
}

/// Writes what is held back.
pub fn end<K: Sink>(sink: &mut K, pieces: &Pieces) -> Result<(), WriteFault>
    ensures { (first : SinkSeen) (text : List ℕ) → IsAt first (K.sink sink.old) pieces.now text → WritesAll first (K.sink sink.new) result text }
{
    if pieces.failed {
        return Err(WriteFault);
    }
    write_all(sink, pieces.held.as_slice())
}

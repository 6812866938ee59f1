//! Bytes that are gathered, to be written together.

ghost use Rattle.std.specs.Prelude.{◌≡◌, ◌≤◌, ◌+◌, ◌++◌, length};
ghost use Rattle.arrayvec.specs.ArrayVec.{array_vec_len};
ghost use Rattle.at_edge.specs.Writing.{WritesAll};
ghost use Rattle.http_wire.specs.Gathering.{Hands};

use arrayvec::ArrayVec;
use at_edge::{Sink, WriteFault, write_all};

/// How many bytes are gathered for one write.
pub const GATHERED_BYTES: usize = 1024;

/// Bytes that are held back.
pub type Gathered = ArrayVec<u8, GATHERED_BYTES>;

/// Holds back a piece, for which there is room.
pub fn add(held: &mut Gathered, piece: &[u8])
    requires { array_vec_len held.old + length piece.now ≤ 1024 }
    ensures items { held.new.items ≡ held.old.items ++ piece.now }
    ensures len { array_vec_len held.new ≡ array_vec_len held.old + length piece.now }
{
    match held.try_extend_from_slice(piece) {
        Ok(()) => (),
        Err(_) => unreachable!(),
    }
}

/// Holds the piece back where it fits; else writes what was held back, and the piece.
pub fn put<K: Sink>(sink: &mut K, held: &mut Gathered, piece: &[u8]) -> Result<(), WriteFault>
    ensures { Hands (K.sink sink.old) (K.sink sink.new) result held.old.items held.new.items piece.now }
{
    match held.try_extend_from_slice(piece) {
        Ok(()) => Ok(()),
        Err(_) => {
            write_all(sink, held.as_slice())?;
            held.clear();
            write_all(sink, piece)
        }
    }
}

/// Writes what is held back, and the last piece.
pub fn finish<K: Sink>(sink: &mut K, held: &mut Gathered, piece: &[u8]) -> Result<(), WriteFault>
    ensures { WritesAll (K.sink sink.old) (K.sink sink.new) result (held.old.items ++ piece.now) }
{
    put(sink, held, piece)?;
    write_all(sink, held.as_slice())
}

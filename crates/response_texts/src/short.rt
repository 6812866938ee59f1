//! Short bodies, gathered without memory.

ghost use Rattle.std.specs.Prelude.{◌≡◌, ◌≤◌, ◌+◌, ◌++◌, decimal, length};
ghost use Rattle.arrayvec.specs.ArrayVec.{array_vec_len};
ghost use Rattle.definitions.specs.Ids.{hyphenated};

use arrayvec::ArrayVec;
use record_model::record_id_text;

/// A body of at most 128 bytes.
pub type Short = ArrayVec<u8, 128>;

/// Adds a piece, for which there is room.
pub fn add(body: &mut Short, piece: &[u8])
    requires { array_vec_len body.old + length piece.now ≤ 128 }
    ensures items { body.new.items ≡ body.old.items ++ piece.now }
    ensures len { array_vec_len body.new ≡ array_vec_len body.old + length piece.now }
{
    match body.try_extend_from_slice(piece) {
        Ok(()) => (),
        Err(_) => unreachable!(),
    }
}

/// Adds a number of at most 20 digits, for which there is room.
pub fn add_number(body: &mut Short, n: u64)
    requires { array_vec_len body.old + 20 ≤ 128 }
    ensures items { body.new.items ≡ body.old.items ++ decimal n }
    ensures len { array_vec_len body.new ≤ array_vec_len body.old + 20 }
{
    let mut digits = itoa::Buffer::new();
    add(body, digits.format(n).as_bytes());
}

/// Adds an id, of 36 characters, for which there is room.
pub fn add_id(body: &mut Short, id: u128)
    requires { array_vec_len body.old + 36 ≤ 128 }
    ensures items { body.new.items ≡ body.old.items ++ hyphenated id }
    ensures len { array_vec_len body.new ≤ array_vec_len body.old + 36 }
{
    let text = record_id_text(id);
    add(body, &text);
}

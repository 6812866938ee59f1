// BLAKE2b over several pieces in the pre-authentication encoding.

ghost use Rattle.std.specs.Prelude.{◌≡◌, ◌≤◌, length, map};
ghost use Rattle.blake2b_core.specs.Hash.{blake2b};
ghost use Rattle.paseto_seal.specs.Pae.{le64, pae};

use blake2b_core::Blake2b;

/// A count as PASETO writes it.
#[tactic(auto, unfolding(crate::specs::Pae::le64))]
fn le64(count: usize) -> [u8; 8]
    ensures { result ≡ le64 count }
{
    (count as u64 % (1 << 63)).to_le_bytes()
}

/// Writes into `out` the hash, of as many bytes as it has, of the pieces' pre-authentication encoding.
pub fn hash_encoded(key: &[u8], pieces: &[&[u8]], out: &mut [u8])
    requires key { length key.now ≤ 64 }
    requires some { 1 ≤ length out.old }
    requires most { length out.old ≤ 64 }
    ensures { out.new ≡ blake2b (length out.old) key.now (pae (map (λ p. p.now) pieces.now)) }
{
    let mut hash = Blake2b::new(key, out.len() as u8);
    hash.update(&le64(pieces.len()));
    for piece in pieces {
        hash.update(&le64(piece.len()));
        hash.update(piece);
    }
    hash.finish_into(out);
}

//! The digest of a batch: 16 bytes of BLAKE2b, without a key, of the gate's offset, the body's length and the body.

ghost use Rattle.std.specs.Prelude.{◌≡◌, ◌<◌, ◌^◌, ℕ, List, [], ◌++◌, length};
ghost use Rattle.log_rules.specs.Log as log;
ghost use Rattle.log_format.specs.Digests.{Digests};

use blake2b_core::Blake2b;
use std::marker::Model;

/// The digest of a body that comes in pieces. Contracts see what it was given by `Digests`.
#[derive(Drop)]
pub struct BatchDigest {
    hasher: Blake2b,
}

impl Model for BatchDigest {
    ghost use Rattle.std.specs.Prelude.{◌≡◌};
    ghost use Rattle.blake2b_core.specs.Hashing.{Hashing};

    ghost Value = { Hashing };

    ghost view = { λ d. d.hasher };

    ghost invariant = { λ d. d.hasher.out_len ≡ 16 };
}

impl BatchDigest {
    /// Begins the digest of a body of this length, whose batch has its gate at this offset. It takes no memory.
    pub fn new(offset: u64, length: u32) -> BatchDigest
        ensures { Digests result offset length [] }
    {
        let mut hasher = Blake2b::new(&[], 16);
        hasher.update(&offset.to_be_bytes());
        hasher.update(&length.to_be_bytes());
        BatchDigest { hasher }
    }

    /// Adds the next bytes of the body.
    pub fn update(&mut self, piece: &[u8])
        ensures { (offset count : ℕ) (body : List ℕ) → Digests self.old offset count body → Digests self.new offset count (body ++ piece.now) }
    {
        self.hasher.update(piece);
    }

    /// The digest of the body that was given in pieces.
    pub fn finish(self) -> [u8; 16]
        ensures { (offset : ℕ) (body : List ℕ) → Digests self offset (length body) body → result ≡ log.batch_digest offset body }
    {
        let mut digest = [0; 16];
        self.hasher.finish_into(&mut digest);
        digest
    }
}

/// The digest of a body, whose batch has its gate at this offset. It takes no memory.
pub fn batch_digest(offset: u64, body: &[u8]) -> [u8; 16]
    requires { length body.now < 2 ^ 32 }
    ensures { result ≡ log.batch_digest offset body.now }
{
    let mut digest = BatchDigest::new(offset, body.len() as u32);
    digest.update(body);
    digest.finish()
}

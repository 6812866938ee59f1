//! A key beside its id.

ghost use Rattle.std.specs.Prelude.{◌≡◌};
ghost use Rattle.paseto_seal.specs.KeyId.{key_id_of};

use paseto_seal::key_id_bytes;

/// A key, and its id, which is computed once for all records that are opened under it.
#[derive(Drop)]
pub struct NamedKey<'a> {
    pub key: &'a [u8; 32],
    pub id: [u8; 51],
    ghost named: { id ≡ key_id_of key.now },
}

impl<'a> NamedKey<'a> {
    pub fn new(key: &'a [u8; 32]) -> NamedKey<'a>
        ensures { result.key.now ≡ key.now }
    {
        NamedKey {
            key,
            id: key_id_bytes(key),
        }
    }
}

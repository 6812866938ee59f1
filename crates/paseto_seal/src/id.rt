// PASERK ids of local keys.

ghost use Rattle.std.specs.Prelude.{◌≡◌, List, ◌++◌, IfOk};
ghost use Rattle.paseto_seal.specs.Base64Url.{base64url};
ghost use Rattle.paseto_seal.specs.KeyId.{key_id_header, key_id_of};

use crate::carried::write_base64url;
use blake2b_core::hash_pieces;
use plain_types::{NoMemory, Text};
use std::alloc::Global;

const KEY_ID_HEADER: &[u8; 7] = b"k4.lid.";

const LOCAL_KEY_HEADER: &[u8; 9] = b"k4.local.";

/// The hash that the id of a key tells. The key's own text stands in an array that is gone with this call.
fn key_hash(key: &[u8; 32]) -> [u8; 33]
    ensures { key_id_header ++ base64url result ≡ key_id_of key.now }
{
    let mut coded = [0u8; 43];
    write_base64url(key, &mut coded);
    let mut hash = [0u8; 33];
    hash_pieces(b"", &[KEY_ID_HEADER, LOCAL_KEY_HEADER, &coded], &mut hash);
    hash
}

/// The 51 bytes of the id of a key, as [`key_id`] has them. It takes no memory.
pub fn key_id_bytes(key: &[u8; 32]) -> [u8; 51]
    ensures { result ≡ key_id_of key.now }
{
    let mut id = [0u8; 51];
    id[..7].copy_from_slice(KEY_ID_HEADER);
    write_base64url(&key_hash(key), &mut id[7..]);
    id
}

/// The id of a key, which tells nothing of the key itself (PASERK, "ID", type lid): `k4.lid.` and then base64url of 33
/// bytes of hash, 51 bytes in all.
///
/// # Errors
///
/// [`NoMemory`].
pub fn key_id(alloc: Global, key: &[u8; 32]) -> Result<Text, NoMemory>
    ensures { IfOk result (λ text. text ≡ key_id_of key.now) }
{
    Text::copied(alloc, &key_id_bytes(key))
}

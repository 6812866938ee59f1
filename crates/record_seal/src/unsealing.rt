//! Opening a record.

ghost use Rattle.std.specs.Prelude.{◌≡◌};
ghost use Rattle.record_model.specs.Seen.{record_seen};
ghost use Rattle.record_seal.specs.Unsealing.{Unseals};

use crate::asserted::assertion;
use crate::fail::SealFail;
use crate::keys::read_key;
use crate::messages::read_message;
use crate::named::NamedKey;
use paseto_seal::open_token;
use plain_types::Bytes;
use record_model::Record;
use std::alloc::Global;

/// Opens a record under a key whose id is known.
pub fn unseal_named(alloc: Global, key: &NamedKey<'_>, rec: &Record) -> Result<Bytes, SealFail>
    ensures { Unseals key.now.key.now (record_seen rec.now) result }
{
    let content_key = read_key(alloc, key, rec.wrapped.as_bytes())?;
    let bound = assertion(alloc, rec.id, rec.idx, &rec.version, &rec.tag, rec.host)?;
    let message = open_token(alloc, &content_key, rec.sealed.as_bytes(), &bound)?;
    read_message(alloc, message.as_slice())
}

/// The payload that a record holds under `key`: at most one. Nothing is deciphered before its tag was compared.
///
/// # Errors
///
/// - [`SealFail::WrongKey`] exactly where the record's `wrapped` reads as a key text, a JSON object with the texts `wpk` and
///   `kid`, and `kid`, which is told, isn't the key's id.
/// - [`SealFail::BadSeal`] exactly where that isn't so and the record opens to no payload under the key: the key text is
///   none, its key isn't wrapped under this one, the token isn't one under the content key and what the record says in
///   the open, or its message is no JSON object with a text `data` in unpadded base64url.
/// - [`SealFail::NoMemory`], in place of any other answer.
pub fn unseal(alloc: Global, key: &[u8; 32], rec: &Record) -> Result<Bytes, SealFail>
    ensures { Unseals key.now (record_seen rec.now) result }
{
    unseal_named(alloc, &NamedKey::new(key), rec)
}

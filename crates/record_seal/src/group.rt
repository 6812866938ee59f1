//! Opening many records.

ghost use Rattle.std.specs.Prelude.{◌≡◌, IfOk};
ghost use Rattle.std.specs.List.{AllZip};
ghost use Rattle.record_model.specs.Seen.{record_seen};
ghost use Rattle.record_seal.specs.Unsealing.{Unseals, answer_of};

use crate::fail::SealFail;
use crate::named::NamedKey;
use crate::unsealing::unseal_named;
use plain_types::{Bytes, NoMemory, Text};
use rayon::prelude::*;
use record_model::Record;
use std::alloc::Global;
use std::thread::Threads;

/// What one record of many opened to.
#[derive(Debug, Drop)]
pub enum Opened {
    /// The payload that it holds.
    Payload(Bytes),
    /// Its key text names another key, by this id.
    WrongKey { kid: Text },
    /// It has no key text of the key, or isn't the seal of any payload under it.
    BadSeal,
}

/// Opens one of many.
fn open_one(alloc: Global, key: &NamedKey<'_>, rec: &Record) -> Result<Opened, NoMemory>
    ensures { IfOk result (λ opened. Unseals key.now.key.now (record_seen rec.now) (answer_of opened)) }
{
    match unseal_named(alloc, key, rec) {
        Ok(payload) => Ok(Opened::Payload(payload)),
        Err(SealFail::WrongKey { kid }) => Ok(Opened::WrongKey { kid }),
        Err(SealFail::BadSeal) => Ok(Opened::BadSeal),
        Err(SealFail::NoMemory) => Err(NoMemory),
    }
}

/// Opens records in as many threads as there are processors. Item i is what [`unseal`](crate::unseal) answers for record
/// i: refusals stand in their items, and no record keeps another from being opened.
///
/// # Errors
///
/// [`NoMemory`], where memory was wanted for any of them.
pub fn unseal_all<R: Threads + Sync>(
    rt: &R,
    alloc: Global,
    key: &[u8; 32],
    recs: &[Record],
) -> Result<Vec<Opened>, NoMemory>
    ensures { IfOk result (λ all. AllZip (λ rec opened. Unseals key.now (record_seen rec) (answer_of opened))
        recs.now all.items) }
{
    let named = NamedKey::new(key);
    let named = &named;
    recs.par_iter()
        .with_min_len(1)
        .map(
            move |rec: &Record| -> Result<Opened, NoMemory>
                ensures { IfOk result (λ opened. Unseals named.entry.now.key.now (record_seen rec.now) (answer_of opened)) }
            { open_one(alloc, named, rec) },
        )
        .collect::<Result<Vec<Opened>, NoMemory>>(rt, alloc)?
}

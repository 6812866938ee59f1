//! How many records a peer says that it added.

ghost use Rattle.std.specs.Prelude.{◌≡◌, IfOk};
ghost use Rattle.sync_wire.specs.Exchanging.{ReadsBody};
ghost use Rattle.sync_wire.specs.Replies.{added_in, SaysAdded, NoAdded};

use crate::fail::AskFail;
use plain_types::NoMemory;
use record_json::{number_under, read_json};
use std::alloc::Global;

/// The number that stands under `added`, where there is one.
fn find_added(alloc: Global, body: &[u8]) -> Result<Option<u64>, NoMemory>
    ensures { IfOk result (λ found. found ≡ added_in body.now) }
{
    match read_json(alloc, body)? {
        Some(value) => Ok(number_under(&value, "added")),
        None => Ok(None),
    }
}

/// The number of a body `{"added":N}`, in which other members are ignored.
///
/// # Errors
///
/// [`AskFail::PeerForm`] exactly where the body isn't so; [`AskFail::NoMemory`].
pub fn read_added(alloc: Global, body: &[u8]) -> Result<u64, AskFail>
    ensures { ReadsBody SaysAdded NoAdded body.now result }
{
    match find_added(alloc, body)? {
        Some(added) => Ok(added),
        None => Err(AskFail::PeerForm),
    }
}

//! The targets of requests, and the authorization that they tell.

ghost use Rattle.std.specs.Prelude.{◌≡◌, ◌++◌, codes, IfOk};
ghost use Rattle.sync_wire.specs.Requests.{next_target};

use crate::texts::{held_text, put_id, put_number, put_serialized, text_str};
use plain_types::{NoMemory, Text};
use std::alloc::Global;

/// The target of the records of a host and tag from the idx `start` on, at most `count`.
pub fn next_target(
    alloc: Global,
    host: u128,
    tag: &Text,
    start: u64,
    count: u32,
) -> Result<Text, NoMemory>
    ensures { IfOk result (λ target. target ≡ next_target host tag.now start count) }
{
    let mut text = String::new(alloc);
    text.push_str("/api/v0/record/next?host=")?;
    put_id(&mut text, host)?;
    text.push_str("&tag=")?;
    put_serialized(alloc, &mut text, tag)?;
    text.push_str("&start=")?;
    put_number(&mut text, start)?;
    text.push_str("&count=")?;
    put_number(&mut text, u64::from(count))?;
    held_text(text)
}

/// The value of the `Authorization` field.
pub fn authorization(alloc: Global, token: &Text) -> Result<Text, NoMemory>
    ensures { IfOk result (λ value. value ≡ codes "Token " ++ token.now) }
{
    let mut text = String::new(alloc);
    text.push_str("Token ")?;
    text.push_str(text_str(token))?;
    held_text(text)
}

//! Bytes of a message that are taken from a source.

ghost use Rattle.std.specs.Prelude.{◌≡◌, ◌≤◌, ◌+◌, ◌<◌, ◌^◌, length};
ghost use Rattle.http_wire.specs.Taken.{TakesSome, TakesHead, TakesUntil, TakesBody, CutsBody};

use crate::fail::HttpFail;
use crate::finding::{HeadKind, look};
use crate::limits::READ_BYTES;
use at_edge::{Got, Source};
use plain_types::{Bytes, NoMemory};
use std::alloc::Global;

/// What one more read gave.
#[derive(Clone, Copy, Debug, PartialEq, Eq)]
enum Came {
    Bytes,
    End,
}

/// Reads once, and holds what came, behind what is held. Memory is made sure of before the read.
fn take_some<S: Source>(held: &mut Bytes, source: &mut S) -> Result<Came, HttpFail>
    ensures { TakesSome (S.source source.old) (S.source source.new) held.old.items held.new.items result }
{
    held.reserve(READ_BYTES)?;
    let mut piece = [0; READ_BYTES];
    match source.read(&mut piece) {
        Got::Bytes(count) => match held.extend(&piece[..count]) {
            Ok(()) => Ok(Came::Bytes),
            Err(NoMemory) => unreachable!(),
        },
        Got::End => Ok(Came::End),
        Got::Failed => Err(HttpFail::ReadFault),
    }
}

/// Reads until a head is whole, and tells where it ends; `None` where the source ended before.
pub fn take_head<S: Source>(
    kind: HeadKind,
    held: &mut Bytes,
    source: &mut S,
) -> Result<Option<usize>, HttpFail>
    ensures { TakesHead kind (S.source source.old) (S.source source.new) held.old.items held.new.items result }
{
    'reads: loop {
        if let Some(end) = look(kind, held.as_slice())? {
            return Ok(Some(end));
        }
        match take_some(held, source)? {
            Came::Bytes => (),
            Came::End => return Ok(None),
        }
    }
}

/// Reads until this many bytes are held.
fn take_until<S: Source>(held: &mut Bytes, source: &mut S, enough: usize) -> Result<(), HttpFail>
    ensures { TakesUntil (S.source source.old) (S.source source.new) held.old.items held.new.items enough result }
{
    'reads: while held.len() < enough {
        match take_some(held, source)? {
            Came::Bytes => (),
            Came::End => return Err(HttpFail::Ended),
        }
    }
    Ok(())
}

/// Takes the bytes between two places out of what is held, with those before them. The bytes behind stay.
fn cut_body(alloc: Global, held: &mut Bytes, start: usize, end: usize) -> Result<Bytes, NoMemory>
    requires ordered { start ≤ end }
    requires within { end ≤ length held.old.items }
    ensures { CutsBody held.old.items held.new.items start end result }
{
    let behind = Bytes::copied(alloc, &held.as_slice()[end..])?;
    let body = Bytes::copied(alloc, &held.as_slice()[start..end])?;
    *held = behind;
    Ok(body)
}

/// Takes a body of this length, which begins at a place of what is held, and what stands before it. What came behind it stays.
pub fn take_body<S: Source>(
    alloc: Global,
    held: &mut Bytes,
    source: &mut S,
    start: usize,
    len: usize,
) -> Result<Bytes, HttpFail>
    requires within { start ≤ length held.old.items }
    requires fits { start + len < 2 ^ 64 }
    ensures { TakesBody (S.source source.old) (S.source source.new) held.old.items held.new.items start len result }
{
    take_until(held, source, start + len)?;
    Ok(cut_body(alloc, held, start, start + len)?)
}

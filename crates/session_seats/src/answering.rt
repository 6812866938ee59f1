//! Payloads, answered by a store.

ghost use Rattle.std.specs.Prelude.{◌≡◌, ◌≤◌, ◌+◌, ◌++◌, length, true};
ghost use Rattle.definitions.specs.Limits.{most_payload_bytes};
ghost use Rattle.step_rules.specs.Answers.{refused, bad_request};
ghost use Rattle.session_rules.specs.Bytes.{reply_bytes};
ghost use Rattle.session_rules.specs.Within.{most_reply_bytes};
ghost use Rattle.model_words.specs.Seen.{reply_seen};
ghost use Rattle.daemon_wire.specs.Writing.{IsCounted};
ghost use Rattle.call_supplies.specs.Supplies.{supplies};
ghost use Rattle.session_seats.specs.Answering.{AnswerStands, AnswerFramed, ReplyTold, FailTold, wanting};

use crate::CallStore;
use at_edge::{Clock, Entropy};
use daemon_wire::{CallFail, read_call, write_bad, write_reply};
use plain_types::{Bytes, NoMemory};
use record_model::{Refusal, Reply};
use std::alloc::Global;

/// Answers a payload in the call of this number, and leaves the reply's frame in `frame`.
pub fn answer_frame<T: CallStore, E: Entropy, C: Clock>(
    alloc: Global,
    store: &mut T,
    number: u64,
    payload: &[u8],
    rand: &mut E,
    clock: &mut C,
    frame: &mut Bytes,
)
    requires key { (T.store store.old).fixed.has_key ≡ true }
    requires short { length payload.now ≤ most_payload_bytes }
    requires room { 68 ≤ frame.old.reserved }
    ensures framed { AnswerFramed (T.store store.old) (T.store store.new) (supplies (E.entropy rand.old) (C.clock clock.old)) (supplies (E.entropy rand.new) (C.clock clock.new)) number payload.now frame.new.items }
    ensures reserved { frame.old.reserved ≤ frame.new.reserved }
{
    frame.clear();
    match frame.extend(&[0; 4]) {
        Ok(()) => (),
        Err(NoMemory) => unreachable!(),
    }
    answer_payload(alloc, store, number, payload, rand, clock, frame);
    let length = (frame.len() - 4) as u32;
    frame.overwrite_first(&length.to_be_bytes());
}

/// Appends the reply to what the payload asks: to the call that it spells, or to none, with the place where it goes
/// wrong.
fn answer_payload<T: CallStore, E: Entropy, C: Clock>(
    alloc: Global,
    store: &mut T,
    number: u64,
    payload: &[u8],
    rand: &mut E,
    clock: &mut C,
    into: &mut Bytes,
)
    requires key { (T.store store.old).fixed.has_key ≡ true }
    requires short { length payload.now ≤ most_payload_bytes }
    requires room { length into.old.items + 64 ≤ into.old.reserved }
    ensures short { length into.new.items ≤ length into.old.items + most_reply_bytes }
    ensures stands { AnswerStands (T.store store.old) (T.store store.new) (supplies (E.entropy rand.old) (C.clock clock.old)) (supplies (E.entropy rand.new) (C.clock clock.new)) number payload.now into.old.items into.new.items }
    ensures reserved { into.old.reserved ≤ into.new.reserved }
{
    match read_call(alloc, payload) {
        Ok(call) => {
            let reply = store.ask(number, &call, rand, clock);
            tell(alloc, &reply, into);
        }
        Err(fail) => tell_fail(alloc, store.front(), fail, into),
    }
}

/// Appends the reply to a payload of which no call was read.
fn tell_fail(alloc: Global, front: u64, fail: CallFail, into: &mut Bytes)
    requires room { length into.old.items + 64 ≤ into.old.reserved }
    ensures told { FailTold fail front into.old.items into.new.items }
    ensures reserved { into.old.reserved ≤ into.new.reserved }
{
    match fail {
        CallFail::BadRequest { place } => tell_bad(front, place, into),
        CallFail::NoMemory => tell_wanting(alloc, front, into),
    }
}

/// Appends a reply, or at its front that memory was wanting, where there is none for a long one.
fn tell(alloc: Global, reply: &Reply, into: &mut Bytes)
    requires counted { IsCounted (reply_seen reply.now).answer }
    requires room { length into.old.items + 64 ≤ into.old.reserved }
    ensures told { ReplyTold (reply_seen reply.now) into.old.items into.new.items }
    ensures reserved { into.old.reserved ≤ into.new.reserved }
{
    match write_reply(alloc, reply, into) {
        Ok(()) => (),
        Err(NoMemory) => tell_wanting(alloc, reply.front, into),
    }
}

/// Appends the reply that memory was wanting.
fn tell_wanting(alloc: Global, front: u64, into: &mut Bytes)
    requires room { length into.old.items + 64 ≤ into.old.reserved }
    ensures told { into.new.items ≡ into.old.items ++ reply_bytes (wanting front) }
    ensures reserved { into.old.reserved ≤ into.new.reserved }
{
    let reply = Reply {
        front,
        result: Err(Refusal::NoMemory),
    };
    match write_reply(alloc, &reply, into) {
        Ok(()) => (),
        Err(NoMemory) => unreachable!(),
    }
}

/// Appends the reply that a payload spells no call, with the place of its first wrong item.
fn tell_bad(front: u64, place: u32, into: &mut Bytes)
    requires room { length into.old.items + 64 ≤ into.old.reserved }
    ensures told { into.new.items ≡ into.old.items ++ reply_bytes (record { front = front; answer = refused (bad_request place) }) }
    ensures reserved { into.old.reserved ≤ into.new.reserved }
{
    let mut bytes = [0; 32];
    let count = write_bad(front, place, &mut bytes);
    match into.extend(&bytes[..count]) {
        Ok(()) => (),
        Err(NoMemory) => unreachable!(),
    }
}

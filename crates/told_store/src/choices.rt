//! Which note a store gets: by each call.

use at_edge::{Clock, Disk, Entropy};
use record_model::{Call, Caller, Record, Reply};
use state_notes::{Choice, Noted, NotedStore};
use store_core::{Store, TakeFail};

/// The first note of a store.
pub struct First<'a, D: Disk> {
    pub store: &'a Store<D>,
}

impl<'a, D: Disk> Drop for First<'a, D> {
    fn drop(self) {
        let Self { store: _ } = self;
    }
}

impl<'a, D: Disk> Choice for First<'a, D> {
    ghost use Rattle.told_store.specs.Told.{IsFirst};

    ghost fits = { λ c note. IsFirst c.store.now note };
}

/// The first note of a store that was opened on a disk: with what the disk was before.
pub struct Opened<'a, D: Disk> {
    pub disk_was: &'a Noted<D>,
    pub store: &'a Store<D>,
}

impl<'a, D: Disk> Drop for Opened<'a, D> {
    fn drop(self) {
        let Self {
            disk_was: _,
            store: _,
        } = self;
    }
}

impl<'a, D: Disk> Choice for Opened<'a, D> {
    ghost use Rattle.told_store.specs.Opening.{OpensTold};

    ghost fits = { λ c note. OpensTold (D.disk c.disk_was.now.value) c.store.now note };
}

/// The note after the store was asked for its front alone.
#[derive(Drop)]
pub struct Rested<'a> {
    pub before: &'a NotedStore,
}

impl<'a> Choice for Rested<'a> {
    ghost use Rattle.told_store.specs.Told.{HasRested};

    ghost fits = { λ c note. HasRested c.before.now.note note };
}

/// The note after a call: with what the store, the random source and the clock were before it.
pub struct Answered<'a, D: Disk, E: Entropy, C: Clock> {
    pub before: &'a NotedStore,
    pub store_was: &'a Noted<Store<D>>,
    pub rand_was: &'a Noted<E>,
    pub clock_was: &'a Noted<C>,
    pub store: &'a Store<D>,
    pub rand: &'a E,
    pub clock: &'a C,
    pub caller: Caller,
    pub call: &'a Call,
    pub reply: &'a Reply,
}

impl<'a, D: Disk, E: Entropy, C: Clock> Drop for Answered<'a, D, E, C> {
    fn drop(self) {
        let Self {
            before: _,
            store_was: _,
            rand_was: _,
            clock_was: _,
            store: _,
            rand: _,
            clock: _,
            caller: _,
            call: _,
            reply: _,
        } = self;
    }
}

impl<'a, D: Disk, E: Entropy, C: Clock> Choice for Answered<'a, D, E, C> {
    ghost use Rattle.record_model.specs.Seen.{caller_seen};
    ghost use Rattle.model_words.specs.Seen.{call_seen, reply_seen};
    ghost use Rattle.call_supplies.specs.Supplies.{supplies};
    ghost use Rattle.told_store.specs.Told.{CallTold};

    ghost fits = { λ c note. CallTold c.store_was.now.value c.before.now.note c.store.now note (supplies (E.entropy c.rand_was.now.value) (C.clock c.clock_was.now.value)) (supplies (E.entropy c.rand.now) (C.clock c.clock.now)) (caller_seen c.caller) (call_seen c.call.now) (reply_seen c.reply.now) };
}

/// The note after a page came in: with what the store was before it.
pub struct PageTaken<'a, D: Disk> {
    pub before: &'a NotedStore,
    pub store_was: &'a Noted<Store<D>>,
    pub store: &'a Store<D>,
    pub caller: Caller,
    pub owner: u32,
    pub page: &'a [Record],
    pub answer: &'a Result<u32, TakeFail>,
}

impl<'a, D: Disk> Drop for PageTaken<'a, D> {
    fn drop(self) {
        let Self {
            before: _,
            store_was: _,
            store: _,
            caller: _,
            owner: _,
            page: _,
            answer: _,
        } = self;
    }
}

impl<'a, D: Disk> Choice for PageTaken<'a, D> {
    ghost use Rattle.record_model.specs.Seen.{caller_seen, records_seen};
    ghost use Rattle.store_core.specs.Pages.{page_answer_seen};
    ghost use Rattle.told_store.specs.Asked.{PageTold};

    ghost fits = { λ c note. PageTold c.store_was.now.value c.before.now.note c.store.now note (caller_seen c.caller) c.owner (records_seen c.page.now) (page_answer_seen c.answer.now) };
}

/// The note after a read, which may have failed.
pub struct WasRead<'a, D: Disk> {
    pub before: &'a NotedStore,
    pub store: &'a Store<D>,
}

impl<'a, D: Disk> Drop for WasRead<'a, D> {
    fn drop(self) {
        let Self {
            before: _,
            store: _,
        } = self;
    }
}

impl<'a, D: Disk> Choice for WasRead<'a, D> {
    ghost use Rattle.told_store.specs.Asked.{HasRead};

    ghost fits = { λ c note. HasRead c.before.now.note c.store.now note };
}

//! The store that passes share.

ghost use Rattle.std.specs.Prelude.{◌≡◌, ◌≤◌, All, true, IfOk, IfErr, length};
ghost use Rattle.definitions.specs.Limits.{most_page_records, most_page_weight};
ghost use Rattle.record_rules.specs.Records.{page_weight};
ghost use Rattle.record_model.specs.Seen.{caller_seen, records_seen};
ghost use Rattle.session_rules.specs.Sessions.{caller_of};
ghost use Rattle.step_rules.specs.ReadTurns.{status_read};
ghost use Rattle.model_words.specs.Seen.{call_seen, reply_seen};
ghost use Rattle.step_rules.specs.Calls.{CallFits};
ghost use Rattle.session_rules.specs.Passes.{SplitsOff, IsSpent, most_passes, Joins};
ghost use Rattle.session_rules.specs.Within.{ShowsWithin};
ghost use Rattle.call_supplies.specs.Supplies.{supplies};
ghost use Rattle.store_core.specs.Pages.{page_answer_seen};
ghost use Rattle.told_store.specs.Asked.{status_answer_seen, read_answer_seen};
ghost use Rattle.book_lock.specs.LockPasses.{IsIdleAt, opened};
ghost use Rattle.shared_store.specs.Books.{IsOfNobody, IsFirstPass, book_of, has_key};
ghost use Rattle.shared_store.specs.Turns.{CallOf, PageOf, ReadsIn, ReadOf, FrontOf};
ghost use Rattle.shared_store.specs.Closing.{ClosesWith};

use crate::book::SharedBook;
use at_edge::{Clock, Disk, Entropy};
use book_lock::{BookLock, SplitFail};
use plain_types::NoMemory;
use record_model::{Call, Caller, Chains, Record, Reply};
use std::alloc::Global;
use std::marker::Model;
use std::sync::Wait;
use store_core::{ReadFail, Store, TakeFail};
use told_store::ToldStore;

/// A caller's pass at a store over this disk.
pub type Pass<D> = book_lock::Pass<SharedBook<D>>;

/// A store that passes share by turns. Contracts see it as the name of its lock.
pub struct SharedStore<D: Disk> {
    lock: BookLock<SharedBook<D>>,
}

impl<D: Disk> Model for SharedStore<D> {
    ghost use Rattle.atomic_table.specs.Seated.{TableId, table_id_coded};

    ghost Value = { TableId };

    ghost coded = { table_id_coded };

    ghost view = { λ s. s.lock };
}

impl<D: Disk> SharedStore<D> {
    /// Shares a store, with the first pass: it has number 1, no other number was given, and it has seen the whole journal.
    /// The store is of a journal of nobody's calls, as one is that was just made or opened. Where memory is wanting it comes
    /// back.
    pub fn new(
        alloc: Global,
        store: Store<D>,
    ) -> Result<(SharedStore<D>, Pass<D>), (NoMemory, Store<D>)>
        requires { IsOfNobody store }
        ensures ok { IfOk result (λ r. IsFirstPass store r.0 r.1) }
        ensures err { IfErr result (λ e. e.1 ≡ store) }
    {
        match SharedStore::share(alloc, ToldStore::of(store)) {
            Ok(shared) => Ok(shared),
            Err((fail, told)) => Err((fail, told.into_store())),
        }
    }

    /// Shares a store of which it is noted of which journal it is. The first pass has seen that very journal, which is of
    /// nobody's calls. Where memory is wanting the store comes back.
    pub fn share(
        alloc: Global,
        told: ToldStore<D>,
    ) -> Result<(SharedStore<D>, Pass<D>), (NoMemory, ToldStore<D>)>
        requires { All (λ e. e.caller.number ≡ 0) told.note.state.entries }
        ensures ok { IfOk result (λ r. r.1 ≡ opened r.0 (book_of told)) }
        ensures err { IfErr result (λ e. e.1 ≡ told) }
    {
        // they can be counted: there are fewer than 2^64
        let _entries = told.entry_count();
        match BookLock::new(alloc, SharedBook { told }) {
            Ok((lock, pass)) => Ok((SharedStore { lock }, pass)),
            Err((fail, book)) => Err((fail, book.told)),
        }
    }

    /// A pass with a number of its own, above all that the old one knew of, from 2 to 65,535. It has seen what the old
    /// one has, and has neither commits nor turns. Or `Spent`, exactly where all 65,535 numbers were given. May wait.
    pub fn split<R: Wait>(&self, rt: &R, pass: &mut Pass<D>) -> Result<Pass<D>, SplitFail>
        requires { IsIdleAt self.now pass.old }
        ensures idle { IsIdleAt self.now pass.new }
        ensures ok { IfOk result (λ part. IsIdleAt self.now part × SplitsOff pass.old.pass pass.new.pass part.pass) }
        ensures spent { IfErr result (λ e. (e ≡ SplitFail.Spent most_passes) × IsSpent pass.old.pass pass.new.pass most_passes) }
    {
        self.lock.split(rt, pass)
    }

    /// The pass has then seen the longer of what both had seen, which the shorter begins, and has counted as many faults
    /// as the one that had counted more. Its turns are its own alone.
    pub fn join(&self, pass: &mut Pass<D>, other: Pass<D>)
        requires idle { IsIdleAt self.now pass.old }
        requires other { IsIdleAt self.now other }
        ensures idle { IsIdleAt self.now pass.new }
        ensures joins { Joins pass.old.pass other.pass pass.new.pass }
    {
        self.lock.join(pass, other);
    }

    /// Answers the pass's call of this number in one turn of the pass. The store has a key, and the call is one that a
    /// payload can spell. What the reply tells is of the journal that the pass then has seen, and it shows so little that it
    /// fits a frame. Each refusal, and what stands after it, is as the words for turns say. The random source and the clock
    /// are used while the turn is held. May wait.
    pub fn ask<R: Wait, E: Entropy, C: Clock>(
        &self,
        rt: &R,
        alloc: Global,
        pass: &mut Pass<D>,
        call_number: u64,
        call: &Call,
        rand: &mut E,
        clock: &mut C,
    ) -> Reply
        requires idle { IsIdleAt self.now pass.old }
        requires key { has_key pass.old.pass.fixed ≡ true }
        requires fits { CallFits (call_seen call.now) }
        ensures idle { IsIdleAt self.now pass.new }
        ensures turn { CallOf pass.old.pass pass.new.pass (supplies (E.entropy rand.old) (C.clock clock.old)) (supplies (E.entropy rand.new) (C.clock clock.new)) call_number (call_seen call.now) (reply_seen result) }
        ensures within { ShowsWithin (reply_seen result).answer }
    {
        let caller = caller_by(pass, call_number);
        let mut turn = self.lock.take(rt, pass);
        let reply = turn.book().told.ask(alloc, caller, call, rand, clock);
        turn.give(pass);
        reply
    }

    /// Takes a page of records in for the owner, in the pass's call of this number, in one turn of the pass. How many records
    /// were added, 0 to 100. Each refusal, and what stands after it, is as the words for turns say; a fault of the disk is
    /// told only where the turn failed. May wait.
    pub fn take_page<R: Wait>(
        &self,
        rt: &R,
        alloc: Global,
        pass: &mut Pass<D>,
        call_number: u64,
        owner: u32,
        page: &[Record],
    ) -> Result<u32, TakeFail>
        requires { IsIdleAt self.now pass.old }
        ensures idle { IsIdleAt self.now pass.new }
        ensures turn { PageOf pass.old.pass pass.new.pass call_number owner (records_seen page.now) (page_answer_seen result) }
    {
        let caller = caller_by(pass, call_number);
        let mut turn = self.lock.take(rt, pass);
        let taken = turn.book().take_page(alloc, caller, owner, page);
        turn.give(pass);
        taken.0
    }

    /// The records of the owner's chain of this host and tag, from the idx `start` on: at most `count` and at most 100, as
    /// many as weigh at most 4,194,304 bytes together. In one turn of the pass, which leaves the store as it was found. What
    /// they say is told by the store where its disk tells what it holds; no pass knows of the disk. May wait.
    ///
    /// # Errors
    ///
    /// [`ReadFail::DiskFault`], only where the turn failed; [`ReadFail::NoMemory`].
    pub fn page<R: Wait>(
        &self,
        rt: &R,
        alloc: Global,
        pass: &mut Pass<D>,
        owner: u32,
        host: u128,
        tag: &[u8],
        start: u64,
        count: u32,
    ) -> Result<Vec<Record>, ReadFail>
        requires { IsIdleAt self.now pass.old }
        ensures idle { IsIdleAt self.now pass.new }
        ensures turn { ReadsIn pass.old.pass pass.new.pass (read_answer_seen result) }
        ensures short { IfOk result (λ records. length records.items ≤ most_page_records) }
        ensures light { IfOk result (λ records. page_weight (records_seen records.items) ≤ most_page_weight) }
    {
        let mut turn = self.lock.take(rt, pass);
        let records = turn.book().told.page(alloc, owner, host, tag, start, count);
        turn.give(pass);
        records
    }

    /// The owner's status: host, tag and length of each of its chains that has records, in order of host, then of the tag's
    /// bytes. In one turn of the pass, which leaves the store as it was found. May wait.
    ///
    /// # Errors
    ///
    /// [`NoMemory`].
    pub fn status<R: Wait>(
        &self,
        rt: &R,
        alloc: Global,
        pass: &mut Pass<D>,
        owner: u32,
    ) -> Result<Chains, NoMemory>
        requires { IsIdleAt self.now pass.old }
        ensures idle { IsIdleAt self.now pass.new }
        ensures turn { ReadOf pass.old.pass pass.new.pass (status_read owner) (status_answer_seen result) }
    {
        let mut turn = self.lock.take(rt, pass);
        let chains = turn.book().told.status(alloc, owner);
        turn.give(pass);
        chains
    }

    /// The number of entries, in a turn of the pass that asks nothing else. It takes no memory. May wait.
    pub fn front<R: Wait>(&self, rt: &R, pass: &mut Pass<D>) -> u64
        requires { IsIdleAt self.now pass.old }
        ensures idle { IsIdleAt self.now pass.new }
        ensures turn { FrontOf pass.old.pass pass.new.pass result }
    {
        let mut turn = self.lock.take(rt, pass);
        let front = turn.book().told.front();
        turn.give(pass);
        front
    }
}

impl<D: Disk + Drop> SharedStore<D> {
    /// Waits for the turn, and gives the disk as the pass then finds it. Of what it holds the journal begins with all that
    /// the pass had seen.
    pub fn close<R: Wait>(self, rt: &R, pass: Pass<D>) -> D
        requires { IsIdleAt self pass }
        ensures { ClosesWith pass.pass (D.disk result) }
    {
        let SharedStore { lock } = self;
        lock.close(rt, pass).told.into_disk()
    }
}

/// The caller of a pass's call of this number.
fn caller_by<D: Disk>(pass: &Pass<D>, call_number: u64) -> Caller
    ensures { caller_seen result ≡ caller_of pass.now.pass.number call_number }
{
    Caller {
        number: pass.number(),
        call: call_number,
        settled_for: 0,
    }
}

//! A journal as it is checked, entry by entry.

ghost use Rattle.std.specs.Prelude.{◌≡◌, [], cond, List, IfOk, OnOk, true, Bool};
ghost use Rattle.record_rules.specs.Records.{Entry, record_weight, started_weight};
ghost use Rattle.record_model.specs.Seen.{event_seen, started_seen, record_seen};
ghost use Rattle.journal_check.specs.Tallies.{Tallies, ChainKey as KeySeen, same_key, held_in, count_in, Keeps};
ghost use Rattle.journal_check.specs.Admission.{may_start, may_close, may_add, may_make, with_entry, places_by, capped, Marks, Holds, Takes};

use crate::limits::{record_fits, started_fits};
use crate::owner_totals::places_by;
use crate::tallies::{
    Begun, ChainKey, Chains, Owners, count, held, hold, knows, mark, runs, set_count,
};
use plain_types::NoMemory;
use record_model::{Event, Record, Started};
use std::alloc::Global;
use std::collections::HashMap;
use std::marker::Model;

/// What is kept of a journal of a host, so that its next entry can be checked.
#[derive(Drop)]
pub struct JournalCheck {
    host: u128,
    begun: Begun,
    owners: Owners,
    chains: Chains,
}

impl Model for JournalCheck {
    ghost use Rattle.journal_check.specs.Tallies.{Tallies};

    ghost Value = { Tallies };

    ghost view = { λ c. record { host = c.host; begun = c.begun.entries; owners = c.owners.entries; chains = c.chains.entries } };
}

/// The key of a record's chain.
fn key_of(alloc: Global, owner: u32, r: &Record) -> Result<ChainKey, NoMemory>
    ensures { IfOk result (λ key. (key.0 ≡ owner) × (key.1.0 ≡ r.now.host) × (key.1.1.items ≡ r.now.tag)) }
{
    Ok((owner, (r.host, Vec::from_slice(alloc, r.tag.as_bytes())?)))
}

impl JournalCheck {
    /// The empty journal of this host. It takes no memory.
    pub fn new(alloc: Global, host: u128) -> JournalCheck
        ensures keeps { Keeps result [] }
        ensures host { result.host ≡ host }
    {
        JournalCheck {
            host,
            begun: HashMap::new(alloc),
            owners: HashMap::new(alloc),
            chains: HashMap::new(alloc),
        }
    }

    /// Whether the command may be started next.
    fn may_start(&self, s: &Started) -> bool
        ensures { result ≡ may_start self.now (started_seen s.now) }
    {
        started_fits(s)
            && !knows(&self.begun, s.id)
            && held(&self.owners, 0).has_room(s.weight(), 0)
    }

    /// Whether that command runs, where there is one.
    fn may_close(&self, closes: Option<u128>) -> bool
        ensures { result ≡ may_close self.now closes }
    {
        match closes {
            Some(id) => runs(&self.begun, id),
            None => true,
        }
    }

    /// Whether the record may be added behind so many of its chain.
    fn may_add(&self, owner: u32, r: &Record, count: u64) -> bool
        ensures { result ≡ may_add self.now owner (record_seen r.now) count }
    {
        record_fits(r)
            && r.idx == count
            && held(&self.owners, owner).has_room(r.weight(), places_by(count))
    }

    /// Whether the record may be made here behind so many of its chain.
    fn may_make(&self, closes: Option<u128>, r: &Record, count: u64) -> bool
        ensures { result ≡ may_make self.now closes (record_seen r.now) count }
    {
        r.host == self.host && self.may_close(closes) && self.may_add(0, r, count)
    }
}

impl JournalCheck {
    ghost use Rattle.std.specs.Prelude.{Err};
    ghost use Rattle.record_rules.specs.Records as kept;
    ghost use Rattle.journal_check.specs.Admission.{Starts, Adds, Closes};

    /// Keeps that the command was started.
    fn start(&mut self, s: &Started) -> Result<(), NoMemory>
        ensures starts { OnOk result (Starts (started_seen s.now) self.old self.new) }
        ensures host { self.new.host ≡ self.old.host }
    {
        let totals = held(&self.owners, 0).with_entry(s.weight(), 0);
        mark(&mut self.begun, s.id, true)?;
        hold(&mut self.owners, 0, totals)
    }

    /// Keeps a record of this weight behind so many of its chain.
    fn add(&mut self, key: ChainKey, weight: u64, count: u64) -> Result<(), NoMemory>
        ensures adds { OnOk result (Adds key weight count self.old self.new) }
        ensures host { self.new.host ≡ self.old.host }
    {
        let owner = key.0;
        let totals = held(&self.owners, owner).with_entry(weight, places_by(count));
        hold(&mut self.owners, owner, totals)?;
        set_count(&mut self.chains, key, count.saturating_add(1))
    }

    /// Keeps that the command that was closed no longer runs.
    fn close(&mut self, closes: Option<u128>) -> Result<(), NoMemory>
        ensures closes { OnOk result (Closes closes self.old self.new) }
        ensures host { self.new.host ≡ self.old.host }
    {
        match closes {
            Some(id) => mark(&mut self.begun, id, false),
            None => Ok(()),
        }
    }

    fn take_started(&mut self, s: &Started) -> Result<bool, NoMemory>
        ensures takes { (journal : List Entry) → Keeps self.old journal → Takes result self.old.host journal (kept.Started (started_seen s.now)) self.new }
        ensures host { self.new.host ≡ self.old.host }
    {
        if self.may_start(s) {
            self.start(s)?;
            return Ok(true);
        }
        Ok(false)
    }

    fn take_local(
        &mut self,
        alloc: Global,
        r: &Record,
        closes: Option<u128>,
    ) -> Result<bool, NoMemory>
        ensures takes { (journal : List Entry) → Keeps self.old journal → Takes result self.old.host journal (kept.Local closes (record_seen r.now)) self.new }
        ensures host { self.new.host ≡ self.old.host }
    {
        let key = key_of(alloc, 0, r)?;
        let count = count(&self.chains, &key);
        if self.may_make(closes, r, count) {
            self.add(key, r.weight(), count)?;
            self.close(closes)?;
            return Ok(true);
        }
        Ok(false)
    }

    fn take_taken(&mut self, alloc: Global, owner: u32, r: &Record) -> Result<bool, NoMemory>
        ensures takes { (journal : List Entry) → Keeps self.old journal → Takes result self.old.host journal (kept.Taken owner (record_seen r.now)) self.new }
        ensures host { self.new.host ≡ self.old.host }
    {
        let key = key_of(alloc, owner, r)?;
        let count = count(&self.chains, &key);
        if self.may_add(owner, r, count) {
            self.add(key, r.weight(), count)?;
            return Ok(true);
        }
        Ok(false)
    }

    /// Whether an entry that says this may come next. Where it may, it is part of the journal from then on.
    ///
    /// # Errors
    ///
    /// [`NoMemory`]. What is kept is then of no journal.
    pub fn take(&mut self, alloc: Global, event: &Event) -> Result<bool, NoMemory>
        ensures takes { (journal : List Entry) → Keeps self.old journal → Takes result self.old.host journal (event_seen event.now) self.new }
        ensures host { self.new.host ≡ self.old.host }
    {
        match event {
            Event::Started(s) => self.take_started(s),
            Event::Local { rec, closes } => self.take_local(alloc, rec, *closes),
            Event::Taken { owner, rec } => self.take_taken(alloc, *owner, rec),
        }
    }
}

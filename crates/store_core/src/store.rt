//! The store, and what it tells at once.

ghost use Rattle.std.specs.Prelude.{◌≡◌, ◌≢◌, ℕ, List, [], length, None, MatchResult, IfOk};
ghost use Rattle.std.specs.Bool.{OnTrue, OnFalse};
ghost use Rattle.std.specs.Option.{is_some};
ghost use Rattle.record_rules.specs.Records.{Entry};
ghost use Rattle.record_rules.specs.Journal.{chain, status};
ghost use Rattle.record_model.specs.Seen.{chains_seen};
ghost use Rattle.record_log.specs.Creating.{HasCause};
ghost use Rattle.store_core.specs.Store.{IsStoreOf};

use at_edge::Disk;
use plain_types::NoMemory;
use record_log::{CreateFail, RecordLog};
use record_model::Chains;
use std::alloc::Global;
use std::marker::Model;
use store_tables::{Batch, Tables};

/// A store on a disk. Contracts see its log, its key, what it keeps beside the log, and the batch in doubt, where there
/// is one.
#[derive(Drop)]
pub struct Store<D: Disk> {
    pub(crate) log: RecordLog<D>,
    pub(crate) key: Option<[u8; 32]>,
    pub(crate) tables: Tables,
    pub(crate) doubt: Option<Batch>,
}

impl<D: Disk> Model for Store<D> {
    ghost use Rattle.store_core.specs.Store.{StoreSeen};

    ghost Value = { StoreSeen };

    ghost view = { λ s. record { log = s.log; key = s.key; tables = s.tables; doubt = s.doubt } };
}

impl<D: Disk> Store<D> {
    /// A new store of this host on an empty disk: its log, and nothing kept. It stands for the empty journal. It takes no
    /// memory.
    ///
    /// # Errors
    ///
    /// The disk comes back, with the log's refusal.
    pub fn create(
        alloc: Global,
        disk: D,
        host: u128,
        key: Option<[u8; 32]>,
    ) -> Result<Self, (CreateFail, D)>
        ensures made { IfOk result (λ s. IsStoreOf s [] []) }
        ensures host { IfOk result (λ s. s.log.host ≡ host) }
        ensures key { IfOk result (λ s. s.key ≡ key) }
        ensures settled { IfOk result (λ s. s.doubt ≡ None) }
        ensures cause { MatchResult result (λ _. Unit {0}) (λ e. HasCause e.0 (D.disk disk) (D.disk e.1)) }
    {
        match RecordLog::create(disk, host) {
            Ok(log) => Ok(Store {
                log,
                key,
                tables: Tables::new(alloc),
                doubt: None,
            }),
            Err(fail) => Err(fail),
        }
    }

    /// The owner's status: host, tag and length of each of its chains that has records, in order of host, then of the tag's
    /// bytes. A batch in doubt doesn't show.
    ///
    /// # Errors
    ///
    /// [`NoMemory`].
    pub fn status(&self, alloc: Global, owner: u32) -> Result<Chains, NoMemory>
        ensures { IfOk result (λ chains. (journal doubt : List Entry) → IsStoreOf self.now journal doubt → chains_seen chains ≡ status journal owner) }
    {
        self.tables.entries.index().status(alloc, owner)
    }

    /// How many records the owner has of the host and tag. A batch in doubt doesn't count. It takes no memory.
    pub fn count(&self, owner: u32, host: u128, tag: &[u8]) -> u64
        ensures { (journal doubt : List Entry) → IsStoreOf self.now journal doubt → result ≡ length (chain journal owner host tag.now) }
    {
        self.tables.entries.index().count(owner, host, tag)
    }

    /// The number of entries of the journal, without those in doubt. It takes no memory.
    pub fn front(&self) -> u64
        ensures { (journal doubt : List Entry) → IsStoreOf self.now journal doubt → result ≡ length journal }
    {
        self.tables.entries.len()
    }

    /// Whether a batch is in doubt. It takes no memory.
    pub fn in_doubt(&self) -> bool
        ensures { result ≡ is_some self.now.doubt }
    {
        self.doubt.is_some()
    }

    /// The host of the store. It takes no memory.
    pub fn host(&self) -> u128
        ensures { result ≡ self.now.log.host }
    {
        self.log.host()
    }

    /// Whether it has a key. It takes no memory.
    pub fn has_key(&self) -> bool
        ensures { result ≡ is_some self.now.key }
    {
        self.key.is_some()
    }

    /// The disk, of which the store is no longer. It takes no memory.
    pub fn into_disk(self) -> D
        ensures { D.disk result ≡ self.log.disk }
    {
        self.log.into_disk()
    }
}

//! Pages that a node sends and takes, and its status.

ghost use Rattle.std.specs.Prelude.{◌≡◌, IfOk};
ghost use Rattle.record_rules.specs.Journal.{status};
ghost use Rattle.record_rules.specs.Answers.{page};
ghost use Rattle.record_model.specs.Seen.{records_seen, chains_seen};
ghost use Rattle.world_nodes.specs.Nodes.{IsReady};
ghost use Rattle.world_nodes.specs.Events.{Delivers};

use crate::fails::DeliverFail;
use crate::node::{NOBODY, Node};
use plain_types::NoMemory;
use record_model::{Chains, Record};
use std::alloc::Global;
use store_core::TakeFail;

/// The owner of all data of a world.
const OWNER: u32 = 0;

impl Node {
    /// A page of the node's chain of this host and tag, as it stands: its records from the idx `start` on, at most `count`
    /// and at most 100, as many as weigh at most 4,194,304 bytes together. The node stays.
    ///
    /// # Errors
    ///
    /// [`NoMemory`].
    pub fn send(
        &mut self,
        alloc: Global,
        host: u128,
        tag: &[u8],
        start: u64,
        count: u32,
    ) -> Result<Vec<Record>, NoMemory>
        requires { IsReady self.old }
        ensures page { IfOk result (λ records. records_seen records.items ≡ page self.old.journal 0 host tag.now start count) }
        ensures stays { self.new ≡ self.old }
    {
        match self.store.page(alloc, OWNER, host, tag, start, count) {
            Ok(records) => Ok(records),
            Err(_) => Err(NoMemory),
        }
    }

    /// Takes a page in, in nobody's call: the records of it that the node lacks are added behind its journal.
    ///
    /// # Errors
    ///
    /// [`DeliverFail::Refused`], where the page is refused as a whole: the node stays. [`DeliverFail::NoMemory`]; what stands
    /// then isn't told.
    pub fn deliver(&mut self, alloc: Global, records: &[Record]) -> Result<(), DeliverFail>
        requires { IsReady self.old }
        ensures { Delivers self.old self.new (records_seen records.now) result }
    {
        match self.store.take_page(alloc, NOBODY, OWNER, records) {
            Ok(_) => Ok(()),
            Err(TakeFail::Refused(refusal)) => Err(DeliverFail::Refused(refusal)),
            Err(TakeFail::DiskFault) => Err(DeliverFail::NoMemory),
            Err(TakeFail::NoMemory) => Err(DeliverFail::NoMemory),
        }
    }

    /// The node's status: host, tag and length of each of its chains that has records, in order of host, then of the tag's
    /// bytes. The node stays.
    ///
    /// # Errors
    ///
    /// [`NoMemory`].
    pub fn status(&mut self, alloc: Global) -> Result<Chains, NoMemory>
        ensures status { IfOk result (λ chains. chains_seen chains ≡ status self.old.journal 0) }
        ensures stays { self.new ≡ self.old }
    {
        self.store.status(alloc, OWNER)
    }
}

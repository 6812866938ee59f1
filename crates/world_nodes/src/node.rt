//! A node, and a call at it.

ghost use Rattle.std.specs.Prelude.{◌≡◌, ◌<◌, ◌^◌, [], IfOk};
ghost use Rattle.at_edge.specs.DiskViews.{sure_disk_seen};
ghost use Rattle.step_rules.specs.Calls.{CallFits};
ghost use Rattle.model_words.specs.Seen.{call_seen};
ghost use Rattle.store_core.specs.Store.{IsStoreOf};
ghost use Rattle.world_nodes.specs.Nodes.{IsReady};
ghost use Rattle.world_nodes.specs.Events.{IsNodeOf, OpensNode, Becomes, Appends};

use crate::fails::{CallFail, granted};
use crate::random::{next_bytes, state_after, words_of};
use at_edge::{FixedClock, SureDisk, SureEntropy};
use log_format::write_header;
use plain_types::NoMemory;
use record_model::{Answer, Call, Caller};
use std::alloc::Global;
use std::marker::Model;
use store_core::Store;
use told_store::ToldStore;

/// The caller of each call, which is nobody's.
pub(crate) const NOBODY: Caller = Caller {
    number: 0,
    call: 0,
    settled_for: 0,
};

/// The first reading of a world's clock, in nanoseconds since 1970.
const FIRST_READING: u64 = 1_700_000_000_000_000_000;

/// By how much the clock goes on at each reading, in nanoseconds.
const READING_STEP: u64 = 1_000_000;

/// A node: a store over a disk in memory, with its key, and the state of a generator of its own.
#[derive(Drop)]
pub struct Node {
    pub(crate) store: ToldStore<SureDisk>,
    pub(crate) key: [u8; 32],
    pub(crate) random: u64,
}

impl Model for Node {
    ghost use Rattle.std.specs.Prelude.{◌≡◌, Some};
    ghost use Rattle.world_nodes.specs.Nodes.{NodeSeen, node_of};

    ghost Value = { NodeSeen };

    ghost view = { λ n. node_of n.store n.key n.random };

    ghost invariant = { λ n. n.store.store.key ≡ Some n.key };
}

impl Node {
    /// A new node of this host and key, with an empty journal on a disk of its own, whose generator begins with this
    /// state. A host is a number below 2^128.
    ///
    /// # Errors
    ///
    /// [`NoMemory`].
    pub fn create(alloc: Global, host: u128, key: [u8; 32], random: u64) -> Result<Node, NoMemory>
        ensures { IfOk result (λ node. IsNodeOf host key [] random node) }
    {
        let mut empty_log = Vec::new(alloc);
        empty_log.extend_from_slice(&write_header(host))?;
        Node::open(alloc, SureDisk::new(alloc, empty_log)?, key, random)
    }

    /// The node of this key over a disk that holds a log, whose generator has this state.
    ///
    /// # Errors
    ///
    /// [`NoMemory`].
    fn open(alloc: Global, disk: SureDisk, key: [u8; 32], random: u64) -> Result<Node, NoMemory>
        ensures { IfOk result (λ node. OpensNode (sure_disk_seen disk).history key random node) }
    {
        match ToldStore::open_on(alloc, disk, Some(key)) {
            Ok(store) => Ok(Node { store, key, random }),
            Err(_) => Err(NoMemory),
        }
    }

    /// Makes a call at the node, which is nobody's. `readings` is the number of the clock's next reading, counted from 0,
    /// and below 2^33. A call that only asks leaves the node as it was.
    ///
    /// # Errors
    ///
    /// [`CallFail::Refused`], where the call's step refuses it; [`CallFail::NoMemory`]. What stands after want of memory
    /// isn't told.
    pub fn append(&mut self, alloc: Global, call: &Call, readings: u64) -> Result<Answer, CallFail>
        requires fits { CallFits (call_seen call.now) }
        requires ready { IsReady self.old }
        requires few { readings < 2 ^ 33 }
        ensures { Appends self.old self.new (call_seen call.now) readings result }
    {
        let mut clock = FixedClock {
            now: FIRST_READING + readings * READING_STEP,
            step: READING_STEP,
        };
        let mut random = match next_bytes(alloc, self.random) {
            Ok(bytes) => SureEntropy::new(bytes),
            Err(_) => return Err(CallFail::NoMemory),
        };
        let reply = self.store.ask(alloc, NOBODY, call, &mut random, &mut clock);
        let answer = granted(reply.result)?;
        self.random = state_after(self.random, words_of(&answer));
        Ok(answer)
    }

    /// The node after a crash of its disk, opened again. By `pick` mod 3 the disk's writes since its last sync are lost
    /// (0), are kept (1), or become bytes 0xff (2); the journal stays in each case.
    ///
    /// # Errors
    ///
    /// [`NoMemory`].
    pub fn crash(self, alloc: Global, pick: u64) -> Result<Node, NoMemory>
        requires { IsReady self }
        ensures { IfOk result (λ node. Becomes self self.journal self.random node) }
    {
        let key = self.key;
        let random = self.random;
        let left = self.store.into_disk().crash(alloc, pick)?;
        Node::open(alloc, left, key, random)
    }

    /// The store alone. It takes no memory.
    pub fn into_store(self) -> Store<SureDisk>
        ensures is { IsStoreOf result self.journal self.doubt }
        ensures host { result.log.host ≡ self.host }
    {
        self.store.into_store()
    }
}

//! A store that is opened on a disk, with its note.

ghost use Rattle.std.specs.Prelude.{◌≡◌, None, MatchResult, IfOk};
ghost use Rattle.record_log.specs.Opening.{OpenCause, LeavesNoMore};
ghost use Rattle.told_store.specs.Opening.{OpensTold};

use crate::ToldStore;
use crate::choices::Opened;
use at_edge::Disk;
use state_notes::{Noted, NotedStore};
use std::alloc::Global;
use store_core::{OpenFail, Store};

impl<D: Disk> ToldStore<D> {
    /// The store of the log that stands on a disk, with this key or none. Noted is the journal that the log stands for, each
    /// entry by nobody, with nothing in doubt and no turn so far. The disk is synced and read, and nothing is written to it.
    ///
    /// # Errors
    ///
    /// The disk comes back, with the cause for which no store was opened.
    pub fn open_on(alloc: Global, disk: D, key: Option<[u8; 32]>) -> Result<Self, (OpenFail, D)>
        ensures opens { MatchResult result (λ t. OpensTold (D.disk disk) t.store t.note) (λ e. OpenCause e.0 (D.disk disk) (D.disk e.1)) }
        ensures settled { IfOk result (λ t. t.store.doubt ≡ None) }
        ensures key { IfOk result (λ t. t.store.key ≡ key) }
        ensures crash { MatchResult result (λ t. LeavesNoMore (D.disk disk).history t.store.log.disk.history) (λ e. LeavesNoMore (D.disk disk).history (D.disk e.1).history) }
    {
        let disk_was = Noted::of(&disk);
        let store = match Store::open_on(alloc, disk, key) {
            Ok(store) => store,
            Err(fail) => return Err(fail),
        };
        let noted = NotedStore::chosen(&Opened {
            disk_was: &disk_was,
            store: &store,
        });
        Ok(ToldStore { store, noted })
    }
}

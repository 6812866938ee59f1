// Disks in memory.
ghost use Rattle.std.specs.Prelude.{◌≡◌, [], Some, None, Contains, IsErr, IsSome, IfOk, length};
ghost use Rattle.disk_rules.specs.Disk.{IsDisk};
ghost use Rattle.disk_rules.specs.Calls.{Write, Sync};
ghost use Rattle.disk_rules.specs.History.{history_of};
ghost use Rattle.at_edge.specs.Planned.{unmade, Made, MadeAsPlanned};
ghost use Rattle.at_edge.specs.Storing.{Tells, Measures, MayRead, ReadsAt, MayChange, Changes, IsMeasurable};
ghost use Rattle.at_edge.specs.Crashing.{Crashes};

use crate::faults::{FailingCalls, count_fault};
use crate::medium::Medium;
use crate::{Disk, DiskFault};
use plain_types::NoMemory;
use std::alloc::Global;

/// A disk that keeps its bytes, and all its calls, in memory, some of whose calls fail. A call that fails has done
/// nothing.
#[derive(Drop)]
pub struct MemDisk {
    medium: Medium,
    failing: FailingCalls,
}

impl MemDisk {
    ghost use Rattle.at_edge.specs.DiskViews.{disk_seen, disk_plan};

    /// A disk of these bytes, all synced. `failing` lists the numbers of the calls that are to fail, counted from 1.
    ///
    /// # Errors
    ///
    /// `NoMemory`, where there is none for copies of the bytes.
    pub fn new(alloc: Global, bytes: Vec<u8>, failing: Vec<u64>) -> Result<Self, NoMemory>
        ensures seen { IfOk result (λ d. disk_seen d ≡ record { history = Some (history_of bytes.items []); faults = 0 }) }
        ensures plan { IfOk result (λ d. disk_plan d ≡ unmade failing.items) }
    {
        Ok(MemDisk {
            medium: Medium::new(alloc, bytes)?,
            failing: FailingCalls::new(failing),
        })
    }

    /// The same disk, but one that doesn't tell.
    pub fn silent(self) -> Self
        ensures silent { (disk_seen result).history ≡ None }
        ensures faults { (disk_seen result).faults ≡ (disk_seen self).faults }
        ensures plan { disk_plan result ≡ disk_plan self }
    {
        MemDisk {
            medium: self.medium.silent(),
            failing: self.failing,
        }
    }

    /// What the disk shows.
    pub fn shows(&self) -> &[u8]
        ensures { Tells (disk_seen self.now) (λ disk. result.now ≡ disk.shows) }
    {
        self.medium.shows()
    }

    /// A disk of what a crash now leaves, all synced, none of whose calls is to fail. By `pick` mod 3 the writes since
    /// the last sync are lost (0), are kept (1), or become bytes 0xff (2). It tells where this one does.
    ///
    /// # Errors
    ///
    /// `NoMemory`, where there is none for copies of the bytes.
    pub fn crash(&self, alloc: Global, pick: u64) -> Result<Self, NoMemory>
        ensures crashes { IfOk result (λ d. Crashes pick (disk_seen self.now).history (disk_seen d).history) }
        ensures faults { IfOk result (λ d. (disk_seen d).faults ≡ 0) }
        ensures plan { IfOk result (λ d. disk_plan d ≡ unmade []) }
    {
        Ok(MemDisk {
            medium: self.medium.crash(alloc, pick)?,
            failing: FailingCalls::new(Vec::new(alloc)),
        })
    }
}

impl Disk for MemDisk {
    ghost use Rattle.at_edge.specs.DiskViews.{disk_seen, disk_plan, kept_history};
    ghost use Rattle.std.specs.Prelude.{map};
    ghost use Rattle.disk_rules.proofs.Histories.{history_is_disk};
    ghost use Rattle.at_edge.specs.Changing.{call_of, told_is_disk};

    ghost disk = { disk_seen };

    ghost whole = { λ d. told_is_disk d.medium.tells (kept_history d.medium) (history_is_disk d.medium.first.items (map call_of d.medium.changes.items)) };

    /// Fails exactly where the number of this call is listed.
    fn len(&mut self) -> Result<u64, DiskFault>
        ensures measures { Measures (disk_seen self.old) (disk_seen self.new) result }
        ensures planned { MadeAsPlanned (disk_plan self.old) (disk_plan self.new) (IsErr result) }
    {
        if self.failing.next_fails() {
            return Err(DiskFault);
        }
        Ok(self.medium.shows().len() as u64)
    }

    /// Fails where the number of this call is listed, and nowhere else where the disk tells. Where it doesn't tell, a
    /// range that isn't there is a fault too.
    fn read_at(&mut self, at: u64, into: &mut [u8]) -> Result<(), DiskFault>
        requires { MayRead (disk_seen self.old) at (length into.old) }
        ensures reads { ReadsAt (disk_seen self.old) (disk_seen self.new) result at into.new }
        ensures made { Made (disk_plan self.old) (disk_plan self.new) }
        ensures planned { Contains (disk_plan self.old).numbers (disk_plan self.new).made → IsErr result }
        ensures unplanned { IsSome (disk_seen self.old).history → IsErr result → Contains (disk_plan self.old).numbers (disk_plan self.new).made }
    {
        if self.failing.next_fails() {
            return Err(DiskFault);
        }
        match self.medium.read(at, into) {
            Ok(()) => Ok(()),
            Err(fault) => {
                self.failing.fail();
                Err(fault)
            }
        }
    }

    /// Fails where the number of this call is listed, and where there is no memory to grow. Where the disk doesn't tell,
    /// an offset past the end is a fault too.
    fn write_at(&mut self, at: u64, from: &[u8]) -> Result<(), DiskFault>
        requires { MayChange (disk_seen self.old) (Write at from.now) }
        ensures writes { Changes (disk_seen self.old) (disk_seen self.new) result (Write at from.now) }
        ensures measured { IfOk result (λ _. Tells (disk_seen self.new) IsMeasurable) }
        ensures undone { IsErr result → (disk_seen self.new).history ≡ (disk_seen self.old).history }
        ensures made { Made (disk_plan self.old) (disk_plan self.new) }
        ensures planned { Contains (disk_plan self.old).numbers (disk_plan self.new).made → IsErr result }
    {
        if self.failing.next_fails() {
            return Err(DiskFault);
        }
        match self.medium.write(at, from) {
            Ok(()) => Ok(()),
            Err(fault) => {
                self.failing.fail();
                Err(fault)
            }
        }
    }

    /// Fails where the number of this call is listed, and where there is no memory to grow.
    fn sync(&mut self) -> Result<(), DiskFault>
        ensures syncs { Changes (disk_seen self.old) (disk_seen self.new) result Sync }
        ensures made { Made (disk_plan self.old) (disk_plan self.new) }
        ensures planned { Contains (disk_plan self.old).numbers (disk_plan self.new).made → IsErr result }
    {
        if self.failing.next_fails() {
            return Err(DiskFault);
        }
        match self.medium.sync() {
            Ok(()) => Ok(()),
            Err(_) => {
                self.failing.fail();
                Err(DiskFault)
            }
        }
    }

    fn disown(&mut self) -> DiskFault {
        self.failing.fail();
        DiskFault
    }
}

/// A disk that keeps its bytes, and all its calls, in memory, and fails only where it finds no memory to grow, or, where
/// it doesn't tell, where a range isn't there. A call that fails has done nothing.
#[derive(Drop)]
pub struct SureDisk {
    medium: Medium,
    faults: u64,
}

impl SureDisk {
    ghost use Rattle.at_edge.specs.DiskViews.{sure_disk_seen};

    /// A disk of these bytes, all synced.
    ///
    /// # Errors
    ///
    /// `NoMemory`, where there is none for copies of the bytes.
    pub fn new(alloc: Global, bytes: Vec<u8>) -> Result<Self, NoMemory>
        ensures { IfOk result (λ d. sure_disk_seen d ≡ record { history = Some (history_of bytes.items []); faults = 0 }) }
    {
        Ok(SureDisk {
            medium: Medium::new(alloc, bytes)?,
            faults: 0,
        })
    }

    /// The same disk, but one that doesn't tell.
    pub fn silent(self) -> Self
        ensures silent { (sure_disk_seen result).history ≡ None }
        ensures faults { (sure_disk_seen result).faults ≡ (sure_disk_seen self).faults }
    {
        SureDisk {
            medium: self.medium.silent(),
            faults: self.faults,
        }
    }

    /// What the disk shows.
    pub fn shows(&self) -> &[u8]
        ensures { Tells (sure_disk_seen self.now) (λ disk. result.now ≡ disk.shows) }
    {
        self.medium.shows()
    }

    /// A disk of what a crash now leaves, all synced. By `pick` mod 3 the writes since the last sync are lost (0), are
    /// kept (1), or become bytes 0xff (2). It tells where this one does.
    ///
    /// # Errors
    ///
    /// `NoMemory`, where there is none for copies of the bytes.
    pub fn crash(&self, alloc: Global, pick: u64) -> Result<Self, NoMemory>
        ensures crashes { IfOk result (λ d. Crashes pick (sure_disk_seen self.now).history (sure_disk_seen d).history) }
        ensures faults { IfOk result (λ d. (sure_disk_seen d).faults ≡ 0) }
    {
        Ok(SureDisk {
            medium: self.medium.crash(alloc, pick)?,
            faults: 0,
        })
    }
}

impl Disk for SureDisk {
    ghost use Rattle.at_edge.specs.DiskViews.{sure_disk_seen, kept_history};
    ghost use Rattle.std.specs.Prelude.{map};
    ghost use Rattle.disk_rules.proofs.Histories.{history_is_disk};
    ghost use Rattle.at_edge.specs.Changing.{call_of, told_is_disk};

    ghost disk = { sure_disk_seen };

    ghost whole = { λ d. told_is_disk d.medium.tells (kept_history d.medium) (history_is_disk d.medium.first.items (map call_of d.medium.changes.items)) };

    fn len(&mut self) -> Result<u64, DiskFault> {
        Ok(self.medium.shows().len() as u64)
    }

    fn read_at(&mut self, at: u64, into: &mut [u8]) -> Result<(), DiskFault> {
        match self.medium.read(at, into) {
            Ok(()) => Ok(()),
            Err(fault) => {
                count_fault(&mut self.faults);
                Err(fault)
            }
        }
    }

    fn write_at(&mut self, at: u64, from: &[u8]) -> Result<(), DiskFault> {
        match self.medium.write(at, from) {
            Ok(()) => Ok(()),
            Err(fault) => {
                count_fault(&mut self.faults);
                Err(fault)
            }
        }
    }

    fn sync(&mut self) -> Result<(), DiskFault> {
        match self.medium.sync() {
            Ok(()) => Ok(()),
            Err(_) => {
                count_fault(&mut self.faults);
                Err(DiskFault)
            }
        }
    }

    fn disown(&mut self) -> DiskFault {
        count_fault(&mut self.faults);
        DiskFault
    }
}

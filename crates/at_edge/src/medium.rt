// What a disk in memory keeps: its bytes, what of them a crash may leave, and all the calls that changed it.
ghost use Rattle.std.specs.Prelude.{◌≡◌, ◌↔◌, ◌+◌, ◌<◌, [], Some, None, length, take, drop, map, replicate, IfOk, OnOk, OnErr, IsErr};
ghost use Rattle.disk_rules.specs.Calls.{Write, Sync, overwritten as written_over};
ghost use Rattle.disk_rules.specs.History.{history_of};
ghost use Rattle.at_edge.specs.Storing.{Succeeds, IsMeasurable};
ghost use Rattle.at_edge.specs.Changing.{call_of, KeepsMoment};
ghost use Rattle.at_edge.specs.Crashing.{crash_image, Crashes};

use crate::DiskFault;
use plain_types::NoMemory;
use std::alloc::Global;

/// A call that changed a disk.
#[derive(Drop)]
pub(crate) enum Change {
    Written(usize, Vec<u8>),
    Synced,
}

/// The bytes of a disk, those that it began with, and each call since that changed it. A call that finds no memory
/// does nothing. Whether the history is told is a switch, so that there are disks in memory that don't tell.
#[derive(Drop)]
pub(crate) struct Medium {
    alloc: Global,
    tells: bool,
    first: Vec<u8>,
    changes: Vec<Change>,
    shows: Vec<u8>,
    synced: Vec<u8>,
    blots: Vec<u8>,
    ghost kept: { KeepsMoment (history_of first.items (map call_of changes.items)).now shows.items synced.items blots.items },
}

/// A copy of the bytes with others over them from the offset on, or behind them where the offset is past the end.
fn overwritten(alloc: Global, bytes: &[u8], at: usize, over: &[u8]) -> Result<Vec<u8>, NoMemory>
    ensures { IfOk result (λ v. v.items ≡ written_over bytes.now at over.now) }
{
    let start = at.min(bytes.len());
    let end = at.saturating_add(over.len()).min(bytes.len());
    let mut copy = bytes[..start].to_vec(alloc)?;
    copy.extend_from_slice(over)?;
    copy.extend_from_slice(&bytes[end..])?;
    Ok(copy)
}

/// A copy of the bytes with as many bytes 0xff over them from the offset on.
fn blotted(alloc: Global, bytes: &[u8], at: usize, count: usize) -> Result<Vec<u8>, NoMemory>
    ensures { IfOk result (λ v. v.items ≡ written_over bytes.now at (replicate count 255)) }
{
    let blots = vec![in alloc; 255u8; count]?;
    overwritten(alloc, bytes, at, &blots)
}

/// Fills the slice with the bytes from the offset on, where there are that many.
fn copy_range(bytes: &[u8], at: u64, into: &mut [u8]) -> Result<(), DiskFault>
    ensures filled { OnOk result (into.new ≡ take (length into.new) (drop at bytes.now)) }
    ensures missing { IsErr result ↔ length bytes.now < at + length into.old }
{
    let held = bytes.len() as u64;
    if at > held || held - at < into.len() as u64 {
        return Err(DiskFault);
    }
    let start = at as usize;
    into.copy_from_slice(&bytes[start..start + into.len()]);
    Ok(())
}

impl Medium {
    ghost use Rattle.at_edge.specs.DiskViews.{kept_history, told_history};

    /// A medium of these bytes, all synced. It tells.
    pub(crate) fn new(alloc: Global, bytes: Vec<u8>) -> Result<Self, NoMemory>
        ensures { IfOk result (λ m. told_history m ≡ Some (history_of bytes.items [])) }
    {
        let first = bytes.to_vec(alloc)?;
        let synced = bytes.to_vec(alloc)?;
        let blots = bytes.to_vec(alloc)?;
        Ok(Medium {
            alloc,
            tells: true,
            first,
            changes: Vec::new(alloc),
            shows: bytes,
            synced,
            blots,
        })
    }

    /// The same medium, but one that doesn't tell.
    pub(crate) fn silent(self) -> Self
        ensures { told_history result ≡ None }
    {
        Medium {
            alloc: self.alloc,
            tells: false,
            first: self.first,
            changes: self.changes,
            shows: self.shows,
            synced: self.synced,
            blots: self.blots,
        }
    }

    /// What the disk shows.
    pub(crate) fn shows(&self) -> &[u8]
        ensures { result.now ≡ (kept_history self.now).now.shows }
    {
        &self.shows
    }

    /// Fills the slice with the bytes from the offset on, where there are that many. Else the slice may hold anything.
    pub(crate) fn read(&self, at: u64, into: &mut [u8]) -> Result<(), DiskFault>
        ensures filled { OnOk result (into.new ≡ take (length into.new) (drop at (kept_history self.now).now.shows)) }
        ensures missing { IsErr result ↔ length (kept_history self.now).now.shows < at + length into.old }
    {
        copy_range(&self.shows, at, into)
    }

    /// Writes these bytes over the others from the offset on, which is at most the length.
    pub(crate) fn write(&mut self, at: u64, from: &[u8]) -> Result<(), DiskFault>
        ensures written { OnOk result (Succeeds (Write at from.now) (told_history self.old) (told_history self.new)) }
        ensures length { IsMeasurable (kept_history self.new).now }
        ensures undone { OnErr result (told_history self.new ≡ told_history self.old) }
    {
        if at > self.shows.len() as u64 || self.overwrite(at as usize, from).is_err() {
            return Err(DiskFault);
        }
        Ok(())
    }

    fn overwrite(&mut self, at: usize, from: &[u8]) -> Result<(), NoMemory>
        ensures written { OnOk result (Succeeds (Write at from.now) (told_history self.old) (told_history self.new)) }
        ensures undone { OnErr result (told_history self.new ≡ told_history self.old) }
    {
        let shows = overwritten(self.alloc, &self.shows, at, from)?;
        let blots = blotted(self.alloc, &self.blots, at, from.len())?;
        let bytes = from.to_vec(self.alloc)?;
        self.changes.push(Change::Written(at, bytes))?;
        self.shows = shows;
        self.blots = blots;
        Ok(())
    }

    /// Syncs what is shown.
    pub(crate) fn sync(&mut self) -> Result<(), NoMemory>
        ensures synced { OnOk result (Succeeds Sync (told_history self.old) (told_history self.new)) }
        ensures undone { OnErr result (told_history self.new ≡ told_history self.old) }
    {
        let synced = self.shows.to_vec(self.alloc)?;
        let blots = self.shows.to_vec(self.alloc)?;
        self.changes.push(Change::Synced)?;
        self.synced = synced;
        self.blots = blots;
        Ok(())
    }

    /// What a crash leaves: by `pick` mod 3 the unsynced writes are lost, are kept, or become bytes 0xff.
    fn image(&self, pick: u64) -> &[u8]
        ensures { result.now ≡ crash_image pick (kept_history self.now).now }
    {
        match pick % 3 {
            0 => &self.synced,
            1 => &self.shows,
            _ => &self.blots,
        }
    }

    /// A medium of what a crash leaves, all synced, which tells where this one does.
    pub(crate) fn crash(&self, alloc: Global, pick: u64) -> Result<Self, NoMemory>
        ensures { IfOk result (λ m. Crashes pick (told_history self.now) (told_history m)) }
    {
        let left = self.image(pick).to_vec(alloc)?;
        let medium = Medium::new(alloc, left)?;
        if self.tells {
            return Ok(medium);
        }
        Ok(medium.silent())
    }
}

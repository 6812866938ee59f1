//! The log that stands on a disk.

ghost use Rattle.std.specs.Prelude.{◌≡◌, ◌≤◌, ◌<◌, ◌+◌, ◌^◌, length, IfOk};
ghost use Rattle.at_edge.specs.Storing.{Rests};
ghost use Rattle.record_log.specs.Opening.{Finds};

use crate::headers::{Header, read_first};
use crate::reading::zeros;
use at_edge::Disk;
use log_check::{LogForm, WalkFail, find_closed_gate};
use std::alloc::Global;

/// The most bytes of a body that are read at once.
pub(crate) const PIECE_BYTES: usize = 65_536;

/// Why no log was opened.
#[derive(Clone, Copy, Debug, PartialEq, Eq)]
pub enum OpenFail {
    /// The disk doesn't begin with a log's header.
    NotALog,
    /// The batch at this offset is the first that is no good one.
    Damaged { offset: u64 },
    /// A call of the disk failed.
    DiskFault,
    /// Memory ran out.
    NoMemory,
    /// The disk begins with the header of an older log.
    OldLog,
}

/// The host of the log that the disk shows, and the offset of its closed gate.
pub(crate) fn find_log<D: Disk>(alloc: Global, disk: &mut D) -> Result<(u128, u64), OpenFail>
    ensures finds { Finds result (D.disk disk.old) (D.disk disk.new) }
    ensures fits { IfOk result (λ found. found.1 + 1 < 2 ^ 64) }
    ensures rests { Rests (D.disk disk.old) (D.disk disk.new) }
{
    let end = match disk.len() {
        Ok(end) => end,
        Err(_) => return Err(OpenFail::DiskFault),
    };
    let host = match read_first(disk, end) {
        Ok(Header::Current { host }) => host,
        Ok(Header::Old { .. }) => return Err(OpenFail::OldLog),
        Ok(Header::Neither) => return Err(OpenFail::NotALog),
        Err(_) => return Err(OpenFail::DiskFault),
    };
    let mut piece = match zeros(alloc, PIECE_BYTES) {
        Ok(piece) => piece,
        Err(_) => return Err(OpenFail::NoMemory),
    };
    match find_closed_gate(alloc, disk, &mut piece, LogForm::Current, host, end) {
        Ok(gate) => Ok((host, gate)),
        Err(WalkFail::Damaged { offset }) => Err(OpenFail::Damaged { offset }),
        Err(WalkFail::DiskFault) => Err(OpenFail::DiskFault),
        Err(WalkFail::NoMemory) => Err(OpenFail::NoMemory),
    }
}

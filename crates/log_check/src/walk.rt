//! The way from a log's header to its closed gate.

ghost use Rattle.std.specs.Prelude.{◌≡◌, ◌≤◌, ◌<◌, length, IfOk};
ghost use Rattle.log_rules.specs.Log.{HasHeader};
ghost use Rattle.at_edge.specs.Storing.{Tells, Rests};
ghost use Rattle.log_check.specs.Forms.{form_of};
ghost use Rattle.log_check.specs.Walks.{Walks};

use crate::batch_check::{check_batch, is_open};
use crate::checking::BatchFail;
use crate::forms::LogForm;
use at_edge::Disk;
use journal_check::JournalCheck;
use std::alloc::Global;

/// The offset of the first gate.
const FIRST_GATE: u64 = 32;

/// Why the closed gate wasn't reached.
#[derive(Clone, Copy, Debug, PartialEq, Eq)]
pub enum WalkFail {
    /// The batch at this offset is the first that is no good one.
    Damaged { offset: u64 },
    /// A call of the disk failed.
    DiskFault,
    /// Memory ran out.
    NoMemory,
}

/// The offset of the closed gate of a log of this host in this form, on a disk of `end` bytes, which begin with its header.
/// Bodies are read in pieces as long as the buffer.
///
/// # Errors
///
/// [`WalkFail::Damaged`] exactly where the batch at that offset is no good one and all before it are; [`WalkFail::DiskFault`],
/// where the disk's count rose; [`WalkFail::NoMemory`].
pub fn find_closed_gate<D: Disk>(
    alloc: Global,
    disk: &mut D,
    buffer: &mut [u8],
    form: LogForm,
    host: u128,
    end: u64,
) -> Result<u64, WalkFail>
    requires whole { Tells (D.disk disk.old) (λ d. end ≡ length d.shows) }
    requires header { Tells (D.disk disk.old) (λ d. HasHeader (form_of form) d.shows host) }
    requires long { 33 ≤ end }
    requires room { 0 < length buffer.old }
    ensures walks { Walks (form_of form) result (D.disk disk.old) (D.disk disk.new) host }
    ensures inside { IfOk result (λ gate. (32 ≤ gate) × (gate < end)) }
    ensures rests { Rests (D.disk disk.old) (D.disk disk.new) }
{
    let mut check = JournalCheck::new(alloc, host);
    let mut gate = FIRST_GATE;
    loop {
        match is_open(disk, gate) {
            Ok(true) => {}
            Ok(false) => return Ok(gate),
            Err(_) => return Err(WalkFail::DiskFault),
        }
        match check_batch(alloc, disk, buffer, form, gate, end, &mut check) {
            Ok(next) => gate = next,
            Err(BatchFail::Bad) => return Err(WalkFail::Damaged { offset: gate }),
            Err(BatchFail::DiskFault) => return Err(WalkFail::DiskFault),
            Err(BatchFail::NoMemory) => return Err(WalkFail::NoMemory),
        }
    }
}

//! The batch behind an open gate: its length, its body, its digest, and the gate behind it.

ghost use Rattle.std.specs.Prelude.{◌≡◌, ◌≤◌, ◌<◌, ◌+◌, ◌^◌, [], ◌∷◌, length, IfOk};
ghost use Rattle.std.specs.Int.{w32, to_be_bytes};
ghost use Rattle.at_edge.specs.Storing.{Tells, MayRead, Rests};
ghost use Rattle.log_check.specs.Checking.{FaultCause};
ghost use Rattle.log_check.specs.Forms.{form_of, digest_bytes};
ghost use Rattle.log_check.specs.Batches.{ShownAt, ComparedAt, GateAt, ReadsBatch};

use crate::body_check::read_body;
use crate::checking::BatchFail;
use crate::forms::LogForm;
use at_edge::{Disk, DiskFault};
use journal_check::JournalCheck;
use std::alloc::Global;

/// The bytes of a batch beside its body and its digest: its gate, its length, and the next gate.
const BESIDE_BODY: u64 = 6;

/// The number that these bytes are, in big order.
fn number_of(bytes: &[u8; 4]) -> u32
    ensures { bytes.now ≡ to_be_bytes w32 result }
{
    u32::from_be_bytes(*bytes)
}

/// Four bytes of the disk, as a number.
fn read_number<D: Disk>(disk: &mut D, at: u64) -> Result<u32, DiskFault>
    requires { MayRead (D.disk disk.old) at 4 }
    ensures shown { ShownAt (to_be_bytes w32) result (D.disk disk.old) (D.disk disk.new) at 4 }
    ensures rests { Rests (D.disk disk.old) (D.disk disk.new) }
{
    let mut bytes = [0; 4];
    match disk.read_at(at, &mut bytes) {
        Ok(()) => Ok(number_of(&bytes)),
        Err(fault) => Err(fault),
    }
}

/// Whether the disk shows these bytes there.
fn compare<D: Disk>(disk: &mut D, at: u64, digest: &[u8; 16]) -> Result<bool, DiskFault>
    requires { MayRead (D.disk disk.old) at 16 }
    ensures compared { ComparedAt result (D.disk disk.old) (D.disk disk.new) at digest.now }
    ensures rests { Rests (D.disk disk.old) (D.disk disk.new) }
{
    let mut bytes = [0; 16];
    match disk.read_at(at, &mut bytes) {
        Ok(()) => Ok(bytes == *digest),
        Err(fault) => Err(fault),
    }
}

/// Whether the gate at this offset is open.
pub(crate) fn is_open<D: Disk>(disk: &mut D, at: u64) -> Result<bool, DiskFault>
    requires { MayRead (D.disk disk.old) at 1 }
    ensures gate { GateAt result (D.disk disk.old) (D.disk disk.new) at }
    ensures rests { Rests (D.disk disk.old) (D.disk disk.new) }
{
    let mut bytes = [0; 1];
    match disk.read_at(at, &mut bytes) {
        Ok(()) => Ok(bytes[0] != 0),
        Err(fault) => Err(fault),
    }
}

/// How many bytes a digest has in this form.
fn digest_length(form: LogForm) -> u64
    ensures { result ≡ digest_bytes form }
{
    match form {
        LogForm::Current => 16,
        LogForm::Old => 0,
    }
}

/// Checks the batch behind the open gate at this offset, on a disk of `end` bytes, and gives the offset of the next gate.
pub(crate) fn check_batch<D: Disk>(
    alloc: Global,
    disk: &mut D,
    buffer: &mut [u8],
    form: LogForm,
    gate: u64,
    end: u64,
    check: &mut JournalCheck,
) -> Result<u64, BatchFail>
    requires whole { Tells (D.disk disk.old) (λ d. end ≡ length d.shows) }
    requires inside { gate < end }
    requires room { 0 < length buffer.old }
    ensures batch { ReadsBatch (form_of form) result (D.disk disk.old) gate check.old check.new }
    ensures inside { IfOk result (λ next. (gate < next) × (next < end)) }
    ensures host { check.new.host ≡ check.old.host }
    ensures rests { Rests (D.disk disk.old) (D.disk disk.new) }
    ensures cause { FaultCause result (D.disk disk.old) (D.disk disk.new) }
    ensures buffer { length buffer.new ≡ length buffer.old }
{
    let beside = BESIDE_BODY + digest_length(form);
    let left = end - gate;
    if left < beside {
        return Err(BatchFail::Bad);
    }
    let limit = match read_number(disk, gate + 1) {
        Ok(limit) => limit,
        Err(_) => return Err(BatchFail::DiskFault),
    };
    if left - beside < u64::from(limit) {
        return Err(BatchFail::Bad);
    }
    let digest = match read_body(alloc, disk, buffer, gate, limit, check) {
        Ok(digest) => digest,
        Err(fail) => return Err(fail),
    };
    let behind = gate + 5 + u64::from(limit);
    match form {
        LogForm::Old => Ok(behind),
        LogForm::Current => match compare(disk, behind, &digest) {
            Ok(true) => Ok(behind + 16),
            Ok(false) => Err(BatchFail::Bad),
            Err(_) => Err(BatchFail::DiskFault),
        },
    }
}

//! A batch's body, read and checked in pieces.

ghost use Rattle.std.specs.Prelude.{◌≡◌, ◌⊎◌, ◌≤◌, ◌<◌, ◌+◌, ◌^◌, ℕ, List, ◌++◌, length, min, OnOk, Err};
ghost use Rattle.definitions.specs.Counts.{Rose};
ghost use Rattle.definitions.specs.Spelling.{IsBytes};
ghost use Rattle.record_rules.specs.Records as kept;
ghost use Rattle.log_rules.specs.Pieces.{Awaits, Over, next_in};
ghost use Rattle.log_format.specs.Digests.{Digests};
ghost use Rattle.at_edge.specs.Storing.{Tells, MayRead, Rests};
ghost use Rattle.log_check.specs.Checking.{HasChecked, TakesEvents, ReadsPiece, ReadsBody, FaultCause};

use crate::checking::{BatchFail, take_events};
use at_edge::Disk;
use journal_check::JournalCheck;
use log_format::{BatchDigest, BodyReader};
use std::alloc::Global;

/// Reads the next bytes of a body into the piece, and takes the events that are there with them.
fn take_piece<D: Disk>(
    alloc: Global,
    disk: &mut D,
    at: u64,
    piece: &mut [u8],
    digest: &mut BatchDigest,
    reader: &mut BodyReader,
    check: &mut JournalCheck,
) -> Result<(), BatchFail>
    requires there { MayRead (D.disk disk.old) at (length piece.old) }
    requires fits { reader.old.reading.at + length reader.old.reading.rest + length piece.old ≤ reader.old.reading.limit }
    ensures takes { (limit : ℕ) (before : List kept.Event) (bytes : List ℕ) → HasChecked limit before bytes reader.old check.old → TakesEvents result limit check.old.host before (bytes ++ piece.new) reader.new check.new }
    ensures digests { OnOk result ((offset limit : ℕ) (bytes : List ℕ) → Digests digest.old offset limit bytes → Digests digest.new offset limit (bytes ++ piece.new)) }
    ensures shown { ReadsPiece result (D.disk disk.old) at piece.new }
    ensures bytes { IsBytes piece.new }
    ensures awaits { OnOk result ((next_in reader.new ≡ Awaits) ⊎ (next_in reader.new ≡ Over)) }
    ensures place { OnOk result (reader.new.reading.at + length reader.new.reading.rest ≡ reader.old.reading.at + length reader.old.reading.rest + length piece.old) }
    ensures limit { OnOk result (reader.new.reading.limit ≡ reader.old.reading.limit) }
    ensures host { check.new.host ≡ check.old.host }
    ensures rests { Rests (D.disk disk.old) (D.disk disk.new) }
    ensures cause { FaultCause result (D.disk disk.old) (D.disk disk.new) }
{
    match disk.read_at(at, piece) {
        Ok(()) => {}
        Err(_) => return Err(BatchFail::DiskFault),
    }
    digest.update(piece);
    match reader.push(piece) {
        Ok(()) => {}
        Err(_) => return Err(BatchFail::NoMemory),
    }
    match take_events(alloc, reader, check) {
        Ok(()) => Ok(()),
        Err(BatchFail::Bad) => Err(BatchFail::Bad),
        Err(_) => Err(BatchFail::NoMemory),
    }
}

/// How many bytes the next piece has.
fn piece_length(left: u32, room: usize) -> usize
    ensures { result ≡ min left room }
{
    (left as usize).min(room)
}

/// Reads the body of the batch behind the gate at this offset, checks its events, and gives its digest.
pub(crate) fn read_body<D: Disk>(
    alloc: Global,
    disk: &mut D,
    buffer: &mut [u8],
    gate: u64,
    limit: u32,
    check: &mut JournalCheck,
) -> Result<[u8; 16], BatchFail>
    requires there { Tells (D.disk disk.old) (λ d. gate + 5 + limit ≤ length d.shows) }
    requires fits { gate + 5 + limit < 2 ^ 64 }
    requires room { 0 < length buffer.old }
    ensures body { ReadsBody result (D.disk disk.old) gate limit check.old check.new }
    ensures host { check.new.host ≡ check.old.host }
    ensures rests { Rests (D.disk disk.old) (D.disk disk.new) }
    ensures cause { FaultCause result (D.disk disk.old) (D.disk disk.new) }
{
    let mut digest = BatchDigest::new(gate, limit);
    let mut reader = BodyReader::new(alloc, limit);
    match take_events(alloc, &mut reader, check) {
        Ok(()) => {}
        Err(BatchFail::Bad) => return Err(BatchFail::Bad),
        Err(_) => return Err(BatchFail::NoMemory),
    }
    let mut done: u32 = 0;
    while done < limit {
        let count = piece_length(limit - done, buffer.len());
        let at = gate + 5 + u64::from(done);
        match take_piece(
            alloc,
            disk,
            at,
            &mut buffer[..count],
            &mut digest,
            &mut reader,
            check,
        ) {
            Ok(()) => {}
            Err(fail) => return Err(fail),
        }
        done += count as u32;
    }
    match reader.finish() {
        Ok(()) => Ok(digest.finish()),
        Err(_) => Err(BatchFail::Bad),
    }
}

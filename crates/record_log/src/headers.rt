//! The header with which a disk begins.

ghost use Rattle.std.specs.Prelude.{◌≡◌, ◌≤◌, ℕ, List, length, take, IfOk};
ghost use Rattle.at_edge.specs.Storing.{Tells, Rests};
ghost use Rattle.record_log.specs.Opening.{BeginsWith, IsLong, ReadsFirst};

use at_edge::{Disk, DiskFault};
use log_format::{HEADER_BYTES, read_header, read_old_header};

/// Which form's header stands there, and the host that it names.
#[derive(Clone, Copy, Debug, PartialEq, Eq)]
pub(crate) enum Header {
    /// The form of each log that is written.
    Current { host: u128 },
    /// The form of older logs.
    Old { host: u128 },
    /// Neither.
    Neither,
}

/// The header that these bytes are, which are the first 33 of more.
fn header_of(bytes: &[u8; 33]) -> Header
    ensures { (shows : List ℕ) → 33 ≤ length shows → bytes.now ≡ take 33 shows → BeginsWith result shows }
{
    match read_header(bytes) {
        Ok(host) => Header::Current { host },
        Err(_) => match read_old_header(bytes) {
            Ok(host) => Header::Old { host },
            Err(_) => Header::Neither,
        },
    }
}

/// The header with which the disk, of `end` bytes, begins.
pub(crate) fn read_first<D: Disk>(disk: &mut D, end: u64) -> Result<Header, DiskFault>
    requires whole { Tells (D.disk disk.old) (λ d. end ≡ length d.shows) }
    ensures first { ReadsFirst result (D.disk disk.old) (D.disk disk.new) }
    ensures long { IfOk result (λ header. IsLong header end) }
    ensures rests { Rests (D.disk disk.old) (D.disk disk.new) }
{
    if end < HEADER_BYTES as u64 {
        return Ok(Header::Neither);
    }
    let mut bytes = [0; HEADER_BYTES];
    match disk.read_at(0, &mut bytes) {
        Ok(()) => Ok(header_of(&bytes)),
        Err(fault) => Err(fault),
    }
}

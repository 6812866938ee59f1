//! A new log on an empty disk.

ghost use Rattle.std.specs.Prelude.{◌≡◌, ◌≤◌, [], None, IsErr, IfOk};
ghost use Rattle.definitions.specs.Counts.{Rose};
ghost use Rattle.at_edge.specs.Storing.{Tells};

use at_edge::Disk;

/// Why no log was made.
#[derive(Clone, Copy, Debug, PartialEq, Eq)]
pub enum CreateFail {
    /// The disk has this many bytes, at least one.
    NotEmpty { len: u64 },
    /// A call of the disk failed.
    DiskFault,
    /// Memory ran out.
    NoMemory,
}

/// Writes these bytes to an empty disk, and syncs.
pub(crate) fn write_first<D: Disk>(disk: &mut D, bytes: &[u8]) -> Result<(), at_edge::DiskFault>
    requires empty { Tells (D.disk disk.old) (λ d. d.shows ≡ []) }
    ensures wrote { IfOk result (λ _. Tells (D.disk disk.new) (λ d. (d.written ≡ []) × (d.shows ≡ bytes.now))) }
    ensures counted { IsErr result → Rose (D.disk disk.old).faults (D.disk disk.new).faults }
    ensures kept { (D.disk disk.old).faults ≤ (D.disk disk.new).faults }
    ensures silent { (D.disk disk.old).history ≡ None → (D.disk disk.new).history ≡ None }
{
    match disk.write_at(0, bytes) {
        Ok(()) => {}
        Err(fault) => return Err(fault),
    }
    match disk.sync() {
        Ok(()) => Ok(()),
        Err(fault) => Err(fault),
    }
}

//! The two halves of an append, over a disk. The first writes the batch behind the closed gate, the second opens that gate.

ghost use Rattle.std.specs.Prelude.{◌≡◌, ◌≤◌, ◌++◌, [], ◌∷◌, length, None, IsErr};
ghost use Rattle.definitions.specs.Counts.{Rose};
ghost use Rattle.at_edge.specs.Storing.{Tells};
ghost use Rattle.record_log.specs.Gates.{IsAtRest, payload_in, Stages, OpensGate};

use at_edge::{Disk, DiskFault};

/// Writes a batch and a closed gate behind the closed gate, and syncs. At `Ok` the batch is in doubt; at `Err` the
/// log is settled as before.
pub(crate) fn stage<D: Disk>(disk: &mut D, gate: u64, bytes: &[u8]) -> Result<(), DiskFault>
    requires rests { Tells (D.disk disk.old) (IsAtRest gate) }
    requires closing { bytes.now ≡ payload_in bytes.now ++ 0 ∷ [] }
    ensures stages { Stages (D.disk disk.old) (D.disk disk.new) result gate bytes.now }
    ensures counted { IsErr result → Rose (D.disk disk.old).faults (D.disk disk.new).faults }
    ensures kept { (D.disk disk.old).faults ≤ (D.disk disk.new).faults }
    ensures silent { (D.disk disk.old).history ≡ None → (D.disk disk.new).history ≡ None }
{
    let behind = gate.saturating_add(1);
    match disk.write_at(behind, bytes) {
        Ok(()) => {}
        Err(fault) => return Err(fault),
    }
    match disk.sync() {
        Ok(()) => Ok(()),
        Err(fault) => Err(fault),
    }
}

/// Opens the gate before a batch in doubt, and syncs. At `Ok` the log has the batch; at `Err` it is still in doubt.
pub(crate) fn open_gate<D: Disk>(disk: &mut D, gate: u64) -> Result<(), DiskFault>
    requires { Tells (D.disk disk.old) (λ d. gate ≤ length d.shows) }
    ensures opens { OpensGate (D.disk disk.old) (D.disk disk.new) result gate }
    ensures counted { IsErr result → Rose (D.disk disk.old).faults (D.disk disk.new).faults }
    ensures kept { (D.disk disk.old).faults ≤ (D.disk disk.new).faults }
    ensures silent { (D.disk disk.old).history ≡ None → (D.disk disk.new).history ≡ None }
{
    match disk.write_at(gate, &[1]) {
        Ok(()) => (),
        Err(fault) => return Err(fault),
    }
    match disk.sync() {
        Ok(()) => Ok(()),
        Err(fault) => Err(fault),
    }
}

//! A batch that is ready to be appended.

ghost use Rattle.std.specs.Prelude.{◌≡◌, ◌<◌, ◌^◌, length, IfOk};
ghost use Rattle.record_log.specs.Ready.{closed_batch};

use log_format::batch_digest;
use plain_types::NoMemory;
use std::alloc::Global;
use std::marker::Model;

/// A batch as bytes, for one place of a log, since its digest tells the place. Contracts see the offset of the gate behind
/// which it goes, and its body.
#[derive(Drop)]
pub struct Ready {
    offset: u64,
    count: u32,
    bytes: Vec<u8>,
}

impl Model for Ready {
    ghost use Rattle.std.specs.Prelude.{take, drop};
    ghost use Rattle.record_log.specs.Ready.{ReadyBatch, IsReady};

    ghost Value = { ReadyBatch };

    ghost view = { λ r. record { offset = r.offset; body = take r.count (drop 4 r.bytes.items) } };

    ghost invariant = { λ r. IsReady (record { offset = r.offset; body = take r.count (drop 4 r.bytes.items) }) r.count r.bytes.items };
}

/// The bytes of a batch behind its gate, and a closed gate.
fn closed(alloc: Global, offset: u64, body: &[u8]) -> Result<Vec<u8>, NoMemory>
    requires { length body.now < 2 ^ 32 }
    ensures { IfOk result (λ bytes. bytes.items ≡ closed_batch (record { offset = offset; body = body.now })) }
{
    let mut bytes = Vec::new(alloc);
    bytes.extend_from_slice(&(body.len() as u32).to_be_bytes())?;
    bytes.extend_from_slice(body)?;
    bytes.extend_from_slice(&batch_digest(offset, body))?;
    bytes.push(0)?;
    Ok(bytes)
}

impl Ready {
    /// The batch with this body, of fewer than 2^32 bytes, to go behind the gate at this offset.
    ///
    /// # Errors
    ///
    /// [`NoMemory`].
    pub(crate) fn new(alloc: Global, offset: u64, body: &[u8]) -> Result<Ready, NoMemory>
        requires { length body.now < 2 ^ 32 }
        ensures { IfOk result (λ batch. batch ≡ record { offset = offset; body = body.now }) }
    {
        let bytes = closed(alloc, offset, body)?;
        Ok(Ready {
            offset,
            count: body.len() as u32,
            bytes,
        })
    }

    /// Its bytes behind its gate, and a closed gate.
    pub(crate) fn bytes(&self) -> &[u8]
        ensures { result.now ≡ closed_batch self.now }
    {
        &self.bytes
    }

    /// The length of its body.
    pub(crate) fn count(&self) -> u32
        ensures { result ≡ length self.now.body }
    {
        self.count
    }
}

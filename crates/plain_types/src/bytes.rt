//! A growing run of bytes.

ghost use Rattle.std.specs.Prelude.{◌≡◌, ◌≤◌, ◌+◌, [], ◌∷◌, ◌++◌, length, take, drop, ◌==◌, IfOk, IsOk, OnOk, OnErr, vec_capacity};

use crate::no_memory::NoMemory;
use std::alloc::Global;
use std::marker::Model;

/// A growing run of bytes. Contracts see `items`, its bytes in order, and `reserved`, the number of bytes that it has
/// memory for, the present ones included.
#[derive(Debug, Drop)]
pub struct Bytes {
    inner: Vec<u8>,
}

impl Model for Bytes {
    ghost use Rattle.std.specs.Prelude.{vec_capacity};
    ghost use Rattle.plain_types.specs.Buffer.{Buffer};

    ghost Value = { Buffer };

    ghost view = { λ b. record { items = b.inner.items; reserved = vec_capacity b.inner } };
}

fn write_first(bytes: &mut [u8], first: &[u8])
    requires { length first.now ≤ length bytes.old }
    ensures { bytes.new ≡ first.now ++ drop (length first.now) bytes.old }
{
    bytes[..first.len()].copy_from_slice(first);
}

impl Bytes {
    /// No bytes, and no memory taken.
    pub fn new(alloc: Global) -> Bytes
        ensures items { result.items ≡ [] }
    {
        Bytes {
            inner: Vec::new(alloc),
        }
    }

    /// The bytes of `inner`, with the memory that `inner` has. It takes none.
    pub fn from_vec(inner: Vec<u8>) -> Bytes
        ensures items { result.items ≡ inner.items }
        ensures reserved { result.reserved ≡ vec_capacity inner }
    {
        Bytes { inner }
    }

    /// The bytes as a `Vec`. It takes no memory.
    pub fn into_vec(self) -> Vec<u8>
        ensures items { result.items ≡ self.items }
    {
        self.inner
    }

    pub fn as_slice(&self) -> &[u8]
        ensures items { result.now ≡ self.now.items }
    {
        self.inner.as_slice()
    }

    pub fn len(&self) -> usize
        ensures { result ≡ length self.now.items }
    {
        self.inner.as_slice().len()
    }

    pub fn is_empty(&self) -> bool
        ensures { result ≡ (length self.now.items == 0) }
    {
        self.inner.as_slice().is_empty()
    }

    /// Forgets all bytes and keeps the memory.
    pub fn clear(&mut self)
        ensures items { self.new.items ≡ [] }
        ensures reserved { self.old.reserved ≤ self.new.reserved }
    {
        self.inner.clear();
    }

    /// Makes room for `more` further bytes. The bytes stay, whatever the answer.
    ///
    /// # Errors
    ///
    /// [`NoMemory`] only where that room was missing.
    pub fn reserve(&mut self, more: usize) -> Result<(), NoMemory>
        ensures items { self.new.items ≡ self.old.items }
        ensures reserved { self.old.reserved ≤ self.new.reserved }
        ensures room { OnOk result (length self.new.items + more ≤ self.new.reserved) }
        ensures enough { length self.old.items + more ≤ self.old.reserved → IsOk result }
    {
        self.inner.try_reserve(more)?;
        Ok(())
    }

    /// Appends one byte.
    ///
    /// # Errors
    ///
    /// [`NoMemory`] only where there was no room for it. The bytes then stay.
    pub fn push(&mut self, byte: u8) -> Result<(), NoMemory>
        ensures ok { OnOk result (self.new.items ≡ self.old.items ++ byte ∷ []) }
        ensures err { OnErr result (self.new.items ≡ self.old.items) }
        ensures reserved { self.old.reserved ≤ self.new.reserved }
        ensures enough { length self.old.items + 1 ≤ self.old.reserved → IsOk result }
    {
        self.inner.push(byte)?;
        Ok(())
    }

    /// Appends `more`.
    ///
    /// # Errors
    ///
    /// [`NoMemory`] only where there was no room for it. The bytes then stay.
    pub fn extend(&mut self, more: &[u8]) -> Result<(), NoMemory>
        ensures ok { OnOk result (self.new.items ≡ self.old.items ++ more.now) }
        ensures err { OnErr result (self.new.items ≡ self.old.items) }
        ensures reserved { self.old.reserved ≤ self.new.reserved }
        ensures enough { length self.old.items + length more.now ≤ self.old.reserved → IsOk result }
    {
        self.inner.extend_from_slice(more)?;
        Ok(())
    }

    /// Keeps the first `len` bytes, or all where there are fewer, and the memory.
    pub fn truncate(&mut self, len: usize)
        ensures items { self.new.items ≡ take len self.old.items }
        ensures reserved { self.old.reserved ≤ self.new.reserved }
    {
        self.inner.truncate(len);
    }

    /// Writes `first` over the first bytes, which are at least as many.
    pub fn overwrite_first(&mut self, first: &[u8])
        requires { length first.now ≤ length self.old.items }
        ensures items { self.new.items ≡ first.now ++ drop (length first.now) self.old.items }
        ensures reserved { self.old.reserved ≤ self.new.reserved }
    {
        write_first(self.inner.as_mut_slice(), first);
    }

    /// A copy of `from`.
    ///
    /// # Errors
    ///
    /// [`NoMemory`].
    pub fn copied(alloc: Global, from: &[u8]) -> Result<Bytes, NoMemory>
        ensures { IfOk result (λ b. b.items ≡ from.now) }
    {
        let inner = Vec::from_slice(alloc, from)?;
        Ok(Bytes { inner })
    }
}

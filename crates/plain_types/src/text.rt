//! A text in UTF-8.

ghost use Rattle.std.specs.Prelude.{◌≡◌, ◌<◌, ◌^◌, [], length, IfOk, string_bytes, string_len};
ghost use Rattle.std.specs.Str.{IsUtf8};

use crate::no_memory::NoMemory;
use std::alloc::Global;
use std::marker::Model;

/// A text in UTF-8 of fewer than 2^32 bytes. Contracts see the list of its bytes.
#[derive(Debug, Drop)]
pub struct Text {
    inner: String,
}

impl Model for Text {
    ghost use Rattle.std.specs.Prelude.{ℕ, List, ◌<◌, ◌^◌, string_bytes, string_len};

    ghost Value = { List ℕ };

    ghost view = { λ t. string_bytes t.inner };

    ghost invariant = { λ t. string_len t.inner < 2 ^ 32 };
}

impl Text {
    /// The empty text. It takes no memory.
    pub fn new(alloc: Global) -> Text
        ensures { result ≡ [] }
    {
        Text {
            inner: String::new(alloc),
        }
    }

    /// The text of `inner`, which has fewer than 2^32 bytes. It takes no memory.
    pub fn from_string(inner: String) -> Text
        requires { string_len inner < 2 ^ 32 }
        ensures { result ≡ string_bytes inner }
    {
        Text { inner }
    }

    /// A copy of `bytes`, which are UTF-8 and fewer than 2^32.
    ///
    /// # Errors
    ///
    /// [`NoMemory`].
    pub fn copied(alloc: Global, bytes: &[u8]) -> Result<Text, NoMemory>
        requires utf8 { IsUtf8 bytes.now }
        requires short { length bytes.now < 2 ^ 32 }
        ensures { IfOk result (λ t. t ≡ bytes.now) }
    {
        let owned = Vec::from_slice(alloc, bytes)?;
        match String::from_utf8(owned) {
            Ok(inner) => Ok(Text { inner }),
            Err(_) => unreachable!(),
        }
    }

    /// The bytes of the text: UTF-8, and fewer than 2^32.
    pub fn as_bytes(&self) -> &[u8]
        ensures value { result.now ≡ self.now }
        ensures utf8 { IsUtf8 result.now }
        ensures short { length result.now < 2 ^ 32 }
    {
        self.inner.as_str().as_bytes()
    }

    /// The number of bytes, below 2^32.
    pub fn len(&self) -> usize
        ensures value { result ≡ length self.now }
        ensures short { result < 2 ^ 32 }
    {
        self.inner.len()
    }

    /// An equal text.
    ///
    /// # Errors
    ///
    /// [`NoMemory`].
    pub fn copy(&self, alloc: Global) -> Result<Text, NoMemory>
        ensures { IfOk result (λ t. t ≡ self.now) }
    {
        Text::copied(alloc, self.as_bytes())
    }
}

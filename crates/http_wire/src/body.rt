//! The body of a response.

ghost use Rattle.std.specs.Prelude.{◌≡◌, ◌≤◌, length};

use arrayvec::ArrayVec;
use plain_types::Bytes;
use std::marker::Model;

/// The most bytes that lie in a body without memory.
const SHORT_BYTES: usize = 128;

/// Where the bytes are kept.
#[derive(Drop)]
enum Kept {
    Short(ArrayVec<u8, SHORT_BYTES>),
    Long(Bytes),
}

/// The bytes of a body, up to 128 of them without memory. Contracts see the list of them.
#[derive(Drop)]
pub struct Body {
    kept: Kept,
}

impl Model for Body {
    ghost use Rattle.std.specs.Prelude.{ℕ, List};
    ghost use Rattle.http_wire.specs.Bodies.{bytes_of};

    ghost Value = { List ℕ };

    ghost view = { λ b. bytes_of b.kept };
}

impl Body {
    /// At most 128 bytes. It takes no memory.
    pub fn short(bytes: &[u8]) -> Body
        requires { length bytes.now ≤ 128 }
        ensures { result ≡ bytes.now }
    {
        let mut kept = ArrayVec::new();
        match kept.try_extend_from_slice(bytes) {
            Ok(()) => Body {
                kept: Kept::Short(kept),
            },
            Err(_) => unreachable!(),
        }
    }

    /// These bytes. It takes no memory.
    pub fn from_bytes(bytes: Bytes) -> Body
        ensures { result ≡ bytes.items }
    {
        Body {
            kept: Kept::Long(bytes),
        }
    }

    /// The bytes in order.
    pub fn as_slice(&self) -> &[u8]
        ensures { result.now ≡ self.now }
    {
        match &self.kept {
            Kept::Short(bytes) => bytes.as_slice(),
            Kept::Long(bytes) => bytes.as_slice(),
        }
    }
}

//! Why no message was read.

use plain_types::NoMemory;

/// Why no message was read.
#[derive(Clone, Copy, Debug, PartialEq, Eq)]
pub enum HttpFail {
    /// There are 65,536 bytes or 102 lines, and no head is whole.
    HeadTooLong,
    /// No head begins so.
    NotHttp,
    /// The head tells no length of its body, where it must, or several, or one that isn't 1 to 10 digits, or it tells of a
    /// coding.
    NoLength,
    /// The body would have this many bytes, more than 33,554,432. None of it was awaited.
    BodyTooLong { length: u64 },
    /// The source ended within the message.
    Ended,
    /// A read failed.
    ReadFault,
    /// Memory was wanted and there was none.
    NoMemory,
}

impl From<NoMemory> for HttpFail {
    ghost use Rattle.std.specs.Prelude.{◌≡◌};
    ghost use Rattle.http_wire.specs.declared.fail.HttpFail.TheVariants.{NoMemory as no_memory};

    ghost from_gives = { λ _ fail. fail ≡ no_memory };

    fn from(_error: NoMemory) -> HttpFail {
        HttpFail::NoMemory
    }
}

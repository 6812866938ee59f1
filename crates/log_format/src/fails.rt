//! Why bytes were not read.

ghost use Rattle.std.specs.Prelude.{◌≡◌};
ghost use Rattle.log_format.specs.Fails.{whole_fail};

use plain_types::NoMemory;

/// Why bytes were not read.
#[derive(Clone, Copy, Debug, PartialEq, Eq)]
pub enum FormatFail {
    /// The field at this offset is the first that can't be read.
    Wrong { place: u64 },
    /// Memory ran out.
    NoMemory,
}

/// Why reading stopped at a field.
#[derive(Clone, Copy, Debug, PartialEq, Eq)]
pub(crate) enum Halt {
    /// The bytes end within the field at this offset.
    Cut(u64),
    /// The field at this offset can't be read, whatever follows.
    Wrong(u64),
    /// Memory ran out.
    NoMemory,
}

impl From<NoMemory> for Halt {
    ghost use Rattle.std.specs.Prelude.{◌≡◌};
    ghost use Rattle.log_format.specs.declared.fails.Halt.TheVariants.{NoMemory as halted};

    ghost from_gives = { λ _ result. result ≡ halted };

    fn from(_: NoMemory) -> Halt {
        Halt::NoMemory
    }
}

impl Halt {
    /// Why a whole body wasn't read: what ends too early is wrong.
    pub(crate) fn of_whole(self) -> FormatFail
        ensures { result ≡ whole_fail self }
    {
        match self {
            Halt::Cut(place) => FormatFail::Wrong { place },
            Halt::Wrong(place) => FormatFail::Wrong { place },
            Halt::NoMemory => FormatFail::NoMemory,
        }
    }
}

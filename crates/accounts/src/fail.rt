//! Why no accounts were read.

use plain_types::NoMemory;

/// Why no accounts were read.
#[derive(Clone, Copy, Debug, PartialEq, Eq)]
pub enum AccountsFail {
    /// This line, from 1 to 1,025, is the first that isn't of the form, repeats a token, or is one too many.
    Wrong { line: u32 },
    /// Memory was wanted and there was none.
    NoMemory,
}

impl From<NoMemory> for AccountsFail {
    ghost use Rattle.std.specs.Prelude.{◌≡◌};
    ghost use Rattle.accounts.specs.declared.fail.AccountsFail.TheVariants.{NoMemory as no_memory};

    ghost from_gives = { λ _ fail. fail ≡ no_memory };

    fn from(_error: NoMemory) -> AccountsFail {
        AccountsFail::NoMemory
    }
}

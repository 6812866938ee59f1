//! Why a record was not opened.

ghost use Rattle.std.specs.Prelude.{◌≡◌};
ghost use Rattle.record_seal.specs.Seen.{memory_refused, token_refused, wrap_refused, text_refused};

use paseto_seal::{CarryFail, TokenFail, WrapFail};
use plain_types::{NoMemory, Text};

/// Why a record was not opened.
#[derive(Debug, Drop)]
pub enum SealFail {
    /// The record's key text names another key, by this id.
    WrongKey { kid: Text },
    /// The record has no key text of the key, or isn't the seal of any payload under it.
    BadSeal,
    /// Memory was wanted and there was none.
    NoMemory,
}

impl From<NoMemory> for SealFail {
    ghost from_gives = { λ e f. f ≡ memory_refused };

    fn from(_error: NoMemory) -> SealFail {
        SealFail::NoMemory
    }
}

impl From<TokenFail> for SealFail {
    ghost from_gives = { λ e f. f ≡ token_refused e };

    fn from(error: TokenFail) -> SealFail {
        match error {
            TokenFail::NotToken | TokenFail::BadTag => SealFail::BadSeal,
            TokenFail::NoMemory => SealFail::NoMemory,
        }
    }
}

impl From<WrapFail> for SealFail {
    ghost from_gives = { λ e f. f ≡ wrap_refused e };

    fn from(error: WrapFail) -> SealFail {
        match error {
            WrapFail::NotWrapped | WrapFail::BadTag => SealFail::BadSeal,
            WrapFail::NoMemory => SealFail::NoMemory,
        }
    }
}

impl From<CarryFail> for SealFail {
    ghost from_gives = { λ e f. f ≡ text_refused e };

    fn from(error: CarryFail) -> SealFail {
        match error {
            CarryFail::NotCarried => SealFail::BadSeal,
            CarryFail::NoMemory => SealFail::NoMemory,
        }
    }
}

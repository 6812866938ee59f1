// Why a token or a wrap was refused.

ghost use Rattle.std.specs.Prelude.{◌≡◌};
ghost use Rattle.paseto_seal.specs.Fails.{token_fail, wrap_fail};

use crate::carried::CarryFail;
use plain_types::NoMemory;

/// Why a token was not opened.
#[derive(Clone, Copy, Debug, PartialEq, Eq)]
pub enum TokenFail {
    /// The text doesn't have the form of a token.
    NotToken,
    /// The text has the form of a token, and isn't the token of any message under the key and the assertion.
    BadTag,
    /// Memory was wanted and there was none.
    NoMemory,
}

/// Why a key was not unwrapped.
#[derive(Clone, Copy, Debug, PartialEq, Eq)]
pub enum WrapFail {
    /// The text doesn't have the form of a wrap.
    NotWrapped,
    /// The text has the form of a wrap, and isn't the wrap of any key under the key that was given.
    BadTag,
    /// Memory was wanted and there was none.
    NoMemory,
}

impl From<CarryFail> for TokenFail {
    ghost from_gives = { λ e f. f ≡ token_fail e };

    fn from(error: CarryFail) -> TokenFail {
        match error {
            CarryFail::NotCarried => TokenFail::NotToken,
            CarryFail::NoMemory => TokenFail::NoMemory,
        }
    }
}

impl From<CarryFail> for WrapFail {
    ghost from_gives = { λ e f. f ≡ wrap_fail e };

    fn from(error: CarryFail) -> WrapFail {
        match error {
            CarryFail::NotCarried => WrapFail::NotWrapped,
            CarryFail::NoMemory => WrapFail::NoMemory,
        }
    }
}

//! PASETO v4.local tokens, PASERK k4.local-wrap.pie wraps, PASERK k4.lid key ids, and the base64url that they are in.
//!
//! The model is the standards' own texts: `specs/` defines the token of a message, the wrap of a key and the id of a
//! key, over the hash of `blake2b_core`, the cipher of `xchacha_core` and unpadded base64url, and says by `Opens` and
//! `Unwraps` which message or key a text stands for.
//!
//! The promise, both ways: what is locked, wrapped or named is exactly that text; what is opened or unwrapped is
//! exactly what the text stands for under the key and the assertion, and a text that stands for nothing is refused,
//! by a cause of its own where it has not even the form. A token with a footer is refused.
//!
//! The code compares a tag whole, and deciphers nothing before it is found equal. No clause says either, since a
//! contract sees answers alone, and none speaks of the time that a call takes.
//!
//! It stands on `blake2b_core`, `xchacha_core`, `plain_types` and the kit's `base64`.
#![tactic(auto)]

ghost use Rattle.paseto_seal.specs.Laws.{TokenOpens, TokenOpensOnce, TokenHasForm, WrapUnwraps, WrapUnwrapsOnce, WrapHasForm};

mod carried;
mod cipher;
mod fail;
mod hash;
mod id;
mod sizes;
mod tag;
mod token;
mod wrap;

pub use carried::{CarryFail, base64url_len, push_base64url, read_base64url};
pub use fail::{TokenFail, WrapFail};
pub use id::{key_id, key_id_bytes};
pub use tag::same_tag;
pub use token::{lock_token, open_token};
pub use wrap::{unwrap_key, wrap_key};

/// What is locked under a key, a nonce and an assertion opens under that key and assertion to the message.
pub fn token_opens()
    ensures { TokenOpens }
{}

/// A token opens to one message at most.
pub fn token_opens_once()
    ensures { TokenOpensOnce }
{}

/// What opens to a message has the form of a token.
pub fn token_has_form()
    ensures { TokenHasForm }
{}

/// What is wrapped under a key unwraps under it to the wrapped key.
pub fn wrap_unwraps()
    ensures { WrapUnwraps }
{}

/// A wrap unwraps to one key at most.
pub fn wrap_unwraps_once()
    ensures { WrapUnwrapsOnce }
{}

/// What unwraps to a key has the form of a wrap.
pub fn wrap_has_form()
    ensures { WrapHasForm }
{}

#[cfg(test)]
mod tests;

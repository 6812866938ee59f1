// Bytes behind a header in unpadded base64url, written and read.

ghost use Rattle.std.specs.Prelude.{◌≡◌, ◌≢◌, ◌<◌, ◌+◌, ◌*◌, ◌/◌, ◌^◌, ◌++◌, List, ℕ, length, IfOk, IsErrOf, MatchOption, OnOk, string_bytes};
ghost use Rattle.base64.specs.GeneralPurpose.{IsBytes};
ghost use Rattle.paseto_seal.specs.Base64Url.{base64url, Carries};

use base64::DecodeAllocError;
use base64::engine::general_purpose::URL_SAFE_NO_PAD;
use plain_types::{NoMemory, Text};
use std::alloc::Global;

/// Why a text gave no bytes.
#[derive(Debug, Drop)]
pub enum CarryFail {
    /// The text doesn't begin with the header, or no bytes have what follows as their unpadded base64url.
    NotCarried,
    /// Memory was wanted and there was none.
    NoMemory,
}

/// The number of characters that so many bytes have, below 2^32.
pub fn base64url_len(count: usize) -> usize
    requires { count < 2 ^ 32 }
    ensures { result ≡ (4 * count + 2) / 3 }
{
    (4 * count + 2) / 3
}

/// Writes the base64url text of some bytes over `out`, which has the length of that text.
#[tactic(auto, unfolding(crate::specs::Base64Url::base64url))]
pub fn write_base64url(bytes: &[u8], out: &mut [u8])
    requires { length out.old ≡ (4 * length bytes.now + 2) / 3 }
    ensures { out.new ≡ base64url bytes.now }
{
    match URL_SAFE_NO_PAD.encode_slice(bytes, out) {
        Ok(_) => (),
        Err(_) => unreachable!(),
    }
}

/// Appends the unpadded base64url text of some bytes (RFC 4648, section 5).
///
/// # Errors
///
/// [`NoMemory`].
#[tactic(auto, unfolding(crate::specs::Base64Url::base64url))]
pub fn push_base64url(text: &mut String, bytes: &[u8]) -> Result<(), NoMemory>
    ensures { OnOk result (string_bytes text.new ≡ string_bytes text.old ++ base64url bytes.now) }
{
    URL_SAFE_NO_PAD.encode_string(bytes, text)?;
    Ok(())
}

/// The text that carries `body` behind `header`. The bounds keep it below 2^32 bytes.
pub fn carry(alloc: Global, header: &str, body: &[u8]) -> Result<Text, NoMemory>
    requires header { length header.now < 2 ^ 10 }
    requires body { length body.now < 2 ^ 31 + 2 ^ 10 }
    ensures { IfOk result (λ text. text ≡ header.now ++ base64url body.now) }
{
    let mut text = String::with_capacity(alloc, header.len() + base64url_len(body.len()))?;
    text.push_str(header)?;
    push_base64url(&mut text, body)?;
    Ok(Text::from_string(text))
}

/// What stands behind the header in a text.
fn behind<'a>(header: &str, text: &'a [u8]) -> Option<&'a [u8]>
    ensures { MatchOption result ((rest : List ℕ) → text.now ≢ header.now ++ rest)
        (λ rest. text.now ≡ header.now ++ rest.now) }
{
    text.strip_prefix(header.as_bytes())
}

/// The bytes whose unpadded base64url text this is. The bits past the last whole byte have to be zeros, so that at most
/// one list of bytes has a text.
///
/// # Errors
///
/// - [`CarryFail::NotCarried`] exactly where no bytes have this text.
/// - [`CarryFail::NoMemory`], in place of any other answer.
#[tactic(auto, unfolding(crate::specs::Base64Url::base64url))]
pub fn read_base64url(alloc: Global, coded: &[u8]) -> Result<Vec<u8>, CarryFail>
    ensures ok { IfOk result (λ body. IsBytes body.items × (coded.now ≡ base64url body.items)) }
    ensures not_carried { IsErrOf result CarryFail.NotCarried
        → (body : List ℕ) → ¬ (IsBytes body × (coded.now ≡ base64url body)) }
{
    match URL_SAFE_NO_PAD.decode(alloc, coded) {
        Ok(body) => Ok(body),
        Err(DecodeAllocError::OutOfMemory) => Err(CarryFail::NoMemory),
        Err(DecodeAllocError::DecodeError(_)) => Err(CarryFail::NotCarried),
    }
}

/// The bytes that `text` carries behind `header`: at most one list of bytes has a text.
pub fn carried(alloc: Global, header: &str, text: &[u8]) -> Result<Vec<u8>, CarryFail>
    ensures ok { IfOk result (λ body. Carries header.now text.now body.items) }
    ensures not_carried { IsErrOf result CarryFail.NotCarried
        → (body : List ℕ) → ¬ Carries header.now text.now body }
{
    let Some(coded) = behind(header, text) else {
        return Err(CarryFail::NotCarried);
    };
    read_base64url(alloc, coded)
}

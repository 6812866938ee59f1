// XChaCha20 under the 56 bytes that a token or a wrap derives for it.

ghost use Rattle.std.specs.Prelude.{◌≡◌, ◌<◌, ◌^◌, length, take, drop};
ghost use Rattle.xchacha_core.specs.Stream.{xchacha20};

use xchacha_core::xchacha20_xor;

/// Xors the text with the key stream of the key in the first 32 bytes of `secrets` and the nonce in the rest.
pub fn apply_cipher(secrets: &[u8; 56], text: &mut [u8])
    requires { length text.old < 2 ^ 32 }
    ensures { text.new ≡ xchacha20 (take 32 secrets.now) (drop 32 secrets.now) text.old }
{
    let mut key = [0u8; 32];
    key.copy_from_slice(&secrets[..32]);
    let mut nonce = [0u8; 24];
    nonce.copy_from_slice(&secrets[32..]);
    xchacha20_xor(&key, &nonce, text);
}

// Comparing tags.

ghost use Rattle.std.specs.Prelude.{◌≡◌, ◌↔◌, length, IsTrue};

/// Whether two tags of the same length are equal. Every byte of both is read, wherever the first difference is; no clause
/// says so.
pub fn same_tag(expected: &[u8], found: &[u8]) -> bool
    requires { length expected.now ≡ length found.now }
    ensures { IsTrue result ↔ (expected.now ≡ found.now) }
{
    let mut difference = 0u8;
    for i in 0..expected.len() {
        difference |= expected[i] ^ found[i];
    }
    difference == 0
}

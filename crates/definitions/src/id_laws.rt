//! The laws of ids. Each is a function that does nothing, whose contract is the law.

ghost use Rattle.std.specs.Prelude.{◌≡◌, ℕ, ◌/◌, ◌%◌, ◌^◌, ◌<◌, ◌↔◌, List, length, true};
ghost use Rattle.std.specs.Str.{IsAscii, IsUtf8};
ghost use Rattle.definitions.specs.Spelling.{IsBytes};
ghost use Rattle.definitions.specs.Ids.{id_text, made_id};
ghost use Rattle.definitions.specs.Reading.{is_id_text, id_value};

/// An id prints in 32 digits and is read back from them. A text is that of an id exactly where it has 32 lower-case
/// hexadecimal digits.
pub fn an_id_prints_and_is_read_back()
    ensures digits { (id : ℕ) → (length (id_text id) ≡ 32) × IsAscii (id_text id) × IsUtf8 (id_text id) }
    ensures back { (id : ℕ) → id < 2 ^ 128 → id_value (id_text id) ≡ id }
    ensures one { (a b : ℕ) → a < 2 ^ 128 → b < 2 ^ 128 → id_text a ≡ id_text b → a ≡ b }
    ensures test { (text : List ℕ) → (is_id_text text ≡ true) ↔ ((id : ℕ) × (id < 2 ^ 128) × (text ≡ id_text id)) }
{}

/// An id that is made at a time from random bytes has 128 bits, the version 7 in bits 76 to 79 and the variant, binary
/// 10, in bits 62 and 63: RFC 9562, 5.7.
pub fn a_made_id_is_of_version_7()
    ensures fits { (now : ℕ) (drawn : List ℕ) → IsBytes drawn → made_id now drawn < 2 ^ 128 }
    ensures version { (now : ℕ) (drawn : List ℕ) → IsBytes drawn → made_id now drawn / 2 ^ 76 % 16 ≡ 7 }
    ensures variant { (now : ℕ) (drawn : List ℕ) → IsBytes drawn → made_id now drawn / 2 ^ 62 % 4 ≡ 2 }
{}

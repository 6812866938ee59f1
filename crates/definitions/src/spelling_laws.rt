//! The laws of spelling. Each is a function that does nothing, whose contract is the law.

ghost use Rattle.std.specs.Prelude.{◌≡◌, ℕ, ◌^◌, ◌<◌, ◌≤◌, ℤ, List, ◌++◌, length, Some};
ghost use Rattle.std.specs.Str.{IsUtf8};
ghost use Rattle.definitions.specs.Spelling.{IsBytes, SpellsInteger, IsSpellable, written_integer, SpellsText, written_text, SpellsArray, written_array};
ghost use Rattle.definitions.specs.Reading.{integer_at, text_at, array_at};

/// No spelling begins another of its kind, and none spells two values. So items that stand one behind the other can be
/// taken apart in one way only, whatever follows them.
pub fn no_spelling_begins_another()
    ensures integer { (a b x y : List ℕ) (v w : ℤ) → SpellsInteger v a → SpellsInteger w b → a ++ x ≡ b ++ y → (a ≡ b) × (v ≡ w) }
    ensures text { (a b x y v w : List ℕ) → SpellsText v a → SpellsText w b → a ++ x ≡ b ++ y → (a ≡ b) × (v ≡ w) }
    ensures array { (a b x y : List ℕ) (v w : ℕ) → SpellsArray v a → SpellsArray w b → a ++ x ≡ b ++ y → (a ≡ b) × (v ≡ w) }
{}

/// No spelling begins one of another kind: the first byte of an item tells whether it is an integer, a text or the header
/// of an array.
pub fn no_kind_begins_another()
    ensures integer_text { (a b x y v : List ℕ) (z : ℤ) → SpellsInteger z a → SpellsText v b → a ++ x ≡ b ++ y → ⊥ }
    ensures integer_array { (a b x y : List ℕ) (z : ℤ) (n : ℕ) → SpellsInteger z a → SpellsArray n b → a ++ x ≡ b ++ y → ⊥ }
    ensures array_text { (a b x y v : List ℕ) (n : ℕ) → SpellsArray n a → SpellsText v b → a ++ x ≡ b ++ y → ⊥ }
{}

/// Reading takes each spelling of a value, of every width that holds it, and leaves what follows.
pub fn what_is_spelled_is_read()
    ensures integer { (v : ℤ) (spelled rest : List ℕ) → SpellsInteger v spelled → integer_at (spelled ++ rest) ≡ Some (v, rest) }
    ensures text { (v spelled rest : List ℕ) → SpellsText v spelled → text_at (spelled ++ rest) ≡ Some (v, rest) }
    ensures array { (v : ℕ) (spelled rest : List ℕ) → SpellsArray v spelled → array_at (spelled ++ rest) ≡ Some (v, rest) }
{}

/// Reading takes nothing else: what it took from the beginning of the bytes spells the value that it gave.
pub fn what_is_read_is_spelled()
    ensures integer { (bytes : List ℕ) (v : ℤ) (rest : List ℕ) → IsBytes bytes → integer_at bytes ≡ Some (v, rest) → (spelled : List ℕ) × SpellsInteger v spelled × (bytes ≡ spelled ++ rest) }
    ensures text { (bytes v rest : List ℕ) → IsBytes bytes → text_at bytes ≡ Some (v, rest) → (spelled : List ℕ) × SpellsText v spelled × (bytes ≡ spelled ++ rest) }
    ensures array { (bytes : List ℕ) (v : ℕ) (rest : List ℕ) → IsBytes bytes → array_at bytes ≡ Some (v, rest) → (spelled : List ℕ) × SpellsArray v spelled × (bytes ≡ spelled ++ rest) }
{}

/// The bytes that are written for a value spell it: for an integer from -2^63 to 2^64-1, a text in UTF-8 of fewer than
/// 2^32 bytes, and the header of an array of fewer than 2^32 items. No other integer has a spelling.
pub fn what_is_written_is_spelled()
    ensures integer { (v : ℤ) → IsSpellable v → SpellsInteger v (written_integer v) }
    ensures text { (v : List ℕ) → IsUtf8 v → length v < 2 ^ 32 → SpellsText v (written_text v) }
    ensures array { (v : ℕ) → v < 2 ^ 32 → SpellsArray v (written_array v) }
    ensures no_other { (v : ℤ) (spelled : List ℕ) → SpellsInteger v spelled → IsSpellable v }
{}

/// No spelling of a value is shorter than the bytes that are written for it.
pub fn no_spelling_is_shorter_than_the_written_one()
    ensures integer { (v : ℤ) (spelled : List ℕ) → SpellsInteger v spelled → length (written_integer v) ≤ length spelled }
    ensures text { (v spelled : List ℕ) → SpellsText v spelled → length (written_text v) ≤ length spelled }
    ensures array { (v : ℕ) (spelled : List ℕ) → SpellsArray v spelled → length (written_array v) ≤ length spelled }
{}

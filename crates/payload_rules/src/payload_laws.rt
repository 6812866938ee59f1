//! The laws of payloads. Each is a function that does nothing, whose contract is the law.

ghost use Rattle.std.specs.Prelude.{◌≡◌, ◌↔◌, ℕ, List, ◌++◌, Some};
ghost use Rattle.definitions.specs.Spelling.{IsBytes};
ghost use Rattle.payload_rules.specs.Items.{Item, SpellsItem, SpellsBin};
ghost use Rattle.payload_rules.specs.Payloads.{Payload, PayloadOf, PayloadFits, TextsFit, tag_of, version_text, payload_version, written_payload};
ghost use Rattle.payload_rules.specs.Reading.{bin_at, payload_at};
ghost use Rattle.payload_rules.specs.Examples.{WorkedCreation, WorkedItems, WorkedPayloads, WorkedRanges};

/// No spelling of an item begins another one, of whichever kind: the first byte tells the kind, and the
/// bytes the item.
pub fn an_item_is_of_one_kind()
    ensures { (a b x y : List ℕ) (i j : Item) → SpellsItem i a → SpellsItem j b → a ++ x ≡ b ++ y → (a ≡ b) × (i ≡ j) }
{}

/// Reading takes each spelling of a bin, of every width that holds its length, and leaves what follows;
/// and it takes nothing else.
pub fn bins_are_read_as_spelled()
    ensures read { (held spelled rest : List ℕ) → SpellsBin held spelled → bin_at (spelled ++ rest) ≡ Some (held, rest) }
    ensures spelled { (bytes held rest : List ℕ) → IsBytes bytes → bin_at bytes ≡ Some (held, rest) → (spelled : List ℕ) × SpellsBin held spelled × (bytes ≡ spelled ++ rest) }
{}

/// The bytes of a record with a tag and a version hold at most one payload.
pub fn a_payload_is_spelled_as_one()
    ensures { (tag version bytes : List ℕ) (p q : Payload) → PayloadOf tag version bytes p → PayloadOf tag version bytes q → p ≡ q }
{}

/// No spelling of a payload begins another one of the same tag and version, so none has a byte behind
/// it.
pub fn no_payload_begins_another()
    ensures { (tag version a b x y : List ℕ) (p q : Payload) → PayloadOf tag version a p → PayloadOf tag version b q → a ++ x ≡ b ++ y → (a ≡ b) × (p ≡ q) }
{}

/// The payload that the bytes of a record with a tag and a version hold is computed: reading finds it exactly where the
/// bytes spell it, in whatever widths, and finds nothing where they spell none.
pub fn reading_finds_the_payload()
    ensures { (tag version bytes : List ℕ) (payload : Payload) → IsBytes bytes → (payload_at tag version bytes ≡ Some payload) ↔ PayloadOf tag version bytes payload }
{}

/// What is written for a payload spells it, in the version of the payload, where its numbers are in range, its texts are UTF-8 and no
/// length passes 32 bits.
pub fn what_is_written_is_spelled()
    ensures { (payload : Payload) → PayloadFits payload → TextsFit payload → PayloadOf (tag_of payload) (version_text (payload_version payload)) (written_payload payload) payload }
{}

/// A command that ended, in the 68 bytes that are written for it, or with an author in 71, and what is no payload.
pub fn worked_creation()
    ensures { WorkedCreation }
{}

/// Integers and bins in shorter and wider spellings.
pub fn worked_items()
    ensures { WorkedItems }
{}

/// The other payloads, in the bytes that are written for them.
pub fn worked_payloads()
    ensures { WorkedPayloads }
{}

/// Numbers and texts at their limits, and one above.
pub fn worked_ranges()
    ensures { WorkedRanges }
{}

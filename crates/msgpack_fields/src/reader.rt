//! Items read one after another.

ghost use Rattle.std.specs.Prelude.{◌≡◌, ◌+◌, ◌<◌, ◌^◌, [], length, IfOk, IfErr, OnErr, IsOk, MatchResult, IfSome, Some, None, ◌↔◌};
ghost use Rattle.std.specs.Str.{IsUtf8};
ghost use Rattle.definitions.specs.Spelling.{SpellsInteger, IsInteger, IsSpellable, SpellsText, IsText, TextFits, SpellsArray, IsArray};
ghost use Rattle.definitions.specs.Reading.{integer_at, text_at, array_at};
ghost use Rattle.definitions.specs.Calls.{NoPrefix};
ghost use Rattle.std.specs.Option.{option_map};
ghost use Rattle.payload_rules.specs.Items.{SpellsBin};
ghost use Rattle.payload_rules.specs.Reading.{bin_at};
ghost use Rattle.msgpack_fields.specs.Reading.{BeginsWith, IsBin, SpellsNilOr, SpellsNumber, IsNilOr, number_at, nil_or_at};

use crate::items::{array_of, bin_of, integer_of, nil_or_text_of, nil_or_u64_of, text_of};
use std::marker::Model;

/// The bytes have no such item here.
#[derive(Clone, Copy, Debug, PartialEq, Eq)]
pub struct Wrong {
    /// The offset of the item's first byte, from the first byte that the reader was given.
    pub place: usize,
}

/// Bytes that are read from left to right. Contracts see `rest`, the bytes that are left, and `place`, the number of
/// bytes that were read.
#[derive(Drop)]
pub struct Reader<'a> {
    rest: &'a [u8],
    total: usize,
}

impl<'a> Model for Reader<'a> {
    ghost use Rattle.std.specs.Prelude.{◌-◌, ◌≤◌, length};
    ghost use Rattle.msgpack_fields.specs.Reading.{Reading};

    ghost Value = { Reading };

    ghost view = { λ r. record { rest = r.rest.now; place = r.total - length r.rest.now } };

    ghost invariant = { λ r. length r.rest.now ≤ r.total };
}

impl<'a> Reader<'a> {
    /// A reader at the first of the bytes.
    pub fn new(bytes: &'a [u8]) -> Reader<'a>
        ensures rest { result.rest ≡ bytes.now }
        ensures place { result.place ≡ 0 }
    {
        Reader {
            rest: bytes,
            total: bytes.len(),
        }
    }

    /// The number of bytes that were read: the offset of the next item's first byte.
    pub fn place(&self) -> usize
        ensures { result ≡ self.now.place }
    {
        self.total - self.rest.len()
    }

    /// Reads an integer, from -2^63 to 2^64-1, in any of its spellings (MessagePack, "int format family"). It takes no
    /// memory.
    ///
    /// # Errors
    ///
    /// [`Wrong`] exactly where no spelling of an integer stands there. The reader then stays where it was.
    #[inline(always)]
    pub fn int(&mut self) -> Result<i128, Wrong>
        ensures spelled { IfOk result (λ v. BeginsWith (SpellsInteger v) self.old.rest self.new.rest) }
        ensures none { IfErr result (λ _. NoPrefix IsInteger self.old.rest) }
        ensures range { IfOk result IsSpellable }
        ensures value { MatchResult result (λ v. integer_at self.old.rest ≡ Some (v, self.new.rest)) (λ _. integer_at self.old.rest ≡ None) }
        ensures place { self.new.place + length self.new.rest ≡ self.old.place + length self.old.rest }
        ensures wrong { IfErr result (λ e. e.place ≡ self.old.place) }
        ensures err { OnErr result (self.new ≡ self.old) }
    {
        match integer_of(self.rest) {
            Some((value, rest)) => {
                self.rest = rest;
                Ok(value)
            }
            None => Err(Wrong {
                place: self.place(),
            }),
        }
    }

    /// Reads a text, UTF-8 of fewer than 2^32 bytes, in any of its spellings (MessagePack, "str format family"). It
    /// takes no memory: the text is a part of the bytes.
    ///
    /// # Errors
    ///
    /// [`Wrong`] exactly where no spelling of a text stands there: another item, a text that is cut, or one that is not
    /// UTF-8. The reader then stays where it was.
    #[inline(always)]
    pub fn text(&mut self) -> Result<&'a [u8], Wrong>
        ensures spelled { IfOk result (λ text. BeginsWith (SpellsText text.now) self.old.rest self.new.rest) }
        ensures none { IfErr result (λ _. NoPrefix IsText self.old.rest) }
        ensures utf8 { IfOk result (λ text. IsUtf8 text.now) }
        ensures short { IfOk result (λ text. length text.now < 2 ^ 32) }
        ensures value { MatchResult result (λ text. text_at self.old.rest ≡ Some (text.now, self.new.rest)) (λ _. text_at self.old.rest ≡ None) }
        ensures place { self.new.place + length self.new.rest ≡ self.old.place + length self.old.rest }
        ensures wrong { IfErr result (λ e. e.place ≡ self.old.place) }
        ensures err { OnErr result (self.new ≡ self.old) }
    {
        match text_of(self.rest) {
            Some((text, rest)) => {
                self.rest = rest;
                Ok(text)
            }
            None => Err(Wrong {
                place: self.place(),
            }),
        }
    }

    /// Reads a bin of fewer than 2^32 bytes in any of its spellings, and answers with what it holds (MessagePack, "bin
    /// format family"). It takes no memory: what it holds is a part of the bytes.
    ///
    /// # Errors
    ///
    /// [`Wrong`] exactly where no spelling of a bin stands there: another item, or a bin that is cut. The reader then
    /// stays where it was.
    pub fn bin(&mut self) -> Result<&'a [u8], Wrong>
        ensures spelled { IfOk result (λ held. BeginsWith (SpellsBin held.now) self.old.rest self.new.rest) }
        ensures none { IfErr result (λ _. NoPrefix IsBin self.old.rest) }
        ensures value { MatchResult result (λ held. bin_at self.old.rest ≡ Some (held.now, self.new.rest)) (λ _. bin_at self.old.rest ≡ None) }
        ensures place { self.new.place + length self.new.rest ≡ self.old.place + length self.old.rest }
        ensures wrong { IfErr result (λ e. e.place ≡ self.old.place) }
        ensures err { OnErr result (self.new ≡ self.old) }
    {
        match bin_of(self.rest) {
            Some((held, rest)) => {
                self.rest = rest;
                Ok(held)
            }
            None => Err(Wrong {
                place: self.place(),
            }),
        }
    }

    /// Reads nil, or an integer from 0 to 2^64-1 in any of its spellings (MessagePack, "nil format", "int format
    /// family"). It takes no memory.
    ///
    /// # Errors
    ///
    /// [`Wrong`] exactly where neither stands there. The reader then stays where it was.
    #[inline(always)]
    pub fn nil_or_u64(&mut self) -> Result<Option<u64>, Wrong>
        ensures spelled { IfOk result (λ v. BeginsWith (SpellsNilOr SpellsNumber v) self.old.rest self.new.rest) }
        ensures none { IfErr result (λ _. NoPrefix (IsNilOr SpellsNumber) self.old.rest) }
        ensures value { MatchResult result (λ v. nil_or_at number_at self.old.rest ≡ Some (v, self.new.rest)) (λ _. nil_or_at number_at self.old.rest ≡ None) }
        ensures place { self.new.place + length self.new.rest ≡ self.old.place + length self.old.rest }
        ensures wrong { IfErr result (λ e. e.place ≡ self.old.place) }
        ensures err { OnErr result (self.new ≡ self.old) }
    {
        match nil_or_u64_of(self.rest) {
            Some((value, rest)) => {
                self.rest = rest;
                Ok(value)
            }
            None => Err(Wrong {
                place: self.place(),
            }),
        }
    }

    /// Reads nil, or a text in any of its spellings (MessagePack, "nil format", "str format family"). It takes no
    /// memory: the text is a part of the bytes.
    ///
    /// # Errors
    ///
    /// [`Wrong`] exactly where neither stands there. The reader then stays where it was.
    pub fn nil_or_text(&mut self) -> Result<Option<&'a [u8]>, Wrong>
        ensures spelled { IfOk result (λ v. BeginsWith (SpellsNilOr SpellsText (option_map (λ t. t.now) v)) self.old.rest self.new.rest) }
        ensures none { IfErr result (λ _. NoPrefix (IsNilOr SpellsText) self.old.rest) }
        ensures text { IfOk result (λ v. IfSome v (λ t. TextFits t.now)) }
        ensures value { MatchResult result (λ v. nil_or_at text_at self.old.rest ≡ Some (option_map (λ t. t.now) v, self.new.rest)) (λ _. nil_or_at text_at self.old.rest ≡ None) }
        ensures place { self.new.place + length self.new.rest ≡ self.old.place + length self.old.rest }
        ensures wrong { IfErr result (λ e. e.place ≡ self.old.place) }
        ensures err { OnErr result (self.new ≡ self.old) }
    {
        match nil_or_text_of(self.rest) {
            Some((value, rest)) => {
                self.rest = rest;
                Ok(value)
            }
            None => Err(Wrong {
                place: self.place(),
            }),
        }
    }

    /// Reads the header of an array in any of its spellings, and answers with the number of its items, which are read
    /// next (MessagePack, "array format family"). It takes no memory, whatever the number.
    ///
    /// # Errors
    ///
    /// [`Wrong`] exactly where no header of an array stands there. The reader then stays where it was.
    pub fn array(&mut self) -> Result<u32, Wrong>
        ensures spelled { IfOk result (λ n. BeginsWith (SpellsArray n) self.old.rest self.new.rest) }
        ensures none { IfErr result (λ _. NoPrefix IsArray self.old.rest) }
        ensures value { MatchResult result (λ n. array_at self.old.rest ≡ Some (n, self.new.rest)) (λ _. array_at self.old.rest ≡ None) }
        ensures place { self.new.place + length self.new.rest ≡ self.old.place + length self.old.rest }
        ensures wrong { IfErr result (λ e. e.place ≡ self.old.place) }
        ensures err { OnErr result (self.new ≡ self.old) }
    {
        match array_of(self.rest) {
            Some((count, rest)) => {
                self.rest = rest;
                Ok(count)
            }
            None => Err(Wrong {
                place: self.place(),
            }),
        }
    }

    /// Whether all bytes were read.
    ///
    /// # Errors
    ///
    /// [`Wrong`] exactly where bytes are left, with the place of the first of them.
    pub fn end(&self) -> Result<(), Wrong>
        ensures ended { IsOk result ↔ (self.now.rest ≡ []) }
        ensures wrong { IfErr result (λ e. e.place ≡ self.now.place) }
    {
        if self.rest.is_empty() {
            Ok(())
        } else {
            Err(Wrong {
                place: self.place(),
            })
        }
    }
}

//! Items written one after another, each in its shortest spelling.

ghost use Rattle.std.specs.Prelude.{◌≡◌, ◌+◌, ◌<◌, ◌≤◌, ◌^◌, ◌<ℤ◌, pos, [], ◌∷◌, ◌++◌, length, take, IsOk, OnOk, OnErr};
ghost use Rattle.std.specs.Int.{w8, w16, w32, w64, to_be_bytes};
ghost use Rattle.std.specs.Str.{IsUtf8};
ghost use Rattle.definitions.specs.Spelling.{IsSpellable, written_integer, text_head, shortest_text, written_text, written_array};
ghost use Rattle.payload_rules.specs.Items.{bin_head, shortest_bin, written_bin, written_nil};
ghost use Rattle.payload_rules.specs.Payloads.{written_u8, written_u16, written_u64};

use byteorder::{BigEndian, ByteOrder};
use plain_types::{Bytes, NoMemory};
use std::alloc::Global;
use std::marker::Model;

/// Bytes that grow by items. Contracts see `items`, the bytes in order, and `reserved`, the number of bytes that it has
/// memory for, the present ones included.
#[derive(Drop)]
pub struct Writer {
    bytes: Bytes,
}

impl Model for Writer {
    ghost use Rattle.plain_types.specs.Buffer.{Buffer};

    ghost Value = { Buffer };

    ghost view = { λ w. w.bytes };
}

impl Writer {
    /// A writer of no bytes yet. It takes no memory.
    pub fn new(alloc: Global) -> Writer
        ensures items { result.items ≡ [] }
    {
        Writer {
            bytes: Bytes::new(alloc),
        }
    }

    /// A writer that goes on behind `bytes`. It takes no memory.
    pub fn after(bytes: Bytes) -> Writer
        ensures { result ≡ bytes }
    {
        Writer { bytes }
    }

    /// The bytes that stood before, and those of the items behind them.
    pub fn into_bytes(self) -> Bytes
        ensures { result ≡ self }
    {
        self.bytes
    }

    /// Writes an integer from -2^63 to 2^64-1 in its shortest spelling, of at most 9 bytes: an unsigned one where it is
    /// not negative (MessagePack, "int format family").
    ///
    /// # Errors
    ///
    /// [`NoMemory`] only where there was no room for 9 bytes. The bytes then stay.
    pub fn int(&mut self, value: i128) -> Result<(), NoMemory>
        requires { IsSpellable value }
        ensures ok { OnOk result (self.new.items ≡ self.old.items ++ written_integer value) }
        ensures short { OnOk result (length self.new.items ≤ length self.old.items + 9) }
        ensures err { OnErr result (self.new.items ≡ self.old.items) }
        ensures reserved { self.old.reserved ≤ self.new.reserved }
        ensures enough { length self.old.items + 9 ≤ self.old.reserved → IsOk result }
    {
        if value < 0 {
            self.negative(value as i64)
        } else {
            self.unsigned(value as u64)
        }
    }

    /// Writes a number in one byte behind its mark, whatever its value (MessagePack, "uint 8").
    ///
    /// # Errors
    ///
    /// [`NoMemory`] only where there was no room for 2 bytes. The bytes then stay.
    pub fn u8_form(&mut self, value: u8) -> Result<(), NoMemory>
        ensures ok { OnOk result (self.new.items ≡ self.old.items ++ written_u8 value) }
        ensures short { OnOk result (length self.new.items ≤ length self.old.items + 2) }
        ensures err { OnErr result (self.new.items ≡ self.old.items) }
        ensures reserved { self.old.reserved ≤ self.new.reserved }
        ensures enough { length self.old.items + 2 ≤ self.old.reserved → IsOk result }
    {
        self.marked_u8(0xcc, value)
    }

    /// Writes a number in two bytes behind their mark, whatever its value (MessagePack, "uint 16").
    ///
    /// # Errors
    ///
    /// [`NoMemory`] only where there was no room for 3 bytes. The bytes then stay.
    pub fn u16_form(&mut self, value: u16) -> Result<(), NoMemory>
        ensures ok { OnOk result (self.new.items ≡ self.old.items ++ written_u16 value) }
        ensures short { OnOk result (length self.new.items ≤ length self.old.items + 3) }
        ensures err { OnErr result (self.new.items ≡ self.old.items) }
        ensures reserved { self.old.reserved ≤ self.new.reserved }
        ensures enough { length self.old.items + 3 ≤ self.old.reserved → IsOk result }
    {
        self.marked_u16(0xcd, value)
    }

    /// Writes a number in eight bytes behind their mark, whatever its value (MessagePack, "uint 64").
    ///
    /// # Errors
    ///
    /// [`NoMemory`] only where there was no room for 9 bytes. The bytes then stay.
    pub fn u64_form(&mut self, value: u64) -> Result<(), NoMemory>
        ensures ok { OnOk result (self.new.items ≡ self.old.items ++ written_u64 value) }
        ensures short { OnOk result (length self.new.items ≤ length self.old.items + 9) }
        ensures err { OnErr result (self.new.items ≡ self.old.items) }
        ensures reserved { self.old.reserved ≤ self.new.reserved }
        ensures enough { length self.old.items + 9 ≤ self.old.reserved → IsOk result }
    {
        self.marked_u64(0xcf, value)
    }

    /// Writes nil, which has one byte (MessagePack, "nil format").
    ///
    /// # Errors
    ///
    /// [`NoMemory`] only where there was no room for it. The bytes then stay.
    pub fn nil(&mut self) -> Result<(), NoMemory>
        ensures ok { OnOk result (self.new.items ≡ self.old.items ++ written_nil) }
        ensures short { OnOk result (length self.new.items ≤ length self.old.items + 1) }
        ensures err { OnErr result (self.new.items ≡ self.old.items) }
        ensures reserved { self.old.reserved ≤ self.new.reserved }
        ensures enough { length self.old.items + 1 ≤ self.old.reserved → IsOk result }
    {
        self.bytes.push(0xc0)
    }

    /// Writes a bin that holds fewer than 2^32 bytes in its shortest spelling: a head of at most 5 bytes, and what it
    /// holds (MessagePack, "bin format family").
    ///
    /// # Errors
    ///
    /// [`NoMemory`] only where there was no room for 5 bytes and what it holds. The bytes then stay.
    pub fn bin(&mut self, held: &[u8]) -> Result<(), NoMemory>
        requires { length held.now < 2 ^ 32 }
        ensures ok { OnOk result (self.new.items ≡ self.old.items ++ written_bin held.now) }
        ensures short { OnOk result (length self.new.items ≤ length self.old.items + 5 + length held.now) }
        ensures err { OnErr result (self.new.items ≡ self.old.items) }
        ensures reserved { self.old.reserved ≤ self.new.reserved }
        ensures enough { length self.old.items + 5 + length held.now ≤ self.old.reserved → IsOk result }
    {
        let before = self.bytes.len();
        self.bin_head(held.len() as u32)?;
        self.put_behind_head(held, before)
    }

    /// Writes the head of a bin that holds `size` bytes, which are written next, in its shortest spelling, of at most 5
    /// bytes.
    ///
    /// # Errors
    ///
    /// [`NoMemory`] only where there was no room for 5 bytes. The bytes then stay.
    pub fn bin_head(&mut self, size: u32) -> Result<(), NoMemory>
        ensures ok { OnOk result (self.new.items ≡ self.old.items ++ bin_head (shortest_bin size) size) }
        ensures short { OnOk result (length self.new.items ≤ length self.old.items + 5) }
        ensures err { OnErr result (self.new.items ≡ self.old.items) }
        ensures reserved { self.old.reserved ≤ self.new.reserved }
        ensures enough { length self.old.items + 5 ≤ self.old.reserved → IsOk result }
    {
        if size < 1 << 8 {
            self.marked_u8(0xc4, size as u8)
        } else if size < 1 << 16 {
            self.marked_u16(0xc5, size as u16)
        } else {
            self.marked_u32(0xc6, size)
        }
    }

    /// Writes a text in UTF-8 of fewer than 2^32 bytes in its shortest spelling: a head of at most 5 bytes, and the text
    /// (MessagePack, "str format family").
    ///
    /// # Errors
    ///
    /// [`NoMemory`] only where there was no room for 5 bytes and the text. The bytes then stay.
    pub fn text(&mut self, text: &[u8]) -> Result<(), NoMemory>
        requires utf8 { IsUtf8 text.now }
        requires fits { length text.now < 2 ^ 32 }
        ensures ok { OnOk result (self.new.items ≡ self.old.items ++ written_text text.now) }
        ensures short { OnOk result (length self.new.items ≤ length self.old.items + 5 + length text.now) }
        ensures err { OnErr result (self.new.items ≡ self.old.items) }
        ensures reserved { self.old.reserved ≤ self.new.reserved }
        ensures enough { length self.old.items + 5 + length text.now ≤ self.old.reserved → IsOk result }
    {
        let before = self.bytes.len();
        self.text_head(text.len() as u32)?;
        self.put_behind_head(text, before)
    }

    /// Writes the header of an array of `count` items in its shortest spelling, of at most 5 bytes. The items are written
    /// next (MessagePack, "array format family").
    ///
    /// # Errors
    ///
    /// [`NoMemory`] only where there was no room for 5 bytes. The bytes then stay.
    pub fn array(&mut self, count: u32) -> Result<(), NoMemory>
        ensures ok { OnOk result (self.new.items ≡ self.old.items ++ written_array count) }
        ensures short { OnOk result (length self.new.items ≤ length self.old.items + 5) }
        ensures err { OnErr result (self.new.items ≡ self.old.items) }
        ensures reserved { self.old.reserved ≤ self.new.reserved }
        ensures enough { length self.old.items + 5 ≤ self.old.reserved → IsOk result }
    {
        if count < 1 << 4 {
            self.bytes.push(0x90 + count as u8)
        } else if count < 1 << 16 {
            self.marked_u16(0xdc, count as u16)
        } else {
            self.marked_u32(0xdd, count)
        }
    }

    /// Appends what stands behind a head, or takes the head away again where there is no room: `before` bytes stay.
    fn put_behind_head(&mut self, held: &[u8], before: usize) -> Result<(), NoMemory>
        ensures ok { OnOk result (self.new.items ≡ self.old.items ++ held.now) }
        ensures err { OnErr result (self.new.items ≡ take before self.old.items) }
        ensures reserved { self.old.reserved ≤ self.new.reserved }
        ensures enough { length self.old.items + length held.now ≤ self.old.reserved → IsOk result }
    {
        let written = self.bytes.extend(held);
        if written.is_err() {
            self.bytes.truncate(before);
        }
        written
    }

    /// The head of a text of `size` bytes.
    fn text_head(&mut self, size: u32) -> Result<(), NoMemory>
        ensures ok { OnOk result (self.new.items ≡ self.old.items ++ text_head (shortest_text size) size) }
        ensures short { OnOk result (length self.new.items ≤ length self.old.items + 5) }
        ensures err { OnErr result (self.new.items ≡ self.old.items) }
        ensures reserved { self.old.reserved ≤ self.new.reserved }
        ensures enough { length self.old.items + 5 ≤ self.old.reserved → IsOk result }
    {
        if size < 1 << 5 {
            self.bytes.push(0xa0 + size as u8)
        } else if size < 1 << 8 {
            self.marked_u8(0xd9, size as u8)
        } else if size < 1 << 16 {
            self.marked_u16(0xda, size as u16)
        } else {
            self.marked_u32(0xdb, size)
        }
    }

    fn unsigned(&mut self, value: u64) -> Result<(), NoMemory>
        ensures ok { OnOk result (self.new.items ≡ self.old.items ++ written_integer (pos value)) }
        ensures err { OnErr result (self.new.items ≡ self.old.items) }
        ensures reserved { self.old.reserved ≤ self.new.reserved }
        ensures enough { length self.old.items + 9 ≤ self.old.reserved → IsOk result }
    {
        if value < 1 << 7 {
            self.bytes.push(value as u8)
        } else if value < 1 << 8 {
            self.marked_u8(0xcc, value as u8)
        } else if value < 1 << 16 {
            self.marked_u16(0xcd, value as u16)
        } else if value < 1 << 32 {
            self.marked_u32(0xce, value as u32)
        } else {
            self.marked_u64(0xcf, value)
        }
    }

    fn negative(&mut self, value: i64) -> Result<(), NoMemory>
        requires { value <ℤ pos 0 }
        ensures ok { OnOk result (self.new.items ≡ self.old.items ++ written_integer value) }
        ensures err { OnErr result (self.new.items ≡ self.old.items) }
        ensures reserved { self.old.reserved ≤ self.new.reserved }
        ensures enough { length self.old.items + 9 ≤ self.old.reserved → IsOk result }
    {
        if value >= -32 {
            self.bytes.push((value as i8).cast_unsigned())
        } else if value >= i64::from(i8::MIN) {
            self.marked_u8(0xd0, (value as i8).cast_unsigned())
        } else if value >= i64::from(i16::MIN) {
            self.marked_u16(0xd1, (value as i16).cast_unsigned())
        } else if value >= i64::from(i32::MIN) {
            self.marked_u32(0xd2, (value as i32).cast_unsigned())
        } else {
            self.marked_u64(0xd3, value.cast_unsigned())
        }
    }

    fn marked_u8(&mut self, first: u8, number: u8) -> Result<(), NoMemory>
        ensures ok { OnOk result (self.new.items ≡ self.old.items ++ first ∷ to_be_bytes w8 number) }
        ensures err { OnErr result (self.new.items ≡ self.old.items) }
        ensures reserved { self.old.reserved ≤ self.new.reserved }
        ensures enough { length self.old.items + 2 ≤ self.old.reserved → IsOk result }
    {
        self.bytes.extend(&[first, number])
    }

    fn marked_u16(&mut self, first: u8, number: u16) -> Result<(), NoMemory>
        ensures ok { OnOk result (self.new.items ≡ self.old.items ++ first ∷ to_be_bytes w16 number) }
        ensures err { OnErr result (self.new.items ≡ self.old.items) }
        ensures reserved { self.old.reserved ≤ self.new.reserved }
        ensures enough { length self.old.items + 3 ≤ self.old.reserved → IsOk result }
    {
        let mut bytes = [first; 3];
        BigEndian::write_u16(&mut bytes[1..], number);
        self.bytes.extend(&bytes)
    }

    fn marked_u32(&mut self, first: u8, number: u32) -> Result<(), NoMemory>
        ensures ok { OnOk result (self.new.items ≡ self.old.items ++ first ∷ to_be_bytes w32 number) }
        ensures err { OnErr result (self.new.items ≡ self.old.items) }
        ensures reserved { self.old.reserved ≤ self.new.reserved }
        ensures enough { length self.old.items + 5 ≤ self.old.reserved → IsOk result }
    {
        let mut bytes = [first; 5];
        BigEndian::write_u32(&mut bytes[1..], number);
        self.bytes.extend(&bytes)
    }

    fn marked_u64(&mut self, first: u8, number: u64) -> Result<(), NoMemory>
        ensures ok { OnOk result (self.new.items ≡ self.old.items ++ first ∷ to_be_bytes w64 number) }
        ensures err { OnErr result (self.new.items ≡ self.old.items) }
        ensures reserved { self.old.reserved ≤ self.new.reserved }
        ensures enough { length self.old.items + 9 ≤ self.old.reserved → IsOk result }
    {
        let mut bytes = [first; 9];
        BigEndian::write_u64(&mut bytes[1..], number);
        self.bytes.extend(&bytes)
    }
}

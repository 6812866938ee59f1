//! The fields of a body, read one after another.

ghost use Rattle.std.specs.Prelude.{◌≡◌, ℕ, ◌+◌, ◌≤◌, ◌<◌, ◌^◌, true, false, length, take, drop, Ok, Err, IfOk};
ghost use Rattle.std.specs.Str.{IsUtf8, is_utf8};
ghost use Rattle.std.specs.Bool.{OnTrue};
ghost use Rattle.log_rules.specs.Reading.{passed, number_at, text_at, record_at, started_at, closes_of, closes_at, event_of, event_at, count_at};
ghost use Rattle.record_model.specs.Seen.{record_seen, started_seen, event_seen};
ghost use Rattle.log_format.specs.Answers.{Reads};

use crate::fails::Halt;
use byteorder::{BigEndian, ByteOrder};
use plain_types::Text;
use record_model::{Event, Record, Started};
use std::alloc::Global;
use std::marker::Model;

/// The events of one batch.
const MOST_EVENTS: u32 = 100;

/// Bytes of a body, read from left to right. Contracts see the body's length, the offset of the next field, and the bytes
/// from there on that are there.
#[derive(Drop)]
pub(crate) struct Reader<'a> {
    rest: &'a [u8],
    at: u64,
    limit: u64,
}

impl<'a> Model for Reader<'a> {
    ghost use Rattle.std.specs.Prelude.{◌+◌, ◌≤◌, ◌<◌, ◌^◌, length};
    ghost use Rattle.log_rules.specs.Reading.{Reading};

    ghost Value = { Reading };

    ghost view = { λ r. record { limit = r.limit; at = r.at; rest = r.rest.now } };

    ghost invariant = { λ r. (r.at + length r.rest.now ≤ r.limit) × (r.limit < 2 ^ 63) };
}

/// Whether the bytes are UTF-8.
fn is_text(bytes: &[u8]) -> bool
    ensures tested { result ≡ is_utf8 bytes.now }
    ensures valid { OnTrue result (IsUtf8 bytes.now) }
{
    std::str::from_utf8(bytes).is_ok()
}

impl<'a> Reader<'a> {
    /// A reader of the bytes from offset `at` on of a body of `limit` bytes.
    pub(crate) fn new(rest: &'a [u8], at: u64, limit: u64) -> Reader<'a>
        requires inside { at + length rest.now ≤ limit }
        requires short { limit < 2 ^ 63 }
        ensures { result ≡ record { limit = limit; at = at; rest = rest.now } }
    {
        Reader { rest, at, limit }
    }

    /// The offset of the next field.
    pub(crate) fn at(&self) -> u64
        ensures { result ≡ self.now.at }
    {
        self.at
    }

    /// The number of bytes that are left.
    pub(crate) fn left(&self) -> usize
        ensures { result ≡ length self.now.rest }
    {
        self.rest.len()
    }

    /// Passes `count` bytes, which are there.
    fn pass(&mut self, count: usize)
        requires { count ≤ length self.old.rest }
        ensures { self.new ≡ passed count self.old }
    {
        self.at += count as u64;
        self.rest = &self.rest[count..];
    }

    /// A number of one byte.
    #[tactic(auto, unfolding(log_rules::specs::Reading::number_at))]
    fn byte(&mut self) -> Result<u8, Halt>
        ensures { Reads (λ n. n) (number_at 1) self.old result self.new }
    {
        if self.rest.len() < 1 {
            return Err(Halt::Cut(self.at));
        }
        let number = self.rest[0];
        self.pass(1);
        Ok(number)
    }

    /// A number of four bytes.
    #[tactic(auto, unfolding(log_rules::specs::Reading::number_at))]
    fn number_4(&mut self) -> Result<u32, Halt>
        ensures { Reads (λ n. n) (number_at 4) self.old result self.new }
    {
        if self.rest.len() < 4 {
            return Err(Halt::Cut(self.at));
        }
        let number = BigEndian::read_u32(self.rest);
        self.pass(4);
        Ok(number)
    }

    /// A number of eight bytes.
    #[tactic(auto, unfolding(log_rules::specs::Reading::number_at))]
    fn number_8(&mut self) -> Result<u64, Halt>
        ensures { Reads (λ n. n) (number_at 8) self.old result self.new }
    {
        if self.rest.len() < 8 {
            return Err(Halt::Cut(self.at));
        }
        let number = BigEndian::read_u64(self.rest);
        self.pass(8);
        Ok(number)
    }

    /// A number of sixteen bytes.
    #[tactic(auto, unfolding(log_rules::specs::Reading::number_at))]
    fn number_16(&mut self) -> Result<u128, Halt>
        ensures { Reads (λ n. n) (number_at 16) self.old result self.new }
    {
        if self.rest.len() < 16 {
            return Err(Halt::Cut(self.at));
        }
        let number = BigEndian::read_u128(self.rest);
        self.pass(16);
        Ok(number)
    }

    /// A text: its length in four bytes, and its bytes.
    #[tactic(auto, unfolding(log_rules::specs::Reading::text_at))]
    fn text(&mut self, alloc: Global) -> Result<Text, Halt>
        ensures { Reads (λ t. t) text_at self.old result self.new }
    {
        if self.rest.len() < 4 {
            return Err(Halt::Cut(self.at));
        }
        let count = BigEndian::read_u32(self.rest);
        if self.limit < self.at + 4 + u64::from(count) {
            return Err(Halt::Wrong(self.at));
        }
        let behind = &self.rest[4..];
        let count = count as usize;
        if behind.len() < count {
            return Err(Halt::Cut(self.at));
        }
        let bytes = &behind[..count];
        if is_text(bytes) {
            let text = Text::copied(alloc, bytes)?;
            self.pass(4 + count);
            return Ok(text);
        }
        Err(Halt::Wrong(self.at))
    }
}

impl<'a> Reader<'a> {
    /// A record: id, idx, host, host name, timestamp, version, tag, sealed, wrapped.
    #[tactic(auto, unfolding(log_rules::specs::Reading::record_at))]
    fn record(&mut self, alloc: Global) -> Result<Record, Halt>
        ensures { Reads record_seen record_at self.old result self.new }
    {
        let id = self.number_16()?;
        let idx = self.number_8()?;
        let host = self.number_16()?;
        let host_name = self.text(alloc)?;
        let timestamp = self.number_8()?;
        let version = self.text(alloc)?;
        let tag = self.text(alloc)?;
        let sealed = self.text(alloc)?;
        let wrapped = self.text(alloc)?;
        Ok(Record {
            id,
            idx,
            host,
            host_name,
            timestamp,
            version,
            tag,
            sealed,
            wrapped,
        })
    }

    /// A command that was begun: id, timestamp, command, cwd, session, hostname.
    #[tactic(auto, unfolding(log_rules::specs::Reading::started_at))]
    fn started(&mut self, alloc: Global) -> Result<Started, Halt>
        ensures { Reads started_seen started_at self.old result self.new }
    {
        let id = self.number_16()?;
        let timestamp = self.number_8()?;
        let command = self.text(alloc)?;
        let cwd = self.text(alloc)?;
        let session = self.text(alloc)?;
        let hostname = self.text(alloc)?;
        Ok(Started {
            id,
            timestamp,
            command,
            cwd,
            session,
            hostname,
        })
    }

    /// The id that a record closes: a mark 0, or a mark 1 and the id.
    #[tactic(auto, unfolding(log_rules::specs::Reading::closes_at))]
    fn closes(&mut self) -> Result<Option<u128>, Halt>
        ensures { Reads (λ closes. closes) closes_at self.old result self.new }
    {
        let at = self.at;
        match self.byte()? {
            0 => Ok(None),
            1 => Ok(Some(self.number_16()?)),
            _ => Err(Halt::Wrong(at)),
        }
    }

    /// An event: a byte for its kind, and its fields.
    #[tactic(auto, unfolding(log_rules::specs::Reading::event_at))]
    pub(crate) fn event(&mut self, alloc: Global) -> Result<Event, Halt>
        ensures { Reads event_seen event_at self.old result self.new }
    {
        let at = self.at;
        match self.byte()? {
            1 => Ok(Event::Started(self.started(alloc)?)),
            2 => {
                let closes = self.closes()?;
                let rec = self.record(alloc)?;
                Ok(Event::Local { rec, closes })
            }
            3 => {
                let owner = self.number_4()?;
                let rec = self.record(alloc)?;
                Ok(Event::Taken { owner, rec })
            }
            _ => Err(Halt::Wrong(at)),
        }
    }

    /// The number of a body's events, 1 to 100.
    #[tactic(auto, unfolding(log_rules::specs::Reading::count_at))]
    pub(crate) fn count(&mut self) -> Result<u32, Halt>
        ensures reads { Reads (λ n. n) count_at self.old result self.new }
        ensures few { IfOk result (λ n. (1 ≤ n) × (n ≤ 100)) }
    {
        let at = self.at;
        let count = self.number_4()?;
        if 1 <= count && count <= MOST_EVENTS {
            Ok(count)
        } else {
            Err(Halt::Wrong(at))
        }
    }
}

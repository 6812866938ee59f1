//! A batch's body in pieces.

ghost use Rattle.std.specs.Prelude.{◌≡◌, ◌+◌, ◌≤◌, length, OnOk, OnErr, MatchResult, Ok};
ghost use Rattle.log_rules.specs.Pieces.{Pieces, no_piece, pushed, left_by};
ghost use Rattle.log_format.specs.Answers.{StopsNext, Nexts, Ends};

use crate::fails::{FormatFail, Halt};
use crate::reader::Reader;
use plain_types::NoMemory;
use record_model::Event;
use std::alloc::Global;
use std::marker::Model;

/// Reads a batch's body that comes in pieces, and gives its events one by one. It keeps the bytes that came and weren't read
/// yet. Contracts see the number of events still to come, where reading stands, and those bytes.
#[derive(Drop)]
pub struct BodyReader {
    held: Vec<u8>,
    start: usize,
    at: u64,
    limit: u32,
    left: Option<u32>,
}

impl Model for BodyReader {
    ghost use Rattle.std.specs.Prelude.{◌≤◌, ◌<◌, ◌+◌, ◌^◌, length, drop};
    ghost use Rattle.log_rules.specs.Pieces.{Pieces};

    ghost Value = { Pieces };

    ghost view = { λ b. record { left = b.left; reading = record { limit = b.limit; at = b.at; rest = drop b.start b.held.items } } };

    ghost invariant = { λ b. (b.start ≤ length b.held.items) × (b.at + length (drop b.start b.held.items) ≤ b.limit) × (b.limit < 2 ^ 32) };
}

/// The answer where a field of the next event was not read.
fn not_given(halt: Halt) -> Result<Option<Event>, FormatFail>
    ensures { (pieces : Pieces) → StopsNext pieces halt → Nexts pieces result pieces }
{
    match halt {
        Halt::Cut(_) => Ok(None),
        Halt::Wrong(place) => Err(FormatFail::Wrong { place }),
        Halt::NoMemory => Err(FormatFail::NoMemory),
    }
}

impl BodyReader {
    /// A reader of a body of `length` bytes, of which none came. It takes no memory.
    pub fn new(alloc: Global, length: u32) -> BodyReader
        ensures { result ≡ no_piece length }
    {
        BodyReader {
            held: Vec::new(alloc),
            start: 0,
            at: 0,
            limit: length,
            left: None,
        }
    }

    /// Takes the next bytes of the body. All pieces together have at most the body's length.
    ///
    /// # Errors
    ///
    /// [`NoMemory`]. The piece wasn't taken then.
    pub fn push(&mut self, piece: &[u8]) -> Result<(), NoMemory>
        requires { self.old.reading.at + length self.old.reading.rest + length piece.now ≤ self.old.reading.limit }
        ensures taken { OnOk result (self.new ≡ pushed self.old piece.now) }
        ensures kept { OnErr result (self.new ≡ self.old) }
    {
        let count = self.held.len() - self.start;
        self.held.copy_within(self.start.., 0);
        self.held.truncate(count);
        self.start = 0;
        self.held.extend_from_slice(piece)?;
        Ok(())
    }

    /// How many events are still to come, and a reader at the next.
    fn upcoming(&self) -> Result<(u32, Reader<'_>), Halt>
        ensures { MatchResult result (λ next. left_by self.now.left self.now.reading ≡ Ok (next.0, next.1)) (λ halt. StopsNext self.now halt) }
    {
        let mut reader = Reader::new(&self.held[self.start..], self.at, u64::from(self.limit));
        match self.left {
            Some(left) => Ok((left, reader)),
            None => match reader.count() {
                Ok(left) => Ok((left, reader)),
                Err(halt) => Err(halt),
            },
        }
    }

    /// The next event, once all its bytes are there. `None` comes where they end before it does, and where all events
    /// were given. A number, a kind or a mark is judged once its last byte is there, the length of a text once it is, and
    /// its bytes once the last is.
    ///
    /// # Errors
    ///
    /// [`FormatFail::Wrong`] exactly where the field at that offset is the first that is judged wrong. Then, and after
    /// [`FormatFail::NoMemory`], the reader is as before.
    pub fn next(&mut self, alloc: Global) -> Result<Option<Event>, FormatFail>
        ensures { Nexts self.old result self.new }
    {
        let (left, mut reader) = match self.upcoming() {
            Ok(next) => next,
            Err(halt) => return not_given(halt),
        };
        if left == 0 {
            return Ok(None);
        }
        match reader.event(alloc) {
            Ok(event) => {
                let unread = reader.left();
                let at = reader.at();
                let len = self.held.as_slice().len();
                self.start = len - unread;
                self.at = at;
                self.left = Some(left - 1);
                Ok(Some(event))
            }
            Err(halt) => not_given(halt),
        }
    }

    /// Whether the pieces were a whole body, whose events were all given.
    ///
    /// # Errors
    ///
    /// [`FormatFail::Wrong`] exactly where they weren't: at the first byte behind the last event where all were given, else
    /// where the pieces end.
    pub fn finish(self) -> Result<(), FormatFail>
        ensures { Ends self result }
    {
        let count = (self.held.len() - self.start) as u64;
        if let Some(0) = self.left {
            if count == 0 && self.at == u64::from(self.limit) {
                return Ok(());
            }
            return Err(FormatFail::Wrong { place: self.at });
        }
        Err(FormatFail::Wrong {
            place: self.at + count,
        })
    }
}

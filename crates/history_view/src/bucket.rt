//! The commands that a filter lets through.

ghost use Rattle.std.specs.Prelude.{◌≡◌, MatchOption, slice_get, Some};
ghost use Rattle.std.specs.Iterator.{YieldsFirst, item_count};
ghost use Rattle.history_view.specs.Buckets.{has_scope, scope_seen, Selects};

use crate::dictionary::Dictionary;
use crate::rows::TextNumbers;
use crate::walk::{Newest, Walked};
use record_model::Filter;

/// A filter, with its text by its number.
#[derive(Clone, Copy, Debug, Drop)]
pub enum ScopeNumber {
    All,
    Hostname(usize),
    Session(usize),
    Cwd(usize),
    /// The text has no number, so no command has it.
    Nothing,
}

impl ScopeNumber {
    /// Whether a command with these texts is let through.
    pub fn has(&self, numbers: &TextNumbers) -> bool
        ensures { result ≡ has_scope self.now numbers.now }
    {
        match self {
            ScopeNumber::All => true,
            ScopeNumber::Hostname(number) => numbers.hostname as usize == *number,
            ScopeNumber::Session(number) => numbers.session as usize == *number,
            ScopeNumber::Cwd(number) => numbers.cwd as usize == *number,
            ScopeNumber::Nothing => false,
        }
    }
}

/// The filter with its text by its number.
pub fn scope_number(texts: &Dictionary, filter: &Filter) -> ScopeNumber
    ensures { Selects texts.now.texts (scope_seen filter.now) result }
{
    match filter {
        Filter::Global => ScopeNumber::All,
        Filter::Host(text) => match texts.find(text.as_bytes()) {
            Some(number) => ScopeNumber::Hostname(number),
            None => ScopeNumber::Nothing,
        },
        Filter::Session(text) => match texts.find(text.as_bytes()) {
            Some(number) => ScopeNumber::Session(number),
            None => ScopeNumber::Nothing,
        },
        Filter::Directory(text) => match texts.find(text.as_bytes()) {
            Some(number) => ScopeNumber::Cwd(number),
            None => ScopeNumber::Nothing,
        },
    }
}

/// The commands that a filter lets through, the newest first.
#[derive(Drop)]
pub struct Bucket<'a> {
    pub(crate) newest: Newest<'a>,
    pub(crate) scope: ScopeNumber,
}

impl<'a> Iterator for Bucket<'a> {
    type Item = Walked;

    ghost use Rattle.history_view.specs.Buckets.{bucket_in};

    ghost next_gives = { YieldsFirst (λ s. bucket_in s) };

    ghost remaining = { item_count (λ s. bucket_in s) };

    fn next(&mut self) -> Option<Walked> {
        loop {
            let walked = self.newest.next()?;
            if self.scope.has(&walked.numbers) {
                return Some(walked);
            }
        }
    }
}

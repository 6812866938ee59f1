//! What is shown, from the newest on.

ghost use Rattle.std.specs.Prelude.{◌≡◌, List, ℕ};
ghost use Rattle.std.specs.Iterator.{YieldsFirst, item_count};

use crate::rows::TextNumbers;
use std::cmp::Reverse;
use std::collections::btree_map;

/// A command that is shown: when it began, its id, and its texts by their numbers.
#[derive(Clone, Copy, Debug, Drop)]
pub struct Walked {
    pub timestamp: u64,
    pub id: u128,
    pub numbers: TextNumbers,
}

/// The commands that are shown, or those that began within a span, the newest first.
#[derive(Drop)]
pub struct Newest<'a> {
    pub(crate) inner: btree_map::Range<'a, (Reverse<u64>, u128), Option<TextNumbers>>,
}

impl<'a> Iterator for Newest<'a> {
    type Item = Walked;

    ghost use Rattle.history_view.specs.Walk.{walked_in};

    ghost next_gives = { YieldsFirst (λ s. walked_in s.inner) };

    ghost remaining = { item_count (λ s. walked_in s.inner) };

    fn next(&mut self) -> Option<Walked> {
        loop {
            let (key, numbers) = self.inner.next()?;
            if let Some(numbers) = numbers {
                return Some(Walked {
                    timestamp: key.0.0,
                    id: key.1,
                    numbers: *numbers,
                });
            }
        }
    }
}

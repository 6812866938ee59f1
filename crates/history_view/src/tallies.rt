//! Counts by the numbers of texts.

ghost use Rattle.std.specs.Prelude.{◌≡◌, ℕ, ◌+◌, ◌≤◌, ◌<◌, ◌^◌, [], Some, length, get_or, cond, ◌==◌, OnOk};
ghost use Rattle.history_view.specs.Counts.{Part, EachPart, counts_of, tally_of, count_of, number_of, has_number, SameCounts, CountsReach};

use crate::rows::TextNumbers;
use plain_types::NoMemory;
use std::alloc::Global;

/// For each number of a text how many commands have it.
pub type Tally = Vec<u64>;

/// For each number of a text of how many shown commands it is the command, the working directory, the session and
/// the host name.
#[derive(Drop)]
pub struct Tallies {
    pub commands: Tally,
    pub cwds: Tally,
    pub sessions: Tally,
    pub hostnames: Tally,
}

impl Tallies {
    /// No counts. It takes no memory.
    pub fn new(alloc: Global) -> Tallies
        ensures { EachPart (λ part. tally_of (counts_of result) part ≡ []) }
    {
        Tallies {
            commands: Vec::new(alloc),
            cwds: Vec::new(alloc),
            sessions: Vec::new(alloc),
            hostnames: Vec::new(alloc),
        }
    }

    /// Makes counts of 0, where there are fewer than so many.
    ///
    /// # Errors
    ///
    /// [`NoMemory`]. The counts are as before.
    pub fn make(&mut self, most: usize) -> Result<(), NoMemory>
        requires { EachPart (λ part. most ≤ length (tally_of (counts_of self.old) part) + 1) }
        ensures made { OnOk result (CountsReach (counts_of self.new) most) }
        ensures longer { EachPart (λ part. length (tally_of (counts_of self.old) part) ≤ length (tally_of (counts_of self.new) part)) }
        ensures same { SameCounts (counts_of self.old) (counts_of self.new) }
    {
        make(&mut self.commands, most)?;
        make(&mut self.cwds, most)?;
        make(&mut self.sessions, most)?;
        make(&mut self.hostnames, most)
    }

    /// A command with these texts is shown.
    pub fn raise(&mut self, numbers: &TextNumbers)
        requires counted { EachPart (λ part. number_of part numbers.now < length (tally_of (counts_of self.old) part)) }
        requires fits { EachPart (λ part. count_of (counts_of self.old) part (number_of part numbers.now) + 1 < 2 ^ 64) }
        ensures more { EachPart (λ part. (n : ℕ) → count_of (counts_of self.new) part n ≡ count_of (counts_of self.old) part n + has_number part n (Some numbers.now)) }
        ensures long { EachPart (λ part. length (tally_of (counts_of self.new) part) ≡ length (tally_of (counts_of self.old) part)) }
    {
        raise(&mut self.commands, numbers.command);
        raise(&mut self.cwds, numbers.cwd);
        raise(&mut self.sessions, numbers.session);
        raise(&mut self.hostnames, numbers.hostname);
    }

    /// A command with these texts is shown no more.
    pub fn lower(&mut self, numbers: &TextNumbers)
        requires counted { EachPart (λ part. number_of part numbers.now < length (tally_of (counts_of self.old) part)) }
        requires some { EachPart (λ part. 1 ≤ count_of (counts_of self.old) part (number_of part numbers.now)) }
        ensures fewer { EachPart (λ part. (n : ℕ) → count_of (counts_of self.new) part n + has_number part n (Some numbers.now) ≡ count_of (counts_of self.old) part n) }
        ensures long { EachPart (λ part. length (tally_of (counts_of self.new) part) ≡ length (tally_of (counts_of self.old) part)) }
    {
        lower(&mut self.commands, numbers.command);
        lower(&mut self.cwds, numbers.cwd);
        lower(&mut self.sessions, numbers.session);
        lower(&mut self.hostnames, numbers.hostname);
    }
}

/// The count of a number; 0 where there is none.
pub fn counted(tally: &Tally, number: usize) -> u64
    ensures { result ≡ get_or tally.now.items number 0 }
{
    match tally.get(number) {
        Some(count) => *count,
        None => 0,
    }
}

/// Makes a count of 0 for one number more, where there are fewer than so many.
///
/// # Errors
///
/// [`NoMemory`]. The counts are as before.
fn make(tally: &mut Tally, most: usize) -> Result<(), NoMemory>
    requires { most ≤ length tally.old.items + 1 }
    ensures made { OnOk result (most ≤ length tally.new.items) }
    ensures longer { length tally.old.items ≤ length tally.new.items }
    ensures same { (n : ℕ) → get_or tally.new.items n 0 ≡ get_or tally.old.items n 0 }
{
    if tally.len() < most {
        tally.push(0)?;
    }
    Ok(())
}

/// One command more has the text of this number.
fn raise(tally: &mut Tally, number: u32)
    requires counted { number < length tally.old.items }
    requires fits { get_or tally.old.items number 0 + 1 < 2 ^ 64 }
    ensures more { (n : ℕ) → get_or tally.new.items n 0 ≡ get_or tally.old.items n 0 + cond (number == n) 1 0 }
    ensures long { length tally.new.items ≡ length tally.old.items }
{
    tally[number as usize] += 1;
}

/// One command fewer has the text of this number.
fn lower(tally: &mut Tally, number: u32)
    requires counted { number < length tally.old.items }
    requires some { 1 ≤ get_or tally.old.items number 0 }
    ensures fewer { (n : ℕ) → get_or tally.new.items n 0 + cond (number == n) 1 0 ≡ get_or tally.old.items n 0 }
    ensures long { length tally.new.items ≡ length tally.old.items }
{
    tally[number as usize] -= 1;
}

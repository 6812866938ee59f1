//! Between which times the commands of a text began.

ghost use Rattle.std.specs.Prelude.{◌≡◌, ℕ, ◌≤◌, ◌<◌, true, false, length, OnOk};
ghost use Rattle.history_view.specs.Spans.{no_times, joined, IsWithin, span_of};

use plain_types::NoMemory;

/// The times from the earliest to the latest, both in it; none where the latest comes first.
#[derive(Clone, Copy, Debug, Drop)]
pub struct Span {
    pub earliest: u64,
    pub latest: u64,
}

impl Span {
    /// No times.
    pub fn empty() -> Span
        ensures { result ≡ no_times }
    {
        Span {
            earliest: u64::MAX,
            latest: 0,
        }
    }

    /// Whether no time is in it.
    pub fn is_empty(&self) -> bool
        ensures empty { result ≡ true → self.now.latest < self.now.earliest }
        ensures some { result ≡ false → self.now.earliest ≤ self.now.latest }
    {
        self.latest < self.earliest
    }

    /// From the earlier beginning of the two to the later end.
    pub fn joined(&self, other: &Span) -> Span
        ensures { result ≡ joined self.now other.now }
    {
        Span {
            earliest: self.earliest.min(other.earliest),
            latest: self.latest.max(other.latest),
        }
    }
}

/// For each number of a text the span of the times at which commands with it began. A span only grows.
pub type Spans = Vec<Span>;

/// The span of a number; no times where there is none.
pub fn spanned(spans: &Spans, number: usize) -> Span
    ensures { result ≡ span_of spans.now.items number }
{
    match spans.get(number) {
        Some(span) => *span,
        None => Span::empty(),
    }
}

/// Makes spans of no times, where there are fewer than so many.
///
/// # Errors
///
/// [`NoMemory`]. The spans are as before.
pub fn make(spans: &mut Spans, count: usize) -> Result<(), NoMemory>
    ensures made { OnOk result (count ≤ length spans.new.items) }
    ensures longer { length spans.old.items ≤ length spans.new.items }
    ensures same { (n : ℕ) → span_of spans.new.items n ≡ span_of spans.old.items n }
{
    while spans.len() < count {
        spans.push(Span::empty())?;
    }
    Ok(())
}

/// A command with the text of this number began at this time.
pub fn widen(spans: &mut Spans, number: u32, time: u64)
    requires { number < length spans.old.items }
    ensures within { IsWithin (span_of spans.new.items number) time }
    ensures keeps { (n t : ℕ) → IsWithin (span_of spans.old.items n) t → IsWithin (span_of spans.new.items n) t }
    ensures long { length spans.new.items ≡ length spans.old.items }
{
    let at = Span {
        earliest: time,
        latest: time,
    };
    let wider = spans[number as usize].joined(&at);
    spans[number as usize] = wider;
}

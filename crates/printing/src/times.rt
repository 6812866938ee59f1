//! Times in UTC.

ghost use Rattle.std.specs.Prelude.{◌≡◌, ◌*◌, ◌/◌, pos};
ghost use Rattle.printing.specs.Lines.{IsTimeText};

use arrayvec::ArrayString;
use jiff::Timestamp;
use jiff::fmt::temporal::DateTimePrinter;

/// The time in nanoseconds since 1970 as a clock in UTC shows it, without the fraction of the second.
pub fn time_text(nanos: u64) -> ArrayString<33>
    ensures { IsTimeText nanos result.bytes }
{
    DateTimePrinter::new()
        .precision(Some(0))
        .timestamp_text(whole_second(nanos).to_plain())
}

/// The beginning of the second.
fn whole_second(nanos: u64) -> Timestamp
    ensures { result.nanosecond ≡ pos (nanos / 1000000000 * 1000000000) }
{
    match Timestamp::from_second((nanos / 1_000_000_000) as i64) {
        Ok(second) => second,
        Err(_) => unreachable!(),
    }
}

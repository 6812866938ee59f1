//! Pages of a step.

ghost use Rattle.std.specs.Prelude.{◌≡◌, ◌≤◌, ◌-◌, min};
ghost use Rattle.definitions.specs.Limits.{most_page_records};

/// The most records that a page has.
const MOST_PAGE_RECORDS: u64 = 100;

/// How many records the next page of a step has that goes on at `from`: as many as are left up to `to`, and at most 100.
pub fn page_len(from: u64, to: u64) -> u32
    requires { from ≤ to }
    ensures { result ≡ min most_page_records (to - from) }
{
    (to - from).min(MOST_PAGE_RECORDS) as u32
}

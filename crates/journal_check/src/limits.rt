//! The limits on what one entry holds.

ghost use Rattle.std.specs.Prelude.{◌≡◌};
ghost use Rattle.record_model.specs.Seen.{started_seen, record_seen};
ghost use Rattle.journal_check.specs.Admission.{started_fits, record_fits};

use record_model::{Record, Started};

/// Bytes of a command.
const MOST_COMMAND: usize = 262_144;

/// Bytes of a working directory, a session and a host name.
const MOST_NAME: usize = 4_096;

/// Bytes of a tag and of a version.
const MOST_TAG: usize = 256;

/// What one record weighs at most, in bytes.
const MOST_RECORD_WEIGHT: u64 = 4_194_304;

/// Whether the texts of a command are within their limits.
pub(crate) fn started_fits(s: &Started) -> bool
    ensures { result ≡ started_fits (started_seen s.now) }
{
    s.command.len() <= MOST_COMMAND
        && s.cwd.len() <= MOST_NAME
        && s.session.len() <= MOST_NAME
        && s.hostname.len() <= MOST_NAME
}

/// Whether the texts of a record, and its weight, are within their limits.
pub(crate) fn record_fits(r: &Record) -> bool
    ensures { result ≡ record_fits (record_seen r.now) }
{
    r.host_name.len() <= MOST_NAME
        && r.version.len() <= MOST_TAG
        && r.tag.len() <= MOST_TAG
        && r.weight() <= MOST_RECORD_WEIGHT
}

//! What was said of a name.

ghost use Rattle.std.specs.Prelude.{◌≡◌};
ghost use Rattle.std.specs.Ordering.{is_lt};
ghost use Rattle.view_rules.specs.Standing.{setting_cmp};
ghost use Rattle.latest_values.specs.Settings.{setting_seen};

use plain_types::Text;

/// What was said of a name, by which change: a value, or that it has none.
#[derive(Debug, Drop)]
pub struct Setting {
    /// In nanoseconds since 1970 began, in UTC.
    pub timestamp: u64,
    pub host: u128,
    pub idx: u64,
    pub said: Option<Text>,
}

impl Setting {
    /// Whether it stands at a greater time, or at the same time and a greater host, or at the same time
    /// and host and a greater idx.
    pub fn is_later_than(&self, other: &Setting) -> bool
        ensures { result ≡ is_lt (setting_cmp (setting_seen other.now) (setting_seen self.now)) }
    {
        other.timestamp < self.timestamp
            || other.timestamp == self.timestamp
                && (other.host < self.host || other.host == self.host && other.idx < self.idx)
    }
}

//! Tags and versions.

ghost use Rattle.std.specs.Prelude.{◌≡◌, ◌≤◌, length};
ghost use Rattle.std.specs.Str.{IsUtf8};
ghost use Rattle.payload_rules.specs.Payloads as rules;
ghost use Rattle.payload_rules.specs.Payloads.{version_text};
ghost use Rattle.payload_forms.specs.Seen.{payload_seen};

use payload_forms::{Payload, payload_version};

/// The tag of the records that hold such a payload, in at most 20 bytes. It takes no memory.
pub fn tag_of(payload: &Payload) -> &'static [u8]
    ensures tag { result.now ≡ rules.tag_of (payload_seen payload.now) }
    ensures utf8 { IsUtf8 result.now }
    ensures short { length result.now ≤ 20 }
{
    match payload {
        Payload::HistoryCreate(_) | Payload::HistoryDelete(_) => b"history",
        Payload::KvSet { .. } | Payload::KvDelete { .. } => b"kv",
        Payload::AliasSet { .. } | Payload::AliasDelete { .. } => b"dotfiles-shell-alias",
    }
}

/// The name of the version in which it is written, in two bytes. It takes no memory.
pub fn version_of(payload: &Payload) -> &'static [u8]
    ensures version { result.now ≡ version_text (rules.payload_version (payload_seen payload.now)) }
    ensures utf8 { IsUtf8 result.now }
    ensures short { length result.now ≡ 2 }
{
    if payload_version(payload) == 0 {
        b"v0"
    } else {
        b"v1"
    }
}

//! The texts of a call that are too long.

ghost use Rattle.std.specs.Prelude.{◌≡◌, ◌≤◌, ◌<◌, ◌^◌, length, None};
ghost use Rattle.std.specs.Option.{option_map, option_or};
ghost use Rattle.model_words.specs.Seen.{call_seen};
ghost use Rattle.step_rules.specs.Calls.{long_text, first_long, stored_texts, author_field};
ghost use Rattle.call_drafts.specs.Seen.{long_seen, long_one};

use plain_types::Text;
use record_model::Call;

/// Bytes of a command and of a value.
const MOST_VALUE: usize = 262_144;

/// Bytes of a working directory, a session, a host name, an author, a namespace, a key and an alias.
const MOST_NAME: usize = 4_096;

/// A text that is longer than it may be.
#[derive(Clone, Copy, Debug, PartialEq, Eq)]
pub struct LongText {
    /// The number of the call's argument, from 1.
    pub field: u8,
    /// Its length in bytes.
    pub length: u64,
}

/// The text where it is longer than that.
fn long(field: u8, text: &Text, most: usize) -> Option<LongText>
    ensures { option_map long_seen result ≡ long_one field text.now most }
{
    if text.len() > most {
        return Some(LongText {
            field,
            length: text.len() as u64,
        });
    }
    None
}

/// The author where there is one that is too long.
fn long_author(author: &Option<Text>) -> Option<LongText>
    ensures { option_map long_seen result ≡ first_long (author_field author.now) }
{
    match author {
        Some(text) => long(4, text, MOST_NAME),
        None => None,
    }
}

/// The first of two.
fn first(one: Option<LongText>, other: Option<LongText>) -> Option<LongText>
    ensures { option_map long_seen result ≡ option_or (option_map long_seen one) (option_map long_seen other) }
{
    match one {
        Some(text) => Some(text),
        None => other,
    }
}

/// The first text of the call that is longer than it may be, if there is one. It takes no memory.
pub fn too_long(call: &Call) -> Option<LongText>
    ensures { option_map long_seen result ≡ long_text (call_seen call.now) }
{
    match call {
        Call::Start {
            command,
            cwd,
            session,
            hostname,
        } => {
            let names = first(long(3, session, MOST_NAME), long(4, hostname, MOST_NAME));
            first(
                long(1, command, MOST_VALUE),
                first(long(2, cwd, MOST_NAME), names),
            )
        }
        Call::End { author, .. } => long_author(author),
        Call::KvSet {
            namespace,
            key,
            value,
        } => first(
            long(1, namespace, MOST_NAME),
            first(long(2, key, MOST_NAME), long(3, value, MOST_VALUE)),
        ),
        Call::AliasSet { name, value } => {
            first(long(1, name, MOST_NAME), long(2, value, MOST_VALUE))
        }
        _ => None,
    }
}

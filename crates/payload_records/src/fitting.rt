//! What every payload meets by its types.

ghost use Rattle.std.specs.Prelude.{◌<◌, ◌^◌, FitsSigned, length};
ghost use Rattle.std.specs.Int.{w64};
ghost use Rattle.definitions.specs.Spelling.{IsBytes, TextFits};
ghost use Rattle.payload_rules.specs.Payloads.{PayloadFits, TextsFit, HistoryFits, HistoryTextsFit, AuthorFits, TimeFits, written_history, written_payload};
ghost use Rattle.record_model.specs.Seen.{history_seen};
ghost use Rattle.payload_forms.specs.Seen.{payload_seen};

use payload_forms::Payload;
use plain_types::Text;
use record_model::History;

/// Each byte is below 256.
pub(crate) fn bytes_fit(bytes: &[u8])
    ensures { IsBytes bytes.now }
{
    let _count = bytes.len();
}

/// Each text can be written.
fn text_fits(text: &Text)
    ensures { TextFits text.now }
{
    let _bytes = text.as_bytes();
}

fn author_fits(author: &Option<Text>)
    ensures { AuthorFits author.now }
{
    if let Some(text) = author {
        text_fits(text);
    }
}

fn time_fits(time: &Option<u64>)
    ensures { TimeFits time.now }
{
    if let Some(nanoseconds) = time {
        let _nanoseconds = *nanoseconds;
    }
}

/// The numbers of a command are within the ranges of their types.
fn numbers_fit(id: u128, timestamp: u64, duration: i64, exit: i64)
    ensures id { id < 2 ^ 128 }
    ensures timestamp { timestamp < 2 ^ 64 }
    ensures duration { FitsSigned w64 duration }
    ensures exit { FitsSigned w64 exit }
{}

/// The numbers of a command are within the ranges of their types, and its texts can be written.
fn history_fits(history: &History)
    requires { length (written_history (history_seen history.now)) < 2 ^ 32 }
    ensures numbers { HistoryFits (history_seen history.now) }
    ensures texts { HistoryTextsFit (history_seen history.now) }
{
    numbers_fit(
        history.id,
        history.timestamp,
        history.duration,
        history.exit,
    );
    time_fits(&history.deleted_at);
    text_fits(&history.command);
    text_fits(&history.cwd);
    text_fits(&history.session);
    text_fits(&history.hostname);
    author_fits(&history.author);
}

/// The numbers of a payload are within the ranges of their types, and its texts can be written.
pub(crate) fn payload_fits(payload: &Payload)
    requires { length (written_payload (payload_seen payload.now)) < 2 ^ 32 }
    ensures numbers { PayloadFits (payload_seen payload.now) }
    ensures texts { TextsFit (payload_seen payload.now) }
{
    match payload {
        Payload::HistoryCreate(history) => history_fits(history),
        Payload::HistoryDelete(id) => {
            let _id = *id;
        }
        Payload::KvSet {
            namespace,
            key,
            value,
        } => {
            text_fits(namespace);
            text_fits(key);
            text_fits(value);
        }
        Payload::KvDelete { namespace, key } => {
            text_fits(namespace);
            text_fits(key);
        }
        Payload::AliasSet { name, value } => {
            text_fits(name);
            text_fits(value);
        }
        Payload::AliasDelete { name } => text_fits(name),
    }
}

//! How long payloads are when they are written, counted without memory.

ghost use Rattle.std.specs.Prelude.{◌≡◌, ℕ, ℤ, pos, ◌+◌, ◌<◌, ◌≤◌, ◌^◌, ◌<ℤ◌, length};
ghost use Rattle.definitions.specs.Ids.{id_text};
ghost use Rattle.definitions.specs.Replies.{written_author};
ghost use Rattle.definitions.specs.Search.{author_length, hit_bytes};
ghost use Rattle.definitions.specs.Spelling.{written_integer, text_head, shortest_text, written_text};
ghost use Rattle.payload_rules.specs.Items.{bin_head, shortest_bin, written_bin};
ghost use Rattle.payload_rules.specs.Payloads.{written_time, written_told, written_history, written_payload};
ghost use Rattle.record_model.specs.Seen.{history_seen};
ghost use Rattle.payload_forms.specs.Seen.{payload_seen};
ghost use Rattle.payload_forms.specs.Writing.{told_numbers, told_texts};

use crate::kinds::Payload;
use plain_types::Text;
use record_model::History;

/// The bytes of a number in one byte, in two and in eight behind a mark, of nil, of the header of a short array, and of
/// an id.
const U8_FORM: u64 = 2;

const U16_FORM: u64 = 3;

const U64_FORM: u64 = 9;

const NIL: u64 = 1;

const SHORT_ARRAY: u64 = 1;

const ID: u64 = 34;

/// The number of bytes that [`write_payload`](crate::write_payload) writes for it. It takes no memory.
pub fn payload_len(payload: &Payload) -> u64
    ensures { result ≡ length (written_payload (payload_seen payload.now)) }
{
    match payload {
        Payload::HistoryCreate(history) => U8_FORM + bin_len(history_len(history)),
        Payload::HistoryDelete(_) => U8_FORM + ID,
        Payload::KvSet {
            namespace,
            key,
            value,
        } => SHORT_ARRAY + text_len(namespace) + text_len(key) + text_len(value),
        Payload::KvDelete { namespace, key } => {
            U8_FORM + SHORT_ARRAY + text_len(namespace) + text_len(key)
        }
        Payload::AliasSet { name, value } => {
            U8_FORM + SHORT_ARRAY + text_len(name) + text_len(value)
        }
        Payload::AliasDelete { name } => U8_FORM + SHORT_ARRAY + text_len(name),
    }
}

/// What the bin of a command holds.
pub(crate) fn history_len(history: &History) -> u64
    ensures value { result ≡ length (written_history (history_seen history.now)) }
    ensures below { result ≤ 128 + hit_bytes (history_seen history.now) }
    ensures small { result < 2 ^ 36 }
{
    U16_FORM + SHORT_ARRAY + told_len(history) + author_len(&history.author)
}

/// What is told of a command, without its author.
fn told_len(history: &History) -> u64
    ensures value { result ≡ length (written_told (history_seen history.now)) }
    ensures below { result ≤ 100 + length history.now.command + length history.now.cwd + length history.now.session + length history.now.hostname }
    ensures small { result < 2 ^ 35 }
{
    numbers_len(history) + texts_len(history)
}

#[tactic(auto, unfolding(crate::specs::Writing::told_numbers))]
fn numbers_len(history: &History) -> u64
    ensures value { result ≡ length (told_numbers (history_seen history.now)) }
    ensures below { result ≤ 61 }
{
    ID + U64_FORM + integer_len(history.duration) + integer_len(history.exit)
}

#[tactic(auto, unfolding(crate::specs::Writing::told_texts))]
fn texts_len(history: &History) -> u64
    ensures value { result ≡ length (told_texts (history_seen history.now)) }
    ensures below { result ≤ 29 + length history.now.command + length history.now.cwd + length history.now.session + length history.now.hostname }
    ensures small { result < 2 ^ 34 + 32 }
{
    text_len(&history.command)
        + text_len(&history.cwd)
        + text_len(&history.session)
        + text_len(&history.hostname)
        + time_len(history.deleted_at)
}

fn time_len(time: Option<u64>) -> u64
    ensures value { result ≡ length (written_time time) }
    ensures below { result ≤ 9 }
{
    match time {
        Some(_) => U64_FORM,
        None => NIL,
    }
}

/// The author, who has no bytes where there is none.
fn author_len(author: &Option<Text>) -> u64
    ensures value { result ≡ length (written_author author.now) }
    ensures below { result ≤ 5 + author_length author.now }
    ensures small { result < 2 ^ 32 + 5 }
{
    match author {
        Some(text) => text_len(text),
        None => 0,
    }
}

fn text_len(text: &Text) -> u64
    ensures value { result ≡ length (written_text text.now) }
    ensures below { result ≤ 5 + length text.now }
    ensures small { result < 2 ^ 32 + 5 }
{
    text_head_len(text.len()) + text.len() as u64
}

/// The head of a text of `size` bytes.
fn text_head_len(size: usize) -> u64
    ensures value { result ≡ length (text_head (shortest_text size) size) }
    ensures below { result ≤ 5 }
{
    if size < 1 << 5 {
        1
    } else if size < 1 << 8 {
        2
    } else if size < 1 << 16 {
        3
    } else {
        5
    }
}

/// A bin that holds `size` bytes.
fn bin_len(size: u64) -> u64
    requires { size < 2 ^ 36 }
    ensures { result ≡ length (bin_head (shortest_bin size) size) + size }
{
    if size < 1 << 8 {
        size + 2
    } else if size < 1 << 16 {
        size + 3
    } else {
        size + 5
    }
}

fn integer_len(value: i64) -> u64
    ensures value { result ≡ length (written_integer value) }
    ensures below { result ≤ 9 }
{
    if value < 0 {
        negative_len(value)
    } else {
        unsigned_len(value as u64)
    }
}

fn unsigned_len(value: u64) -> u64
    ensures value { result ≡ length (written_integer (pos value)) }
    ensures below { result ≤ 9 }
{
    if value < 1 << 7 {
        1
    } else if value < 1 << 8 {
        2
    } else if value < 1 << 16 {
        3
    } else if value < 1 << 32 {
        5
    } else {
        9
    }
}

fn negative_len(value: i64) -> u64
    requires { value <ℤ pos 0 }
    ensures value { result ≡ length (written_integer value) }
    ensures below { result ≤ 9 }
{
    if value >= -32 {
        1
    } else if value >= i64::from(i8::MIN) {
        2
    } else if value >= i64::from(i16::MIN) {
        3
    } else if value >= i64::from(i32::MIN) {
        5
    } else {
        9
    }
}

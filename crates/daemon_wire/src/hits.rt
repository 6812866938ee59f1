//! The hits of a search, in a reply.

ghost use Rattle.std.specs.Prelude.{◌≡◌, ◌≤◌, ◌<◌, ◌^◌, ◌++◌, length, OnOk, OnErr};
ghost use Rattle.std.specs.List.{flat_map};
ghost use Rattle.definitions.specs.Replies.{written_author, hit_length, hit_item};
ghost use Rattle.definitions.specs.Spelling.{written_integer};
ghost use Rattle.session_rules.specs.Bytes.{written_list};
ghost use Rattle.record_model.specs.Seen.{history_seen, histories_seen};
ghost use Rattle.daemon_wire.specs.Writing.{Keeps, hit_head, hit_numbers, hit_texts};

use crate::replies::put_id;
use msgpack_fields::Writer;
use plain_types::{NoMemory, Text};
use record_model::History;

/// Commands that ended, fewer than 2^32.
pub(crate) fn put_hits(writer: &mut Writer, hits: &[History]) -> Result<(), NoMemory>
    requires { length hits.now < 2 ^ 32 }
    ensures ok { OnOk result (writer.new.items ≡ writer.old.items ++ written_list hit_item (histories_seen hits.now)) }
    ensures kept { OnErr result (Keeps writer.old.items writer.new.items) }
    ensures reserved { writer.old.reserved ≤ writer.new.reserved }
{
    writer.array(hits.len() as u32)?;
    put_hit_items(writer, hits)
}

fn put_hit_items(writer: &mut Writer, hits: &[History]) -> Result<(), NoMemory>
    ensures ok { OnOk result (writer.new.items ≡ writer.old.items ++ flat_map hit_item (histories_seen hits.now)) }
    ensures kept { OnErr result (Keeps writer.old.items writer.new.items) }
    ensures reserved { writer.old.reserved ≤ writer.new.reserved }
{
    for hit in hits {
        put_hit(writer, hit)?;
    }
    Ok(())
}

fn put_hit(writer: &mut Writer, hit: &History) -> Result<(), NoMemory>
    ensures ok { OnOk result (writer.new.items ≡ writer.old.items ++ hit_item (history_seen hit.now)) }
    ensures kept { OnErr result (Keeps writer.old.items writer.new.items) }
    ensures reserved { writer.old.reserved ≤ writer.new.reserved }
{
    put_hit_head(writer, hit)?;
    put_hit_numbers(writer, hit)?;
    put_hit_texts(writer, hit)
}

/// The header of a hit's array, and its id.
fn put_hit_head(writer: &mut Writer, hit: &History) -> Result<(), NoMemory>
    ensures ok { OnOk result (writer.new.items ≡ writer.old.items ++ hit_head (history_seen hit.now)) }
    ensures kept { OnErr result (Keeps writer.old.items writer.new.items) }
    ensures reserved { writer.old.reserved ≤ writer.new.reserved }
{
    writer.array(item_count(&hit.author))?;
    put_id(writer, hit.id)
}

fn put_hit_numbers(writer: &mut Writer, hit: &History) -> Result<(), NoMemory>
    ensures ok { OnOk result (writer.new.items ≡ writer.old.items ++ hit_numbers (history_seen hit.now)) }
    ensures kept { OnErr result (Keeps writer.old.items writer.new.items) }
    ensures reserved { writer.old.reserved ≤ writer.new.reserved }
{
    writer.int(i128::from(hit.timestamp))?;
    put_signed(writer, hit.duration)?;
    put_signed(writer, hit.exit)
}

fn put_signed(writer: &mut Writer, value: i64) -> Result<(), NoMemory>
    ensures ok { OnOk result (writer.new.items ≡ writer.old.items ++ written_integer value) }
    ensures err { OnErr result (writer.new.items ≡ writer.old.items) }
    ensures reserved { writer.old.reserved ≤ writer.new.reserved }
{
    writer.int(i128::from(value))
}

#[tactic(auto, unfolding(crate::specs::Writing::hit_texts))]
fn put_hit_texts(writer: &mut Writer, hit: &History) -> Result<(), NoMemory>
    ensures ok { OnOk result (writer.new.items ≡ writer.old.items ++ hit_texts (history_seen hit.now)) }
    ensures kept { OnErr result (Keeps writer.old.items writer.new.items) }
    ensures reserved { writer.old.reserved ≤ writer.new.reserved }
{
    writer.text(hit.command.as_bytes())?;
    writer.text(hit.cwd.as_bytes())?;
    writer.text(hit.session.as_bytes())?;
    writer.text(hit.hostname.as_bytes())?;
    put_author(writer, &hit.author)
}

/// How many items a hit has: its author is one more.
fn item_count(author: &Option<Text>) -> u32
    ensures { result ≡ hit_length author.now }
{
    match author {
        Some(_) => 9,
        None => 8,
    }
}

fn put_author(writer: &mut Writer, author: &Option<Text>) -> Result<(), NoMemory>
    ensures ok { OnOk result (writer.new.items ≡ writer.old.items ++ written_author author.now) }
    ensures err { OnErr result (writer.new.items ≡ writer.old.items) }
    ensures reserved { writer.old.reserved ≤ writer.new.reserved }
{
    match author {
        Some(author) => writer.text(author.as_bytes()),
        None => Ok(()),
    }
}

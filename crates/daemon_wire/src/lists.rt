//! Lists of names, of aliases and of chains, in a reply.

ghost use Rattle.std.specs.Prelude.{◌≡◌, ◌≤◌, ◌<◌, ◌^◌, ◌++◌, length, OnOk, OnErr};
ghost use Rattle.std.specs.List.{flat_map};
ghost use Rattle.definitions.specs.Spelling.{written_text};
ghost use Rattle.session_rules.specs.Bytes.{written_list, alias_item, place_item};
ghost use Rattle.record_model.specs.Seen.{chain_seen, chains_seen};
ghost use Rattle.model_words.specs.Seen.{named_seen, nameds_seen};
ghost use Rattle.daemon_wire.specs.Writing.{Keeps};

use msgpack_fields::Writer;
use plain_types::{NoMemory, Text};
use record_model::{Chain, NamedText, record_id_text};

/// Texts, fewer than 2^32.
pub(crate) fn put_texts(writer: &mut Writer, texts: &[Text]) -> Result<(), NoMemory>
    requires { length texts.now < 2 ^ 32 }
    ensures ok { OnOk result (writer.new.items ≡ writer.old.items ++ written_list written_text texts.now) }
    ensures kept { OnErr result (Keeps writer.old.items writer.new.items) }
    ensures reserved { writer.old.reserved ≤ writer.new.reserved }
{
    writer.array(texts.len() as u32)?;
    put_text_items(writer, texts)
}

fn put_text_items(writer: &mut Writer, texts: &[Text]) -> Result<(), NoMemory>
    ensures ok { OnOk result (writer.new.items ≡ writer.old.items ++ flat_map written_text texts.now) }
    ensures kept { OnErr result (Keeps writer.old.items writer.new.items) }
    ensures reserved { writer.old.reserved ≤ writer.new.reserved }
{
    for text in texts {
        writer.text(text.as_bytes())?;
    }
    Ok(())
}

/// Names with their values, fewer than 2^32.
pub(crate) fn put_aliases(writer: &mut Writer, aliases: &[NamedText]) -> Result<(), NoMemory>
    requires { length aliases.now < 2 ^ 32 }
    ensures ok { OnOk result (writer.new.items ≡ writer.old.items ++ written_list alias_item (nameds_seen aliases.now)) }
    ensures kept { OnErr result (Keeps writer.old.items writer.new.items) }
    ensures reserved { writer.old.reserved ≤ writer.new.reserved }
{
    writer.array(aliases.len() as u32)?;
    put_alias_items(writer, aliases)
}

fn put_alias_items(writer: &mut Writer, aliases: &[NamedText]) -> Result<(), NoMemory>
    ensures ok { OnOk result (writer.new.items ≡ writer.old.items ++ flat_map alias_item (nameds_seen aliases.now)) }
    ensures kept { OnErr result (Keeps writer.old.items writer.new.items) }
    ensures reserved { writer.old.reserved ≤ writer.new.reserved }
{
    for alias in aliases {
        put_alias(writer, alias)?;
    }
    Ok(())
}

fn put_alias(writer: &mut Writer, alias: &NamedText) -> Result<(), NoMemory>
    ensures ok { OnOk result (writer.new.items ≡ writer.old.items ++ alias_item (named_seen alias.now)) }
    ensures kept { OnErr result (Keeps writer.old.items writer.new.items) }
    ensures reserved { writer.old.reserved ≤ writer.new.reserved }
{
    writer.array(2)?;
    writer.text(alias.name.as_bytes())?;
    writer.text(alias.value.as_bytes())
}

/// Chains, fewer than 2^32: the host's id, the tag, and the number of records of each.
pub(crate) fn put_places(writer: &mut Writer, chains: &[Chain]) -> Result<(), NoMemory>
    requires { length chains.now < 2 ^ 32 }
    ensures ok { OnOk result (writer.new.items ≡ writer.old.items ++ written_list place_item (chains_seen chains.now)) }
    ensures kept { OnErr result (Keeps writer.old.items writer.new.items) }
    ensures reserved { writer.old.reserved ≤ writer.new.reserved }
{
    writer.array(chains.len() as u32)?;
    put_place_items(writer, chains)
}

fn put_place_items(writer: &mut Writer, chains: &[Chain]) -> Result<(), NoMemory>
    ensures ok { OnOk result (writer.new.items ≡ writer.old.items ++ flat_map place_item (chains_seen chains.now)) }
    ensures kept { OnErr result (Keeps writer.old.items writer.new.items) }
    ensures reserved { writer.old.reserved ≤ writer.new.reserved }
{
    for chain in chains {
        put_place(writer, chain)?;
    }
    Ok(())
}

fn put_place(writer: &mut Writer, chain: &Chain) -> Result<(), NoMemory>
    ensures ok { OnOk result (writer.new.items ≡ writer.old.items ++ place_item (chain_seen chain.now)) }
    ensures kept { OnErr result (Keeps writer.old.items writer.new.items) }
    ensures reserved { writer.old.reserved ≤ writer.new.reserved }
{
    writer.array(3)?;
    writer.text(&record_id_text(chain.host))?;
    writer.text(chain.tag.as_bytes())?;
    writer.int(i128::from(chain.count))
}

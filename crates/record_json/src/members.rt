//! Texts and ids in JSON that is written.

ghost use Rattle.std.specs.Prelude.{◌≡◌, ◌∷◌, [], OnOk};
ghost use Rattle.json.specs.Token.{key};
ghost use Rattle.definitions.specs.Ids.{hyphenated};
ghost use Rattle.record_json.specs.Writing.{Adds};

use json::Writer;
use plain_types::{NoMemory, Text};
use record_model::record_id_text;

/// The text as a `str`.
pub fn text_str(text: &Text) -> &str
    ensures { result.now ≡ text.now }
{
    match str::from_utf8(text.as_bytes()) {
        Ok(text) => text,
        Err(_) => unreachable!(),
    }
}

/// Adds the name of a member that is an id.
pub fn add_id_key(writer: &mut Writer, id: u128) -> Result<(), NoMemory>
    ensures { OnOk result (Adds writer.old writer.new (key (hyphenated id) ∷ [])) }
{
    let text = record_id_text(id);
    match str::from_utf8(&text) {
        Ok(text) => writer.key(text)?,
        Err(_) => unreachable!(),
    }
    Ok(())
}

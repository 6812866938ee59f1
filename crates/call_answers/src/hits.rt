//! The hits of a search, copied.

ghost use Rattle.std.specs.Prelude.{◌≡◌, IfOk};
ghost use Rattle.std.specs.Option.{option_map};
ghost use Rattle.record_model.specs.Seen.{history_seen, histories_seen};
ghost use Rattle.history_view.specs.Shown.{command_seen};
ghost use Rattle.search_query.specs.Answers.{seen_of};

use history_view::ShownCommand;
use plain_types::{NoMemory, Text};
use record_model::History;
use std::alloc::Global;

/// Texts have fewer bytes.
const TEXT_BYTES: usize = 4_294_967_296;

/// A copy of a text that a view lends as bytes.
///
/// # Errors
///
/// [`NoMemory`], also of bytes that are no text in UTF-8 of fewer than 2^32, of which a view has none.
fn text(alloc: Global, bytes: &[u8]) -> Result<Text, NoMemory>
    ensures { IfOk result (λ t. t ≡ bytes.now) }
{
    if bytes.len() >= TEXT_BYTES {
        return Err(NoMemory);
    }
    match String::from_utf8(Vec::from_slice(alloc, bytes)?) {
        Ok(inner) => Ok(Text::from_string(inner)),
        Err(_) => Err(NoMemory),
    }
}

/// A copy of the author, if there is one.
///
/// # Errors
///
/// [`NoMemory`].
fn author(alloc: Global, lent: Option<&[u8]>) -> Result<Option<Text>, NoMemory>
    ensures { IfOk result (λ a. a ≡ option_map (λ b. b.now) lent.entry) }
{
    match lent {
        Some(bytes) => Ok(Some(text(alloc, bytes)?)),
        None => Ok(None),
    }
}

/// A copy of the command.
///
/// # Errors
///
/// [`NoMemory`].
fn copy(alloc: Global, shown: &ShownCommand<'_>) -> Result<History, NoMemory>
    ensures { IfOk result (λ h. history_seen h ≡ command_seen shown.now) }
{
    Ok(History {
        id: shown.id,
        timestamp: shown.timestamp,
        duration: shown.duration,
        exit: shown.exit,
        command: text(alloc, shown.command)?,
        cwd: text(alloc, shown.cwd)?,
        session: text(alloc, shown.session)?,
        hostname: text(alloc, shown.hostname)?,
        deleted_at: shown.deleted_at,
        author: author(alloc, shown.author)?,
    })
}

/// Copies of the commands, in their order.
///
/// # Errors
///
/// [`NoMemory`].
pub fn copies(alloc: Global, shown: &[ShownCommand<'_>]) -> Result<Vec<History>, NoMemory>
    ensures { IfOk result (λ hits. histories_seen hits.items ≡ seen_of shown.now) }
{
    let mut hits = Vec::new(alloc);
    for command in shown {
        hits.push(copy(alloc, command)?)?;
    }
    Ok(hits)
}

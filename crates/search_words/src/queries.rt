//! The query that the words ask for.

ghost use Rattle.std.specs.Prelude.{◌≡◌, IfOk, unwrap_or};
ghost use Rattle.clap.specs.Words.{first_value, found_of};
ghost use Rattle.search_words.specs.Words.{texts};
ghost use Rattle.search_words.specs.Queries.{query_found, query_of};

use crate::parsing::matches_in;
use crate::values::{filter_called, mode_called, number_in, short_text};
use clap::ArgMatches;
use plain_types::NoMemory;
use record_model::Query;
use std::alloc::Global;

/// The hits that may be asked for.
const MOST_LISTED: u32 = 1_000;

/// The search that the words behind `FOLDER search` ask for, or nothing where they are of another form.
///
/// The options are `--mode prefix` or `substring` (`prefix` where nothing is said), `--filter global`, `host:X`,
/// `session:X` or `directory:X` (`global`), `--unique`, `--offset N` from 0 to 4,294,967,295 (0), and `--limit N` from 1
/// to 1,000 (100), each at most once, with their value in the next word or behind `=`. N is 1 to 10 digits. One word
/// more may be the text, which is empty where there is none; behind `--` it may begin with a hyphen. X and the text have
/// at most 262,144 bytes.
///
/// # Errors
///
/// [`NoMemory`].
pub fn read_query(alloc: Global, words: &[String]) -> Result<Option<Query>, NoMemory>
    ensures { IfOk result (λ query. query ≡ query_of (texts words.now)) }
{
    match matches_in(alloc, words)? {
        Some(found) => query_found(alloc, &found),
        None => Ok(None),
    }
}

/// The search by what is found under each name.
fn query_found(alloc: Global, found: &ArgMatches<'_>) -> Result<Option<Query>, NoMemory>
    ensures { IfOk result (λ query. query ≡ query_found (λ name. first_value (found_of found.now) name)) }
{
    let Some(mode) = mode_called(said_or(found, "mode", "prefix")) else {
        return Ok(None);
    };
    let Some(filter) = filter_called(alloc, said_or(found, "filter", "global"))? else {
        return Ok(None);
    };
    let Some(offset) = number_in(0, u32::MAX, said_or(found, "offset", "0")) else {
        return Ok(None);
    };
    let Some(limit) = number_in(1, MOST_LISTED, said_or(found, "limit", "100")) else {
        return Ok(None);
    };
    let Some(text) = short_text(alloc, said_or(found, "text", ""))? else {
        return Ok(None);
    };
    Ok(Some(Query {
        mode,
        filter,
        text,
        unique: said_or(found, "unique", "false") == "true",
        offset,
        limit,
    }))
}

/// What is found under the name, or this where nothing is.
fn said_or<'a>(found: &ArgMatches<'a>, name: &str, otherwise: &'a str) -> &'a str
    ensures { result.now ≡ unwrap_or (first_value (found_of found.now) name.now) otherwise.entry.now }
{
    match found.get_str(name) {
        Some(said) => said,
        None => otherwise,
    }
}

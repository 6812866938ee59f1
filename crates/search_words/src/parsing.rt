//! Options and text, taken apart.

ghost use Rattle.std.specs.Prelude.{◌≡◌, ◌≢◌, [], IfOk, MatchOption, false};
ghost use Rattle.clap.specs.Words.{app_of, fault_of, found_of, matches_of, rows_of, rule_of};
ghost use Rattle.search_words.specs.Words.{read_words, texts};
ghost use Rattle.search_words.specs.Parsing.{bare_app, flag_rule, option_rule, search_app, text_rule, Finds};

use clap::error::ErrorKind;
use clap::{Arg, ArgAction, ArgMatches, Command};
use plain_types::NoMemory;
use std::alloc::{AllocError, Global};

/// An option that takes a value.
fn option<'a>(alloc: Global, name: &'a str) -> Arg<'a>
    ensures rule { rule_of result ≡ option_rule name.entry.now }
    ensures local { result.global ≡ false }
{
    Arg::new(alloc, name).long(name).action(ArgAction::Set)
}

/// An option that takes none.
fn flag<'a>(alloc: Global, name: &'a str) -> Arg<'a>
    ensures rule { rule_of result ≡ flag_rule name.entry.now }
    ensures local { result.global ≡ false }
{
    Arg::new(alloc, name).long(name).action(ArgAction::SetTrue)
}

/// The one word that is no option.
fn text<'a>(alloc: Global) -> Arg<'a>
    ensures rule { rule_of result ≡ text_rule }
    ensures local { result.global ≡ false }
{
    Arg::new(alloc, "text").action(ArgAction::Set)
}

/// The command without its options: no name of a program, no help and no version.
fn bare_command<'a>(alloc: Global) -> Command<'a>
    ensures { app_of result ≡ bare_app }
{
    Command::new(alloc, "search")
        .no_binary_name(true)
        .disable_help_flag(true)
        .disable_version_flag(true)
}

fn search_command<'a>(alloc: Global) -> Result<Command<'a>, AllocError>
    ensures { IfOk result (λ command. app_of command ≡ search_app) }
{
    bare_command(alloc)
        .arg(option(alloc, "mode"))?
        .arg(option(alloc, "filter"))?
        .arg(flag(alloc, "unique"))?
        .arg(option(alloc, "offset"))?
        .arg(option(alloc, "limit"))?
        .arg(text(alloc))
}

/// What the parser finds in the words, or nothing where it refuses them.
fn parsed<'a>(alloc: Global, words: &'a [String]) -> Result<Option<ArgMatches<'a>>, NoMemory>
    ensures { IfOk result (λ found. MatchOption found (fault_of search_app (texts words.entry.now) ≢ []) (λ m. (fault_of search_app (texts words.entry.now) ≡ []) × (rows_of (found_of m) ≡ matches_of search_app (texts words.entry.now)))) }
{
    let command = search_command(alloc)?;
    match command.try_get_matches_from(words) {
        Ok(matches) => Ok(Some(matches)),
        Err(error) => refusal(error.kind()),
    }
}

/// Nothing is found, unless memory was wanted.
fn refusal<'a>(kind: ErrorKind) -> Result<Option<ArgMatches<'a>>, NoMemory>
    ensures { IfOk result (λ found. (found ≡ None) × (kind ≢ ErrorKind.OutOfMemory)) }
{
    match kind {
        ErrorKind::OutOfMemory => Err(NoMemory),
        _ => Ok(None),
    }
}

/// What is said in the words, or nothing where they are of another form.
///
/// # Errors
///
/// [`NoMemory`].
pub fn matches_in<'a>(
    alloc: Global,
    words: &'a [String],
) -> Result<Option<ArgMatches<'a>>, NoMemory>
    ensures { IfOk result (λ found. Finds (read_words (texts words.entry.now) None []) found) }
{
    parsed(alloc, words)
}

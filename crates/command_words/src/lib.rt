//! Which command the words of the command line are.
//!
//! The model is the list of the words' bytes, and `specs/Commands` is the table of the commands: exactly the words that
//! it lists are a command, and it is that one. The first word names the folder, and isn't looked at here. Stands on
//! `search_words` for the words of a search.
#![tactic(auto)]

ghost use Rattle.std.specs.Prelude.{◌≡◌, IfOk};
ghost use Rattle.search_words.specs.Words.{texts};
ghost use Rattle.command_words.specs.Commands.{command_of, lone_command, named_command};

use plain_types::NoMemory;
use record_model::Query;
use search_words::read_query;
use std::alloc::Global;

/// A command of the program.
#[derive(Debug, Drop)]
pub enum Command {
    /// `FOLDER init`: a log is made.
    Init,
    /// `FOLDER pipe`: requests are answered.
    Pipe,
    /// `FOLDER status`: the chains are printed.
    Status,
    /// `FOLDER search OPTIONS TEXT`: hits are printed.
    Search(Query),
    /// `FOLDER migrate`: a log of the old form is copied into one of the new form.
    Migrate,
}

/// The command that the words behind the program's name are, or nothing where they are none.
///
/// # Errors
///
/// [`NoMemory`], of a search alone.
pub fn read_command(alloc: Global, words: &[String]) -> Result<Option<Command>, NoMemory>
    ensures { IfOk result (λ command. command ≡ command_of (texts words.now)) }
{
    match words {
        [_, name, rest @ ..] => named_command(alloc, name.as_str(), rest),
        _ => Ok(None),
    }
}

/// The command of this name, with these words behind it.
fn named_command(alloc: Global, name: &str, rest: &[String]) -> Result<Option<Command>, NoMemory>
    ensures { IfOk result (λ command. command ≡ named_command name.now (texts rest.now)) }
{
    if name == "search" {
        return Ok(read_query(alloc, rest)?.map(Command::Search));
    }
    if !rest.is_empty() {
        return Ok(None);
    }
    Ok(lone_command(name))
}

/// The command of this name, of those that have no words of their own.
fn lone_command(name: &str) -> Option<Command>
    ensures { result ≡ lone_command name.now }
{
    if name == "init" {
        return Some(Command::Init);
    }
    if name == "pipe" {
        return Some(Command::Pipe);
    }
    if name == "status" {
        return Some(Command::Status);
    }
    if name == "migrate" {
        return Some(Command::Migrate);
    }
    None
}

#[cfg(test)]
mod tests;

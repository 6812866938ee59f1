//! The top call: one command, over the outside that is handed in.

ghost use Rattle.std.specs.Prelude.{◌≡◌};
ghost use Rattle.search_words.specs.Words.{texts};
ghost use Rattle.command_words.specs.Commands.{command_of};
ghost use Rattle.statuses.specs.Numbers.{number_of};
ghost use Rattle.commands.specs.Migrating.{status_of_migrate};
ghost use Rattle.store_commands.specs.Ends.{status_of_fail};
ghost use Rattle.store_commands.specs.Piping.{status_of_pipe};
ghost use Rattle.atuin_main.specs.Outside.{outside};
ghost use Rattle.atuin_main.specs.Running.{status_by, CommandFits, RunsCommand, Runs};

use at_edge::{Clock, Disk, Entropy, Link, Sink, Source};
use command_words::{Command, read_command};
use commands::{MigrateFail, init, migrate};
use plain_types::NoMemory;
use statuses::Status;
use std::alloc::Global;
use std::thread::Threads;
use store_commands::{CommandFail, PipeFail, pipe, search, status};

/// How a command ended.
#[derive(Drop)]
pub struct Ended<D> {
    /// The number of a [`Status`].
    pub status: u8,
    /// The disk that was handed in.
    pub disk: D,
    /// The second disk that was handed in.
    pub second: D,
}

fn status_of_pipe(ended: Result<(), PipeFail>) -> Status
    ensures { result ≡ status_by status_of_pipe ended }
{
    match ended {
        Ok(()) => Status::Done,
        Err(fail) => fail.status(),
    }
}

fn status_of_told(ended: Result<(), CommandFail>) -> Status
    ensures { result ≡ status_by status_of_fail ended }
{
    match ended {
        Ok(()) => Status::Done,
        Err(fail) => fail.status(),
    }
}

fn status_of_migrate(ended: Result<(), MigrateFail>) -> Status
    ensures { result ≡ status_by status_of_migrate ended }
{
    match ended {
        Ok(()) => Status::Done,
        Err(fail) => fail.status(),
    }
}

/// Runs this command.
fn run<S: Source, K: Sink, D: Disk, E: Entropy, C: Clock>(
    alloc: Global,
    command: Command,
    key_text: &[u8],
    source: &mut S,
    sink: &mut K,
    disk: D,
    second: D,
    rand: &mut E,
    clock: &mut C,
) -> Ended<D>
    requires fits { CommandFits command }
    ensures { RunsCommand command result.status key_text.now (outside (S.source source.old) (K.sink sink.old) (D.disk disk) (D.disk second) (E.entropy rand.old) (C.clock clock.old)) (outside (S.source source.new) (K.sink sink.new) (D.disk result.disk) (D.disk result.second) (E.entropy rand.new) (C.clock clock.new)) }
{
    match command {
        Command::Init => {
            let made = init(disk, rand, clock);
            Ended {
                status: made.status.number(),
                disk: made.disk,
                second,
            }
        }
        Command::Pipe => {
            let piped = pipe(alloc, key_text, disk, source, sink, rand, clock);
            Ended {
                status: status_of_pipe(piped.result).number(),
                disk: piped.disk,
                second,
            }
        }
        Command::Status => {
            let told = status(alloc, disk, sink);
            Ended {
                status: status_of_told(told.result).number(),
                disk: told.disk,
                second,
            }
        }
        Command::Search(query) => {
            let told = search(alloc, key_text, query, disk, sink);
            Ended {
                status: status_of_told(told.result).number(),
                disk: told.disk,
                second,
            }
        }
        Command::Migrate => {
            let moved = migrate(alloc, disk, second, sink);
            Ended {
                status: status_of_migrate(moved.result).number(),
                disk: moved.disk,
                second: moved.second,
            }
        }
    }
}

/// Runs the command that the words name over the outside that is handed in, and says by a number how it ended. Each command
/// does what its own crate says of it, `commands` or `store_commands`, and leaves alone what it has no use for: the second disk
/// is that of `migrate` alone, and no command asks the link yet, nor reads the second key's text. Words that are no command,
/// and want of memory in reading them, change nothing. It waits for nothing but the source and the sink, and always returns.
pub fn run_once<
    R: Threads + Sync,
    S: Source + Drop,
    K: Sink + Drop,
    D: Disk + Drop,
    E: Entropy + Drop,
    C: Clock + Drop,
    L: Link + Drop,
>(
    rt: &R,
    alloc: Global,
    words: &[String],
    key_text: &[u8],
    second_key: &[u8],
    source: &mut S,
    sink: &mut K,
    disk: D,
    second: D,
    rand: &mut E,
    clock: &mut C,
    link: &mut L,
) -> Ended<D>
    ensures runs { Runs (command_of (texts words.now)) result.status key_text.now (outside (S.source source.old) (K.sink sink.old) (D.disk disk) (D.disk second) (E.entropy rand.old) (C.clock clock.old)) (outside (S.source source.new) (K.sink sink.new) (D.disk result.disk) (D.disk result.second) (E.entropy rand.new) (C.clock clock.new)) }
    ensures link { link.new ≡ link.old }
{
    let status = match read_command(alloc, words) {
        Ok(Some(command)) => {
            return run(
                alloc, command, key_text, source, sink, disk, second, rand, clock,
            );
        }
        Ok(None) => Status::FaultyWords,
        Err(NoMemory) => Status::NoMemory,
    };
    Ended {
        status: status.number(),
        disk,
        second,
    }
}

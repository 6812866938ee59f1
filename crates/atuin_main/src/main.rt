//! The program: a store of shell history in a folder, made, served, searched, told of, and moved over from the old form.
//!
//! `main` hands the real outside to [`run_once`] and ends with its status. `run_once` carries the promise: what becomes of the
//! disks, and what is read, written, drawn and told by the clock, is for each command what `commands` and `store_commands` say
//! of it, and each status has the cause that they name. It stands on `command_words` for the words, on `statuses` for the
//! numbers, and on `at_edge` for the outside. What `main` opens and prints, and what a real file, clock and random source do,
//! is trusted.
#![tactic(auto)]

ghost use Rattle.std.specs.Prelude.{◌≡◌, ◌≢◌};
ghost use Rattle.statuses.specs.declared.Status.TheVariants as statuses;

mod folder;
mod laws;
mod top;

pub use laws::{each_cause_is_told, each_number_is_of_a_status, each_number_tells_its_cause};
pub use top::{Ended, run_once};

#[cfg(test)]
mod session_tests;
#[cfg(test)]
mod tests;

use at_edge::{AbsentLink, FileDisk, ReadSource, SystemClock, SystemEntropy, WriteSink};
use folder::{KeyText, Paths, call_for_a_folder, call_for_a_key};
use plain_types::NoMemory;
use rand::rngs::SysRng;
use statuses::Status;
use std::io::ErrorKind;
use std::process::ExitCode;
use std::thread::Threads;
use std::{env, fs, io};

fn main(rt: HostRuntime) -> ExitCode {
    let status = match words_of(&rt) {
        Ok(words) => run(&rt, &rt, &words),
        Err(error) => status_without_words(error.kind()).number(),
    };
    if let Some(faulty) = Status::of_number(status).filter(|ended| *ended != Status::Done) {
        let _ = eprintln!(rt; "{}", faulty.message());
    }
    ExitCode::from(status)
}

/// The words behind the program's name.
fn words_of(rt: &HostRuntime) -> io::Result<Vec<String>> {
    env::args(rt)?
        .skip(1)
        .collect(rt.alloc())
        .map_err(io::Error::from)
}

/// The end where the words can't be had: there was no memory for them, or one of them isn't UTF-8.
fn status_without_words(kind: ErrorKind) -> Status
    ensures memory { kind ≡ ErrorKind.OutOfMemory → result ≡ Status.NoMemory }
    ensures faulty { kind ≢ ErrorKind.OutOfMemory → result ≡ Status.FaultyWords }
{
    match kind {
        ErrorKind::OutOfMemory => Status::NoMemory,
        _ => Status::FaultyWords,
    }
}

/// The status of the command that the words name, over the real outside. The runtime comes twice, since only a
/// parameter of its own can say that it has threads.
fn run(rt: &HostRuntime, threads: &(impl Threads + Sync), words: &[String]) -> u8 {
    let folder = words.first().map_or("", String::as_str);
    let Ok(paths) = Paths::within(rt.alloc(), folder) else {
        return Status::NoMemory.number();
    };
    if call_for_a_folder(words) {
        make_folder(rt, folder, &paths);
    }
    let key = if call_for_a_key(words) {
        KeyText::in_file(rt, &paths.key)
    } else {
        KeyText::empty()
    };
    let Ok(mut source) = ReadSource::new(rt.alloc(), rt.reader()) else {
        return Status::NoMemory.number();
    };
    let mut sink = WriteSink::new(io::writer(rt));
    let mut rand = SystemEntropy::new(SysRng::new(rt));
    let mut clock = SystemClock::new(rt);
    let mut link = AbsentLink::new();
    let ended = run_once(
        threads,
        rt.alloc(),
        words,
        key.as_slice(),
        b"",
        &mut source,
        &mut sink,
        FileDisk::new(rt, &paths.log),
        FileDisk::new(rt, &paths.second_log),
        &mut rand,
        &mut clock,
        &mut link,
    );
    ended.status
}

/// Makes the folder, where there is none, and says how a key is made, where there is none. A folder that can't be made is
/// found out by the disk.
fn make_folder(rt: &HostRuntime, folder: &str, paths: &Paths) {
    let _ = fs::create_dir_all(rt, folder);
    if fs::metadata(rt, paths.key.as_str()).is_err() {
        let _ = eprintln!(rt;
            "A key is still to be made: (umask 077; od -An -N32 -tx1 /dev/urandom | tr -d ' \\n' > {})",
            paths.key
        );
    }
}

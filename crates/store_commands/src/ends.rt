//! How a command over a store ends.

ghost use Rattle.std.specs.Prelude.{◌≡◌};
ghost use Rattle.store_commands.specs.Ends.{status_of_opening, status_of_fail, Prints};

use at_edge::{Sink, WriteFault, write_all};
use statuses::Status;
use store_core::OpenFail;

/// Why a command over a store wasn't done.
#[derive(Clone, Copy, Debug, PartialEq, Eq)]
pub enum CommandFail {
    /// The text of the key tells none. The disk was left alone.
    FaultyKeyText,
    /// No store was opened.
    Unopened(OpenFail),
    /// A write to the sink failed.
    SinkFault,
    /// Memory ran out when the store was open.
    NoMemory,
}

impl CommandFail {
    /// What the system is told of it.
    pub fn status(self) -> Status
        ensures { result ≡ status_of_fail self }
    {
        match self {
            CommandFail::FaultyKeyText => Status::FaultyKeyText,
            CommandFail::Unopened(fail) => status_of_opening(fail),
            CommandFail::SinkFault => Status::SinkFault,
            CommandFail::NoMemory => Status::NoMemory,
        }
    }
}

/// What the system is told where no store was opened.
pub(crate) fn status_of_opening(fail: OpenFail) -> Status
    ensures { result ≡ status_of_opening fail }
{
    match fail {
        OpenFail::NotALog => Status::WrongDisk,
        OpenFail::OldLog => Status::OldLog,
        OpenFail::Damaged { .. } => Status::DamagedLog,
        OpenFail::DiskFault => Status::DiskFault,
        OpenFail::NoMemory => Status::NoMemory,
    }
}

/// How a command ended that prints what a store tells.
#[derive(Drop)]
pub struct Told<D> {
    pub result: Result<(), CommandFail>,
    /// The disk that was handed in.
    pub disk: D,
}

/// Writes the text to the sink.
///
/// # Errors
///
/// [`CommandFail::SinkFault`], where the sink's count of faults rose. It has taken a first part of the text then.
pub(crate) fn print<K: Sink>(sink: &mut K, text: &[u8]) -> Result<(), CommandFail>
    ensures { Prints result (K.sink sink.old) (K.sink sink.new) text.now }
{
    match write_all(sink, text) {
        Ok(()) => Ok(()),
        Err(WriteFault) => Err(CommandFail::SinkFault),
    }
}

//! How the program ends: each end once, with the number that the system is told and what is said to a person.
//!
//! `specs/Numbers` has the numbers. No two ends have one number, so an end is found again by its own. Stands on std alone.
#![tactic(auto)]

ghost use Rattle.std.specs.Prelude.{◌≡◌, ◌≢◌, ◌↔◌, length, MatchOption};
ghost use Rattle.statuses.specs.Numbers.{number_of};

/// How the program ends.
#[derive(Clone, Copy, Debug, PartialEq, Eq)]
pub enum Status {
    /// It did what it was told.
    Done,
    /// The words of the command line are no command.
    FaultyWords,
    /// The key's text doesn't tell a key.
    FaultyKeyText,
    /// A read of standard input failed.
    SourceFault,
    /// A write to standard output failed.
    SinkFault,
    /// A call of a disk failed.
    DiskFault,
    /// A log begins as one does, and what stands behind its header isn't sound.
    DamagedLog,
    /// A disk doesn't have what the command needs there: a log, a log of the old form, or nothing at all.
    WrongDisk,
    /// There was no memory.
    NoMemory,
    /// No random bytes could be drawn.
    RandFault,
    /// The input ends inside a frame, or names one that is too long.
    FaultyFrame,
    /// A session had as many requests as it may have.
    SessionLimit,
    /// The log is one of the old form, which `migrate` alone reads.
    OldLog,
}

impl Status {
    /// The number that the system is told, 0 for [`Status::Done`] alone.
    pub fn number(self) -> u8
        ensures { result ≡ number_of self }
    {
        match self {
            Status::Done => 0,
            Status::FaultyWords => 2,
            Status::FaultyKeyText => 3,
            Status::SourceFault => 4,
            Status::SinkFault => 5,
            Status::DiskFault => 6,
            Status::DamagedLog => 8,
            Status::WrongDisk => 9,
            Status::NoMemory => 11,
            Status::RandFault => 12,
            Status::FaultyFrame => 13,
            Status::SessionLimit => 14,
            Status::OldLog => 19,
        }
    }

    /// The end that has this number, if one has it.
    pub fn of_number(number: u8) -> Option<Status>
        ensures { MatchOption result ((s : Status) → number_of s ≢ number) (λ s. number_of s ≡ number) }
    {
        Some(match number {
            0 => Status::Done,
            2 => Status::FaultyWords,
            3 => Status::FaultyKeyText,
            4 => Status::SourceFault,
            5 => Status::SinkFault,
            6 => Status::DiskFault,
            8 => Status::DamagedLog,
            9 => Status::WrongDisk,
            11 => Status::NoMemory,
            12 => Status::RandFault,
            13 => Status::FaultyFrame,
            14 => Status::SessionLimit,
            19 => Status::OldLog,
            _ => return None,
        })
    }

    /// What is said to a person, in one line without its LF: nothing where the program is done.
    pub fn message(self) -> &'static str
        ensures { (length result.now ≡ 0) ↔ (self ≡ Status.Done) }
    {
        match self {
            Status::Done => "",
            Status::FaultyWords => {
                "usage: FOLDER init | FOLDER pipe | FOLDER status | FOLDER search OPTIONS TEXT | FOLDER migrate"
            }
            Status::FaultyKeyText => "the file key isn't 64 hexadecimal digits in one line",
            Status::SourceFault => "reading standard input failed",
            Status::SinkFault => "writing standard output failed",
            Status::DiskFault => "reading or writing a log failed",
            Status::DamagedLog => "the log is damaged",
            Status::WrongDisk => {
                "there is no log where one is needed, or something where a log is to be made"
            }
            Status::NoMemory => "there is not enough memory",
            Status::RandFault => "no random bytes could be had",
            Status::FaultyFrame => {
                "standard input ends inside a frame, or names one of more than 1048576 bytes"
            }
            Status::SessionLimit => "a session has at most 1000000 requests",
            Status::OldLog => "the log is of the old form: FOLDER migrate makes a new one of it",
        }
    }
}

#[cfg(test)]
mod tests;

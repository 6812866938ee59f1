//! The outside of the program: bytes that come and go, random bytes, the clock, a disk and a link to a peer.
//!
//! Model: each trait shows one record of what is seen of the object (`SourceSeen`, `SinkSeen`, `EntropySeen`,
//! `ClockSeen`, `DiskSeen`, `LinkSeen`), and each method has one clause that relates the record before the call, the
//! answer, and the record after it. What an object doesn't tell is `None` there, and nothing is claimed of it.
//!
//! Promise: each form here, in memory or over the real thing, meets its trait. Bytes are given once and in order, a
//! write counts what it took, a failure comes only where the object's count of faults rose in that call, and no count
//! falls. What a real file, clock or random source does is trusted: the forms over them tell no content, but hand on what
//! std's reader and writer, and the generator, tell of themselves.
//!
//! A disk that tells has a history, in the words of `disk_rules`: each write and sync leads from one moment to the next,
//! and what a crash may leave is said of each moment. The disks in memory keep all their calls, and can be crashed.
//! A link that tells has its exchanges, one for each start, with what was sent and received in each; as a source and as a
//! sink it shows the one under way, and all the others beside it.
//!
//! It stands on std, on `plain_types` for want of memory, on `disk_rules` for what a disk is, and on `rand_core` for what
//! a generator is: std's own source of random bytes promises nothing, so that a draw which was never made could not be
//! told from one that was.
#![tactic(auto)]

mod absent;
mod ending;
mod exchanges;
mod faults;
mod file_disk;
mod fixed_clock;
mod medium;
mod memory_disk;
mod memory_entropy;
mod memory_link;
mod memory_sink;
mod memory_source;
mod over_std;
mod supply;
mod traits;
mod whole;

pub use absent::{AbsentDisk, AbsentLink};
pub use ending::{Served, SessionFail};
pub use file_disk::FileDisk;
pub use fixed_clock::FixedClock;
pub use memory_disk::{MemDisk, SureDisk};
pub use memory_entropy::{ListEntropy, SureEntropy};
pub use memory_link::{MemLink, SureLink};
pub use memory_sink::{MemSink, SureSink};
pub use memory_source::{MemSource, SureSource};
pub use over_std::{ReadSource, SystemClock, SystemEntropy, WriteSink};
pub use traits::{
    Clock, Disk, DiskFault, Entropy, Got, Link, LinkFault, RandFault, Sink, Source, Took,
};
pub use whole::{Filled, WriteFault, fill, write_all};

#[cfg(test)]
mod disk_tests;
#[cfg(test)]
mod link_tests;
#[cfg(test)]
mod tests;

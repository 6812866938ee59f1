//! The outside of a program that serves: connections, listeners, workers, and what grants, holds and paces them.
//!
//! Model: a connection is a source and a sink. A listener shows one record, `ListenerSeen`, of the connections that are
//! still to come, the one that is out, those that were handed back, and its count of faults; what it doesn't tell is `None`
//! there, and nothing is claimed of it. A worker means how it has to be for its work to begin, and a relation of
//! its kind between how it was and how its work leaves it. A spawner has a count of refusals, and a pacer one of rounds.
//!
//! Promise: each form here, in memory or over the real thing, meets its trait. A connection is accepted once and in order,
//! handed back once, and never while another is out; a spawner that answers Ok says of each worker, in its place, that its
//! work was done; a failure comes only where a count rose in that call. What a real socket gives or takes, and that a
//! thread runs, is trusted or left open: no clause says it.
//!
//! It stands on `at_edge`, which has sources, sinks and the counts of faults.
#![tactic(auto)]

mod duplex;
mod failing;
mod gate;
mod kept;
mod listener;
mod memory_listener;
mod pacer;
mod patient;
mod seat;
mod sleep_pacer;
mod socket_file;
mod socket_listener;
mod spawner;
mod spawner_forms;
mod workers;

pub use duplex::Duplex;
pub use gate::{Gate, OpenGate};
pub use kept::Finished;
pub use listener::{Accepted, Listener};
pub use memory_listener::{MemListener, SureListener};
pub use pacer::{CountPacer, Pacer};
pub use patient::Patient;
pub use seat::{Seat, SeatEnd};
pub use sleep_pacer::SleepPacer;
pub use socket_file::{SocketFail, SocketHold, listen_at};
pub use socket_listener::SocketListener;
pub use spawner::{SpawnFault, Spawner, run_all};
pub use spawner_forms::{LineSpawner, ScopeSpawner, SureSpawner};
pub use workers::Worker;

#[cfg(test)]
mod tests;

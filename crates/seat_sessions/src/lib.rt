//! Sessions of a store that many share, each over a connection, and the workers that serve connections.
//!
//! Model: a session asks the store by a pass, so contracts see the pass before and after it, and the connection as a source
//! and a sink. A worker shows its pass, its listener and its supplies in one record, `SeatSeen`.
//!
//! Promise: a session over a shared store is one over its pass: each reply is that of one legal history at the point that
//! it names, whatever other passes do, and there is one turn of the pass for each reply. A worker serves one connection
//! after the other until none comes any more, or an accept fails, and hands each back; the sessions of all of them, one
//! behind the other, are one session of its pass, each with its calls numbered from 1.
//!
//! Stands on `shared_store` for the store, on `session_seats` for sessions in frames, and on `serving_edge` for connections.
#![tactic(auto)]

mod caller;
mod opening;
mod seat_worker;
mod session;

pub use seat_worker::SeatWorker;
pub use session::serve_session;

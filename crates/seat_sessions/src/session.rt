//! Sessions of a pass.

ghost use Rattle.std.specs.Prelude.{◌≡◌, ◌≢◌, true};
ghost use Rattle.session_rules.specs.Passes.{PassMoves};
ghost use Rattle.book_lock.specs.LockPasses.{IsIdleAt};
ghost use Rattle.call_supplies.specs.Supplies.{supplies};
ghost use Rattle.shared_store.specs.Books.{has_key};
ghost use Rattle.serving_edge.specs.Connections.{conn_seen};
ghost use Rattle.seat_sessions.specs.Serving.{SessionServes};

use crate::caller::SessionCaller;
use crate::opening::Opening;
use at_edge::{Clock, Disk, Entropy, Served, SessionFail, Sink, Source};
use serving_edge::{Duplex, Gate};
use session_seats::serve_frames;
use shared_store::{Pass, SharedStore};
use std::alloc::Global;
use std::marker::Brand;
use std::sync::Wait;

/// Serves the requests that come by the connection until its source ends, over a store that others share: reads a frame,
/// has the store answer what its payload asks in one turn of the pass, writes the reply in a frame, and only then reads on.
/// The calls are numbered from 1. The pass is of this store, has no turn out and has a number, and the store has a key. The
/// pass comes back. May wait.
///
/// The gate is told of each request before its turn is taken, and of each reply after it was written: when the next request
/// was read, or at the session's end.
///
/// # Errors
///
/// As [`serve_frames`]; whatever the end, the pass has had one turn for each request that was read.
pub fn serve_session<R: Wait, D: Disk, S: Source, K: Sink, E: Entropy, C: Clock, G: Gate>(
    rt: &R,
    alloc: Global,
    store: &SharedStore<D>,
    pass: Pass<D>,
    conn: &mut Duplex<S, K>,
    rand: &mut E,
    clock: &mut C,
    gate: &G,
) -> (Result<Served, SessionFail>, Pass<D>)
    requires idle { IsIdleAt store.now pass }
    requires named { pass.pass.number ≢ 0 }
    requires key { has_key pass.pass.fixed ≡ true }
    ensures idle { IsIdleAt store.now result.1 }
    ensures serves { SessionServes result.0 pass.pass result.1.pass (supplies (E.entropy rand.old) (C.clock clock.old)) (supplies (E.entropy rand.new) (C.clock clock.new)) (conn_seen S.source K.sink conn.old) (conn_seen S.source K.sink conn.new) }
{
    serve_opened::<Brand, R, D, S, K, E, C, G>(rt, alloc, store, pass, conn, rand, clock, gate)
}

/// Serves from this opening on.
fn serve_opened<J: Opening, R: Wait, D: Disk, S: Source, K: Sink, E: Entropy, C: Clock, G: Gate>(
    rt: &R,
    alloc: Global,
    store: &SharedStore<D>,
    pass: Pass<D>,
    conn: &mut Duplex<S, K>,
    rand: &mut E,
    clock: &mut C,
    gate: &G,
) -> (Result<Served, SessionFail>, Pass<D>)
    requires at { store.now ≡ J.lock }
    requires idle { IsIdleAt J.lock pass }
    requires opening { pass.pass ≡ J.pass }
    requires named { J.pass.number ≢ 0 }
    requires key { has_key J.pass.fixed ≡ true }
    ensures idle { IsIdleAt J.lock result.1 }
    ensures serves { SessionServes result.0 J.pass result.1.pass (supplies (E.entropy rand.old) (C.clock clock.old)) (supplies (E.entropy rand.new) (C.clock clock.new)) (conn_seen S.source K.sink conn.old) (conn_seen S.source K.sink conn.new) }
{
    let mut caller = SessionCaller::<'_, J, R, D, G>::new(rt, alloc, store, pass, gate);
    let outcome = serve_frames(
        alloc,
        &mut caller,
        &mut conn.source,
        &mut conn.sink,
        rand,
        clock,
    );
    let is_written = !matches!(outcome, Err(SessionFail::SinkFault));
    (outcome, caller.end(is_written))
}

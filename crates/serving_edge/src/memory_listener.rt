// Listeners in memory.
ghost use Rattle.std.specs.Prelude.{◌≡◌, None, IsSome, Contains};
ghost use Rattle.at_edge.specs.Planned.{unmade, Made};
ghost use Rattle.serving_edge.specs.Connections.{conn_seen};
ghost use Rattle.serving_edge.specs.Listening.{Accepts, TakesBack};
ghost use Rattle.serving_edge.specs.KeptViews.{unserved, listener_of};

use crate::failing::{FailingCalls, count_fault};
use crate::kept::{Finished, KeptConnections};
use crate::{Accepted, Duplex, Listener};
use at_edge::{Sink, Source};
use std::alloc::Global;

/// A listener whose connections are known beforehand, and some of whose accepts fail.
#[derive(Drop)]
pub struct MemListener<S, K> {
    kept: KeptConnections<S, K>,
    failing: FailingCalls,
}

impl<S: Source, K: Sink> MemListener<S, K> {
    ghost use Rattle.serving_edge.specs.ListenerViews.{listener_seen, listener_plan};

    /// A listener of these connections, in order. `failing` lists the numbers of the accepts that are to fail, counted
    /// from 1.
    pub fn new(alloc: Global, connections: Vec<Duplex<S, K>>, failing: Vec<u64>) -> Self
        ensures seen { listener_seen S.source K.sink result ≡ listener_of S.source K.sink (unserved connections.items) 0 }
        ensures plan { listener_plan result ≡ unmade failing.items }
    {
        MemListener {
            kept: KeptConnections::new(alloc, connections),
            failing: FailingCalls::new(failing),
        }
    }

    /// The connections that were handed back, in order.
    pub fn done(&self) -> &[Finished<S, K>] {
        self.kept.done()
    }
}

impl<S: Source, K: Sink> Listener for MemListener<S, K> {
    ghost use Rattle.serving_edge.specs.ListenerViews.{listener_seen, listener_plan};

    type In = S;

    type Out = K;

    ghost listener = { listener_seen S.source K.sink };

    /// Fails where the number of this accept is listed, or where there is no memory for the connection to come back.
    fn accept(&mut self) -> Accepted<Duplex<S, K>>
        requires { (listener_seen S.source K.sink self.old).out ≡ None }
        ensures accepts { Accepts S.source K.sink (listener_seen S.source K.sink self.old) (listener_seen S.source K.sink self.new) result }
        ensures made { Made (listener_plan self.old) (listener_plan self.new) }
        ensures planned { Contains (listener_plan self.old).numbers (listener_plan self.new).made → result ≡ Accepted.Failed }
    {
        if self.failing.next_fails() {
            return Accepted::Failed;
        }
        match self.kept.accept() {
            Ok(Some(conn)) => Accepted::Conn(conn),
            Ok(None) => Accepted::Closed,
            Err(_) => {
                self.failing.fail();
                Accepted::Failed
            }
        }
    }

    fn finish(&mut self, conn: Duplex<S, K>)
        requires { IsSome (listener_seen S.source K.sink self.old).out }
        ensures { TakesBack (listener_seen S.source K.sink self.old) (listener_seen S.source K.sink self.new) (conn_seen S.source K.sink conn) }
    {
        self.kept.finish(conn);
    }
}

/// A listener whose connections are known beforehand, and which fails only where it finds no memory for a connection to
/// come back.
#[derive(Drop)]
pub struct SureListener<S, K> {
    kept: KeptConnections<S, K>,
    faults: u64,
}

impl<S: Source, K: Sink> SureListener<S, K> {
    ghost use Rattle.serving_edge.specs.ListenerViews.{sure_listener_seen};

    /// A listener of these connections, in order.
    pub fn new(alloc: Global, connections: Vec<Duplex<S, K>>) -> Self
        ensures { sure_listener_seen S.source K.sink result ≡ listener_of S.source K.sink (unserved connections.items) 0 }
    {
        SureListener {
            kept: KeptConnections::new(alloc, connections),
            faults: 0,
        }
    }

    /// The connections that were handed back, in order.
    pub fn done(&self) -> &[Finished<S, K>] {
        self.kept.done()
    }
}

impl<S: Source, K: Sink> Listener for SureListener<S, K> {
    ghost use Rattle.serving_edge.specs.ListenerViews.{sure_listener_seen};

    type In = S;

    type Out = K;

    ghost listener = { sure_listener_seen S.source K.sink };

    fn accept(&mut self) -> Accepted<Duplex<S, K>> {
        match self.kept.accept() {
            Ok(Some(conn)) => Accepted::Conn(conn),
            Ok(None) => Accepted::Closed,
            Err(_) => {
                count_fault(&mut self.faults);
                Accepted::Failed
            }
        }
    }

    fn finish(&mut self, conn: Duplex<S, K>)
        requires { IsSome (sure_listener_seen S.source K.sink self.old).out }
        ensures { TakesBack (sure_listener_seen S.source K.sink self.old) (sure_listener_seen S.source K.sink self.new) (conn_seen S.source K.sink conn) }
    {
        self.kept.finish(conn);
    }
}

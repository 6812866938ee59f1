// Where connections come from.

use crate::Duplex;
use at_edge::{Sink, Source};

/// What an accept did.
#[derive(Drop)]
pub enum Accepted<C> {
    /// This connection was accepted, and is out until it is handed back.
    Conn(C),
    /// No connection comes any more.
    Closed,
    /// The accept failed, and took no connection.
    Failed,
}

/// Gives connections, each once and in order, and takes each back before the next one.
pub trait Listener {
    ghost use Rattle.std.specs.Prelude.{◌≡◌, None, IsSome};
    ghost use Rattle.serving_edge.specs.Connections.{conn_seen};
    ghost use Rattle.serving_edge.specs.Listening.{ListenerSeen, Accepts, TakesBack};

    /// From which a peer's bytes come.
    type In: Source;

    /// To which bytes for a peer go.
    type Out: Sink;

    /// The connections to come, the one that is out, those that were handed back, and the count of faults.
    ghost listener: { Self → ListenerSeen };

    /// The next connection, which is then out. None is out before. `Closed` comes only where none is to come any more,
    /// `Failed` only where the count of faults rose in this call; neither takes a connection.
    fn accept(&mut self) -> Accepted<Duplex<Self::In, Self::Out>>
        requires { (listener self.old).out ≡ None }
        ensures { Accepts Self.In.source Self.Out.sink (listener self.old) (listener self.new) result };

    /// Takes the connection back that is out. It takes no memory and can't fail.
    fn finish(&mut self, conn: Duplex<Self::In, Self::Out>)
        requires { IsSome (listener self.old).out }
        ensures { TakesBack (listener self.old) (listener self.new) (conn_seen Self.In.source Self.Out.sink conn) };
}

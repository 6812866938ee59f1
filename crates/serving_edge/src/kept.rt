// What a listener in memory keeps: the connections that are still to come, the one that is out, and those that were handed
// back.
ghost use Rattle.std.specs.Prelude.{◌≡◌, ◌<◌, None, IsSome, IfOk, OnErr, vec_len, vec_capacity};

use crate::Duplex;
use plain_types::NoMemory;
use std::alloc::Global;
use std::snapshot::Snapshot;

/// A connection that was handed back to a listener in memory.
#[derive(Drop)]
pub struct Finished<S, K> {
    // as it was accepted
    pub(crate) accepted: Snapshot<Duplex<S, K>>,
    /// As it was handed back.
    pub back: Duplex<S, K>,
}

/// The connections of a listener. For the one that is out there is room among those that were handed back.
#[derive(Drop)]
pub(crate) struct KeptConnections<S, K> {
    coming: Vec<Duplex<S, K>>,
    out: Option<Snapshot<Duplex<S, K>>>,
    done: Vec<Finished<S, K>>,
    ghost room: { IsSome out → vec_len done < vec_capacity done },
}

impl<S, K> KeptConnections<S, K> {
    ghost use Rattle.serving_edge.specs.KeptViews.{kept_of, unserved, Gives, PutsBack};

    pub(crate) fn new(alloc: Global, connections: Vec<Duplex<S, K>>) -> Self
        ensures { kept_of result ≡ unserved connections.items }
    {
        KeptConnections {
            coming: connections,
            out: None,
            done: Vec::new(alloc),
        }
    }

    /// Those that were handed back, in order.
    pub(crate) fn done(&self) -> &[Finished<S, K>] {
        &self.done
    }

    /// The first of those to come, which is then out, or `None` where none is to come. Where there is no room for it to
    /// come back, nothing is done.
    pub(crate) fn accept(&mut self) -> Result<Option<Duplex<S, K>>, NoMemory>
        requires { (kept_of self.old).out ≡ None }
        ensures first { IfOk result (λ found. Gives (kept_of self.old) (kept_of self.new) found) }
        ensures undone { OnErr result (kept_of self.new ≡ kept_of self.old) }
    {
        if self.coming.is_empty() {
            return Ok(None);
        }
        let Ok(()) = self.done.reserve(1) else {
            return Err(NoMemory);
        };
        let conn = self.coming.remove(0);
        self.out = Some(Snapshot::of(&conn));
        Ok(Some(conn))
    }

    /// Takes the connection back that is out.
    pub(crate) fn finish(&mut self, conn: Duplex<S, K>)
        requires { IsSome (kept_of self.old).out }
        ensures { PutsBack (kept_of self.old) (kept_of self.new) conn }
    {
        match self.out.take() {
            Some(accepted) => self.done.push_reserved(Finished {
                accepted,
                back: conn,
            }),
            None => unreachable!(),
        }
    }
}

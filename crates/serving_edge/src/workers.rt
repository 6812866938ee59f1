// Work that is done beside other work.

use std::sync::Wait;
use std::thread::Threads;

/// Something that is done in a thread of its own.
pub trait Worker {
    /// How the worker has to be for its work to begin.
    ghost ready: { Self → Type 0 };

    /// How the worker may be, after its work, from how it was.
    ghost worked: { Self → Self → Type 0 };

    /// Does the work. It may wait, and needn't return.
    fn work<R: Threads + Wait + Sync>(&mut self, rt: &R)
        requires { ready self.old }
        ensures { worked self.old self.new };
}

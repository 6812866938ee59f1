// A disk and a link that aren't there, for callers that are given none.
ghost use Rattle.std.specs.Prelude.{◌≡◌, ◌≤◌, IsErr};
ghost use Rattle.definitions.specs.Counts.{Rose};
ghost use Rattle.at_edge.specs.Taking.{Reads};
ghost use Rattle.at_edge.specs.Writing.{Writes};
ghost use Rattle.at_edge.specs.Linking.{StartsExchange};
ghost use Rattle.at_edge.specs.MemoryForms.{no_source, no_sink, no_link};

use crate::faults::count_fault;
use crate::{Disk, DiskFault, Got, Link, LinkFault, Sink, Source, Took};
use std::marker::Model;

/// A disk that isn't there: each call of it fails and counts a fault. Contracts see it as its count.
#[derive(Drop)]
pub struct AbsentDisk {
    faults: u64,
}

impl Model for AbsentDisk {
    ghost use Rattle.std.specs.Prelude.{ℕ};

    ghost Value = { ℕ };

    ghost view = { λ d. d.faults };
}

impl AbsentDisk {
    /// A disk that hasn't failed yet.
    pub fn new() -> Self
        ensures { result ≡ 0 }
    {
        AbsentDisk { faults: 0 }
    }
}

impl Disk for AbsentDisk {
    ghost use Rattle.std.specs.Prelude.{length};
    ghost use Rattle.disk_rules.specs.Calls.{Write, Sync};
    ghost use Rattle.at_edge.specs.Storing.{Measures, ReadsAt, Changes, MayRead, MayChange};
    ghost use Rattle.at_edge.specs.Silent.{silent};

    ghost disk = { silent };

    ghost whole = { λ d. tt };

    fn len(&mut self) -> Result<u64, DiskFault>
        ensures fails { IsErr result }
        ensures counted { Measures (silent self.old) (silent self.new) result }
    {
        count_fault(&mut self.faults);
        Err(DiskFault)
    }

    fn read_at(&mut self, at: u64, into: &mut [u8]) -> Result<(), DiskFault>
        ensures fails { IsErr result }
        ensures counted { ReadsAt (silent self.old) (silent self.new) result at into.new }
    {
        let _ = at;
        let _ = into;
        count_fault(&mut self.faults);
        Err(DiskFault)
    }

    fn write_at(&mut self, at: u64, from: &[u8]) -> Result<(), DiskFault>
        ensures fails { IsErr result }
        ensures counted { Changes (silent self.old) (silent self.new) result (Write at from.now) }
    {
        let _ = at;
        let _ = from;
        count_fault(&mut self.faults);
        Err(DiskFault)
    }

    fn sync(&mut self) -> Result<(), DiskFault>
        ensures fails { IsErr result }
        ensures counted { Changes (silent self.old) (silent self.new) result Sync }
    {
        count_fault(&mut self.faults);
        Err(DiskFault)
    }

    fn disown(&mut self) -> DiskFault {
        count_fault(&mut self.faults);
        DiskFault
    }
}

/// A link that isn't there: each call of it fails and counts a fault. Contracts see it as its count.
#[derive(Drop)]
pub struct AbsentLink {
    faults: u64,
}

impl Model for AbsentLink {
    ghost use Rattle.std.specs.Prelude.{ℕ};

    ghost Value = { ℕ };

    ghost view = { λ l. l.faults };
}

impl AbsentLink {
    /// A link that hasn't failed yet.
    pub fn new() -> Self
        ensures { result ≡ 0 }
    {
        AbsentLink { faults: 0 }
    }
}

impl Source for AbsentLink {
    ghost source = { no_source };

    fn read(&mut self, into: &mut [u8]) -> Got
        ensures fails { result ≡ Got.Failed }
        ensures counted { Reads (no_source self.old) (no_source self.new) result into.new }
    {
        let _ = into;
        count_fault(&mut self.faults);
        Got::Failed
    }
}

impl Sink for AbsentLink {
    ghost sink = { no_sink };

    fn write(&mut self, from: &[u8]) -> Took
        ensures fails { result ≡ Took.Failed }
        ensures counted { Writes (no_sink self.old) (no_sink self.new) result from.now }
    {
        let _ = from;
        count_fault(&mut self.faults);
        Took::Failed
    }
}

impl Link for AbsentLink {
    ghost use Rattle.std.proofs.Common.{refl};

    ghost link = { no_link };

    ghost sides = { λ _. record { source_is = refl; sink_is = refl } };

    fn start(&mut self) -> Result<(), LinkFault>
        ensures fails { IsErr result }
        ensures counted { StartsExchange (no_link self.old) (no_link self.new) result }
    {
        count_fault(&mut self.faults);
        Err(LinkFault)
    }
}

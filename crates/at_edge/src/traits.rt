// The traits of the outside. Each has a count of faults that never falls, and stops at 2^64 - 1. A call answers its
// failure only where the count rose in that call; a count that stands at its last value is taken as risen.

/// What one read of a source did.
#[derive(Clone, Copy, Debug, PartialEq, Eq)]
pub enum Got {
    /// The slice now begins with this many bytes, at least one.
    Bytes(usize),
    /// Nothing comes any more.
    End,
    /// The read failed and took nothing.
    Failed,
}

/// Bytes that come in, in order, each once.
pub trait Source {
    ghost use Rattle.std.specs.Prelude.{◌<◌, length};
    ghost use Rattle.at_edge.specs.Taking.{SourceSeen, Reads};

    /// What is left, what was given, what stands beside, and the count of faults.
    ghost source: { Self → SourceSeen };

    /// Reads at least one byte and at most the slice's length, which isn't 0. At `Bytes(n)` the first n bytes of the
    /// slice are the next ones of the source. `End` comes only where nothing is left, `Failed` only where the count
    /// of faults rose in this call; neither takes anything. Only the slice's first n bytes are promised.
    fn read(&mut self, into: &mut [u8]) -> Got
        requires { 0 < length into.old }
        ensures { Reads (source self.old) (source self.new) result into.new };
}

/// What one write to a sink did.
#[derive(Clone, Copy, Debug, PartialEq, Eq)]
pub enum Took {
    /// This many bytes from the slice's front were taken, at least one.
    Bytes(usize),
    /// The write failed and took nothing.
    Failed,
}

/// Bytes that go out, in order, each once.
pub trait Sink {
    ghost use Rattle.std.specs.Prelude.{◌<◌, length};
    ghost use Rattle.at_edge.specs.Writing.{SinkSeen, Writes};

    /// What was taken, what stands beside, and the count of faults.
    ghost sink: { Self → SinkSeen };

    /// Takes at least one byte and at most the slice's length, which isn't 0, from the slice's front. A sink that
    /// takes nothing counts a fault and answers `Failed`, which comes only where the count rose in this call.
    fn write(&mut self, from: &[u8]) -> Took
        requires { 0 < length from.now }
        ensures { Writes (sink self.old) (sink self.new) result from.now };
}

/// A draw of random bytes failed.
#[derive(Clone, Copy, Debug, PartialEq, Eq)]
pub struct RandFault;

/// Random bytes.
pub trait Entropy {
    ghost use Rattle.at_edge.specs.Drawing.{EntropySeen, Draws};

    /// The bytes to come, and the count of faults.
    ghost entropy: { Self → EntropySeen };

    /// Fills the whole slice with the next bytes. A draw that fails takes none of them and leaves any bytes in the
    /// slice; it comes only where the count of faults rose in this call.
    fn draw(&mut self, into: &mut [u8]) -> Result<(), RandFault>
        ensures { Draws (entropy self.old) (entropy self.new) result into.new };
}

/// A clock of nanoseconds since 1970 began, in UTC. One that goes back isn't corrected.
pub trait Clock {
    ghost use Rattle.std.specs.Prelude.{[], ◌∷◌};
    ghost use Rattle.at_edge.specs.Telling.{ClockSeen, Told};

    /// The readings to come, and the count of faults.
    ghost clock: { Self → ClockSeen };

    /// The next reading, in nanoseconds. It never fails.
    fn now(&mut self) -> u64
        ensures { Told (clock self.old) (clock self.new) (result ∷ []) };
}

/// A call of a disk failed.
#[derive(Clone, Copy, Debug, PartialEq, Eq)]
pub struct DiskFault;

/// A disk of one file. One that tells has a history: the disk as it is now, and at each moment before. A write or sync
/// that succeeds adds one moment, one that fails adds one or none, and no other call adds any. By its moments it is known
/// what a crash now may leave, and what a crash since an earlier moment may have left.
pub trait Disk {
    ghost use Rattle.std.specs.Prelude.{◌≡◌, IfOk, None, length};
    ghost use Rattle.disk_rules.specs.Disk.{IsDisk};
    ghost use Rattle.disk_rules.specs.Calls.{Write, Sync};
    ghost use Rattle.definitions.specs.Counts.{Rose};
    ghost use Rattle.at_edge.specs.Storing.{DiskSeen, Tells, Measures, MayRead, ReadsAt, MayChange, Changes, Rests, IsMeasurable};

    /// The history, and the count of faults.
    ghost disk: { Self → DiskSeen };

    /// The length in bytes of what the disk shows.
    fn len(&mut self) -> Result<u64, DiskFault>
        ensures { Measures (disk self.old) (disk self.new) result };

    /// Fills the slice with the bytes from byte `at` on. Where the disk tells, they have to be there; where it
    /// doesn't, a range that isn't there is a fault.
    fn read_at(&mut self, at: u64, into: &mut [u8]) -> Result<(), DiskFault>
        requires { MayRead (disk self.old) at (length into.old) }
        ensures { ReadsAt (disk self.old) (disk self.new) result at into.new };

    /// Writes these bytes from byte `at` on, over what is there and past the end. Where the disk tells, `at` is at
    /// most its length.
    fn write_at(&mut self, at: u64, from: &[u8]) -> Result<(), DiskFault>
        requires { MayChange (disk self.old) (Write at from.now) }
        ensures writes { Changes (disk self.old) (disk self.new) result (Write at from.now) }
        ensures measured { IfOk result (λ _. Tells (disk self.new) IsMeasurable) };

    /// Makes what was written outlast a crash. After a sync that fails a crash may leave what it might have left before.
    fn sync(&mut self) -> Result<(), DiskFault>
        ensures { Changes (disk self.old) (disk self.new) result Sync };

    /// Counts a fault, for a caller that read what no disk that tells can have shown. So this has to be one that doesn't
    /// tell.
    fn disown(&mut self) -> DiskFault
        requires { (disk self.old).history ≡ None }
        ensures rests { Rests (disk self.old) (disk self.new) }
        ensures counted { Rose (disk self.old).faults (disk self.new).faults };

    /// What a disk shows is what it synced, but for what was written since.
    ghost whole: { (d : Self) → Tells (disk d) IsDisk };
}

/// The start of an exchange failed.
#[derive(Clone, Copy, Debug, PartialEq, Eq)]
pub struct LinkFault;

/// A link to a peer, over which exchanges of bytes out and bytes in go one after the other. One that tells has all the
/// exchanges that it began, with what was sent and what was received in each; it is a source of what is received in the
/// one under way, and a sink of what is sent in it. Its reads, writes and starts have one count of faults.
pub trait Link: Source + Sink {
    ghost use Rattle.at_edge.specs.Linking.{LinkSeen, HasSides, StartsExchange};

    /// The exchanges, what is left to be received in the one under way, and the count of faults.
    ghost link: { Self → LinkSeen };

    /// Begins a new exchange, in which nothing was sent or received yet: the next reads and writes belong to it. A start
    /// that fails leaves all but the count.
    fn start(&mut self) -> Result<(), LinkFault>
        ensures { StartsExchange (link self.old) (link self.new) result };

    /// The two directions are those of the exchange under way. So a read leaves what was sent, a write leaves what was
    /// received, and both leave the earlier exchanges.
    ghost sides: { (l : Self) → HasSides (link l) (Self.source l) (Self.sink l) };
}

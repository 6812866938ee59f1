//! A new log.

ghost use Rattle.std.specs.Prelude.{◌≡◌, MatchResult};
ghost use Rattle.commands.specs.Initializing.{DrawsHost, DrawsNone, status_of_making, Inits};

use at_edge::{Clock, Disk, Entropy, RandFault};
use record_log::{CreateFail, RecordLog};
use record_model::new_id;
use statuses::Status;

/// How `init` ended.
#[derive(Drop)]
pub struct Initialized<D> {
    pub status: Status,
    /// The disk that was handed in.
    pub disk: D,
}

/// The id of a new host: the clock is read once, and then ten bytes are drawn.
fn draw_host<E: Entropy, C: Clock>(rand: &mut E, clock: &mut C) -> Result<u128, RandFault>
    ensures { MatchResult result (DrawsHost (E.entropy rand.old) (E.entropy rand.new) (C.clock clock.old) (C.clock clock.new)) (λ _. DrawsNone (E.entropy rand.old) (E.entropy rand.new) (C.clock clock.old) (C.clock clock.new)) }
{
    let now = clock.now();
    let mut random = [0; 10];
    match rand.draw(&mut random) {
        Ok(()) => Ok(new_id(now, &random)),
        Err(fault) => Err(fault),
    }
}

fn status_of_making(fail: CreateFail) -> Status
    ensures { result ≡ status_of_making fail }
{
    match fail {
        CreateFail::NotEmpty { .. } => Status::WrongDisk,
        CreateFail::DiskFault => Status::DiskFault,
        CreateFail::NoMemory => Status::NoMemory,
    }
}

/// Makes the log of a new host on an empty disk. The host's id, of the clock's reading and of ten random bytes, is drawn
/// before anything is asked of the disk. It takes no memory.
///
/// It ends by [`Status::Done`], and then the disk holds the log of the empty journal; by [`Status::RandFault`] where the draw
/// failed, and then the disk is as it was; by [`Status::WrongDisk`] exactly where the disk isn't empty, which is then left
/// alone; or by [`Status::DiskFault`], where the disk's count of faults rose. The disk may have a part of the log then.
pub fn init<D: Disk, E: Entropy, C: Clock>(disk: D, rand: &mut E, clock: &mut C) -> Initialized<D>
    ensures { Inits result.status (D.disk disk) (D.disk result.disk) (E.entropy rand.old) (E.entropy rand.new) (C.clock clock.old) (C.clock clock.new) }
{
    let host = match draw_host(rand, clock) {
        Ok(host) => host,
        Err(RandFault) => {
            return Initialized {
                status: Status::RandFault,
                disk,
            };
        }
    };
    match RecordLog::create(disk, host) {
        Ok(log) => Initialized {
            status: Status::Done,
            disk: log.into_disk(),
        },
        Err((fail, disk)) => Initialized {
            status: status_of_making(fail),
            disk,
        },
    }
}

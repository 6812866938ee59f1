ghost use Rattle.std.specs.Prelude.{◌≡◌, ◌≢◌, [], List, None, IfOk};
ghost use Rattle.model_words.specs.Seen.{call_seen};
ghost use Rattle.record_rules.specs.Records.{Entry};
ghost use Rattle.step_rules.specs.Calls.{CallFits};
ghost use Rattle.store_core.specs.Store.{IsStoreOf};

use super::*;
use at_edge::{FixedClock, ListEntropy, MemDisk};
use plain_types::Text;
use record_model::{Answer, Call, Caller, Refusal, Reply};
use std::alloc::Global;
use std::process::Abort;
use std::test::Fail;

const CALLER: Caller = Caller {
    number: 1,
    call: 1,
    settled_for: 0,
};

/// A store that is asked, with its clock and its random bytes.
#[derive(Drop)]
struct Asked {
    store: Store<MemDisk>,
    rand: ListEntropy,
    clock: FixedClock,
}

/// A new store of host 1 with a key, on a disk whose calls of these numbers fail, and whose random source fails at
/// draws of those.
fn new_asked<R: Abort>(
    rt: &R,
    alloc: Global,
    faults: Vec<u64>,
    undrawn: Vec<u64>,
) -> Result<Asked, Fail>
    ensures made { IfOk result (λ a. IsStoreOf a.store [] []) }
    ensures key { IfOk result (λ a. a.store.key ≢ None) }
{
    let disk = MemDisk::new(alloc, Vec::new(alloc), faults)?;
    match Store::create(alloc, disk, 1, Some([7; 32])) {
        Ok(store) => Ok(Asked {
            store,
            rand: ListEntropy::new(Vec::new(alloc), undrawn),
            clock: FixedClock {
                now: 1_700_000_000_000_000_000,
                step: 1_000_000,
            },
        }),
        Err(_) => panic!(rt; "no store was made"),
    }
}

/// Asks the store, which goes on being one.
fn ask(asked: &mut Asked, alloc: Global, call: &Call) -> Reply
    requires key { asked.old.store.key ≢ None }
    requires fits { CallFits (call_seen call.now) }
    requires means { (journal : List Entry) × (doubt : List Entry) × IsStoreOf asked.old.store journal doubt }
    ensures key { asked.new.store.key ≢ None }
    ensures means { (journal : List Entry) × (doubt : List Entry) × IsStoreOf asked.new.store journal doubt }
{
    asked
        .store
        .ask(alloc, CALLER, call, &mut asked.rand, &mut asked.clock)
}

/// `ls` begins.
fn begin_ls(alloc: Global) -> Result<Call, Fail>
    ensures { IfOk result (λ call. CallFits (call_seen call)) }
{
    Ok(Call::Start {
        command: Text::copied(alloc, b"ls")?,
        cwd: Text::copied(alloc, b"/")?,
        session: Text::copied(alloc, b"s1")?,
        hostname: Text::copied(alloc, b"h:u")?,
    })
}

/// The id of the command that was begun, 0 where none was.
fn begun(reply: &Reply) -> u128 {
    match reply.result {
        Ok(Answer::Begun { id }) => id,
        _ => 0,
    }
}

#[test]
fn a_command_is_begun_and_ended_once(rt: HostRuntime) -> Result<(), Fail> {
    let alloc = rt.alloc();
    let mut asked = new_asked(&rt, alloc, Vec::new(alloc), Vec::new(alloc))?;
    let started = ask(&mut asked, alloc, &begin_ls(alloc)?);
    assert!(rt; started.front == 1);
    let end = Call::End {
        id: begun(&started),
        duration: 5,
        exit: 0,
        author: None,
    };
    let ended = ask(&mut asked, alloc, &end);
    assert!(rt; ended.front == 2);
    assert!(rt; matches!(ended.result, Ok(Answer::Stored { idx: 0 })));
    let again = ask(&mut asked, alloc, &end);
    assert!(rt; again.front == 2);
    assert!(rt; matches!(again.result, Err(Refusal::UnknownId { .. })));
    Ok(())
}

#[test]
fn a_refused_call_adds_nothing(rt: HostRuntime) -> Result<(), Fail> {
    let alloc = rt.alloc();
    let mut asked = new_asked(&rt, alloc, Vec::new(alloc), vec![in alloc; 1]?)?;
    let undrawn = ask(&mut asked, alloc, &begin_ls(alloc)?);
    assert!(rt; undrawn.front == 0);
    assert!(rt; matches!(undrawn.result, Err(Refusal::RandFault)));
    Ok(())
}

#[test]
fn what_is_in_doubt_is_settled_by_the_next_writing_call(rt: HostRuntime) -> Result<(), Fail> {
    let alloc = rt.alloc();
    // Calls 1 to 3 make the log, 4 to 7 are a commit. The sync behind its gate fails.
    let mut asked = new_asked(&rt, alloc, vec![in alloc; 7]?, Vec::new(alloc))?;
    let doubted = ask(&mut asked, alloc, &begin_ls(alloc)?);
    assert!(rt; doubted.front == 0);
    assert!(rt; matches!(doubted.result, Err(Refusal::DiskFault)));
    // A call that only asks doesn't settle.
    assert!(rt; ask(&mut asked, alloc, &Call::Status).front == 0);
    assert!(rt; asked.store.in_doubt());
    let written = ask(&mut asked, alloc, &begin_ls(alloc)?);
    assert!(rt; written.front == 2);
    assert!(rt; begun(&written) != 0);
    Ok(())
}

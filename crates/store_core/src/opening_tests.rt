use super::*;
use crate::tests::{commit_ls, new_store};
use at_edge::MemDisk;
use std::alloc::Global;
use std::process::Abort;
use std::test::Fail;

/// The disk of a store of host 1, of which `ls` was begun.
fn disk_of_ls<R: Abort>(rt: &R, alloc: Global) -> Result<MemDisk, Fail> {
    let mut store = new_store(rt, alloc, Vec::new(alloc))?;
    match commit_ls(&mut store, alloc)? {
        Ok(()) => Ok(store.into_disk()),
        Err(_) => panic!(rt; "the batch was not committed"),
    }
}

/// Why no store was opened on a disk with these bytes, whose calls of these numbers fail.
fn refusal(alloc: Global, bytes: Vec<u8>, failing: Vec<u64>) -> Result<Option<OpenFail>, Fail> {
    let disk = MemDisk::new(alloc, bytes, failing)?;
    match Store::open_on(alloc, disk, None) {
        Ok(_) => Ok(None),
        Err((fail, _)) => Ok(Some(fail)),
    }
}

#[test]
fn a_store_is_opened_as_it_was_left(rt: HostRuntime) -> Result<(), Fail> {
    let alloc = rt.alloc();
    let disk = disk_of_ls(&rt, alloc)?;
    let Ok(store) = Store::open_on(alloc, disk, Some([7; 32])) else {
        panic!(rt; "no store was opened");
    };
    assert!(rt; store.front() == 1);
    assert!(rt; store.count(0, 1, b"history") == 0);
    assert!(rt; store.host() == 1);
    assert!(rt; store.has_key());
    assert!(rt; !store.in_doubt());
    assert!(rt; store.tables.kept.commands.is_known(7));
    Ok(())
}

#[test]
fn what_is_no_sound_log_is_not_opened(rt: HostRuntime) -> Result<(), Fail> {
    let alloc = rt.alloc();
    assert!(rt; refusal(alloc, Vec::new(alloc), Vec::new(alloc))? == Some(OpenFail::NotALog));
    let disk = disk_of_ls(&rt, alloc)?;
    let mut bytes = Vec::from_slice(alloc, disk.shows())?;
    // In the body of the only batch, whose gate stands behind the header of 32 bytes.
    if let Some(byte) = bytes.get_mut(45) {
        *byte = byte.wrapping_add(1);
    }
    assert!(rt; refusal(alloc, bytes, Vec::new(alloc))? == Some(OpenFail::Damaged { offset: 32 }));
    Ok(())
}

#[test]
fn a_call_that_fails_is_told(rt: HostRuntime) -> Result<(), Fail> {
    let alloc = rt.alloc();
    let disk = disk_of_ls(&rt, alloc)?;
    // A sync, the length and six reads open the log, and one more reads its batch.
    for number in 1..10 {
        let bytes = Vec::from_slice(alloc, disk.shows())?;
        let failing = vec![in alloc; number; 1]?;
        assert!(rt; refusal(alloc, bytes, failing)? == Some(OpenFail::DiskFault));
    }
    let bytes = Vec::from_slice(alloc, disk.shows())?;
    assert!(rt; refusal(alloc, bytes, vec![in alloc; 10; 1]?)? == None);
    Ok(())
}

use super::*;
use std::alloc::Global;
use std::fs;
use std::process::Abort;
use std::test::Fail;

/// The file that the test of files writes and removes.
const PATH: &str = "at_edge_file_disk_test";

/// Writes the bytes behind all others.
fn append<D: Disk>(disk: &mut D, bytes: &[u8]) -> Result<(), DiskFault> {
    let end = disk.len()?;
    disk.write_at(end, bytes)
}

/// Reads all that the disk shows, by its length.
fn assert_shows<D: Disk>(
    rt: &impl Abort,
    alloc: Global,
    disk: &mut D,
    want: &[u8],
) -> Result<(), Fail> {
    let length = disk.len()?;
    let mut into = vec![in alloc; 0u8; length as usize]?;
    disk.read_at(0, &mut into)?;
    assert!(rt; into.as_slice() == want);
    Ok(())
}

#[test]
fn a_disk_in_memory_crashes_in_three_ways(rt: HostRuntime) -> Result<(), Fail> {
    let alloc = rt.alloc();
    let mut disk = MemDisk::new(
        alloc,
        b"abc".as_slice().to_vec(alloc)?,
        vec![in alloc; 4; 1]?,
    )?;
    assert!(rt; append(&mut disk, b"de") == Ok(()));
    let unsynced: [&[u8]; 4] = [b"abc", b"abcde", b"abc\xff\xff", b"abc"];
    for (pick, want) in (0..).zip(unsynced) {
        assert!(rt; disk.crash(alloc, pick)?.shows() == want);
    }
    assert!(rt; disk.sync() == Ok(()));
    // The fourth call is to fail, and does nothing.
    for wrote in [Err(DiskFault), Ok(())] {
        assert!(rt; disk.write_at(0, b"x") == wrote);
    }
    let synced: [&[u8]; 3] = [b"abcde", b"xbcde", b"\xffbcde"];
    for (pick, want) in (0..).zip(synced) {
        assert!(rt; disk.crash(alloc, pick)?.shows() == want);
    }
    assert_shows(&rt, alloc, &mut disk, b"xbcde")
}

#[test]
fn a_sure_disk_does_what_it_is_told(rt: HostRuntime) -> Result<(), Fail> {
    let alloc = rt.alloc();
    let mut disk = SureDisk::new(alloc, Vec::new(alloc))?;
    assert!(rt; append(&mut disk, b"abc") == Ok(()));
    assert!(rt; disk.sync() == Ok(()));
    assert!(rt; append(&mut disk, b"d") == Ok(()));
    let images: [&[u8]; 3] = [b"abc", b"abcd", b"abc\xff"];
    for (pick, want) in (0..).zip(images) {
        let mut left = disk.crash(alloc, pick)?;
        assert_shows(&rt, alloc, &mut left, want)?;
    }
    Ok(())
}

#[test]
fn a_silent_disk_fails_where_no_bytes_are(rt: HostRuntime) -> Result<(), Fail> {
    let alloc = rt.alloc();
    let mut into = [0; 2];
    let mut disk = MemDisk::new(alloc, b"abc".as_slice().to_vec(alloc)?, Vec::new(alloc))?.silent();
    assert!(rt; disk.read_at(1, &mut into) == Ok(()));
    assert!(rt; &into == b"bc");
    assert!(rt; disk.read_at(2, &mut into) == Err(DiskFault));
    assert!(rt; disk.write_at(4, b"x") == Err(DiskFault));
    assert!(rt; disk.disown() == DiskFault);
    assert!(rt; disk.shows() == b"abc".as_slice());
    let mut sure = SureDisk::new(alloc, b"abc".as_slice().to_vec(alloc)?)?.silent();
    assert!(rt; sure.read_at(2, &mut into) == Err(DiskFault));
    assert!(rt; sure.write_at(4, b"x") == Err(DiskFault));
    assert!(rt; sure.disown() == DiskFault);
    assert!(rt; sure.shows() == b"abc".as_slice());
    Ok(())
}

#[test]
fn a_file_is_there_for_the_next_disk(rt: HostRuntime) -> Result<(), Fail> {
    let alloc = rt.alloc();
    // A run that stopped in the middle may have left it.
    let _ = fs::remove_file(&rt, PATH);
    let mut first = FileDisk::new(&rt, PATH);
    assert!(rt; first.write_at(0, b"hello") == Ok(()));
    assert!(rt; first.write_at(1, b"EL") == Ok(()));
    assert!(rt; first.sync() == Ok(()));
    assert!(rt; first.faults() == 0);
    drop(first);
    let mut again = FileDisk::new(&rt, PATH);
    assert_shows(&rt, alloc, &mut again, b"hELlo")?;
    assert!(rt; again.read_at(4, &mut [0; 2]) == Err(DiskFault));
    assert!(rt; again.faults() == 1);
    fs::remove_file(&rt, PATH)?;
    Ok(())
}

#[test]
fn what_a_file_refuses_is_counted(rt: HostRuntime) {
    // A device that takes no byte, and can't be synced.
    let mut full = FileDisk::new(&rt, "/dev/full");
    assert!(rt; full.write_at(0, b"x") == Err(DiskFault));
    assert!(rt; full.sync() == Err(DiskFault));
    assert!(rt; full.faults() == 2);
    assert!(rt; full.disown() == DiskFault);
    assert!(rt; full.faults() == 3);
    // A file in a folder that isn't there.
    let mut missing = FileDisk::new(&rt, "at_edge_no_folder/file");
    assert!(rt; missing.len() == Err(DiskFault));
    assert!(rt; missing.faults() == 1);
}

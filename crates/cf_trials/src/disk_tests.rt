//! Disks in memory: what is written is read, the listed calls fail, and a fuse stops a run.
use cf_disk::{Disk, FuseDisk, MemoryDisk};
use std::process::Abort;
use std::test::Fail;

fn keeps_what_is_written(rt: &impl Abort, disk: &mut MemoryDisk) -> Result<(), Fail> {
    assert_eq!(rt; disk.room(), 16);
    assert_eq!(rt; disk.length()?, 3);
    disk.write_at(2, &[7, 8, 9])?;
    disk.sync()?;
    assert_eq!(rt; disk.bytes(), [1, 2, 7, 8, 9].as_slice());
    let mut middle = [0u8; 2];
    disk.read(1, &mut middle)?;
    assert_eq!(rt; middle.as_slice(), [2, 7].as_slice());
    disk.cut(4)?;
    assert_eq!(rt; disk.bytes(), [1, 2, 7, 8].as_slice());
    assert_eq!(rt; disk.faults(), 0);
    Ok(())
}

#[test]
fn a_disk_in_memory_keeps_what_is_written(rt: HostRuntime) -> Result<(), Fail> {
    let mut disk = MemoryDisk::new(rt.alloc(), &[1, 2, 3], 16, &[], 20, 20)?;
    let kept = keeps_what_is_written(&rt, &mut disk);
    drop(disk);
    kept
}

// The second and the third call fail. Two bytes are noted by then, of four, and three calls, of five.
#[test]
fn listed_calls_fail(rt: HostRuntime) -> Result<(), Fail> {
    let mut disk = MemoryDisk::new(rt.alloc(), &[], 16, &[2, 3], 5, 4)?;
    disk.write_at(0, &[1, 2])?;
    assert!(rt; disk.write_at(0, &[3]).is_err());
    assert!(rt; disk.sync().is_err());
    assert_eq!(rt; disk.bytes(), [1, 2].as_slice());
    // Two bytes more can be noted, and two calls.
    assert!(rt; disk.write_at(0, &[3, 4, 5]).is_err());
    disk.write_at(0, &[3, 4])?;
    assert!(rt; disk.length().is_err());
    assert_eq!(rt; disk.bytes(), [3, 4].as_slice());
    assert_eq!(rt; disk.faults(), 4);
    Ok(())
}

#[test]
fn a_fuse_stops_a_run(rt: HostRuntime) -> Result<(), Fail> {
    let disk = MemoryDisk::new(rt.alloc(), &[5], 16, &[], 20, 20)?;
    let mut fuse = FuseDisk::new(disk, 2);
    fuse.write_at(1, &[6])?;
    assert_eq!(rt; fuse.length()?, 2);
    assert!(rt; fuse.write_at(1, &[7]).is_err());
    assert!(rt; fuse.sync().is_err());
    assert_eq!(rt; fuse.faults(), 2);
    assert_eq!(rt; fuse.room(), 16);
    let disk = fuse.into_disk();
    assert_eq!(rt; disk.bytes(), [5, 6].as_slice());
    Ok(())
}

//! A disk over a real file: what is written lasts, a second opening is refused, and what can't be opened is a fault. And one over a file in
//! memory, of which a sync fails.
use cf_disk::{Disk, MemoryDisk};
use cf_file::{FileDisk, MemoryFile, RealFile};
use std::path::Path;
use std::process::Abort;
use std::test::Fail;
use std::{env, fs};

type Journal = FileDisk<RealFile<HostRuntime>>;

fn journal_in(rt: HostRuntime, home: Path<'_>) -> Result<Journal, Fail> {
    Ok(FileDisk::new(RealFile::new(rt, home.as_str(), "journal")?))
}

// A disk may be handed to another thread.
fn let_go<D: Disk + Send + Drop>(_disk: D) {}

fn is_written(abort: &impl Abort, disk: &mut Journal) -> Result<(), Fail> {
    assert!(abort; disk.length().is_err());
    assert_eq!(abort; disk.faults(), 1);
    disk.sync()?;
    assert_eq!(abort; disk.length()?, 0);
    disk.write_at(0, b"hello world")?;
    disk.cut(7)?;
    disk.write_at(6, b"you")?;
    disk.sync()?;
    assert_eq!(abort; disk.length()?, 9);
    assert_eq!(abort; disk.faults(), 1);
    Ok(())
}

fn is_refused(abort: &impl Abort, disk: &mut Journal) -> Result<(), Fail> {
    assert!(abort; disk.sync().is_err());
    assert!(abort; disk.write_at(0, b"x").is_err());
    assert_eq!(abort; disk.faults(), 2);
    Ok(())
}

fn is_found(abort: &impl Abort, disk: &mut Journal) -> Result<(), Fail> {
    disk.sync()?;
    let mut bytes = [0u8; 4];
    disk.read(5, &mut bytes)?;
    assert!(abort; bytes.as_slice() == b" you".as_slice());
    assert!(abort; disk.read(6, &mut bytes).is_err());
    assert_eq!(abort; disk.faults(), 3);
    Ok(())
}

fn is_owned(abort: &impl Abort, first: &mut Journal, second: &mut Journal) -> Result<(), Fail> {
    is_written(abort, first)?;
    is_refused(abort, second)
}

// While the first opening has the file the second is refused; behind it the second finds what was written.
fn follows(
    abort: &impl Abort,
    rt: HostRuntime,
    home: Path<'_>,
    second: &mut Journal,
) -> Result<(), Fail> {
    let mut first = journal_in(rt, home)?;
    let owned = is_owned(abort, &mut first, second);
    let_go(first);
    owned?;
    is_found(abort, second)
}

fn has_one_owner(abort: &impl Abort, rt: HostRuntime, home: Path<'_>) -> Result<(), Fail> {
    let mut second = journal_in(rt, home)?;
    let tried = follows(abort, rt, home, &mut second);
    let_go(second);
    tried
}

// A folder in the place of the file, and a folder that is missing.
fn cannot_be_opened(abort: &impl Abort, rt: HostRuntime, home: Path<'_>) -> Result<(), Fail> {
    let mut disk = FileDisk::new(RealFile::new(rt, home.as_str(), "inner")?);
    let mut lost = FileDisk::new(RealFile::new(rt, home.as_str(), "missing/journal")?);
    let failed = (disk.sync().is_err(), lost.sync().is_err());
    let faults = (disk.faults(), lost.faults());
    let_go(disk);
    let_go(lost);
    assert!(abort; failed == (true, true));
    assert!(abort; faults == (1, 1));
    Ok(())
}

fn fill(rt: HostRuntime, home: Path<'_>) -> Result<(), Fail> {
    let inner = home.join(rt.alloc(), "inner")?;
    let made = fs::create_dir_all(&rt, inner.as_path());
    drop(inner);
    Ok(made?)
}

fn both(abort: &impl Abort, rt: HostRuntime, home: Path<'_>) -> Result<(), Fail> {
    has_one_owner(abort, rt, home)?;
    cannot_be_opened(abort, rt, home)
}

fn tried_in(abort: &impl Abort, rt: HostRuntime, home: Path<'_>) -> Result<(), Fail> {
    fill(rt, home)?;
    let tried = both(abort, rt, home);
    let cleared = fs::remove_dir_all(&rt, home);
    tried?;
    Ok(cleared?)
}

#[test]
fn a_file_keeps_what_is_written_and_has_one_owner(rt: HostRuntime) -> Result<(), Fail> {
    let folder = env::temp_dir(&rt)?;
    let home = folder.join(rt.alloc(), "cf_file_journal");
    drop(folder);
    let home = home?;
    let tried = tried_in(&rt, rt, home.as_path());
    drop(home);
    tried
}

const ROOM: u64 = 4_294_967_296;

fn stays_broken(abort: &impl Abort, disk: &mut FileDisk<MemoryFile>) -> Result<(), Fail> {
    disk.sync()?;
    assert!(abort; disk.sync().is_err());
    assert!(abort; disk.length().is_err());
    assert!(abort; disk.sync().is_err());
    assert_eq!(abort; disk.faults(), 3);
    Ok(())
}

// The second call of the disk fails, which is the second sync.
#[test]
fn after_a_sync_that_failed_each_call_fails(rt: HostRuntime) -> Result<(), Fail> {
    let bytes = MemoryDisk::new(rt.alloc(), &[1, 2, 3], ROOM, &[2], 20, 20)?;
    let mut disk = FileDisk::new(MemoryFile::new(bytes, false));
    let broken = stays_broken(&rt, &mut disk);
    let_go(disk);
    broken
}

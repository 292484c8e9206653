//! Libraries and sinks: those in memory, a folder and standard output.
use cf_io::{
    FetchFault, FolderLibrary, Library, MemoryLibrary, MemorySink, Sink, SinkFail, StdoutSink,
    SteadyLibrary, SteadySink,
};
use cf_tree::Txt;
use std::alloc::{AllocError, Global};
use std::io::{ErrorKind, Write};
use std::os::unix;
use std::path::Path;
use std::process::Abort;
use std::test::Fail;
use std::{env, fs, io};

fn named(alloc: Global, name: &str, bytes: &[u8]) -> Result<(Txt, Vec<u8>), AllocError> {
    let name = Txt::from_str(alloc, name)?;
    let bytes = Vec::from_slice(alloc, bytes)?;
    Ok((name, bytes))
}

// Two texts, `one` and `two`.
fn two_texts(alloc: Global) -> Result<[(Txt, Vec<u8>); 2], AllocError> {
    let one = named(alloc, "one", b"first")?;
    let two = named(alloc, "two", b"second")?;
    Ok([one, two])
}

// Whether a fetch answered these bytes, or None.
fn found(answer: Result<Option<Vec<u8>>, FetchFault>, wanted: Option<&[u8]>) -> bool {
    match answer {
        Ok(Some(bytes)) => {
            let same = wanted == Some(bytes.as_slice());
            drop(bytes);
            same
        }
        Ok(None) => wanted.is_none(),
        Err(_) => false,
    }
}

// Whether a fetch failed.
fn failed(answer: Result<Option<Vec<u8>>, FetchFault>) -> bool {
    match answer {
        Ok(found) => {
            drop(found);
            false
        }
        Err(fault) => fault == FetchFault::Failed,
    }
}

fn gives_what_it_holds(rt: &impl Abort, library: &mut SteadyLibrary) -> Result<(), Fail> {
    assert!(rt; found(library.fetch("two"), Some(b"second".as_slice())));
    assert!(rt; found(library.fetch("three"), None));
    assert_eq!(rt; library.misses(), 1);
    assert_eq!(rt; library.faults(), 0);
    Ok(())
}

fn fails_as_planned(rt: &impl Abort, library: &mut MemoryLibrary) -> Result<(), Fail> {
    assert!(rt; found(library.fetch("one"), Some(b"first".as_slice())));
    assert!(rt; failed(library.fetch("one")));
    assert!(rt; found(library.fetch("one"), Some(b"first".as_slice())));
    assert!(rt; found(library.fetch(""), None));
    assert_eq!(rt; library.misses(), 1);
    assert_eq!(rt; library.faults(), 1);
    Ok(())
}

fn steady_over(rt: &impl Abort, alloc: Global, texts: &[(Txt, Vec<u8>)]) -> Result<(), Fail> {
    let mut library = SteadyLibrary::new(alloc, texts)?;
    let given = gives_what_it_holds(rt, &mut library);
    drop(library);
    given
}

fn planned_over(rt: &impl Abort, alloc: Global, texts: &[(Txt, Vec<u8>)]) -> Result<(), Fail> {
    let mut library = MemoryLibrary::new(alloc, texts, [2].as_slice())?;
    let failed = fails_as_planned(rt, &mut library);
    drop(library);
    failed
}

fn libraries_over(rt: &impl Abort, alloc: Global, texts: &[(Txt, Vec<u8>)]) -> Result<(), Fail> {
    steady_over(rt, alloc, texts)?;
    planned_over(rt, alloc, texts)
}

#[test]
fn libraries_in_memory_give_what_they_hold_and_fail_as_planned(
    rt: HostRuntime,
) -> Result<(), Fail> {
    let texts = two_texts(rt.alloc())?;
    let told = libraries_over(&rt, rt.alloc(), texts.as_slice());
    drop(texts);
    told
}

fn make_folder(rt: HostRuntime, home: Path<'_>, name: &str) -> io::Result<()> {
    let path = home.join(rt.alloc(), name)?;
    let made = fs::create_dir_all(&rt, path.as_path());
    drop(path);
    made
}

fn write_file(rt: HostRuntime, home: Path<'_>, name: &str, text: &str) -> io::Result<()> {
    let path = home.join(rt.alloc(), name)?;
    let written = fs::write(&rt, path.as_path(), text);
    drop(path);
    written
}

fn link(rt: HostRuntime, home: Path<'_>, name: &str, to: &str) -> io::Result<()> {
    let path = home.join(rt.alloc(), name)?;
    let linked = unix::fs::symlink(&rt, to, path.as_path());
    drop(path);
    linked
}

fn remove_file(rt: HostRuntime, home: Path<'_>, name: &str) -> io::Result<()> {
    let path = home.join(rt.alloc(), name)?;
    let removed = fs::remove_file(&rt, path.as_path());
    drop(path);
    removed
}

fn remove_folder(rt: HostRuntime, home: Path<'_>, name: &str) -> io::Result<()> {
    let path = home.join(rt.alloc(), name)?;
    let removed = fs::remove_dir(&rt, path.as_path());
    drop(path);
    removed
}

// A file, a hidden one, a folder, and a device by a link.
fn fill(rt: HostRuntime, home: Path<'_>) -> io::Result<()> {
    make_folder(rt, home, "inner")?;
    write_file(rt, home, "one", "{\"Resources\":{}}")?;
    write_file(rt, home, ".hidden", "x")?;
    link(rt, home, "device", "/dev/zero")
}

fn clear(rt: HostRuntime, home: Path<'_>) -> io::Result<()> {
    remove_file(rt, home, "device")?;
    remove_file(rt, home, "one")?;
    remove_file(rt, home, ".hidden")?;
    remove_folder(rt, home, "inner")?;
    fs::remove_dir(&rt, home)
}

fn gives_its_files(rt: &impl Abort, library: &mut FolderLibrary<HostRuntime>) -> Result<(), Fail> {
    assert!(rt; found(library.fetch("one"), Some(b"{\"Resources\":{}}".as_slice())));
    assert!(rt; found(library.fetch("two"), None));
    assert!(rt; found(library.fetch(".hidden"), None));
    assert!(rt; found(library.fetch("inner/../one"), None));
    assert!(rt; failed(library.fetch("inner")));
    assert!(rt; failed(library.fetch("device")));
    assert_eq!(rt; library.misses(), 3);
    assert_eq!(rt; library.faults(), 2);
    Ok(())
}

fn has_no_folder(rt: &impl Abort, library: &mut FolderLibrary<HostRuntime>) -> Result<(), Fail> {
    assert!(rt; failed(library.fetch("one")));
    assert_eq!(rt; library.misses(), 3);
    assert_eq!(rt; library.faults(), 3);
    Ok(())
}

fn looked_into(
    abort: &impl Abort,
    rt: HostRuntime,
    home: Path<'_>,
    library: &mut FolderLibrary<HostRuntime>,
) -> Result<(), Fail> {
    fill(rt, home)?;
    let given = gives_its_files(abort, library);
    let cleared = clear(rt, home);
    given?;
    cleared?;
    has_no_folder(abort, library)
}

fn library_in(abort: &impl Abort, rt: HostRuntime, home: Path<'_>) -> Result<(), Fail> {
    let mut library = FolderLibrary::new(rt, String::from_str(rt.alloc(), home.as_str())?);
    let looked = looked_into(abort, rt, home, &mut library);
    drop(library);
    looked
}

#[test]
fn a_folder_gives_its_files_and_counts_what_cannot_be_read(rt: HostRuntime) -> Result<(), Fail> {
    let folder = env::temp_dir(&rt)?;
    let home = folder.join(rt.alloc(), "cf_trials_templates");
    drop(folder);
    let home = home?;
    let told = library_in(&rt, rt, home.as_path());
    drop(home);
    told
}

fn is_held(rt: &impl Abort, sink: &mut SteadySink) -> Result<(), Fail> {
    sink.put(b"ab")?;
    sink.put(b"c")?;
    assert!(rt; sink.bytes() == b"abc".as_slice());
    assert_eq!(rt; sink.faults(), 0);
    Ok(())
}

#[test]
fn a_steady_sink_holds_what_was_put(rt: HostRuntime) -> Result<(), Fail> {
    let mut sink = SteadySink::new(rt.alloc());
    let held = is_held(&rt, &mut sink);
    drop(sink);
    held
}

fn is_held_but_for_failures(rt: &impl Abort, sink: &mut MemorySink) -> Result<(), Fail> {
    assert!(rt; sink.put(b"ab") == Err(SinkFail::Failed));
    sink.put(b"cd")?;
    assert!(rt; sink.put(b"ef") == Err(SinkFail::Failed));
    assert!(rt; sink.bytes() == b"cd".as_slice());
    assert_eq!(rt; sink.faults(), 2);
    Ok(())
}

#[test]
fn a_sink_in_memory_fails_as_planned(rt: HostRuntime) -> Result<(), Fail> {
    let mut sink = MemorySink::new(rt.alloc(), [1, 3].as_slice())?;
    let held = is_held_but_for_failures(&rt, &mut sink);
    drop(sink);
    held
}

// A writer that takes two bytes at a time, and after so many of them fails.
#[derive(Drop)]
struct Narrow {
    taken: Vec<u8>,
    room: usize,
    kind: Option<ErrorKind>,
}

impl Write for Narrow {
    fn write(&mut self, buf: &[u8]) -> io::Result<usize> {
        let count = buf.len().min(2).min(self.room);
        if count == 0 {
            return match self.kind {
                Some(kind) => Err(io::Error::from(kind)),
                None => Ok(0),
            };
        }
        self.taken.extend_from_slice(&buf[..count])?;
        self.room -= count;
        Ok(count)
    }

    fn flush(&mut self) -> io::Result<()> {
        Ok(())
    }
}

// What a put of `abcdef` to a writer of this room answers, and the count of faults after it.
fn narrow_put(
    rt: HostRuntime,
    room: usize,
    kind: Option<ErrorKind>,
) -> (Result<(), SinkFail>, u64) {
    let taken = Vec::new(rt.alloc());
    let mut sink = StdoutSink::new(rt, Narrow { taken, room, kind });
    let answer = sink.put(b"abcdef");
    let faults = sink.faults();
    drop(sink);
    (answer, faults)
}

#[test]
fn standard_output_writes_until_all_is_taken(rt: HostRuntime) -> Result<(), Fail> {
    for (room, kind, answer, faults) in [
        (6, None, Ok(()), 0),
        (3, None, Err(SinkFail::Failed), 1),
        (2, Some(ErrorKind::BrokenPipe), Err(SinkFail::Failed), 1),
        (2, Some(ErrorKind::OutOfMemory), Err(SinkFail::NoMemory), 0),
    ] {
        assert!(rt; narrow_put(rt, room, kind) == (answer, faults), "at {room}");
    }
    Ok(())
}

#[test]
fn standard_output_is_written_to(rt: HostRuntime) -> Result<(), Fail> {
    let mut sink = StdoutSink::new(rt, io::writer(&rt));
    sink.put(b"printed\n")?;
    assert_eq!(rt; sink.faults(), 0);
    Ok(())
}

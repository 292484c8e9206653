//! The lanes that are shipped, over a real folder.
use crate::told::is_told;
use cf_files::{FilesHandler, files_handler};
use cf_handler::{FenceAnswer, Handler};
use cf_records::{RecordsHandler, records_handler};
use cf_tree::{Answer, Dict, Look, NoMemory, Request, Txt, Val};
use std::alloc::{AllocError, Global};
use std::fs::{File, OpenOptions};
use std::os::unix::fs::FileExt;
use std::path::Path;
use std::process::Abort;
use std::test::Fail;
use std::{env, fs, io};

// Two properties.
fn props(alloc: Global, pairs: [(&str, &str); 2]) -> Result<Dict, AllocError> {
    let mut props = Dict::new(alloc);
    for (name, text) in pairs {
        let text = Txt::from_str(alloc, text)?;
        props.insert(Txt::from_str(alloc, name)?, Val::Text(text))?;
    }
    Ok(props)
}

fn create(alloc: Global, pairs: [(&str, &str); 2]) -> Result<Request, AllocError> {
    let kind = Txt::from_str(alloc, "K")?;
    let props = props(alloc, pairs)?;
    Ok(Request::Create { kind, props })
}

fn update(alloc: Global, id: &str, pairs: [(&str, &str); 2]) -> Result<Request, AllocError> {
    let physical = Txt::from_str(alloc, id)?;
    let props = props(alloc, pairs)?;
    Ok(Request::Update { physical, props })
}

fn delete(alloc: Global, id: &str) -> Result<Request, AllocError> {
    let physical = Txt::from_str(alloc, id)?;
    Ok(Request::Delete { physical })
}

// An answer as a line: the id of a success, or the name of what else it is.
fn answer_line(alloc: Global, answer: Answer) -> Result<String, AllocError> {
    match answer {
        Answer::Success { physical, attrs: _ } => String::from_str(alloc, physical.as_str()),
        Answer::Failed { code } => String::from_str(alloc, code.name()),
        Answer::Fault => String::from_str(alloc, "Fault"),
        Answer::Stale { fence } => format!(in alloc; "Stale {fence}"),
        Answer::NoMemory => String::from_str(alloc, "NoMemory"),
    }
}

// What a call in the epoch 1 is answered, as a line.
fn called<H: Handler>(
    alloc: Global,
    lane: &mut H,
    token: u64,
    request: Result<Request, AllocError>,
) -> Result<String, AllocError> {
    let request = request?;
    answer_line(alloc, lane.call(1, token, &request))
}

// What a call in the epoch 0 is answered, as a line.
fn called_late<H: Handler>(
    alloc: Global,
    lane: &mut H,
    token: u64,
    request: Result<Request, AllocError>,
) -> Result<String, AllocError> {
    let request = request?;
    answer_line(alloc, lane.call(0, token, &request))
}

// A text of a look, or the name of what else it is.
fn look_line(alloc: Global, look: Look, name: &str) -> Result<String, AllocError> {
    match look {
        Look::Found { props, attrs: _ } => match props.get(name) {
            Some(Val::Text(text)) => String::from_str(alloc, text.as_str()),
            _ => String::from_str(alloc, "none"),
        },
        Look::Failed { code } => String::from_str(alloc, code.name()),
        Look::Fault => String::from_str(alloc, "Fault"),
        Look::Stale { fence } => format!(in alloc; "Stale {fence}"),
        Look::NoMemory => String::from_str(alloc, "NoMemory"),
    }
}

fn looked<H: Handler>(
    alloc: Global,
    lane: &mut H,
    epoch: u64,
    id: &str,
    name: &str,
) -> Result<String, AllocError> {
    let physical = Txt::from_str(alloc, id)?;
    look_line(alloc, lane.read(epoch, &physical), name)
}

type Records = RecordsHandler<HostRuntime>;

type Files = FilesHandler<HostRuntime>;

/// The two lanes of a type, as they are opened together.
#[derive(Drop)]
struct Lanes<H: Drop> {
    one: H,
    two: H,
}

fn record_lanes(rt: HostRuntime, home: Path<'_>) -> Result<Lanes<Records>, NoMemory> {
    let one = records_handler(rt, home.as_str(), "records1")?;
    let two = records_handler(rt, home.as_str(), "records2")?;
    Ok(Lanes { one, two })
}

fn file_lanes(rt: HostRuntime, home: Path<'_>) -> Result<Lanes<Files>, NoMemory> {
    let one = files_handler(rt, home.as_str(), "files1")?;
    let two = files_handler(rt, home.as_str(), "files2")?;
    Ok(Lanes { one, two })
}

// Two lanes of records answer by one table over what both of them made.
fn records_are_made(
    abort: &impl Abort,
    alloc: Global,
    lanes: &mut Lanes<Records>,
) -> Result<(), Fail> {
    let one = &mut lanes.one;
    let two = &mut lanes.two;
    assert!(abort; one.fence(1) == FenceAnswer::Raised);
    assert!(abort; two.fence(1) == FenceAnswer::Raised);
    let pairs = [("Key", "k"), ("Value", "v")];
    is_told(
        abort,
        called(alloc, one, 1, create(alloc, pairs)),
        "records1:1",
    )?;
    is_told(
        abort,
        called(alloc, one, 1, create(alloc, pairs)),
        "records1:1",
    )?;
    is_told(
        abort,
        called(alloc, two, 2, create(alloc, pairs)),
        "AlreadyExists",
    )?;
    let pairs = [("Key", "k"), ("Value", "w")];
    is_told(
        abort,
        called(alloc, two, 3, update(alloc, "records1:1", pairs)),
        "NotFound",
    )?;
    is_told(
        abort,
        called(alloc, one, 4, update(alloc, "records1:1", pairs)),
        "records1:1",
    )?;
    assert_eq!(abort; one.faults(), 0);
    assert_eq!(abort; two.faults(), 2);
    Ok(())
}

// A new opening knows what the one before it did, and gives the answer of a token to no other call.
fn records_are_there(abort: &impl Abort, alloc: Global, one: &mut Records) -> Result<(), Fail> {
    assert!(abort; one.fence(1) == FenceAnswer::Ahead { fence: 1 });
    is_told(
        abort,
        called_late(alloc, one, 5, delete(alloc, "records1:1")),
        "Stale 1",
    )?;
    is_told(abort, looked(alloc, one, 1, "records1:1", "Value"), "w")?;
    is_told(
        abort,
        looked(alloc, one, 0, "records1:1", "Value"),
        "Stale 1",
    )?;
    let pairs = [("Key", "k"), ("Value", "v")];
    is_told(
        abort,
        called(alloc, one, 1, create(alloc, pairs)),
        "records1:1",
    )?;
    is_told(
        abort,
        called(alloc, one, 5, delete(alloc, "records1:1")),
        "records1:1",
    )?;
    assert_eq!(abort; one.faults(), 0);
    let other = [("Key", "other"), ("Value", "v")];
    is_told(abort, called(alloc, one, 1, create(alloc, other)), "Fault")?;
    assert_eq!(abort; one.faults(), 1);
    is_told(
        abort,
        looked(alloc, one, 1, "records1:1", "Value"),
        "NotFound",
    )
}

// A table that lost its rows is told as a fault.
fn lost_rows_are_told(
    abort: &impl Abort,
    rt: HostRuntime,
    home: Path<'_>,
    one: &mut Records,
) -> Result<(), Fail> {
    let before = one.faults();
    write_file(rt, home, "records/rows", "")?;
    is_told(
        abort,
        called(rt.alloc(), one, 5, delete(rt.alloc(), "records1:1")),
        "Fault",
    )?;
    is_told(
        abort,
        looked(rt.alloc(), one, 1, "records1:1", "Value"),
        "Fault",
    )?;
    assert!(abort; one.fence(2) == FenceAnswer::Fault);
    assert_eq!(abort; one.faults().saturating_sub(before), 3);
    Ok(())
}

fn records_are_kept(
    abort: &impl Abort,
    rt: HostRuntime,
    home: Path<'_>,
    one: &mut Records,
) -> Result<(), Fail> {
    records_are_there(abort, rt.alloc(), one)?;
    lost_rows_are_told(abort, rt, home, one)
}

fn records_first(abort: &impl Abort, rt: HostRuntime, home: Path<'_>) -> Result<(), Fail> {
    let mut lanes = record_lanes(rt, home)?;
    let told = records_are_made(abort, rt.alloc(), &mut lanes);
    drop(lanes);
    told
}

fn records_again(abort: &impl Abort, rt: HostRuntime, home: Path<'_>) -> Result<(), Fail> {
    let mut one = records_handler(rt, home.as_str(), "records1")?;
    let told = records_are_kept(abort, rt, home, &mut one);
    drop(one);
    told
}

fn records_in(abort: &impl Abort, rt: HostRuntime, home: Path<'_>) -> Result<(), Fail> {
    records_first(abort, rt, home)?;
    records_again(abort, rt, home)
}

fn write_file(rt: HostRuntime, home: Path<'_>, name: &str, text: &str) -> io::Result<()> {
    let path = home.join(rt.alloc(), name)?;
    fs::write(&rt, path.as_path(), text)
}

fn read_file(rt: HostRuntime, home: Path<'_>, name: &str) -> io::Result<String> {
    let path = home.join(rt.alloc(), name)?;
    fs::read_to_string(&rt, path.as_path())
}

fn is_there(rt: HostRuntime, home: Path<'_>, name: &str) -> io::Result<bool> {
    let path = home.join(rt.alloc(), name)?;
    fs::exists(&rt, path.as_path())
}

fn remove_file(rt: HostRuntime, home: Path<'_>, name: &str) -> io::Result<()> {
    let path = home.join(rt.alloc(), name)?;
    fs::remove_file(&rt, path.as_path())
}

fn length_of(rt: HostRuntime, home: Path<'_>, name: &str) -> io::Result<u64> {
    let path = home.join(rt.alloc(), name)?;
    Ok(fs::metadata(&rt, path.as_path())?.len())
}

// Opens the gate of a row as one that is not done, as a crash leaves it.
fn undo_gate(rt: HostRuntime, home: Path<'_>, at: u64) -> io::Result<()> {
    let path = home.join(rt.alloc(), "files/.rows")?;
    let file: File = OpenOptions::new().write(true).open(&rt, path.as_path())?;
    file.write_all_at(&[1], at)
}

// Two lanes of files make, change and remove real files, and stand in no file's place.
fn files_are_made(
    abort: &impl Abort,
    rt: HostRuntime,
    home: Path<'_>,
    lanes: &mut Lanes<Files>,
) -> Result<(), Fail> {
    let alloc = rt.alloc();
    let one = &mut lanes.one;
    let two = &mut lanes.two;
    let pairs = [("Path", "a.txt"), ("Content", "x")];
    is_told(
        abort,
        called(alloc, one, 1, create(alloc, pairs)),
        "files1:1",
    )?;
    assert_eq!(abort; read_file(rt, home, "files/a.txt")?.as_str(), "x");
    is_told(
        abort,
        called(alloc, two, 2, create(alloc, pairs)),
        "AlreadyExists",
    )?;
    let pairs = [("Path", "a.txt"), ("Content", "yy")];
    is_told(
        abort,
        called(alloc, one, 3, update(alloc, "files1:1", pairs)),
        "files1:1",
    )?;
    assert_eq!(abort; read_file(rt, home, "files/a.txt")?.as_str(), "yy");
    let pairs = [("Path", ".rows"), ("Content", "x")];
    is_told(
        abort,
        called(alloc, one, 4, create(alloc, pairs)),
        "InvalidRequest",
    )?;
    write_file(rt, home, "files/b.txt", "theirs")?;
    let pairs = [("Path", "b.txt"), ("Content", "x")];
    is_told(
        abort,
        called(alloc, one, 5, create(alloc, pairs)),
        "AlreadyExists",
    )?;
    assert_eq!(abort; read_file(rt, home, "files/b.txt")?.as_str(), "theirs");
    Ok(())
}

// A crash between a row and its file: the next call, of the other lane, does what is undone, and that is not done again.
fn files_are_finished(
    abort: &impl Abort,
    rt: HostRuntime,
    home: Path<'_>,
    lanes: &mut Lanes<Files>,
) -> Result<(), Fail> {
    let alloc = rt.alloc();
    let one = &mut lanes.one;
    let two = &mut lanes.two;
    let at = length_of(rt, home, "files/.rows")?.saturating_sub(1);
    is_told(
        abort,
        called(alloc, one, 6, delete(alloc, "files1:1")),
        "files1:1",
    )?;
    assert!(abort; !is_there(rt, home, "files/a.txt")?);
    undo_gate(rt, home, at)?;
    write_file(rt, home, "files/a.txt", "left by the crash")?;
    let pairs = [("Path", "a.txt"), ("Content", "z")];
    is_told(
        abort,
        called(alloc, two, 7, create(alloc, pairs)),
        "files2:7",
    )?;
    assert_eq!(abort; read_file(rt, home, "files/a.txt")?.as_str(), "z");
    is_told(
        abort,
        called(alloc, one, 6, delete(alloc, "files1:1")),
        "files1:1",
    )?;
    assert_eq!(abort; read_file(rt, home, "files/a.txt")?.as_str(), "z");
    Ok(())
}

// A crash between the row of a creation and its file: the next call, of the other lane, makes the file, but not in the place of what other
// hands have put there.
fn a_creation_is_finished(
    abort: &impl Abort,
    rt: HostRuntime,
    home: Path<'_>,
    lanes: &mut Lanes<Files>,
) -> Result<(), Fail> {
    let alloc = rt.alloc();
    let one = &mut lanes.one;
    let two = &mut lanes.two;
    let at = length_of(rt, home, "files/.rows")?.saturating_sub(1);
    let pairs = [("Path", "c.txt"), ("Content", "c")];
    is_told(
        abort,
        called(alloc, one, 8, create(alloc, pairs)),
        "files1:8",
    )?;
    undo_gate(rt, home, at)?;
    write_file(rt, home, "files/c.txt", "theirs")?;
    is_told(
        abort,
        called(alloc, two, 9, delete(alloc, "files2:7")),
        "Fault",
    )?;
    assert_eq!(abort; read_file(rt, home, "files/c.txt")?.as_str(), "theirs");
    remove_file(rt, home, "files/c.txt")?;
    is_told(
        abort,
        called(alloc, two, 9, delete(alloc, "files2:7")),
        "files2:7",
    )?;
    assert_eq!(abort; read_file(rt, home, "files/c.txt")?.as_str(), "c");
    assert!(abort; !is_there(rt, home, "files/a.txt")?);
    Ok(())
}

fn files_are_kept(
    abort: &impl Abort,
    rt: HostRuntime,
    home: Path<'_>,
    lanes: &mut Lanes<Files>,
) -> Result<(), Fail> {
    files_are_finished(abort, rt, home, lanes)?;
    a_creation_is_finished(abort, rt, home, lanes)
}

fn files_first(abort: &impl Abort, rt: HostRuntime, home: Path<'_>) -> Result<(), Fail> {
    let mut lanes = file_lanes(rt, home)?;
    let told = files_are_made(abort, rt, home, &mut lanes);
    drop(lanes);
    told
}

fn files_again(abort: &impl Abort, rt: HostRuntime, home: Path<'_>) -> Result<(), Fail> {
    let mut lanes = file_lanes(rt, home)?;
    let told = files_are_kept(abort, rt, home, &mut lanes);
    drop(lanes);
    told
}

fn files_in(abort: &impl Abort, rt: HostRuntime, home: Path<'_>) -> Result<(), Fail> {
    files_first(abort, rt, home)?;
    files_again(abort, rt, home)
}

#[test]
fn records_are_rows_of_a_file(rt: HostRuntime) -> Result<(), Fail> {
    let folder = env::temp_dir(&rt)?;
    let home = folder.join(rt.alloc(), "cf_trials_records")?;
    let _ = fs::remove_dir_all(&rt, home.as_path());
    fs::create_dir(&rt, home.as_path())?;
    let told = records_in(&rt, rt, home.as_path());
    let cleared = fs::remove_dir_all(&rt, home.as_path());
    told?;
    cleared?;
    Ok(())
}

#[test]
fn files_are_files_of_a_folder(rt: HostRuntime) -> Result<(), Fail> {
    let folder = env::temp_dir(&rt)?;
    let home = folder.join(rt.alloc(), "cf_trials_files")?;
    let _ = fs::remove_dir_all(&rt, home.as_path());
    fs::create_dir(&rt, home.as_path())?;
    let told = files_in(&rt, rt, home.as_path());
    let cleared = fs::remove_dir_all(&rt, home.as_path());
    told?;
    cleared?;
    Ok(())
}

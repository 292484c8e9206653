//! A stack engine on one machine: `cfstack HOME WORKERS WORD ..`.
#![tactic(auto)]

ghost use Rattle.std.specs.Prelude.{◌≡◌, ◌≤◌, ◌^◌, ◌++◌, ◌∷◌, [], ◌&&◌, ℕ, List, IsTrue, false, true, IfOk, IfErr, codes, length, map, nat_lt, string_bytes};
ghost use Rattle.cf_io.specs.Stores.{folder_of};
ghost use Rattle.cf_handler.specs.Name.{is_lane_name};
ghost use Rattle.cf_handler.specs.Shipped.{file_schema, record_schema};
ghost use Rattle.cf_face.specs.Words.{are_short, is_in_form, is_command_line};
ghost use Rattle.cf_lane.specs.Lanes.{lane_with};
ghost use Rattle.cf_progress.specs.Words.{behind_progress};
ghost use Rattle.cf_tokens.specs.Under.{under};
ghost use Rattle.cf_engine.specs.Program.{AreNew, IsNoCommandLine, IsRun, IsWordless, RunsAs, StartsAs, exit_of, folder_named, home_named, journal_named, journal_path, lane_store, stores_named, untold_lane};

use cf_disk::Disk;
use cf_face::{Exit, print_exit, print_text, read_workers};
use cf_file::{FileDisk, RealFile};
use cf_handler::Handler;
use cf_io::{FolderLibrary, Library, Sink, StdoutSink};
use cf_progress::{Watched, asks_progress, behind_progress};
use cf_shipped::Shipped;
pub use cf_top::{Ended, alone, answer, cfstack};
use cf_tree::{NoMemory, Txt};
use std::alloc::Global;
use std::io::ErrorKind;
use std::process::ExitCode;
use std::{env, io};

/// The words of a command line have fewer bytes than this together.
const MOST_BYTES: usize = 1 << 30;

const VERSION: &str = "cfstack 0.1.0\n";

const USAGE: &str = "usage: cfstack [--progress] HOME WORKERS WORD ..\
\n\
\nHOME is a folder with templates/ in it, WORKERS a number from 1 to 64. The journal is\
\nthe file HOME/journal, which is made where it is missing; one command has it at a time.\
\nFiles are made in HOME/files, records in HOME/records.\
\n\
\nWith --progress each call that makes, changes or deletes a resource is told on standard\
\nerror, in a line as it is made and in another as it is answered.\
\n\
\n  deploy STACK TEMPLATE NAME=VALUE ..\
\n                     create or update the stack by the template HOME/templates/TEMPLATE,\
\n                     with these values for its parameters\
\n  continue-rollback STACK PATH ..\
\n                     go on with the rollback of an update that failed, and skip\
\n                     what failed at these paths\
\n  resume STACK       end the operation that is in progress on the stack\
\n  load N             create or update the stack load-N by a template of N records,\
\n                     1 to 500, each of which needs the one of half its number\
\n  describe STACK     tell the stack that the journal leaves\
\n  events STACK       tell what became of the stack, a line for each entry of the\
\n                     journal that concerns it\
\n  list               tell all stacks that are not deleted\
\n  create-change-set STACK TEMPLATE NAME=VALUE ..\
\n                     tell what deploy with these words would change, and keep it\
\n                     as a change set of the stack\
\n  describe-change-set STACK NUMBER\
\n                     tell the change set\
\n  execute-change-set STACK NUMBER\
\n                     do what the change set tells\
\n  validate TEMPLATE  say whether the template HOME/templates/TEMPLATE can be read\
\n\
\nexits:\
\n   0 Done             the stack is created or updated, the rollback that was\
\n                      continued is done, the stack, its events or all stacks are\
\n                      told; the template can be read\
\n   1 BadWords         the command line says nothing that is known\
\n   2 TemplateRefused  no template, or one that can't be made; nothing was done\
\n   3 StackRefused     no such stack, not from its status, not at this path, or nothing\
\n                      changes; nothing was done\
\n   4 RolledBack       the stack could not be created, and what was made is deleted;\
\n                      or it could not be updated, and is as it was before\
\n   5 Failed           the same, but its rollback failed too, at the paths that are told\
\n   6 LibraryFault     the templates can't be read\
\n   7 DiskFault        the journal can't be opened, read or written, or another\
\n                      command has it\
\n   8 SinkFault        the report can't be printed\
\n   9 NoMemory         memory was not there\
\n  10 NotAJournal      the disk holds something else than a journal\
\n  11 LaneMissing      a lane that the journal needs is not there\
\n  11 LaneTwice        two lanes have one name\
\n  12 LaneAhead        a lane takes no calls of this opening, only of later ones\
\n  13 LaneFault        a lane failed as the journal was opened\
\n  14 Full             the journal has no room for its next entry\n";

fn main(rt: HostRuntime) -> ExitCode {
    let mut out = StdoutSink::new(rt, io::writer(&rt));
    let exit = match words_of(&rt) {
        Ok(words) => start(rt, words.as_slice(), &mut out),
        Err(exit) => print_exit(rt.alloc(), &mut out, exit),
    };
    ExitCode::from(exit.number())
}

/// A lane of the program.
type ProgramLane = Watched<HostRuntime, Shipped<HostRuntime>>;

/// Does what the whole command line says, over the templates and the journal of the folder that it names. Where its first word is
/// `--progress`, it does what the words behind that say, and calls are told.
fn start<K: Sink>(rt: HostRuntime, words: &[Txt], out: &mut K) -> Exit
    ensures { StartsAs folder_of journal_path lane_store ⟦<FolderLibrary<HostRuntime> as Library>⟧
        ⟦<FileDisk<RealFile<HostRuntime>> as Disk>⟧ ⟦<ProgramLane as Handler>⟧ (record { held = K.held out.old; held' = K.held out.new; faults = K.count out.old; faults' = K.count out.new })
        (behind_progress words.now) result }
{
    let is_told = asks_progress(words);
    start_line(rt, behind_progress(words), is_told, out)
}

/// Does what a command line says that begins with its folder. Its calls are told or not.
fn start_line<K: Sink>(rt: HostRuntime, words: &[Txt], is_told: bool, out: &mut K) -> Exit
    ensures { StartsAs folder_of journal_path lane_store ⟦<FolderLibrary<HostRuntime> as Library>⟧
        ⟦<FileDisk<RealFile<HostRuntime>> as Disk>⟧ ⟦<ProgramLane as Handler>⟧ (record { held = K.held out.old; held' = K.held out.new; faults = K.count out.old; faults' = K.count out.new })
        words.now result }
{
    let alloc = rt.alloc();
    match (
        templates_of(rt, words),
        journal_of(rt, words),
        lanes_of(rt, words, is_told),
    ) {
        (Ok(mut library), Ok(disk), Ok(lanes)) => {
            exit_of(run(alloc, words, &mut library, out, disk, lanes))
        }
        _ => print_exit(alloc, out, Exit::NoMemory),
    }
}

/// The templates of the folder that the words name first. Nothing is asked of them yet.
fn templates_of(rt: HostRuntime, words: &[Txt]) -> Result<FolderLibrary<HostRuntime>, NoMemory>
    ensures home { IfOk result (λ library. folder_of library ≡ folder_named words.now) }
    ensures faults { IfOk result (λ library. ⟦<FolderLibrary<HostRuntime> as Library>⟧.count library ≡ 0) }
    ensures misses { IfOk result (λ library. ⟦<FolderLibrary<HostRuntime> as Library>⟧.missed library ≡ 0) }
{
    let folder = name_folder(rt.alloc(), home_of(words))?;
    Ok(FolderLibrary::new(rt, folder))
}

/// The disk over the journal of the folder that the words name first. It is not opened yet.
fn journal_of(rt: HostRuntime, words: &[Txt]) -> Result<FileDisk<RealFile<HostRuntime>>, NoMemory>
    ensures home { IfOk result (λ disk. journal_path disk ≡ journal_named words.now) }
    ensures faults { IfOk result (λ disk. ⟦<FileDisk<RealFile<HostRuntime>> as Disk>⟧.count disk ≡ 0) }
{
    let file = RealFile::new(rt, home_of(words), "journal")?;
    Ok(FileDisk::new(file))
}

/// The folder that the words name first.
fn home_of(words: &[Txt]) -> &str
    ensures { result.now ≡ home_named words.now }
{
    match words.first() {
        Some(home) => home.as_str(),
        None => "",
    }
}

/// The folder of the templates of this folder.
fn name_folder(alloc: Global, home: &str) -> Result<String, NoMemory>
    ensures { IfOk result (λ folder. string_bytes folder ≡ home.now ++ codes "/templates") }
{
    let mut folder = String::from_str(alloc, home)?;
    folder.push_str("/templates")?;
    Ok(folder)
}

/// The words of the command line behind the program's name.
fn words_of(rt: &HostRuntime) -> Result<Vec<Txt>, Exit>
    ensures { IfErr result IsWordless }
{
    let args = match env::args(rt) {
        Ok(args) => args,
        Err(error) => {
            return Err(if error.kind() == ErrorKind::OutOfMemory {
                Exit::NoMemory
            } else {
                Exit::BadWords
            });
        }
    };
    let mut words = Vec::new(rt.alloc());
    for word in args.skip(1) {
        if words.push(Txt::new(word)).is_err() {
            return Err(Exit::NoMemory);
        }
    }
    Ok(words)
}

/// Does what the whole command line says over a library of templates, a disk and lanes, and gives back how that ended, with the disk and
/// the lanes. Where nothing was run it answers the exit alone: of `--help` and `--version`, and of words that are no command line
/// (`bad_words`).
///
/// A command line in form comes to what `cfstack` says of the words behind HOME and WORKERS. Disk and lanes agree after it where they
/// agreed before; so they do where they were new (`runs`).
fn run<L: Library, K: Sink, D: Disk + Send + Drop, H: Handler + Send + Drop>(
    alloc: Global,
    words: &[Txt],
    library: &mut L,
    out: &mut K,
    disk: D,
    lanes: Vec<H>,
) -> Result<Ended<D, H>, Exit>
    requires least { 16 ≤ D.room_of disk }
    requires most { D.room_of disk ≤ 2 ^ 32 }
    ensures same { L.texts library.new ≡ L.texts library.old }
    ensures bad_words { is_command_line words.now ≡ false → IsNoCommandLine (record {
      texts = L.texts library.old;
      faults = L.count library.old;
      faults' = L.count library.new;
      misses = L.missed library.old;
      misses' = L.missed library.new;
    })
        (record { held = K.held out.old; held' = K.held out.new; faults = K.count out.old; faults' = K.count out.new }) result }
    ensures runs { (home workers : List ℕ) (rest : List (List ℕ)) → words.now ≡ home ∷ workers ∷ rest
        → is_in_form home workers words.now ≡ true → RunsAs D.Disk H.Handler (record {
          texts = L.texts library.old;
          faults = L.count library.old;
          faults' = L.count library.new;
          misses = L.missed library.old;
          misses' = L.missed library.new;
        })
        (record { held = K.held out.old; held' = K.held out.new; faults = K.count out.old; faults' = K.count out.new })
        disk lanes.items rest result }
{
    match words {
        [word] if word.is("--help") => Err(print_text(out, USAGE)),
        [word] if word.is("--version") => Err(print_text(out, VERSION)),
        [home, workers, rest @ ..] if is_in_form(home, words) => match read_workers(workers) {
            Some(workers) => Ok(run_on(alloc, workers, rest, library, out, disk, lanes)),
            None => Err(print_exit(alloc, out, Exit::BadWords)),
        },
        _ => Err(print_exit(alloc, out, Exit::BadWords)),
    }
}

/// The exit, whether anything was run or not.
fn exit_of<D: Drop, H: Drop>(ran: Result<Ended<D, H>, Exit>) -> Exit
    ensures { result ≡ exit_of ran }
{
    match ran {
        Ok(
            Ended {
                exit,
                disk: _,
                lanes: _,
            },
        ) => exit,
        Err(exit) => exit,
    }
}

/// Whether the folder is in form and the words are few enough.
fn is_in_form(home: &Txt, words: &[Txt]) -> bool
    ensures { result ≡ (nat_lt 0 (length home.now) && are_short words.now) }
{
    !home.as_str().is_empty() && are_short(words)
}

/// Whether the words have fewer than 2^30 bytes together.
fn are_short(words: &[Txt]) -> bool
    ensures { result ≡ are_short words.now }
{
    let mut total: usize = 0;
    for word in words {
        total = total.saturating_add(word.as_str().len());
    }
    total < MOST_BYTES
}

/// Does what the words say over a library, a disk and lanes.
fn run_on<L: Library, K: Sink, D: Disk + Send, H: Handler + Send>(
    alloc: Global,
    workers: u32,
    words: &[Txt],
    library: &mut L,
    out: &mut K,
    disk: D,
    lanes: Vec<H>,
) -> Ended<D, H>
    requires least { 16 ≤ D.room_of disk }
    requires most { D.room_of disk ≤ 2 ^ 32 }
    ensures same { L.texts library.new ≡ L.texts library.old }
    ensures runs { IsRun D.Disk H.Handler (record {
      texts = L.texts library.old;
      faults = L.count library.old;
      faults' = L.count library.new;
      misses = L.missed library.old;
      misses' = L.missed library.new;
    })
        (record { held = K.held out.old; held' = K.held out.new; faults = K.count out.old; faults' = K.count out.new })
        disk lanes.items words.now result }
{
    cfstack(alloc, words, workers, library, out, disk, lanes)
}

/// The lanes over the folder that the words name first, two for files and two for records. Nothing of them is opened yet.
fn lanes_of(rt: HostRuntime, words: &[Txt], is_told: bool) -> Result<Vec<ProgramLane>, NoMemory>
    ensures new { IfOk result (λ lanes. AreNew ⟦<ProgramLane as Handler>⟧ lanes.items) }
    ensures home { IfOk result (λ lanes. map lane_store lanes.items ≡ stores_named words.now) }
{
    let home = home_of(words);
    let mut lanes = Vec::new(rt.alloc());
    lanes.push(files_lane(rt, home, "files1", is_told)?)?;
    lanes.push(files_lane(rt, home, "files2", is_told)?)?;
    lanes.push(records_lane(rt, home, "records1", is_told)?)?;
    lanes.push(records_lane(rt, home, "records2", is_told)?)?;
    Ok(lanes)
}

/// A lane of files of this folder, of which nothing was asked yet.
fn files_lane(
    rt: HostRuntime,
    home: &str,
    name: &str,
    is_told: bool,
) -> Result<ProgramLane, NoMemory>
    requires { IsTrue (is_lane_name name.now) }
    ensures new { IfOk result (λ lane. lane_with ⟦<ProgramLane as Handler>⟧ lane [] ≡ untold_lane name.now file_schema) }
    ensures home { IfOk result (λ lane. lane_store lane ≡ under home.now (codes "files")) }
{
    Ok(Watched::new(rt, Shipped::files(rt, home, name)?, is_told))
}

/// A lane of records of this folder, of which nothing was asked yet.
fn records_lane(
    rt: HostRuntime,
    home: &str,
    name: &str,
    is_told: bool,
) -> Result<ProgramLane, NoMemory>
    requires { IsTrue (is_lane_name name.now) }
    ensures new { IfOk result (λ lane. lane_with ⟦<ProgramLane as Handler>⟧ lane [] ≡ untold_lane name.now record_schema) }
    ensures home { IfOk result (λ lane. lane_store lane ≡ under home.now (codes "records")) }
{
    Ok(Watched::new(rt, Shipped::records(rt, home, name)?, is_told))
}

//! The handler of files.
ghost use Rattle.std.specs.Prelude.{◌≡◌, IsTrue, IfOk, codes, string_bytes};
ghost use Rattle.cf_handler.specs.Name.{is_lane_name};
ghost use Rattle.cf_handler.specs.Shipped.{file_schema};
ghost use Rattle.cf_answers.specs.Fits.{FitsLane};
ghost use Rattle.cf_tokens.specs.Places.{folder_at, folder_of};
ghost use Rattle.cf_tokens.specs.Under.{under};
ghost use Rattle.cf_files.specs.Paths.{is_path};

use crate::folder::{put_in_free_place, put_in_place, remove, stands, write_new};
use crate::paths::{content_of, file_answer, is_path, path_of, text_at};
use cf_handler::{Handler, Settlement, file_schema};
use cf_schema::Schema;
use cf_tokens::{Gate, Place, Stores, System, Table, TableHandler, Trouble, noted};
use cf_tree::{Answer, Code, NoMemory, Request, Txt};
use std::alloc::{AllocError, Global};

/// The name of a file that is written before it takes its place.
const NEW: &str = ".new";

/// Each resource is a file of the folder, named by its `Path`, that holds its `Content`.
///
/// What a call changes is settled first: the next content stands in a file of its own and is synced, then the row is durable, and then
/// the file takes its place, or goes. Where a crash or a fault comes between, the next call on the folder, of whichever lane, does it
/// before anything else, so that it never meets what a later call made.
///
/// What other hands put in the folder is no resource. A creation is refused where it stands in the way, and never takes its place: where
/// it was put there after the row was written, each call on the folder is a fault until it is moved away.
#[derive(Clone, Copy, Debug)]
pub struct FolderFiles;

/// The handler of the files of a lane. They stand in `HOME/files`.
pub type FilesHandler<R> = TableHandler<R, FolderFiles>;

/// The paths of a change of a file.
#[derive(Drop)]
struct Change {
    new: String,
    path: String,
}

impl Change {
    // The change of the file of this name. No path outside the folder is made of such a name, and none that the folder needs itself.
    fn new(alloc: Global, place: &Place, name: &str) -> Result<Change, AllocError>
        requires { IsTrue (is_path name.now) }
        ensures path { IfOk result (λ c. string_bytes c.path ≡ under (folder_at place.now) name.now) }
        ensures new { IfOk result (λ c. string_bytes c.new ≡ under (folder_at place.now) (codes ".new")) }
    {
        let new = place.path_of(alloc, NEW)?;
        let path = place.path_of(alloc, name)?;
        Ok(Change { new, path })
    }

    // Writes what the file is to hold next, where it is to hold something.
    fn prepare<R: System>(&self, rt: &R, request: &Request) -> Result<(), Trouble> {
        let new = self.new.as_str();
        match content_of(request) {
            Some(content) => noted(rt, new, write_new(rt, new, content)),
            None => Ok(()),
        }
    }

    // Puts it in its place, or removes the file.
    fn finish<R: System>(&self, rt: &R, folder: &str, request: &Request) -> Result<(), Trouble> {
        let new = self.new.as_str();
        let path = self.path.as_str();
        let done = match request {
            Request::Create { kind: _, props } => {
                put_in_free_place(rt, folder, new, path, text_at(props, "Content"))
            }
            Request::Update {
                physical: _,
                props: _,
            } => put_in_place(rt, folder, new, path),
            Request::Delete { physical: _ } => remove(rt, folder, path),
        };
        noted(rt, path, done)
    }
}

// The change of the file of this name, as the table tells it.
fn change_of<R: System>(rt: &R, table: &Table, name: &str) -> Result<Change, Trouble> {
    if !is_path(name) {
        return Err(table.damaged(rt));
    }
    Ok(Change::new(rt.alloc(), table.place(), name)?)
}

// Does what the last row left undone, but for the mark.
fn do_undone<R: System>(rt: &R, table: &Table) -> Result<(), Trouble> {
    match table.known().undone() {
        Some(undone) => {
            let change = change_of(rt, table, undone.path.as_str())?;
            change.prepare(rt, &undone.request)?;
            change.finish(rt, table.place().folder(), &undone.request)
        }
        None => Ok(()),
    }
}

// Whether a creation would stand in the place of something.
fn is_in_the_way<R: System>(rt: &R, change: &Change, request: &Request) -> Result<bool, Trouble> {
    match request {
        Request::Create { kind: _, props: _ } => {
            noted(rt, change.path.as_str(), stands(rt, change.path.as_str()))
        }
        Request::Update {
            physical: _,
            props: _,
        } => Ok(false),
        Request::Delete { physical: _ } => Ok(false),
    }
}

// Settles a token by a refusal.
fn refuse<R: System>(
    rt: &R,
    name: &Txt,
    table: &mut Table,
    token: u64,
    request: &Request,
    code: Code,
) -> Result<Answer, Trouble>
    ensures { IfOk result (λ a. FitsLane name.now request.now a) }
{
    let settlement = Settlement::Failed { code };
    let answer = table.answer(rt, name, token, request, &settlement)?;
    let path = Txt::new(String::new(rt.alloc()));
    table.settle(rt, Gate::Done, &path, token, request, &settlement)?;
    Ok(answer)
}

// Settles a token by a success, and does what it says.
fn succeed<R: System>(
    rt: &R,
    name: &Txt,
    table: &mut Table,
    token: u64,
    request: &Request,
    settlement: &Settlement,
) -> Result<Answer, Trouble>
    ensures { IfOk result (λ a. FitsLane name.now request.now a) }
{
    let path = Txt::from_str(rt.alloc(), path_of(table.known().met(request), request))?;
    let change = change_of(rt, table, path.as_str())?;
    if is_in_the_way(rt, &change, request)? {
        return refuse(rt, name, table, token, request, Code::AlreadyExists);
    }
    let answer = table.answer(rt, name, token, request, settlement)?;
    change.prepare(rt, request)?;
    table.settle(rt, Gate::Settled, &path, token, request, settlement)?;
    change.finish(rt, table.place().folder(), request)?;
    table.mark_last(rt)?;
    Ok(answer)
}

impl Stores for FolderFiles {
    fn finish<R: System>(&self, rt: &R, table: &mut Table) -> Result<(), Trouble> {
        do_undone(rt, table)?;
        table.mark_undone(rt)
    }

    fn settle<R: System>(
        &self,
        rt: &R,
        name: &Txt,
        schema: &Schema,
        table: &mut Table,
        token: u64,
        request: &Request,
    ) -> Result<Answer, Trouble> {
        let live = table.known().met(request);
        match file_answer(rt.alloc(), schema, name, token, live, request)? {
            Settlement::Failed { code } => refuse(rt, name, table, token, request, code),
            settlement => succeed(rt, name, table, token, request, &settlement),
        }
    }
}

/// The lane of files of this name in a home. Nothing is opened yet.
///
/// # Errors
/// Want of memory.
pub fn files_handler<R: System + Drop>(
    rt: R,
    home: &str,
    name: &str,
) -> Result<FilesHandler<R>, NoMemory>
    requires { IsTrue (is_lane_name name.now) }
    ensures label { IfOk result (λ h. ⟦<FilesHandler<R> as Handler>⟧.label h ≡ name.now) }
    ensures schema { IfOk result (λ h. ⟦<FilesHandler<R> as Handler>⟧.schema_of h ≡ file_schema) }
    ensures faultless { IfOk result (λ h. ⟦<FilesHandler<R> as Handler>⟧.count h ≡ 0) }
    ensures folder { IfOk result (λ h. folder_of h ≡ under home.now (codes "files")) }
{
    let alloc = rt.alloc();
    let place = Place::new(alloc, home, "files", ".rows")?;
    let schema = file_schema(alloc)?;
    TableHandler::new(rt, FolderFiles, place, name, schema)
}

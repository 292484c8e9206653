//! A table of a folder.
ghost use Rattle.std.specs.Prelude.{◌≡◌, IfOk, string_bytes};
ghost use Rattle.cf_answers.specs.Fits.{FitsLane};
ghost use Rattle.cf_tokens.specs.Under.{under};

use crate::file::{append_row, fill, length_of, open_table, set_gate};
use crate::known::{DONE, Known, SETTLED};
use crate::spell::{Unspelled, fence_row, settled_row};
use crate::system::System;
use crate::told::{Trouble, noted, tell};
use cf_answers::lane_answer;
use cf_handler::{Settled, Settlement};
use cf_tree::{Answer, NoMemory, Request, Txt};
use once_cell::race::OnceBox;
use std::alloc::{AllocError, Global};
use std::fs::File;
use std::io;

/// Whether what a settled call does stands in the folder.
#[derive(Clone, Copy, Debug, PartialEq, Eq)]
pub enum Gate {
    /// Not for sure.
    Settled,
    /// It does, or there is nothing to do.
    Done,
}

/// Where a table stands: the folder of it and of what its lanes store, and the folder that holds that one.
#[derive(Drop)]
pub struct Place {
    home: String,
    folder: String,
    path: String,
}

impl Place {
    ghost use Rattle.cf_tokens.specs.Places.{folder_at, path_at};

    /// The table of this name in a folder of `home`.
    ///
    /// # Errors
    /// Want of memory.
    pub fn new(alloc: Global, home: &str, folder: &str, name: &str) -> Result<Place, NoMemory>
        ensures folder { IfOk result (λ p. folder_at p ≡ under home.now folder.now) }
        ensures path { IfOk result (λ p. path_at p ≡ under (under home.now folder.now) name.now) }
    {
        let home = String::from_str(alloc, home)?;
        let folder = under(alloc, home.as_str(), folder)?;
        let path = under(alloc, folder.as_str(), name)?;
        Ok(Place { home, folder, path })
    }

    /// The folder.
    pub fn folder(&self) -> &str {
        self.folder.as_str()
    }

    /// The table's own path.
    pub fn path(&self) -> &str {
        self.path.as_str()
    }

    /// The path of a file of the folder.
    ///
    /// # Errors
    /// Want of memory.
    pub fn path_of(&self, alloc: Global, name: &str) -> Result<String, AllocError>
        ensures { IfOk result (λ path. string_bytes path ≡ under (folder_at self.now) name.now) }
    {
        under(alloc, self.folder.as_str(), name)
    }
}

// The path of what has this name in a folder.
fn under(alloc: Global, folder: &str, name: &str) -> Result<String, AllocError>
    ensures { IfOk result (λ path. string_bytes path ≡ under folder.now name.now) }
{
    let mut path = String::from_str(alloc, folder)?;
    path.push('/')?;
    path.push_str(name)?;
    Ok(path)
}

/// The table of a folder, as one of its lanes uses it. It is opened, and made where it is not there, at the first call.
///
/// All lanes of a folder share its table. Each call holds the lock of the table's file, first reads the rows that are new, and writes
/// its own row behind them, so that the rows stand in the order in which the calls were made.
#[derive(Drop)]
pub struct Table {
    alloc: Global,
    place: Place,
    file: OnceBox<File>,
    unsure: bool,
    known: Known,
}

/// Whether a table that had rows up to this place has lost some of them.
pub(crate) fn is_cut_short(length: u64, end: u64) -> bool {
    0 < end && length <= end
}

// The table's file, once it is open.
fn opened(file: &OnceBox<File>) -> io::Result<&File> {
    match file.get() {
        Some(file) => Ok(file),
        None => Err(io::Error::other("not open")),
    }
}

fn locked(file: &OnceBox<File>) -> io::Result<()> {
    opened(file)?.lock()
}

fn unlocked(file: &OnceBox<File>) -> io::Result<()> {
    opened(file)?.unlock()
}

fn length_now(file: &OnceBox<File>) -> io::Result<u64> {
    length_of(opened(file)?)
}

fn filled(file: &OnceBox<File>, at: u64, bytes: &mut [u8]) -> io::Result<()> {
    fill(opened(file)?, at, bytes)
}

fn synced(file: &OnceBox<File>) -> io::Result<()> {
    opened(file)?.sync_all()
}

fn appended(file: &OnceBox<File>, at: u64, gate: u8, row: &[u8]) -> io::Result<()> {
    append_row(opened(file)?, at, gate, row)
}

fn gated(file: &OnceBox<File>, at: u64, gate: u8) -> io::Result<()> {
    set_gate(opened(file)?, at, gate)
}

impl Table {
    /// The table at this place, as the lane of this name uses it. Nothing is opened yet.
    pub fn new(alloc: Global, place: Place, name: Txt) -> Table
        ensures { result.place ≡ place }
    {
        Table {
            alloc,
            place,
            file: OnceBox::new(alloc),
            unsure: true,
            known: Known::new(alloc, name),
        }
    }

    /// Where it stands.
    pub fn place(&self) -> &Place {
        &self.place
    }

    /// What its rows say, as far as they were read.
    pub fn known(&self) -> &Known {
        &self.known
    }

    // Where the gate of the next row stands.
    fn end(&self) -> u64 {
        self.known.end()
    }

    // Opens it, where it is not open.
    fn open<R: System>(&mut self, rt: &R) -> Result<(), Trouble> {
        if self.file.get().is_some() {
            return Ok(());
        }
        let file = noted(
            rt,
            self.place.path.as_str(),
            open_table(
                rt,
                self.place.home.as_str(),
                self.place.folder.as_str(),
                self.place.path.as_str(),
            ),
        )?;
        let Ok(kept) = Box::new(self.alloc, file) else {
            return Err(Trouble::NoMemory);
        };
        match self.file.set(kept) {
            Ok(()) => Ok(()),
            Err(again) => {
                drop(again);
                Ok(())
            }
        }
    }

    /// Takes the table for one call: opens it, where it is not open, and waits for its lock.
    ///
    /// # Errors
    /// Want of memory, or a fault, which was told. The lock is not held then.
    pub fn take<R: System>(&mut self, rt: &R) -> Result<(), Trouble> {
        self.open(rt)?;
        noted(rt, self.place.path.as_str(), locked(&self.file))
    }

    /// Gives the table back after the call.
    ///
    /// # Errors
    /// A fault, which was told.
    pub fn give<R: Eprint>(&mut self, rt: &R) -> Result<(), Trouble> {
        noted(rt, self.place.path.as_str(), unlocked(&self.file))
    }

    // The bytes that are new, of which so many are there.
    fn read_new<R: Eprint>(&self, rt: &R, length: u64) -> Result<Vec<u8>, Trouble> {
        let size = length.saturating_sub(self.known.end()) as usize;
        let mut bytes = Vec::new(self.alloc);
        bytes.resize(size, 0)?;
        noted(
            rt,
            self.place.path.as_str(),
            filled(&self.file, self.known.end(), bytes.as_mut_slice()),
        )?;
        Ok(bytes)
    }

    /// Tells that the table is not as it was left.
    pub fn damaged<R: Eprint>(&self, rt: &R) -> Trouble {
        tell(rt, self.place.path.as_str(), "the table is damaged")
    }

    /// The answer of a token that is settled so.
    ///
    /// # Errors
    /// Want of memory, or a fault, which was told: the lane can't have answered so.
    pub fn answer<R: Eprint>(
        &self,
        rt: &R,
        name: &Txt,
        token: u64,
        request: &Request,
        settlement: &Settlement,
    ) -> Result<Answer, Trouble>
        ensures { IfOk result (λ a. FitsLane name.now request.now a) }
    {
        match lane_answer(self.alloc, name.as_str(), token, request, settlement)? {
            Some(answer) => Ok(answer),
            None => Err(self.damaged(rt)),
        }
    }

    /// The answer of a settled token, once more.
    ///
    /// # Errors
    /// Want of memory, or a fault, which was told: another call settled the token, or the lane can't have answered so.
    pub fn repeat<R: Eprint>(
        &self,
        rt: &R,
        name: &Txt,
        token: u64,
        request: &Request,
        settled: &Settled,
    ) -> Result<Answer, Trouble>
        ensures { IfOk result (λ a. FitsLane name.now request.now a) }
    {
        if settled.request != *request {
            let path = self.place.path.as_str();
            return Err(tell(rt, path, "the token is that of another call"));
        }
        self.answer(rt, name, token, request, &settled.settlement)
    }

    // Reads the rows that are new.
    fn read_rows<R: Eprint>(&mut self, rt: &R) -> Result<(), Trouble> {
        let length = noted(rt, self.place.path.as_str(), length_now(&self.file))?;
        if is_cut_short(length, self.known.end()) {
            return Err(tell(rt, self.place.path.as_str(), "the table is cut short"));
        }
        if length == 0 {
            return Ok(());
        }
        let bytes = self.read_new(rt, length)?;
        if self.known.learn_rows(bytes.as_slice())? {
            Ok(())
        } else {
            Err(self.damaged(rt))
        }
    }

    // Sets the gate at a place.
    fn put_gate<R: Eprint>(&self, rt: &R, at: u64, gate: u8) -> Result<(), Trouble> {
        noted(rt, self.place.path.as_str(), gated(&self.file, at, gate))
    }

    // Writes the gate of the last row again. Where the sync behind it failed, in whichever process, the system may have it in its
    // copies alone, and take it for written. Nothing else can be so: the row itself was synced before its gate was written, and so were
    // the rows before it, with their gates.
    fn write_last_again<R: Eprint>(&self, rt: &R) -> Result<(), Trouble> {
        match self.known.last_gate() {
            Some((at, gate)) => self.put_gate(rt, at, gate),
            None => Ok(()),
        }
    }

    /// Reads the rows that are new. At the first call, where an append or a sync failed before, and where something is undone, it makes
    /// sure that a crash leaves them; else the next row's first sync does it.
    ///
    /// # Errors
    /// Want of memory, or a fault, which was told: of the system, or of a table that lost rows or has what is none.
    pub fn catch_up<R: Eprint>(&mut self, rt: &R) -> Result<(), Trouble> {
        self.read_rows(rt)?;
        self.write_last_again(rt)?;
        if self.unsure || self.known.undone().is_some() {
            noted(rt, self.place.path.as_str(), synced(&self.file))?;
            self.unsure = false;
        }
        Ok(())
    }

    // Appends a row.
    fn append<R: Eprint>(&mut self, rt: &R, gate: Gate, row: &[u8]) -> Result<(), Trouble> {
        let gate = match gate {
            Gate::Settled => SETTLED,
            Gate::Done => DONE,
        };
        self.unsure = true;
        noted(
            rt,
            self.place.path.as_str(),
            appended(&self.file, self.known.end(), gate, row),
        )?;
        self.unsure = false;
        Ok(())
    }

    // What became of the spelling of a row.
    fn spelled<R: Eprint>(
        &self,
        rt: &R,
        row: Result<Vec<u8>, Unspelled>,
    ) -> Result<Vec<u8>, Trouble> {
        match row {
            Ok(row) => Ok(row),
            Err(Unspelled::NoMemory) => Err(Trouble::NoMemory),
            Err(Unspelled::TooLong) => {
                Err(tell(rt, self.place.path.as_str(), "a row is too long"))
            }
        }
    }

    /// Settles a token of the lane. From then on a crash leaves it settled.
    ///
    /// # Errors
    /// Want of memory before anything is written, or a fault, which was told: the token is settled then, or it is not.
    pub fn settle<R: Eprint>(
        &mut self,
        rt: &R,
        gate: Gate,
        path: &Txt,
        token: u64,
        request: &Request,
        settlement: &Settlement,
    ) -> Result<(), Trouble> {
        let row = self.spelled(
            rt,
            settled_row(
                self.alloc,
                self.known.name(),
                path,
                token,
                request,
                settlement,
            ),
        )?;
        self.append(rt, gate, row.as_slice())
    }

    /// Raises the fence of the lane, whose resources are of this type. From then on a crash leaves it there.
    ///
    /// # Errors
    /// As `settle`.
    pub fn raise<R: Eprint>(&mut self, rt: &R, kind: &Txt, epoch: u64) -> Result<(), Trouble> {
        let row = self.spelled(rt, fence_row(self.alloc, self.known.name(), kind, epoch))?;
        self.append(rt, Gate::Done, row.as_slice())
    }

    /// Notes that what was just settled stands in the folder.
    ///
    /// # Errors
    /// A fault, which was told.
    pub fn mark_last<R: Eprint>(&mut self, rt: &R) -> Result<(), Trouble> {
        self.put_gate(rt, self.end(), DONE)
    }

    /// Notes that what was undone stands in the folder now.
    ///
    /// # Errors
    /// A fault, which was told.
    pub fn mark_undone<R: Eprint>(&mut self, rt: &R) -> Result<(), Trouble> {
        let at = match self.known.undone() {
            Some(undone) => undone.at,
            None => return Ok(()),
        };
        self.put_gate(rt, at, DONE)?;
        self.known.forget_undone();
        Ok(())
    }
}

//! What a stack holds, and what is open or left over.
ghost use Rattle.std.specs.Prelude.{◌≡◌, IfOk};

use crate::copies::copy_into;
use cf_entry::Why;
use cf_tree::{Deletion, Dict, Names, Replace, Request, Rows, Source, TryClone, Txt};
use std::alloc::{AllocError, Global};

/// The status of a held resource (User Guide, resource status codes).
#[derive(Clone, Copy)]
pub enum HeldStatus {
    CreateComplete,
    UpdateComplete,
    UpdateFailed,
    DeleteFailed,
}

/// A resource on a stack's list.
#[derive(Drop)]
pub struct Held {
    pub path: Txt,
    pub kind: Txt,
    pub physical: Txt,
    pub props: Dict,
    pub attrs: Dict,
    /// The paths that it needs.
    pub needs: Names,
    pub deletion: Deletion,
    pub replace: Replace,
    pub status: HeldStatus,
    /// Its live properties are not known, since a continued rollback skipped it.
    pub unsure: bool,
    /// While an update cleans up: it was replaced or removed, and is no longer the resource of its
    /// path.
    pub superseded: bool,
}

/// A resource that a stack made and no longer holds: retained, failed to delete, or in doubt. The
/// physical id is `-` where it is not known.
#[derive(Drop)]
pub struct Leftover {
    pub path: Txt,
    pub physical: Txt,
    pub why: Why,
}

/// An open call: a request that was written down, and neither answered for good nor given up.
#[derive(Drop)]
pub struct Pending {
    pub token: u64,
    pub path: Txt,
    pub lane: Txt,
    pub request: Request,
}

/// A create that was given up while it was in doubt.
#[derive(Drop)]
pub struct GivenUp {
    pub token: u64,
    pub path: Txt,
}

/// A change set that is kept (User Guide, change sets).
#[derive(Drop)]
pub struct KeptSet {
    pub number: u64,
    pub source: Source,
    pub rows: Rows,
    /// Whether outputs differ or may differ.
    pub outputs: bool,
}

/// The resources of a stack.
pub type Helds = Vec<Held>;

/// What a stack left over.
pub type Leftovers = Vec<Leftover>;

/// The open calls of a stack, in the order of their intents.
pub type Pendings = Vec<Pending>;

/// The creates that a stack gave up.
pub type Abandoned = Vec<GivenUp>;

/// The change sets of a stack, in the order of their numbers.
pub type KeptSets = Vec<KeptSet>;

impl Held {
    /// A resource of which nothing is known; it takes no memory.
    fn blank(alloc: Global) -> Held {
        Held {
            path: Txt::new(String::new(alloc)),
            kind: Txt::new(String::new(alloc)),
            physical: Txt::new(String::new(alloc)),
            props: Dict::new(alloc),
            attrs: Dict::new(alloc),
            needs: Names::new(alloc),
            deletion: Deletion::Delete,
            replace: Replace::Delete,
            status: HeldStatus::CreateComplete,
            unsure: false,
            superseded: false,
        }
    }

    /// Makes another resource a copy of this one. After an error nothing is said of it.
    fn copy_into(&self, alloc: Global, copy: &mut Held) -> Result<(), AllocError>
        ensures { IfOk result (λ _. copy.new ≡ self.now) }
    {
        copy_into(alloc, &self.path, &mut copy.path)?;
        copy_into(alloc, &self.kind, &mut copy.kind)?;
        copy_into(alloc, &self.physical, &mut copy.physical)?;
        copy_into(alloc, &self.props, &mut copy.props)?;
        copy_into(alloc, &self.attrs, &mut copy.attrs)?;
        copy_into(alloc, &self.needs, &mut copy.needs)?;
        copy.deletion = self.deletion;
        copy.replace = self.replace;
        copy.status = self.status;
        copy.unsure = self.unsure;
        copy.superseded = self.superseded;
        Ok(())
    }
}

impl TryClone for Held {
    fn try_clone(&self, alloc: Global) -> Result<Held, AllocError> {
        let mut copy = Held::blank(alloc);
        match self.copy_into(alloc, &mut copy) {
            Ok(()) => Ok(copy),
            Err(failed) => {
                drop(copy);
                Err(failed)
            }
        }
    }
}

/// A leftover.
pub(crate) fn kept_leftover(
    alloc: Global,
    path: &Txt,
    physical: &str,
    why: Why,
) -> Result<Leftover, AllocError>
    ensures { IfOk result (λ l. l ≡ record { path = path.now; physical = physical.now; why = why }) }
{
    let path = path.try_clone(alloc)?;
    match Txt::from_str(alloc, physical) {
        Ok(physical) => Ok(Leftover {
            path,
            physical,
            why,
        }),
        Err(failed) => Err(failed),
    }
}

/// A call as an open one, by copies of its parts.
///
/// # Errors
///
/// Only for want of memory.
pub fn open_call(
    alloc: Global,
    token: u64,
    lane: &Txt,
    path: &Txt,
    request: &Request,
) -> Result<Pending, AllocError>
    ensures { IfOk result (λ p. p ≡ record { token = token; path = path.now; lane = lane.now; request = request.now }) }
{
    let path = path.try_clone(alloc)?;
    let lane = lane.try_clone(alloc)?;
    match request.try_clone(alloc) {
        Ok(request) => Ok(Pending {
            token,
            path,
            lane,
            request,
        }),
        Err(failed) => Err(failed),
    }
}

/// A create that is given up.
pub(crate) fn given_up(alloc: Global, token: u64, path: &Txt) -> Result<GivenUp, AllocError>
    ensures { IfOk result (λ g. g ≡ record { token = token; path = path.now }) }
{
    match path.try_clone(alloc) {
        Ok(path) => Ok(GivenUp { token, path }),
        Err(failed) => Err(failed),
    }
}

impl TryClone for Leftover {
    fn try_clone(&self, alloc: Global) -> Result<Leftover, AllocError> {
        kept_leftover(alloc, &self.path, self.physical.as_str(), self.why)
    }
}

impl TryClone for Pending {
    fn try_clone(&self, alloc: Global) -> Result<Pending, AllocError> {
        open_call(alloc, self.token, &self.lane, &self.path, &self.request)
    }
}

impl TryClone for GivenUp {
    fn try_clone(&self, alloc: Global) -> Result<GivenUp, AllocError> {
        given_up(alloc, self.token, &self.path)
    }
}

impl TryClone for KeptSet {
    fn try_clone(&self, alloc: Global) -> Result<KeptSet, AllocError> {
        let rows = self.rows.try_clone(alloc)?;
        match self.source.try_clone(alloc) {
            Ok(source) => Ok(KeptSet {
                number: self.number,
                source,
                rows,
                outputs: self.outputs,
            }),
            Err(failed) => Err(failed),
        }
    }
}

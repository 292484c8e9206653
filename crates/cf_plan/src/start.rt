//! A request that may begin, with its path.
ghost use Rattle.std.specs.Prelude.{◌≡◌, IfOk};
ghost use Rattle.cf_plan.specs.Asked.{request_of};

use cf_tree::{Dict, Listing, Request, TryClone, Txt};
use std::alloc::{AllocError, Global};
use std::marker::Model;

/// A request, by what it borrows.
#[derive(Drop)]
pub enum Ask<'a> {
    Create { kind: &'a Txt, props: &'a Dict },
    Update { physical: &'a Txt, props: &'a Dict },
    Delete { physical: &'a Txt },
}

/// A request that may begin, with its path; it borrows both, so that no request is copied before it is chosen.
#[derive(Drop)]
pub struct Start<'a> {
    path: &'a Txt,
    ask: Ask<'a>,
}

impl<'a> Model for Start<'a> {
    ghost use Rattle.cf_plan.specs.Start.{Start as Begun};

    ghost Value = { Begun };

    ghost use Rattle.std.specs.Coded.{codes};
    ghost use Rattle.cf_tree.specs.Datum.{data_code};

    ghost coded = { Prim.hlevel (codes, data_code) };

    ghost use Rattle.cf_plan.specs.Asked.{request_of};

    ghost view = { λ s. record { path = s.path.now; request = request_of s.ask } };
}

/// Requests that may begin.
pub type Starts<'a> = Listing<Start<'a>>;

/// A copy of a request.
fn copied(alloc: Global, ask: &Ask) -> Result<Request, AllocError>
    ensures { IfOk result (λ r. r ≡ request_of ask.now) }
{
    match ask {
        Ask::Create { kind, props } => {
            let kind = kind.try_clone(alloc)?;
            let props = props.try_clone(alloc)?;
            Ok(Request::Create { kind, props })
        }
        Ask::Update { physical, props } => {
            let physical = physical.try_clone(alloc)?;
            let props = props.try_clone(alloc)?;
            Ok(Request::Update { physical, props })
        }
        Ask::Delete { physical } => {
            let physical = physical.try_clone(alloc)?;
            Ok(Request::Delete { physical })
        }
    }
}

impl<'a> Start<'a> {
    /// A request that may begin at a path.
    pub fn new(path: &'a Txt, ask: Ask<'a>) -> Start<'a>
        ensures { result ≡ record { path = path.now; request = request_of ask.entry } }
    {
        Start { path, ask }
    }

    /// Its path.
    pub fn path(&self) -> &'a Txt
        ensures { result.now ≡ self.now.path }
    {
        self.path
    }

    /// The request, by what it borrows.
    pub fn ask(&self) -> &Ask<'a>
        ensures { request_of result.now ≡ self.now.request }
    {
        &self.ask
    }

    /// A copy of the request.
    ///
    /// # Errors
    ///
    /// Only for want of memory.
    pub fn request(&self, alloc: Global) -> Result<Request, AllocError>
        ensures { IfOk result (λ r. r ≡ self.now.request) }
    {
        copied(alloc, &self.ask)
    }
}

//! The live resources of all lanes of a folder.
ghost use Rattle.std.specs.Prelude.{◌≡◌, [], IsTrue, IfOk, OnErr};
ghost use Rattle.cf_answers.specs.Live.{lives, differ};

use crate::answer::is_apart;
use crate::live::{LiveResource, apply};
use cf_handler::Settlement;
use cf_tree::Request;
use std::alloc::{AllocError, Global};

/// Live resources, no two of which have one id.
#[derive(Drop)]
pub struct LiveSet {
    alloc: Global,
    live: Vec<LiveResource>,
    ghost apart: { IsTrue (differ (lives live.items)) },
}

impl LiveSet {
    ghost use Rattle.cf_answers.specs.Set.{changed_where, lives_in};

    /// None.
    pub fn new(alloc: Global) -> LiveSet
        ensures { lives_in result ≡ [] }
    {
        LiveSet {
            alloc,
            live: Vec::new(alloc),
        }
    }

    /// The resources, in the order in which they were made.
    pub fn as_slice(&self) -> &[LiveResource]
        ensures { lives result.now ≡ lives_in self.now }
    {
        self.live.as_slice()
    }

    /// Does what a settled call does. False where it makes what has the id of one already, and nothing is done then.
    ///
    /// # Errors
    /// Want of memory; nothing is done then.
    pub fn change(&mut self, request: &Request, settlement: &Settlement) -> Result<bool, AllocError>
        ensures ok { IfOk result (λ done. lives_in self.new ≡ changed_where done request.now settlement.now (lives_in self.old)) }
        ensures err { OnErr result (lives_in self.new ≡ lives_in self.old) }
    {
        if is_apart(self.live.as_slice(), request, settlement) {
            apply(self.alloc, &mut self.live, request, settlement)?;
            Ok(true)
        } else {
            Ok(false)
        }
    }
}

ghost use Rattle.std.specs.Prelude.{◌≡◌};

use crate::line::{Answered, Asked};
use cf_handler::{FenceAnswer, Handler};
use cf_schema::Schema;
use cf_tree::{Answer, Look, Request, Txt};
use std::fmt::Display;

/// A lane that passes on all that is asked of it. Where that was asked for, it tells each call on standard error, in a line as it is made
/// and in another as it is answered. Fences and looks are not told. A line that can't be written is lost, and changes nothing.
#[derive(Drop)]
pub struct Watched<R: Eprint + Drop, H: Handler + Drop> {
    rt: R,
    lane: H,
    is_told: bool,
}

impl<R: Eprint + Drop, H: Handler + Drop> Watched<R, H> {
    ghost use Rattle.cf_progress.specs.Watched.{within};

    /// A lane, of which the calls are told or not.
    pub fn new(rt: R, lane: H, is_told: bool) -> Watched<R, H>
        ensures label { ⟦<Watched<R, H> as Handler>⟧.label result ≡ H.label lane }
        ensures schema { ⟦<Watched<R, H> as Handler>⟧.schema_of result ≡ H.schema_of lane }
        ensures count { ⟦<Watched<R, H> as Handler>⟧.count result ≡ H.count lane }
        ensures told { ⟦<Watched<R, H> as Handler>⟧.told result ≡ H.told lane }
        ensures within { within result ≡ lane }
    {
        Watched { rt, lane, is_told }
    }
}

// A call of this lane.
fn asked_of<'a, H: Handler>(lane: &'a H, token: u64, request: &'a Request) -> Asked<'a> {
    Asked {
        lane: lane.name(),
        token,
        request,
    }
}

// Tells this of a call, where calls are told.
fn tell<R: Eprint, D: Display + Drop>(rt: &R, is_told: bool, line: D) {
    if is_told {
        match rt.eprintln(line) {
            Ok(()) => {}
            Err(_) => {}
        }
    }
}

impl<R: Eprint + Drop, H: Handler + Drop> Handler for Watched<R, H> {
    ghost label = { λ h. H.label h.lane };

    ghost schema_of = { λ h. H.schema_of h.lane };

    ghost count = { λ h. H.count h.lane };

    ghost told = { λ h. H.told h.lane };

    ghost answers = { λ h epoch token request new result. H.answers h.lane epoch token request new.lane result };

    fn name(&self) -> &str {
        self.lane.name()
    }

    fn schema(&self) -> &Schema {
        self.lane.schema()
    }

    fn faults(&self) -> u64 {
        self.lane.faults()
    }

    fn fence(&mut self, epoch: u64) -> FenceAnswer {
        self.lane.fence(epoch)
    }

    fn call(&mut self, epoch: u64, token: u64, request: &Request) -> Answer {
        tell(&self.rt, self.is_told, asked_of(&self.lane, token, request));
        let answer = self.lane.call(epoch, token, request);
        let asked = asked_of(&self.lane, token, request);
        tell(
            &self.rt,
            self.is_told,
            Answered {
                asked,
                answer: &answer,
            },
        );
        answer
    }

    fn read(&mut self, epoch: u64, physical: &Txt) -> Look {
        self.lane.read(epoch, physical)
    }
}

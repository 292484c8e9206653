//! What a handler in memory keeps of its resources.
ghost use Rattle.std.specs.Prelude.{◌≡◌, ℕ, [], ◌∷◌, ◌++◌, IsTrue, IfOk, IfSome, OnErr, None, find};
ghost use Rattle.std.specs.Coded.{Coded-set, coded_list};
ghost use Rattle.cf_handler.specs.Lane.{settlement_of, live_changed, live_of};
ghost use Rattle.cf_handler.specs.Look.{ShowsShort};
ghost use Rattle.cf_handler.specs.Move.{LaneMove, MaySettle};
ghost use Rattle.cf_handler.specs.Name.{is_lane_name};
ghost use Rattle.cf_fake.specs.Codes.{live_code};
ghost use Rattle.cf_answers.specs.Live.{lives, differ};
ghost use Rattle.cf_answers.specs.Noted.{are_noted};
ghost use Rattle.cf_fake.specs.Sound.{lane_of, AnswersInLane, IsSoundTable};
ghost use Rattle.cf_answers.specs.Table.{answer_to, is_of_id, look_at};
ghost use Rattle.cf_fake.specs.Refusable.{may_break};
ghost use Rattle.cf_fake.specs.Plan.{settled_by, told_by, IsWorked, new_entry};

use crate::planned::Break;
use crate::told::told_by;
use cf_answers::{LiveResource, Noted, answer_to, apply, look_at};
use cf_handler::{Settled, Settlement, settlement_of};
use cf_schema::Schema;
use cf_tree::{Answer, Look, NoMemory, Request, Txt};
use std::alloc::{AllocError, Global};

/// The resources of a handler in memory, and the tokens that are settled.
#[derive(Drop)]
pub struct Store {
    alloc: Global,
    pub name: Txt,
    pub schema: Schema,
    pub settled: Vec<Settled>,
    live: Vec<LiveResource>,
    noted: Noted,
    ghost named: { IsTrue (is_lane_name name) },
    ghost kept: { IsSoundTable name settled.items },
    ghost same: { lives live.items ≡ live_of (lane_of settled.items) } by { Coded-set (coded_list live_code) (lives live.items) (live_of (lane_of settled.items)) },
    ghost marked: { IsTrue (are_noted noted schema.create_only (lives live.items)) },
}

/// Settles a token and does to the live resources what that says. After an error both are as they were.
fn keep(
    alloc: Global,
    settled: &mut Vec<Settled>,
    live: &mut Vec<LiveResource>,
    token: u64,
    request: &Request,
    settlement: Settlement,
) -> Result<(), AllocError>
    requires { IsTrue (differ (lives live.old.items)) }
    ensures settled { IfOk result (λ _. settled.new.items ≡
        settled.old.items ++ record { token = token; request = request.now; settlement = settlement } ∷ []) }
    ensures live { IfOk result (λ _. lives live.new.items ≡ live_changed request.now settlement (lives live.old.items)) }
    ensures settled_before { OnErr result (settled.new.items ≡ settled.old.items) }
    ensures live_before { OnErr result (live.new.items ≡ live.old.items) }
{
    let kept = request.try_clone(alloc)?;
    settled.reserve(1)?;
    apply(alloc, live, request, &settlement)?;
    settled.push(Settled {
        token,
        request: kept,
        settlement,
    })?;
    Ok(())
}

impl Store {
    /// One in which nothing is live or settled.
    pub fn new(alloc: Global, name: &str, schema: Schema) -> Result<Store, NoMemory>
        requires { IsTrue (is_lane_name name.now) }
        ensures { IfOk result (λ s. (s.name ≡ name.now) × (s.schema ≡ schema) × (s.settled.items ≡ [])) }
    {
        Ok(Store {
            alloc,
            name: Txt::from_str(alloc, name)?,
            schema,
            settled: Vec::new(alloc),
            live: Vec::new(alloc),
            noted: Noted::new(alloc),
        })
    }

    /// What is live, in the order in which it was made.
    pub fn live(&self) -> &[LiveResource]
        ensures { lives result.now ≡ live_of (lane_of self.now.settled.items) }
    {
        self.live.as_slice()
    }

    /// What is shown of the resource of an id.
    pub fn look(&self, id: &Txt) -> Result<Look, AllocError>
        ensures value { IfOk result (λ l. l ≡ look_at (find (is_of_id id.now) (live_of (lane_of self.now.settled.items)))) }
        ensures limits { IfOk result ShowsShort }
    {
        look_at(self.alloc, self.live.as_slice(), id)
    }

    /// The live resources on which the answer to a request rests: none where it makes a new one that is surely none of them.
    fn met(&self, request: &Request) -> &[LiveResource]
        ensures { (token : ℕ) → answer_to self.now.schema self.now.name token (lives result.now) request.now
            ≡ answer_to self.now.schema self.now.name token (live_of (lane_of self.now.settled.items)) request.now }
    {
        if self.noted.is_new(&self.schema, request) {
            &[]
        } else {
            self.live.as_slice()
        }
    }

    /// The answer of the table to a new token.
    fn work(&self, token: u64, request: &Request) -> Result<Settlement, AllocError>
        ensures { IfOk result (λ s. s ≡ answer_to self.now.schema self.now.name token
            (live_of (lane_of self.now.settled.items)) request.now) }
    {
        answer_to(
            self.alloc,
            &self.schema,
            self.name.as_str(),
            token,
            self.met(request),
            request,
        )
    }

    /// What a new token is settled with.
    fn decide(
        &self,
        token: u64,
        request: &Request,
        planned: Option<Break>,
    ) -> Result<Settlement, AllocError>
        ensures { IfOk result (λ s. s ≡ settled_by planned (answer_to self.now.schema self.now.name token
            (live_of (lane_of self.now.settled.items)) request.now)) }
    {
        match planned {
            Some(Break::Refuse(code)) => Ok(Settlement::Failed { code }),
            _ => self.work(token, request),
        }
    }

    /// Settles a new token so.
    fn enter(
        &mut self,
        token: u64,
        request: &Request,
        settlement: Settlement,
    ) -> Result<(), AllocError>
        requires { IsSoundTable self.old.name
            (self.old.settled.items ++ record { token = token; request = request.now; settlement = settlement } ∷ []) }
        ensures stays { (self.new.name ≡ self.old.name) × (self.new.schema ≡ self.old.schema) }
        ensures ok { IfOk result (λ _. self.new.settled.items ≡
            self.old.settled.items ++ record { token = token; request = request.now; settlement = settlement } ∷ []) }
        ensures err { OnErr result (self.new.settled.items ≡ self.old.settled.items) }
    {
        self.noted.note_request(self.alloc, &self.schema, request)?;
        keep(
            self.alloc,
            &mut self.settled,
            &mut self.live,
            token,
            request,
            settlement,
        )
    }

    /// Settles a new token, whose call acts late. After an error nothing has changed.
    pub fn settle_late(&mut self, token: u64, request: &Request) -> Result<(), AllocError>
        requires { settlement_of token self.old.settled.items ≡ None }
        ensures stays { (self.new.name ≡ self.old.name) × (self.new.schema ≡ self.old.schema) }
        ensures ok { IfOk result (λ _. self.new.settled.items ≡ self.old.settled.items ++ new_entry None self.old.schema
            self.old.name token request.now self.old.settled.items ∷ []) }
        ensures may { MaySettle self.old.name (lane_of self.old.settled.items) request.now
            (answer_to self.old.schema self.old.name token (live_of (lane_of self.old.settled.items)) request.now) }
        ensures err { OnErr result (self.new.settled.items ≡ self.old.settled.items) }
    {
        let settlement = self.work(token, request)?;
        self.enter(token, request, settlement)
    }

    /// Settles a new token.
    fn settle(
        &mut self,
        token: u64,
        request: &Request,
        planned: Option<Break>,
    ) -> Result<Answer, AllocError>
        requires new { settlement_of token self.old.settled.items ≡ None }
        requires fits { IfSome planned (λ b. IsTrue (may_break b)) }
        ensures stays { (self.new.name ≡ self.old.name) × (self.new.schema ≡ self.old.schema) }
        ensures ok { IfOk result (λ a. (a ≡ told_by planned (new_entry planned self.old.schema self.old.name token request.now
            self.old.settled.items).settlement) × (self.new.settled.items ≡ self.old.settled.items ++ new_entry planned
            self.old.schema self.old.name token request.now self.old.settled.items ∷ [])) }
        ensures err { OnErr result (self.new.settled.items ≡ self.old.settled.items) }
    {
        let settlement = self.decide(token, request, planned)?;
        let answer = told_by(self.alloc, planned, &settlement)?;
        self.enter(token, request, settlement)?;
        Ok(answer)
    }

    /// The answer to a token that is worked: of a settled one again, or of a new one. After an error nothing has
    /// changed.
    pub fn answer(
        &mut self,
        token: u64,
        request: &Request,
        planned: Option<Break>,
    ) -> Result<Answer, AllocError>
        requires { IfSome planned (λ b. IsTrue (may_break b)) }
        ensures stays { (self.new.name ≡ self.old.name) × (self.new.schema ≡ self.old.schema) }
        ensures ok { IfOk result (λ a. IsWorked planned (settlement_of token self.old.settled.items)
            (new_entry planned self.old.schema self.old.name token request.now self.old.settled.items) self.old.settled.items
            self.new.settled.items a) }
        ensures moves { IfOk result (λ a. AnswersInLane self.old.name a × LaneMove self.old.name (lane_of
            self.old.settled.items) (lane_of self.new.settled.items) token request.now a) }
        ensures err { OnErr result (self.new.settled.items ≡ self.old.settled.items) }
    {
        match settlement_of(self.settled.as_slice(), token) {
            Some(settlement) => told_by(self.alloc, planned, settlement),
            None => self.settle(token, request, planned),
        }
    }
}

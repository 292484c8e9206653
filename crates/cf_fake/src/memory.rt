//! The handler in memory.
ghost use Rattle.std.specs.Prelude.{◌≡◌, ◌≤◌, [], IsTrue, IfOk, IfSome, Some, None, is_some};
ghost use Rattle.cf_handler.specs.Lane.{live_of};
ghost use Rattle.cf_handler.specs.Name.{is_lane_name};
ghost use Rattle.cf_handler.specs.Move.{HasCause};
ghost use Rattle.cf_handler.specs.Tells.{CallTells};
ghost use Rattle.cf_answers.specs.Live.{lives};
ghost use Rattle.cf_fake.specs.Sound.{lane_of, AnswersInLane};
ghost use Rattle.cf_fake.specs.Refusable.{may_break};
ghost use Rattle.cf_fake.specs.Plan.{counted};
ghost use Rattle.cf_fake.specs.Late.{lane_at, MovesBy};
ghost use Rattle.cf_fake.specs.Call.{AnswersByTable, IsAnswered};
ghost use Rattle.cf_fake.specs.Kept.{kept_of, IsSameButTables};

use crate::late::{act_due, put_aside};
use crate::plan::{Plan, break_at, breaks_fence};
use crate::planned::Break;
use crate::store::Store;
use crate::waiting::Waiting;
use cf_answers::LiveResource;
use cf_handler::{FenceAnswer, Handler};
use cf_schema::Schema;
use cf_tree::{Answer, Look, NoMemory, Request, Txt};
use std::alloc::{AllocError, Global};

/// A handler of one type that keeps its resources in memory.
///
/// A Create makes a resource whose id is the lane's name, a colon and the token in decimal. A Create or an Update is
/// refused as `InvalidRequest` where a property is none of the type's or read-only, a value is no text, a required
/// property is missing, or all encode to more than 262,144 bytes; a Create as `AlreadyExists` where the create-only
/// and conditional properties all equal those of a live resource, absent ones counted as equal; an Update or a Delete
/// of an id that is not live as `NotFound`; an Update as `NotUpdatable` where it changes a create-only property, or a
/// conditional one whose old value is the text `sealed`. The attributes are all properties, `Id`, and `Length`, the
/// bytes of `Content` if that property is there, else of `Value`. The calls of its plan are broken as that says, and so
/// is the first raising of its fence.
#[derive(Drop)]
pub struct MemoryHandler {
    alloc: Global,
    store: Store,
    waiting: Vec<Waiting>,
    plan: Plan,
    has_fenced: bool,
    calls: u64,
    faults: u64,
    fence: u64,
}

/// The count of refusals and faults after an answer.
fn faults_after(faults: u64, is_broken: bool, answer: &Answer) -> u64
    ensures value { result ≡ counted is_broken answer.now faults }
    ensures cause { HasCause faults result answer.now }
{
    match answer {
        Answer::Success {
            physical: _,
            attrs: _,
        } => {
            if is_broken {
                faults.saturating_add(1)
            } else {
                faults
            }
        }
        Answer::Failed { code: _ } => faults.saturating_add(1),
        Answer::Fault => faults.saturating_add(1),
        Answer::Stale { fence: _ } => faults,
        Answer::NoMemory => faults,
    }
}

impl MemoryHandler {
    /// A handler of that name for the type of the schema, in which nothing is live, and whose plan breaks calls.
    ///
    /// The name is a lane's: 1 to 64 letters, digits and hyphens. Where memory is wanting there is no handler.
    pub fn new(
        alloc: Global,
        name: &str,
        schema: Schema,
        plan: Plan,
    ) -> Result<MemoryHandler, NoMemory>
        requires { IsTrue (is_lane_name name.now) }
        ensures tells { IfOk result (λ h. (⟦<MemoryHandler as Handler>⟧.label h ≡ name.now)
            × (⟦<MemoryHandler as Handler>⟧.schema_of h ≡ schema)
            × (⟦<MemoryHandler as Handler>⟧.told h ≡ Some (record { state = record { base = []; settled = [] }; flying = []; fence = 0 }))
            × (⟦<MemoryHandler as Handler>⟧.count h ≡ 0)) }
        ensures plan { IfOk result (λ h. (h.plan ≡ plan) × (h.calls ≡ 0)) }
    {
        Ok(MemoryHandler {
            alloc,
            store: Store::new(alloc, name, schema)?,
            waiting: Vec::new(alloc),
            plan,
            has_fenced: false,
            calls: 0,
            faults: 0,
            fence: 0,
        })
    }

    /// What is live, in the order in which it was made.
    pub fn live(&self) -> &[LiveResource]
        ensures { lives result.now ≡ live_of (lane_of self.now.store.settled.items) }
    {
        self.store.live()
    }

    /// The answer to a call that the fence lets through, of which this is planned.
    fn answer_planned(
        &mut self,
        epoch: u64,
        token: u64,
        request: &Request,
        planned: Option<Break>,
    ) -> Result<Answer, AllocError>
        requires passes { self.old.fence ≤ epoch }
        requires fits { IfSome planned (λ b. IsTrue (may_break b)) }
        ensures stays { IsSameButTables self.old self.new }
        ensures table { IfOk result (AnswersByTable planned self.old.store.schema self.old.store.name self.old.calls
            self.old.fence epoch token request.now self.old.store.settled.items self.old.waiting.items self.new.store.settled.items
            self.new.waiting.items) }
        ensures moves { MovesBy self.old.store.name (lane_at self.old.store.settled.items self.old.waiting.items self.old.fence)
            (lane_at self.new.store.settled.items self.new.waiting.items self.new.fence) epoch token request.now result }
    {
        act_due(&mut self.store, &mut self.waiting, self.calls, self.fence)?;
        match planned {
            Some(Break::FaultBefore) => Ok(Answer::Fault),
            Some(Break::FaultLater(later)) => {
                let due = self.calls.saturating_add(later);
                put_aside(
                    self.alloc,
                    &self.store,
                    &mut self.waiting,
                    due,
                    epoch,
                    token,
                    request,
                )?;
                Ok(Answer::Fault)
            }
            _ => self.store.answer(token, request, planned),
        }
    }

    /// Answers a call that the fence lets through.
    fn answer_call(&mut self, epoch: u64, token: u64, request: &Request) -> Answer
        requires { self.old.fence ≤ epoch }
        ensures answers { IsAnswered (kept_of self.old) epoch token request.now (kept_of self.new) result }
        ensures cause { HasCause self.old.faults self.new.faults result }
        ensures moves { AnswersInLane self.old.store.name result × CallTells self.old.store.name
            (Some (lane_at self.old.store.settled.items self.old.waiting.items self.old.fence))
            (Some (lane_at self.new.store.settled.items self.new.waiting.items self.new.fence)) epoch token request.now result }
    {
        self.calls = self.calls.saturating_add(1);
        let planned = break_at(&self.plan, self.calls);
        let answer = match self.answer_planned(epoch, token, request, planned) {
            Ok(answer) => answer,
            Err(_) => Answer::NoMemory,
        };
        self.faults = faults_after(self.faults, planned.is_some(), &answer);
        answer
    }
}

impl Handler for MemoryHandler {
    ghost use Rattle.std.specs.Prelude.{Some};
    ghost use Rattle.cf_fake.specs.Late.{lane_at};
    ghost use Rattle.cf_handler.specs.Tells.{FenceTells, HasFenceCause};
    ghost use Rattle.cf_fake.specs.Call.{CallAnswers, fence_answer};
    ghost use Rattle.cf_fake.specs.Kept.{kept_of};

    ghost label = { λ h. h.store.name };

    ghost schema_of = { λ h. h.store.schema };

    ghost count = { λ h. h.faults };

    ghost told = { λ h. Some (lane_at h.store.settled.items h.waiting.items h.fence) };

    ghost answers = { λ h epoch token request new result. CallAnswers (kept_of h) epoch token request (kept_of new) result };

    fn name(&self) -> &str {
        self.store.name.as_str()
    }

    fn schema(&self) -> &Schema {
        &self.store.schema
    }

    fn faults(&self) -> u64 {
        self.faults
    }

    /// Raises the fence. The first time that it is not ahead, a `FenceFault` of the plan breaks this, and the fence
    /// stays.
    fn fence(&mut self, epoch: u64) -> FenceAnswer
        ensures name { self.new.store.name ≡ self.old.store.name }
        ensures schema { self.new.store.schema ≡ self.old.store.schema }
        ensures cause { HasFenceCause self.old.faults self.new.faults result }
        ensures told { FenceTells self.old.store.name (Some (lane_at self.old.store.settled.items self.old.waiting.items self.old.fence))
            (Some (lane_at self.new.store.settled.items self.new.waiting.items self.new.fence)) epoch result self.old.faults
            self.new.faults }
        ensures planned { result ≡ fence_answer (kept_of self.old) epoch }
    {
        if epoch <= self.fence {
            return FenceAnswer::Ahead { fence: self.fence };
        }
        let is_first = !self.has_fenced;
        self.has_fenced = true;
        if is_first && breaks_fence(&self.plan) {
            self.faults = self.faults.saturating_add(1);
            return FenceAnswer::Fault;
        }
        self.fence = epoch;
        FenceAnswer::Raised
    }

    /// Answers by the table and the plan, which breaks calls by their numbers, counted from 1.
    ///
    /// Calls that were put aside act first, where it is their turn. A settled token answers as it was settled and
    /// changes nothing; a new one is settled by the table's answer, or by the code of a refusal. Each refusal and
    /// fault raises the count of faults, and so does each broken call. `NoMemory` settles nothing but what acted late,
    /// and raises no count.
    fn call(&mut self, epoch: u64, token: u64, request: &Request) -> Answer {
        if epoch < self.fence {
            return Answer::Stale { fence: self.fence };
        }
        self.answer_call(epoch, token, request)
    }

    /// Shows what is live. It changes nothing and raises no count.
    fn read(&mut self, epoch: u64, physical: &Txt) -> Look {
        if epoch < self.fence {
            return Look::Stale { fence: self.fence };
        }
        match self.store.look(physical) {
            Ok(look) => look,
            Err(_) => Look::NoMemory,
        }
    }
}

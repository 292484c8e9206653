//! What a call, its answer, and a resource that is kept change of their stack.
ghost use Rattle.std.specs.Prelude.{◌≡◌, ◌<◌, ◌≤◌, ◌+◌, ◌∷◌, ◌++◌, [], ℕ, IfOk, false, true};
ghost use Rattle.std.specs.List.{list_any};
ghost use Rattle.cf_tree.specs.declared.request.Request.TheVariants as request;
ghost use Rattle.cf_entry.specs.declared.entry.Reply.TheVariants as reply;
ghost use Rattle.cf_effect.specs.Calls.{new_call};
ghost use Rattle.cf_effect.specs.Operation.{is_doubt};
ghost use Rattle.cf_effect.specs.Reply.{answered, intending, keeping, keeping_known, keeping_unknown, making, made_of, replying, status_made, terms_at};
ghost use Rattle.cf_effect.specs.Reserve.{HasSpare, TermsFit};
ghost use Rattle.cf_effect.specs.State.{state_of};
ghost use Rattle.cf_effect.specs.Words.{current_at, has_token, is_create};

use crate::call::Call;
use crate::held::{Held, HeldStatus, Pending, kept_leftover};
use crate::ledger::{answer_call, is_restore};
use crate::resources::{has_physical, renew, status_made};
use crate::state::State;
use crate::terms::Terms;
use crate::tokens::{abandon, close_creates, give_up_on, is_creating_at, is_open, take_call};
use cf_entry::{Reply, Why};
use cf_tree::{Code, Dict, Request, TryClone, Txt};
use std::alloc::{AllocError, Global};

/// Whether an answer is a doubt.
fn is_doubt(answer: &Reply) -> bool
    ensures { result ≡ is_doubt answer.now }
{
    matches!(answer, Reply::Doubt)
}

impl State {
    /// A call goes out; it takes no memory.
    pub fn intend(&mut self, pending: Pending, call: Call)
        requires row { call ≡ new_call call.number (state_of self.old).status pending }
        requires spare { HasSpare 1 self.old }
        ensures state { state_of self.new ≡ intending call.number pending (state_of self.old) }
        ensures spare { (n : ℕ) → HasSpare (n + 1) self.old → HasSpare n self.new }
    {
        if is_open(self.tokens.as_slice(), pending.token) {
            drop(pending);
            drop(call);
        } else {
            self.tokens.push_reserved(pending);
            self.ledger.push_reserved(call);
        }
    }

    /// A create succeeded; it takes no memory.
    fn make(&mut self, path: Txt, kind: Txt, props: Dict, physical: Txt, attrs: Dict, terms: Terms)
        requires { HasSpare 1 self.old }
        ensures state { state_of self.new
            ≡ making (made_of terms (status_made (current_at path self.old.held.items)) path kind props physical attrs) (state_of self.old) }
        ensures spare { (n : ℕ) → HasSpare (n + 1) self.old → HasSpare n self.new }
    {
        let status = status_made(self.held.as_slice(), &path);
        self.made.push_reserved(Held {
            path,
            kind,
            physical,
            props,
            attrs,
            needs: terms.needs,
            deletion: terms.deletion,
            replace: terms.replace,
            status,
            unsure: false,
            superseded: false,
        });
    }

    /// A create was answered; it takes no memory.
    fn answer_create(&mut self, path: Txt, kind: Txt, props: Dict, answer: Reply, terms: Terms)
        requires terms { terms ≡ terms_at path (state_of self.old) }
        requires spare { HasSpare 1 self.old }
        ensures state { state_of self.new ≡ answered false path (request.Create kind props) answer (state_of self.old) }
        ensures spare { (n : ℕ) → HasSpare (n + 1) self.old → HasSpare n self.new }
    {
        match answer {
            Reply::Success { physical, attrs } => {
                self.make(path, kind, props, physical, attrs, terms);
            }
            _ => {}
        }
    }

    /// An update succeeded; it takes no memory.
    fn update(&mut self, path: &Txt, physical: &Txt, props: Dict, named: Txt, attrs: Dict)
        ensures state { state_of self.new
            ≡ answered false path.now (request.Update physical.now props) (reply.Success named attrs) (state_of self.old) }
        ensures spare { (n : ℕ) → HasSpare n self.old → HasSpare n self.new }
    {
        drop(named);
        if has_physical(self.held.as_slice(), physical) {
            renew(&mut self.held, physical, props, attrs);
        } else {
            renew(&mut self.made, physical, props, attrs);
        }
    }

    /// An update was answered; it takes no memory.
    fn answer_update(
        &mut self,
        restores: bool,
        path: &Txt,
        physical: &Txt,
        props: Dict,
        answer: Reply,
    )
        ensures state { state_of self.new ≡ answered restores path.now (request.Update physical.now props) answer (state_of self.old) }
        ensures spare { (n : ℕ) → HasSpare n self.old → HasSpare n self.new }
    {
        match answer {
            Reply::Success {
                physical: named,
                attrs,
            } => self.update(path, physical, props, named, attrs),
            Reply::Failed { .. } => {
                if restores {
                    self.set_status(physical, HeldStatus::UpdateFailed);
                }
            }
            Reply::Doubt => {}
        }
    }

    /// A deletion was answered; it takes no memory.
    fn answer_deletion(&mut self, path: &Txt, physical: &Txt, answer: &Reply)
        ensures state { state_of self.new ≡ answered false path.now (request.Delete physical.now) answer.now (state_of self.old) }
        ensures spare { (n : ℕ) → HasSpare n self.old → HasSpare n self.new }
    {
        match answer {
            Reply::Success { .. } => self.delete(physical),
            Reply::Failed { code } => match code {
                Code::NotFound => self.delete(physical),
                _ => self.set_status(physical, HeldStatus::DeleteFailed),
            },
            Reply::Doubt => {}
        }
    }

    /// Changes the resources as the answer to a request at a path says; it takes no memory.
    #[tactic(auto, using(crate::proofs::Answered::only_restores_created, crate::proofs::Answered::only_restores_deleted))]
    fn respond(&mut self, restores: bool, path: Txt, request: Request, answer: Reply, terms: Terms)
        requires terms { is_create request ≡ true → terms ≡ terms_at path (state_of self.old) }
        requires spare { HasSpare 1 self.old }
        ensures state { state_of self.new ≡ answered restores path request answer (state_of self.old) }
        ensures spare { (n : ℕ) → HasSpare (n + 1) self.old → HasSpare n self.new }
    {
        match request {
            Request::Create { kind, props } => {
                self.answer_create(path, kind, props, answer, terms);
            }
            Request::Update { physical, props } => {
                self.answer_update(restores, &path, &physical, props, answer);
            }
            Request::Delete { physical } => self.answer_deletion(&path, &physical, &answer),
        }
    }

    /// A call is in doubt; where its token is not open, nothing changes. It takes no memory.
    fn doubt(&mut self, token: u64)
        ensures state { state_of self.new ≡ replying token reply.Doubt (state_of self.old) }
        ensures spare { (n : ℕ) → HasSpare n self.old → HasSpare n self.new }
    {
        if is_open(self.tokens.as_slice(), token) {
            answer_call(&mut self.ledger, token, &Reply::Doubt);
        }
    }

    /// A call is answered for good; where its token is not open, nothing changes. It takes no memory.
    #[tactic(auto, using(crate::proofs::Answered::settled_by, crate::proofs::Answered::settled_not))]
    fn settle(&mut self, token: u64, answer: Reply, terms: Terms)
        requires settles { is_doubt answer ≡ false }
        requires terms { TermsFit token terms (state_of self.old) }
        requires spare { HasSpare 1 self.old }
        ensures state { state_of self.new ≡ replying token answer (state_of self.old) }
        ensures spare { (n : ℕ) → HasSpare (n + 1) self.old → HasSpare n self.new }
    {
        let restores = is_restore(self.ledger.as_slice(), token);
        match take_call(&mut self.tokens, token) {
            Some(pending) => {
                answer_call(&mut self.ledger, token, &answer);
                let Pending { path, request, .. } = pending;
                self.respond(restores, path, request, answer, terms);
            }
            None => {
                drop(answer);
                drop(terms);
            }
        }
    }

    /// Takes the answer to a call; where its token is not open, nothing changes. It takes no memory.
    pub fn take_answer(&mut self, token: u64, answer: Reply, terms: Terms)
        requires terms { TermsFit token terms (state_of self.old) }
        requires spare { HasSpare 1 self.old }
        ensures state { state_of self.new ≡ replying token answer (state_of self.old) }
        ensures spare { (n : ℕ) → HasSpare (n + 1) self.old → HasSpare n self.new }
    {
        if is_doubt(&answer) {
            drop(answer);
            drop(terms);
            self.doubt(token);
        } else {
            self.settle(token, answer, terms);
        }
    }

    /// Takes a copy of the answer to a call; where its token is not open, nothing changes. After an error
    /// nothing is said of the stack.
    pub(crate) fn answer(
        &mut self,
        alloc: Global,
        token: u64,
        answer: &Reply,
    ) -> Result<(), AllocError>
        ensures { IfOk result (λ _. state_of self.new ≡ replying token answer.now (state_of self.old)) }
    {
        self.reserve(1)?;
        let terms = self.terms_of_call(alloc, token)?;
        match answer.try_clone(alloc) {
            Ok(answer) => {
                self.take_answer(token, answer, terms);
                Ok(())
            }
            Err(failed) => Err(failed),
        }
    }

    /// Takes a resource off its list as a leftover, and gives up the calls on it. After an error
    /// nothing is said of the stack.
    fn keep_known(
        &mut self,
        alloc: Global,
        path: &Txt,
        physical: &Txt,
        why: Why,
    ) -> Result<(), AllocError>
        ensures { IfOk result (λ _. state_of self.new ≡ keeping_known path.now physical.now why (state_of self.old)) }
    {
        let left = kept_leftover(alloc, path, physical.as_str(), why)?;
        self.leftovers.push(left)?;
        self.delete(physical);
        give_up_on(&mut self.tokens, physical);
        Ok(())
    }

    /// Gives up the open creates at a path. After an error nothing is said of the stack.
    fn keep_unknown(&mut self, alloc: Global, path: &Txt, why: Why) -> Result<(), AllocError>
        ensures { IfOk result (λ _. state_of self.new ≡ keeping_unknown path.now why (state_of self.old)) }
    {
        let left = kept_leftover(alloc, path, "-", why)?;
        self.leftovers.push(left)?;
        abandon(alloc, &mut self.abandoned, self.tokens.as_slice(), path)?;
        close_creates(&mut self.tokens, path);
        Ok(())
    }

    /// Keeps the resource of a physical id, or where that is empty what the open create at the path
    /// may make; where there is neither, nothing changes. After an error nothing is said of the
    /// stack.
    pub(crate) fn keep(
        &mut self,
        alloc: Global,
        path: &Txt,
        physical: &Txt,
        why: Why,
    ) -> Result<(), AllocError>
        ensures { IfOk result (λ _. state_of self.new ≡ keeping path.now physical.now why (state_of self.old)) }
    {
        if physical.is("") {
            if is_creating_at(self.tokens.as_slice(), path) {
                return self.keep_unknown(alloc, path, why);
            }
            return Ok(());
        }
        if has_physical(self.held.as_slice(), physical)
            || has_physical(self.made.as_slice(), physical)
        {
            return self.keep_known(alloc, path, physical, why);
        }
        Ok(())
    }
}

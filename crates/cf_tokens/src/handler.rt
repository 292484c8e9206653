//! The handler of a lane over a table.
ghost use Rattle.std.specs.Prelude.{◌≡◌, IsTrue, IfOk};
ghost use Rattle.cf_handler.specs.Look.{ShowsShort};
ghost use Rattle.cf_handler.specs.Name.{is_lane_name};
ghost use Rattle.cf_answers.specs.Fits.{FitsLane};

use crate::system::System;
use crate::table::{Place, Table};
use crate::told::{Trouble, tell};
use cf_answers::{count_answer, count_fence, count_look, look_at, shows_short};
use cf_handler::{FenceAnswer, Handler};
use cf_schema::Schema;
use cf_tree::{Answer, Look, NoMemory, Request, Txt};

/// What a lane does to its folder beside the rows of its table.
pub trait Stores {
    /// Does what the last row left undone. The table is taken, and all of its rows are known.
    ///
    /// # Errors
    /// Want of memory, or a fault, which was told; it is undone still then.
    fn finish<R: System>(&self, rt: &R, table: &mut Table) -> Result<(), Trouble>;

    /// Answers a token that is not settled, and settles it. The table is taken, all of its rows are known, and nothing is undone.
    ///
    /// # Errors
    /// Want of memory before anything was changed, or a fault, which was told; the token may be settled then.
    fn settle<R: System>(
        &self,
        rt: &R,
        name: &Txt,
        schema: &Schema,
        table: &mut Table,
        token: u64,
        request: &Request,
    ) -> Result<Answer, Trouble>
        ensures { IfOk result (λ a. FitsLane name.now request.now a) };
}

/// The handler of a lane that shares a folder, and its table, with the other lanes of its type.
///
/// It answers by the table of `cf_answers` over what is live in the folder. What a call settles is durable before it is answered, and a
/// settled token answers the same again. A token that another call settled is a fault: tokens begin anew where a journal was lost, and a
/// row of before must not pass for what is asked now. Each call first looks at the fence, and then does what an earlier call left undone, so that
/// what a crash left is settled at the first call. Each error of the system is told in a line on standard error, counts, and is
/// answered as a fault. It tells nothing of what the folder holds.
#[derive(Drop)]
pub struct TableHandler<R: System + Drop, S: Stores + Drop> {
    rt: R,
    store: S,
    name: Txt,
    schema: Schema,
    faults: u64,
    table: Table,
    ghost named: { IsTrue (is_lane_name name) },
}

impl<R: System + Drop, S: Stores + Drop> TableHandler<R, S> {
    ghost use Rattle.cf_tokens.specs.Places.{place_of};

    /// The lane of this name over the table at this place. Nothing is opened yet.
    ///
    /// # Errors
    /// Want of memory.
    pub fn new(
        rt: R,
        store: S,
        place: Place,
        name: &str,
        schema: Schema,
    ) -> Result<TableHandler<R, S>, NoMemory>
        requires { IsTrue (is_lane_name name.now) }
        ensures label { IfOk result (λ h. ⟦<TableHandler<R, S> as Handler>⟧.label h ≡ name.now) }
        ensures schema { IfOk result (λ h. ⟦<TableHandler<R, S> as Handler>⟧.schema_of h ≡ schema) }
        ensures faultless { IfOk result (λ h. ⟦<TableHandler<R, S> as Handler>⟧.count h ≡ 0) }
        ensures place { IfOk result (λ h. place_of h ≡ place) }
    {
        let alloc = rt.alloc();
        let table = Table::new(alloc, place, Txt::from_str(alloc, name)?);
        let name = Txt::from_str(alloc, name)?;
        Ok(TableHandler {
            rt,
            store,
            name,
            schema,
            faults: 0,
            table,
        })
    }
}

// The answer to a call, where the table is taken.
fn worked<R: System, S: Stores>(
    rt: &R,
    store: &S,
    name: &Txt,
    schema: &Schema,
    table: &mut Table,
    epoch: u64,
    token: u64,
    request: &Request,
) -> Result<Answer, Trouble>
    ensures { IfOk result (λ a. FitsLane name.now request.now a) }
{
    table.catch_up(rt)?;
    let fence = table.known().fence();
    if epoch < fence {
        return Ok(Answer::Stale { fence });
    }
    store.finish(rt, table)?;
    match table.known().settled(token) {
        Some(settled) => table.repeat(rt, name, token, request, settled),
        None => store.settle(rt, name, schema, table, token, request),
    }
}

// The answer to a call, with the table taken and given back.
fn tried<R: System, S: Stores>(
    rt: &R,
    store: &S,
    name: &Txt,
    schema: &Schema,
    table: &mut Table,
    epoch: u64,
    token: u64,
    request: &Request,
) -> Result<Answer, Trouble>
    ensures { IfOk result (λ a. FitsLane name.now request.now a) }
{
    table.take(rt)?;
    let answer = worked(rt, store, name, schema, table, epoch, token, request);
    table.give(rt)?;
    answer
}

// The answer to a call.
fn answered<R: System, S: Stores>(
    rt: &R,
    store: &S,
    name: &Txt,
    schema: &Schema,
    table: &mut Table,
    epoch: u64,
    token: u64,
    request: &Request,
) -> Answer
    ensures { FitsLane name.now request.now result }
{
    match tried(rt, store, name, schema, table, epoch, token, request) {
        Ok(answer) => answer,
        Err(Trouble::NoMemory) => Answer::NoMemory,
        Err(Trouble::Fault(_)) => Answer::Fault,
    }
}

// What a look shows, where the table is taken.
fn shown<R: System, S: Stores>(
    rt: &R,
    store: &S,
    table: &mut Table,
    epoch: u64,
    physical: &Txt,
) -> Result<Look, Trouble>
    ensures { IfOk result (λ l. ShowsShort l) }
{
    table.catch_up(rt)?;
    let fence = table.known().fence();
    if epoch < fence {
        return Ok(Look::Stale { fence });
    }
    store.finish(rt, table)?;
    let look = look_at(rt.alloc(), table.known().own(physical), physical)?;
    if shows_short(&look) {
        Ok(look)
    } else {
        Err(table.damaged(rt))
    }
}

// What a look shows, with the table taken and given back.
fn looked<R: System, S: Stores>(
    rt: &R,
    store: &S,
    table: &mut Table,
    epoch: u64,
    physical: &Txt,
) -> Result<Look, Trouble>
    ensures { IfOk result (λ l. ShowsShort l) }
{
    table.take(rt)?;
    let look = shown(rt, store, table, epoch, physical);
    table.give(rt)?;
    look
}

// What a look shows.
fn seen<R: System, S: Stores>(
    rt: &R,
    store: &S,
    table: &mut Table,
    epoch: u64,
    physical: &Txt,
) -> Look
    ensures { ShowsShort result }
{
    match looked(rt, store, table, epoch, physical) {
        Ok(look) => look,
        Err(Trouble::NoMemory) => Look::NoMemory,
        Err(Trouble::Fault(_)) => Look::Fault,
    }
}

// The fence is raised, where the table is taken.
fn raised<R: System, S: Stores>(
    rt: &R,
    store: &S,
    kind: &Txt,
    table: &mut Table,
    epoch: u64,
) -> Result<FenceAnswer, Trouble> {
    table.catch_up(rt)?;
    let fence = table.known().fence();
    if epoch <= fence {
        return Ok(FenceAnswer::Ahead { fence });
    }
    store.finish(rt, table)?;
    table.raise(rt, kind, epoch)?;
    Ok(FenceAnswer::Raised)
}

// The fence is raised, with the table taken and given back.
fn raised_once<R: System, S: Stores>(
    rt: &R,
    store: &S,
    kind: &Txt,
    table: &mut Table,
    epoch: u64,
) -> Result<FenceAnswer, Trouble> {
    table.take(rt)?;
    let answer = raised(rt, store, kind, table, epoch);
    table.give(rt)?;
    answer
}

// The fence is raised. Want of memory is told as a fault, since no other answer tells it.
fn fenced<R: System, S: Stores>(
    rt: &R,
    store: &S,
    kind: &Txt,
    table: &mut Table,
    epoch: u64,
) -> FenceAnswer {
    match raised_once(rt, store, kind, table, epoch) {
        Ok(answer) => answer,
        Err(Trouble::NoMemory) => {
            let _told = tell(rt, table.place().path(), "no memory");
            FenceAnswer::Fault
        }
        Err(Trouble::Fault(_)) => FenceAnswer::Fault,
    }
}

impl<R: System + Drop, S: Stores + Drop> Handler for TableHandler<R, S> {
    ghost use Rattle.std.specs.Prelude.{None};

    ghost label = { λ h. h.name };

    ghost schema_of = { λ h. h.schema };

    ghost count = { λ h. h.faults };

    ghost told = { λ _. None };

    fn name(&self) -> &str {
        self.name.as_str()
    }

    fn schema(&self) -> &Schema {
        &self.schema
    }

    fn faults(&self) -> u64 {
        self.faults
    }

    /// Raises the fence, which is durable then.
    fn fence(&mut self, epoch: u64) -> FenceAnswer {
        let answer = fenced(
            &self.rt,
            &self.store,
            &self.schema.kind,
            &mut self.table,
            epoch,
        );
        self.faults = count_fence(self.faults, &answer);
        answer
    }

    /// Answers a call. A success or a refusal is durable then.
    fn call(&mut self, epoch: u64, token: u64, request: &Request) -> Answer {
        let answer = answered(
            &self.rt,
            &self.store,
            &self.name,
            &self.schema,
            &mut self.table,
            epoch,
            token,
            request,
        );
        self.faults = count_answer(self.faults, &answer);
        answer
    }

    /// Shows what is live, by the rows of the table.
    fn read(&mut self, epoch: u64, physical: &Txt) -> Look {
        let look = seen(&self.rt, &self.store, &mut self.table, epoch, physical);
        self.faults = count_look(self.faults, &look);
        look
    }
}

//! Calls of a handler in memory that act late.
ghost use Rattle.std.specs.Prelude.{◌≡◌, ◌<◌, [], ◌∷◌, ◌++◌, None, length, get_or, remove, IfOk, OnErr};
ghost use Rattle.cf_handler.specs.Lane.{settlement_of, live_of};
ghost use Rattle.cf_handler.specs.Move.{MaySettle};
ghost use Rattle.cf_handler.specs.Tells.{Lates};
ghost use Rattle.cf_fake.specs.declared.waiting.Waiting.{Waiting};
ghost use Rattle.cf_fake.specs.Sound.{lane_of};
ghost use Rattle.cf_answers.specs.Table.{answer_to};
ghost use Rattle.cf_fake.specs.Plan.{new_entry};
ghost use Rattle.cf_fake.specs.Late.{IsTurn, lane_at, late_settled, late_waiting, put_aside};

use crate::store::Store;
use crate::waiting::{Waiting, is_due};
use cf_handler::settlement_of;
use cf_tree::Request;
use std::alloc::{AllocError, Global};

/// Works the request that waits at a place. After an error nothing has changed.
fn act(store: &mut Store, waiting: &mut Vec<Waiting>, at: usize) -> Result<(), AllocError>
    requires within { at < length waiting.old.items }
    requires new { (d : Waiting) → settlement_of (get_or waiting.old.items at d).token store.old.settled.items ≡ None }
    ensures stays { (store.new.name ≡ store.old.name) × (store.new.schema ≡ store.old.schema) }
    ensures may { (d : Waiting) → MaySettle store.old.name (lane_of store.old.settled.items) (get_or waiting.old.items at d).request
        (answer_to store.old.schema store.old.name (get_or waiting.old.items at d).token (live_of (lane_of store.old.settled.items))
        (get_or waiting.old.items at d).request) }
    ensures ok { (d : Waiting) → IfOk result (λ _. (store.new.settled.items ≡ store.old.settled.items ++ new_entry None
        store.old.schema store.old.name (get_or waiting.old.items at d).token
        (get_or waiting.old.items at d).request store.old.settled.items ∷ []) × (waiting.new.items ≡ remove waiting.old.items at)) }
    ensures err { OnErr result ((store.new.settled.items ≡ store.old.settled.items) × (waiting.new.items ≡ waiting.old.items)) }
{
    let late = &waiting[at];
    store.settle_late(late.token, &late.request)?;
    drop(waiting.remove(at));
    Ok(())
}

/// Works the request that waits at a place, if it is due, and gives the place of the next. After an error nothing has
/// changed.
fn turn(
    store: &mut Store,
    waiting: &mut Vec<Waiting>,
    at: usize,
    number: u64,
    fence: u64,
) -> Result<usize, AllocError>
    requires { at < length waiting.old.items }
    ensures stays { (store.new.name ≡ store.old.name) × (store.new.schema ≡ store.old.schema) }
    ensures ok { (d : Waiting) → IfOk result (IsTurn store.old.schema store.old.name number fence at
        (get_or waiting.old.items at d) store.old.settled.items waiting.old.items store.new.settled.items waiting.new.items) }
    ensures late { Lates store.old.name (lane_at store.old.settled.items waiting.old.items fence)
        (lane_at store.new.settled.items waiting.new.items fence) }
{
    if is_due(&waiting[at], number, fence, store.settled.as_slice()) {
        act(store, waiting, at)?;
        Ok(at)
    } else {
        Ok(at + 1)
    }
}

/// Works all that is due before the call of a number, in the order in which it was put aside. After an error what could
/// not be worked waits on.
pub fn act_due(
    store: &mut Store,
    waiting: &mut Vec<Waiting>,
    number: u64,
    fence: u64,
) -> Result<(), AllocError>
    ensures stays { (store.new.name ≡ store.old.name) × (store.new.schema ≡ store.old.schema) }
    ensures settled { IfOk result (λ _. store.new.settled.items ≡ late_settled store.old.schema store.old.name number fence
        waiting.old.items store.old.settled.items) }
    ensures waiting { IfOk result (λ _. waiting.new.items ≡ late_waiting store.old.schema store.old.name number fence
        waiting.old.items store.old.settled.items) }
    ensures late { Lates store.old.name (lane_at store.old.settled.items waiting.old.items fence)
        (lane_at store.new.settled.items waiting.new.items fence) }
{
    let mut at = 0;
    while at < waiting.len() {
        at = turn(store, waiting, at, number, fence)?;
    }
    Ok(())
}

/// Puts a request aside, if its token is not settled. After an error nothing has changed.
pub fn put_aside(
    alloc: Global,
    store: &Store,
    waiting: &mut Vec<Waiting>,
    due: u64,
    epoch: u64,
    token: u64,
    request: &Request,
) -> Result<(), AllocError>
    ensures ok { IfOk result (λ _. waiting.new.items ≡ put_aside (settlement_of token store.now.settled.items)
        (record { due = due; epoch = epoch; token = token; request = request.now }) waiting.old.items) }
    ensures err { OnErr result (waiting.new.items ≡ waiting.old.items) }
{
    if settlement_of(store.settled.as_slice(), token).is_some() {
        return Ok(());
    }
    let request = request.try_clone(alloc)?;
    waiting.push(Waiting {
        due,
        epoch,
        token,
        request,
    })?;
    Ok(())
}

//! What a nested stack is given for its parameters.
ghost use Rattle.std.specs.Prelude.{◌≡◌, ℕ, List, [], ◌∷◌, ◌++◌, IfOk, Some, None, codes, map, option_map, string_bytes};
ghost use Rattle.std.specs.Option.{option_copied, option_or};
ghost use Rattle.cf_tree.specs.Datum.{items_of, list, members_of};
ghost use Rattle.cf_tree.specs.Datum as datum;
ghost use Rattle.cf_tree.specs.Forms.{expr, fields_of, place_of};
ghost use Rattle.cf_tree.specs.Forms as node;
ghost use Rattle.cf_tree.specs.Value.{datum_of};
ghost use Rattle.cf_eval.specs.Env.{Evaluates, scope_in};
ghost use Rattle.cf_eval.specs.Functions.{joined_by, led_by};
ghost use Rattle.cf_eval.specs.Outcome.{got, undecided};
ghost use Rattle.cf_eval.specs.Texts.{Found};
ghost use Rattle.cf_eval.specs.Value.{value_within};
ghost use Rattle.cf_desired.specs.Given.{given_in, map_wanted, offers_in, piece_text, pieces, item_texts, unknown, value_offers};
ghost use Rattle.cf_desired.specs.Kept.{IsOffers, Takes, blame_at, flaw_of_blame, offer_in};
ghost use Rattle.cf_desired.specs.Met.{offers_flaw};
ghost use Rattle.cf_desired.specs.Stack.{stop_in};

use crate::evaluations::{Blame, blame_of, some_flaw_by, text_of, wrong_kind};
use crate::flaw::Flaw;
use cf_eval::{Env, EvalFault, EvalWhy, Got, blamed, eval_within};
use cf_param::{Given, Piece};
use cf_tree::{ByName, Dict, Expr, ExprDict, ExprNode, Names, Txt, Val, Vals, Verdict};
use std::alloc::{AllocError, Global};

/// What is given for parameters.
#[derive(Drop)]
pub(crate) enum Offer {
    /// Texts, or what is not known yet, under their names.
    Pieces { pieces: Given },
    /// Nothing is known.
    Unknown,
}

/// What a nested stack is given for its parameters, and the flaw of that.
#[derive(Drop)]
pub(crate) struct Offered {
    pub given: Offer,
    pub flaw: Option<Flaw>,
}

/// What the members of a map came to that were taken so far: the pieces, the first fault of a member, and the first of a member
/// of a wrong kind.
#[derive(Drop)]
struct Taken {
    pieces: Vec<(Txt, Piece)>,
    part: Option<Blame>,
    kind: Option<Blame>,
}

/// What a nested stack is given, where this is its `Parameters`.
pub(crate) fn offered_by(
    alloc: Global,
    form: Option<&Expr>,
    env: &Env,
) -> Result<Offered, AllocError>
    ensures given { IfOk result (λ o. offer_in o.given ≡ given_in (scope_in env.now) (option_copied form.entry)) }
    ensures flaw { IfOk result (λ o. o.flaw ≡ offers_flaw env.now.stack.now (scope_in env.now) (option_copied form.entry)) }
{
    match form {
        Some(expr) => offered_in(alloc, None, expr, env),
        None => Ok(nothing(alloc)),
    }
}

/// Nothing is given.
fn nothing(alloc: Global) -> Offered
    ensures given { offer_in result.given ≡ pieces [] }
    ensures flaw { result.flaw ≡ None }
{
    Offered {
        given: Offer::Pieces {
            pieces: Given::new(alloc),
        },
        flaw: None,
    }
}

/// Nothing is known of what is given.
fn unknown(blame: Option<Blame>) -> Offered
    ensures given { offer_in result.given ≡ unknown }
    ensures flaw { result.flaw ≡ option_map flaw_of_blame blame }
{
    Offered {
        given: Offer::Unknown,
        flaw: some_flaw_by(blame),
    }
}

/// What is given by a map, by the taken branch of an `Fn::If`, or by a value that is a map.
fn offered_in(
    alloc: Global,
    around: Option<&Txt>,
    expr: &Expr,
    env: &Env,
) -> Result<Offered, AllocError>
    ensures { IfOk result (IsOffers env.now.stack.now (offers_in (scope_in env.now) (option_copied around.entry) expr.now)) }
{
    match expr.node() {
        ExprNode::Dict(pairs) => members_offered(alloc, around, expr, pairs, env),
        ExprNode::If { name, yes, no } => match env.conds.get(name.as_str()) {
            Some(Verdict::True) => offered_in(alloc, Some(expr.at()), yes, env),
            Some(Verdict::False) => offered_in(alloc, Some(expr.at()), no, env),
            Some(Verdict::Later) => Ok(unknown(None)),
            None => Ok(unknown(Some(undecided(alloc, env.stack, expr.at())?))),
        },
        _ => value_offered(alloc, around, expr, env),
    }
}

/// A condition that is not declared is asked for at a place.
fn undecided(alloc: Global, stack: &Txt, at: &Txt) -> Result<Blame, AllocError>
    ensures { IfOk result (λ b. (name : List ℕ) → b ≡ blame_at stack.now (undecided name at.now)) }
{
    Ok(Blame {
        why: EvalWhy::UnknownName,
        stack: stack.try_clone(alloc)?,
        at: at.try_clone(alloc)?,
    })
}

/// What is given by a value that is a map.
fn value_offered(
    alloc: Global,
    around: Option<&Txt>,
    expr: &Expr,
    env: &Env,
) -> Result<Offered, AllocError>
    ensures { IfOk result (IsOffers env.now.stack.now (value_offers (scope_in env.now) (option_copied around.entry) expr.now)) }
{
    let at = blamed(around, expr.at(), expr.node());
    match eval_within(alloc, around, expr, env) {
        Ok(Got::Value(Val::Dict(dict))) => dict_offered(alloc, at, &dict, env.stack),
        Ok(Got::Value(_)) => Ok(unknown(Some(wrong_kind(alloc, env.stack, at)?))),
        Ok(Got::NoValue) => Ok(nothing(alloc)),
        Ok(Got::Later) => Ok(unknown(None)),
        Err(fault) => Ok(unknown(Some(blame_of(fault)?))),
    }
}

/// What is given by the members of a map that is a value: for each of them the map is to blame.
fn dict_offered(alloc: Global, at: &Txt, dict: &Dict, stack: &Txt) -> Result<Offered, AllocError>
    ensures { IfOk result (IsOffers stack.now (map_wanted at.now (Some (datum.dict (members_of dict.now))))) }
{
    let mut taken = none_taken(alloc);
    for pair in dict.as_slice() {
        let value = Got::Value(pair.value.try_clone(alloc)?);
        taken = take(alloc, taken, &pair.name, at, stack, Ok(value))?;
    }
    let Taken { pieces, part, kind } = taken;
    Ok(Offered {
        given: Offer::Pieces {
            pieces: Given::from_names(ByName::from_vec(pieces)),
        },
        flaw: some_flaw_by(part.or(kind)),
    })
}

/// What is given by the members of a map: the first fault of a member counts, then a member of a wrong kind, then the map as a
/// whole.
fn members_offered(
    alloc: Global,
    around: Option<&Txt>,
    form: &Expr,
    pairs: &ExprDict,
    env: &Env,
) -> Result<Offered, AllocError>
    requires { form.now ≡ expr (place_of form.now) (node.dict (fields_of pairs.now)) }
    ensures { IfOk result (IsOffers env.now.stack.now (offers_in (scope_in env.now) (option_copied around.entry) form.now)) }
{
    let mut taken = none_taken(alloc);
    for pair in pairs.as_slice() {
        let at = blamed(around, pair.value.at(), pair.value.node());
        let value = eval_within(alloc, around, &pair.value, env);
        taken = take(alloc, taken, &pair.name, at, env.stack, value)?;
    }
    let Taken { pieces, part, kind } = taken;
    let blame = or_whole(alloc, part.or(kind), around, form, env)?;
    Ok(Offered {
        given: Offer::Pieces {
            pieces: Given::from_names(ByName::from_vec(pieces)),
        },
        flaw: some_flaw_by(blame),
    })
}

/// What is to blame among the members of a map, or else where the map as a whole can't be.
fn or_whole(
    alloc: Global,
    found: Option<Blame>,
    around: Option<&Txt>,
    form: &Expr,
    env: &Env,
) -> Result<Option<Blame>, AllocError>
    ensures { IfOk result (λ b. b ≡ option_or found (option_map (blame_at env.now.stack.now) (stop_in (value_within (scope_in env.now) (option_copied around.entry) form.now)))) }
{
    match found {
        Some(blame) => Ok(Some(blame)),
        None => whole_blame(alloc, around, form, env),
    }
}

/// What is to blame where a map as a whole can't be.
fn whole_blame(
    alloc: Global,
    around: Option<&Txt>,
    form: &Expr,
    env: &Env,
) -> Result<Option<Blame>, AllocError>
    ensures { IfOk result (λ b. b ≡ option_map (blame_at env.now.stack.now) (stop_in (value_within (scope_in env.now) (option_copied around.entry) form.now))) }
{
    match eval_within(alloc, around, form, env) {
        Ok(_) => Ok(None),
        Err(fault) => Ok(Some(blame_of(fault)?)),
    }
}

/// No member was taken.
fn none_taken(alloc: Global) -> Taken
    ensures pieces { result.pieces.items ≡ [] }
    ensures part { result.part ≡ None }
    ensures kind { result.kind ≡ None }
{
    Taken {
        pieces: Vec::new(alloc),
        part: None,
        kind: None,
    }
}

/// Takes a member by its name and by what it comes to, where `at` is to blame for its kind.
fn take(
    alloc: Global,
    taken: Taken,
    name: &Txt,
    at: &Txt,
    stack: &Txt,
    value: Result<Got, EvalFault>,
) -> Result<Taken, AllocError>
    ensures { IfOk result (λ t. (f : Found) → Evaluates stack.now f value → Takes stack.now name.now at.now f taken t) }
{
    match value {
        Ok(Got::Value(value)) => take_value(alloc, taken, name, at, stack, value),
        Ok(Got::NoValue) => Ok(taken),
        Ok(Got::Later) => with_piece(alloc, taken, name, Piece::Later),
        Err(fault) => {
            let blame = blame_of(fault)?;
            let taken = with_piece(alloc, taken, name, Piece::Later)?;
            Ok(Taken {
                pieces: taken.pieces,
                part: taken.part.or(Some(blame)),
                kind: taken.kind,
            })
        }
    }
}

/// Takes a member whose value is known.
fn take_value(
    alloc: Global,
    taken: Taken,
    name: &Txt,
    at: &Txt,
    stack: &Txt,
    value: Val,
) -> Result<Taken, AllocError>
    ensures { IfOk result (Takes stack.now name.now at.now (got (Some (datum_of value))) taken) }
{
    match piece_text(alloc, value)? {
        Some(text) => with_piece(alloc, taken, name, Piece::Text(text)),
        None => {
            let blame = wrong_kind(alloc, stack, at)?;
            let taken = with_piece(alloc, taken, name, Piece::Later)?;
            Ok(Taken {
                pieces: taken.pieces,
                part: taken.part,
                kind: taken.kind.or(Some(blame)),
            })
        }
    }
}

/// Adds a piece under its name.
fn with_piece(alloc: Global, taken: Taken, name: &Txt, piece: Piece) -> Result<Taken, AllocError>
    ensures pieces { IfOk result (λ t. t.pieces.items ≡ taken.pieces.items ++ (name.now, piece) ∷ []) }
    ensures part { IfOk result (λ t. t.part ≡ taken.part) }
    ensures kind { IfOk result (λ t. t.kind ≡ taken.kind) }
{
    let mut pieces = taken.pieces;
    pieces.push((name.try_clone(alloc)?, piece))?;
    Ok(Taken {
        pieces,
        part: taken.part,
        kind: taken.kind,
    })
}

/// A value as the text of a parameter: a list of texts, whole numbers and truth values is joined with commas.
fn piece_text(alloc: Global, value: Val) -> Result<Option<Txt>, AllocError>
    ensures { IfOk result (λ o. o ≡ piece_text (datum_of value)) }
{
    match value {
        Val::List(items) => match texts_of(alloc, items)? {
            Some(texts) => Ok(Some(joined(alloc, texts.as_slice())?)),
            None => Ok(None),
        },
        other => text_of(alloc, other),
    }
}

/// The values of a list as texts, where each is one.
fn texts_of(alloc: Global, items: Vals) -> Result<Option<Names>, AllocError>
    ensures { IfOk result (λ o. o ≡ item_texts (items_of items)) }
{
    let mut texts = Names::new(alloc);
    for item in items.as_slice() {
        match text_of(alloc, item.try_clone(alloc)?)? {
            Some(text) => texts.push(text)?,
            None => return Ok(None),
        }
    }
    Ok(Some(texts))
}

/// Texts with a comma between any two.
fn joined(alloc: Global, texts: &[Txt]) -> Result<Txt, AllocError>
    ensures { IfOk result (λ t. t ≡ joined_by (codes ",") texts.now) }
{
    match texts.split_first() {
        Some((first, rest)) => {
            let mut all = String::from_str(alloc, first.as_str())?;
            push_others(&mut all, rest)?;
            Ok(Txt::new(all))
        }
        None => Ok(Txt::new(String::new(alloc))),
    }
}

/// Adds texts to those of which one stands already, each after a comma.
fn push_others(all: &mut String, texts: &[Txt]) -> Result<(), AllocError>
    ensures { IfOk result (λ _. string_bytes all.new ≡ string_bytes all.old ++ led_by (codes ",") texts.now) }
{
    for text in texts {
        all.push_str(",")?;
        all.push_str(text.as_str())?;
    }
    Ok(())
}

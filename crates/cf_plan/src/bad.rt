//! The path that fails the forward phase by a flaw of its template.
ghost use Rattle.std.specs.Prelude.{◌≡◌, Some, filter_map, fold, option_map};
ghost use Rattle.std.specs.Option.{option_copied, option_to_list};
ghost use Rattle.cf_tree.specs.Lists.{least_by};
ghost use Rattle.cf_plan.specs.Failed.{bad_of, flaw_planned, flaw_found, flaws_found, inner_found, least};

use crate::done::{are_among, are_met};
use crate::index::{NameIndex, PlanIndex};
use cf_desired::{Evaluated, Flaw, Inner, Wanted};
use cf_tree::Txt;

/// A path, and its flaw.
#[derive(Drop)]
pub(crate) struct BadAt<'a> {
    pub path: &'a Txt,
    pub flaw: &'a Flaw,
}

/// The flaw of a path by a plan.
fn flaw_at<'a>(plan: &PlanIndex<'a>, path: &Txt) -> Option<&'a Flaw>
    ensures { option_copied result ≡ flaw_planned path.now plan.now }
{
    match plan.wanted_at(path) {
        Some(wanted) => match &wanted.props {
            Evaluated::Flawed { flaw } => Some(flaw),
            Evaluated::Known { props: _ } => None,
        },
        None => None,
    }
}

/// A wanted path with its flaw, where its needs are done.
#[tactic(auto, using(crate::proofs::Least::none_found))]
fn flaw_found<'a>(
    before: &PlanIndex,
    now: &PlanIndex<'a>,
    done: &NameIndex,
    wanted: &'a Wanted,
) -> Option<BadAt<'a>>
    ensures { option_map bad_of result ≡ flaw_found before.now now.now done.now wanted.now }
{
    // Most paths have no flaw, and of these it need not be known what they need.
    match flaw_at(now, &wanted.path) {
        Some(flaw) => {
            if are_met(before, done, &wanted.path) {
                Some(BadAt {
                    path: &wanted.path,
                    flaw,
                })
            } else {
                None
            }
        }
        None => None,
    }
}

/// The path of a nested stack with its flaw, where its needs are done.
fn inner_found<'a>(done: &NameIndex, inner: &'a Inner) -> Option<BadAt<'a>>
    ensures { option_map bad_of result ≡ inner_found done.now inner.now }
{
    if are_among(&inner.needs, done) {
        match &inner.fault {
            Some(flaw) => Some(BadAt {
                path: &inner.path,
                flaw,
            }),
            None => None,
        }
    } else {
        None
    }
}

/// Of two paths the one that comes first in byte order, the first of them where they are the same.
fn lesser<'a>(first: Option<BadAt<'a>>, second: BadAt<'a>) -> BadAt<'a>
    ensures { Some (bad_of result) ≡ least_by (λ b. b.0) (option_map bad_of first.entry) (bad_of second.entry) }
{
    match first {
        Some(first) => {
            if *second.path < *first.path {
                second
            } else {
                first
            }
        }
        None => second,
    }
}

/// Of two paths, of which there may be none, the one that comes first in byte order, the first of them where they are the same.
pub(crate) fn lesser_of<'a>(
    first: Option<BadAt<'a>>,
    second: Option<BadAt<'a>>,
) -> Option<BadAt<'a>>
    ensures { option_map bad_of result ≡ fold (least_by (λ b. b.0)) (option_map bad_of first.entry) (option_to_list (option_map bad_of second.entry)) }
{
    match second {
        Some(second) => Some(lesser(first, second)),
        None => first,
    }
}

/// The first of these in byte order, `first` included.
fn first_inner<'a>(
    done: &NameIndex,
    nested: &'a [Inner],
    first: Option<BadAt<'a>>,
) -> Option<BadAt<'a>>
    ensures { option_map bad_of result ≡ fold (least_by (λ b. b.0)) (option_map bad_of first.entry) (filter_map (inner_found done.now) nested.now) }
{
    let mut first = first;
    for inner in nested.iter() {
        first = lesser_of(first, inner_found(done, inner));
    }
    first
}

/// The first path in byte order that is at fault while its needs are done, nested stacks included.
pub(crate) fn first_bad<'a>(
    before: &PlanIndex<'a>,
    now: &PlanIndex<'a>,
    done: &NameIndex,
) -> Option<BadAt<'a>>
    ensures { option_map bad_of result ≡ least (flaws_found before.now now.now done.now) }
{
    let mut first = None;
    for wanted in before.plan().wanted.as_slice() {
        first = lesser_of(first, flaw_found(before, now, done, wanted));
    }
    first_inner(done, now.plan().nested.as_slice(), first)
}

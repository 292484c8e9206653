//! What a create or an update set out with.
ghost use Rattle.std.specs.Prelude.{◌≡◌, [], IfOk, Some, fold, option_copied};
ghost use Rattle.cf_tree.specs.Keys.{value_at};
ghost use Rattle.cf_desired.specs.Kept.{IsShape};
ghost use Rattle.cf_desired.specs.Plan.{plan_of};
ghost use Rattle.cf_desired.specs.Shape.{shape_of};
ghost use Rattle.cf_desired.specs.Templates.{templates_of};
ghost use Rattle.cf_desired.specs.Valued.{resources_in};
ghost use Rattle.cf_desired.specs.Whole.{export_names_of, wanted_at};
ghost use Rattle.cf_effect.specs.Begin.{seen_in};
ghost use Rattle.cf_effect.specs.End.{empty_whole, whole_over};
ghost use Rattle.cf_effect.specs.Layout.{AreRows};
ghost use Rattle.cf_effect.specs.Outset.{HaveTerms, given_terms, IsGround, IsLaidBy, IsReading, outset_of, put_terms};
ghost use Rattle.cf_effect.specs.Reply.{terms_of, wanted_in};
ghost use Rattle.cf_effect.specs.State.{before_in, source_in};

use crate::held::{Held, Helds};
use crate::layout::{Layout, lay_out};
use crate::seen::seen_in;
use crate::terms::Terms;
use cf_desired::{
    Plan, Seen, Shape, Shared, Templates, Terms as Termed, WholePlan, all_terms, export_names,
    plan, plan_by, shape_of, templates_of, whole,
};
use cf_export::Outputs;
use cf_tree::{ByName, Listing, Names, Source, TryClone, Txt};
use std::alloc::{AllocError, Global};
use std::marker::Model;
use std::sync::Arc;

/// What a stack held as an operation began, and the source of the operation with what is read of it.
#[derive(Drop)]
struct Ground {
    before: Helds,
    source: Source,
    read: Reading,
}

/// What is read of a source once: its templates, and over what was held its shape with the policies and needs of each path and
/// its layout.
#[derive(Drop)]
struct Reading {
    templates: Templates,
    shape: Shape,
    terms: ByName<Terms>,
    layout: Shared<Layout>,
}

/// What a create or an update set out with: what its stack held as it began, and its source. What is
/// read of these is read once, and shared by copies.
#[derive(Drop)]
pub struct Outset {
    ground: Arc<Ground>,
}

impl Model for Outset {
    ghost use Rattle.cf_effect.specs.Outset.{Outset as Kept};

    ghost Value = { Kept };

    ghost use Rattle.std.specs.Coded.{codes};
    ghost use Rattle.cf_tree.specs.Datum.{data_code};

    ghost coded = { Prim.hlevel (codes, data_code) };

    ghost use Rattle.std.specs.Arc.{arc_value};
    ghost use Rattle.cf_effect.specs.Outset.{IsGround, outset_of};

    ghost view = { λ o. outset_of (arc_value o.ground) };

    ghost invariant = { λ o. IsGround (arc_value o.ground) };
}

/// Adds the policies and needs of a path, unless it has some already. After an error nothing is said
/// of the map.
fn put_terms(terms: &mut ByName<Terms>, path: Txt, given: Termed) -> Result<(), AllocError>
    ensures { IfOk result (λ _. terms.new ≡ put_terms terms.old (path, given)) }
{
    if terms.get(path.as_str()).is_some() {
        drop(path);
        drop(given);
        return Ok(());
    }
    let Termed {
        kind,
        needs,
        deletion,
        replace,
    } = given;
    drop(kind);
    terms.insert(
        path,
        Terms {
            needs,
            deletion,
            replace,
        },
    )
}

/// The policies and needs of each path, of which the first of one path count.
fn by_path(alloc: Global, all: Listing<(Txt, Termed)>) -> Result<ByName<Terms>, AllocError>
    ensures { IfOk result (λ terms. terms ≡ fold put_terms [] all) }
{
    let mut terms = ByName::new(alloc);
    for (path, given) in all.into_vec() {
        put_terms(&mut terms, path, given)?;
    }
    Ok(terms)
}

/// The policies and needs that a source gives each path, by its shape.
fn terms_by(alloc: Global, shape: &Shape) -> Result<ByName<Terms>, AllocError>
    ensures { IfOk result (HaveTerms shape.now) }
{
    by_path(alloc, all_terms(alloc, shape)?)
}

/// The layout of a source, by its shape.
fn laid_by(alloc: Global, shape: &Shape) -> Result<Layout, AllocError>
    ensures { IfOk result (IsLaidBy shape.now) }
{
    let all = all_terms(alloc, shape)?;
    lay_out(alloc, all.as_slice())
}

/// The layout of a source, by its shape, to be shared.
fn layout_by(alloc: Global, shape: &Shape) -> Result<Shared<Layout>, AllocError>
    ensures { IfOk result (IsLaidBy shape.now) }
{
    let layout = laid_by(alloc, shape)?;
    Shared::new(alloc, layout)
}

/// The policies and needs that are given a path, or else the defaults.
fn given_terms(alloc: Global, terms: &ByName<Terms>, path: &Txt) -> Result<Terms, AllocError>
    ensures { IfOk result (λ given. given ≡ given_terms (value_at path.now terms.now)) }
{
    match terms.get(path.as_str()) {
        Some(terms) => terms.try_clone(alloc),
        None => Ok(Terms::usual(alloc)),
    }
}

/// The shape of a source over what was held.
fn shape_before(
    alloc: Global,
    source: &Source,
    templates: &Templates,
    before: &[Held],
) -> Result<Shape, AllocError>
    requires { templates.now ≡ templates_of source.now }
    ensures { IfOk result (λ shape. IsShape shape (shape_of source.now (seen_in before.now))) }
{
    let seen = seen_in(alloc, before)?;
    let shape = shape_of(alloc, source, templates, &seen);
    drop(seen);
    shape
}

/// What is read of a source whose templates are read.
fn read_on(
    alloc: Global,
    source: &Source,
    templates: Templates,
    before: &[Held],
) -> Result<Reading, AllocError>
    requires { templates ≡ templates_of source.now }
    ensures { IfOk result (IsReading source.now before.now) }
{
    let shape = match shape_before(alloc, source, &templates, before) {
        Ok(shape) => shape,
        Err(failed) => {
            drop(templates);
            return Err(failed);
        }
    };
    let terms = match terms_by(alloc, &shape) {
        Ok(terms) => terms,
        Err(failed) => {
            drop(templates);
            drop(shape);
            return Err(failed);
        }
    };
    match layout_by(alloc, &shape) {
        Ok(layout) => Ok(Reading {
            templates,
            shape,
            terms,
            layout,
        }),
        Err(failed) => {
            drop(templates);
            drop(shape);
            drop(terms);
            Err(failed)
        }
    }
}

/// What is read of a source, over what was held.
fn read(alloc: Global, source: &Source, before: &[Held]) -> Result<Reading, AllocError>
    ensures { IfOk result (IsReading source.now before.now) }
{
    let templates = templates_of(alloc, source)?;
    read_on(alloc, source, templates, before)
}

impl Outset {
    /// What an operation sets out with.
    ///
    /// # Errors
    ///
    /// Only for want of memory.
    pub(crate) fn new(alloc: Global, before: Helds, source: Source) -> Result<Outset, AllocError>
        ensures { IfOk result (λ o. o ≡ record { before = before.items; source = source }) }
    {
        match read(alloc, &source, before.as_slice()) {
            Ok(read) => Outset::of(
                alloc,
                Ground {
                    before,
                    source,
                    read,
                },
            ),
            Err(failed) => {
                drop(before);
                drop(source);
                Err(failed)
            }
        }
    }

    /// What an operation sets out with, of which all is read.
    fn of(alloc: Global, ground: Ground) -> Result<Outset, AllocError>
        requires { IsGround ground }
        ensures { IfOk result (λ o. o ≡ outset_of ground) }
    {
        let ground = Arc::new(alloc, ground)?;
        Ok(Outset { ground })
    }

    /// What the stack held as the operation began.
    pub fn before(&self) -> &Helds
        ensures { result.now.items ≡ self.now.before }
    {
        &self.ground.before
    }

    /// The source of the operation.
    pub fn source(&self) -> &Source
        ensures { result.now ≡ self.now.source }
    {
        &self.ground.source
    }

    /// What the source wants, over what is seen.
    ///
    /// # Errors
    ///
    /// Only for want of memory.
    pub fn plan(&self, alloc: Global, seen: &Seen) -> Result<Plan, AllocError>
        ensures { IfOk result (λ plan. plan ≡ plan_of self.now.source seen.now) }
    {
        plan(
            alloc,
            &self.ground.source,
            &self.ground.read.templates,
            seen,
        )
    }

    /// The shape of the source, over what was held.
    pub fn shape(&self) -> &Shape
        ensures { IsShape result.now (shape_of self.now.source (seen_in self.now.before)) }
    {
        &self.ground.read.shape
    }

    /// The layout of the source, over what was held.
    pub fn layout(&self) -> &Layout
        ensures { AreRows (resources_in (shape_of self.now.source (seen_in self.now.before))) result.now }
    {
        &self.ground.read.layout
    }

    /// The layout of the source, to be shared.
    ///
    /// # Errors
    ///
    /// Only for want of memory.
    pub(crate) fn share_layout(&self, alloc: Global) -> Result<Shared<Layout>, AllocError>
        ensures { IfOk result (AreRows (resources_in (shape_of self.now.source (seen_in self.now.before)))) }
    {
        self.ground.read.layout.try_clone(alloc)
    }

    /// The policies and needs that the source gives a path, over what was held.
    ///
    /// # Errors
    ///
    /// Only for want of memory.
    pub fn terms(&self, alloc: Global, path: &Txt) -> Result<Terms, AllocError>
        ensures { IfOk result (λ terms. terms ≡ terms_of (wanted_at path.now (plan_of self.now.source (seen_in self.now.before)))) }
    {
        given_terms(alloc, &self.ground.read.terms, path)
    }

    /// The paths that the source says a path needs, over what was held.
    pub fn needs(&self, path: &Txt) -> &[Txt]
        ensures { result.now ≡ (terms_of (wanted_at path.now (plan_of self.now.source (seen_in self.now.before)))).needs }
    {
        match self.ground.read.terms.get(path.as_str()) {
            Some(terms) => terms.needs.as_slice(),
            None => &[],
        }
    }

    /// All that the source wants over what is seen; nothing where not all of that is known.
    pub(crate) fn whole(&self, alloc: Global, seen: &Seen) -> Result<WholePlan, AllocError>
        ensures { IfOk result (λ whole. whole ≡ whole_over (Some self.now.source) seen.now) }
    {
        let plan = self.plan(alloc, seen)?;
        let found = whole(alloc, &plan);
        drop(plan);
        match found {
            Ok(Some(whole)) => Ok(whole),
            Ok(None) => Ok(nothing(alloc)),
            Err(failed) => Err(failed),
        }
    }

    /// The names that the source exports, over what was held.
    pub(crate) fn export_names(&self, alloc: Global) -> Result<Names, AllocError>
        ensures { IfOk result (λ names. names ≡ export_names_of self.now.source (seen_in self.now.before)) }
    {
        let seen = seen_in(alloc, self.before().as_slice())?;
        let plan = plan_by(alloc, self.source(), self.shape(), &seen)?;
        let names = export_names(alloc, &plan);
        drop(plan);
        names
    }
}

/// The source of an operation that set out with this, if one did.
pub(crate) fn source_in(outset: &Option<Outset>) -> Option<&Source>
    ensures { option_copied result ≡ source_in outset.now }
{
    match outset {
        Some(outset) => Some(outset.source()),
        None => None,
    }
}

/// What was held as it began.
pub(crate) fn before_in(outset: &Option<Outset>) -> &[Held]
    ensures { result.now ≡ before_in outset.now }
{
    match outset {
        Some(outset) => outset.before().as_slice(),
        None => &[],
    }
}

/// The policies and needs that its source gives a path, over what was held.
pub(crate) fn terms_in(
    alloc: Global,
    outset: &Option<Outset>,
    path: &Txt,
) -> Result<Terms, AllocError>
    ensures { IfOk result (λ terms. terms ≡ terms_of (wanted_in (source_in outset.now) (seen_in (before_in outset.now)) path.now)) }
{
    match outset {
        Some(outset) => outset.terms(alloc, path),
        None => Ok(Terms::usual(alloc)),
    }
}

/// The paths that its source says a path needs, over what was held.
pub(crate) fn needs_in<'a>(outset: &'a Option<Outset>, path: &Txt) -> &'a [Txt]
    ensures { result.now ≡ (terms_of (wanted_in (source_in outset.now) (seen_in (before_in outset.now)) path.now)).needs }
{
    match outset {
        Some(outset) => outset.needs(path),
        None => &[],
    }
}

/// All that its source wants over what is seen; nothing where not all of that is known.
pub(crate) fn whole_in(
    alloc: Global,
    outset: &Option<Outset>,
    seen: &Seen,
) -> Result<WholePlan, AllocError>
    ensures { IfOk result (λ whole. whole ≡ whole_over (source_in outset.now) seen.now) }
{
    match outset {
        Some(outset) => outset.whole(alloc, seen),
        None => Ok(nothing(alloc)),
    }
}

impl TryClone for Outset {
    fn try_clone(&self, _alloc: Global) -> Result<Outset, AllocError> {
        let ground = self.ground.clone()?;
        Ok(Outset { ground })
    }
}

/// What is wanted where nothing is known; it takes no memory.
fn nothing(alloc: Global) -> WholePlan
    ensures { result ≡ empty_whole }
{
    WholePlan {
        wanted: Listing::new(alloc),
        outputs: Outputs::new(alloc),
        exports: Listing::new(alloc),
    }
}

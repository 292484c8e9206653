//! The lanes that a step may take.
ghost use Rattle.std.specs.Prelude.{◌≡◌, ◌++◌, [], IfOk};
ghost use Rattle.std.specs.List.{cons_option, list_any};
ghost use Rattle.cf_plan.specs.Asked.{request_of};
ghost use Rattle.cf_next.specs.Chosen.{leases_of, schemas_of};
ghost use Rattle.cf_next.specs.Joining.{fits, has_lane, is_home_for};

use cf_plan::{Ask, Start, is_lane_leased, is_of_lane};
use cf_schema::{Schema, Schemas};
use cf_stacks::World;
use cf_tree::{Listing, Txt};
use std::alloc::{AllocError, Global};

/// A lane of the opening.
#[derive(Drop)]
pub struct Home {
    pub name: Txt,
    /// The schema of its resource type.
    pub schema: Schema,
    /// The token of its lease, where the lane is not at home.
    pub out: Option<u64>,
}

/// The lanes of the opening, in the order in which they were handed in.
pub type Homes = Listing<Home>;

/// Adds a token, where there is one.
fn add_lease(out: &mut Vec<u64>, lease: Option<u64>) -> Result<(), AllocError>
    ensures { IfOk result (λ _. out.new.items ≡ out.old.items ++ cons_option lease []) }
{
    match lease {
        Some(token) => {
            out.push(token)?;
            Ok(())
        }
        None => Ok(()),
    }
}

/// The tokens of the leases that are out, as the lanes tell them.
pub fn leases_of(alloc: Global, homes: &Homes) -> Result<Vec<u64>, AllocError>
    ensures { IfOk result (λ out. out.items ≡ leases_of homes.now) }
{
    let mut out = Vec::new(alloc);
    for home in homes.as_slice() {
        add_lease(&mut out, home.out)?;
    }
    Ok(out)
}

/// The schemas of the lanes that are handed in, one of each type.
pub fn schemas_of(alloc: Global, homes: &Homes) -> Result<Schemas, AllocError>
    ensures { IfOk result (λ schemas. schemas ≡ schemas_of homes.now) }
{
    let mut schemas = Schemas::new(alloc);
    for home in homes.as_slice() {
        schemas.add(home.schema.try_clone(alloc)?)?;
    }
    Ok(schemas)
}

/// Whether a lane of the last opening fits a request: by its type, or as the one that the id names.
fn is_fit(ask: &Ask, lane: &(Txt, Txt)) -> bool
    ensures { result ≡ fits (request_of ask.now) lane.now }
{
    match ask {
        Ask::Create { kind, props: _ } => **kind == lane.1,
        Ask::Update { physical, props: _ } => is_of_lane(&lane.0, physical),
        Ask::Delete { physical } => is_of_lane(&lane.0, physical),
    }
}

/// Whether a lane of the last opening fits a new call.
pub(crate) fn fits(start: &Start, lane: &(Txt, Txt)) -> bool
    ensures { result ≡ fits start.now.request lane.now }
{
    is_fit(start.ask(), lane)
}

/// Whether a lane of the last opening fits a new call and is at home.
pub(crate) fn is_home_for(out: &[u64], world: &World, start: &Start, lane: &(Txt, Txt)) -> bool
    ensures { result ≡ is_home_for out.now world.now.world start.now.request lane.now }
{
    fits(start, lane) && !is_lane_leased(out, world, &lane.0)
}

/// Whether one of these lanes fits a new call and is at home.
fn has_home_among(out: &[u64], world: &World, start: &Start, lanes: &[(Txt, Txt)]) -> bool
    ensures { result ≡ list_any (is_home_for out.now world.now.world start.now.request) lanes.now }
{
    lanes
        .iter()
        .any(|lane| is_home_for(out, world, start, lane))
}

/// Whether a lane at home fits a new call.
pub(crate) fn has_home(out: &[u64], world: &World, start: &Start) -> bool
    ensures { result ≡ list_any (is_home_for out.now world.now.world start.now.request) world.now.world.lanes }
{
    has_home_among(out, world, start, world.lanes().as_slice())
}

/// Whether one of these lanes fits a new call.
fn has_fitting(start: &Start, lanes: &[(Txt, Txt)]) -> bool
    ensures { result ≡ list_any (fits start.now.request) lanes.now }
{
    lanes.iter().any(|lane| fits(start, lane))
}

/// Whether a lane of the last opening fits a new call.
pub(crate) fn has_lane(world: &World, start: &Start) -> bool
    ensures { result ≡ has_lane world.now.world start.now }
{
    has_fitting(start, world.lanes().as_slice())
}

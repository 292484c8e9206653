ghost use Rattle.std.specs.Prelude.{◌≡◌, is_some};
ghost use Rattle.serde_json.specs.Find.{as_i64};
ghost use Rattle.serde_json.specs.View.{view, number_view, items_view, members_view};
ghost use Rattle.cf_template.specs.Walk.{Walks, is_allowed, item_region, items_fault, member_region, members_fault, number_fault, walk_fault};

use crate::path::Path;
use crate::refusal::TemplateFault;
use serde_json::{Map, Number, Value};
use std::alloc::Global;

/// Where in a template a value stands, as far as its numbers go.
#[derive(Clone, Copy)]
pub enum Region {
    /// The template itself.
    Root,
    /// Its section of resources.
    Resources,
    /// A resource.
    Resource,
    /// In the Metadata of the template or of a resource.
    Metadata,
    /// Anywhere else.
    Other,
}

impl Region {
    fn of_member(self, name: &str) -> Region
        ensures { result ≡ member_region self name.now }
    {
        match self {
            Region::Root => {
                if name == "Metadata" {
                    Region::Metadata
                } else if name == "Resources" {
                    Region::Resources
                } else {
                    Region::Other
                }
            }
            Region::Resources => Region::Resource,
            Region::Resource => {
                if name == "Metadata" {
                    Region::Metadata
                } else {
                    Region::Other
                }
            }
            Region::Metadata => Region::Metadata,
            Region::Other => Region::Other,
        }
    }

    fn of_item(self) -> Region
        ensures { result ≡ item_region self }
    {
        match self {
            Region::Metadata => Region::Metadata,
            Region::Root | Region::Resources | Region::Resource | Region::Other => Region::Other,
        }
    }

    fn allows(self, number: &Number) -> bool
        ensures { result ≡ is_allowed self (number_view number.now) }
    {
        match self {
            Region::Metadata => true,
            Region::Root | Region::Resources | Region::Resource | Region::Other => number.is_i64(),
        }
    }
}

/// Looks for the first null, and for the first number that may not stand where it does. The path is that of the value,
/// and is so again at the end.
#[cycle(walk)]
pub(crate) fn walk(
    alloc: Global,
    value: &Value,
    region: Region,
    path: &mut Path,
) -> Result<(), TemplateFault>
    ensures { Walks (walk_fault (view value.now) region path.old) path.old path.new result }
{
    match value {
        Value::Null => Err(TemplateFault::NullValue {
            path: path.to_txt(alloc)?,
        }),
        Value::Number(number) => walk_number(alloc, number, region, path),
        Value::Array(items) => walk_items(alloc, items, region.of_item(), path),
        Value::Object(members) => walk_members(alloc, members, region, path),
        Value::Bool(_) | Value::String(_) => Ok(()),
    }
}

fn walk_number(
    alloc: Global,
    number: &Number,
    region: Region,
    path: &mut Path,
) -> Result<(), TemplateFault>
    ensures { Walks (number_fault (number_view number.now) region path.old) path.old path.new result }
{
    if region.allows(number) {
        Ok(())
    } else {
        Err(TemplateFault::BadNumber {
            path: path.to_txt(alloc)?,
        })
    }
}

#[cycle(walk)]
fn walk_items(
    alloc: Global,
    items: &Vec<Value>,
    region: Region,
    path: &mut Path,
) -> Result<(), TemplateFault>
    ensures { Walks (items_fault (items_view items.now.items) region path.old 0) path.old path.new result }
{
    let mut index = 0;
    for item in items {
        let length = path.enter_item(alloc, index)?;
        walk(alloc, item, region, path)?;
        path.leave(length);
        index += 1;
    }
    Ok(())
}

#[cycle(walk)]
fn walk_members(
    alloc: Global,
    members: &Map<String, Value>,
    region: Region,
    path: &mut Path,
) -> Result<(), TemplateFault>
    ensures { Walks (members_fault (members_view members.now.entries) region path.old) path.old path.new result }
{
    for (name, member) in members.iter() {
        let length = path.enter_member(alloc, name.as_str())?;
        walk(alloc, member, region.of_member(name.as_str()), path)?;
        path.leave(length);
    }
    Ok(())
}

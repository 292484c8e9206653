//! Pseudo parameters.
ghost use Rattle.std.specs.Prelude.{◌≡◌, IfOk, string_bytes};
ghost use Rattle.cf_tree.specs.Datum.{text};
ghost use Rattle.cf_tree.specs.Keys.{put};
ghost use Rattle.cf_desired.specs.Names.{stack_id, pseudo_of};

use cf_tree::{Dict, Txt, Val, Vals};
use std::alloc::{AllocError, Global};

/// The pseudo parameters but `AWS::NoValue` in a stack with this name, where the operation of this number creates the root
/// (template reference, pseudo parameters).
pub(crate) fn pseudo_of(alloc: Global, stack: &Txt, number: u64) -> Result<Dict, AllocError>
    ensures { IfOk result (λ d. d ≡ pseudo_of stack.now number) }
{
    let mut pseudo = Dict::new(alloc);
    put(alloc, &mut pseudo, "AWS::AccountId", "123456789012")?;
    pseudo.insert(
        Txt::from_str(alloc, "AWS::NotificationARNs")?,
        Val::List(Vals::new(alloc)),
    )?;
    put(alloc, &mut pseudo, "AWS::Partition", "aws")?;
    put(alloc, &mut pseudo, "AWS::Region", "us-east-1")?;
    let id = stack_id(alloc, stack, number)?;
    put(alloc, &mut pseudo, "AWS::StackId", id.as_str())?;
    put(alloc, &mut pseudo, "AWS::StackName", stack.as_str())?;
    put(alloc, &mut pseudo, "AWS::URLSuffix", "amazonaws.com")?;
    Ok(pseudo)
}

/// Puts a text under a name.
fn put(alloc: Global, pseudo: &mut Dict, name: &str, value: &str) -> Result<(), AllocError>
    ensures { IfOk result (λ _. pseudo.new ≡ put name.now (text value.now) pseudo.old) }
{
    pseudo.insert(
        Txt::from_str(alloc, name)?,
        Val::Text(Txt::from_str(alloc, value)?),
    )
}

/// The id of a stack.
#[tactic(auto, using(crate::proofs::Joined::four_parts))]
pub(crate) fn stack_id(alloc: Global, name: &Txt, number: u64) -> Result<String, AllocError>
    ensures { IfOk result (λ id. string_bytes id ≡ stack_id name.now number) }
{
    let digits = number.to_string(alloc)?;
    let mut id = String::from_str(
        alloc,
        "arn:aws:cloudformation:us-east-1:123456789012:stack/",
    )?;
    id.push_str(name.as_str())?;
    id.push_str("/")?;
    id.push_str(digits.as_str())?;
    Ok(id)
}

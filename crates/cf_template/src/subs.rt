ghost use Rattle.std.specs.Prelude.{◌≡◌, ◌+◌, ◌++◌, ◌<◌, ◌^◌, length, OnOk};
ghost use Rattle.cf_template.specs.Subs.{IsHole, IsParts, hole_part, plain_parts};

use cf_funcs::cut;
use cf_tree::{Part, Parts, Txt};
use std::alloc::{AllocError, AllocFailed, Global};

/// Why a text is no text with holes.
#[derive(Clone, Copy, Drop)]
pub enum SubFault {
    /// A hole is opened there, in bytes from the text's start, and not closed.
    Unclosed { at: u64 },
    /// A hole without a name is opened there, in bytes from the text's start.
    Empty { at: u64 },
    /// Memory was not there; nothing is said of the text.
    NoMemory,
}

impl From<AllocError> for SubFault {
    ghost use Rattle.std.specs.Prelude.{◌≡◌};
    ghost use Rattle.cf_template.specs.Subs.{no_memory};

    ghost from_gives = { λ _ e. e ≡ no_memory };

    fn from(_refused: AllocError) -> SubFault {
        SubFault::NoMemory
    }
}

/// The parts of a text with holes (template reference, `Fn::Sub`): `${X}` is a hole with the name X, and `${!X}` is the
/// plain text `${X}`. Each stretch of plain text is a part of its own.
///
/// # Errors
///
/// `Unclosed` where a `${` has no `}` behind it, and `Empty` at `${}`, the first of them in the text; `NoMemory` where
/// there is no memory for the parts.
#[tactic(auto, using(crate::proofs::Holes::parts_begun, crate::proofs::Holes::ended, crate::proofs::Holes::opened_length, crate::proofs::Holes::closed_length))]
pub fn sub_parts(alloc: Global, text: &str) -> Result<Parts, SubFault>
    ensures { IsParts text.now result }
{
    let mut parts = Parts::new(alloc);
    let mut rest = text;
    let mut at = 0;
    while let Some((plain, opened)) = cut(rest, "${") {
        let place = at + plain.len() as u64;
        let (name, after) = match cut(opened, "}") {
            Some(pieces) => pieces,
            None => return Err(SubFault::Unclosed { at: place }),
        };
        push_plain(alloc, &mut parts, plain)?;
        let hole = hole_part(alloc, name, place)?;
        parts.push(hole)?;
        at = place + name.len() as u64 + 3;
        rest = after;
    }
    push_plain(alloc, &mut parts, rest)?;
    Ok(parts)
}

fn push_plain(alloc: Global, parts: &mut Parts, text: &str) -> Result<(), AllocError>
    ensures { OnOk result (parts.new ≡ parts.old ++ plain_parts text.now) }
{
    if !text.is_empty() {
        parts.push(Part::Plain(Txt::from_str(alloc, text)?))?;
    }
    Ok(())
}

/// What stands between `${` and `}`, as a part.
#[tactic(auto, using(crate::proofs::Holes::named))]
fn hole_part(alloc: Global, name: &str, at: u64) -> Result<Part, SubFault>
    ensures { IsHole (hole_part at name.now) result }
{
    match name.strip_prefix('!') {
        Some(literal) => {
            let mut text = String::from_str(alloc, "${")?;
            text.push_str(literal)?;
            text.push_str("}")?;
            Ok(Part::Plain(Txt::new(text)))
        }
        None => {
            if name.is_empty() {
                Err(SubFault::Empty { at })
            } else {
                Ok(Part::Name(Txt::from_str(alloc, name)?))
            }
        }
    }
}

ghost use Rattle.std.specs.Prelude.{◌≡◌, ◌<◌, [], ◌++◌, length, take, slice_index, IfOk, OnOk, string_bytes};
ghost use Rattle.cf_template.specs.Places.{replaced, escaped, member_place, item_at};

use cf_funcs::cut;
use cf_tree::Txt;
use std::alloc::{AllocError, Global};
use std::marker::Model;

/// A place in a template, a JSON pointer (RFC 6901), that grows on the way in and is cut back on the way out.
#[derive(Drop)]
pub(crate) struct Path {
    text: String,
}

impl Model for Path {
    ghost use Rattle.std.specs.Prelude.{ℕ, List, string_bytes};

    ghost Value = { List ℕ };

    ghost view = { λ p. string_bytes p.text };
}

impl Path {
    /// The root; it takes no memory.
    pub(crate) fn root(alloc: Global) -> Path
        ensures { result ≡ [] }
    {
        Path {
            text: String::new(alloc),
        }
    }

    /// The place as a text of its own.
    pub(crate) fn to_txt(&self, alloc: Global) -> Result<Txt, AllocError>
        ensures { IfOk result (λ t. t ≡ self.now) }
    {
        Txt::from_str(alloc, self.text.as_str())
    }

    /// Goes to the member of a name, and tells the length at which to leave it.
    pub(crate) fn enter_member(&mut self, alloc: Global, name: &str) -> Result<usize, AllocError>
        ensures place { OnOk result (self.new ≡ member_place self.old name.now) }
        ensures slash { IfOk result (λ n. slice_index self.new n ≡ 47) }
        ensures back { IfOk result (λ n. take n self.new ≡ self.old) }
    {
        let length = self.text.len();
        self.text.push_str("/")?;
        push_escaped(alloc, &mut self.text, name)?;
        Ok(length)
    }

    /// Goes to the item of an index, and tells the length at which to leave it.
    pub(crate) fn enter_item(&mut self, alloc: Global, index: usize) -> Result<usize, AllocError>
        ensures place { OnOk result (self.new ≡ item_at self.old index) }
        ensures slash { IfOk result (λ n. slice_index self.new n ≡ 47) }
        ensures back { IfOk result (λ n. take n self.new ≡ self.old) }
    {
        let length = self.text.len();
        self.text.push_str("/")?;
        self.text.push_str(index.to_string(alloc)?.as_str())?;
        Ok(length)
    }

    /// Goes back to the place of a length, behind which a slash stands.
    pub(crate) fn leave(&mut self, length: usize)
        requires { slice_index self.old length ≡ 47 }
        ensures { self.new ≡ take length self.old }
    {
        self.text.truncate(length);
    }
}

/// The member of a name, at an object's place.
pub(crate) fn member_at(alloc: Global, at: &str, name: &str) -> Result<Txt, AllocError>
    ensures { IfOk result (λ t. t ≡ member_place at.now name.now) }
{
    let mut text = String::from_str(alloc, at)?;
    text.push_str("/")?;
    push_escaped(alloc, &mut text, name)?;
    Ok(Txt::new(text))
}

/// The item of an index, at a list's place.
pub(crate) fn item_at(alloc: Global, at: &str, index: usize) -> Result<Txt, AllocError>
    ensures { IfOk result (λ t. t ≡ item_at at.now index) }
{
    let mut text = String::from_str(alloc, at)?;
    text.push_str("/")?;
    text.push_str(index.to_string(alloc)?.as_str())?;
    Ok(Txt::new(text))
}

fn push_escaped(alloc: Global, text: &mut String, name: &str) -> Result<(), AllocError>
    ensures { OnOk result (string_bytes text.new ≡ string_bytes text.old ++ escaped name.now) }
{
    let mut first = String::new(alloc);
    push_replaced(&mut first, "~", "~0", name)?;
    push_replaced(text, "/", "~1", first.as_str())
}

/// Adds a text with a word in place of each byte.
#[tactic(auto, using(crate::proofs::Escapes::replaced_cut, crate::proofs::Escapes::replaced_whole))]
fn push_replaced(text: &mut String, byte: &str, word: &str, name: &str) -> Result<(), AllocError>
    requires { length byte.now ≡ 1 }
    ensures { OnOk result (string_bytes text.new ≡ string_bytes text.old ++ replaced (slice_index byte.now 0) word.now name.now) }
{
    let mut rest = name;
    while let Some((before, after)) = cut(rest, byte) {
        text.push_str(before)?;
        text.push_str(word)?;
        rest = after;
    }
    text.push_str(rest)
}

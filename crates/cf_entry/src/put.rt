//! The pieces that every entry is written from. Each needs its room and takes no memory.
ghost use Rattle.std.specs.Prelude.{◌<◌, ◌^◌, [], ◌∷◌, length};
ghost use Rattle.cf_entry.specs.Bytes.{truth_byte, four_bytes, eight_bytes, text_bytes, list_bytes, pair_bytes, IsText, IsPair, IsTemplate, AreAll, HasCapacity, AddsBytes};

pub mod entry;
mod row;
mod turn;
mod value;

use cf_tree::{Bytes, Txt};
pub use row::put_rows;
pub use turn::put_cause_if_any;
pub use value::{put_dict, put_value};

/// Bytes as they are.
pub fn put_bytes(to: &mut Vec<u8>, bytes: &[u8])
    requires { HasCapacity to.old bytes.now }
    ensures { AddsBytes to.old to.new bytes.now }
{
    match to.extend_from_slice(bytes) {
        Ok(()) => {}
        Err(_) => unreachable!(),
    }
}

/// One byte.
pub fn put_byte(to: &mut Vec<u8>, byte: u8)
    requires { HasCapacity to.old (byte ∷ []) }
    ensures { AddsBytes to.old to.new (byte ∷ []) }
{
    to.push_reserved(byte);
}

/// A truth value.
pub fn put_truth(to: &mut Vec<u8>, truth: bool)
    requires { HasCapacity to.old (truth_byte truth ∷ []) }
    ensures { AddsBytes to.old to.new (truth_byte truth ∷ []) }
{
    put_byte(to, u8::from(truth));
}

/// A number in four bytes.
pub fn put_four(to: &mut Vec<u8>, number: u32)
    requires { HasCapacity to.old (four_bytes number) }
    ensures { AddsBytes to.old to.new (four_bytes number) }
{
    put_bytes(to, &number.to_be_bytes());
}

/// A number in eight bytes.
pub fn put_eight(to: &mut Vec<u8>, number: u64)
    requires { HasCapacity to.old (eight_bytes number) }
    ensures { AddsBytes to.old to.new (eight_bytes number) }
{
    put_bytes(to, &number.to_be_bytes());
}

/// Bytes behind their length.
pub fn put_run(to: &mut Vec<u8>, bytes: &[u8])
    requires small { length bytes.now < 2 ^ 32 }
    requires room { HasCapacity to.old (text_bytes bytes.now) }
    ensures { AddsBytes to.old to.new (text_bytes bytes.now) }
{
    put_four(to, bytes.len() as u32);
    put_bytes(to, bytes);
}

/// A text behind its length.
pub fn put_text(to: &mut Vec<u8>, text: &Txt)
    requires small { length (text_bytes text.now) < 2 ^ 32 }
    requires room { HasCapacity to.old (text_bytes text.now) }
    ensures added { AddsBytes to.old to.new (text_bytes text.now) }
    ensures fits { IsText text.now }
{
    put_run(to, text.as_str().as_bytes());
}

/// Texts behind their number.
#[tactic(auto, using(crate::proofs::Counts::few_texts))]
pub fn put_texts(to: &mut Vec<u8>, texts: &[Txt])
    requires small { length (list_bytes text_bytes texts.now) < 2 ^ 32 }
    requires room { HasCapacity to.old (list_bytes text_bytes texts.now) }
    ensures added { AddsBytes to.old to.new (list_bytes text_bytes texts.now) }
    ensures fits { AreAll IsText texts.now }
{
    put_four(to, texts.len() as u32);
    for text in texts.iter() {
        put_text(to, text);
    }
}

/// Pairs of texts behind their number.
#[tactic(auto, using(crate::proofs::Counts::few_pairs))]
pub fn put_pairs(to: &mut Vec<u8>, pairs: &[(Txt, Txt)])
    requires small { length (list_bytes pair_bytes pairs.now) < 2 ^ 32 }
    requires room { HasCapacity to.old (list_bytes pair_bytes pairs.now) }
    ensures added { AddsBytes to.old to.new (list_bytes pair_bytes pairs.now) }
    ensures fits { AreAll IsPair pairs.now }
{
    put_four(to, pairs.len() as u32);
    for pair in pairs.iter() {
        put_text(to, &pair.0);
        put_text(to, &pair.1);
    }
}

/// Names with their templates, behind their number.
#[tactic(auto, using(crate::proofs::Counts::few_pairs))]
pub fn put_templates(to: &mut Vec<u8>, templates: &[(Txt, Bytes)])
    requires small { length (list_bytes pair_bytes templates.now) < 2 ^ 32 }
    requires room { HasCapacity to.old (list_bytes pair_bytes templates.now) }
    ensures added { AddsBytes to.old to.new (list_bytes pair_bytes templates.now) }
    ensures fits { AreAll IsTemplate templates.now }
{
    put_four(to, templates.len() as u32);
    for template in templates.iter() {
        put_text(to, &template.0);
        put_run(to, template.1.as_slice());
    }
}

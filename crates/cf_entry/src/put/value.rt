//! How values are written.
ghost use Rattle.std.specs.Prelude.{◌<◌, ◌^◌, length};
ghost use Rattle.cf_tree.specs.Datum.{items_of};
ghost use Rattle.cf_tree.specs.Value.{datum_of};
ghost use Rattle.cf_entry.specs.Bytes.{HasCapacity, AddsBytes};
ghost use Rattle.cf_entry.specs.Value.{value_bytes, values_bytes, dict_bytes, IsValue, IsList, IsDict};

use crate::put::{put_byte, put_eight, put_four, put_text, put_truth};
use cf_tree::{Dict, Val, Vals};

/// A value behind the byte for its kind.
#[cycle(put_value)]
pub fn put_value(to: &mut Vec<u8>, value: &Val)
    requires small { length (value_bytes (datum_of value.now)) < 2 ^ 32 }
    requires room { HasCapacity to.old (value_bytes (datum_of value.now)) }
    ensures added { AddsBytes to.old to.new (value_bytes (datum_of value.now)) }
    ensures fits { IsValue (datum_of value.now) }
{
    match value {
        Val::Text(text) => {
            put_byte(to, 1);
            put_text(to, text);
        }
        Val::Whole(number) => {
            put_byte(to, 2);
            put_eight(to, number.cast_unsigned());
        }
        Val::Truth(truth) => {
            put_byte(to, 3);
            put_truth(to, *truth);
        }
        Val::List(values) => {
            put_byte(to, 4);
            put_values(to, values);
        }
        Val::Dict(pairs) => {
            put_byte(to, 5);
            put_dict(to, pairs);
        }
    }
}

/// The number of some values, and the values.
#[cycle(put_value)]
#[tactic(auto, using(cf_tree::proofs::Falls::item_falls, crate::proofs::Counts::few_items, crate::proofs::Counts::items_are))]
fn put_values(to: &mut Vec<u8>, values: &Vals)
    requires small { length (values_bytes (items_of values.now)) < 2 ^ 32 }
    requires room { HasCapacity to.old (values_bytes (items_of values.now)) }
    ensures added { AddsBytes to.old to.new (values_bytes (items_of values.now)) }
    ensures fits { IsList (items_of values.now) }
{
    let all = values.as_slice();
    put_four(to, all.len() as u32);
    for value in all.iter() {
        put_value(to, value);
    }
}

/// The number of some pairs, and the pairs.
#[cycle(put_value)]
#[tactic(auto, using(cf_tree::proofs::Falls::pair_falls, crate::proofs::Counts::few_members, crate::proofs::Counts::members_are, crate::proofs::Counts::pairs_are))]
pub fn put_dict(to: &mut Vec<u8>, pairs: &Dict)
    requires small { length (dict_bytes pairs.now) < 2 ^ 32 }
    requires room { HasCapacity to.old (dict_bytes pairs.now) }
    ensures added { AddsBytes to.old to.new (dict_bytes pairs.now) }
    ensures fits { IsDict pairs.now }
{
    let all = pairs.as_slice();
    put_four(to, all.len() as u32);
    for pair in all.iter() {
        put_text(to, &pair.name);
        put_value(to, &pair.value);
    }
}

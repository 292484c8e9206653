//! How long the encoding of a value is.
ghost use Rattle.std.specs.Prelude.{◌≡◌, ◌+◌, ◌^◌, ◌≤◌};
ghost use Rattle.cf_tree.specs.SizeOf.{capped, size_of, size_of_text, size_of_items, size_of_members, size_of_dict};
ghost use Rattle.cf_tree.specs.Datum.{items_of, members_of};
ghost use Rattle.cf_tree.specs.Value.{datum_of};

use crate::value::{Dict, Val, Vals};

/// The length that stands for itself and every greater one.
const MOST: u64 = 1 << 63;

/// How long the encoding of a value is, each length field counted as four bytes; 2^63 stands for
/// every length from there on. It takes no memory.
pub fn size_of_val(v: &Val) -> u64
    ensures { result ≡ capped (size_of (datum_of v.now)) }
{
    v.encoded_size()
}

/// How long the encoding of a text is, behind its length in four bytes; at most 2^63.
pub fn size_of_txt(text: &str) -> u64
    ensures { result ≡ capped (size_of_text text.now) }
{
    sum_of_sizes(4, (text.len() as u64).min(MOST))
}

/// The sum of two lengths that are at most 2^63, and 2^63 where it is greater.
pub fn sum_of_sizes(one: u64, other: u64) -> u64
    requires one { one ≤ 2 ^ 63 }
    requires other { other ≤ 2 ^ 63 }
    ensures { result ≡ capped (one + other) }
{
    if one >= MOST - other {
        MOST
    } else {
        one + other
    }
}

impl Val {
    #[cycle(val_size)]
    fn encoded_size(&self) -> u64
        ensures { result ≡ capped (size_of (datum_of self.now)) }
    {
        match self {
            Val::Text(text) => sum_of_sizes(1, size_of_txt(text.as_str())),
            Val::Whole(_) => 9,
            Val::Truth(_) => 2,
            Val::List(items) => sum_of_sizes(5, items.members_size()),
            Val::Dict(pairs) => sum_of_sizes(5, pairs.members_size()),
        }
    }
}

impl Vals {
    #[cycle(val_size)]
    fn members_size(&self) -> u64
        ensures { result ≡ capped (size_of_items (items_of self.now)) }
    {
        let mut total = 0;
        for item in self.items.iter() {
            total = sum_of_sizes(total, item.encoded_size());
        }
        total
    }
}

impl Dict {
    #[cycle(val_size)]
    fn members_size(&self) -> u64
        ensures { result ≡ capped (size_of_members (members_of self.now)) }
    {
        let mut total = 0;
        for pair in self.pairs.iter() {
            total = sum_of_sizes(total, size_of_txt(pair.name.as_str()));
            total = sum_of_sizes(total, pair.value.encoded_size());
        }
        total
    }
}

impl Dict {
    /// How long the encoding of the pairs is without the byte for its kind, as properties and
    /// attributes are counted: the number of pairs in four bytes, and the pairs. At most 2^63; it
    /// takes no memory.
    pub fn size(&self) -> u64
        ensures { result ≡ capped (size_of_dict self.now) }
    {
        sum_of_sizes(4, self.members_size())
    }
}

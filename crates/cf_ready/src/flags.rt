//! A row of flags: the next that is set is found, and each is changed, in time proportional to the logarithm of their number.
ghost use Rattle.std.specs.Prelude.{◌≡◌, ◌<◌, ◌+◌, ◌*◌, false, length, set, slice_index_or, replicate, IfOk};
ghost use Rattle.cf_ready.specs.Halved.{in_pair, next_set, pair_of, IsNextIn};

use std::alloc::{AllocError, Global};
use std::marker::Model;

/// Flags, which contracts see as the list of them.
#[cycle(flags)]
#[derive(Drop)]
pub struct Flags {
    bits: Vec<bool>,
    above: Above,
}

/// Of each two neighbours whether one is set, where there is more than one flag.
#[cycle(flags)]
#[derive(Drop)]
enum Above {
    Top,
    Half(Box<Flags>),
}

impl Model for Flags {
    ghost use Rattle.std.specs.Prelude.{ℕ, List, Bool, length};

    ghost Value = { List Bool };

    ghost use Rattle.cf_ready.specs.Above.{IsAbove};

    ghost view = { λ f. f.bits.items };

    ghost invariant = { λ f. IsAbove f.bits.items f.above };

    ghost size = { length };

    ghost use Rattle.cf_ready.specs.Smaller.{above_is_smaller};

    ghost size_decreases = { λ f h. above_is_smaller f.bits.items f.above h };
}

/// Which flag this is; one past the end is not set.
fn bit_at(bits: &[bool], at: usize) -> bool
    ensures { result ≡ slice_index_or bits.now at false }
{
    match bits.get(at) {
        Some(bit) => *bit,
        None => false,
    }
}

/// Whether one of the two neighbours of a place is set.
fn pair_of(bits: &[bool], half: usize) -> bool
    requires { 2 * half < length bits.now }
    ensures { result ≡ pair_of bits.now half }
{
    bit_at(bits, 2 * half) || bit_at(bits, 2 * half + 1)
}

/// The first from a place on that is set, of this one and its neighbour.
fn in_pair(bits: &[bool], at: usize) -> Option<usize>
    requires { at < length bits.now }
    ensures { result ≡ in_pair bits.now at }
{
    if bits[at] {
        Some(at)
    } else if at % 2 == 0 && bit_at(bits, at + 1) {
        Some(at + 1)
    } else {
        None
    }
}

/// The first of two neighbours that is set.
fn first_of_two(bits: &[bool], half: usize, at: usize) -> usize
    requires { IsNextIn bits.now at half }
    ensures { next_set bits.now at ≡ Some result }
{
    let _from = at;
    if bits[2 * half] {
        2 * half
    } else {
        2 * half + 1
    }
}

impl Flags {
    /// How many flags there are.
    pub fn len(&self) -> usize
        ensures { result ≡ length self.now }
    {
        self.bits.len()
    }

    /// Which flag this is; one past the end is not set.
    pub fn get(&self, at: usize) -> bool
        ensures { result ≡ slice_index_or self.now at false }
    {
        bit_at(self.bits.as_slice(), at)
    }

    /// Changes one flag; it takes no memory.
    #[tactic(auto, using(crate::proofs::Halves::halved_set, crate::proofs::Halves::half_lt))]
    pub fn set(&mut self, at: usize, flag: bool)
        requires { at < length self.old }
        ensures { self.new ≡ set self.old at flag }
    {
        self.bits[at] = flag;
        let half = at / 2;
        let any = pair_of(self.bits.as_slice(), half);
        match &mut self.above {
            Above::Top => {}
            Above::Half(above) => above.set(half, any),
        }
    }

    /// The place of the first flag from a place on that is set.
    #[tactic(auto, using(crate::proofs::Halves::next_past, crate::proofs::Halves::next_paired, crate::proofs::Halves::next_none, crate::proofs::Halves::next_at_top))]
    pub fn next(&self, at: usize) -> Option<usize>
        ensures { result ≡ next_set self.now at }
    {
        if at >= self.bits.len() {
            return None;
        }
        match in_pair(self.bits.as_slice(), at) {
            Some(found) => Some(found),
            None => match &self.above {
                Above::Top => None,
                Above::Half(above) => match above.next(at / 2 + 1) {
                    Some(half) => Some(first_of_two(self.bits.as_slice(), half, at)),
                    None => None,
                },
            },
        }
    }

    /// So many flags, none of them set.
    ///
    /// # Errors
    ///
    /// Only for want of memory.
    #[tactic(auto, using(crate::proofs::Halves::halved_none))]
    pub fn new(alloc: Global, count: usize) -> Result<Flags, AllocError>
        ensures { IfOk result (λ flags. flags ≡ replicate count false) }
    {
        let bits = vec![in alloc; false; count]?;
        if count <= 1 {
            return Ok(Flags {
                bits,
                above: Above::Top,
            });
        }
        let half = Flags::new(alloc, count - count / 2)?;
        let above = Box::new(alloc, half)?;
        Ok(Flags {
            bits,
            above: Above::Half(above),
        })
    }
}

// Sets of stages. A set is one number, in which stage k is the bit worth 2^k; how wide it is and how it is stored is known here and
// nowhere above. Every function is total: a stage at or above the width is in no set.
//
// The contracts speak of the set's number (`number`), by the library's operations on numbers; `specs/Member.antt` says what membership
// is, and `proofs/` has the laws of sets, over any width. The checks of this crate see what a set and a row are; those above it do not.
#![tactic(auto, unfolding(crate::specs::Number::number, crate::specs::Number::single, crate::specs::Row::held, crate::specs::Row::room))]

pub mod row;
pub mod stored;

ghost use Rattle.std.specs.Prelude.{◌≡◌, ◌+◌, ◌-◌, ◌*◌, ◌^◌, ◌<◌, min};
ghost use Rattle.std.specs.Int.Bits.{bit_and, bit_or};
ghost use Rattle.std.specs.Int.Count.{ones, count_trailing_zeros};
ghost use Rattle.model.specs.Decides.{Decides};
ghost use Rattle.sets.specs.Member.{Has, Within, Empty};
ghost use Rattle.std.specs.Iterator.{at_most};
ghost use Rattle.sets.specs.Walk.{Next};
ghost use Rattle.sets.specs.Number.{number, single, stored, width, size};

// How many stages a set has room for, and how many bytes a stored one takes.
pub const WIDTH: usize = 64;

pub const BYTES: usize = 8;

#[derive(Clone, Copy, PartialEq, Eq)]
pub struct Set {
    bits: u64,
}

impl Set {
    // The set with no stage.
    pub fn empty() -> Set
        ensures { number result ≡ 0 }
    {
        Set { bits: 0 }
    }

    // The stages below n; all that there is room for where n is the width or more.
    pub fn below(n: usize) -> Set
        ensures { number result ≡ 2 ^ (min n width) - 1 }
    {
        if n < WIDTH {
            let next = power(n);
            Set { bits: next - 1 }
        } else {
            Set { bits: u64::MAX }
        }
    }

    // The set of stage k alone; empty where there is no room for k.
    pub fn only(k: usize) -> Set
        ensures { number result ≡ single k }
    {
        if k < WIDTH {
            Set { bits: power(k) }
        } else {
            Set { bits: 0 }
        }
    }

    // Whether stage k is in the set.
    pub fn has(self, k: usize) -> bool
        ensures { Decides result (Has (number self) k) }
    {
        k < WIDTH && (self.bits >> k) % 2 == 1
    }

    // The stages of either set.
    pub fn union(self, other: Set) -> Set
        ensures { number result ≡ bit_or (number self) (number other) }
    {
        Set {
            bits: self.bits | other.bits,
        }
    }

    // The stages of both sets.
    pub fn common(self, other: Set) -> Set
        ensures { number result ≡ bit_and (number self) (number other) }
    {
        Set {
            bits: self.bits & other.bits,
        }
    }

    // The stages of this set that are not in the other.
    pub fn minus(self, other: Set) -> Set
        ensures { number result ≡ number self - bit_and (number self) (number other) }
    {
        Set {
            bits: self.bits - (self.bits & other.bits),
        }
    }

    // The set with stage k besides; unchanged where there is no room for k.
    pub fn with(self, k: usize) -> Set
        ensures { number result ≡ bit_or (number self) (single k) }
    {
        self.union(Set::only(k))
    }

    // The set less stage k.
    pub fn without(self, k: usize) -> Set
        ensures { number result ≡ number self - bit_and (number self) (single k) }
    {
        self.minus(Set::only(k))
    }

    // Whether every stage of this set is in the other.
    pub fn subset(self, other: Set) -> bool
        ensures { Decides result (Within (number self) (number other)) }
    {
        self.bits & other.bits == self.bits
    }

    // Whether the set has no stage.
    pub fn is_empty(self) -> bool
        ensures { Decides result (Empty (number self)) }
    {
        self.bits == 0
    }

    // How many stages the set has.
    pub fn count(self) -> usize
        ensures { result ≡ ones (number self) }
    {
        self.bits.count_ones() as usize
    }

    // The lowest stage of the set; the width where it has none, as its clause says: no set holds it, and it is no stage of any graph.
    pub fn lowest(self) -> usize
        ensures { result ≡ count_trailing_zeros width (number self) }
    {
        self.bits.trailing_zeros() as usize
    }

    // The set less its lowest stage; empty where it has none.
    pub fn rest(self) -> Set
        ensures { number result ≡ bit_and (number self) (number self - 1) }
    {
        if self.bits == 0 {
            self
        } else {
            Set {
                bits: self.bits & (self.bits - 1),
            }
        }
    }

    // The stages of the set one by one, the lowest first.
    pub fn stages(self) -> Stages
        ensures { number result.left ≡ number self }
    {
        Stages { left: self }
    }

    // Set i of those stored one after another in the bytes from a place on; empty where its bytes are not all there.
    pub fn read_nth(bytes: &[u8], start: usize, i: usize) -> Set
        ensures { number result ≡ stored bytes.now (start + size * i) }
    {
        let Some(sets) = bytes.get(start..) else {
            return Set::empty();
        };
        match sets.as_chunks::<BYTES>().0.get(i) {
            Some(piece) => Set {
                bits: u64::from_be_bytes(*piece),
            },
            None => Set::empty(),
        }
    }
}

// The stages of a set that are still to come, the lowest first.
#[derive(Clone, Copy)]
pub struct Stages {
    left: Set,
}

impl Iterator for Stages {
    type Item = usize;

    ghost next_gives = { λ s r t. Next (number s.left) r (number t.left) };

    ghost remaining = { λ s. at_most (ones (number s.left)) };

    fn next(&mut self) -> Option<usize> {
        if self.left.is_empty() {
            return None;
        }
        let k = self.left.lowest();
        self.left = self.left.rest();
        Some(k)
    }
}

// The number of stage k alone.
fn power(k: usize) -> u64
    requires { k < width }
    ensures { result ≡ 2 ^ k }
{
    1u64 << k
}

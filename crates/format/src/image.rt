// Reading a stage image: its shape, or one of the refusals 1 to 5.
ghost use Rattle.std.specs.Prelude.{◌≡◌, ◌≤◌};
ghost use Rattle.model.specs.Decides.{Decides};
ghost use Rattle.sets.specs.Number.{number};
ghost use Rattle.format.specs.Image.{SizesFit, AritiesFit, LengthFits, HighBit, FirstSet, set_of, sets_for};
ghost use Rattle.format.specs.Reading.{Plain};
ghost use Rattle.format.specs.Answers.{ImageAnswer};

use crate::{Refusal, begins, byte};
use sets::Set;

// What the bytes of a readable image say of its layout: n, p, and how many sets there are.
#[derive(Clone, Copy)]
pub struct Shape {
    pub stages: usize,
    pub predicates: usize,
    pub sets: usize,
}

// The image's shape, or the first of its refusals.
pub fn read(image: &[u8]) -> Result<Shape, Refusal>
    ensures { ImageAnswer image.now result }
{
    if !begins(image, b'M', 7) {
        return Err(Refusal::ImageStart);
    }
    if !sizes_fit(image) {
        return Err(Refusal::ImageSizes);
    }
    if !length_fits(image) {
        return Err(Refusal::ImageLength);
    }
    let plain = plain_sets(image);
    if high_bit(image, plain) {
        return Err(Refusal::BitTooHigh);
    }
    let n = byte(image, 5) as usize;
    if plain < n {
        return Err(Refusal::NoSuccessor);
    }
    let p = byte(image, 6);
    Ok(Shape {
        stages: n,
        predicates: p as usize,
        sets: first_set(image, p),
    })
}

// The set with number i; empty where the image ends before it.
pub fn set(image: &[u8], i: usize) -> Set
    ensures { number result ≡ set_of image.now i }
{
    let p = byte(image, 6) as usize;
    Set::read_nth(image, 7 + p, i)
}

// The number of predicate q's first set.
pub fn first_set(image: &[u8], q: u8) -> usize
    ensures { FirstSet image.now q result }
{
    let n = byte(image, 5) as usize;
    let mut first = n;
    for i in 0..q {
        first += sets_for(n, byte(image, 7 + i as usize));
    }
    first
}

// How many sets a predicate has.
fn sets_for(n: usize, arity: u8) -> usize
    ensures { result ≡ sets_for n arity }
{
    if arity == 2 { n } else { 1 }
}

fn sizes_fit(image: &[u8]) -> bool
    ensures { Decides result (SizesFit image.now) }
{
    let n = byte(image, 5);
    let p = byte(image, 6);
    (1..=64).contains(&n) && p <= 16
}

fn arities_fit(image: &[u8]) -> bool
    ensures { Decides result (AritiesFit image.now) }
{
    let p = byte(image, 6);
    (0..p).all(|q| matches!(byte(image, 7 + q as usize), 1 | 2))
}

fn length_fits(image: &[u8]) -> bool
    ensures { Decides result (LengthFits image.now) }
{
    let p = byte(image, 6);
    arities_fit(image) && image.len() == 7 + p as usize + sets::BYTES * first_set(image, p)
}

// How many of the successor sets, from the first on, have a stage and none at n or above: all of them where nothing is to be refused.
fn plain_sets(image: &[u8]) -> usize
    requires { SizesFit image.now }
    ensures { Plain image.now result }
{
    let n = byte(image, 5) as usize;
    let all = Set::below(n);
    for i in 0..n {
        let s = set(image, i);
        if !s.subset(all) || s.is_empty() {
            return i;
        }
    }
    n
}

// Whether a bit n or above is set in any set. The plain ones, which come first, have none and are not looked at again.
fn high_bit(image: &[u8], plain: usize) -> bool
    requires { SizesFit image.now × Plain image.now plain }
    ensures { Decides result (HighBit image.now) }
{
    let all = Set::below(byte(image, 5) as usize);
    let count = first_set(image, byte(image, 6));
    (plain..count).any(|i| !set(image, i).subset(all))
}

// The six modalities as operations on sets of stages, over a row of successor sets (`sets::row`): `next` holds the successors of the n stages.
//
// EX and AX are one pass over the row. The other four are rounds, until one changes nothing: each says what one round of its own does to a set
// (`rounds`). EG and AR take stages away, EU and AF add some, and a round asks those stages only that it may take away, or add.
//
// Every function is total. A result has no stage at or above n, and it is right for any graph whose successors the row holds (`Computes`).
#![tactic(auto)]

ghost use Rattle.sets.specs.Number.{number};
ghost use Rattle.modal.specs.Row.{Computes, Meeting};
ghost use Rattle.modal.specs.Rounds.{Rounded};
ghost use Rattle.modal.specs.Modal.{ex_of, ex_among, ax_of, ax_among, eg_of, af_of, ar_of, eu_of};

use sets::Set;

// Those of the stages `among` whose successors meet what is wanted.
fn meeting(next: &[Set], among: Set, wanted: Set) -> Set
    ensures { Meeting next.now (number among) (number wanted) (number result) }
{
    let mut found = Set::empty();
    for s in among.stages() {
        let here = sets::row::load(next, s).common(wanted);
        if !here.is_empty() {
            found = found.with(s);
        }
    }
    found
}

// EX, asked of the stages `among` only: those of them below n with a successor in x.
pub fn some_next_among(next: &[Set], n: usize, among: Set, x: Set) -> Set
    ensures { Computes next.now n (ex_among (number among) (number x)) (number result) }
{
    let all = Set::below(n);
    meeting(next, among.common(all), x.common(all))
}

// AX, asked so: each successor is in x where none is outside.
fn each_next_among(next: &[Set], n: usize, among: Set, x: Set) -> Set
    ensures { Computes next.now n (ax_among (number among) (number x)) (number result) }
{
    let all = Set::below(n);
    let asked = among.common(all);
    asked.minus(meeting(next, asked, all.minus(x)))
}

// EX: the stages below n with a successor in x.
pub fn some_next(next: &[Set], n: usize, x: Set) -> Set
    ensures { Computes next.now n (ex_of (number x)) (number result) }
{
    some_next_among(next, n, Set::below(n), x)
}

// AX: the stages below n all of whose successors are in x.
pub fn each_next(next: &[Set], n: usize, x: Set) -> Set
    ensures { Computes next.now n (ax_of (number x)) (number result) }
{
    each_next_among(next, n, Set::below(n), x)
}

// n rounds from what a set has below n, or as many as it takes until one changes nothing.
fn rounds<F: Fn(Set) -> Set>(n: usize, start: Set, round: F) -> Set
    requires { F.IsAlwaysCallable round }
    ensures { Rounded (F.post round) n n (number start) (number result) }
{
    let mut x = start.common(Set::below(n));
    for _ in 0..n {
        let y = round(x);
        if x == y {
            return x;
        }
        x = y;
    }
    x
}

// EG a: the stages below n from which some path has a for ever. A round keeps what has a successor in the set.
pub fn eg(next: &[Set], n: usize, a: Set) -> Set
    ensures { Computes next.now n (eg_of (number a)) (number result) }
{
    rounds(n, a, |x| some_next_among(next, n, x, x))
}

// AF a: the stages below n from which every path comes to a. A round adds what has every successor in the set.
pub fn af(next: &[Set], n: usize, a: Set) -> Set
    ensures { Computes next.now n (af_of (number a)) (number result) }
{
    let all = Set::below(n);
    rounds(n, a, |x| x.union(each_next_among(next, n, all.minus(x), x)))
}

// AR a b: the stages below n from which every path has b as far as a stage with a, which releases it, and for ever where none comes. A round
// keeps what has a, or every successor in the set.
pub fn ar(next: &[Set], n: usize, a: Set, b: Set) -> Set
    ensures { Computes next.now n (ar_of (number a) (number b)) (number result) }
{
    rounds(
        n,
        b,
        |x| x.common(a).union(each_next_among(next, n, x.minus(a), x)),
    )
}

// EU a b: the stages below n from which some path has a until it comes to b. A round adds what has a, and a successor in the set.
pub fn eu(next: &[Set], n: usize, a: Set, b: Set) -> Set
    ensures { Computes next.now n (eu_of (number a) (number b)) (number result) }
{
    rounds(n, b, |x| x.union(some_next_among(next, n, a.minus(x), x)))
}

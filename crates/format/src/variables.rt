// The free variables of a formula, as a set: recursion on the entry number, which falls at each operand.
ghost use Rattle.sets.specs.Number.{number};
ghost use Rattle.format.specs.Table.{term_of, atom_of, trees, nth, tree_of};
ghost use Rattle.format.specs.Reading.{Variables, NamedInAtom, Named};

use crate::record::{Record, Sort};
use crate::{byte, record};
use sets::Set;

// The free variables of an entry's formula.
#[cycle(free_free_below)]
pub fn free(image: &[u8], table: &[u8], e: u8) -> Set
    ensures { Variables (tree_of image.now table.now e) (number result) }
{
    let r = record::entry(table, e as usize);
    match record::sort_of(record::kind_of(r.kind)) {
        Sort::Constant => Set::empty(),
        Sort::Atom => free_in_atom(image, r),
        Sort::Junction => free_below(image, table, e, r.a).union(free_below(image, table, e, r.b)),
        Sort::Unary => variable_in(r.t).union(free_below(image, table, e, r.a).without(
            r.x as usize,
        )),
        Sort::Binary => variable_in(r.t).union(
            free_below(image, table, e, r.a)
                .without(r.x as usize)
                .union(free_below(image, table, e, r.b).without(r.y as usize)),
        ),
    }
}

// The same of an operand, which has a lower number.
#[cycle(free_free_below)]
fn free_below(image: &[u8], table: &[u8], e: u8, o: u8) -> Set
    ensures { Variables (nth (trees image.now table.now e) o) (number result) }
{
    if o < e {
        free(image, table, o)
    } else {
        Set::empty()
    }
}

// The variable that a term names.
fn variable_in(t: u8) -> Set
    ensures { Named (term_of t) (number result) }
{
    if t < 64 {
        Set::empty()
    } else {
        Set::only(t as usize - 64)
    }
}

fn free_in_atom(image: &[u8], r: Record) -> Set
    ensures { NamedInAtom (atom_of image.now r) (number result) }
{
    if byte(image, 7 + r.a as usize) == 2 {
        variable_in(r.t).union(variable_in(r.b))
    } else {
        variable_in(r.t)
    }
}

// How deep the modalities of a formula nest: recursion on the entry number, which falls at each operand.
ghost use Rattle.std.specs.Prelude.{◌≡◌, max};
ghost use Rattle.model.specs.Decides.{Decides};
ghost use Rattle.format.specs.Table.{NestedTooDeep};
ghost use Rattle.format.specs.Reading.{Nested, NestedBelow, Roots};

use crate::record::Sort;
use crate::{byte, record};

// How many modalities nest in an entry's formula.
#[cycle(nested_nested_below)]
fn nested(table: &[u8], e: u8) -> usize
    ensures { Nested table.now e result }
{
    let r = record::entry(table, e as usize);
    match record::sort_of(record::kind_of(r.kind)) {
        Sort::Constant | Sort::Atom => 0,
        Sort::Junction => nested_below(table, e, r.a).max(nested_below(table, e, r.b)),
        Sort::Unary => 1 + nested_below(table, e, r.a),
        Sort::Binary => 1 + nested_below(table, e, r.a).max(nested_below(table, e, r.b)),
    }
}

// The same of an operand, which has a lower number.
#[cycle(nested_nested_below)]
fn nested_below(table: &[u8], e: u8, o: u8) -> usize
    ensures { NestedBelow table.now e o result }
{
    if o < e { nested(table, o) } else { 0 }
}

// Whether some formula nests over 4 modalities. Only entries that are operands of none, as the flags say, are asked: an operand's formula nests no
// deeper than the one that it stands in.
pub(crate) fn nested_too_deep(image: &[u8], table: &[u8], seen: &[bool; 64]) -> bool
    requires { Roots image.now table.now seen.now }
    ensures { Decides result (NestedTooDeep image.now table.now) }
{
    let m = byte(table, 5);
    (0..m).any(|e| !seen[e as usize] && 4 < nested(table, e))
}

// Whether a modality's operands name a variable that the modality does not bind itself.
ghost use Rattle.std.specs.Prelude.{◌<◌};
ghost use Rattle.model.specs.Decides.{Decides};
ghost use Rattle.model.specs.Formula.{Under, Free};
ghost use Rattle.format.specs.Table.{entries_of, tree_of};
ghost use Rattle.verdict.specs.Modality.{Inner};

use crate::setup::Setup;
use format::record::Sort;
use format::{record, variables};

impl Setup<'_> {
    // Whether x is free in an entry's formula under a binding of y.
    fn free_under(&self, o: u8, y: u8, x: u8) -> bool
        requires { x < 4 }
        ensures { Decides result (Under x y (Free x (tree_of self.now.image.now self.now.table.now o))) }
    {
        x != y && variables::free(self.image, self.table, o).has(x as usize)
    }

    // Whether x is free in an operand of a modality, under the operand's own binding.
    pub(crate) fn depends(&self, e: u8, x: u8) -> bool
        requires { (e < entries_of self.now.table.now) × (x < 4) }
        ensures { Decides result (Inner x (tree_of self.now.image.now self.now.table.now e)) }
    {
        let r = record::entry(self.table, e as usize);
        match record::sort_of(record::kind_of(r.kind)) {
            Sort::Unary => self.free_under(r.a, r.x, x),
            Sort::Binary => self.free_under(r.a, r.x, x) || self.free_under(r.b, r.y, x),
            Sort::Constant | Sort::Atom | Sort::Junction => false,
        }
    }
}

// Whether an entry's formula holds where the variables stand: one truth value, so that a goal is not worked out for every start.
ghost use Rattle.std.specs.Prelude.{◌≡◌};
ghost use Rattle.verdict.specs.Evaluation.{Ready, truth_of, modal_over};

use crate::kinds;
use crate::setup::Setup;
use format::record;
use format::record::Sort;
use hand::env;
use hand::env::Env;

impl Setup<'_> {
    // Whether an entry's formula holds. Where the first operand of "and" or "or" settles it, the second is not looked at.
    pub fn holds(&self, e: u8, env: Env) -> bool
        requires { Ready self.now.table.now self.now.stages e env }
        ensures { result ≡ truth_of self.now.image.now self.now.table.now e env }
    {
        let r = record::entry(self.table, e as usize);
        let kind = record::kind_of(r.kind);
        let first = kinds::is_first(kind);
        match record::sort_of(kind) {
            Sort::Constant => first,
            Sort::Atom => hand::atom_holds(self.image, r, env) == first,
            Sort::Junction => {
                let a = self.holds(r.a, env);
                if a == first { self.holds(r.b, env) } else { a }
            }
            Sort::Unary | Sort::Binary => self.holds_from(e, env),
        }
    }

    // Whether a modality holds at its term.
    fn holds_from(&self, e: u8, env: Env) -> bool
        requires { Ready self.now.table.now self.now.stages e env }
        ensures { result ≡ modal_over self.now.image.now self.now.table.now e env }
    {
        let r = record::entry(self.table, e as usize);
        self.modal_set(e, env).has(env::stage_of(r.t, env) as usize)
    }
}

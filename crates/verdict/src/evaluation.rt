// The stages at which an entry's formula holds: recursion on the entry number, which falls at each operand.
ghost use Rattle.std.specs.Prelude.{◌<◌};
ghost use Rattle.sets.specs.Number.{number};
ghost use Rattle.verdict.specs.Evaluation.{Collects, Ready, held_at, modal_at, held_from};

use crate::kinds;
use crate::setup::Setup;
use format::record;
use format::record::Sort;
use hand::env;
use hand::env::Env;
use sets::Set;

impl Setup<'_> {
    // The stages at which an entry's formula holds with variable x there, and every other variable where env has it. Where the first operand
    // of "and" or "or" settles it at every stage, the second is not looked at.
    #[cycle(modal_set_where_each_where_holds_where_modal)]
    pub fn where_holds(&self, e: u8, env: Env, x: u8) -> Set
        requires { Ready self.now.table.now self.now.stages e env × (x < 4) }
        ensures { Collects self.now.stages (held_at self.now.image.now self.now.table.now e env x) (number result) }
    {
        let r = record::entry(self.table, e as usize);
        let kind = record::kind_of(r.kind);
        let first = kinds::is_first(kind);
        match record::sort_of(kind) {
            Sort::Constant => self.all_or_none(first),
            Sort::Atom => self.where_literal(r, first, env, x),
            Sort::Junction => {
                let a = self.where_holds(r.a, env, x);
                if self.settled(first, a) {
                    a
                } else {
                    kinds::joined(first, a, self.where_holds(r.b, env, x))
                }
            }
            Sort::Unary | Sort::Binary => self.where_modal(e, env, x),
        }
    }

    // The same of a modality. Where its operands do not depend on x, its set is worked out once.
    #[cycle(modal_set_where_each_where_holds_where_modal)]
    fn where_modal(&self, e: u8, env: Env, x: u8) -> Set
        requires { Ready self.now.table.now self.now.stages e env × (x < 4) }
        ensures { Collects self.now.stages (modal_at self.now.image.now self.now.table.now e env x) (number result) }
    {
        if self.depends(e, x) {
            self.where_each(e, env, x)
        } else {
            let r = record::entry(self.table, e as usize);
            self.where_in(self.modal_set(e, env), r.t, env, x)
        }
    }

    // The same, worked out for each stage of x. The modality's term is read outside its binding: in the environment that it is itself in.
    #[cycle(modal_set_where_each_where_holds_where_modal)]
    fn where_each(&self, e: u8, env: Env, x: u8) -> Set
        requires { Ready self.now.table.now self.now.stages e env × (x < 4) }
        ensures { Collects self.now.stages (modal_at self.now.image.now self.now.table.now e env x) (number result) }
    {
        let r = record::entry(self.table, e as usize);
        let mut found = Set::empty();
        for s in 0..self.stages {
            let here = env.bound(x, s as u8);
            let from = self.modal_set(e, here);
            if from.has(env::stage_of(r.t, here) as usize) {
                found = found.with(s);
            }
        }
        found
    }

    // The stages from which a modality holds, whatever its term; none where the entry is no modality. x is bound in a only, y in b only.
    #[cycle(modal_set_where_each_where_holds_where_modal)]
    pub(crate) fn modal_set(&self, e: u8, env: Env) -> Set
        requires { Ready self.now.table.now self.now.stages e env }
        ensures { Collects self.now.stages (held_from self.now.image.now self.now.table.now e env) (number result) }
    {
        let r = record::entry(self.table, e as usize);
        let kind = record::kind_of(r.kind);
        match record::sort_of(kind) {
            Sort::Unary => {
                let a = self.where_holds(r.a, env, r.x);
                self.modal_of(kind, a, a)
            }
            Sort::Binary => {
                let a = self.where_holds(r.a, env, r.x);
                let b = self.where_holds(r.b, env, r.y);
                self.modal_of(kind, a, b)
            }
            Sort::Constant | Sort::Atom | Sort::Junction => Set::empty(),
        }
    }
}

// Atoms as sets of stages, by operations on whole sets.
ghost use Rattle.std.specs.Prelude.{◌<◌};
ghost use Rattle.sets.specs.Number.{number};
ghost use Rattle.verdict.specs.Evaluation.{Collects, atom_at, literal_at, term_in, column};

use crate::setup::Setup;
use format::record::Record;
use format::{byte, image};
use hand::env;
use hand::env::Env;
use sets::Set;

impl Setup<'_> {
    // The stages s for which a term stands in the set, with variable x at s: those of the set where the term names x, else all or none.
    pub(crate) fn where_in(&self, set: Set, t: u8, env: Env, x: u8) -> Set
        ensures { Collects self.now.stages (term_in (number set) t env x) (number result) }
    {
        if env::names(t, x) {
            set.common(Set::below(self.stages))
        } else {
            self.all_or_none(set.has(env::stage_of(t, env) as usize))
        }
    }

    // The stages s for which P(s, b) is true, b read with variable x at s; the sets of P begin with number `first`.
    fn where_column(&self, first: usize, b: u8, env: Env, x: u8) -> Set
        requires { (first < 65536) × (x < 4) }
        ensures { Collects self.now.stages (column self.now.image.now first b env x) (number result) }
    {
        let mut found = Set::empty();
        for s in 0..self.stages {
            let c = env::stage_of(b, env.bound(x, s as u8)) as usize;
            if image::set(self.image, first + s).has(c) {
                found = found.with(s);
            }
        }
        found
    }

    // The stages at which a record's atom is true with variable x there.
    fn where_atom(&self, r: Record, env: Env, x: u8) -> Set
        requires { x < 4 }
        ensures { Collects self.now.stages (atom_at self.now.image.now r env x) (number result) }
    {
        let first = image::first_set(self.image, r.a);
        if byte(self.image, 7 + r.a as usize) == 2 {
            if env::names(r.t, x) {
                self.where_column(first, r.b, env, x)
            } else {
                let t = env::stage_of(r.t, env) as usize;
                self.where_in(image::set(self.image, first + t), r.b, env, x)
            }
        } else {
            self.where_in(image::set(self.image, first), r.t, env, x)
        }
    }

    // The same of the atom, where `plain`, or else of its negation.
    pub(crate) fn where_literal(&self, r: Record, plain: bool, env: Env, x: u8) -> Set
        requires { x < 4 }
        ensures { Collects self.now.stages (literal_at self.now.image.now r plain env x) (number result) }
    {
        let s = self.where_atom(r, env, x);
        if plain {
            s
        } else {
            Set::below(self.stages).minus(s)
        }
    }
}

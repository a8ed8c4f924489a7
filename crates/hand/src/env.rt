// The present stages of the four variables, as one value, and the terms that are read in it.
ghost use Rattle.std.specs.Prelude.{◌≡◌};
ghost use Rattle.model.specs.Decides.{Decides};
ghost use Rattle.model.specs.Formula.{Names, value};
ghost use Rattle.format.specs.Table.{term_of};
ghost use Rattle.hand.specs.Environment.{env_of, Bound};

// The stage of each variable.
#[derive(Clone, Copy)]
pub struct Env {
    pub slots: [u8; 4],
}

impl Env {
    // Variable x at stage s, and every other where it stands; there are four variables, and a binding of another changes nothing.
    pub fn bound(self, x: u8, s: u8) -> Env
        ensures { Bound self x s result }
    {
        let mut slots = self.slots;
        if x < 4 {
            slots[x as usize] = s;
        }
        Env { slots }
    }

    // The stage of variable v; 0 where there is no such variable.
    pub fn stage(self, v: u8) -> u8
        ensures { result ≡ env_of self v }
    {
        self.slots.get(v as usize).copied().unwrap_or(0)
    }
}

// Whether a term names variable x.
pub fn names(t: u8, x: u8) -> bool
    ensures { Decides result (Names x (term_of t)) }
{
    t >= 64 && t - 64 == x
}

// The stage of a term.
pub fn stage_of(t: u8, env: Env) -> u8
    ensures { result ≡ value (env_of env) (term_of t) }
{
    if t < 64 { t } else { env.stage(t - 64) }
}

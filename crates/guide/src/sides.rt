// An entry's formula on a side: side 0 is the formula, any other its dual, which holds exactly where the formula does not. A side is any number, as a type
// of two would ask more of callers.
ghost use Rattle.std.specs.Prelude.{◌≡◌, ◌<◌};
ghost use Rattle.sets.specs.Number.{number};
ghost use Rattle.verdict.specs.Evaluation.{Collects, Ready};
ghost use Rattle.guide.specs.Sides.{truth_on, held_on};

use hand::env::Env;
use sets::Set;
use verdict::setup::Setup;

// An operand of a modality: its entry, and which of the four variables the modality binds in it.
#[derive(Clone, Copy)]
pub struct Operand {
    pub entry: u8,
    pub variable: u8,
    pub ghost one_of_four: { variable < 4 },
}

// Whether an entry's formula holds on a side: one truth value.
pub fn holds_on(setup: &Setup<'_>, side: u8, e: u8, env: Env) -> bool
    requires { Ready setup.now.table.now setup.now.stages e env }
    ensures { result ≡ truth_on setup.now.image.now setup.now.table.now side e env }
{
    setup.holds(e, env) == (side == 0)
}

// The stages at which an operand holds on a side with its variable there.
pub fn where_on(setup: &Setup<'_>, side: u8, a: Operand, env: Env) -> Set
    requires { Ready setup.now.table.now setup.now.stages a.entry env }
    ensures { Collects setup.now.stages (held_on setup.now.image.now setup.now.table.now side a.entry env a.variable) (number result) }
{
    let held = setup.where_holds(a.entry, env, a.variable);
    if side == 0 {
        held
    } else {
        Set::below(setup.stages).minus(held)
    }
}

// What a writer of the certificate goes by along a walk, worked out once when it comes to a formula, so that no step asks the verdict again.
//
// `sides` says where an operand holds: the stages at which AF goes now and AR releases, and whether an or goes left. The functions here say to which
// successor EX, EG and EU go on: EX at its one stage, the others in a row with a stage for each stage. So a step is a look into a set or a row, with no
// search.
//
// The cost with n stages: the stages at which the operands hold, each worked out once by the verdict, and then at most n rounds, each of which asks no
// stage that was led in a round before.
//
// Where there is no such successor a stage is led to 0: so it is in `lowest_next` and `nearest`, the definitions of what is written, which are total.
//
// All require what a question that is not refused has (`Ready`), as the verdict's `where_holds` does, and a row with room for a stage for each stage of
// the setup, which for EU must lead nowhere yet.
#![tactic(auto)]

pub mod sides;
mod toward;

ghost use Rattle.std.specs.Prelude.{◌≡◌, ◌≤◌, ◌<◌, length};
ghost use Rattle.logic.specs.Test.{eg};
ghost use Rattle.sets.specs.Number.{number};
ghost use Rattle.format.specs.Image.{graph_of};
ghost use Rattle.verdict.specs.Evaluation.{Ready};
ghost use Rattle.written.specs.Choice.{lowest_next};
ghost use Rattle.guide.specs.Sides.{held_on};
ghost use Rattle.guide.specs.Toward.{Filled, Cleared, Nearest};

use hand::env::Env;
use sets::Set;
use sides::Operand;
use verdict::setup::Setup;

// EX: the lowest successor of s at which a holds on a side, with its variable there; 0 where there is none.
pub fn ex(setup: &Setup<'_>, side: u8, a: Operand, env: Env, s: u8) -> u8
    requires { Ready setup.now.table.now setup.now.stages a.entry env × (s < setup.now.stages) }
    ensures { result ≡ lowest_next (graph_of setup.now.image.now)
        (held_on setup.now.image.now setup.now.table.now side a.entry env a.variable) s }
{
    toward::lowest_next(setup, s as usize, sides::where_on(setup, side, a, env))
}

// EG: every stage is led to its lowest successor at which EG of a holds on a side; 0 where there is none. Past the stages the row is kept.
pub fn eg(setup: &Setup<'_>, side: u8, a: Operand, env: Env, toward: &mut [u8])
    requires { Ready setup.now.table.now setup.now.stages a.entry env × (setup.now.stages ≤ length toward.old) }
    ensures { Filled setup.now.stages (lowest_next (graph_of setup.now.image.now) (eg (graph_of setup.now.image.now)
        (held_on setup.now.image.now setup.now.table.now side a.entry env a.variable))) toward.old toward.new }
{
    let held = sides::where_on(setup, side, a, env);
    toward::fill(setup, modal::eg(setup.next, setup.stages, held), toward);
}

// EU: the stages at which b holds on a side, with its variable there, which are the nows; and every stage is led to the successor fewest steps from a now
// along stages with a, the lowest of equals; 0 where there is none. Past the stages the row is kept. The operands are two parameters, as they may be any two.
pub fn eu(setup: &Setup<'_>, side: u8, a: Operand, b: Operand, env: Env, toward: &mut [u8]) -> Set
    requires { Ready setup.now.table.now setup.now.stages a.entry env × Ready setup.now.table.now setup.now.stages b.entry env
        × (setup.now.stages ≤ length toward.old) × Cleared setup.now.stages toward.old }
    ensures { Nearest (graph_of setup.now.image.now) setup.now.stages
        (held_on setup.now.image.now setup.now.table.now side a.entry env a.variable)
        (held_on setup.now.image.now setup.now.table.now side b.entry env b.variable) (number result) toward.old toward.new }
{
    let along = sides::where_on(setup, side, a, env);
    let now = sides::where_on(setup, side, b, env);
    toward::nearest(setup, along, now, toward);
    now
}

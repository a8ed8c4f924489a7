// The verdict: whether the goal holds at the start.
//
// A question is read and refused, or its goal is evaluated: the successor sets are decoded once into a row, a formula becomes the
// set of the stages at which it holds, with one variable at the stage (`Setup::where_holds`), and a modality is worked out of its
// operands' sets by the crate `modal`. The goal itself is asked for one truth value (`Setup::holds`).
//
// The cost, with n stages, m entries and modalities that nest d deep. An atom is a few operations on whole sets, and n of them where its first
// term is the variable. A modality is worked out in at most n rounds of n operations, once for each stage of each outer modality's variable
// that its operands name, and looks up the free variables of its operands each time, in at most m operations: a modality under j others is
// worked out at most n^j times, and once where its operands name no outer variable. So a verdict takes at most m n^(d-1) (n^2 + m) operations,
// d being at most 4, and m (n^2 + m) where no modality names the variable of another.
//
// `Setup::where_holds` and `Setup::holds` require what a question that is not refused has (`Ready`), and a `Setup` what its image and table have; every
// other public function takes any input.
#![tactic(auto)]

pub mod answer;
mod atoms;
mod dependence;
mod evaluation;
mod kinds;
pub mod setup;
mod truth;

ghost use Rattle.std.specs.Prelude.{◌≡◌};
ghost use Rattle.format.specs.Answers.{QuestionRead};
ghost use Rattle.verdict.specs.Verdict.{VerdictAnswer, CodedAnswer, goal_test};

use answer::Verdict;
use format::answer::code;
use format::question::Question;
use format::{Refusal, question};
use hand::env::Env;
use hand::setup::{NEXT, decode};
use sets::Set;
use setup::Setup;

// Whether the goal holds at the start, or the first of the refusals 1 to 13.
pub fn verdict(image: &[u8], table: &[u8], goal: u64, start: u64) -> Result<Verdict, Refusal>
    ensures { VerdictAnswer image.now table.now goal start result }
{
    let q = question::read(image, table, goal, start)?;
    Ok(if goal_holds(image, table, q) {
        Verdict::Yes
    } else {
        Verdict::No
    })
}

// The same of a question that was read: the successor sets are decoded once, variable 0 stands at the start, and the others, which the
// goal does not name, at stage 0.
fn goal_holds(image: &[u8], table: &[u8], q: Question) -> bool
    requires { QuestionRead image.now table.now q.goal q.start q }
    ensures { result ≡ goal_test image.now table.now q.goal q.start }
{
    let stages = q.shape.image.stages;
    let mut next = [Set::empty(); NEXT];
    decode(image, stages, &mut next);
    let setup = Setup {
        image,
        table,
        next: &next,
        stages,
    };
    let env = Env {
        slots: [q.start, 0, 0, 0],
    };
    setup.holds(q.goal, env)
}

// The verdict for callers in C, as one number: a refusal's own, 128 for yes, 129 for no.
pub fn zseq_verdict(image: &[u8], table: &[u8], goal: u64, start: u64) -> u64
    ensures { CodedAnswer image.now table.now goal start result }
{
    code(verdict(image, table, goal, start))
}

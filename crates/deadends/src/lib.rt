// The dead-end report: the stages from which no path reaches predicate 0 ("fired"), the stage itself counted, and how many they are.
//
// A stage is a dead end exactly when EU(true, fired) does not hold there, so the report is all stages less the set that the crate `modal` works
// out for that: with n stages at most n rounds of n operations. Every public function takes any input.
#![tactic(auto)]

pub mod answer;

ghost use Rattle.std.specs.Prelude.{◌≡◌};
ghost use Rattle.model.specs.Decides.{Decides};
ghost use Rattle.sets.specs.Number.{number};
ghost use Rattle.format.specs.Refusal.{Clear};
ghost use Rattle.format.specs.Image.{stages_of};
ghost use Rattle.deadends.specs.DeadEnd.{NothingFires, report_conditions};
ghost use Rattle.deadends.specs.Report.{Listed, ReportAnswer, CodedReport};

use answer::DeadEnds;
use format::answer::code;
use format::{Refusal, byte, image};
use hand::setup;
use sets::Set;

// The set of the dead ends with their number, or the first of the refusals 1 to 5 and 15.
pub fn report(image: &[u8]) -> Result<DeadEnds, Refusal>
    ensures { ReportAnswer image.now result }
{
    let shape = image::read(image)?;
    if nothing_fires(image) {
        return Err(Refusal::NothingFires);
    }
    Ok(listed(image, shape.stages))
}

// Whether predicate 0 is missing or not of arity 1.
fn nothing_fires(image: &[u8]) -> bool
    ensures { Decides result (NothingFires image.now) }
{
    byte(image, 6) == 0 || byte(image, 7) != 1
}

// The report on an image that nothing refuses: all stages less those from which some path comes to a stage of predicate 0.
fn listed(image: &[u8], n: usize) -> DeadEnds
    requires { Clear (report_conditions image.now) × (n ≡ stages_of image.now) }
    ensures { Listed image.now (number result.set) result.count }
{
    // An image has no more stages than the width; where the code says so itself, the loops over a row need no test for room.
    let stages = n.min(sets::WIDTH);
    let mut next = [Set::empty(); setup::NEXT];
    setup::decode(image, stages, &mut next);
    let fired = image::set(image, image::first_set(image, 0));
    let all = Set::below(stages);
    let able = modal::eu(&next, stages, all, fired);
    let dead = all.minus(able);
    DeadEnds {
        set: dead,
        count: dead.count() as u8,
    }
}

// The report for callers in C. Its number comes back: a refusal's own, or 128 and the number of dead ends. The set is stored at the front of the
// lent buffer; one that has no room for it is left as it is, and so is every buffer where the report is a refusal.
pub fn zseq_dead_ends(image: &[u8], set: &mut [u8]) -> u64
    ensures { CodedReport image.now set.old result set.new }
{
    let report = report(image);
    if let Ok(dead) = report {
        sets::stored::write(set, dead.set);
    }
    code(report)
}

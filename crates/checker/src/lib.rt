// Checking a certificate: whether its bytes are the steps of a proof, by the rules of document 01, of the goal or of its dual. Nothing here
// knows how a certificate was found.
#![tactic(auto)]

mod answer;
mod header;
mod steps;

ghost use Rattle.std.specs.Prelude.{◌≤◌, length};
ghost use Rattle.format.specs.Answers.{QuestionRead};
ghost use Rattle.checker.specs.Check.{reading, CheckAnswer, CheckedAnswer, StepsAnswer, CodedAnswer};

use answer::Fault;
use format::answer::code;
use format::question::Question;
use format::{Refusal, byte, question};
use hand::env::Env;
use hand::setup;
use hand::setup::Entry;
use rules::Stop;
use sets::Set;
use steps::Steps;

// The side that a certificate proves, by the number that its header has and the demands speak of, or the first of the refusals 1 to 13, 20 to 25.
pub fn check(
    image: &[u8],
    table: &[u8],
    certificate: &[u8],
    goal: u64,
    start: u64,
) -> Result<u8, Refusal>
    ensures { CheckAnswer image.now table.now certificate.now goal start result }
{
    Ok(checked(image, table, certificate, goal, start)?)
}

// The same with the place of the fault.
fn checked(
    image: &[u8],
    table: &[u8],
    certificate: &[u8],
    goal: u64,
    start: u64,
) -> Result<u8, Fault>
    ensures { CheckedAnswer image.now table.now certificate.now goal start result }
{
    let q = question::read(image, table, goal, start)?;
    if !header::fits(certificate) {
        return Err(Refusal::CertificateStart.into());
    }
    if !header::names(certificate, goal, start) {
        return Err(Refusal::OtherQuestion.into());
    }
    steps_of(image, table, certificate, q)
}

// The same of a certificate whose header is right: variable 0 stands at the start, and the others, which the goal does not name, at stage 0.
fn steps_of(image: &[u8], table: &[u8], certificate: &[u8], q: Question) -> Result<u8, Fault>
    requires { QuestionRead image.now table.now q.goal q.start q × (8 ≤ length certificate.now) }
    ensures { StepsAnswer certificate.now
        (reading image.now table.now certificate.now q.goal q.start) result }
{
    let side = byte(certificate, 5);
    let shape = q.shape;
    let inner = shape.image;
    let mut all = [Set::empty(); setup::SETS];
    setup::decode(image, inner.sets, &mut all);
    let mut entries = [Entry::default(); setup::ENTRIES];
    setup::prepare(image, table, shape.entries, side, &mut entries);
    let env = Env {
        slots: [q.start, 0, 0, 0],
    };
    let steps = Steps {
        sets: &all,
        entries: &entries,
        bytes: certificate,
        image,
        table,
        side,
    };
    match steps.read(q.goal, env, header::BYTES) {
        Ok(end) if end < certificate.len() => Err(Fault {
            refusal: Refusal::BytesRemain,
            place: end,
        }),
        Ok(_) => Ok(side),
        Err(Stop::Missing) => Err(Fault {
            refusal: Refusal::ByteMissing,
            place: certificate.len(),
        }),
        Err(Stop::Wrong(place)) => Err(Fault {
            refusal: Refusal::WrongCode,
            place,
        }),
        Err(Stop::Fails(place)) => Err(Fault {
            refusal: Refusal::ConditionFails,
            place,
        }),
    }
}

// The check for callers in C, as one number: `format::answer::code` says which.
pub fn zseq_check(image: &[u8], table: &[u8], certificate: &[u8], goal: u64, start: u64) -> u64
    ensures { CodedAnswer image.now table.now certificate.now goal start result }
{
    code(check(image, table, certificate, goal, start))
}

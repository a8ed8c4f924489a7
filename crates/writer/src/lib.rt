// Writing the certificate of a goal: the side that holds, its header, and the steps that document 01 chooses, into a lent buffer.
//
// The certificate is gone through twice: once to count its bytes, which stops as soon as they are more than the buffer holds, and then to write them. So
// no byte of the buffer is changed before it is known that all have room, and a certificate of any length is refused at once where there is none. The crate
// `pen` goes through it.
#![tactic(auto)]

pub mod answer;

ghost use Rattle.std.specs.Prelude.{◌≡◌};
ghost use Rattle.format.specs.Answers.{QuestionRead};
ghost use Rattle.verdict.specs.Evaluation.{Ready, truth_of};
ghost use Rattle.writer.specs.Write.{side_by, WriteAnswer, CodedAnswer};

use answer::Written;
use format::answer::code;
use format::question::Question;
use format::{Refusal, question};
use hand::env::Env;
use hand::setup::{ENTRIES, Entry, NEXT, decode, prepare};
use pen::run::Run;
use sets::Set;
use verdict::setup::Setup;

// Writes the certificate of a goal at a start to the buffer's front, and answers its side and length; or gives the first of the refusals 1 to 13, then
// 14 where the certificate is longer than the buffer. A refusal changes no byte.
pub fn write(
    image: &[u8],
    table: &[u8],
    goal: u64,
    start: u64,
    buffer: &mut [u8],
) -> Result<Written, Refusal>
    ensures { WriteAnswer image.now table.now goal start buffer.old buffer.new result }
{
    let q = question::read(image, table, goal, start)?;
    answered(image, table, q, buffer)
}

// The same of a question that was read: the successor sets are decoded once, the entries are prepared for the side that holds, variable 0 stands at the
// start, and the others, which the goal does not name, at stage 0.
fn answered(image: &[u8], table: &[u8], q: Question, buffer: &mut [u8]) -> Result<Written, Refusal>
    requires { QuestionRead image.now table.now q.goal q.start q }
    ensures { WriteAnswer image.now table.now q.goal q.start buffer.old buffer.new result }
{
    let stages = q.shape.image.stages;
    let mut next = [Set::empty(); NEXT];
    decode(image, stages, &mut next);
    let setup = Setup {
        image,
        table,
        next: &next,
        stages,
    };
    let env = Env {
        slots: [q.start, 0, 0, 0],
    };
    let side = side_of(&setup, q.goal, env);
    let mut entries = [Entry::default(); ENTRIES];
    prepare(image, table, q.shape.entries, side, &mut entries);
    let mut run = Run {
        setup,
        entries: &entries,
        side,
        writing: false,
    };
    let length = pen::whole(&run, q.goal, q.start, env, buffer);
    if buffer.len() < length {
        return Err(Refusal::BufferTooShort);
    }
    run.writing = true;
    pen::whole(&run, q.goal, q.start, env, buffer);
    Ok(Written { side, length })
}

// The side that holds: 0 where the goal does, else 1.
fn side_of(setup: &Setup<'_>, goal: u8, env: Env) -> u8
    requires { Ready setup.now.table.now setup.now.stages goal env }
    ensures { result ≡ side_by (truth_of setup.now.image.now setup.now.table.now goal env) }
{
    if setup.holds(goal, env) { 0 } else { 1 }
}

// The writing for callers in C, as one number: `format::answer::code` says which. The certificate's length goes into a lent number, which a refusal leaves as
// it is.
pub fn zseq_write(
    image: &[u8],
    table: &[u8],
    goal: u64,
    start: u64,
    buffer: &mut [u8],
    length: &mut u64,
) -> u64
    ensures { CodedAnswer image.now table.now goal start buffer.old buffer.new
        length.old length.new result }
{
    let given = write(image, table, goal, start, buffer);
    if let Ok(written) = given {
        *length = written.length as u64;
    }
    code(given)
}

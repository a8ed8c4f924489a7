// Reading a goal and its start with image and table: all that a service needs, or one of the refusals 1 to 13.
ghost use Rattle.std.specs.Prelude.{◌<◌};
ghost use Rattle.model.specs.Decides.{Decides};
ghost use Rattle.format.specs.Question.{OtherFree};
ghost use Rattle.format.specs.Answers.{QuestionAnswer};

use crate::{Refusal, table, variables};

// A question that is allowed: the shape of its setup, the goal's entry and the start's stage.
#[derive(Clone, Copy)]
pub struct Question {
    pub shape: table::Shape,
    pub goal: u8,
    pub start: u8,
}

// The question, or the first of its refusals. Goal and start are wide, so that neither is taken for another.
pub fn read(image: &[u8], table: &[u8], goal: u64, start: u64) -> Result<Question, Refusal>
    ensures { QuestionAnswer image.now table.now goal start result }
{
    let shape = table::read(image, table)?;
    if shape.entries as u64 <= goal {
        return Err(Refusal::NoSuchGoal);
    }
    if shape.image.stages as u64 <= start {
        return Err(Refusal::NoSuchStart);
    }
    let g = goal as u8;
    if other_free(image, table, g) {
        return Err(Refusal::FreeVariable);
    }
    Ok(Question {
        shape,
        goal: g,
        start: start as u8,
    })
}

// Whether variable 1, 2 or 3 is free in the goal.
fn other_free(image: &[u8], table: &[u8], goal: u8) -> bool
    ensures { Decides result (OtherFree image.now table.now goal) }
{
    let free = variables::free(image, table, goal);
    (1..4).any(|v| free.has(v))
}

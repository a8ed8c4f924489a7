// What the verdict answers.
ghost use Rattle.verdict.specs.Verdict.{extra_of};

use format::answer::Coded;

// Yes: the goal holds at the start. No: its dual does.
#[derive(Clone, Copy, PartialEq, Eq)]
pub enum Verdict {
    Yes,
    No,
}

impl Coded for Verdict {
    ghost extra = { extra_of };

    fn extra(self) -> u8 {
        self as u8
    }
}

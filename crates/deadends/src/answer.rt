// What the dead-end report answers.
ghost use Rattle.std.specs.Prelude.{◌≡◌};

use format::answer::Coded;
use sets::Set;

// The dead ends and how many they are.
#[derive(Clone, Copy)]
pub struct DeadEnds {
    pub set: Set,
    pub count: u8,
}

impl Coded for DeadEnds {
    ghost extra = { λ d. d.count };

    fn extra(self) -> u8 {
        self.count
    }
}

// What the writing of a certificate answers.
ghost use Rattle.std.specs.Prelude.{◌≡◌};

use format::answer::Coded;

// Which side the certificate proves, by the number that its header has, and how many bytes of the buffer it takes.
#[derive(Clone, Copy)]
pub struct Written {
    pub side: u8,
    pub length: usize,
}

impl Coded for Written {
    ghost extra = { λ w. w.side };

    fn extra(self) -> u8 {
        self.side
    }
}

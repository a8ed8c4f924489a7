// What a check finds: the side that the certificate proves, or a fault.
ghost use Rattle.std.specs.Prelude.{◌≡◌};
ghost use Rattle.checker.specs.Check.{fault_at};

use format::Refusal;

// The refusal that is given, and the place of the fault: in the steps, where they break; before them, 0.
#[derive(Clone, Copy)]
pub(crate) struct Fault {
    pub(crate) refusal: Refusal,
    pub(crate) place: usize,
}

impl From<Refusal> for Fault {
    ghost from_gives = { λ k f. f ≡ fault_at k 0 };

    fn from(refusal: Refusal) -> Fault {
        Fault { refusal, place: 0 }
    }
}

impl From<Fault> for Refusal {
    ghost from_gives = { λ f k. k ≡ f.refusal };

    fn from(f: Fault) -> Refusal {
        f.refusal
    }
}

// What a service answers, as one number for callers in C.
ghost use Rattle.std.specs.Prelude.{ℕ, ◌≡◌};
ghost use Rattle.format.specs.Coded.{coded_by};

use crate::Refusal;

// What a service answers where nothing is refused: its number is 128 and this much more.
pub trait Coded {
    ghost extra: { Self → ℕ };

    fn extra(self) -> u8
        ensures { result ≡ extra self };
}

// A side is its own number.
impl Coded for u8 {
    ghost extra = { λ side. side };

    fn extra(self) -> u8 {
        self
    }
}

// The number of an answer: a refusal's own, 1 to 25; else 128 and what was answered.
pub fn code<T: Coded>(answer: Result<T, Refusal>) -> u64
    ensures { result ≡ coded_by T.extra answer }
{
    match answer {
        Ok(found) => 128 + u64::from(found.extra()),
        Err(k) => u64::from(k),
    }
}

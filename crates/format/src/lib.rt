// The stored forms: reading a stage image, a formula table, and a goal with its start, to their shape or to one of the refusals 1 to 13.
#![tactic(auto)]

pub mod answer;
pub mod image;
mod nesting;
mod operands;
pub mod question;
pub mod record;
pub mod table;
pub mod variables;

ghost use Rattle.std.specs.Prelude.{◌≡◌, get_or};
ghost use Rattle.model.specs.Decides.{Decides};
ghost use Rattle.format.specs.Bytes.{Begins};
ghost use Rattle.format.specs.Refusal.{number};

// The refusals, with their numbers.
#[derive(Clone, Copy, PartialEq, Eq)]
pub enum Refusal {
    ImageStart = 1,
    ImageSizes = 2,
    ImageLength = 3,
    BitTooHigh = 4,
    NoSuccessor = 5,
    TableStart = 6,
    TableLength = 7,
    BadRecord = 8,
    OperandTwice = 9,
    NestedTooDeep = 10,
    NoSuchGoal = 11,
    NoSuchStart = 12,
    FreeVariable = 13,
    BufferTooShort = 14,
    NothingFires = 15,
    NotOfShape = 16,
    CertificateStart = 20,
    OtherQuestion = 21,
    ByteMissing = 22,
    WrongCode = 23,
    ConditionFails = 24,
    BytesRemain = 25,
}

// The refusal's number.
impl From<Refusal> for u64 {
    ghost from_gives = { λ k n. n ≡ number k };

    fn from(k: Refusal) -> u64 {
        k as u64
    }
}

// The byte at a place; 0 past the end, as the definitions of the stored forms have it, which are total.
pub fn byte(bytes: &[u8], at: usize) -> u8
    ensures { result ≡ get_or bytes.now at 0 }
{
    bytes.get(at).copied().unwrap_or(0)
}

// Whether a stored form is long enough and begins with its mark and version 1.
pub fn begins(bytes: &[u8], letter: u8, least: usize) -> bool
    ensures { Decides result (Begins letter least bytes.now) }
{
    bytes.len() >= least && bytes.starts_with(&[b'Z', b'S', letter, 0, 1])
}

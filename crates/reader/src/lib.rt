// The reader of a certificate's steps as a struct that holds the certificate's bytes and its place in them, over `rules::read_head`, which takes the
// slice and the place by themselves. `read_heads` reads two steps in a row with such a reader, and its own parameters are plain.
#![tactic(auto)]

ghost use Rattle.std.specs.Prelude.{◌≡◌};
ghost use Rattle.reader.specs.Place.{reader_at, Stepped, heads_of};

use rules::{Step, Unread};

// The certificate's bytes, or any others, and the place of the next step in them. The place may lie past their end: no step begins there.
#[derive(Drop)]
pub struct Reader<'a> {
    bytes: &'a [u8],
    place: usize,
}

// What stands at a place and what stands after it, and the place after both.
#[derive(Drop)]
pub struct Heads {
    pub first: Result<Step, Unread>,
    pub second: Result<Step, Unread>,
    pub place: usize,
}

impl<'a> Reader<'a> {
    // A reader of the bytes that stands at the place.
    pub fn new(bytes: &'a [u8], place: usize) -> Reader<'a>
        ensures { result ≡ reader_at bytes.entry place }
    {
        Reader { bytes, place }
    }

    // Where the reader stands.
    pub fn place(&self) -> usize
        ensures { result ≡ self.now.place }
    {
        self.place
    }

    // The step at the reader's place, for a formula of a kind, given by its number. The reader then stands after it; where no step for
    // the formula in hand begins, it stays, and another kind can be tried there. The bytes that it holds are the same.
    pub fn step(&mut self, kind: u8) -> Result<Step, Unread>
        ensures { Stepped self.old kind result self.new }
    {
        let step = rules::read_head(self.bytes, self.place, kind)?;
        self.place = step.next;
        Ok(step)
    }
}

// The heads of two steps in a row, from a place on: a step for a formula of the first kind, and after it one for a formula of the second, as its
// first premise is.
pub fn read_heads(bytes: &[u8], at: usize, first: u8, second: u8) -> Heads
    ensures { result ≡ heads_of bytes.now at first second }
{
    let mut reader = Reader::new(bytes, at);
    let first = reader.step(first);
    let second = reader.step(second);
    Heads {
        first,
        second,
        place: reader.place(),
    }
}

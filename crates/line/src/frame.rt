// The parts of the program's input.
ghost use Rattle.std.specs.Prelude.{◌≡◌, MatchOption};
ghost use Rattle.line.specs.Framing.{counted, PartsOf, NoPart, NoParts};

#[derive(Clone, Copy)]
pub struct Parts<'a> {
    pub image: &'a [u8],
    pub table: &'a [u8],
    pub goal: u8,
    pub start: u8,
}

// The parts of an input of whatever length, if it has parts.
pub(crate) fn taken_apart(input: &[u8]) -> Option<Parts<'_>>
    ensures { MatchOption result (NoParts input.now) (λ p. PartsOf input.now p) }
{
    let (image, rest) = part(input)?;
    let (table, rest) = part(rest)?;
    let [goal, start] = *rest else {
        return None;
    };
    Some(Parts {
        image,
        table,
        goal,
        start,
    })
}

// A part behind its 16-bit length, and what follows it, if the bytes begin so.
fn part(bytes: &[u8]) -> Option<(&[u8], &[u8])>
    ensures { MatchOption result (NoPart bytes.now) (λ p. bytes.now ≡ counted p.0.now p.1.now) }
{
    let (size, rest) = bytes.split_first_chunk()?;
    rest.split_at_checked(u16::from_be_bytes(*size) as usize)
}

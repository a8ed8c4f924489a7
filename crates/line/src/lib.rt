// What stands below and beside the writing of certificates in the program zseq: its input taken apart, and the line that it prints.
#![tactic(auto)]

pub mod frame;
mod text;

ghost use Rattle.std.specs.Prelude.{◌≡◌};
ghost use Rattle.line.specs.Framing.{FrameAnswer};
ghost use Rattle.line.specs.Line.{side_word, line_of, refusal_line, Printed};

use format::Refusal;
use frame::{Parts, taken_apart};
use text::{Text, digits};

// How many bytes the input may have.
pub const LIMIT: usize = 16384;

// The program's certificate buffer.
pub const CERTIFICATE: usize = 32768;

// A buffer in which the line of every certificate up to that length has room, and that of every refusal.
pub const LONGEST: usize = 65547;

// The parts of the program's input, or refusal 16.
pub fn parts(input: &[u8]) -> Result<Parts<'_>, Refusal>
    ensures { FrameAnswer input.now result }
{
    if LIMIT < input.len() {
        return Err(Refusal::NotOfShape);
    }
    taken_apart(input).ok_or(Refusal::NotOfShape)
}

// The line of a certificate that was written: its side, of which any number but 0 says no, its length and its bytes. Returns the line's length; where `out` has no room for the
// whole line nothing is written.
pub fn yes_no(side: u8, certificate: &[u8], out: &mut [u8]) -> Option<usize>
    ensures { Printed (line_of side certificate.now) out.old out.new result }
{
    let word = side_word(side);
    let n = certificate.len();
    // The hex alone would not fit. Without this test the sum below could wrap.
    if out.len() / 2 < n {
        return None;
    }
    // Two spaces and the line feed besides.
    if out.len() < word.len() + digits(n) + 2 * n + 3 {
        return None;
    }
    let mut text = Text { out, at: 0 };
    text.word(word);
    text.byte(b' ');
    text.decimal(n);
    text.byte(b' ');
    text.hex(certificate);
    text.byte(b'\n');
    Some(text.at)
}

// The line of a refusal. Returns the line's length; where `out` has no room for the whole line nothing is written.
pub fn refused(k: Refusal, out: &mut [u8]) -> Option<usize>
    ensures { Printed (refusal_line k) out.old out.new result }
{
    let n = u64::from(k) as usize;
    // The word, the space and the line feed besides.
    if out.len() < digits(n) + 9 {
        return None;
    }
    let mut text = Text { out, at: 0 };
    text.word(b"refused ");
    text.decimal(n);
    text.byte(b'\n');
    Some(text.at)
}

fn side_word(side: u8) -> &'static [u8]
    ensures { result.now ≡ side_word side }
{
    if side == 0 { b"yes" } else { b"no" }
}

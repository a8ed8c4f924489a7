// One input of the program zseq to the one line that it prints: the input is taken apart, the certificate of its question is written, and the line says
// which side it proves, how long it is and its bytes, or which refusal was given.
#![tactic(auto)]

ghost use Rattle.reply.specs.Reply.{Replied};
ghost use Rattle.reply.specs.Printing.{Wrote};

use format::Refusal;
use writer::answer::Written;

// The line for an input, at the front of `out`; its length comes back. Where `out` has no room for the whole line nothing is written to it. The certificate
// is left at the front of its buffer; a refusal, 14 too, changes no byte there.
pub fn reply(input: &[u8], certificate: &mut [u8], out: &mut [u8]) -> Option<usize>
    ensures { Replied input.now certificate.old certificate.new out.old out.new result }
{
    match write(input, certificate) {
        Ok(w) => line::yes_no(w.side, &certificate[..w.length], out),
        Err(k) => line::refused(k, out),
    }
}

// Writes the certificate that an input asks for.
fn write(input: &[u8], certificate: &mut [u8]) -> Result<Written, Refusal>
    ensures { Wrote input.now certificate.old certificate.new result }
{
    let p = line::parts(input)?;
    writer::write(p.image, p.table, p.goal as u64, p.start as u64, certificate)
}

// The program zseq: a question on standard input, one line on standard output.
//
// What the line says is said of `reply::reply`, on slices. An input may have `line::LIMIT` bytes, and one byte more is read, so that a longer one is seen
// to be too long; of that nothing further is read. A read that fails ends the input, as its end does. Where the line cannot be written nothing more is
// done, and the exit status is 0 all the same.
#![tactic(auto)]

ghost use Rattle.std.specs.Prelude.{◌≤◌, length, take, OnOk};
ghost use Rattle.std.specs.Io.KnownBytes.{Consumes};
ghost use Rattle.zseq.specs.Answered.{Answered, ReadWhole};

use std::io;
use std::io::{Read, Write};

fn main(rt: HostRuntime) {
    let _ = answer(&mut rt.stdin(), &mut rt.stdout());
}

// Reads an input and writes the line that answers it. Where a read fails the line is written for what came before it, and the read's error comes back.
fn answer<R: Read, W: Write>(from: &mut R, to: &mut W) -> io::Result<()>
    ensures { OnOk result (Answered (R.remaining from.old) (R.remaining from.new)
        (W.contents to.old) (W.contents to.new)) }
{
    let mut input = [0u8; line::LIMIT + 1];
    let (n, read) = read_full(from, &mut input);
    let mut certificate = [0u8; line::CERTIFICATE];
    let mut out = [0u8; line::LONGEST];
    if let Some(length) = reply::reply(&input[..n], &mut certificate, &mut out) {
        to.write_all(&out[..length])?;
    }
    read
}

// Reads until the buffer is full or the input ends, or until a read fails. How much was read, at the buffer's front, comes back with the read's error.
// By hand: the library reads a whole input into a vector only, which takes a heap, and `read_exact` does not say how much there was of one that ends early.
fn read_full<R: Read>(from: &mut R, buffer: &mut [u8]) -> (usize, io::Result<()>)
    ensures inside { result.0 ≤ length buffer.new }
    ensures bytes { Consumes (R.remaining from.old) (R.remaining from.new) (take result.0 buffer.new) }
    ensures whole { OnOk result.1 (ReadWhole (length buffer.new) (R.remaining from.new) result.0) }
{
    let mut n = 0;
    while n < buffer.len() {
        match from.read(&mut buffer[n..]) {
            Ok(0) => break,
            Ok(more) => n += more,
            Err(e) => return (n, Err(e)),
        }
    }
    (n, Ok(()))
}

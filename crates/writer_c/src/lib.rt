// The static library of the crate `writer`, for callers in C: the one exported function calls the library's, under the same clause. A crate of its own, since a
// crate is a library or a static library, and nothing can depend on the latter.
#![tactic(auto)]

ghost use Rattle.writer.specs.Write.{CodedAnswer};

// The writing for callers in C, as one number: `format::answer::code` says which. The certificate's length goes into a lent number, which a refusal
// leaves as it is.
#[unsafe(no_mangle)]
pub extern "C" fn zseq_write(
    image: &[u8],
    table: &[u8],
    goal: u64,
    start: u64,
    buffer: &mut [u8],
    length: &mut u64,
) -> u64
    ensures { CodedAnswer image.now table.now goal start buffer.old buffer.new
        length.old length.new result }
{
    writer::zseq_write(image, table, goal, start, buffer, length)
}

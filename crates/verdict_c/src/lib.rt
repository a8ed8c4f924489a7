// The static library of the crate `verdict`, for callers in C: the one exported function calls the library's, under the same clause. A crate of its own, since a
// crate is a library or a static library, and nothing can depend on the latter.
#![tactic(auto)]

ghost use Rattle.verdict.specs.Verdict.{CodedAnswer};

// The verdict for callers in C, as one number: a refusal's own, 128 for yes, 129 for no.
#[unsafe(no_mangle)]
pub extern "C" fn zseq_verdict(image: &[u8], table: &[u8], goal: u64, start: u64) -> u64
    ensures { CodedAnswer image.now table.now goal start result }
{
    verdict::zseq_verdict(image, table, goal, start)
}

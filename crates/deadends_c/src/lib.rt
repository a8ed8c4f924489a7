// The static library of the crate `deadends`, for callers in C: the one exported function calls the library's, under the same clause. A crate of its own, since a
// crate is a library or a static library, and nothing can depend on the latter.
#![tactic(auto)]

ghost use Rattle.deadends.specs.Report.{CodedReport};

// The report for callers in C. Its number comes back: a refusal's own, or 128 and the number of dead ends. The set is stored at the front of the
// lent buffer; one that has no room for it is left as it is, and so is every buffer where the report is a refusal.
#[unsafe(no_mangle)]
pub extern "C" fn zseq_dead_ends(image: &[u8], set: &mut [u8]) -> u64
    ensures { CodedReport image.now set.old result set.new }
{
    deadends::zseq_dead_ends(image, set)
}

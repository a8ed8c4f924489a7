// The static library of the crate `checker`, for callers in C: the one exported function calls the library's, under the same clause. The loader links it. A crate of its own, since a
// crate is a library or a static library, and nothing can depend on the latter.
#![tactic(auto)]

ghost use Rattle.checker.specs.Check.{CodedAnswer};

// The check for callers in C, as one number: `format::answer::code` says which.
#[unsafe(no_mangle)]
pub extern "C" fn zseq_check(
    image: &[u8],
    table: &[u8],
    certificate: &[u8],
    goal: u64,
    start: u64,
) -> u64
    ensures { CodedAnswer image.now table.now certificate.now goal start result }
{
    checker::zseq_check(image, table, certificate, goal, start)
}

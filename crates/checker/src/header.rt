// The header of a certificate: its mark and version, the side that it proves, and the goal and start that it names.
ghost use Rattle.model.specs.Decides.{Decides};
ghost use Rattle.checker.specs.Header.{HeaderFits, NamesQuestion};

use format::{begins, byte};

// How many bytes it takes; the steps follow.
pub(crate) const BYTES: usize = 8;

// Whether a certificate is long enough, begins with its mark and version 1, and has a side.
pub(crate) fn fits(certificate: &[u8]) -> bool
    ensures { Decides result (HeaderFits certificate.now) }
{
    begins(certificate, b'C', BYTES) && byte(certificate, 5) <= 1
}

// Whether it names this goal and start.
pub(crate) fn names(certificate: &[u8], goal: u64, start: u64) -> bool
    ensures { Decides result (NamesQuestion certificate.now goal start) }
{
    byte(certificate, 6) as u64 == goal && byte(certificate, 7) as u64 == start
}

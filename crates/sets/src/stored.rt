// A set of stages written as it is stored: big-endian, stage k being the bit worth 2^k.
ghost use Rattle.sets.specs.Number.{number};
ghost use Rattle.sets.specs.Stored.{AtFront};

use crate::{BYTES, Set};

// Stores the set at the front of the buffer, whose rest stays as it is; one that has no room for the set stays as it is whole.
pub fn write(buffer: &mut [u8], s: Set)
    ensures { AtFront buffer.old (number s) buffer.new }
{
    if let Some(front) = buffer.first_chunk_mut::<BYTES>() {
        *front = s.bits.to_be_bytes();
    }
}

// Which entries are operands in the whole table: a flag for each, as far as none is so twice.
ghost use Rattle.std.specs.Prelude.{◌<◌, [], ◌∷◌};
ghost use Rattle.format.specs.Table.{operands_in, operands, entries_of};
ghost use Rattle.format.specs.Reading.{FlagsAnswer, Noted, OperandsSmall, AllSmall};

use crate::record::{Record, Sort};
use crate::{Refusal, byte, record};

// Gives an operand its flag; refused where it has that already.
fn noted(seen: &mut [bool; 64], o: u8) -> Result<(), Refusal>
    requires { o < 64 }
    ensures { Noted seen.old (o ∷ []) seen.new result }
{
    if seen[o as usize] {
        return Err(Refusal::OperandTwice);
    }
    seen[o as usize] = true;
    Ok(())
}

// The same of all operands of a record.
fn noted_operands(seen: &mut [bool; 64], r: Record) -> Result<(), Refusal>
    requires { OperandsSmall (operands_in r) }
    ensures { Noted seen.old (operands_in r) seen.new result }
{
    match record::sort_of(record::kind_of(r.kind)) {
        Sort::Constant | Sort::Atom => Ok(()),
        Sort::Unary => noted(seen, r.a),
        Sort::Junction | Sort::Binary => {
            noted(seen, r.a)?;
            noted(seen, r.b)
        }
    }
}

// The flags of all operands of the table; refused where one is met twice.
pub(crate) fn noted_all(table: &[u8]) -> Result<[bool; 64], Refusal>
    requires { AllSmall table.now }
    ensures { FlagsAnswer (operands table.now (entries_of table.now)) result }
{
    let m = byte(table, 5);
    let mut seen = [false; 64];
    for e in 0..m {
        noted_operands(&mut seen, record::entry(table, e as usize))?;
    }
    Ok(seen)
}

// Bytes put on a sheet one after the other, or only counted. A place is how many bytes came before; it is counted up to one past the buffer's end and no
// further, so a place past the end says that there was no room; `whole` promises such a number to its callers.
ghost use Rattle.std.specs.Prelude.{◌≡◌, [], ◌∷◌};
ghost use Rattle.rules.specs.Table.{row};
ghost use Rattle.checker.specs.Header.{header_of};
ghost use Rattle.pen.specs.Wrote.{Wrote};

use crate::run::Run;
use rules::Rule;

// A lent buffer, and the place that the writing came to. The program's line has a struct of its own, which asks for room where this counts on without.
#[derive(Drop)]
pub(crate) struct Sheet<'a> {
    pub(crate) out: &'a mut [u8],
    pub(crate) at: usize,
}

impl Run<'_> {
    // One byte. Where it is only counted, the buffer stays as it is.
    pub(crate) fn put(&self, b: u8, sheet: &mut Sheet<'_>)
        ensures wrote { Wrote self.now.writing (b ∷ []) sheet.old.at sheet.old.out.now sheet.new.out.now sheet.new.at }
        ensures same { sheet.new.out.ghost_name ≡ sheet.old.out.ghost_name }
    {
        if sheet.out.len() <= sheet.at {
            sheet.at = sheet.out.len() + 1;
            return;
        }
        if self.writing {
            sheet.out[sheet.at] = b;
        }
        sheet.at += 1;
    }

    // A rule's code.
    pub(crate) fn rule(&self, rule: Rule, sheet: &mut Sheet<'_>)
        ensures wrote { Wrote self.now.writing ((row rule).code ∷ []) sheet.old.at sheet.old.out.now sheet.new.out.now sheet.new.at }
        ensures same { sheet.new.out.ghost_name ≡ sheet.old.out.ghost_name }
    {
        self.put(rule.code(), sheet);
    }

    // The header of a certificate: its mark and version, the side that it proves, and the goal and start that it names.
    pub(crate) fn header(&self, goal: u8, start: u8, sheet: &mut Sheet<'_>)
        ensures wrote { Wrote self.now.writing (header_of self.now.side goal start) sheet.old.at sheet.old.out.now sheet.new.out.now sheet.new.at }
        ensures same { sheet.new.out.ghost_name ≡ sheet.old.out.ghost_name }
    {
        self.put(b'Z', sheet);
        self.put(b'S', sheet);
        self.put(b'C', sheet);
        self.put(0, sheet);
        self.put(1, sheet);
        self.put(self.side, sheet);
        self.put(goal, sheet);
        self.put(start, sheet);
    }
}

// What a kind asks of its operands, with the operands already worked out as sets or as truth values.
ghost use Rattle.std.specs.Prelude.{◌≡◌};
ghost use Rattle.sets.specs.Number.{number};
ghost use Rattle.modal.specs.Row.{Computes};
ghost use Rattle.verdict.specs.Kinds.{is_first, joined_number, Settled, always, modal_on};
ghost use Rattle.verdict.specs.Evaluation.{Collects};

use crate::setup::Setup;
use format::record::Kind;
use sets::Set;

// Whether a kind is the first of its pair of duals: true/false, P/not P, and/or, AX/EX, AF/EG, AR/EU.
pub(crate) fn is_first(kind: Kind) -> bool
    ensures { result ≡ is_first kind }
{
    matches!(
        kind,
        Kind::True | Kind::Is | Kind::And | Kind::AX | Kind::AF | Kind::AR
    )
}

// The stages of both sets for "and", those of either for "or".
pub(crate) fn joined(first: bool, a: Set, b: Set) -> Set
    ensures { number result ≡ joined_number first (number a) (number b) }
{
    if first { a.common(b) } else { a.union(b) }
}

impl Setup<'_> {
    // Every stage, or none.
    pub(crate) fn all_or_none(&self, all: bool) -> Set
        ensures { Collects self.now.stages (always all) (number result) }
    {
        if all {
            Set::below(self.stages)
        } else {
            Set::empty()
        }
    }

    // Whether the first operand's stages settle "and" or "or" at every stage: it holds at none of them, or at all.
    pub(crate) fn settled(&self, first: bool, a: Set) -> bool
        ensures { Settled result self.now.stages first (number a) }
    {
        if first {
            a.is_empty()
        } else {
            Set::below(self.stages).subset(a)
        }
    }

    // The stages from which a modality holds, from the stages at which its operands hold; none where the kind is no modality.
    pub(crate) fn modal_of(&self, kind: Kind, a: Set, b: Set) -> Set
        ensures { Computes self.now.next.now self.now.stages (modal_on kind (number a) (number b)) (number result) }
    {
        match kind {
            Kind::AX => modal::each_next(self.next, self.stages, a),
            Kind::EX => modal::some_next(self.next, self.stages, a),
            Kind::AF => modal::af(self.next, self.stages, a),
            Kind::EG => modal::eg(self.next, self.stages, a),
            Kind::AR => modal::ar(self.next, self.stages, a, b),
            Kind::EU => modal::eu(self.next, self.stages, a, b),
            _ => Set::empty(),
        }
    }
}

// Rows that hold for each stage the successor to which a writer goes on. They are filled from the setup's row of successor sets.
ghost use Rattle.std.specs.Prelude.{◌≡◌, ◌≤◌, ◌<◌, length};
ghost use Rattle.model.specs.Graph.{Graph};
ghost use Rattle.sets.specs.Number.{number};
ghost use Rattle.modal.specs.Row.{member, Row, Inside};
ghost use Rattle.written.specs.Choice.{nearest};
ghost use Rattle.guide.specs.Toward.{Filled, Cleared, lowest_in, settled};

use sets::Set;
use verdict::setup::Setup;

// The lowest successor of s in a set; 0 where there is none.
pub(crate) fn lowest_next(setup: &Setup<'_>, s: usize, set: Set) -> u8
    ensures { result ≡ lowest_in setup.now.next.now setup.now.stages (number set) s }
{
    let low = sets::row::load(setup.next, s).common(set).lowest();
    if low < setup.stages { low as u8 } else { 0 }
}

// Each stage of `new`, all of which are the setup's, is led to its lowest successor in a set.
fn settle(setup: &Setup<'_>, new: Set, set: Set, toward: &mut [u8])
    requires { (setup.now.stages ≤ length toward.old) × Inside setup.now.stages (number new) }
    ensures { Filled setup.now.stages (settled setup.now.next.now setup.now.stages (number new) (number set) toward.old) toward.old toward.new }
{
    for s in new.stages() {
        toward[s] = lowest_next(setup, s, set);
    }
}

// Every stage is led to its lowest successor in a set.
pub(crate) fn fill(setup: &Setup<'_>, set: Set, toward: &mut [u8])
    requires { setup.now.stages ≤ length toward.old }
    ensures { Filled setup.now.stages (lowest_in setup.now.next.now setup.now.stages (number set)) toward.old toward.new }
{
    settle(setup, Set::below(setup.stages), set, toward);
}

// Every stage is led to the successor fewest steps from a "now" along stages with a, the lowest of equals; a now is where b holds. Before, the
// row must lead nowhere.
//
// After k rounds `near` has the stages at most k steps from a now, and `away` those that have no successor fewer than k steps from one. Only these are
// asked. One of them that is new in a round, with a successor that is near then, is led to the lowest such: no successor was near before. Where a round
// finds no stage new, it would change nothing, and neither would those after it.
pub(crate) fn nearest(setup: &Setup<'_>, a: Set, b: Set, toward: &mut [u8])
    requires { (setup.now.stages ≤ length toward.old) × Cleared setup.now.stages toward.old }
    ensures { (G : Graph) → Row setup.now.next.now setup.now.stages G
        → Filled setup.now.stages (nearest G (member (number a)) (member (number b))) toward.old toward.new }
{
    let mut near = b;
    let mut away = Set::below(setup.stages);
    for _ in 0..setup.stages {
        let new = modal::some_next_among(setup.next, setup.stages, away, near);
        if new.is_empty() {
            return;
        }
        settle(setup, new, near, toward);
        away = away.minus(new);
        near = near.union(a.common(new));
    }
}

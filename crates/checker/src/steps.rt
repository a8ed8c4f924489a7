// Reading the steps of a proof: a formula step hands over to a walk, and the walk back to formula steps. Each reader goes on from the place that it is
// given, and leaves the place that it came to: that after the last step read, or that of the step at fault. `Steps::read` says both in one answer. Between
// the readers an answer is only whether one stopped and why, which the machine hands back in a register: with the place in it, a check of an AF tree took
// 1.11 to 1.17 times the instructions of idiomatic Rust, and so it takes less than idiomatic Rust. Two numbers fall: the entry's, at each operand, and how many
// stages are not on the walk, where a walk goes on. Entry, kind and stages are those of a setup that was read, so nothing here tests them again.
ghost use Rattle.std.specs.Prelude.{◌≡◌, ◌<◌};
ghost use Rattle.model.specs.Decides.{Decides};
ghost use Rattle.sets.specs.Member.{Has};
ghost use Rattle.sets.specs.Number.{number, width};
ghost use Rattle.sets.specs.Row.{held};
ghost use Rattle.format.specs.Table.{record_at};
ghost use Rattle.rules.specs.Table.{kind_for};
ghost use Rattle.hand.specs.Environment.{Bound, env_of};
ghost use Rattle.hand.specs.Setup.{entry_at, most_entries};
ghost use Rattle.checker.specs.Reading.{InHand, Lent, OnWalk, Started};

use hand::env::Env;
use hand::setup::Entry;
use hand::{env, setup};
use rules::{Rule, Step, Stop, Unread};
use sets::Set;

// Why the reading of steps stopped.
#[derive(Clone, Copy, PartialEq, Eq)]
pub(crate) enum Cause {
    // A code or chosen byte is missing.
    Missing,
    // The code is not one for the formula in hand.
    Wrong,
    // The rule's condition fails.
    Fails,
}

impl From<Unread> for Cause {
    ghost use Rattle.checker.specs.Cause.{unread};

    ghost from_gives = { λ u c. c ≡ unread u };

    fn from(unread: Unread) -> Cause {
        match unread {
            Unread::Missing => Cause::Missing,
            Unread::Wrong => Cause::Wrong,
        }
    }
}

// A stage as an index. It is below the width, so that nothing changes; but the compiler then knows it too, and tests no membership for it.
fn index(s: u8) -> usize
    requires { s < width }
    ensures { result ≡ s }
{
    s as usize % sets::WIDTH
}

// The walk of a formula that is begun: it stands on no stage yet, whatever walk is under way around the formula. A function, so that
// must-fail/outer_walk_kept.edit meets its clause and not only a name in a proof.
fn fresh_walk() -> Set
    ensures { number result ≡ 0 }
{
    Set::empty()
}

// What the readers go by: the sets of an image, the entries of its table on a side, and the bytes of a certificate. No step reads the image, the table and the
// side: they are here for the contracts, and for what is known of the sets and the entries, that they are those of a setup that was read. They stand last, so
// that the steps compile to the same instructions as without them.
#[derive(Clone, Copy)]
pub(crate) struct Steps<'a> {
    pub sets: &'a [Set; setup::SETS],
    pub entries: &'a [Entry; setup::ENTRIES],
    pub bytes: &'a [u8],
    pub image: &'a [u8],
    pub table: &'a [u8],
    pub side: u8,
    pub ghost lent: { Lent image.now table.now side sets.now entries.now },
}

impl Steps<'_> {
    ghost use Rattle.checker.specs.Cause.{told};
    ghost use Rattle.checker.specs.Reading.{allows, read_along, read_each_a, read_each_on, read_entry};

    // The stage at which the walk of an entry's formula starts: that of a modality's term; of another formula, 0.
    fn start(&self, e: u8, env: Env) -> u8
        requires { e < most_entries }
        ensures { Started ((entry_at self.now.entries.now e).kind) ((entry_at self.now.entries.now e).t) (env_of env) result }
    {
        let f = &self.entries[e as usize];
        if f.kind < 6 {
            0
        } else {
            env::stage_of(f.t, env)
        }
    }

    // Whether a rule's own condition holds: the atom is true, or is not; its chosen stage is a successor; the stage is not on the walk, or is on it.
    // As a call it took a fifth of a check of the AF tree, and `on_at_each` a twentieth.
    #[inline(always)]
    fn allows(&self, rule: Rule, e: u8, env: Env, met: Set, s: u8) -> bool
        requires { OnWalk self.now.image.now self.now.table.now e (env_of env) s × (kind_for rule ≡ (entry_at self.now.entries.now e).kind) }
        ensures { result ≡ allows self.now.image.now (record_at self.now.table.now e) (env_of env) (number met) s rule }
    {
        let k = index(s);
        match rule {
            Rule::Holds => setup::atom(self.sets, &self.entries[e as usize], env),
            Rule::HoldsNot => !setup::atom(self.sets, &self.entries[e as usize], env),
            Rule::Ex(c) => self.leads(k, c),
            Rule::EgOn(c) | Rule::EuLater(c) => self.leads(k, c) && !met.has(k),
            Rule::AfNow | Rule::AfLater | Rule::ArRelease | Rule::ArOn | Rule::EuNow => {
                !met.has(k)
            }
            Rule::EgMerge | Rule::ArMerge => met.has(k),
            Rule::True | Rule::And | Rule::OrLeft | Rule::OrRight | Rule::Ax => true,
        }
    }

    // Whether stage c is a successor of stage k.
    fn leads(&self, k: usize, c: u8) -> bool
        ensures { Decides result (Has (held self.now.sets.now k) c) }
    {
        setup::set(self.sets, k).has(c as usize)
    }

    // The steps of an entry's formula, from a place on: the place after them, or why the reading stopped, and where.
    pub(crate) fn read(&self, e: u8, env: Env, from: usize) -> Result<usize, Stop>
        requires { InHand self.now.image.now self.now.table.now e (env_of env) }
        ensures { result ≡ read_entry self.now.image.now self.now.table.now self.now.bytes.now self.now.side e (env_of env) from }
    {
        let mut at = from;
        match self.formula(e, env, &mut at) {
            Ok(()) => Ok(at),
            Err(Cause::Missing) => Err(Stop::Missing),
            Err(Cause::Wrong) => Err(Stop::Wrong(at)),
            Err(Cause::Fails) => Err(Stop::Fails(at)),
        }
    }

    // An entry's formula, from the start of its walk.
    #[cycle(formula_walk)]
    fn formula(&self, e: u8, env: Env, at: &mut usize) -> Result<(), Cause>
        requires { InHand self.now.image.now self.now.table.now e (env_of env) }
        ensures { told result at.new ≡ read_entry self.now.image.now self.now.table.now self.now.bytes.now self.now.side e (env_of env) at.old }
    {
        if self.entries[e as usize].kind < 4 {
            return self.leaf(e, env, at);
        }
        self.walk(e, env, fresh_walk(), self.start(e, env), at)
    }

    // "True", "false" or an atom: one step with no premises, so that there is no walk. For "false" there is no rule.
    fn leaf(&self, e: u8, env: Env, at: &mut usize) -> Result<(), Cause>
        requires { InHand self.now.image.now self.now.table.now e (env_of env) × ((entry_at self.now.entries.now e).kind < 4) }
        ensures { told result at.new ≡ read_entry self.now.image.now self.now.table.now self.now.bytes.now self.now.side e (env_of env) at.old }
    {
        let Step { rule, next } = rules::read_head(self.bytes, *at, self.entries[e as usize].kind)?;
        if !self.allows(rule, e, env, fresh_walk(), 0) {
            return Err(Cause::Fails);
        }
        *at = next;
        Ok(())
    }

    // One step at a stage of the walk: the code byte, 23, the chosen byte, 24, and then the premises, in order. Entry, variables, walk and stage stand apart,
    // as each premise has others of them.
    #[cycle(formula_walk)]
    fn walk(&self, e: u8, env: Env, met: Set, s: u8, at: &mut usize) -> Result<(), Cause>
        requires { OnWalk self.now.image.now self.now.table.now e (env_of env) s }
        ensures { told result at.new
            ≡ read_along self.now.image.now self.now.table.now self.now.bytes.now self.now.side e (env_of env) (number met) s at.old }
    {
        let f = &self.entries[e as usize];
        let Step { rule, next } = rules::read_head(self.bytes, *at, f.kind)?;
        if !self.allows(rule, e, env, met, s) {
            return Err(Cause::Fails);
        }
        *at = next;
        match rule {
            Rule::True | Rule::Holds | Rule::HoldsNot | Rule::EgMerge | Rule::ArMerge => Ok(()),
            Rule::And => {
                self.formula(f.a, env, at)?;
                self.formula(f.b, env, at)
            }
            Rule::OrLeft => self.formula(f.a, env, at),
            Rule::OrRight => self.formula(f.b, env, at),
            Rule::Ax => self.at_each(e, env, s, at),
            Rule::Ex(c) => self.formula(f.a, env.bound(f.x, c), at),
            Rule::AfNow => self.formula(f.a, env.bound(f.x, s), at),
            Rule::AfLater => self.on_at_each(e, env, met, s, at),
            Rule::EgOn(c) | Rule::EuLater(c) => {
                self.formula(f.a, env.bound(f.x, s), at)?;
                self.walk(e, env, met.with(index(s)), c, at)
            }
            Rule::ArRelease => {
                self.formula(f.a, env.bound(f.x, s), at)?;
                self.formula(f.b, env.bound(f.y, s), at)
            }
            Rule::ArOn => {
                self.formula(f.b, env.bound(f.y, s), at)?;
                self.on_at_each(e, env, met, s, at)
            }
            Rule::EuNow => self.formula(f.b, env.bound(f.y, s), at),
        }
    }

    // The entry's a at each successor of s, ascending. With `on_at_each` it has only the loop's head in common.
    #[cycle(formula_walk)]
    fn at_each(&self, e: u8, env: Env, s: u8, at: &mut usize) -> Result<(), Cause>
        requires { OnWalk self.now.image.now self.now.table.now e (env_of env) s × ((record_at self.now.table.now e).a < e) }
        ensures { told result at.new
            ≡ read_each_a self.now.image.now self.now.table.now self.now.bytes.now self.now.side e (record_at self.now.table.now e) (env_of env) s at.old }
    {
        let f = &self.entries[e as usize];
        for t in setup::set(self.sets, index(s)).stages() {
            self.formula(f.a, env.bound(f.x, t as u8), at)?;
        }
        Ok(())
    }

    // The walk, with s added, at each successor of s, ascending.
    #[cycle(formula_walk)]
    #[inline(always)]
    fn on_at_each(&self, e: u8, env: Env, met: Set, s: u8, at: &mut usize) -> Result<(), Cause>
        requires { OnWalk self.now.image.now self.now.table.now e (env_of env) s × (Has (number met) s → ⊥) }
        ensures { told result at.new
            ≡ read_each_on self.now.image.now self.now.table.now self.now.bytes.now self.now.side e (env_of env) (number met) s at.old }
    {
        let k = index(s);
        let longer = met.with(k);
        for t in setup::set(self.sets, k).stages() {
            self.walk(e, env, longer, t as u8, at)?;
        }
        Ok(())
    }
}

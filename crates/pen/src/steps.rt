// Writing the steps of a certificate: an entry's formula, and a function for each kind of walk, which comes back to formulas for its operands. What a walk
// goes by is worked out once, when its formula is come to (`guide`). Each writer goes on from the place that the writing came to; past the buffer's end there
// is nothing to do, so that a certificate that does not fit is given up at once, however long it is.
//
// All require a formula that holds on the side: an operand is written only where it holds too. Two numbers fall: the entry's, at each operand, and the
// fuel, at each step of a walk.
ghost use Rattle.std.specs.Prelude.{◌≡◌, ◌≤◌, length};
ghost use Rattle.sets.specs.Number.{number};
ghost use Rattle.format.specs.declared.record.Kind.TheVariants.{Or, AX, EX, AF, EG, AR, EU};
ghost use Rattle.rules.specs.Kind as rule;
ghost use Rattle.hand.specs.Environment.{env_of};
ghost use Rattle.checker.specs.Reading.{walk_of};
ghost use Rattle.pen.specs.Wrote.{Wrote};
ghost use Rattle.pen.specs.Steps.{entry_steps, af_steps, two_steps, Holding, InHand, AfAt, ArAt, Noted};

use crate::bytes::Sheet;
use crate::run::Run;
use format::record;
use format::record::Kind;
use guide::sides;
use guide::sides::Operand;
use hand::env;
use hand::env::Env;
use rules::Rule;
use sets::Set;

// What stays the same along a walk of AF or AR: its entry, where the variables stand at its start, and the stages at which it goes now, or is released.
#[derive(Clone, Copy)]
struct Course {
    entry: u8,
    env: Env,
    stop: Set,
}

impl Run<'_> {
    // An entry's formula, from the start of its walk. False holds nowhere.
    #[cycle(af_af_from_af_step_ar_ar_from_ax_eg_eu_ex_formula_or)]
    pub(crate) fn formula(&self, e: u8, env: Env, sheet: &mut Sheet<'_>)
        requires { Holding self.now.setup.image.now self.now.setup.table.now self.now.side e env }
        ensures wrote { Wrote self.now.writing (entry_steps self.now.setup.image.now self.now.setup.table.now self.now.side e (env_of env))
            sheet.old.at sheet.old.out.now sheet.new.out.now sheet.new.at }
        ensures same { sheet.new.out.ghost_name ≡ sheet.old.out.ghost_name }
    {
        if sheet.out.len() < sheet.at {
            sheet.at = sheet.out.len() + 1;
            return;
        }
        let f = self.entries[e as usize];
        match record::kind_of(f.kind) {
            Kind::True => self.rule(Rule::True, sheet),
            Kind::Is => self.rule(Rule::Holds, sheet),
            Kind::IsNot => self.rule(Rule::HoldsNot, sheet),
            Kind::And => {
                self.rule(Rule::And, sheet);
                self.formula(f.a, env, sheet);
                self.formula(f.b, env, sheet)
            }
            Kind::Or => self.or(e, env, sheet),
            Kind::AX => self.ax(e, env, sheet),
            Kind::EX => self.ex(e, env, sheet),
            Kind::AF => self.af_from(e, env, sheet),
            Kind::EG => self.eg(e, env, sheet),
            Kind::AR => self.ar_from(e, env, sheet),
            Kind::EU => self.eu(e, env, sheet),
            Kind::False => {}
        }
    }

    // Or: left if it holds, else right.
    #[cycle(af_af_from_af_step_ar_ar_from_ax_eg_eu_ex_formula_or)]
    fn or(&self, e: u8, env: Env, sheet: &mut Sheet<'_>)
        requires { InHand self.now.setup.image.now self.now.setup.table.now self.now.side e env Or }
        ensures wrote { Wrote self.now.writing (entry_steps self.now.setup.image.now self.now.setup.table.now self.now.side e (env_of env))
            sheet.old.at sheet.old.out.now sheet.new.out.now sheet.new.at }
        ensures same { sheet.new.out.ghost_name ≡ sheet.old.out.ghost_name }
    {
        let f = self.entries[e as usize];
        if sides::holds_on(&self.setup, self.side, f.a, env) {
            self.rule(Rule::OrLeft, sheet);
            self.formula(f.a, env, sheet)
        } else {
            self.rule(Rule::OrRight, sheet);
            self.formula(f.b, env, sheet)
        }
    }

    // AX: a at each successor, ascending.
    #[cycle(af_af_from_af_step_ar_ar_from_ax_eg_eu_ex_formula_or)]
    fn ax(&self, e: u8, env: Env, sheet: &mut Sheet<'_>)
        requires { InHand self.now.setup.image.now self.now.setup.table.now self.now.side e env AX }
        ensures wrote { Wrote self.now.writing (entry_steps self.now.setup.image.now self.now.setup.table.now self.now.side e (env_of env))
            sheet.old.at sheet.old.out.now sheet.new.out.now sheet.new.at }
        ensures same { sheet.new.out.ghost_name ≡ sheet.old.out.ghost_name }
    {
        let f = self.entries[e as usize];
        let there = sets::row::load(self.setup.next, env::stage_of(f.t, env) as usize);
        self.rule(Rule::Ax, sheet);
        for t in there.stages() {
            self.formula(f.a, env.bound(f.x, t as u8), sheet);
        }
    }

    // EX: a at the lowest successor at which it holds.
    #[cycle(af_af_from_af_step_ar_ar_from_ax_eg_eu_ex_formula_or)]
    fn ex(&self, e: u8, env: Env, sheet: &mut Sheet<'_>)
        requires { InHand self.now.setup.image.now self.now.setup.table.now self.now.side e env EX }
        ensures wrote { Wrote self.now.writing (entry_steps self.now.setup.image.now self.now.setup.table.now self.now.side e (env_of env))
            sheet.old.at sheet.old.out.now sheet.new.out.now sheet.new.at }
        ensures same { sheet.new.out.ghost_name ≡ sheet.old.out.ghost_name }
    {
        let f = self.entries[e as usize];
        let a = Operand {
            entry: f.a,
            variable: f.x,
        };
        let c = guide::ex(&self.setup, self.side, a, env, env::stage_of(f.t, env));
        self.rule(Rule::Ex(c), sheet);
        self.put(c, sheet);
        self.formula(f.a, env.bound(f.x, c), sheet)
    }

    // AF, from the start of its walk: it goes now where a holds. No length is known yet: each is 0, which none has, and options would take twice the stack.
    #[cycle(af_af_from_af_step_ar_ar_from_ax_eg_eu_ex_formula_or)]
    fn af_from(&self, e: u8, env: Env, sheet: &mut Sheet<'_>)
        requires { InHand self.now.setup.image.now self.now.setup.table.now self.now.side e env AF }
        ensures wrote { Wrote self.now.writing (entry_steps self.now.setup.image.now self.now.setup.table.now self.now.side e (env_of env))
            sheet.old.at sheet.old.out.now sheet.new.out.now sheet.new.at }
        ensures same { sheet.new.out.ghost_name ≡ sheet.old.out.ghost_name }
    {
        let f = self.entries[e as usize];
        let a = Operand {
            entry: f.a,
            variable: f.x,
        };
        let stop = sides::where_on(&self.setup, self.side, a, env);
        let s = env::stage_of(f.t, env);
        let mut lens = [0u64; sets::WIDTH];
        let course = Course {
            entry: e,
            env,
            stop,
        };
        self.af(&course, s, self.setup.stages + 1, &mut lens, sheet)
    }

    // AF at a stage. Its steps there are the same however it is come to, so while they are only counted their length is worked out once and noted. A length
    // that passes the buffer is not: the count has stopped then.
    #[cycle(af_af_from_af_step_ar_ar_from_ax_eg_eu_ex_formula_or)]
    fn af(
        &self,
        course: &Course,
        s: u8,
        left: usize,
        lens: &mut [u64; sets::WIDTH],
        sheet: &mut Sheet<'_>,
    )
        requires { AfAt self.now.setup.image.now self.now.setup.table.now self.now.side course.now.entry course.now.env (number course.now.stop)
            s left lens.old }
        ensures wrote { Wrote self.now.writing
            (af_steps self.now.setup.image.now self.now.setup.table.now self.now.side course.now.entry (env_of course.now.env) s)
            sheet.old.at sheet.old.out.now sheet.new.out.now sheet.new.at }
        ensures same { sheet.new.out.ghost_name ≡ sheet.old.out.ghost_name }
        ensures noted { Noted self.now.setup.image.now self.now.setup.table.now self.now.side course.now.entry (env_of course.now.env) lens.new }
    {
        if sheet.out.len() < sheet.at {
            sheet.at = sheet.out.len() + 1;
            return;
        }
        let i = s as usize;
        if !self.writing {
            let known = lens[i] as usize;
            if 0 < known {
                if sheet.out.len() - sheet.at < known {
                    sheet.at = sheet.out.len() + 1;
                } else {
                    sheet.at += known;
                }
                return;
            }
        }
        let begun = sheet.at;
        self.af_step(course, s, left, lens, sheet);
        if sheet.at <= sheet.out.len() {
            lens[i] = (sheet.at - begun) as u64;
        }
    }

    // One step of AF: now, or at each successor, ascending.
    #[cycle(af_af_from_af_step_ar_ar_from_ax_eg_eu_ex_formula_or)]
    fn af_step(
        &self,
        course: &Course,
        s: u8,
        left: usize,
        lens: &mut [u64; sets::WIDTH],
        sheet: &mut Sheet<'_>,
    )
        requires { AfAt self.now.setup.image.now self.now.setup.table.now self.now.side course.now.entry course.now.env (number course.now.stop)
            s left lens.old
            × (sheet.old.at ≤ length sheet.old.out.now) }
        ensures wrote { Wrote self.now.writing
            (af_steps self.now.setup.image.now self.now.setup.table.now self.now.side course.now.entry (env_of course.now.env) s)
            sheet.old.at sheet.old.out.now sheet.new.out.now sheet.new.at }
        ensures same { sheet.new.out.ghost_name ≡ sheet.old.out.ghost_name }
        ensures noted { Noted self.now.setup.image.now self.now.setup.table.now self.now.side course.now.entry (env_of course.now.env) lens.new }
    {
        if course.stop.has(s as usize) {
            let f = self.entries[course.entry as usize];
            self.rule(Rule::AfNow, sheet);
            return self.formula(f.a, course.env.bound(f.x, s), sheet);
        }
        self.rule(Rule::AfLater, sheet);
        let there = sets::row::load(self.setup.next, s as usize);
        for t in there.stages() {
            self.af(course, t as u8, left - 1, lens, sheet);
        }
    }

    // EG: a at each stage of a walk, which goes on at the lowest successor at which EG holds, until it merges.
    #[cycle(af_af_from_af_step_ar_ar_from_ax_eg_eu_ex_formula_or)]
    fn eg(&self, e: u8, env: Env, sheet: &mut Sheet<'_>)
        requires { InHand self.now.setup.image.now self.now.setup.table.now self.now.side e env EG × (sheet.old.at ≤ length sheet.old.out.now) }
        ensures wrote { Wrote self.now.writing (entry_steps self.now.setup.image.now self.now.setup.table.now self.now.side e (env_of env))
            sheet.old.at sheet.old.out.now sheet.new.out.now sheet.new.at }
        ensures same { sheet.new.out.ghost_name ≡ sheet.old.out.ghost_name }
    {
        let f = self.entries[e as usize];
        let a = Operand {
            entry: f.a,
            variable: f.x,
        };
        let mut toward = [0u8; sets::WIDTH];
        guide::eg(&self.setup, self.side, a, env, &mut toward);
        let mut walk = Set::empty();
        let mut s = env::stage_of(f.t, env);
        for _ in 0..self.setup.stages + 1 {
            if walk.has(s as usize) {
                return self.rule(Rule::EgMerge, sheet);
            }
            let c = toward[s as usize];
            self.rule(Rule::EgOn(c), sheet);
            self.put(c, sheet);
            self.formula(f.a, env.bound(f.x, s), sheet);
            walk = walk.with(s as usize);
            s = c;
        }
    }

    // AR, from the start of its walk: it is released where a holds.
    #[cycle(af_af_from_af_step_ar_ar_from_ax_eg_eu_ex_formula_or)]
    fn ar_from(&self, e: u8, env: Env, sheet: &mut Sheet<'_>)
        requires { InHand self.now.setup.image.now self.now.setup.table.now self.now.side e env AR }
        ensures wrote { Wrote self.now.writing (entry_steps self.now.setup.image.now self.now.setup.table.now self.now.side e (env_of env))
            sheet.old.at sheet.old.out.now sheet.new.out.now sheet.new.at }
        ensures same { sheet.new.out.ghost_name ≡ sheet.old.out.ghost_name }
    {
        let f = self.entries[e as usize];
        let a = Operand {
            entry: f.a,
            variable: f.x,
        };
        let stop = sides::where_on(&self.setup, self.side, a, env);
        let s = env::stage_of(f.t, env);
        let course = Course {
            entry: e,
            env,
            stop,
        };
        self.ar(&course, Set::empty(), s, self.setup.stages + 1, sheet)
    }

    // AR at a stage of its walk: merge, release, or b here and AR at each successor, ascending.
    #[cycle(af_af_from_af_step_ar_ar_from_ax_eg_eu_ex_formula_or)]
    fn ar(&self, course: &Course, walk: Set, s: u8, left: usize, sheet: &mut Sheet<'_>)
        requires { ArAt self.now.setup.image.now self.now.setup.table.now self.now.side course.now.entry course.now.env (number course.now.stop) s left }
        ensures wrote { Wrote self.now.writing
            (two_steps self.now.setup.image.now self.now.setup.table.now self.now.side rule.Kind.AR course.now.entry (env_of course.now.env) left
            (walk_of (number walk)) s)
            sheet.old.at sheet.old.out.now sheet.new.out.now sheet.new.at }
        ensures same { sheet.new.out.ghost_name ≡ sheet.old.out.ghost_name }
    {
        if sheet.out.len() < sheet.at {
            sheet.at = sheet.out.len() + 1;
            return;
        }
        if left == 0 {
            return;
        }
        if walk.has(s as usize) {
            return self.rule(Rule::ArMerge, sheet);
        }
        let f = self.entries[course.entry as usize];
        if course.stop.has(s as usize) {
            self.rule(Rule::ArRelease, sheet);
            self.formula(f.a, course.env.bound(f.x, s), sheet);
            return self.formula(f.b, course.env.bound(f.y, s), sheet);
        }
        self.rule(Rule::ArOn, sheet);
        self.formula(f.b, course.env.bound(f.y, s), sheet);
        let longer = walk.with(s as usize);
        let there = sets::row::load(self.setup.next, s as usize);
        for t in there.stages() {
            self.ar(course, longer, t as u8, left - 1, sheet);
        }
    }

    // EU: a at each stage of a walk, which goes on at the successor fewest steps from a now, and there b.
    #[cycle(af_af_from_af_step_ar_ar_from_ax_eg_eu_ex_formula_or)]
    fn eu(&self, e: u8, env: Env, sheet: &mut Sheet<'_>)
        requires { InHand self.now.setup.image.now self.now.setup.table.now self.now.side e env EU × (sheet.old.at ≤ length sheet.old.out.now) }
        ensures wrote { Wrote self.now.writing (entry_steps self.now.setup.image.now self.now.setup.table.now self.now.side e (env_of env))
            sheet.old.at sheet.old.out.now sheet.new.out.now sheet.new.at }
        ensures same { sheet.new.out.ghost_name ≡ sheet.old.out.ghost_name }
    {
        let f = self.entries[e as usize];
        let a = Operand {
            entry: f.a,
            variable: f.x,
        };
        let b = Operand {
            entry: f.b,
            variable: f.y,
        };
        let mut toward = [0u8; sets::WIDTH];
        let now = guide::eu(&self.setup, self.side, a, b, env, &mut toward);
        let mut s = env::stage_of(f.t, env);
        for _ in 0..self.setup.stages + 1 {
            if now.has(s as usize) {
                self.rule(Rule::EuNow, sheet);
                return self.formula(f.b, env.bound(f.y, s), sheet);
            }
            let c = toward[s as usize];
            self.rule(Rule::EuLater(c), sheet);
            self.put(c, sheet);
            self.formula(f.a, env.bound(f.x, s), sheet);
            s = c;
        }
    }
}

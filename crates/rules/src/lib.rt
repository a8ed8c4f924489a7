// The seventeen rules of document 01, and the reading of one step's head: its code byte, and the chosen byte of the three rules that have
// one. specs/ says what the steps of a whole proof are and how they are read; a checker goes by `read_head`, by cases on `Rule`, and answers
// the place that it came to, or where and why it stopped.
#![tactic(auto)]

ghost use Rattle.std.specs.Prelude.{◌≡◌};
ghost use Rattle.rules.specs.Table.{row, rule_with, with_choice, kind_for, takes, chosen_of};
ghost use Rattle.rules.specs.Head.{head_of};

// The rules, in the order of their codes. Three carry the chosen stage.
#[derive(Clone, Copy, PartialEq, Eq)]
pub enum Rule {
    True,
    Holds,
    HoldsNot,
    And,
    OrLeft,
    OrRight,
    Ax,
    Ex(u8),
    AfNow,
    AfLater,
    EgOn(u8),
    EgMerge,
    ArRelease,
    ArOn,
    ArMerge,
    EuNow,
    EuLater(u8),
}

// A step for the formula in hand: its rule, and the place after its code and its chosen byte.
#[derive(Clone, Copy, PartialEq, Eq)]
pub struct Step {
    pub rule: Rule,
    pub next: usize,
}

// Why no step for the formula in hand begins at a place.
#[derive(Clone, Copy, PartialEq, Eq)]
pub enum Unread {
    // The code byte is missing, or the chosen byte.
    Missing,
    // A code, and not one for the formula in hand.
    Wrong,
}

// Why the reading of steps stopped before all that was asked for is proved.
#[derive(Clone, Copy, PartialEq, Eq)]
pub enum Stop {
    // A code or chosen byte is missing.
    Missing,
    // The code at this place is not one for the formula in hand.
    Wrong(usize),
    // The condition of the rule at this place fails.
    Fails(usize),
}

impl Rule {
    // The rule with a code, with 0 for its chosen stage where it takes one; none above the last code.
    fn with_code(code: u8) -> Option<Rule>
        ensures { result ≡ rule_with code }
    {
        Some(match code {
            0 => Rule::True,
            1 => Rule::Holds,
            2 => Rule::HoldsNot,
            3 => Rule::And,
            4 => Rule::OrLeft,
            5 => Rule::OrRight,
            6 => Rule::Ax,
            7 => Rule::Ex(0),
            8 => Rule::AfNow,
            9 => Rule::AfLater,
            10 => Rule::EgOn(0),
            11 => Rule::EgMerge,
            12 => Rule::ArRelease,
            13 => Rule::ArOn,
            14 => Rule::ArMerge,
            15 => Rule::EuNow,
            16 => Rule::EuLater(0),
            _ => return None,
        })
    }

    // Its code.
    pub fn code(self) -> u8
        ensures { result ≡ (row self).code }
    {
        match self {
            Rule::True => 0,
            Rule::Holds => 1,
            Rule::HoldsNot => 2,
            Rule::And => 3,
            Rule::OrLeft => 4,
            Rule::OrRight => 5,
            Rule::Ax => 6,
            Rule::Ex(_) => 7,
            Rule::AfNow => 8,
            Rule::AfLater => 9,
            Rule::EgOn(_) => 10,
            Rule::EgMerge => 11,
            Rule::ArRelease => 12,
            Rule::ArOn => 13,
            Rule::ArMerge => 14,
            Rule::EuNow => 15,
            Rule::EuLater(_) => 16,
        }
    }

    // The number of the kind of formula that it is for.
    fn kind(self) -> u8
        ensures { result ≡ kind_for self }
    {
        match self {
            Rule::True => 0,
            Rule::Holds => 2,
            Rule::HoldsNot => 3,
            Rule::And => 4,
            Rule::OrLeft | Rule::OrRight => 5,
            Rule::Ax => 6,
            Rule::Ex(_) => 7,
            Rule::AfNow | Rule::AfLater => 8,
            Rule::EgOn(_) | Rule::EgMerge => 9,
            Rule::ArRelease | Rule::ArOn | Rule::ArMerge => 10,
            Rule::EuNow | Rule::EuLater(_) => 11,
        }
    }

    // Whether a chosen stage follows its code.
    fn takes_choice(self) -> bool
        ensures { result ≡ takes self }
    {
        matches!(self, Rule::Ex(_) | Rule::EgOn(_) | Rule::EuLater(_))
    }

    // Its chosen stage; 0 for the rules that have none.
    pub fn chosen(self) -> u8
        ensures { result ≡ chosen_of self }
    {
        match self {
            Rule::Ex(c) | Rule::EgOn(c) | Rule::EuLater(c) => c,
            _ => 0,
        }
    }

    // The same rule with c for its chosen stage, where it takes one.
    fn with_choice(self, c: u8) -> Rule
        ensures { result ≡ with_choice c self }
    {
        match self {
            Rule::Ex(_) => Rule::Ex(c),
            Rule::EgOn(_) => Rule::EgOn(c),
            Rule::EuLater(_) => Rule::EuLater(c),
            _ => self,
        }
    }
}

// The step at a place, for a formula of a kind, given by its number: any number may be asked for, and for one that is no kind there is no step. The code comes
// first; whether it is one for the formula in hand comes before its chosen byte.
pub fn read_head(bytes: &[u8], at: usize, kind: u8) -> Result<Step, Unread>
    ensures { result ≡ head_of bytes.now at kind }
{
    let Some(&code) = bytes.get(at) else {
        return Err(Unread::Missing);
    };
    let Some(rule) = Rule::with_code(code) else {
        return Err(Unread::Wrong);
    };
    if rule.kind() != kind {
        return Err(Unread::Wrong);
    }
    let next = at + 1;
    if !rule.takes_choice() {
        return Ok(Step { rule, next });
    }
    let Some(&chosen) = bytes.get(next) else {
        return Err(Unread::Missing);
    };
    Ok(Step {
        rule: rule.with_choice(chosen),
        next: next + 1,
    })
}

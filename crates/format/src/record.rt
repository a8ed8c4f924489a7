// The records of a formula table: the kind of each, the fields that its row of kinds uses, and the rules that it keeps.
ghost use Rattle.std.specs.Prelude.{◌≡◌};
ghost use Rattle.model.specs.Decides.{Decides};
ghost use Rattle.format.specs.Table.{kind_with, kind_of, sort_of, record_at};
ghost use Rattle.format.specs.Table.{IsTerm, SecondTerm, ConstantRule, AtomRule, JunctionRule, UnaryRule, BinaryRule, Ruled};

use crate::byte;

// The kinds of formulas, in the order of their numbers.
#[derive(Clone, Copy, PartialEq, Eq)]
pub enum Kind {
    True,
    False,
    Is,
    IsNot,
    And,
    Or,
    AX,
    EX,
    AF,
    EG,
    AR,
    EU,
}

// The rows of the table of kinds: the kinds of a row use the same fields.
#[derive(Clone, Copy, PartialEq, Eq)]
pub enum Sort {
    Constant,
    Atom,
    Junction,
    Unary,
    Binary,
}

// The record of an entry.
#[derive(Clone, Copy)]
pub struct Record {
    pub kind: u8,
    pub a: u8,
    pub b: u8,
    pub x: u8,
    pub y: u8,
    pub t: u8,
}

// The kind with a number; none above 11. An option, and no `TryFrom`: of a number that is no kind there is nothing to say.
pub fn kind_with(number: u8) -> Option<Kind>
    ensures { result ≡ kind_with number }
{
    match number {
        0 => Some(Kind::True),
        1 => Some(Kind::False),
        2 => Some(Kind::Is),
        3 => Some(Kind::IsNot),
        4 => Some(Kind::And),
        5 => Some(Kind::Or),
        6 => Some(Kind::AX),
        7 => Some(Kind::EX),
        8 => Some(Kind::AF),
        9 => Some(Kind::EG),
        10 => Some(Kind::AR),
        11 => Some(Kind::EU),
        _ => None,
    }
}

// The kind that a record's number counts as: what is no kind counts as false.
pub fn kind_of(kind: u8) -> Kind
    ensures { result ≡ kind_of kind }
{
    kind_with(kind).unwrap_or(Kind::False)
}

// The row that a kind stands in.
pub fn sort_of(kind: Kind) -> Sort
    ensures { result ≡ sort_of kind }
{
    match kind {
        Kind::True | Kind::False => Sort::Constant,
        Kind::Is | Kind::IsNot => Sort::Atom,
        Kind::And | Kind::Or => Sort::Junction,
        Kind::AX | Kind::EX | Kind::AF | Kind::EG => Sort::Unary,
        Kind::AR | Kind::EU => Sort::Binary,
    }
}

// The record of an entry; past the table's end every field is 0. Where the whole record is there its bytes are read as they stand.
pub fn entry(table: &[u8], e: usize) -> Record
    ensures { result ≡ record_at table.now e }
{
    if e < 64
        && let Some([kind, a, b, x, y, t]) = table.get(6 + 6 * e..12 + 6 * e)
    {
        return Record {
            kind: *kind,
            a: *a,
            b: *b,
            x: *x,
            y: *y,
            t: *t,
        };
    }
    entry_byte_by_byte(table, e)
}

// The same where some of the bytes may be missing, one test of the length for each.
fn entry_byte_by_byte(table: &[u8], e: usize) -> Record
    ensures { result ≡ record_at table.now e }
{
    if table.len() / 6 < e {
        return Record {
            kind: 0,
            a: 0,
            b: 0,
            x: 0,
            y: 0,
            t: 0,
        };
    }
    let at = 6 * e;
    Record {
        kind: byte(table, 6 + at),
        a: byte(table, 7 + at),
        b: byte(table, 8 + at),
        x: byte(table, 9 + at),
        y: byte(table, 10 + at),
        t: byte(table, 11 + at),
    }
}

fn is_term(n: u8, t: u8) -> bool
    ensures { Decides result (IsTerm n t) }
{
    t < n || (64..=67).contains(&t)
}

fn second_term(n: u8, arity: u8, b: u8) -> bool
    ensures { Decides result (SecondTerm n arity b) }
{
    if arity == 2 { is_term(n, b) } else { b == 0 }
}

fn constant_rule(r: Record) -> bool
    ensures { Decides result (ConstantRule r) }
{
    r.a == 0 && r.b == 0 && r.x == 0 && r.y == 0 && r.t == 0
}

fn atom_rule(image: &[u8], r: Record) -> bool
    ensures { Decides result (AtomRule image.now r) }
{
    let n = byte(image, 5);
    let p = byte(image, 6);
    r.a < p
        && is_term(n, r.t)
        && second_term(n, byte(image, 7 + r.a as usize), r.b)
        && r.x == 0
        && r.y == 0
}

fn junction_rule(e: u8, r: Record) -> bool
    ensures { Decides result (JunctionRule e r) }
{
    r.a < e && r.b < e && r.x == 0 && r.y == 0 && r.t == 0
}

fn unary_rule(n: u8, e: u8, r: Record) -> bool
    ensures { Decides result (UnaryRule n e r) }
{
    r.a < e && r.b == 0 && r.x <= 3 && r.y == 0 && is_term(n, r.t)
}

fn binary_rule(n: u8, e: u8, r: Record) -> bool
    ensures { Decides result (BinaryRule n e r) }
{
    r.a < e && r.b < e && r.x <= 3 && r.y <= 3 && is_term(n, r.t)
}

// Whether a record keeps the rules of its kind.
pub(crate) fn ruled(image: &[u8], e: u8, r: Record) -> bool
    ensures { Decides result (Ruled image.now e r) }
{
    let Some(kind) = kind_with(r.kind) else {
        return false;
    };
    let n = byte(image, 5);
    match sort_of(kind) {
        Sort::Constant => constant_rule(r),
        Sort::Atom => atom_rule(image, r),
        Sort::Junction => junction_rule(e, r),
        Sort::Unary => unary_rule(n, e, r),
        Sort::Binary => binary_rule(n, e, r),
    }
}

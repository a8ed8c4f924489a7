// The formula in hand: the four variables as one value, the terms and the atom that are read in them, the kind that an entry's formula has on a side, and
// what is prepared once of a setup (`setup`). The search and the checker both go by these.
#![tactic(auto)]

pub mod env;
pub mod setup;

ghost use Rattle.std.specs.Prelude.{◌≡◌};
ghost use Rattle.format.specs.Table.{kind_of};
ghost use Rattle.hand.specs.Environment.{env_of};
ghost use Rattle.hand.specs.Side.{dual_kind, kind_on, number_of};
ghost use Rattle.hand.specs.Hand.{atom_in};

use env::Env;
use format::record::{Kind, Record};
use format::{byte, image, record};

// The kind of the dual.
fn dual_of(kind: Kind) -> Kind
    ensures { result ≡ dual_kind kind }
{
    match kind {
        Kind::True => Kind::False,
        Kind::False => Kind::True,
        Kind::Is => Kind::IsNot,
        Kind::IsNot => Kind::Is,
        Kind::And => Kind::Or,
        Kind::Or => Kind::And,
        Kind::AX => Kind::EX,
        Kind::EX => Kind::AX,
        Kind::AF => Kind::EG,
        Kind::EG => Kind::AF,
        Kind::AR => Kind::EU,
        Kind::EU => Kind::AR,
    }
}

// The number of a kind, by which a step's head is read.
fn number_of(kind: Kind) -> u8
    ensures { result ≡ number_of kind }
{
    kind as u8
}

// The kind in hand, from the kind that a record has: on side 0 its own, on side 1 the dual's.
fn kind_on(side: u8, kind: u8) -> Kind
    ensures { result ≡ kind_on side (kind_of kind) }
{
    let k = record::kind_of(kind);
    if side == 0 { k } else { dual_of(k) }
}

// The number of the kind in hand.
pub(crate) fn number_on(side: u8, kind: u8) -> u8
    ensures { result ≡ number_of (kind_on side (kind_of kind)) }
{
    number_of(kind_on(side, kind))
}

// Whether a record's atom is true.
pub fn atom_holds(image: &[u8], r: Record, env: Env) -> bool
    ensures { result ≡ atom_in image.now r (env_of env) }
{
    let first = image::first_set(image, r.a);
    let t = env::stage_of(r.t, env) as usize;
    if byte(image, 7 + r.a as usize) == 2 {
        let b = env::stage_of(r.b, env) as usize;
        image::set(image, first + t).has(b)
    } else {
        image::set(image, first).has(t)
    }
}

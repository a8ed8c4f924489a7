// What a service prepares once of a setup and lends on: the sets of an image in a row, and the entries of a table on a side.
ghost use Rattle.std.specs.Prelude.{◌≡◌};
ghost use Rattle.sets.specs.Number.{number};
ghost use Rattle.sets.specs.Row.{held};
ghost use Rattle.hand.specs.Environment.{env_of};
ghost use Rattle.hand.specs.Setup.{Decoded, Prepared, atom_from, entry_of};

use crate::env;
use crate::env::Env;
use format::record::Record;
use format::{byte, image, record};
use sets::Set;

// How many sets a row for the successor sets of any image takes, and one for all its sets: besides the successor sets those of 16 predicates.
pub const NEXT: usize = sets::WIDTH;

pub const SETS: usize = 17 * NEXT;

// How many entries a table has at most.
pub const ENTRIES: usize = 64;

// An entry that is prepared on a side: its record, with the kind that it has there; and of an atom's predicate the arity and the number of its first set,
// which of other kinds are 0. The kind is its number, by which a step's head is read.
#[derive(Clone, Copy, Default)]
pub struct Entry {
    pub kind: u8,
    pub a: u8,
    pub b: u8,
    pub x: u8,
    pub y: u8,
    pub t: u8,
    pub arity: u8,
    pub first: u16,
}

// Puts the first `count` sets of the image into the row, as far as there is room; the rest of the row stays as it is. The first sets of an image are its
// successor sets.
pub fn decode(image: &[u8], count: usize, row: &mut [Set])
    ensures { Decoded image.now count row.old row.new }
{
    for i in 0..count {
        sets::row::store(row, i, image::set(image, i));
    }
}

// Set i of a row for all sets of an image; empty past its end.
pub fn set(sets: &[Set; SETS], i: usize) -> Set
    ensures { number result ≡ held sets.now i }
{
    sets::row::load(sets, i)
}

// Prepares the first m entries of the table on a side, of which there are 64 at most; the others stay as they are. Only a row with room for just the
// entries of any table is filled; another stays as it is.
pub fn prepare(image: &[u8], table: &[u8], m: usize, side: u8, entries: &mut [Entry])
    ensures { Prepared image.now table.now m side entries.old entries.new }
{
    if entries.len() != ENTRIES {
        return;
    }
    for e in 0..m.min(ENTRIES) {
        entries[e] = made(image, record::entry(table, e), side);
    }
}

// The entry of a record on a side.
fn made(image: &[u8], r: Record, side: u8) -> Entry
    ensures { result ≡ entry_of image.now side r }
{
    let kind = crate::number_on(side, r.kind);
    let (arity, first) = if kind / 2 == 1 {
        (
            byte(image, 7 + r.a as usize),
            image::first_set(image, r.a) as u16,
        )
    } else {
        (0, 0)
    };
    Entry {
        kind,
        a: r.a,
        b: r.b,
        x: r.x,
        y: r.y,
        t: r.t,
        arity,
        first,
    }
}

// Whether the atom of an entry is true, from the sets of the image. `crate::atom_holds` says the same of a record: the verdict asks an atom once, and
// decodes no set of a predicate for it.
pub fn atom(sets: &[Set; SETS], p: &Entry, env: Env) -> bool
    ensures { result ≡ atom_from sets.now p.now (env_of env) }
{
    let t = env::stage_of(p.t, env) as usize;
    if p.arity == 2 {
        let b = env::stage_of(p.b, env) as usize;
        set(sets, p.first as usize + t).has(b)
    } else {
        set(sets, p.first as usize).has(t)
    }
}

// Reading a formula table with its image: the shape of both, or one of the refusals 1 to 10.
ghost use Rattle.model.specs.Decides.{Decides};
ghost use Rattle.format.specs.Table.{EntriesFit, BadRecord};
ghost use Rattle.format.specs.Answers.{TableAnswer};

use crate::{Refusal, begins, byte, image, nesting, operands, record};

// What the bytes of a readable image and table say of their layout.
#[derive(Clone, Copy)]
pub struct Shape {
    pub image: image::Shape,
    pub entries: usize,
}

// The shape of image and table, or the first of their refusals.
pub fn read(image: &[u8], table: &[u8]) -> Result<Shape, Refusal>
    ensures { TableAnswer image.now table.now result }
{
    let shape = image::read(image)?;
    if !begins(table, b'F', 6) {
        return Err(Refusal::TableStart);
    }
    if !entries_fit(table) {
        return Err(Refusal::TableLength);
    }
    if bad_record(image, table) {
        return Err(Refusal::BadRecord);
    }
    let seen = operands::noted_all(table)?;
    if nesting::nested_too_deep(image, table, &seen) {
        return Err(Refusal::NestedTooDeep);
    }
    Ok(Shape {
        image: shape,
        entries: byte(table, 5) as usize,
    })
}

fn entries_fit(table: &[u8]) -> bool
    ensures { Decides result (EntriesFit table.now) }
{
    let m = byte(table, 5);
    (1..=64).contains(&m) && table.len() == 6 + 6 * m as usize
}

fn bad_record(image: &[u8], table: &[u8]) -> bool
    ensures { Decides result (BadRecord image.now table.now) }
{
    let m = byte(table, 5);
    (0..m).any(|e| !record::ruled(image, e, record::entry(table, e as usize)))
}

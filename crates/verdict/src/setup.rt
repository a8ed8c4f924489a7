// A setup as an evaluation goes by it: worked out once, and lent to all that ask.
ghost use Rattle.modal.specs.Row.{Row};
ghost use Rattle.format.specs.Image.{graph_of};
ghost use Rattle.format.specs.Table.{BadRecord};

use sets::Set;

// An image with the successor sets of its stages in a row, and a table whose records keep their rules. All of it is so where a question is not refused.
#[derive(Clone, Copy)]
pub struct Setup<'a> {
    pub image: &'a [u8],
    pub table: &'a [u8],
    pub next: &'a [Set],
    pub stages: usize,
    pub ghost row: { Row next.now stages (graph_of image.now) },
    pub ghost ruled: { BadRecord image.now table.now → ⊥ },
}

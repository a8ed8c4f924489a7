// What is lent along a run over a certificate.
ghost use Rattle.std.specs.Prelude.{ℕ, ◌≡◌, ◌≤◌, ◌<◌};
ghost use Rattle.model.specs.Graph.{Readable};
ghost use Rattle.sets.specs.Row.{held};
ghost use Rattle.format.specs.Image.{stages_of, graph_of};
ghost use Rattle.format.specs.Table.{entries_of, record_at};
ghost use Rattle.hand.specs.Hand.{SuccessorsOf};
ghost use Rattle.hand.specs.Setup.{most_entries, entry_of, entry_at};

use hand::setup::{ENTRIES, Entry};
use verdict::setup::Setup;

// What is the same for a whole run: a setup whose row holds the successor sets of a readable graph, the entries of its table, prepared on the side that the
// certificate proves, and whether the bytes go to the buffer or are only counted: a flag and no closure, as the clause of `whole` goes by it.
#[derive(Clone, Copy)]
pub struct Run<'a> {
    pub setup: Setup<'a>,
    pub entries: &'a [Entry; ENTRIES],
    pub side: u8,
    pub writing: bool,
    pub ghost sets: { (s : ℕ) → s < stages_of setup.image.now → SuccessorsOf setup.image.now s (held setup.next.now s) },
    pub ghost readable: { ∥ Readable (graph_of setup.image.now) ∥₁ },
    pub ghost most: { entries_of setup.table.now ≤ most_entries },
    pub ghost prepared: { (i : ℕ) → i < entries_of setup.table.now
        → entry_at entries.now i ≡ entry_of setup.image.now side (record_at setup.table.now i) },
}

ghost use Rattle.std.specs.Prelude.{◌≤◌, length};
ghost use Rattle.fixed.specs.Listed.{listed};

use crate::cards::CardList;
use crate::table::SlotTable;

mod access;

// A plan that passed all its questions: 1 to 8 rows with their cycle, and up to 32 cards of distinct numbers.
#[derive(Clone, Copy)]
pub struct Plan {
    table: SlotTable,
    cards: CardList,
    ghost some: { 1 ≤ length (listed table.rows) },
}

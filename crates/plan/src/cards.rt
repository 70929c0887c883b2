ghost use Rattle.std.specs.Prelude.{◌≡◌, true};
ghost use Rattle.fixed.specs.Listed.{listed};
ghost use Rattle.plan.specs.Rows.{distinct, ids_in};

use fixed::FixedList;
use task::Card;

mod filling;

// the most cards that a plan has: one for each number that a task can have
const CARDS: usize = 32;

// Up to 32 cards of distinct numbers, in the order of their lines.
#[derive(Clone, Copy)]
pub(crate) struct CardList {
    cards: FixedList<Card, CARDS>,
    ghost numbered: { distinct (ids_in (listed cards)) ≡ true },
}

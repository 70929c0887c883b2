ghost use Rattle.std.specs.Prelude.{◌≡◌, ◌≤◌};
ghost use Rattle.fixed.specs.Listed.{listed};
ghost use Rattle.plan.specs.Rows.{cycle_of, periods_of};

use crate::row::SlotRow;
use fixed::FixedList;

mod filling;

// the most rows that a slot table has
pub(crate) const ROWS: usize = 8;

// Up to eight rows, and the cycle after which they repeat together: the least common multiple of their periods.
#[derive(Clone, Copy)]
pub(crate) struct SlotTable {
    rows: FixedList<SlotRow, ROWS>,
    cycle: usize,
    ghost repeats: { cycle ≡ cycle_of (periods_of (listed rows)) },
    ghost short: { cycle ≤ 512 },
}

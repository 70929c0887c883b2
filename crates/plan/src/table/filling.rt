ghost use Rattle.std.specs.Prelude.{◌≡◌, ◌≤◌, false, ◌&&◌, [], ◌∷◌, ◌++◌, map, length, if◌then◌else◌, is_some, nat_le, nat_lt, Some};
ghost use Rattle.fixed.specs.Listed.{listed};
ghost use Rattle.text.specs.Decimal.{at_most};
ghost use Rattle.plan.specs.Rows.{cycle_of, periods_of, marks_of, LeastCommon};
ghost use Rattle.plan.specs.Lists.{rows_of};

use super::SlotTable;
use crate::row::SlotRow;
use fixed::FixedList;

const MAX_CYCLE: usize = 512;

impl SlotTable {
    // No row yet.
    pub(crate) fn new() -> SlotTable
        ensures { rows_of result ≡ [] }
    {
        SlotTable {
            rows: FixedList::filled_with(SlotRow::idle()),
            cycle: 1,
        }
    }

    // One row of period 1 that never gives a processor: named for that, and no `Default`.
    pub(crate) fn idle() -> SlotTable
        ensures { rows_of result ≡ (false ∷ []) ∷ [] }
    {
        let mut rows = FixedList::filled_with(SlotRow::idle());
        rows.fill_from(&[SlotRow::idle()]);
        SlotTable { rows, cycle: 1 }
    }

    // The rows in the order of their lines.
    pub(crate) fn rows(&self) -> &[SlotRow]
        ensures value { map marks_of result.now ≡ rows_of self.now }
        ensures held { result.now ≡ listed self.now.rows }
        ensures few { length result.now ≤ 8 }
    {
        self.rows.as_slice()
    }

    pub(crate) fn cycle(&self) -> usize
        ensures value { result ≡ cycle_of (map length (rows_of self.now)) }
        ensures least { LeastCommon (map length (rows_of self.now)) result }
        ensures few { result ≤ 512 }
    {
        self.cycle
    }

    // The cycle with one more row; none where it is above 512.
    fn cycle_with(&self, row: &SlotRow) -> Option<usize>
        ensures { result ≡ at_most 512 (Some (cycle_of (periods_of (listed self.now.rows ++ row.now ∷ [])))) }
    {
        // what all of them divide is a multiple of the cycle so far; a `for`, since nothing is known of what `find` gives over `step_by`
        for h in (self.cycle..=MAX_CYCLE).step_by(self.cycle) {
            if h % row.period() == 0 {
                return Some(h);
            }
        }
        None
    }

    // Adds a row, unless there are eight or the cycle would be above 512.
    pub(crate) fn push(&mut self, row: SlotRow) -> Option<()>
        ensures value { is_some result ≡ (nat_lt (length (rows_of self.old)) 8 && nat_le (cycle_of (map length (rows_of self.old ++ marks_of row ∷ []))) 512) }
        ensures after { rows_of self.new ≡ (if is_some result then rows_of self.old ++ marks_of row ∷ [] else rows_of self.old) }
    {
        let cycle = self.cycle_with(&row)?;
        self.rows.push(row).ok()?;
        self.cycle = cycle;
        Some(())
    }
}

ghost use Rattle.std.specs.Prelude.{◌≤◌, length};
ghost use Rattle.fixed.specs.Listed.{listed};

use fixed::FixedList;

mod marks;

pub(crate) const MAX_MARKS: usize = 64;

// A row of the slot table: it gives a processor in tick x where its mark at x mod its period is set. Its period is how many marks there are.
#[derive(Clone, Copy)]
pub struct SlotRow {
    marks: FixedList<bool, MAX_MARKS>,
    ghost some: { 1 ≤ length (listed marks) },
}

// How many rows of a plan give a processor, tick by tick.
ghost use Rattle.std.specs.Prelude.{◌≡◌, ℕ, ◌+◌, ◌%◌, ◌<◌, ◌≤◌, map, length, slice_index};
ghost use Rattle.plan.specs.Contents.{contents};
ghost use Rattle.plan.specs.Rows.{marks_of, cycle_of};
ghost use Rattle.rack.specs.Slots.{gives, slot_row};

use crate::running::MAX_CYCLE;
use plan::{Plan, SlotRow};

// Counts one row more in `count` ticks from tick `start` on, where a round of its marks begins. By index, since of what an adapter of
// `iter_mut` lends a proof knows nothing afterwards.
fn add_round(counts: &mut [u8; MAX_CYCLE], row: &SlotRow, start: usize, count: usize)
    requires within { start + count ≤ 512 }
    requires begins { start % length (marks_of row.now) ≡ 0 }
    requires few { (x : ℕ) → start ≤ x → x < start + count → slice_index counts.old x ≤ 7 }
    ensures counted { (x : ℕ) → start ≤ x → x < start + count → slice_index counts.new x ≡ slice_index counts.old x + gives (marks_of row.now) x }
    ensures before { (x : ℕ) → x < start → slice_index counts.new x ≡ slice_index counts.old x }
    ensures behind { (x : ℕ) → start + count ≤ x → slice_index counts.new x ≡ slice_index counts.old x }
{
    for i in 0..count {
        counts[start + i] += u8::from(row.gives(i));
    }
}

// Counts one row more in each of the first `cycle` ticks: one round of its marks after another, the last as far as the cycle goes.
fn add_row(counts: &mut [u8; MAX_CYCLE], row: &SlotRow, cycle: usize)
    requires within { cycle ≤ 512 }
    requires few { (x : ℕ) → x < cycle → slice_index counts.old x ≤ 7 }
    ensures { (x : ℕ) → x < cycle → slice_index counts.new x ≡ slice_index counts.old x + gives (marks_of row.now) x }
{
    let period = row.period();
    let mut start = 0;
    // by hand: of what `chunks_mut` lends a proof knows nothing behind the loop, and a remainder at each tick takes 1.5 times as long
    while start + period <= cycle {
        add_round(counts, row, start, period);
        start += period;
    }
    add_round(counts, row, start, cycle - start);
}

// The number of rows that give, in each tick of the cycle.
pub(crate) fn counts(plan: &Plan) -> [u8; MAX_CYCLE]
    ensures { (x : ℕ) → x < cycle_of (map length (contents plan.now).rows) → slice_index result x ≡ slot_row (contents plan.now).rows x }
{
    let mut counts = [0; MAX_CYCLE];
    for row in plan.rows() {
        add_row(&mut counts, row, plan.cycle());
    }
    counts
}

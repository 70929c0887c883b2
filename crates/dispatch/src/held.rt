// The tasks that are held, and what the others can do ahead of each.
ghost use Rattle.std.specs.Prelude.{◌≡◌, ℕ, ◌<◌, true, length, slice_index};
ghost use Rattle.schedule.specs.Test.{load};
ghost use Rattle.dispatch.specs.Rows.{slots};

use crate::table::{ROWS, TaskTable};

mod keeping;

// At the number of each task that is held stands its load, so that an admission adds charges and does not count them anew.
// The loads lie beside the rows: what is said of jobs and ticks is said of the rows alone.
#[derive(Clone, Copy)]
pub(crate) struct HeldTasks {
    pub(crate) table: TaskTable,
    loads: [u32; ROWS],
    ghost full: { length loads ≡ 32 },
    ghost loaded: { (k : ℕ) → k < 32 → (slots table.rows k).held ≡ true → slice_index loads k ≡ load (slots table.rows) k },
}

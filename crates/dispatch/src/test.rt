// The test by which a set of tasks is admitted.
ghost use Rattle.std.specs.Prelude.{◌≡◌, if◌then◌else◌, None};
ghost use Rattle.schedule.specs.Test.{witness, first_unserved};
ghost use Rattle.dispatch.specs.Rows.{slots};
ghost use Rattle.dispatch.specs.Found.{level_found, task_found};

use crate::held::HeldTasks;
use supply::{MAX_LEVEL, Supply};
use task::TASKS;

// The least level from 1 to 8 that serves the task of this number, if it is held and there is one: what the supply is sure to
// give before the deadline covers that many times the run time, and the load.
pub(crate) fn witness<S: Supply>(tasks: &HeldTasks, supply: &S, k: u32) -> Option<u32>
    ensures { result ≡ (if (slots tasks.now.table.rows k).held then level_found (witness (S.Supply.table supply.now) (slots tasks.now.table.rows) k) else None) }
{
    let card = tasks.table.card(k)?;
    let load = tasks.load(k);
    let (run, deadline) = (card.run(), card.deadline());
    (1..MAX_LEVEL + 1).find(|level| level * run + load <= supply.level(*level, deadline))
}

// The lowest-numbered task that is held and has no level.
pub(crate) fn first_unserved<S: Supply>(tasks: &HeldTasks, supply: &S) -> Option<u32>
    ensures { result ≡ task_found (first_unserved (S.Supply.table supply.now) (slots tasks.now.table.rows)) }
{
    (0..TASKS).find(|k| tasks.table.holds(*k) && witness(tasks, supply, *k).is_none())
}

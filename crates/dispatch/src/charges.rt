// What the tasks that are held can do ahead of each other's jobs.
ghost use Rattle.std.specs.Prelude.{◌≡◌, ◌≤◌};
ghost use Rattle.task.specs.Task.{task_of};
ghost use Rattle.schedule.specs.Counting.{sum};
ghost use Rattle.schedule.specs.Test.{charge, others};
ghost use Rattle.dispatch.specs.Rows.{slots, row_of};

use crate::table::TaskTable;
use task::{Card, TASKS};

// The work that another task can do ahead of a job of the card's task, between the job's release and its deadline.
pub(crate) fn charge(other: &Card, card: &Card) -> u32
    ensures value { result ≡ charge (task_of card.now).deadline (row_of (task_of other.now)) }
    ensures few { result ≤ 8192 }
{
    let periods = card.deadline() / other.period();
    let rest = card.deadline() % other.period();
    periods * other.run() + other.run().min(rest)
}

// What task i is charged to the card's: nothing, where i is not held or is the card's own number.
fn charge_of(table: &TaskTable, i: u32, card: &Card) -> u32
    ensures value { result ≡ others (slots table.now.rows) (task_of card.now).id (charge (task_of card.now).deadline) i }
    ensures few { result ≤ 8192 }
{
    if i == card.id() {
        return 0;
    }
    match table.card(i) {
        Some(other) => charge(&other, card),
        None => 0,
    }
}

// The charges of all other tasks on the card's.
pub(crate) fn load(table: &TaskTable, card: &Card) -> u32
    ensures value { result ≡ sum 32 (others (slots table.now.rows) (task_of card.now).id (charge (task_of card.now).deadline)) }
    ensures few { result ≤ 262144 }
{
    (0..TASKS).map(|i| charge_of(table, i, card)).sum()
}

ghost use Rattle.std.specs.Prelude.{◌≡◌, ℕ, ◌<◌, ◌≤◌, true, false, length, if◌then◌else◌, Some, None, slice_index};
ghost use Rattle.std.specs.Option.{option_map};
ghost use Rattle.task.specs.Task.{task_of};
ghost use Rattle.schedule.specs.State.{blank, put};
ghost use Rattle.schedule.specs.Calls.{released, quiet};
ghost use Rattle.schedule.specs.Order.{word, runs, spent};
ghost use Rattle.schedule.specs.Test.{load};
ghost use Rattle.dispatch.specs.Rows.{slots, task_at, row_of};

use super::HeldTasks;
use crate::charges::{charge, load};
use crate::table::{ROWS, TaskTable};
use crate::task_id::TaskId;
use std::array;
use task::{Card, TASKS};

// The load of the task of this number; 0, where none is held.
fn load_of(table: &TaskTable, k: u32) -> u32
    ensures { result ≡ (if (slots table.now.rows k).held then load (slots table.now.rows) k else 0) }
{
    table.card(k).map_or(0, |card| load(table, &card))
}

// The loads of all tasks that are held.
fn loads(table: &TaskTable) -> [u32; ROWS]
    ensures full { length result ≡ 32 }
    ensures loaded { (k : ℕ) → k < 32 → (slots table.now.rows k).held ≡ true → slice_index result k ≡ load (slots table.now.rows) k }
{
    array::from_fn(|k| load_of(table, k as u32))
}

impl HeldTasks {
    // No task is held.
    pub(crate) fn new() -> HeldTasks
        ensures { slots result.table.rows ≡ (λ _. blank) }
    {
        HeldTasks {
            table: TaskTable::new(),
            loads: [0; ROWS],
        }
    }

    // The charges of all other tasks on one that is held.
    pub(crate) fn load(&self, id: u32) -> u32
        requires { (slots self.now.table.rows id).held ≡ true }
        ensures value { result ≡ load (slots self.now.table.rows) id }
        ensures few { result ≤ 262144 }
    {
        self.loads[id as usize]
    }

    // The tasks with one more, whose number is free.
    pub(crate) fn with(&self, card: &Card) -> HeldTasks
        requires { (slots self.now.table.rows (task_of card.now).id).held ≡ false }
        ensures { slots result.table.rows ≡ put (slots self.now.table.rows) (task_of card.now).id (row_of (task_of card.now)) }
    {
        // one walk, by number: a chain would go over the tasks twice, for the loads and for the sum
        let mut loads = self.loads;
        let mut own = 0;
        for k in 0..TASKS {
            if let Some(other) = self.table.card(k) {
                loads[k as usize] += charge(card, &other);
                own += charge(&other, card);
            }
        }
        loads[card.id() as usize] = own;
        HeldTasks {
            table: self.table.with(card),
            loads,
        }
    }

    // Lets a task go. This and the two below are here beside the table's own, since they say that the loads stay right.
    pub(crate) fn clear(&mut self, task: TaskId)
        ensures { slots self.new.table.rows ≡ put (slots self.old.table.rows) task.number blank }
    {
        self.table.clear(task);
        self.loads = loads(&self.table);
    }

    // Starts a job, at a clock, of a task that is held.
    pub(crate) fn release(&mut self, task: TaskId, at: u32, run: u32)
        requires { (slots self.old.table.rows task.number).held ≡ true }
        ensures { slots self.new.table.rows ≡ put (slots self.old.table.rows) task.number (released at run (slots self.old.table.rows task.number)) }
    {
        self.table.release(task, at, run);
    }

    // Lets one tick pass on the given processors; answers the word of the tasks that ran.
    pub(crate) fn run(&mut self, given: u32) -> u32
        ensures word { result ≡ word (slots self.old.table.rows) given }
        ensures rows { slots self.new.table.rows ≡ (λ i. spent (runs (slots self.old.table.rows) given i) (slots self.old.table.rows i)) }
    {
        self.table.run(given)
    }
}

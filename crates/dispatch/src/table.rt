// The tasks of a dispatcher, by their numbers.
ghost use Rattle.std.specs.Prelude.{◌≡◌, ℕ, ◌<◌, ◌≤◌, true, false, length, if◌then◌else◌, Some, None, slice_index, slice_index_or};
ghost use Rattle.std.specs.Option.{option_map};
ghost use Rattle.task.specs.Task.{task_of};
ghost use Rattle.schedule.specs.State.{blank, put};
ghost use Rattle.schedule.specs.Calls.{released, quiet};
ghost use Rattle.schedule.specs.Order.{unfinished, word, runs, spent};
ghost use Rattle.dispatch.specs.Keys.{Kept};
ghost use Rattle.dispatch.specs.Rows.{row_said, slots, carded, task_at, row_of};

use crate::held_task::HeldTask;
use crate::jobs::Jobs;
use crate::task_id::TaskId;
use task::Card;

// how many rows there are: one for each number that a task can have
pub(crate) const ROWS: usize = 32;

// The tasks that are held, each at its number, and the unfinished jobs in their order. A task has the times of a card.
#[derive(Clone, Copy)]
pub(crate) struct TaskTable {
    rows: [Option<HeldTask>; ROWS],
    jobs: Jobs,
    ghost full: { length rows ≡ 32 },
    ghost times: { (i : ℕ) → carded (slots rows i) ≡ true },
    ghost kept: { Kept (slots rows) jobs.keys jobs.count },
}

impl TaskTable {
    // No task is held.
    pub(crate) fn new() -> TaskTable
        ensures { slots result.rows ≡ (λ _. blank) }
    {
        TaskTable {
            rows: [None; ROWS],
            jobs: Jobs::none(),
        }
    }

    // The task of a number, if it is held.
    pub(crate) fn task(&self, id: u32) -> Option<HeldTask>
        ensures { row_said result ≡ slots self.now.rows id }
    {
        *self.rows.get(id as usize)?
    }

    // Whether a task of this number is held.
    pub(crate) fn holds(&self, id: u32) -> bool
        ensures { result ≡ (slots self.now.rows id).held }
    {
        self.rows.get(id as usize).is_some_and(Option::is_some)
    }

    // The card of the task with this number, if it is held.
    pub(crate) fn card(&self, id: u32) -> Option<Card>
        ensures { option_map task_of result ≡ (if (slots self.now.rows id).held then Some (task_at id (slots self.now.rows id)) else None) }
    {
        let held = self.rows.get(id as usize)?.as_ref()?;
        Card::new(id, held.run, held.period, held.deadline)
    }

    // Puts a task without an unfinished job, or none, in the place of another.
    fn set(&mut self, task: TaskId, row: Option<HeldTask>)
        requires finished { unfinished (row_said row) ≡ false }
        requires times { carded (row_said row) ≡ true }
        ensures { slots self.new.rows ≡ put (slots self.old.rows) task.number (row_said row) }
    {
        self.jobs.replace(&mut self.rows, task, row);
    }

    // The table with one task more.
    pub(crate) fn with(&self, card: &Card) -> TaskTable
        ensures { slots result.rows ≡ put (slots self.now.rows) (task_of card.now).id (row_of (task_of card.now)) }
    {
        let mut tasks = *self;
        tasks.set(TaskId::from(card), Some(HeldTask::from(card)));
        tasks
    }

    // Lets a task go.
    pub(crate) fn clear(&mut self, task: TaskId)
        ensures { slots self.new.rows ≡ put (slots self.old.rows) task.number blank }
    {
        self.set(task, None);
    }

    // Starts a job, at a clock, of a task that is held.
    pub(crate) fn release(&mut self, task: TaskId, at: u32, run: u32)
        requires { (slots self.old.rows task.number).held ≡ true }
        ensures { slots self.new.rows ≡ put (slots self.old.rows) task.number (released at run (slots self.old.rows task.number)) }
    {
        self.jobs.release(&mut self.rows, task, at, run);
    }

    // Lets one tick pass on the given processors; answers the word of the tasks that ran.
    pub(crate) fn run(&mut self, given: u32) -> u32
        ensures word { result ≡ word (slots self.old.rows) given }
        ensures rows { slots self.new.rows ≡ (λ i. spent (runs (slots self.old.rows) given i) (slots self.old.rows i)) }
    {
        self.jobs.run(&mut self.rows, given)
    }

    // Whether no job is unfinished.
    pub(crate) fn quiet(&self) -> bool
        ensures { result ≡ quiet (slots self.now.rows) }
    {
        self.jobs.is_empty()
    }
}

#[cfg(test)]
mod tests {
    use super::*;

    // The table with a task of run time 3 and period 100 more.
    fn with_task(tasks: &TaskTable, id: u32, deadline: u32) -> TaskTable {
        match Card::new(id, 3, 100, deadline) {
            Some(card) => tasks.with(&card),
            None => *tasks,
        }
    }

    fn release(tasks: &mut TaskTable, id: u32, at: u32, run: u32) {
        if let Some(task) = TaskId::new(id) {
            if tasks.holds(id) {
                tasks.release(task, at, run);
            }
        }
    }

    // The ticks that the job of a task lacks.
    fn lacking(tasks: &TaskTable, id: u32) -> Option<u32> {
        tasks.task(id).map(|held| held.lacking)
    }

    // The word of those that would run.
    fn word(tasks: &TaskTable, given: u32) -> u32 {
        let mut copy = *tasks;
        copy.run(given)
    }

    // Jobs 3 and 5 have to be done at 12, job 7 at 11; task 1 has none.
    fn jobs() -> TaskTable {
        let mut tasks = with_task(&TaskTable::new(), 1, 5);
        tasks = with_task(&tasks, 3, 10);
        tasks = with_task(&tasks, 5, 12);
        tasks = with_task(&tasks, 7, 8);
        release(&mut tasks, 5, 0, 1);
        release(&mut tasks, 3, 2, 2);
        release(&mut tasks, 7, 3, 3);
        tasks
    }

    #[test]
    fn the_soonest_jobs_run(rt: HostRuntime) {
        let tasks = jobs();
        assert_eq!(rt; word(&tasks, 0), 0);
        assert_eq!(rt; word(&tasks, 1), 0b1000_0000);
        assert_eq!(rt; word(&tasks, 2), 0b1000_1000);
        assert_eq!(rt; word(&tasks, 3), 0b1010_1000);
        assert_eq!(rt; word(&tasks, u32::MAX), 0b1010_1000);
    }

    #[test]
    fn jobs_run_until_they_are_done(rt: HostRuntime) {
        let mut tasks = jobs();
        assert_eq!(rt; tasks.run(2), 0b1000_1000);
        assert_eq!(rt; lacking(&tasks, 3), Some(1));
        assert_eq!(rt; lacking(&tasks, 5), Some(1));
        assert_eq!(rt; lacking(&tasks, 7), Some(2));
        assert_eq!(rt; tasks.run(2), 0b1000_1000);
        assert_eq!(rt; tasks.run(2), 0b1010_0000);
        assert_eq!(rt; tasks.quiet(), true);
        assert_eq!(rt; tasks.run(2), 0);
    }

    // A job that is released anew, or whose task goes, leaves its place in the order.
    #[test]
    fn jobs_leave_their_places(rt: HostRuntime) {
        let mut tasks = jobs();
        release(&mut tasks, 7, 5, 1);
        assert_eq!(rt; word(&tasks, 2), 0b0010_1000);
        if let Some(task) = TaskId::new(3) {
            tasks.clear(task);
        }
        assert_eq!(rt; word(&tasks, 2), 0b1010_0000);
        tasks = with_task(&tasks, 5, 9);
        assert_eq!(rt; word(&tasks, 2), 0b1000_0000);
        release(&mut tasks, 7, 5, 0);
        assert_eq!(rt; tasks.quiet(), true);
    }

    #[test]
    fn late_deadlines_are_compared(rt: HostRuntime) {
        let mut tasks = TaskTable::new();
        for id in 0..32 {
            tasks = with_task(&tasks, id, 50);
        }
        for id in 0..32 {
            release(&mut tasks, id, u32::MAX, 1);
        }
        assert_eq!(rt; word(&tasks, 1), 1);
        assert_eq!(rt; word(&tasks, 32), u32::MAX);
        release(&mut tasks, 31, 4_294_967_294, 1);
        assert_eq!(rt; word(&tasks, 1), 1 << 31);
    }
}

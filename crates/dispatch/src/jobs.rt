// The unfinished jobs of a table, in the order in which they run.
ghost use Rattle.std.specs.Prelude.{◌≡◌, ℕ, ◌+◌, ◌*◌, ◌<◌, true, false, not, ◌&&◌, ◌||◌, ◌≤◌, length, Some, ◌==◌, nat_lt, slice_index, slice_set};
ghost use Rattle.schedule.specs.State.{put};
ghost use Rattle.schedule.specs.Calls.{released};
ghost use Rattle.schedule.specs.Order.{unfinished, runs, word, spent};
ghost use Rattle.dispatch.specs.Keys.{key_of, keyed, among, Sorted, Kept};
ghost use Rattle.dispatch.specs.Rows.{row_said, slots};

use crate::held_task::HeldTask;
use crate::table::ROWS;
use crate::task_id::TaskId;

// how many numbers a task can have: keys of equal deadlines differ by less
const NUMBERS: u64 = 32;

// The keys of the jobs, the soonest last. A key has the clock at which its job has to be done, and below it the task's
// number, so that keys are in the order of the jobs.
// An array with its count: keys are put in and moved in place, which a `FixedList` does not offer, and an `ArrayVec` cannot be copied, as
// the table is where an admission is tested.
#[derive(Clone, Copy)]
pub(crate) struct Jobs {
    keys: [u64; ROWS],
    count: usize,
    ghost sorted: { Sorted keys count },
}

// The key of a job of a task, by the clock of its release and the task's deadline.
fn key_of(task: TaskId, at: u32, deadline: u32) -> u64
    ensures { result ≡ (at + deadline) * 32 + task.number }
{
    (u64::from(at) + u64::from(deadline)) * NUMBERS + u64::from(task.number)
}

impl Jobs {
    // There is no job.
    pub(crate) fn none() -> Jobs
        ensures { (x : ℕ) → among result.keys result.count x ≡ false }
    {
        Jobs {
            keys: [0; ROWS],
            count: 0,
        }
    }

    // Whether there is no job.
    pub(crate) fn is_empty(&self) -> bool
        ensures { result ≡ (self.now.count == 0) }
    {
        self.count == 0
    }

    // The place of a key among those in order: the keys in front of it are later.
    fn place(&self, key: u64) -> usize
        ensures within { result ≤ self.now.count }
        ensures later { (p : ℕ) → p < result → key < slice_index self.now.keys p }
        ensures sooner { (p : ℕ) → (result ≤ p) × (p < self.now.count) → slice_index self.now.keys p ≤ key }
    {
        self.keys[..self.count].partition_point(|other| *other > key)
    }

    // Puts a key in, in its place.
    fn insert(&mut self, key: u64)
        requires few { self.old.count < 32 }
        requires new { among self.old.keys self.old.count key ≡ false }
        ensures { (x : ℕ) → among self.new.keys self.new.count x ≡ (key == x || among self.old.keys self.old.count x) }
    {
        let count = self.count;
        // by hand, and no key counts meanwhile: with `partition_point` and `copy_within` a release takes 1.4 times as long
        self.count = 0;
        let mut at = count;
        while at > 0 && self.keys[at - 1] < key {
            self.keys[at] = self.keys[at - 1];
            at -= 1;
        }
        self.keys[at] = key;
        self.count = count + 1;
    }

    // Takes a key out, if it is there.
    fn remove(&mut self, key: u64)
        ensures { (x : ℕ) → among self.new.keys self.new.count x ≡ (among self.old.keys self.old.count x && not (key == x)) }
    {
        let at = self.place(key);
        if at < self.count && self.keys[at] == key {
            self.keys.copy_within(at + 1..self.count, at);
            self.count -= 1;
        }
    }

    // Takes the job of a row out, if it is unfinished. An unfinished job was released: the 0 is the definition's.
    fn leave(&mut self, task: TaskId, row: &Option<HeldTask>)
        ensures { (x : ℕ) → among self.new.keys self.new.count x ≡ (among self.old.keys self.old.count x && not (keyed task.number (row_said row.now) x)) }
    {
        if let Some(held) = row {
            if held.unfinished() {
                self.remove(key_of(task, held.latest.unwrap_or(0), held.deadline));
            }
        }
    }

    // Puts the job of a task in, which was released at this clock, if it is unfinished.
    fn join(&mut self, task: TaskId, held: &HeldTask, at: u32)
        requires released { held.now.latest ≡ Some at }
        requires few { self.old.count < 32 }
        requires new { among self.old.keys self.old.count (key_of task.number (row_said (Some held.now))) ≡ false }
        ensures { (x : ℕ) → among self.new.keys self.new.count x ≡ (keyed task.number (row_said (Some held.now)) x || among self.old.keys self.old.count x) }
    {
        if held.unfinished() {
            self.insert(key_of(task, at, held.deadline));
        }
    }

    // Puts a row without an unfinished job in the place of another. Here and below rows and keys are two arguments: between the steps
    // they do not agree, and the type that has both says that they do.
    pub(crate) fn replace(
        &mut self,
        rows: &mut [Option<HeldTask>; ROWS],
        task: TaskId,
        row: Option<HeldTask>,
    )
        requires finished { unfinished (row_said row) ≡ false }
        requires kept { Kept (slots rows.old) self.old.keys self.old.count }
        ensures rows { rows.new ≡ slice_set rows.old task.number row }
        ensures kept { Kept (slots rows.new) self.new.keys self.new.count }
    {
        let id = task.number as usize;
        self.leave(task, &rows[id]);
        rows[id] = row;
    }

    // Starts a job, at a clock, of a task that is held, in the place of one that is unfinished.
    pub(crate) fn release(
        &mut self,
        rows: &mut [Option<HeldTask>; ROWS],
        task: TaskId,
        at: u32,
        run: u32,
    )
        requires held { (slots rows.old task.number).held ≡ true }
        requires kept { Kept (slots rows.old) self.old.keys self.old.count }
        ensures full { length rows.new ≡ 32 }
        ensures rows { (i : ℕ) → slots rows.new i ≡ put (slots rows.old) task.number (released at run (slots rows.old task.number)) i }
        ensures kept { Kept (slots rows.new) self.new.keys self.new.count }
    {
        let id = task.number as usize;
        self.leave(task, &rows[id]);
        let Some(held) = &mut rows[id] else {
            unreachable!()
        };
        held.start(at, run);
        self.join(task, held, at);
    }

    // Lets a tick pass on the given processors, of which the soonest jobs get one each; answers the word of their tasks: bit
    // i is set where task i runs.
    pub(crate) fn run(&mut self, rows: &mut [Option<HeldTask>; ROWS], given: u32) -> u32
        requires { Kept (slots rows.old) self.old.keys self.old.count }
        ensures word { result ≡ word (slots rows.old) given }
        ensures full { length rows.new ≡ 32 }
        ensures rows { (i : ℕ) → slots rows.new i ≡ spent (runs (slots rows.old) given i) (slots rows.old i) }
        ensures kept { Kept (slots rows.new) self.new.keys self.new.count }
    {
        let end = self.count;
        let first = end.saturating_sub(given as usize);
        // keys move by index, since each is read and perhaps written in front; no key from here on counts meanwhile: with a count that
        // moved along, a tick took 17.6 ns in place of 16.3
        self.count = first;
        let mut place = first;
        let mut word = 0;
        for at in first..end {
            let key = self.keys[at];
            let id = (key % NUMBERS) as usize;
            word |= 1 << id;
            self.keys[place] = key;
            let Some(held) = &mut rows[id] else {
                unreachable!()
            };
            place += usize::from(held.work());
        }
        self.count = place;
        word
    }
}

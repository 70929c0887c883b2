// Which jobs run in a tick: as many as there are processors, those that have to be done the soonest. This is the plain way, which
// looks at all rows again and again; the dispatcher keeps its jobs in order (jobs.rt), and both have the same word proved of them.
ghost use Rattle.std.specs.Prelude.{◌≡◌, ℕ, ◌<◌, true, length, get_or, ◌==◌, slice_index, slice_index_or};
ghost use Rattle.schedule.specs.Order.{unfinished, word, names, spent};
ghost use Rattle.dispatch.specs.Rows.{row_said, slots};
ghost use Rattle.dispatch.specs.Times.{never, due_time, Soonest};

use crate::held_task::HeldTask;
use crate::table::ROWS;

// later than every time by which a job has to be done; no `Option`: in its order `None` comes first, and each search would leave it out
const NEVER: u64 = u64::MAX;

// The time by which the row's job has to be done; NEVER, where it has no unfinished job. An unfinished job was released: the 0 is the
// definition's.
fn due_time(row: &Option<HeldTask>) -> u64
    ensures value { result ≡ due_time (row_said row.now) }
    ensures sooner { unfinished (row_said row.now) ≡ true → result < never }
{
    match row {
        Some(held) if held.unfinished() => {
            u64::from(held.latest.unwrap_or(0)) + u64::from(held.deadline)
        }
        _ => NEVER,
    }
}

// The times of all rows.
fn due_times(rows: &[Option<HeldTask>; ROWS]) -> [u64; ROWS]
    ensures full { length result ≡ 32 }
    ensures value { (i : ℕ) → i < 32 → slice_index result i ≡ due_time (slots rows.now i) }
    ensures sooner { (i : ℕ) → i < 32 → unfinished (slots rows.now i) ≡ true → slice_index result i < never }
{
    rows.map(|row| due_time(&row))
}

// The place of the soonest time, the first among equals.
fn soonest(times: &[u64; ROWS]) -> usize
    ensures { Soonest times.now result }
{
    (0..ROWS).min_by_key(|i| times[*i]).unwrap_or(0)
}

// The word of the tasks that run on `given` processors: bit i is set where task i runs.
pub(crate) fn select(rows: &[Option<HeldTask>; ROWS], given: u32) -> u32
    ensures { result ≡ word (slots rows.now) given }
{
    let mut times = due_times(rows);
    let mut word = 0;
    for _picked in 0..given {
        let k = soonest(&times);
        if times[k] == NEVER {
            break;
        }
        times[k] = NEVER;
        word |= 1 << k;
    }
    word
}

// Each task that the word names lacks one tick less.
pub(crate) fn spend(rows: &mut [Option<HeldTask>; ROWS], ran: u32)
    ensures full { length rows.new ≡ 32 }
    ensures rows { (i : ℕ) → slots rows.new i ≡ spent (names ran i == 1) (slots rows.old i) }
{
    for (i, row) in rows.iter_mut().enumerate() {
        if let Some(held) = row {
            if ran >> i & 1 == 1 {
                held.lacking = held.lacking.saturating_sub(1);
            }
        }
    }
}

#[cfg(test)]
mod tests {
    use super::*;

    // A task that runs 3 ticks, with a job that lacks some of them.
    fn job(released: u32, deadline: u32, lacking: u32) -> Option<HeldTask> {
        Some(HeldTask {
            run: 3,
            period: 100,
            deadline,
            latest: Some(released),
            lacking,
        })
    }

    // Jobs 3 and 5 have to be done at 12, job 7 at 11; job 1 lacks nothing.
    fn jobs() -> [Option<HeldTask>; ROWS] {
        let mut rows = [None; ROWS];
        rows[1] = job(0, 5, 0);
        rows[3] = job(2, 10, 2);
        rows[5] = job(0, 12, 1);
        rows[7] = job(3, 8, 3);
        rows
    }

    #[test]
    fn the_soonest_run(rt: HostRuntime) {
        let rows = jobs();
        assert_eq!(rt; select(&rows, 0), 0);
        assert_eq!(rt; select(&rows, 1), 0b1000_0000);
        assert_eq!(rt; select(&rows, 2), 0b1000_1000);
        assert_eq!(rt; select(&rows, 3), 0b1010_1000);
        assert_eq!(rt; select(&rows, u32::MAX), 0b1010_1000);
    }

    #[test]
    fn late_times_are_compared(rt: HostRuntime) {
        let mut rows = [job(u32::MAX, u32::MAX, 1); ROWS];
        assert_eq!(rt; select(&rows, 1), 1);
        assert_eq!(rt; select(&rows, 32), u32::MAX);
        rows[31] = job(u32::MAX, 1, 1);
        assert_eq!(rt; select(&rows, 1), 1 << 31);
    }

    #[test]
    fn those_that_ran_lack_less(rt: HostRuntime) {
        let mut rows = jobs();
        spend(&mut rows, 0b1000_1010);
        assert_eq!(rt; rows[1].map(|held| held.lacking), Some(0));
        assert_eq!(rt; rows[3].map(|held| held.lacking), Some(1));
        assert_eq!(rt; rows[5].map(|held| held.lacking), Some(1));
        assert_eq!(rt; rows[7].map(|held| held.lacking), Some(2));
    }
}

// What a dispatcher is asked. A call that is refused changes nothing, which each of the four that can change something says itself.
ghost use Rattle.std.specs.Prelude.{◌≡◌, ℕ, suc, ◌+◌, ◌<◌, true, false, is_ok, Some};
ghost use Rattle.std.specs.Result.{IfOk, result_err};
ghost use Rattle.schedule.specs.State.{fresh};
ghost use Rattle.schedule.specs.Calls.{ready, answer, after};
ghost use Rattle.schedule.specs.declared.Call.TheVariants.{Admit, Level, Withdraw, Release, Tick};
ghost use Rattle.dispatch.specs.Dispatcher.{state_of, unheld, level_answer, pass_answer, tick_answer};
ghost use Rattle.dispatch.specs.Rows.{row_said, slots};

use super::Dispatcher;
use crate::held::HeldTasks;
use crate::held_task::HeldTask;
use crate::task_id::TaskId;
use crate::test::{first_unserved, witness};
use schedule::Refusal;
use supply::Supply;
use task::Card;

// the clock at which no further tick can pass
const MAX_CLOCK: u32 = 1_000_000_000;

// Whether a job of a task may start at a clock: none did yet, or the period since the latest has passed.
fn ready(held: &HeldTask, at: u32) -> bool
    ensures { result ≡ ready at held.now.period held.now.latest }
{
    held.latest.is_none_or(|latest| u64::from(latest) + u64::from(held.period) <= u64::from(at))
}

impl<S: Supply> Dispatcher<S> {
    // No task is held, and no tick has passed.
    pub fn new(supply: S) -> Dispatcher<S>
        ensures { state_of S.Supply.row S.Supply.table result ≡ fresh (S.Supply.row supply) (S.Supply.table supply) }
    {
        Dispatcher {
            supply,
            clock: 0,
            tasks: HeldTasks::new(),
        }
    }

    // The task of a number, if it is held.
    fn held(&self, id: u32) -> Result<(TaskId, HeldTask), Refusal>
        ensures named { IfOk result (λ task. task.0.number ≡ id) }
        ensures row { IfOk result (λ task. row_said (Some task.1) ≡ slots self.now.tasks.table.rows id) }
        ensures refused { result_err result ≡ unheld (slots self.now.tasks.table.rows) id }
    {
        let task = TaskId::new(id).ok_or(Refusal::NumberTooLarge)?;
        let held = self.tasks.table.task(id).ok_or(Refusal::NotHeld)?;
        Ok((task, held))
    }

    // The least level that serves a task that is held; 0, where none does, as the definition of the answer has it.
    pub fn level(&self, id: u32) -> Result<u32, Refusal>
        ensures answer { level_answer result ≡ answer (state_of S.Supply.row S.Supply.table self.now) (Level id) }
    {
        self.held(id)?;
        Ok(witness(&self.tasks, &self.supply, id).unwrap_or(0))
    }

    // Takes a task in, if its card is sound, its number is free and every task has a level then; answers its level. It takes four
    // numbers and no card: not every four are one. Where every task has a level, the 0 does not come about.
    pub fn admit(&mut self, id: u32, run: u32, period: u32, deadline: u32) -> Result<u32, Refusal>
        ensures answer { level_answer result ≡ answer (state_of S.Supply.row S.Supply.table self.old) (Admit id run period deadline) }
        ensures after { state_of S.Supply.row S.Supply.table self.new ≡ after (state_of S.Supply.row S.Supply.table self.old) (Admit id run period deadline) }
        ensures same { is_ok result ≡ false → self.new ≡ self.old }
    {
        TaskId::new(id).ok_or(Refusal::NumberTooLarge)?;
        let card = Card::new(id, run, period, deadline).ok_or(Refusal::BadCard)?;
        if self.tasks.table.holds(id) {
            return Err(Refusal::NumberTaken);
        }
        let tasks = self.tasks.with(&card);
        if let Some(k) = first_unserved(&tasks, &self.supply) {
            return Err(Refusal::NoLevel(k));
        }
        let level = witness(&tasks, &self.supply, id).unwrap_or(0);
        self.tasks = tasks;
        Ok(level)
    }

    // Lets a task go, if no job is unfinished.
    pub fn withdraw(&mut self, id: u32) -> Result<(), Refusal>
        ensures answer { pass_answer result ≡ answer (state_of S.Supply.row S.Supply.table self.old) (Withdraw id) }
        ensures after { state_of S.Supply.row S.Supply.table self.new ≡ after (state_of S.Supply.row S.Supply.table self.old) (Withdraw id) }
        ensures same { is_ok result ≡ false → self.new ≡ self.old }
    {
        let (task, _) = self.held(id)?;
        if !self.tasks.table.quiet() {
            return Err(Refusal::JobUnfinished);
        }
        self.tasks.clear(task);
        Ok(())
    }

    // Starts a job of a task, that is to run for some ticks.
    pub fn release(&mut self, id: u32, run: u32) -> Result<(), Refusal>
        ensures answer { pass_answer result ≡ answer (state_of S.Supply.row S.Supply.table self.old) (Release id run) }
        ensures after { state_of S.Supply.row S.Supply.table self.new ≡ after (state_of S.Supply.row S.Supply.table self.old) (Release id run) }
        ensures same { is_ok result ≡ false → self.new ≡ self.old }
    {
        let (task, held) = self.held(id)?;
        if run < 1 || held.run < run {
            return Err(Refusal::BadRunTime);
        }
        if !ready(&held, self.clock) {
            return Err(Refusal::TooSoon);
        }
        self.tasks.release(task, self.clock, run);
        Ok(())
    }

    // Goes on to the next tick, and answers the processors that it is given.
    fn next_tick(&mut self) -> u32
        requires { self.old.clock < 1000000000 }
        ensures given { result ≡ S.Supply.row self.old.supply 0 }
        ensures rest { (x : ℕ) → S.Supply.row self.new.supply x ≡ S.Supply.row self.old.supply (suc x) }
        ensures same { (j n : ℕ) → S.Supply.table self.new.supply j n ≡ S.Supply.table self.old.supply j n }
        ensures clock { self.new.clock ≡ self.old.clock + 1 }
        ensures tasks { self.new.tasks ≡ self.old.tasks }
    {
        let given = self.supply.draw();
        self.clock += 1;
        given
    }

    // Lets one tick pass: the supply is drawn from once, and the jobs that have to be done the soonest run. Answers the
    // processors that were given and the word of the tasks that ran.
    pub fn tick(&mut self) -> Result<(u32, u32), Refusal>
        ensures answer { tick_answer result ≡ answer (state_of S.Supply.row S.Supply.table self.old) Tick }
        ensures after { state_of S.Supply.row S.Supply.table self.new ≡ after (state_of S.Supply.row S.Supply.table self.old) Tick }
        ensures same { is_ok result ≡ false → self.new ≡ self.old }
    {
        if self.clock >= MAX_CLOCK {
            return Err(Refusal::ClockAtEnd);
        }
        let given = self.next_tick();
        let ran = self.tasks.run(given);
        Ok((given, ran))
    }
}

#[cfg(test)]
mod tests {
    use super::*;
    use supply::SteadyRack;

    // Five equal tasks on two processors: level 2 serves each. A sixth would leave task 0 without a level.
    #[test]
    fn five_tasks(rt: HostRuntime) {
        let mut dispatcher = Dispatcher::new(SteadyRack::new(2));
        for id in 0..3 {
            assert_eq!(rt; dispatcher.admit(id, 2, 6, 6), Ok(1));
        }
        assert_eq!(rt; dispatcher.admit(3, 2, 6, 6), Ok(2));
        assert_eq!(rt; dispatcher.admit(4, 2, 6, 6), Ok(2));
        assert_eq!(rt; dispatcher.admit(5, 2, 6, 6), Err(Refusal::NoLevel(0)));
        for id in 0..5 {
            assert_eq!(rt; dispatcher.level(id), Ok(2));
        }
        assert_eq!(rt; dispatcher.level(5), Err(Refusal::NotHeld));
    }

    // A task can be withdrawn when its job is done.
    #[test]
    fn a_job_is_done(rt: HostRuntime) {
        let mut dispatcher = Dispatcher::new(SteadyRack::new(1));
        assert_eq!(rt; dispatcher.admit(3, 1, 4, 4), Ok(1));
        assert_eq!(rt; dispatcher.release(3, 1), Ok(()));
        assert_eq!(rt; dispatcher.withdraw(3), Err(Refusal::JobUnfinished));
        assert_eq!(rt; dispatcher.tick(), Ok((1, 0b1000)));
        assert_eq!(rt; dispatcher.tick(), Ok((1, 0)));
        assert_eq!(rt; dispatcher.withdraw(3), Ok(()));
        assert_eq!(rt; dispatcher.release(3, 1), Err(Refusal::NotHeld));
    }
}

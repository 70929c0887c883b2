// What a dispatcher is asked and answers, and the promise that it keeps over a whole shift of calls.
#![tactic(auto)]

ghost use Rattle.std.specs.Prelude.{◌≡◌, true};
ghost use Rattle.schedule.specs.Numbers.{number_of, task_named};
ghost use Rattle.schedule.specs.Test.{TestLaw};
ghost use Rattle.schedule.specs.Order.{OrderLaw};
ghost use Rattle.schedule.specs.Calls.{RefusalLaw};
ghost use Rattle.schedule.specs.Shift.{Guarantee};

// What a dispatcher is asked.
#[derive(Clone, Copy, PartialEq, Eq, Debug)]
pub enum Call {
    // take a task in, by its number and its card
    Admit {
        id: u32,
        run: u32,
        period: u32,
        deadline: u32,
    },
    // the least level that serves a task
    Level {
        id: u32,
    },
    // let a task go
    Withdraw {
        id: u32,
    },
    // start a job of a task, that is to run for some ticks
    Release {
        id: u32,
        run: u32,
    },
    // let one tick pass
    Tick,
}

// Why a call is refused.
#[derive(Clone, Copy, PartialEq, Eq, Debug)]
pub enum Refusal {
    // the task's number is not below 32
    NumberTooLarge,
    // not 1 ≤ run time ≤ deadline ≤ period ≤ 4,096
    BadCard,
    // the number is taken by a task that is held
    NumberTaken,
    // with the new task the test fails: the lowest-numbered task that has no level
    NoLevel(u32),
    // no task of this number is held
    NotHeld,
    // a job is unfinished
    JobUnfinished,
    // the run time is not from 1 to the card's
    BadRunTime,
    // the period since the latest release has not passed
    TooSoon,
    // the clock is at its end
    ClockAtEnd,
}

// What it answers: one list for five calls with three kinds of results, since a shift holds any of them, and so no `Result`.
#[derive(Clone, Copy, PartialEq, Eq, Debug)]
pub enum Answer {
    // of an admission and of a level question
    Level(u32),
    // of a withdrawal and of a release
    Passed,
    // the processors that the tick was given, and the word of the tasks that ran
    Ticked(u32, u32),
    Refused(Refusal),
}

impl Refusal {
    // The number by which a refusal is reported.
    pub fn number(&self) -> u32
        ensures { result ≡ number_of self.now }
    {
        // by a `match`: a variant that holds a task has no discriminant to cast
        match *self {
            Refusal::NumberTooLarge => 21,
            Refusal::BadCard => 22,
            Refusal::NumberTaken => 23,
            Refusal::NoLevel(_) => 24,
            Refusal::NotHeld => 25,
            Refusal::JobUnfinished => 26,
            Refusal::BadRunTime => 27,
            Refusal::TooSoon => 28,
            Refusal::ClockAtEnd => 29,
        }
    }

    // The task without a level, which only the refusal for want of one names.
    pub fn task(&self) -> Option<u32>
        ensures { result ≡ task_named self.now }
    {
        match *self {
            Refusal::NoLevel(task) => Some(task),
            _ => None,
        }
    }
}

// The promise. The test finds the least level that serves each task, or names the first task that has none. A tick leaves no
// job out while a processor is free, or a job that ranks behind it runs. A refusal changes nothing. And over every supply that keeps its
// window law, for every list of calls, each job runs for its run time by its deadline.
pub fn guarantee_holds() -> bool
    ensures value { result ≡ true }
    ensures test { TestLaw }
    ensures order { OrderLaw }
    ensures refusals { RefusalLaw }
    ensures shift { Guarantee }
{
    true
}

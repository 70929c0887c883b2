ghost use Rattle.std.specs.Prelude.{◌≡◌, ◌&&◌, ltb, if◌then◌else◌, Some, None};
ghost use Rattle.std.specs.Option.{option_map};
ghost use Rattle.task.specs.Task.{task_of, timely};

use super::{Card, MAX_PERIOD, TASKS};

impl Card {
    // The card with this number and these times, where there is one.
    pub fn new(id: u32, run: u32, period: u32, deadline: u32) -> Option<Card>
        ensures { option_map task_of result ≡ (if ltb id 32 && timely run period deadline then Some (record { id = id; run = run; period = period; deadline = deadline }) else None) }
    {
        if id < TASKS && 1 <= run && run <= deadline && deadline <= period && period <= MAX_PERIOD {
            Some(Card {
                id,
                run,
                period,
                deadline,
            })
        } else {
            None
        }
    }

    // The card of number 0 that runs one tick in every tick: named for that, and no `Default`.
    pub fn smallest() -> Card
        ensures { task_of result ≡ record { id = 0; run = 1; period = 1; deadline = 1 } }
    {
        Card {
            id: 0,
            run: 1,
            period: 1,
            deadline: 1,
        }
    }

    pub fn id(&self) -> u32
        ensures { result ≡ (task_of self.now).id }
    {
        self.id
    }

    pub fn run(&self) -> u32
        ensures { result ≡ (task_of self.now).run }
    {
        self.run
    }

    pub fn period(&self) -> u32
        ensures { result ≡ (task_of self.now).period }
    {
        self.period
    }

    pub fn deadline(&self) -> u32
        ensures { result ≡ (task_of self.now).deadline }
    {
        self.deadline
    }
}

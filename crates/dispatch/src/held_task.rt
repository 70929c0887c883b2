// What a row of the table holds.
ghost use Rattle.std.specs.Prelude.{◌≡◌, ◌<◌, true, Some, nat_lt};
ghost use Rattle.task.specs.Task.{task_of};
ghost use Rattle.schedule.specs.Calls.{released};
ghost use Rattle.schedule.specs.Order.{unfinished, spent};
ghost use Rattle.dispatch.specs.Rows.{row_said, row_of};

use task::Card;

// A task that is held: the times of its card, the clock of its latest release since its admission, and the ticks that its job
// still lacks.
#[derive(Clone, Copy, PartialEq, Eq, Debug)]
pub(crate) struct HeldTask {
    pub(crate) run: u32,
    pub(crate) period: u32,
    pub(crate) deadline: u32,
    pub(crate) latest: Option<u32>,
    pub(crate) lacking: u32,
}

// A task that is admitted by a card.
impl From<&Card> for HeldTask {
    ghost from_gives = { λ card held. row_said (Some held) ≡ row_of (task_of card.now) };

    fn from(card: &Card) -> HeldTask {
        HeldTask {
            run: card.run(),
            period: card.period(),
            deadline: card.deadline(),
            latest: None,
            lacking: 0,
        }
    }
}

impl HeldTask {
    // Whether its job lacks ticks.
    pub(crate) fn unfinished(&self) -> bool
        ensures { result ≡ unfinished (row_said (Some self.now)) }
    {
        self.lacking > 0
    }

    // A job starts at a clock, and is to run for some ticks.
    pub(crate) fn start(&mut self, at: u32, run: u32)
        ensures { row_said (Some self.new) ≡ released at run (row_said (Some self.old)) }
    {
        self.latest = Some(at);
        self.lacking = run;
    }

    // Its job gets a tick; answers whether it lacks more.
    pub(crate) fn work(&mut self) -> bool
        requires { 0 < self.old.lacking }
        ensures row { row_said (Some self.new) ≡ spent true (row_said (Some self.old)) }
        ensures more { result ≡ nat_lt 1 self.old.lacking }
    {
        self.lacking -= 1;
        self.unfinished()
    }
}

// The number of a task, which is below 32.
ghost use Rattle.std.specs.Prelude.{◌≡◌, ◌<◌, ltb, if◌then◌else◌, Some, None};
ghost use Rattle.std.specs.Option.{option_map};
ghost use Rattle.task.specs.Task.{task_of};

use task::{Card, TASKS};

#[derive(Clone, Copy)]
pub(crate) struct TaskId {
    pub(crate) number: u32,
    ghost below: { number < 32 },
}

impl TaskId {
    // The task of this number, unless it is too large.
    pub(crate) fn new(number: u32) -> Option<TaskId>
        ensures { option_map (λ t. t.number) result ≡ (if ltb number 32 then Some number else None) }
    {
        if number < TASKS {
            Some(TaskId { number })
        } else {
            None
        }
    }
}

// The task of a card.
impl From<&Card> for TaskId {
    ghost from_gives = { λ card task. task.number ≡ (task_of card.now).id };

    fn from(card: &Card) -> TaskId {
        TaskId { number: card.id() }
    }
}

// The dispatcher: tasks are admitted, released and run over a supply.
#![tactic(auto)]

mod charges;
mod dispatcher;
mod held;
mod held_task;
mod jobs;
mod select;
mod shift;
mod table;
mod task_id;
mod test;

pub use dispatcher::Dispatcher;
pub use shift::run_shift;

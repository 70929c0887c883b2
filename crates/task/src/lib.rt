// A task card: what the admission of a task is decided by.
#![tactic(auto)]

mod card;

pub use card::{Card, MAX_PERIOD, TASKS};

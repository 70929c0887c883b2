// Tasks that are run over a supply.
use crate::held::HeldTasks;

mod calls;

// The supply, the clock and the tasks that are held. It has no model: the clauses also say that a refusal leaves the supply itself.
#[derive(Drop)]
pub struct Dispatcher<S> {
    supply: S,
    clock: u32,
    tasks: HeldTasks,
}

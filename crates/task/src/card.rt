ghost use Rattle.std.specs.Prelude.{◌<◌, ◌≤◌};

mod making;

pub const TASKS: u32 = 32;

pub const MAX_PERIOD: u32 = 4096;

// A task by its number, its run time c, its period t and its deadline d counted from release, all in ticks.
// Every card that exists has a number below 32 and 1 ≤ c ≤ d ≤ t ≤ 4,096.
#[derive(Clone, Copy)]
pub struct Card {
    id: u32,
    run: u32,
    period: u32,
    deadline: u32,
    ghost numbered: { id < 32 },
    ghost runs: { 1 ≤ run },
    ghost in_time: { run ≤ deadline },
    ghost apart: { deadline ≤ period },
    ghost few: { period ≤ 4096 },
}

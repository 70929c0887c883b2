// How fast the planner and the dispatcher are, measured on the machine that runs it. The figures go to standard error, one
// line for each measurement, with a sum over the answers.
#![tactic(auto)]

use dispatch::Dispatcher;
use listing::list;
use plan::Plan;
use rack::SlotRack;
use std::time::Instant;
use supply::Supply;

// Eight rows of cycle 510, the longest that a plan can have, and 32 tasks, which are all admitted.
const LONG: &[u8] =
    b"S,0,34,1111111111111111110000000000000000\nS,1,15,111111111111000\nS,2,17,11111111000000000\nS,3,30,111111111111111111111111110000\nS,4,10,1111100000\nS,5,6,111100\nS,6,5,11100\nS,7,3,110\nT,5,60,1000,1000\nT,16,65,1096,1083\nT,27,70,1192,1166\nT,6,75,1288,1249\nT,17,80,1384,1332\nT,28,85,1480,1415\nT,7,90,1576,1498\nT,18,60,1672,1581\nT,29,65,1768,1664\nT,8,70,1864,1747\nT,19,75,1960,1830\nT,30,80,2056,1913\nT,9,85,2152,1996\nT,20,90,2248,2079\nT,31,60,2344,2162\nT,10,65,2440,2245\nT,21,70,2536,2328\nT,0,75,2632,2411\nT,11,80,2728,2494\nT,22,85,2824,2577\nT,1,90,2920,2660\nT,12,60,3016,2743\nT,23,65,3112,2826\nT,2,70,3208,2909\nT,13,75,3304,2992\nT,24,80,3400,3075\nT,3,85,3496,3158\nT,14,90,3592,3241\nT,25,60,3688,3324\nT,4,65,3784,3407\nT,15,70,3880,3490\nT,26,75,3976,3573\n";

// Eight rows of cycle 8.
const SHORT: &[u8] =
    b"S,0,8,11111100\nS,1,8,11111010\nS,2,8,11110110\nS,3,8,11101110\nS,4,4,1110\nS,5,4,1101\nS,6,2,10\nS,7,1,1\n";

const LISTINGS: u64 = 1_000;

const RACKS: u64 = 20_000;

const QUESTIONED_RACKS: u64 = 2_000;

const LEVEL_QUESTIONS: u64 = 8 * 8193;

const TICKS: u64 = 2_000_000;

const TASKS: u32 = 32;

// A sum over answers, in which their order counts.
fn mixed(sum: u64, answer: u64) -> u64 {
    sum.wrapping_mul(31).wrapping_add(answer)
}

// Lists the plan again and again into a buffer; answers a sum over the lengths and the last listing.
fn list_plans(out: &mut [u8]) -> u64 {
    let mut sum: u64 = 0;
    for _ in 0..LISTINGS {
        let length = list(LONG, out).unwrap_or(0);
        sum = mixed(sum, length as u64);
    }
    out.iter()
        .fold(sum, |sum, byte| mixed(sum, u64::from(*byte)))
}

// Makes the rack of a plan again and again, and asks one level of each.
fn make_racks(plan: &Plan) -> u64 {
    let mut sum: u64 = 0;
    for n in 0..RACKS {
        let rack = SlotRack::new(plan);
        sum = mixed(sum, u64::from(rack.level(8, (n % 4) as u32)));
    }
    sum
}

// Makes the rack of a plan again and again, and asks all levels of each at 32 lengths, as many as an admission can need.
fn question_racks(plan: &Plan) -> u64 {
    let mut sum: u64 = 0;
    for _ in 0..QUESTIONED_RACKS {
        let rack = SlotRack::new(plan);
        for k in 0..TASKS {
            for j in 1u32..9 {
                sum = mixed(sum, u64::from(rack.level(j, 1000 + 83 * k)));
            }
        }
    }
    sum
}

// Asks all levels at all lengths.
fn ask_levels(plan: &Plan) -> u64 {
    let rack = SlotRack::new(plan);
    let mut sum: u64 = 0;
    for j in 1u32..9 {
        for n in 0u32..8193 {
            sum = mixed(sum, u64::from(rack.level(j, n)));
        }
    }
    sum
}

// A tick, whose answer is added to the sum.
fn tick(dispatcher: &mut Dispatcher<SlotRack>, sum: u64) -> u64 {
    match dispatcher.tick() {
        Ok((given, ran)) => mixed(mixed(sum, u64::from(given)), u64::from(ran)),
        Err(_) => mixed(sum, 1),
    }
}

// A release, of which it is added to the sum whether it passed.
fn release(dispatcher: &mut Dispatcher<SlotRack>, id: u32, run: u32, sum: u64) -> u64 {
    match dispatcher.release(id, run) {
        Ok(()) => mixed(sum, 2),
        Err(_) => mixed(sum, 3),
    }
}

// Ticks, with all tasks released at once in every 64.
fn ticks_in_bursts(dispatcher: &mut Dispatcher<SlotRack>) -> u64 {
    let mut sum: u64 = 0;
    for clock in 0..TICKS {
        if clock % 64 == 0 {
            for id in 0..TASKS {
                sum = release(dispatcher, id, 7, sum);
            }
        }
        sum = tick(dispatcher, sum);
    }
    sum
}

// A release and a tick in each turn, the tasks one after another.
fn steady_ticks(dispatcher: &mut Dispatcher<SlotRack>) -> u64 {
    let mut sum: u64 = 0;
    for turn in 0..TICKS {
        sum = release(dispatcher, (turn % 32) as u32, 3, sum);
        sum = tick(dispatcher, sum);
    }
    sum
}

// A dispatcher over the short rack with 32 tasks, whose deadlines are up to `spread` ticks shorter than their period.
fn busy(plan: &Plan, run: u32, period: u32, spread: u32) -> Dispatcher<SlotRack> {
    let mut dispatcher = Dispatcher::new(SlotRack::new(plan));
    for id in 0..TASKS {
        let shorter = (id * 5).checked_rem(spread).unwrap_or(0);
        let _ = dispatcher.admit(id, run, period, period.saturating_sub(shorter));
    }
    dispatcher
}

// Does the work, and reports how long that took.
fn measure<F: FnOnce() -> u64>(
    rt: &HostRuntime,
    name: &str,
    count: u64,
    work: F,
) -> anyhow::Result<()>
    requires { F.IsAlwaysCallable work }
{
    let start = Instant::now(rt)?;
    let sum = work();
    let nanos = start.elapsed(rt)?.as_nanos();
    eprintln!(rt; "{name}: {count} in {nanos} ns, sum {sum}")?;
    Ok(())
}

fn measure_racks(rt: &HostRuntime) -> anyhow::Result<()> {
    let mut out = [0; 512];
    measure(rt, "plans listed", LISTINGS, || list_plans(&mut out))?;
    let mut plan = Plan::idle();
    let _ = plan.read(LONG);
    measure(rt, "racks made", RACKS, || make_racks(&plan))?;
    let name = "racks made and asked 256 levels";
    measure(rt, name, QUESTIONED_RACKS, || question_racks(&plan))?;
    measure(rt, "levels asked", LEVEL_QUESTIONS, || ask_levels(&plan))
}

fn measure_ticks(rt: &HostRuntime) -> anyhow::Result<()> {
    let mut plan = Plan::idle();
    let _ = plan.read(SHORT);
    let mut dispatcher = busy(&plan, 7, 64, 16);
    measure(rt, "ticks, releases in bursts", TICKS, || {
        ticks_in_bursts(&mut dispatcher)
    })?;
    let mut dispatcher = busy(&plan, 3, 32, 8);
    measure(rt, "ticks, a release before each", TICKS, || {
        steady_ticks(&mut dispatcher)
    })
}

fn run(rt: &HostRuntime) -> anyhow::Result<()> {
    measure_racks(rt)?;
    measure_ticks(rt)
}

fn main(rt: HostRuntime) -> anyhow::Result<()> {
    run(&rt)
}

// The level table of a cycle: what every stretch of ticks is sure to contain, found from running sums.
ghost use Rattle.std.specs.Prelude.{◌≡◌, ℕ, suc, ◌+◌, ◌<◌, ◌≤◌, min, length, slice_index};
ghost use Rattle.fixed.specs.Listed.{listed};
ghost use Rattle.supply.specs.Window.{window};
ghost use Rattle.rack.specs.Cycle.{repeated, cycle_table, LeastWindow, ByCycles};
ghost use Rattle.rack.specs.Kept.{Keeps};
ghost use Rattle.rack.specs.Sums.{sums_at};

use crate::kept::Kept;
use crate::level::{LEVELS, Level};
use crate::running::{LevelSums, MAX_CYCLE};
use supply::{MAX_LENGTH, MAX_LEVEL};

#[derive(Drop)]
pub(crate) struct Levels {
    // how many processors each tick of the cycle gives
    given: [u8; MAX_CYCLE],
    // how many ticks the cycle has: a number of its own, since clauses of `SlotRack` name it; in a list of fixed room it would be a length
    pub(crate) cycle: usize,
    // the running sums of the levels from 1 to 8
    sums: [LevelSums; LEVELS],
    // the least windows that are kept
    kept: Kept,
    ghost some: { 0 < cycle },
    ghost few: { cycle ≤ 512 },
    ghost summed: { (j k : ℕ) → (j < 8) × (k ≤ cycle) → slice_index (sums_at sums j) k ≡ window (suc j) (repeated given cycle) 0 k },
    ghost known: { Keeps (cycle_table given cycle) kept.place (listed kept.least) },
}

impl Levels {
    // The table of the first `cycle` of the given numbers, over and over. The cycle is a plan's, and no type of its own: a plan answers
    // a number.
    pub(crate) fn new(given: &[u8; MAX_CYCLE], cycle: usize) -> Levels
        requires some { 1 ≤ cycle }
        requires few { cycle ≤ 512 }
        ensures given { result.given ≡ given.now }
        ensures cycle { result.cycle ≡ cycle }
    {
        let given = *given;
        let mut sums = [LevelSums::NONE; LEVELS];
        for (j, sums) in sums.iter_mut().enumerate() {
            sums.fill(&given, cycle, Level::at(j));
        }
        Levels {
            given,
            cycle,
            sums,
            kept: Kept::none(),
        }
    }

    // Keeps the least windows of what a length has beyond whole cycles, if there is a place left.
    pub(crate) fn keep(&mut self, length: u32)
        ensures given { self.new.given ≡ self.old.given }
        ensures cycle { self.new.cycle ≡ self.old.cycle }
    {
        let s = length as usize % self.cycle;
        if !self.kept.holds(s) {
            let least = self.least_windows(s);
            self.kept.put(s, least);
        }
    }

    // What tick x gives, counted from the start of a cycle.
    pub(crate) fn number(&self, x: usize) -> u32
        ensures { result ≡ repeated self.now.given self.now.cycle x }
    {
        // a tick within the cycle takes no division
        let tick = if x < self.cycle { x } else { x % self.cycle };
        u32::from(self.given[tick]).min(MAX_LEVEL)
    }

    // What the first k ticks of the cycle give to a level.
    fn sum(&self, level: Level, k: usize) -> u16
        requires { k ≤ self.now.cycle }
        ensures { result ≡ window level.number (repeated self.now.given self.now.cycle) 0 k }
    {
        self.sums[level.place()].sums[k]
    }

    // The window of s ticks from tick x on, which ends within the cycle.
    fn window_within(&self, level: Level, x: usize, s: usize) -> u16
        requires { x + s ≤ self.now.cycle }
        ensures value { result ≡ window level.number (repeated self.now.given self.now.cycle) x s }
        ensures few { result ≤ 4096 }
    {
        self.sum(level, x + s) - self.sum(level, x)
    }

    // The least window of s ticks, at most a cycle, over the starts of the cycle.
    fn least_window(&self, level: Level, s: usize) -> u16
        requires { s ≤ self.now.cycle }
        ensures { result ≡ cycle_table self.now.given self.now.cycle level.number s }
    {
        // all windows of a whole cycle are the same
        if s == self.cycle {
            return self.sum(level, s);
        }
        let rest = self.cycle - s;
        // as loops: a chain would have the same window and the same cast in its closure, and be no plainer
        // the lesser and the greater of signed numbers take fewer instructions
        let mut least = self.sum(level, s) as i16;
        for x in 1..rest {
            least = least.min(self.window_within(level, x, s) as i16);
        }
        // windows that go on at the start of the cycle leave out a window of the rest
        let mut most: i16 = 0;
        for x in 0..s {
            most = most.max(self.window_within(level, x, rest) as i16);
        }
        let whole = self.sum(level, self.cycle) as i16;
        least.min(whole - most) as u16
    }

    // The least windows of s ticks at the levels from 1 to 8.
    fn least_windows(&self, s: usize) -> [u16; LEVELS]
        requires { s < self.now.cycle }
        ensures { (j : ℕ) → j < 8 → slice_index result j ≡ cycle_table self.now.given self.now.cycle (suc j) s }
    {
        let mut least = [0; LEVELS];
        for (j, least) in least.iter_mut().enumerate() {
            *least = self.least_window(Level::at(j), s);
        }
        least
    }

    // The least window of s ticks: as it was kept, or found now.
    fn least(&self, level: Level, s: usize) -> u16
        requires { s < self.now.cycle }
        ensures { result ≡ cycle_table self.now.given self.now.cycle level.number s }
    {
        match self.kept.get(level, s) {
            Some(least) => least,
            None => self.least_window(level, s),
        }
    }

    // The level table: a level above 8 is read as 8, a length above 8,192 as 8,192.
    pub(crate) fn level(&self, j: u32, n: u32) -> u32
        ensures value { result ≡ cycle_table self.now.given self.now.cycle (min j 8) (min n 8192) }
        ensures least { LeastWindow self.now.given self.now.cycle (min j 8) (min n 8192) result }
        ensures cycles { ByCycles self.now.given self.now.cycle (min j 8) (min n 8192) result }
    {
        let Some(level) = Level::new(j) else {
            return 0;
        };
        let n = n.min(MAX_LENGTH) as usize;
        let cycles = (n / self.cycle) as u32;
        let whole = u32::from(self.sum(level, self.cycle));
        let least = u32::from(self.least(level, n % self.cycle));
        cycles * whole + least
    }
}

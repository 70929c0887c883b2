// Running sums over a cycle.
ghost use Rattle.std.specs.Prelude.{◌<◌, ◌≤◌};
ghost use Rattle.rack.specs.Cycle.{repeated};
ghost use Rattle.rack.specs.Sums.{Summed};

use crate::level::Level;

// the most ticks that a cycle has
pub(crate) const MAX_CYCLE: usize = 512;

// one running sum for each number of ticks, from none to a whole cycle
const SUMS: usize = 513;

// The running sums of a level: at k, what the first k ticks of the cycle give, each tick cut to the level. An array: it is always full.
#[derive(Clone, Copy)]
pub(crate) struct LevelSums {
    pub(crate) sums: [u16; SUMS],
}

impl LevelSums {
    pub(crate) const NONE: LevelSums = LevelSums { sums: [0; SUMS] };

    // Fills in the sums of a level.
    pub(crate) fn fill(&mut self, given: &[u8; MAX_CYCLE], cycle: usize, level: Level)
        requires some { 0 < cycle }
        requires few { cycle ≤ 512 }
        ensures { Summed level.number (repeated given.now cycle) cycle self.new.sums }
    {
        self.sums[0] = 0;
        // by index, since each sum is made from the one before it
        for k in 0..cycle {
            self.sums[k + 1] = self.sums[k] + u16::from(given[k]).min(level.number);
        }
    }
}

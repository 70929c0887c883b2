// A rack that gives the same number of processors in every tick.
ghost use Rattle.std.specs.Prelude.{◌≡◌, ◌≤◌, min};
ghost use Rattle.supply.specs.Supplies.{steady_row, steady_table};
ghost use Rattle.std.proofs.Common.{arith};
ghost use Rattle.supply.specs.Windows.{window_steady};

use crate::{MAX_LENGTH, MAX_LEVEL, Supply};

#[derive(Drop)]
pub struct SteadyRack {
    processors: u32,
    ghost within: { processors ≤ 8 },
}

impl SteadyRack {
    // A rack of m processors; an m above 8 is read as 8.
    pub fn new(m: u32) -> SteadyRack
        ensures { result.processors ≡ min m 8 }
    {
        SteadyRack {
            processors: m.min(MAX_LEVEL),
        }
    }
}

impl Supply for SteadyRack {
    ghost row = { λ s. steady_row s.processors };

    ghost table = { λ s. steady_table s.processors };

    ghost bounded = { λ s x. s.within };

    ghost windows = { λ s j n x _ _. omega (arith, window_steady j s.processors x n) };

    fn draw(&mut self) -> u32 {
        self.processors
    }

    fn level(&self, j: u32, n: u32) -> u32 {
        j.min(MAX_LEVEL).min(self.processors) * n.min(MAX_LENGTH)
    }
}

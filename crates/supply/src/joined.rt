// Two supplies that are used as one.
ghost use Rattle.std.specs.Prelude.{◌≡◌, ◌≤◌, min};
ghost use Rattle.supply.specs.Supplies.{joined_row, joined_table, parted, Greatest};
ghost use Rattle.supply.specs.Windows.{windows_joined};
ghost use Rattle.std.proofs.Common.{arith};

use crate::{MAX_LENGTH, MAX_LEVEL, Supply};

#[derive(Drop)]
pub struct Joined<P, Q> {
    first: P,
    second: Q,
}

impl<P: Supply, Q: Supply> Joined<P, Q> {
    // What the two give together, and no more than 8 processors in a tick.
    pub fn new(first: P, second: Q) -> Joined<P, Q>
        ensures first { result.first ≡ first }
        ensures second { result.second ≡ second }
    {
        Joined { first, second }
    }

    // What is sure in n ticks, where i of j processors are counted on in the first and the others in the second.
    fn parting(&self, j: u32, n: u32, i: u32) -> u32
        requires part { i ≤ j }
        requires level { j ≤ 8 }
        requires length { n ≤ 8192 }
        ensures { result ≡ parted (P.Supply.table self.now.first) (Q.Supply.table self.now.second) j n i }
    {
        self.first.level(i, n) + self.second.level(j - i, n)
    }
}

impl<P: Supply, Q: Supply> Supply for Joined<P, Q> {
    ghost row = { λ s. joined_row (P.Supply.row s.first) (Q.Supply.row s.second) };

    ghost table = { λ s. joined_table (P.Supply.table s.first) (Q.Supply.table s.second) };

    ghost bounded = { λ s x. omega arith };

    ghost windows = { λ s. windows_joined _ _ _ _ (P.Supply.windows s.first) (Q.Supply.windows s.second) };

    fn draw(&mut self) -> u32 {
        (self.first.draw() + self.second.draw()).min(MAX_LEVEL)
    }

    // The best of the ways to part j between the two.
    fn level(&self, j: u32, n: u32) -> u32
        ensures value { result ≡ joined_table (P.Supply.table self.now.first) (Q.Supply.table self.now.second) (min j 8) (min n 8192) }
        ensures best { Greatest (parted (P.Supply.table self.now.first) (Q.Supply.table self.now.second) (min j 8) (min n 8192)) (min j 8) result }
    {
        let j = j.min(MAX_LEVEL);
        let n = n.min(MAX_LENGTH);
        (0..j + 1).map(|i| self.parting(j, n, i)).max().unwrap_or(0)
    }
}

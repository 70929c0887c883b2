// A supply of which no more than a given width is used in a tick.
ghost use Rattle.std.specs.Prelude.{◌≡◌};
ghost use Rattle.supply.specs.Supplies.{narrowed_row, narrowed_table};
ghost use Prim.Native.Nat;
ghost use Rattle.std.proofs.Common.{arith};
ghost use Rattle.supply.specs.Windows.{window_narrowed};

use crate::{MAX_LEVEL, Supply};

#[derive(Drop)]
pub struct Narrowed<S> {
    supply: S,
    width: u32,
}

impl<S: Supply> Narrowed<S> {
    // The supply, of which at most `width` processors are used in a tick.
    pub fn new(supply: S, width: u32) -> Narrowed<S>
        ensures supply { result.supply ≡ supply }
        ensures width { result.width ≡ width }
    {
        Narrowed { supply, width }
    }
}

impl<S: Supply> Supply for Narrowed<S> {
    ghost row = { λ s. narrowed_row s.width (S.Supply.row s.supply) };

    ghost table = { λ s. narrowed_table s.width (S.Supply.table s.supply) };

    ghost bounded = { λ s x. omega (arith, S.Supply.bounded s.supply x) };

    ghost windows = { λ s j n x hj hn. omega (arith, S.Supply.windows s.supply (Nat.min j s.width) n x (omega arith) hn, window_narrowed s.width j (S.Supply.row s.supply) x n) };

    fn draw(&mut self) -> u32 {
        self.supply.draw().min(self.width)
    }

    fn level(&self, j: u32, n: u32) -> u32 {
        self.supply.level(j.min(MAX_LEVEL).min(self.width), n)
    }
}

// A rack that gives its processors in the ticks that a plan's slot table marks.
ghost use Rattle.std.specs.Prelude.{◌≡◌, ℕ, ◌<◌, min};
ghost use Rattle.plan.specs.Contents.{contents};
ghost use Rattle.supply.specs.Window.{window};
ghost use Rattle.rack.specs.Least.{Least};
ghost use Rattle.rack.specs.Slots.{slot_row, slot_table};
ghost use Rattle.rack.specs.Cycle.{repeated_from, cycle_table, LeastWindow};
ghost use Rattle.std.proofs.Common.{arith};
ghost use Rattle.rack.specs.CycleLemmas.{windows_repeated};

use crate::counts::counts;
use crate::levels::Levels;
use plan::Plan;
use supply::Supply;

#[derive(Drop)]
pub struct SlotRack {
    levels: Levels,
    // the tick of the cycle that comes next
    tick: usize,
    ghost within: { tick < levels.cycle },
}

impl SlotRack {
    // The rack of a plan's slot table, before its first tick.
    pub fn new(plan: &Plan) -> SlotRack
        ensures row { (x : ℕ) → repeated_from result.levels.given result.levels.cycle result.tick x ≡ slot_row (contents plan.now).rows x }
        ensures table { (j n : ℕ) → cycle_table result.levels.given result.levels.cycle j n ≡ slot_table (contents plan.now).rows j n }
        ensures least { (j n : ℕ) → Least (λ x. window j (slot_row (contents plan.now).rows) x n) (slot_table (contents plan.now).rows j n) }
    {
        let mut levels = Levels::new(&counts(plan), plan.cycle());
        // an admission asks for the levels at the deadlines of all tasks held
        for card in plan.cards() {
            levels.keep(card.deadline());
        }
        SlotRack { levels, tick: 0 }
    }
}

impl Supply for SlotRack {
    ghost row = { λ s. repeated_from s.levels.given s.levels.cycle s.tick };

    ghost table = { λ s. cycle_table s.levels.given s.levels.cycle };

    ghost bounded = { λ s x. omega arith };

    ghost windows = { λ s. windows_repeated s.levels.given s.levels.cycle s.tick (omega arith) };

    fn draw(&mut self) -> u32 {
        let number = self.levels.number(self.tick);
        self.tick += 1;
        if self.tick == self.levels.cycle {
            self.tick = 0;
        }
        number
    }

    // The least window, over every start.
    fn level(&self, j: u32, n: u32) -> u32
        ensures value { result ≡ cycle_table self.now.levels.given self.now.levels.cycle (min j 8) (min n 8192) }
        ensures least { LeastWindow self.now.levels.given self.now.levels.cycle (min j 8) (min n 8192) result }
    {
        self.levels.level(j, n)
    }
}

// A supply stands for the processors that the control loop is given.
#![tactic(auto)]

ghost use Rattle.std.specs.Prelude.{◌≡◌, ℕ, suc, min};
ghost use Rattle.supply.specs.Window.{Bounded, Windows};

mod joined;
mod narrowed;
mod steady;

pub use joined::Joined;
pub use narrowed::Narrowed;
pub use steady::SteadyRack;

// the most processors that a tick gives, and the greatest level of a table
pub const MAX_LEVEL: u32 = 8;

// the greatest length that a table speaks of
pub const MAX_LENGTH: u32 = 8_192;

// Its meaning is an endless row of numbers from 0 to 8, one for each coming tick, and a level table: what every stretch of
// ticks is sure to contain.
pub trait Supply {
    // number x of the coming ticks
    ghost row: { Self → ℕ → ℕ };

    // what every stretch of n ticks is sure to give to a task set that can use at most j processors at once
    ghost table: { Self → ℕ → ℕ → ℕ };

    // The first number of the row, which is dropped; the rest of the row and the table stay.
    fn draw(&mut self) -> u32
        ensures value { result ≡ row self.old 0 }
        ensures rest { (x : ℕ) → row self.new x ≡ row self.old (suc x) }
        ensures same { (j n : ℕ) → table self.new j n ≡ table self.old j n };

    // The table's number for level j and length n; a j above 8 is read as 8, an n above 8,192 as 8,192.
    fn level(&self, j: u32, n: u32) -> u32
        ensures { result ≡ table self.now (min j 8) (min n 8192) };

    ghost bounded: { (s : Self) → Bounded (row s) };

    ghost windows: { (s : Self) → Windows (row s) (table s) };
}

#[cfg(test)]
mod tests {
    use super::*;

    // Steady 5 narrowed to 2, with steady 1: three processors in every tick.
    #[test]
    fn nested(rt: HostRuntime) {
        let mut both = Joined::new(Narrowed::new(SteadyRack::new(5), 2), SteadyRack::new(1));
        assert_eq!(rt; both.draw(), 3);
        assert_eq!(rt; both.draw(), 3);
        assert_eq!(rt; both.level(1, 10), 10);
        assert_eq!(rt; both.level(2, 10), 20);
        assert_eq!(rt; both.level(3, 10), 30);
        assert_eq!(rt; both.level(9, 10_000), 24_576);
    }

    #[test]
    fn no_more_than_eight(rt: HostRuntime) {
        let mut both = Joined::new(SteadyRack::new(9), SteadyRack::new(1));
        assert_eq!(rt; both.draw(), 8);
        assert_eq!(rt; both.level(8, 4), 32);
        assert_eq!(rt; both.level(0, 4), 0);
    }
}

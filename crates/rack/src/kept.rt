// Least windows that were found once and are kept.
ghost use Rattle.std.specs.Prelude.{◌≡◌, ℕ, suc, ◌<◌, true, length, is_some, None, Some, slice_index};
ghost use Rattle.fixed.specs.Listed.{listed};
ghost use Rattle.rack.specs.Kept.{place_of, Keeps};

use crate::level::{LEVELS, Level};
use crate::running::MAX_CYCLE;
use fixed::FixedList;

// the most lengths that have a place: one for each card of a plan
const MAX_KEPT: usize = 32;

#[derive(Drop)]
pub(crate) struct Kept {
    // by a length below the cycle, the place of its least windows, if they are kept; the windows themselves would take six times as much
    // of the stack as this and the list below
    place: [Option<u8>; MAX_CYCLE],
    // by place, the least windows at the levels from 1 to 8
    least: FixedList<[u16; LEVELS], MAX_KEPT>,
    ghost placed: { (s p : ℕ) → place_of place s ≡ Some p → p < length (listed least) },
}

// Three functions ask for a length below 512: a type for it would have this one use, and be no plainer.
impl Kept {
    // Nothing is kept yet.
    pub(crate) fn none() -> Kept
        ensures { (s : ℕ) → place_of result.place s ≡ None }
    {
        Kept {
            place: [None; MAX_CYCLE],
            least: FixedList::filled_with([0; LEVELS]),
        }
    }

    // Whether the least windows of s ticks are kept.
    pub(crate) fn holds(&self, s: usize) -> bool
        requires { s < 512 }
        ensures { result ≡ is_some (place_of self.now.place s) }
    {
        self.place[s].is_some()
    }

    // The least window of s ticks that is kept for a level.
    pub(crate) fn get(&self, level: Level, s: usize) -> Option<u16>
        requires { s < 512 }
        ensures { (table : ℕ → ℕ → ℕ) (m : ℕ) → Keeps table self.now.place (listed self.now.least) → result ≡ Some m → m ≡ table level.number s }
    {
        let place = self.place[s]?;
        Some(self.least.as_slice()[usize::from(place)][level.place()])
    }

    // Keeps the least windows of s ticks, if there is a place left.
    pub(crate) fn put(&mut self, s: usize, least: [u16; LEVELS])
        requires { s < 512 }
        ensures { (table : ℕ → ℕ → ℕ) → Keeps table self.old.place (listed self.old.least) → ((j : ℕ) → j < 8 → slice_index least j ≡ table (suc j) s) → Keeps table self.new.place (listed self.new.least) }
    {
        let place = self.least.len() as u8;
        if self.least.push(least).is_ok() {
            self.place[s] = Some(place);
        }
    }
}

// The levels that have a table of their own.
ghost use Rattle.std.specs.Prelude.{◌≡◌, ◌+◌, ◌≤◌, min, IfSome, IfNone};

use supply::MAX_LEVEL;

// how many levels there are: those from 1 to 8
pub(crate) const LEVELS: usize = 8;

// A level from 1 to 8.
#[derive(Clone, Copy)]
pub(crate) struct Level {
    pub(crate) number: u16,
    ghost some: { 1 ≤ number },
    ghost few: { number ≤ 8 },
}

impl Level {
    // Level j, where a j above 8 is read as 8; none, where j is 0.
    pub(crate) fn new(j: u32) -> Option<Level>
        ensures some { IfSome result (λ l. l.number ≡ min j 8) }
        ensures none { IfNone result (j ≡ 0) }
    {
        if j == 0 {
            return None;
        }
        Some(Level {
            number: j.min(MAX_LEVEL) as u16,
        })
    }

    // The level at a place, counted from 0.
    pub(crate) fn at(place: usize) -> Level
        requires { place + 1 ≤ 8 }
        ensures { result.number ≡ place + 1 }
    {
        Level {
            number: place as u16 + 1,
        }
    }

    // Its place among the levels, counted from 0.
    pub(crate) fn place(self) -> usize
        ensures value { result + 1 ≡ self.number }
        ensures few { result + 1 ≤ 8 }
    {
        usize::from(self.number) - 1
    }
}

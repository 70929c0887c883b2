ghost use Rattle.std.specs.Prelude.{◌≡◌, ◌%◌, ◌≤◌, false, ◌&&◌, leb, [], ◌∷◌, length, if◌then◌else◌, Some, None, nat_le, slice_index_or};
ghost use Rattle.std.specs.Option.{option_map};
ghost use Rattle.plan.specs.Rows.{marks_of};
ghost use Rattle.plan.specs.Marks.{all_marks, given};

use super::{MAX_MARKS, SlotRow};
use fixed::FixedList;

impl SlotRow {
    // The row of period 1 that never gives a processor: named for that, and no `Default`.
    pub(crate) fn idle() -> SlotRow
        ensures { marks_of result ≡ false ∷ [] }
    {
        let mut marks = FixedList::filled_with(false);
        marks.fill_from(&[false]);
        SlotRow { marks }
    }

    // The row that these bytes mark, where there are 1 to 64 of them and each is 0 or 1.
    pub(crate) fn new(bytes: &[u8]) -> Option<SlotRow>
        ensures { option_map marks_of result ≡ (if leb 1 (length bytes.now) && (nat_le (length bytes.now) 64 && all_marks bytes.now) then Some (given bytes.now) else None) }
    {
        let mut marks = FixedList::filled_with(false);
        for b in bytes {
            let mark = match *b {
                b'0' => false,
                b'1' => true,
                _ => return None,
            };
            marks.push(mark).ok()?;
        }
        if bytes.is_empty() {
            return None;
        }
        Some(SlotRow { marks })
    }

    // After how many ticks it repeats.
    pub fn period(&self) -> usize
        ensures value { result ≡ length (marks_of self.now) }
        ensures some { 1 ≤ result }
        ensures few { result ≤ 64 }
    {
        self.marks.len()
    }

    // Whether it gives a processor in tick x.
    pub fn gives(&self, x: usize) -> bool
        ensures { result ≡ slice_index_or (marks_of self.now) (x % length (marks_of self.now)) false }
    {
        self.marks.as_slice()[x % self.period()]
    }
}

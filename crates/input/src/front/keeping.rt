ghost use Rattle.std.specs.Prelude.{◌≡◌, [], ◌++◌, take};
ghost use Rattle.input.specs.Kept.{kept};

use super::Front;
use fixed::FixedList;

impl Front {
    // Of nothing so far.
    pub fn new() -> Front
        ensures { kept result ≡ [] }
    {
        Front {
            bytes: FixedList::filled_with(0),
        }
    }

    // The text goes on with these bytes; those that there is no room for are dropped.
    pub fn push(&mut self, more: &[u8])
        ensures { kept self.new ≡ take 8193 (kept self.old ++ more.now) }
    {
        self.bytes.fill_from(more);
    }

    // What is kept of the text.
    pub fn bytes(&self) -> &[u8]
        ensures { result.now ≡ kept self.now }
    {
        self.bytes.as_slice()
    }
}

ghost use Rattle.std.specs.Prelude.{◌≡◌, ◌≤◌, [], ◌∷◌, ◌++◌, length, take, OnOk, OnErr, is_ok, nat_lt};
ghost use Rattle.fixed.specs.Listed.{listed};

use super::{FixedList, Full};

impl<T: Copy, const N: usize> FixedList<T, N> {
    // No item yet; the free places hold `blank`.
    pub fn filled_with(blank: T) -> Self
        ensures { listed result ≡ [] }
    {
        FixedList {
            items: [blank; N],
            count: 0,
        }
    }

    // The items in order.
    pub fn as_slice(&self) -> &[T]
        ensures value { result.now ≡ listed self.now }
        ensures few { length result.now ≤ N }
    {
        &self.items[..self.count]
    }

    // How many items there are.
    pub fn len(&self) -> usize
        ensures value { result ≡ length (listed self.now) }
        ensures few { result ≤ N }
    {
        self.as_slice().len()
    }

    // Adds an item at the end, where there is room for it.
    pub fn push(&mut self, item: T) -> Result<(), Full>
        ensures room { is_ok result ≡ nat_lt (length (listed self.old)) N }
        ensures added { OnOk result (listed self.new ≡ listed self.old ++ item ∷ []) }
        ensures same { OnErr result (self.new ≡ self.old) }
    {
        if self.count == N {
            return Err(Full);
        }
        self.items[self.count] = item;
        self.count += 1;
        Ok(())
    }

    // Adds these items, as many from the first on as there is room for.
    pub fn fill_from(&mut self, more: &[T])
        ensures { listed self.new ≡ take N (listed self.old ++ more.now) }
    {
        // one by one: here `copy_from_slice` becomes a `memmove`, which a C program's build need not have
        for item in more {
            let Ok(()) = self.push(*item) else {
                break;
            };
        }
    }
}

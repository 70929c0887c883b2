ghost use Rattle.std.specs.Prelude.{◌≡◌, ◌≤◌, ⊤, length};

use std::alloc::AllocError;

mod filling;

// Up to `N` items in order, which lie in the value itself. It is `Copy` where its items are: an `ArrayVec` never is, and its clone may fail.
// It has no model: what is `Copy` needs one that keeps all, and the free places are to be forgotten.
pub struct FixedList<T, const N: usize> {
    items: [T; N],
    count: usize,
    ghost full: { length items ≡ N },
    ghost within: { count ≤ N },
}

// by hand, since a generic type with facts of its own derives neither
impl<T: Copy, const N: usize> Clone for FixedList<T, N> {
    ghost is_clone = { λ s r. r ≡ s };

    ghost is_infallible = { λ _. ⊤ };

    fn clone(&self) -> Result<Self, AllocError> {
        Ok(*self)
    }
}

impl<T: Copy, const N: usize> Copy for FixedList<T, N> {}

// There is no room for one item more.
#[derive(Clone, Copy, PartialEq, Eq, Debug)]
pub struct Full;

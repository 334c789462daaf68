// A list with a place for each element that it may ever hold.
ghost use Rattle.std.specs.Prelude.{◌≡◌, ◌≤◌, ⊤};

use std::alloc::AllocError;

mod methods;

// At most N values, without a heap. What stands in the slots from `len` on means nothing.
pub struct BoundedList<T, const N: usize> {
    slots: [T; N],
    len: usize,
    ghost fits: { len ≤ N },
}

impl<T: Copy, const N: usize> Copy for BoundedList<T, N> {}

impl<T: Copy, const N: usize> Clone for BoundedList<T, N> {
    ghost is_clone = { λ x y. y ≡ x };

    ghost is_infallible = { λ _. ⊤ };

    fn clone(&self) -> Result<Self, AllocError> {
        Ok(*self)
    }
}

// A list is handed back grown or changed.
ghost use Rattle.std.specs.Prelude.{◌≡◌, ◌<◌, [], ◌∷◌, ◌++◌, length, slice_set};
ghost use Rattle.history.specs.Bounded.{items};

use crate::bounded::BoundedList;

impl<T: Copy + Default, const N: usize> BoundedList<T, N> {
    // The empty list. Its slots hold defaults meanwhile.
    pub(crate) fn new() -> BoundedList<T, N>
        ensures { items result ≡ [] }
    {
        BoundedList {
            slots: [T::default(); N],
            len: 0,
        }
    }

    // The values, in order.
    pub(crate) fn as_slice(&self) -> &[T]
        ensures { result.now ≡ items self.now }
    {
        &self.slots[..self.len]
    }

    // The list with one more value at its end.
    pub(crate) fn with(mut self, x: T) -> BoundedList<T, N>
        requires { length (items self) < N }
        ensures { items result ≡ items self ++ x ∷ [] }
    {
        self.slots[self.len] = x;
        self.len += 1;
        self
    }

    // The list with another value at place i.
    pub(crate) fn replaced(mut self, i: usize, x: T) -> BoundedList<T, N>
        requires { i < length (items self) }
        ensures { items result ≡ slice_set (items self) i x }
    {
        self.slots[i] = x;
        self
    }
}

// A list that lies in an array.
ghost use Rattle.std.specs.Prelude.{◌≡◌, ◌≤◌, ⊤};

use std::alloc::AllocError;

pub mod makes;

// At most N items. The first places of the array hold them; those behind hold nothing of meaning.
pub struct ShortList<T, const N: usize> {
    places: [T; N],
    count: usize,
    ghost few: { count ≤ N },
}

// By hand, since neither is derived for a struct with a ghost field and a type parameter.
impl<T: Copy, const N: usize> Clone for ShortList<T, N> {
    // a clone is the same list, and never fails
    ghost is_clone = { λ x y. y ≡ x };

    ghost is_infallible = { λ _. ⊤ };

    fn clone(&self) -> Result<ShortList<T, N>, AllocError> {
        Ok(*self)
    }
}

impl<T: Copy, const N: usize> Copy for ShortList<T, N> {}

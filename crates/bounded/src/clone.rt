// A bounded list of plain items is itself plain: its clone is the same list, and never fails. It is
// written by hand, since `Clone` cannot be derived over ghost fields behind a type parameter.
ghost use Rattle.std.specs.Prelude.{◌≡◌, ⊤};

use super::Bounded;
use std::alloc::AllocError;

impl<T: Copy, const N: usize> Clone for Bounded<T, N> {
    ghost is_clone = { λ list copy. copy ≡ list };

    ghost is_infallible = { λ _. ⊤ };

    fn clone(&self) -> Result<Self, AllocError> {
        Ok(*self)
    }
}

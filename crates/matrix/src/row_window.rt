//! Windows of two borrowed rows.
ghost use Rattle.std.specs.Prelude.{◌≡◌, length, refl, ⊤};

use crate::window::WindowAccess;
use std::alloc::AllocError;

/// A window of two borrowed rows of equal length.
#[derive(Copy, Debug)]
pub struct RowWindow<'a, T> {
    /// The current row.
    pub current: &'a [T],
    /// The next row.
    pub next: &'a [T],
    pub ghost same_length: { length next.now ≡ length current.now },
}

impl<T: Copy> Clone for RowWindow<'_, T> {
    ghost is_clone = { λ x y. y ≡ x };

    ghost is_infallible = { λ _. ⊤ };

    fn clone(&self) -> Result<Self, AllocError> {
        Ok(*self)
    }
}

impl<'a, T> RowWindow<'a, T> {
    /// The window of `current` above `next`.
    pub fn from_two_rows(current: &'a [T], next: &'a [T]) -> Self
        requires { length next.now ≡ length current.now }
        ensures current { result.current.now ≡ current.now }
        ensures next { result.next.now ≡ next.now }
    {
        RowWindow { current, next }
    }
}

impl<T: Copy> WindowAccess<T> for RowWindow<'_, T> {
    ghost readable = { λ _. Unit {0} };

    ghost current = { λ w. w.current.now };

    ghost next = { λ w. w.next.now };

    ghost same_length = { λ w _. w.same_length };

    fn current_slice(&self) -> &[T] {
        self.current
    }

    fn next_slice(&self) -> &[T] {
        self.next
    }
}

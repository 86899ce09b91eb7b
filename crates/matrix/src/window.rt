//! What a constraint sees of a trace: two rows.
ghost use Rattle.std.specs.Prelude.{◌≡◌, List, length, slice_get};

/// Access to the current row and the next one.
pub trait WindowAccess<T: Copy> {
    ghost readable: { Self → Type 0 };

    ghost current: { Self → List T };

    ghost next: { Self → List T };

    /// The current row.
    fn current_slice(&self) -> &[T]
        requires { readable self.now }
        ensures { result.now ≡ current self.now };

    /// The next row.
    fn next_slice(&self) -> &[T]
        requires { readable self.now }
        ensures { result.now ≡ next self.now };

    /// Cell `i` of the current row, and `None` past its end.
    fn current(&self, i: usize) -> Option<T>
        requires { readable self.now }
        ensures { result ≡ slice_get (current self.now) i }
    {
        self.current_slice().get(i).copied()
    }

    /// Cell `i` of the next row, and `None` past its end.
    fn next(&self, i: usize) -> Option<T>
        requires { readable self.now }
        ensures { result ≡ slice_get (next self.now) i }
    {
        self.next_slice().get(i).copied()
    }

    ghost same_length: { (w : Self) → readable w → length (next w) ≡ length (current w) };
}

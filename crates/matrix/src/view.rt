//! Two slices side by side.

/// The current row above the next one, as two slices.
#[derive(Clone, Copy, Debug)]
pub struct ViewPair<'a, T> {
    /// The current row.
    pub top: &'a [T],
    /// The next row.
    pub bottom: &'a [T],
}

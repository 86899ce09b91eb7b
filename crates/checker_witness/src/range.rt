//! Ranges of rows.
ghost use Rattle.std.specs.Prelude.{◌≡◌, ◌-◌, ◌<◌, ◌≤◌, ◌^◌};
ghost use Rattle.checker_witness.specs.Around.{IsRange, place_of_first, rows_around};

/// The rows from `first` up to `end` of a trace that has `height` rows.
#[derive(Clone, Copy, Debug)]
pub struct RowRange {
    /// The first of them.
    pub first: usize,
    /// The row after the last one.
    pub end: usize,
    /// The height of the whole trace.
    pub height: usize,
}

impl RowRange {
    /// Where row `first` stands among the rows around the range: after row 0, unless it is that one.
    pub fn place(self) -> usize
        ensures { result ≡ place_of_first self.first }
    {
        if self.first == 0 { 0 } else { 1 }
    }

    /// How many rows the range has.
    pub(crate) fn rows(self) -> usize
        requires { self.first ≤ self.end }
        ensures many { result ≡ self.end - self.first }
        ensures end_is_usize { self.end < 2 ^ 64 }
    {
        self.end - self.first
    }

    /// How many rows stand around the range: row 0, unless the range begins with it; the rows of the range;
    /// and the row after them, unless the range ends with the trace.
    pub fn rows_around(self) -> usize
        requires { IsRange self }
        ensures { result ≡ rows_around self.height self.first self.end }
    {
        let rows = self.rows() + self.place();
        if self.end == self.height {
            rows
        } else {
            rows + 1
        }
    }
}

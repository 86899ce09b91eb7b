//! Ranges of the rows of an AIR.
ghost use Rattle.std.specs.Prelude.{◌≡◌, MatchResult};
ghost use Rattle.c_calls.specs.Inputs.{view_of_read};
ghost use Rattle.c_calls.specs.Rows.{HasCallRowsAround, IsRowsRefusal, range_of};

use crate::codes::Part;
use crate::fault::Fault;
use c_tables::ReadTraces;
use checker::RowRange;
use field_monty::{MontyField31, QuarticParameters};

/// The rows from `first` up to `end` of a trace that has `height` rows.
#[repr(C)]
#[derive(Clone, Copy, Drop)]
pub struct Rows {
    /// The first of them.
    pub first: usize,
    /// The row after the last one.
    pub end: usize,
    /// The height of the whole trace.
    pub height: usize,
}

/// The range that numbers say, where these traces have the rows around it.
///
/// Refuses a range that has no rows or ends past the height, and then traces of another height than there
/// are rows around it.
pub(crate) fn range_of<const P: u32, K: QuarticParameters<P>>(
    rows: &Rows,
    around: &ReadTraces<MontyField31<P, K>>,
) -> Result<RowRange, Fault>
    ensures { MatchResult result (λ range. (range ≡ range_of rows.now)
        × HasCallRowsAround rows.now (view_of_read around.now))
        (IsRowsRefusal rows.now (view_of_read around.now)) }
{
    if rows.first >= rows.end || rows.end > rows.height {
        return Err(Fault::Rows);
    }
    let range = RowRange {
        first: rows.first,
        end: rows.end,
        height: rows.height,
    };
    let expected = range.rows_around();
    let actual = around.main.height();
    if actual != expected {
        return Err(Fault::Length {
            part: Part::Rows,
            expected,
            actual,
        });
    }
    Ok(range)
}

//! Generation of a range of rows, from the rows around it.
ghost use Rattle.std.specs.Prelude.{◌≡◌, ◌*◌, ◌≤◌, length};
ghost use Rattle.air.specs.Traces.{AirTraces, height_of, layout_of, traces_of};
ghost use Rattle.lookup_generation.specs.Ranges.{AnswersRows};
ghost use Rattle.lookup_model.specs.Records.{LookupsFit};
ghost use Rattle.checker_witness.specs.Around.{AreAround, IsRange, rows_around};
ghost use Rattle.checker_witness.specs.internal.Renumbered.{renumbered_fault};

use crate::range::RowRange;
use air::Traces;
use field::{ExtensionField, Field, InverseCount, Over};
use lookup_generation::generate_rows;
use lookup_model::{Lookup, LookupError};
use matrix::RowMajorMatrix;
use std::alloc::Global;

/// The rows of a range of the auxiliary trace of one AIR, and the sum of their fractions, as
/// [`generate_rows`] gives them: the accumulator is zero on the first row of the range.
///
/// `around` has the rows around the range alone: row 0, unless the range begins with it; the rows of the
/// range; and the row after them, unless the range ends with the trace. The answer is that for the whole
/// trace, whatever its other rows are. Requires at least one row, a range within the height, and traces of
/// [`rows_around`](RowRange::rows_around) rows. `challenges` are an alpha and a beta for each lookup, in the
/// order of their columns.
///
/// Refuses the first fault on the rows of the range, in the order row, lookup, under its row in the whole
/// trace. Also fails when out of memory, with `Memory`.
pub fn generate_around<F: Field, EF: ExtensionField<F>>(
    alloc: Global,
    around: &Traces<'_, F>,
    lookups: &[Lookup<F>],
    challenges: &[EF],
    range: RowRange,
) -> Result<(RowMajorMatrix<EF>, EF), LookupError>
    requires fit { LookupsFit (layout_of (traces_of around.now)) lookups.now }
    requires challenges { 2 * length lookups.now ≤ length challenges.now }
    requires range { IsRange range }
    requires rows { height_of (traces_of around.now)
        ≡ rows_around range.height range.first range.end }
    ensures { (whole : AirTraces F) → AreAround range whole (traces_of around.now)
        → AnswersRows ⟦<EF as Over<F>>⟧.fields whole lookups.now challenges.now range.first range.end
        result }
{
    let mut count = InverseCount::new();
    let first = range.place();
    let end = first + range.rows();
    match generate_rows(alloc, around, lookups, challenges, first, end, &mut count) {
        Ok(made) => Ok(made),
        Err(error) => Err(in_whole(error, first, range.first)),
    }
}

/// An error that names its row in the whole trace, where row `from` of the traces around is row `to`.
fn in_whole(error: LookupError, from: usize, to: usize) -> LookupError
    ensures { result ≡ renumbered_fault from to error }
{
    match error {
        LookupError::VanishingDenominator { row, lookup } => LookupError::VanishingDenominator {
            row: row.saturating_sub(from).saturating_add(to),
            lookup,
        },
        LookupError::FlagNotBoolean { row, lookup } => LookupError::FlagNotBoolean {
            row: row.saturating_sub(from).saturating_add(to),
            lookup,
        },
        LookupError::FlagsNotExclusive { row, lookup } => LookupError::FlagsNotExclusive {
            row: row.saturating_sub(from).saturating_add(to),
            lookup,
        },
        other => other,
    }
}

//! One row of the traces of an AIR.
ghost use Rattle.std.specs.Prelude.{◌≡◌, ◌<◌, length};
ghost use Rattle.air.specs.Traces.{height_of, layout_of, traces_of, window_of};
ghost use Rattle.lookup_messages.specs.TraceBuilder.{builder_challenges, builder_layout, builder_row, builder_window};

use crate::trace_builder::LookupTraceBuilder;
use air::{Traces, next_row};
use field::{Domain, Field};
use matrix::ViewPair;

/// The builder of one row of an AIR's traces together with the next row; the last row comes with the
/// first one. The caller counts the rows of the traces, `num_rows`, once for all of them.
pub fn row_builder<'a, F: Field, EF: Domain>(
    traces: &Traces<'a, F>,
    challenges: &'a [EF],
    num_rows: usize,
    row: usize,
) -> LookupTraceBuilder<'a, F, EF>
    requires rows { num_rows ≡ height_of (traces_of traces.now) }
    requires row_exists { row < num_rows }
    ensures window { builder_window result ≡ window_of (traces_of traces.now) row }
    ensures layout { builder_layout result ≡ record (layout_of (traces_of traces.now)) {
      num_permutation_challenges = length challenges.now;
    } }
    ensures challenges { builder_challenges result ≡ challenges.now }
    ensures row { builder_row result ≡ row }
{
    let next = next_row(row, num_rows);
    let main_trace = traces.main;
    let main = ViewPair {
        top: main_trace.row_slice(row),
        bottom: main_trace.row_slice(next),
    };
    let preprocessed = match traces.preprocessed {
        Some(trace) => ViewPair {
            top: trace.row_slice(row),
            bottom: trace.row_slice(next),
        },
        None => ViewPair {
            top: &[],
            bottom: &[],
        },
    };
    let public_values = traces.public_values;
    LookupTraceBuilder::new(main, preprocessed, public_values, challenges, num_rows, row)
}

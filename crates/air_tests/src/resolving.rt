ghost use Rattle.std.specs.Prelude.{◌≡◌, ◌<◌, None, []};
ghost use Rattle.matrix.specs.Matrix.{height};

use crate::cases::holds;
use crate::recording::record_selected;
use crate::traces::{no_preprocessed, no_trace, trace_of};
use air::{AirLayout, DebugConstraintBuilder, RowInputs, SymbolicExpression};
use field::F7;
use matrix::RowMajorMatrix;
use std::alloc::Global;

type Base = SymbolicExpression<F7>;

/// The value of a constraint on a row of a trace, where it fits the trace.
fn value_on<'a>(
    alloc: Global,
    inputs: &'a RowInputs<'a, F7, F7>,
    row: usize,
    constraint: &Base,
) -> Option<F7>
    requires row { row < height inputs.now.main.now }
    requires preprocessed { inputs.now.preprocessed ≡ None }
    requires permutation { inputs.now.permutation.now.width ≡ 0 }
    requires challenges { inputs.now.challenges.now ≡ [] }
    requires values { inputs.now.permutation_values.now ≡ [] }
{
    let builder = DebugConstraintBuilder::new(inputs, row);
    let layout = AirLayout::of_traces(inputs.main, None, inputs.public_values);
    if !constraint.fits(&layout) {
        return None;
    }
    constraint.resolve(alloc, &builder).ok()
}

/// The value of a constraint on a row of a trace, and `None` past its end.
fn value_at(alloc: Global, main: &RowMajorMatrix<F7>, row: usize, constraint: &Base) -> Option<F7> {
    if row >= main.height() {
        return None;
    }
    let permutation = no_trace(alloc);
    let inputs: RowInputs<'_, F7, F7> = RowInputs {
        main,
        preprocessed: no_preprocessed(main),
        public_values: &[],
        permutation: &permutation,
        challenges: &[],
        permutation_values: &[],
    };
    value_on(alloc, &inputs, row, constraint)
}

/// The values of a constraint on the first three rows of a trace.
fn values_on(alloc: Global, main: &RowMajorMatrix<F7>, constraint: &Base) -> [Option<F7>; 3] {
    [
        value_at(alloc, main, 0, constraint),
        value_at(alloc, main, 1, constraint),
        value_at(alloc, main, 2, constraint),
    ]
}

/// The values of the constraint of this index on the rows of a trace of three rows.
fn values_of(alloc: Global, index: usize) -> Option<[Option<F7>; 3]> {
    let main = trace_of(alloc, &[1, 3, 3, 4, 5, 6], 2)?;
    let recorder = record_selected(alloc).ok()?;
    let values = match recorder.base_constraints().get(index) {
        Some(constraint) => Some(values_on(alloc, &main, constraint)),
        None => None,
    };
    drop(recorder);
    values
}

/// Whether the constraint of this index has these values.
fn is_valued(alloc: Global, index: usize, values: [u32; 3]) -> bool {
    let [first, second, third] = values;
    let wanted = [
        Some(F7::new(first)),
        Some(F7::new(second)),
        Some(F7::new(third)),
    ];
    values_of(alloc, index) == Some(wanted)
}

#[test]
fn recorded_constraints_resolve_on_cyclic_windows(rt: HostRuntime) {
    let alloc = rt.alloc();
    // Row 0: 1 * 4. Row 2, beside row 0: 5 + 3. Rows 0 and 1: 1 - 4 and 3 - 6.
    holds(&rt, "product", is_valued(alloc, 0, [4, 0, 0]));
    holds(&rt, "sum", is_valued(alloc, 1, [0, 0, 1]));
    holds(&rt, "difference", is_valued(alloc, 2, [4, 4, 0]));
}

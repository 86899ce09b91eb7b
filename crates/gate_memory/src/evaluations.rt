//! Calls of evaluation.
ghost use Rattle.std.specs.Prelude.{◌≡◌, None};
ghost use Rattle.std.specs.Option.{option_copied};
ghost use Rattle.air.specs.Row.{HeightFits, OptionHeightFits};
ghost use Rattle.matrix.specs.Matrix.{height};

use air::{AirError, RowInputs, check_rows};
use field::F7;
use gate_memory_builders::airs::Zeros;
use gate_memory_builders::any_builder::Evaluation;
use gate_memory_builders::inputs::{LOOKUPS, lookups_of, trace};
use gate_memory_builders::over::{Call, over_recorder};
use gate_memory_builders::show::{Out, show};
use matrix::RowMajorMatrix;
use std::alloc::Global;

/// No preprocessed trace beside this one.
fn no_preprocessed<'a>(_main: &'a RowMajorMatrix<F7>) -> Option<&'a RowMajorMatrix<F7>>
    ensures { result ≡ None }
{
    None
}

/// The answer of the row checker. Over one field, since the AIR's builder borrows the inputs.
fn check_each_row<'a>(alloc: Global, inputs: &'a RowInputs<'a, F7, F7>) -> Result<(), AirError>
    requires preprocessed { OptionHeightFits (height inputs.now.main.now)
        (option_copied inputs.now.preprocessed) }
    requires permutation { HeightFits (height inputs.now.main.now) inputs.now.permutation.now }
{
    check_rows(alloc, &Zeros, inputs)
}

/// The row checker over a trace.
fn show_checked(alloc: Global, out: &mut Out, main: &RowMajorMatrix<F7>) {
    let inputs: RowInputs<'_, F7, F7> = RowInputs {
        main,
        preprocessed: no_preprocessed(main),
        public_values: &[],
        permutation: main,
        challenges: &[],
        permutation_values: &[],
    };
    show(out, "check_rows", check_each_row(alloc, &inputs));
    show(out, "input", main);
}

/// The row checker twice over a trace of zeros.
fn rows(alloc: Global, out: &mut Out) {
    if let Some(main) = trace(alloc, out, &[0; 6], 3) {
        show_checked(alloc, out, &main);
        show_checked(alloc, out, &main);
    }
}

/// All of them.
const EVALUATIONS: [Evaluation; 4] = [
    Evaluation::All,
    Evaluation::Accumulator,
    Evaluation::AirAndLookups,
    Evaluation::Fraction,
];

/// The evaluations of the lookups of a text, twice, and the row checker.
pub fn evaluations(alloc: Global, out: &mut Out) {
    if let Some(lookups) = lookups_of(alloc, out, LOOKUPS) {
        for _ in 0..2 {
            for evaluation in &EVALUATIONS {
                let call = Call::Evaluation(*evaluation);
                over_recorder::<F7, F7>(alloc, call, out, &[], lookups.as_slice());
            }
        }
        show(out, "input", &lookups);
    }
    rows(alloc, out);
}

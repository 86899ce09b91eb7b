ghost use Rattle.std.specs.Option.{option_copied};
ghost use Rattle.matrix.specs.Matrix.{height};
ghost use Rattle.air.specs.Row.{HeightFits, OptionHeightFits};

use crate::cases::{Answer, fails_at, passes};
use crate::machines::{Claim, Machine};
use crate::traces::{no_preprocessed, no_trace, trace_of};
use air::{Air, DebugConstraintBuilder, RowInputs, check_rows};
use field::F7;
use std::alloc::Global;

/// What a claim answers on a row of the inputs, or on all of them.
pub fn answer<'a>(
    alloc: Global,
    claim: Claim,
    inputs: &'a RowInputs<'a, F7, F7>,
    row: Option<usize>,
) -> Answer
    requires preprocessed { OptionHeightFits (height inputs.now.main.now)
        (option_copied inputs.now.preprocessed) }
    requires permutation { HeightFits (height inputs.now.main.now) inputs.now.permutation.now }
{
    let machine = Machine {
        width: inputs.main.width(),
        num_public_values: inputs.public_values.len(),
        claim,
    };
    match row {
        None => Some(check_rows(alloc, &machine, inputs)),
        Some(row) if row < inputs.main.height() => {
            let mut builder = DebugConstraintBuilder::new(inputs, row);
            Some(machine.eval(alloc, &mut builder))
        }
        Some(_) => None,
    }
}

/// What a claim answers on a row of a trace of this width, or on all of its rows.
pub fn answered(
    alloc: Global,
    claim: Claim,
    values: &[u32],
    width: usize,
    row: Option<usize>,
) -> Answer {
    let main = trace_of(alloc, values, width)?;
    let permutation = no_trace(alloc);
    let inputs: RowInputs<'_, F7, F7> = RowInputs {
        main: &main,
        preprocessed: no_preprocessed(&main),
        public_values: &[],
        permutation: &permutation,
        challenges: &[],
        permutation_values: &[],
    };
    answer(alloc, claim, &inputs, row)
}

/// What the counter answers on a trace of one column.
fn check_counts(alloc: Global, on_every_row: bool, values: &[u32]) -> Answer {
    answered(alloc, Claim::Counts { on_every_row }, values, 1, None)
}

#[test]
fn a_counter_is_checked_row_by_row(rt: HostRuntime) {
    let alloc = rt.alloc();
    fails_at(&rt, "a jump", check_counts(alloc, false, &[0, 1, 3]), 1);
    fails_at(&rt, "no way back", check_counts(alloc, true, &[0, 1, 2]), 2);
    passes(
        &rt,
        "a cycle",
        check_counts(alloc, true, &[0, 1, 2, 3, 4, 5, 6]),
    );
    passes(&rt, "three steps", check_counts(alloc, false, &[0, 1, 2]));
    passes(&rt, "no row", check_counts(alloc, false, &[]));
    // One row is first and last, has no step, and is its own next row.
    passes(&rt, "one row", check_counts(alloc, false, &[5]));
    fails_at(&rt, "one row, itself", check_counts(alloc, true, &[5]), 0);
}

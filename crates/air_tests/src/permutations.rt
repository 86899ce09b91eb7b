use crate::cases::{Answer, fails_at, holds, passes};
use crate::machines::Claim;
use crate::rows::answer;
use crate::traces::{no_preprocessed, no_trace, trace_of};
use air::{AirBuilder, DebugConstraintBuilder, RowInputs};
use field::{F7, PrimeCharacteristicRing};
use matrix::{RowMajorMatrix, WindowAccess};
use std::alloc::Global;

/// What the sum answers on a row of both traces.
fn asserted_on(
    alloc: Global,
    main: &RowMajorMatrix<F7>,
    permutation: &RowMajorMatrix<F7>,
    row: usize,
) -> Answer {
    if permutation.height() != main.height() {
        return None;
    }
    let inputs: RowInputs<'_, F7, F7> = RowInputs {
        main,
        preprocessed: Some(main),
        public_values: &[F7::new(3)],
        permutation,
        challenges: &[F7::new(4)],
        permutation_values: &[F7::new(2)],
    };
    answer(alloc, Claim::AddsUp, &inputs, Some(row))
}

fn asserted(alloc: Global, row: usize) -> Answer {
    let main = trace_of(alloc, &[1, 2, 3], 1)?;
    let permutation = trace_of(alloc, &[5, 6, 1], 1)?;
    asserted_on(alloc, &main, &permutation, row)
}

#[test]
fn permutation_windows_are_cyclic(rt: HostRuntime) {
    let alloc = rt.alloc();
    // 5 + 6 + 4 + 2 + 1 + 3 = 21, 6 + 1 + 4 + 2 + 2 + 3 = 18 and 1 + 5 + 4 + 2 + 3 + 3 = 18 modulo 7
    passes(&rt, "row 0", asserted(alloc, 0));
    fails_at(&rt, "row 1", asserted(alloc, 1), 1);
    fails_at(&rt, "row 2", asserted(alloc, 2), 2);
}

/// Whether the last of three rows is seen with the first one.
fn is_cyclic(main: &RowMajorMatrix<F7>) -> Option<bool> {
    if main.height() != 3 {
        return None;
    }
    let inputs: RowInputs<'_, F7, F7> = RowInputs {
        main,
        preprocessed: Some(main),
        public_values: &[],
        permutation: main,
        challenges: &[],
        permutation_values: &[],
    };
    let builder = DebugConstraintBuilder::new(&inputs, 2).clone().ok()?;
    let rows = builder.preprocessed();
    let is_wrapped = rows.current(0) == Some(F7::new(3)) && rows.next(0) == Some(F7::new(1));
    Some(is_wrapped && builder.is_last_row() == F7::ONE)
}

fn cyclic(alloc: Global) -> Option<bool> {
    is_cyclic(&trace_of(alloc, &[1, 2, 3], 1)?)
}

#[test]
fn preprocessed_windows_are_cyclic(rt: HostRuntime) {
    holds(&rt, "row 2", cyclic(rt.alloc()) == Some(true));
}

/// What is answered to the assertion that all cells of a trace are zero, on its first row.
fn all_asserted(alloc: Global, values: &[u32]) -> Answer {
    let main = trace_of(alloc, values, 1)?;
    if main.height() == 0 {
        return None;
    }
    let permutation = no_trace(alloc);
    let inputs: RowInputs<'_, F7, F7> = RowInputs {
        main: &main,
        preprocessed: no_preprocessed(&main),
        public_values: &[],
        permutation: &permutation,
        challenges: &[],
        permutation_values: &[],
    };
    let cells = Vec::from_slice(alloc, main.values()).ok()?;
    Some(DebugConstraintBuilder::new(&inputs, 0).assert_zeros(alloc, cells))
}

#[test]
fn one_assertion_for_each_of_a_list(rt: HostRuntime) {
    let alloc = rt.alloc();
    passes(&rt, "zeros", all_asserted(alloc, &[0, 7, 14]));
    fails_at(&rt, "a one", all_asserted(alloc, &[0, 1]), 0);
}

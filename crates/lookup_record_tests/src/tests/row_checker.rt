//! The row checker takes every push and every declaration, and records none.
ghost use Rattle.std.specs.Prelude.{◌≡◌, [], None};

use super::holds;
use air::{DebugConstraintBuilder, RowInputs};
use field::F7;
use lookup_record::{Count, IndexedLookupBuilder, InteractionBuilder, TraceWindow};
use matrix::RowMajorMatrix;
use std::alloc::Global;
use std::process::Abort;

type RowChecker<'a> = DebugConstraintBuilder<'a, F7, F7>;

/// Pushes one interaction of each kind, and declares a read and a table.
fn push_all(rt: &impl Abort, alloc: Global, builder: &mut RowChecker<'_>) {
    for answer in [
        builder.push_interaction(alloc, "a", Vec::new(alloc), Count::from(1)),
        builder.push_local_interaction(alloc, Vec::new(alloc)),
        builder.push_exclusive_interaction(alloc, "b", Vec::new(alloc)),
        builder.push_indexed_read(alloc, "t", 0, Vec::new(alloc)),
        builder.push_indexed_table(alloc, "t", TraceWindow::Main, Vec::new(alloc)),
    ] {
        answer.expect(rt, "taken");
    }
}

/// What a row checker counts.
fn counts(builder: &RowChecker<'_>) -> [usize; 5] {
    [
        builder.num_global_interactions(),
        builder.num_local_interactions(),
        builder.num_exclusive_interactions(),
        builder.num_indexed_reads(),
        builder.num_indexed_tables(),
    ]
}

/// A trace without columns.
fn no_trace(alloc: Global) -> RowMajorMatrix<F7>
    ensures { result ≡ record { values = []; width = 0 } }
{
    RowMajorMatrix::new(Vec::new(alloc), 0)
}

/// No preprocessed trace beside this one.
fn no_preprocessed<'a>(_main: &'a RowMajorMatrix<F7>) -> Option<&'a RowMajorMatrix<F7>>
    ensures { result ≡ None }
{
    None
}

#[test]
fn nothing_is_recorded(rt: HostRuntime) {
    let alloc = rt.alloc();
    let mut values = Vec::new(alloc);
    values.push(F7::new(3)).expect(&rt, "memory");
    let main = RowMajorMatrix::new(values, 1);
    assert!(rt; main.height() == 1);
    let permutation = no_trace(alloc);
    let inputs: RowInputs<'_, F7, F7> = RowInputs {
        main: &main,
        preprocessed: no_preprocessed(&main),
        public_values: &[],
        permutation: &permutation,
        challenges: &[],
        permutation_values: &[],
    };
    let mut builder = DebugConstraintBuilder::new(&inputs, 0);
    push_all(&rt, alloc, &mut builder);
    holds(&rt, "all counts", counts(&builder) == [0, 0, 0, 0, 0]);
}

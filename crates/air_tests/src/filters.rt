use crate::cases::{Answer, fails_at, passes};
use crate::machines::Claim;
use crate::rows::answered;
use std::alloc::Global;

/// What a claim answers on a row of a trace of two columns.
fn asserted(alloc: Global, values: &[u32], row: usize, claim: Claim) -> Answer {
    answered(alloc, claim, values, 2, Some(row))
}

#[test]
fn filters_multiply_over_an_extension(rt: HostRuntime) {
    let (alloc, rows) = (rt.alloc(), [1, 2, 3, 4]);
    let first = asserted(alloc, &rows, 0, Claim::OnLastRow(3));
    passes(&rt, "the first row", first);
    let zero = asserted(alloc, &rows, 1, Claim::OnLastRow(0));
    passes(&rt, "zero on the last row", zero);
    let last = asserted(alloc, &rows, 1, Claim::OnLastRow(3));
    fails_at(&rt, "the last row", last, 1);
}

//! Checksums of auxiliary traces.

use bench_shapes::element;
use field_monty::BabyBear4;
use lookup::LookupTerminal;
use matrix::RowMajorMatrix;

/// The checksum so far, taken over the cells of one AIR, row after row, and its terminal.
pub(crate) fn checksum(
    before: BabyBear4,
    aux: &RowMajorMatrix<BabyBear4>,
    terminal: &Option<LookupTerminal<BabyBear4>>,
) -> BabyBear4 {
    let point = element([2, 3, 5, 7]);
    let mut sum = before;
    for x in aux.values() {
        sum = sum * point + *x;
    }
    match terminal {
        Some(terminal) => sum * point + terminal.0,
        None => sum,
    }
}

//! Witnesses of one AIR, whose one lookup is local.
use super::{checked, expect_made, holds, instance, range, table, terminal, trace};
use field::{F7, PrimeCharacteristicRing};
use lookup::{LookupError, LookupTerminal};
use matrix::RowMajorMatrix;
use std::alloc::Global;
use std::process::Abort;

/// The answer to a witness of the rows `3 4 1` and `4 3 1`, each of which provides what the other
/// reads, at alpha 5 and beta 2.
fn answer(
    rt: &impl Abort,
    alloc: Global,
    cells: &[u32],
    width: usize,
    terminal: Option<LookupTerminal<F7>>,
) -> Result<(), LookupError> {
    let main = trace(rt, alloc, &[3, 4, 1, 4, 3, 1], 3);
    let lookups = [range(rt, alloc)];
    let instances = [instance(lookups.as_slice(), &main, &[0])];
    let challenges = table(rt, alloc, 5, 2, 1);
    let (aux, terminals) = ([trace(rt, alloc, cells, width)], [terminal]);
    let (aux, terminals) = (aux.as_slice(), terminals.as_slice());
    checked(rt, alloc, instances.as_slice(), &challenges, aux, terminals)
}

/// Fails unless such a witness is refused for this.
fn expect_refusal(
    rt: &impl Abort,
    alloc: Global,
    cells: &[u32],
    width: usize,
    terminal: Option<LookupTerminal<F7>>,
    refusal: LookupError,
) {
    let refused = answer(rt, alloc, cells, width, terminal);
    assert!(rt; refused == Err(refusal));
}

/// The refusal of AIR 0 without its terminal.
fn absent() -> LookupError {
    LookupError::TerminalPresenceMismatch {
        air: 0,
        expected_present: true,
        got_present: false,
    }
}

#[test]
fn each_refusal_of_a_witness(rt: HostRuntime) {
    let alloc = rt.alloc();
    let cells: &[u32] = &[0, 4, 4, 3];
    let good = answer(&rt, alloc, cells, 2, terminal(0));
    holds(&rt, "accepted", good.is_ok());
    let failed = LookupError::ConstraintFailed { air: 0, row: 1 };
    expect_refusal(&rt, alloc, &[0, 4, 4, 4], 2, terminal(0), failed);
    let narrow = LookupError::PermutationWidthMismatch {
        air: 0,
        expected: 2,
    };
    expect_refusal(&rt, alloc, &[0, 4], 1, terminal(0), narrow);
    let low = LookupError::PermutationHeightMismatch { air: 0 };
    expect_refusal(&rt, alloc, &[0, 4], 2, terminal(0), low);
    let high = LookupError::PermutationHeightMismatch { air: 0 };
    expect_refusal(&rt, alloc, &[0, 4, 4, 3, 0, 0], 2, terminal(0), high);
    let failed = LookupError::ConstraintFailed { air: 0, row: 1 };
    expect_refusal(&rt, alloc, cells, 2, terminal(1), failed);
    expect_refusal(&rt, alloc, cells, 2, None, absent());
    expect_refusal(&rt, alloc, &[0, 4], 1, None, absent());
}

/// Each of the four cells and the terminal, with each other value: the accumulators and the first fraction
/// are refused at row 0, the last fraction and the terminal at row 1.
#[test]
fn each_changed_cell_is_refused(rt: HostRuntime) {
    let alloc = rt.alloc();
    for (index, row) in [(0usize, 0usize), (1, 0), (2, 0), (3, 1), (4, 1)] {
        assert!(rt; index < 5);
        for more in 1..7u32 {
            let mut changed = [0u32, 4, 4, 3, 0];
            changed[index] = (changed[index].saturating_add(more)) % 7;
            let last = terminal(changed[4]);
            let refused = answer(&rt, alloc, &changed[..4], 2, last);
            let failed = LookupError::ConstraintFailed { air: 0, row };
            holds(&rt, "a changed witness", refused == Err(failed));
        }
    }
}

#[test]
fn a_zero_multiplicity_over_a_vanishing_denominator(rt: HostRuntime) {
    let alloc = rt.alloc();
    let main = trace(&rt, alloc, &[4, 3, 0], 3);
    let lookups = [range(&rt, alloc)];
    let instances = [instance(lookups.as_slice(), &main, &[0])];
    let instances = instances.as_slice();
    let challenges = table(&rt, alloc, 1, 2, 1);
    let results: [(&[u32], u32); 1] = [(&[0, 6], 6)];
    let refused = Err(LookupError::TerminalSumNonZero);
    expect_made(
        &rt,
        alloc,
        instances,
        &challenges,
        results.as_slice(),
        refused,
    );
    let (free, terminals) = ([trace(&rt, alloc, &[0, 0], 2)], [terminal(0)]);
    let (free, terminals) = (free.as_slice(), terminals.as_slice());
    let accepted = checked(&rt, alloc, instances, &challenges, free, terminals);
    holds(&rt, "another satisfied witness", accepted.is_ok());
}

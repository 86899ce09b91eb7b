//! Witnesses of one AIR under challenges of a prover's own.
use super::{holds, instance, range, terminal, trace};
use air::{AirLayout, Traces};
use checker::{
    BatchInstance, check_columns, check_in_columns, check_shape, columns_hold_until, instance_fits,
};
use field::{F7, PrimeCharacteristicRing};
use lookup::{Lookup, LookupError, LookupTerminal};
use lookup_model::fits;
use matrix::RowMajorMatrix;
use std::alloc::Global;
use std::process::Abort;

/// The answer under these challenges to a witness over traces that lookups have to fit.
fn checked(
    rt: &impl Abort,
    alloc: Global,
    main: &RowMajorMatrix<F7>,
    lookups: &[Lookup<F7>],
    challenges: &[F7],
    aux: &RowMajorMatrix<F7>,
    terminal: &Option<LookupTerminal<F7>>,
) -> Result<(), LookupError> {
    let traces = Traces {
        main,
        preprocessed: None,
        public_values: &[],
    };
    let layout = AirLayout::of_traces(main, None, &[]);
    assert!(rt; fits(lookups, &layout) && lookups.len() == 1 && challenges.len() >= 2);
    assert!(rt; main.height() > 0);
    check_columns(alloc, &traces, lookups, challenges, aux, terminal)
}

/// The answer over the rows `3 4 1` and `4 3 1`, each of which provides what the other reads.
fn answer(
    rt: &impl Abort,
    alloc: Global,
    challenges: &[u32],
    cells: &[u32],
    width: usize,
    last: Option<LookupTerminal<F7>>,
) -> Result<(), LookupError> {
    let main = trace(rt, alloc, &[3, 4, 1, 4, 3, 1], 3);
    let lookups = [range(rt, alloc)];
    let aux = trace(rt, alloc, cells, width);
    let mut given = Vec::new(alloc);
    for challenge in challenges {
        given.push(F7::from_u32(*challenge)).expect(rt, "memory");
    }
    checked(
        rt,
        alloc,
        &main,
        lookups.as_slice(),
        given.as_slice(),
        &aux,
        &last,
    )
}

/// Under the prefix 0 the fractions are 1/(0 - 3) - 1/(0 - 4) = 4 and 3, and under 2 they are
/// 1/(2 - 3) - 1/(2 - 4) = 3 and 4, all modulo 7. A third challenge is ignored.
#[test]
fn a_witness_under_given_challenges(rt: HostRuntime) {
    let alloc = rt.alloc();
    let zero: &[u32] = &[0, 4, 4, 3];
    let two: &[u32] = &[0, 3, 3, 4];
    let failed = Err(LookupError::ConstraintFailed { air: 0, row: 0 });
    let under = answer(&rt, alloc, &[0, 2], zero, 2, terminal(0));
    holds(&rt, "under 0", under.is_ok());
    let under = answer(&rt, alloc, &[2, 2, 5], two, 2, terminal(0));
    holds(&rt, "under 2", under.is_ok());
    let other = answer(&rt, alloc, &[2, 2], zero, 2, terminal(0));
    holds(&rt, "that of 0 under 2", other == failed);
    let other = answer(&rt, alloc, &[0, 2], two, 2, terminal(0));
    holds(&rt, "that of 2 under 0", other == failed);
}

#[test]
fn each_refusal_under_given_challenges(rt: HostRuntime) {
    let alloc = rt.alloc();
    let cells: &[u32] = &[0, 4, 4, 3];
    let absent = LookupError::TerminalPresenceMismatch {
        air: 0,
        expected_present: true,
        got_present: false,
    };
    let refused = answer(&rt, alloc, &[0, 2], cells, 2, None);
    holds(&rt, "no terminal", refused == Err(absent));
    let narrow = LookupError::PermutationWidthMismatch {
        air: 0,
        expected: 2,
    };
    let refused = answer(&rt, alloc, &[0, 2], &[0, 4], 1, terminal(0));
    holds(&rt, "one column", refused == Err(narrow));
    let low = LookupError::PermutationHeightMismatch { air: 0 };
    let refused = answer(&rt, alloc, &[0, 2], &[0, 4], 2, terminal(0));
    holds(&rt, "one row", refused == Err(low));
    let failed = LookupError::ConstraintFailed { air: 0, row: 1 };
    let refused = answer(&rt, alloc, &[0, 2], cells, 2, terminal(1));
    holds(&rt, "another terminal", refused == Err(failed));
}

/// Up to which of the rows from `first` up to `end` the constraints of one lookup hold under these challenges.
fn until(
    rt: &impl Abort,
    alloc: Global,
    air: &BatchInstance<'_, F7>,
    challenges: &[F7],
    aux: &RowMajorMatrix<F7>,
    terminal: &Option<LookupTerminal<F7>>,
    (first, end): (usize, usize),
) -> usize {
    assert!(rt; instance_fits(air) && air.lookups.len() == 1 && challenges.len() >= 2);
    assert!(rt; first <= end && end <= air.main.height());
    match check_shape(5, air, aux, terminal) {
        Ok(()) => {
            columns_hold_until(alloc, air, challenges, aux, terminal, first, end).expect(
                rt, "memory",
            )
        }
        Err(_) => panic!(rt; "another shape"),
    }
}

/// The answer of AIR 5, which has one lookup, to a witness under these challenges.
fn checked_as_fifth(
    rt: &impl Abort,
    alloc: Global,
    air: &BatchInstance<'_, F7>,
    challenges: &[F7],
    aux: &RowMajorMatrix<F7>,
    terminal: &Option<LookupTerminal<F7>>,
) -> Result<(), LookupError> {
    assert!(rt; instance_fits(air) && air.lookups.len() == 1 && challenges.len() >= 2);
    check_in_columns(alloc, 5, air, challenges, aux, terminal)
}

/// The rows 1 and 2 of four under given challenges: the fractions 3 and 4 of the prefix 2 twice, so that the
/// accumulators are 0, 3, 0 and 3 modulo 7. Another accumulator on row 2 fails on row 1, which leads to it.
#[test]
fn rows_under_given_challenges(rt: HostRuntime) {
    let alloc = rt.alloc();
    let main = trace(&rt, alloc, &[3, 4, 1, 4, 3, 1, 3, 4, 1, 4, 3, 1], 3);
    let lookups = [range(&rt, alloc)];
    let air = instance(lookups.as_slice(), &main, &[0]);
    let challenges = [F7::new(2), F7::new(2)];
    let challenges = challenges.as_slice();
    let last = terminal(0);
    let right = trace(&rt, alloc, &[0, 3, 3, 4, 0, 3, 3, 4], 2);
    let wrong = trace(&rt, alloc, &[0, 3, 3, 4, 1, 3, 3, 4], 2);
    let row = until(&rt, alloc, &air, challenges, &right, &last, (1, 3));
    holds(&rt, "both", row == 3);
    let row = until(&rt, alloc, &air, challenges, &wrong, &last, (1, 3));
    holds(&rt, "another accumulator", row == 1);
    let whole = checked_as_fifth(&rt, alloc, &air, challenges, &right, &last);
    holds(&rt, "all rows", whole.is_ok());
    let failed = LookupError::ConstraintFailed { air: 5, row: 1 };
    let whole = checked_as_fifth(&rt, alloc, &air, challenges, &wrong, &last);
    holds(&rt, "of air 5", whole == Err(failed));
}

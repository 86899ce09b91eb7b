//! Exclusive lookups: which branch a row sends, and which faults it can have.
use super::{Made, alone, are_numbers, generate, group, holds, list, local, pair, trace};
use air::{Expression, SymbolicExpression};
use field::{F2, F7, Field, PrimeCharacteristicRing};
use lookup::{Lookup, LookupError};
use std::alloc::Global;
use std::process::Abort;

/// The constant of a number.
fn number<F: Field>(number: u32) -> SymbolicExpression<F> {
    SymbolicExpression::constant(F::from_u32(number))
}

/// An exclusive lookup of constants: a flag, a count and a key for each branch.
fn constants<F: Field>(rt: &impl Abort, alloc: Global, branches: &[[u32; 3]]) -> Lookup<F> {
    let mut elements = Vec::new(alloc);
    let mut multiplicities = Vec::new(alloc);
    let mut flags = Vec::new(alloc);
    for branch in branches {
        let [flag, count, key] = *branch;
        elements
            .push(alone(rt, alloc, number(key)))
            .expect(rt, "memory");
        multiplicities.push(number(count)).expect(rt, "memory");
        flags.push(number(flag)).expect(rt, "memory");
    }
    let mut lookup = local(elements, multiplicities, 0);
    lookup.flags = Some(flags);
    lookup
}

/// What generation makes of a lookup over these rows, at a prefix and beta 2.
fn made_at<F: Field>(
    rt: &impl Abort,
    alloc: Global,
    rows: &[u32],
    width: usize,
    lookup: Lookup<F>,
    prefix: u32,
) -> Result<Made<F>, LookupError> {
    let main = trace::<F>(rt, alloc, rows, width);
    let lookups = alone(rt, alloc, lookup);
    let challenges = pair(rt, alloc, F::from_u32(prefix), F::from_u32(2));
    generate(rt, alloc, &main, lookups.as_slice(), challenges.as_slice())
}

/// Fails unless the auxiliary cells end with these.
fn ends_with(rt: &impl Abort, what: &str, made: &Made<F7>, cells: &[u32]) {
    let values = made.auxiliary.values();
    assert!(rt; cells.len() <= values.len());
    let start = values.len() - cells.len();
    holds(rt, what, are_numbers(&values[start..], cells));
}

/// The rows select the first tuple, the second, none, the first, the second and the first. At the
/// prefix 0 a key x has the denominator -x: 1 / -1 = 6, 1 / -2 = 3 and 1 / -3 = 2. A key of 0 would
/// vanish, and stands only where its flag is not set.
#[test]
fn each_row_sends_its_own_branch(rt: HostRuntime) {
    let alloc = rt.alloc();
    let rows = [
        1, 1, 0, 2, 0, 1, 1, 2, 0, 5, 0, 4, 1, 3, 0, 1, 0, 0, 1, 1, 1, 2, 0, 0,
    ];
    let lookup = group(&rt, alloc, 2, 0);
    let made = made_at::<F7>(&rt, alloc, rows.as_slice(), 4, lookup, 0).expect(&rt, "no fault");
    let expected = [0, 6, 6, 3, 2, 0, 2, 2, 4, 6, 3, 3];
    ends_with(&rt, "the trace", &made, expected.as_slice());
    holds(&rt, "the terminal", made.terminal == Some(F7::new(6)));
}

/// Rows of two chunks select their branches. Rows 0 to 1023 send 1 by the first flag and 2 by the
/// second in turn: 512 * 6 + 512 * 3 = 4608 = 2. Row 1024 sends 3 by the first flag: 2 + 2 = 4.
#[test]
fn branches_in_two_chunks(rt: HostRuntime) {
    let alloc = rt.alloc();
    let mut rows = Vec::new(alloc);
    for _ in 0..512 {
        rows.extend_from_slice(&[1, 1, 0, 0, 0, 0, 1, 2])
            .expect(&rt, "memory");
    }
    rows.extend_from_slice(&[1, 3, 0, 0]).expect(&rt, "memory");
    let lookup = group(&rt, alloc, 2, 0);
    let made = made_at::<F7>(&rt, alloc, rows.as_slice(), 4, lookup, 0).expect(&rt, "no fault");
    holds(&rt, "the cells", made.auxiliary.values().len() == 2050);
    ends_with(&rt, "where chunks meet", &made, &[0, 6, 6, 3, 2, 2]);
    holds(&rt, "the terminal", made.terminal == Some(F7::new(4)));
}

/// A denominator that vanishes in the first row of the first lookup.
const VANISHING: LookupError = LookupError::VanishingDenominator { row: 0, lookup: 0 };

/// A flag there that is neither zero nor one.
const NOT_BOOLEAN: LookupError = LookupError::FlagNotBoolean { row: 0, lookup: 0 };

/// More than one set flag there.
const NOT_EXCLUSIVE: LookupError = LookupError::FlagsNotExclusive { row: 0, lookup: 0 };

/// Fails unless one row of these branches, each a flag, a count and a key, has this fault at a prefix;
/// or the fraction and the terminal zero where there is none.
fn expect<F: Field>(
    rt: &impl Abort,
    alloc: Global,
    what: &str,
    branches: &[[u32; 3]],
    prefix: u32,
    fault: Option<LookupError>,
) {
    let lookup = constants(rt, alloc, branches);
    match made_at::<F>(rt, alloc, &[0], 1, lookup, prefix) {
        Ok(made) => {
            let is_zero = are_numbers(made.auxiliary.values(), &[0, 0]);
            holds(rt, what, fault.is_none() && is_zero);
            holds(rt, what, made.terminal == Some(F::ZERO));
        }
        Err(error) => holds(rt, what, fault == Some(error)),
    }
}

/// A count of zero does not save a selected key on its point. Set flags are counted as whole numbers:
/// three of them are one modulo 2.
#[test]
fn one_row_of_branches(rt: HostRuntime) {
    let alloc = rt.alloc();
    let three: &[[u32; 3]] = &[[1, 1, 0], [1, 1, 0], [1, 1, 0]];
    let fault = Some(NOT_EXCLUSIVE);
    expect::<F2>(&rt, alloc, "three of F2", three, 1, fault);
    let zero: &[[u32; 3]] = &[[1, 0, 3]];
    expect::<F7>(&rt, alloc, "on its point", zero, 3, Some(VANISHING));
    expect::<F7>(&rt, alloc, "a count of zero", zero, 4, None);
    let idle: &[[u32; 3]] = &[[0, 0, 3], [0, 1, 3]];
    expect::<F7>(&rt, alloc, "no flag is set", idle, 3, None);
    expect::<F7>(&rt, alloc, "no branches", &[], 3, None);
    let two: &[[u32; 3]] = &[[1, 1, 3], [1, 1, 3], [2, 1, 3]];
    let fault = Some(NOT_BOOLEAN);
    expect::<F7>(&rt, alloc, "2 in the last place", two, 3, fault);
    let both: &[[u32; 3]] = &[[1, 1, 3], [0, 1, 3], [1, 1, 3]];
    let fault = Some(NOT_EXCLUSIVE);
    expect::<F7>(&rt, alloc, "the first and the last", both, 3, fault);
}

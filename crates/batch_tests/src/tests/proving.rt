//! Witnesses that plans make and check, by values calculated by hand.
use super::{alone, cell, has_result, holds, kind, trace};
use air::{Expression, SymbolicExpression};
use batch::{BatchError, BatchPlan, Witness};
use field::{F7, Field, PrimeCharacteristicRing};
use field_monty::{BabyBear, BabyBear4};
use lookup::{Kind, Lookup, LookupError, LookupTerminal, Lookups};
use std::alloc::Global;
use std::process::Abort;

/// The set of the lookup that reads cell 0, and provides cell 1 as often as cell 2 says.
pub(super) fn range_set<F: Field>(rt: &impl Abort, alloc: Global) -> Lookups<F> {
    let mut elements = Vec::new(alloc);
    for column in 0..2 {
        // over any field no size of an array is known, so the tuple grows by a push
        let mut tuple = Vec::new(alloc);
        tuple.push(cell(column)).expect(rt, "memory");
        elements.push(tuple).expect(rt, "memory");
    }
    let once = SymbolicExpression::constant(F::ONE);
    let taken = cell::<F>(2).neg(alloc).expect(rt, "memory");
    let mut multiplicities = Vec::new(alloc);
    multiplicities.push(once).expect(rt, "memory");
    multiplicities.push(taken).expect(rt, "memory");
    let lookup = Lookup {
        kind: Kind::Local,
        elements,
        multiplicities,
        count_weight: 1,
        column: 0,
        flags: None,
    };
    let records = Vec::from_array(alloc, [lookup]).expect(rt, "memory");
    Lookups::from_records(alloc, records).expect(rt, "well formed")
}

/// The plan of one AIR with this set.
pub(super) fn range_plan<F: Field>(rt: &impl Abort, alloc: Global, height: usize) -> BatchPlan<F> {
    let airs = Vec::from_array(alloc, [range_set(rt, alloc)]).expect(rt, "memory");
    let heights = Vec::from_array(alloc, [height]).expect(rt, "memory");
    BatchPlan::new(alloc, airs, heights).expect(rt, "a plan")
}

/// The set of a group on a bus: the keys of cells 1 and 3 under the flags of cells 0 and 2.
fn group_set(rt: &impl Abort, alloc: Global) -> Lookups<F7> {
    let first = Vec::from_array(alloc, [cell(1)]).expect(rt, "memory");
    let second = Vec::from_array(alloc, [cell(3)]).expect(rt, "memory");
    let ones = [
        SymbolicExpression::constant(F7::ONE),
        SymbolicExpression::constant(F7::ONE),
    ];
    let lookup = Lookup {
        kind: kind(rt, alloc, Some("keys")),
        elements: Vec::from_array(alloc, [first, second]).expect(rt, "memory"),
        multiplicities: Vec::from_array(alloc, ones).expect(rt, "memory"),
        count_weight: 1,
        column: 0,
        flags: Some(Vec::from_array(alloc, [cell(0), cell(2)]).expect(rt, "memory")),
    };
    let records = Vec::from_array(alloc, [lookup]).expect(rt, "memory");
    Lookups::from_records(alloc, records).expect(rt, "well formed")
}

/// The plan of so many AIRs of one row, each with such a group.
pub(super) fn group_plan(rt: &impl Abort, alloc: Global, count: usize) -> BatchPlan<F7> {
    let (mut airs, mut heights) = (Vec::new(alloc), Vec::new(alloc));
    for _ in 0..count {
        airs.push(group_set(rt, alloc)).expect(rt, "memory");
        heights.push(1).expect(rt, "memory");
    }
    BatchPlan::new(alloc, airs, heights).expect(rt, "a plan")
}

/// The fault of the plan of a group over this row, at the prefix 0, if it has one.
fn fault_of(rt: &impl Abort, alloc: Global, row: &[u32]) -> Option<BatchError> {
    let main = trace(rt, alloc, row, 4);
    let (alpha, beta) = (F7::from_u32(5), F7::from_u32(2));
    group_plan(rt, alloc, 1)
        .prove(alloc, &[alone(&main)], alpha, beta)
        .err()
}

/// Flags that are not zero or one, two flags that are set, and one.
#[test]
fn flags_of_a_group(rt: HostRuntime) {
    let alloc = rt.alloc();
    let error = LookupError::FlagNotBoolean { row: 0, lookup: 0 };
    let two = fault_of(&rt, alloc, &[2, 3, 0, 5]) == Some(BatchError::Air { air: 0, error });
    holds(&rt, "a flag of 2", two);
    let error = LookupError::FlagsNotExclusive { row: 0, lookup: 0 };
    let both = fault_of(&rt, alloc, &[1, 3, 1, 5]) == Some(BatchError::Air { air: 0, error });
    holds(&rt, "both set", both);
    let one = fault_of(&rt, alloc, &[1, 3, 0, 5]).is_none();
    holds(&rt, "one set", one);
}

/// The rows of the range machine of which each provides what the other reads.
pub(super) const BALANCED: [u32; 6] = [3, 4, 1, 4, 3, 1];

/// At the prefix 0 the fractions of these rows are 4 and 3.
#[test]
fn rows_that_balance(rt: HostRuntime) {
    let alloc = rt.alloc();
    let plan = range_plan::<F7>(&rt, alloc, 2);
    let main = trace(&rt, alloc, BALANCED.as_slice(), 3);
    let traces = [alone(&main)];
    let (alpha, beta) = (F7::from_u32(5), F7::from_u32(2));
    let made = plan.prove(alloc, traces.as_slice(), alpha, beta);
    let made = made.expect(&rt, "no fault");
    let cells = [0, 4, 4, 3].map(F7::new);
    let right = has_result(&made, 0, cells.as_slice(), F7::ZERO);
    holds(&rt, "the result", right);
    let answer = plan.verify(alloc, traces.as_slice(), alpha, beta, &made);
    holds(&rt, "accepted", answer.is_ok());
}

/// A witness of these matrices of width 2 and these terminals.
pub(super) fn witness(
    rt: &impl Abort,
    alloc: Global,
    matrices: &[&[u32]],
    terminals: &[Option<u32>],
) -> Witness<F7> {
    let (mut aux, mut last) = (Vec::new(alloc), Vec::new(alloc));
    for cells in matrices {
        aux.push(trace(rt, alloc, cells, 2)).expect(rt, "memory");
    }
    for value in terminals {
        let terminal = match value {
            Some(number) => Some(LookupTerminal(F7::from_u32(*number))),
            None => None,
        };
        last.push(terminal).expect(rt, "memory");
    }
    Witness {
        aux,
        terminals: last,
    }
}

/// Fails unless such a witness of these rows is refused for this, by the plan of two rows of the range
/// machine.
fn expect_refusal(
    rt: &impl Abort,
    alloc: Global,
    rows: &[u32],
    matrices: &[&[u32]],
    terminals: &[Option<u32>],
    refusal: BatchError,
) {
    let main = trace(rt, alloc, rows, 3);
    let given = witness(rt, alloc, matrices, terminals);
    let (alpha, beta) = (F7::from_u32(5), F7::from_u32(2));
    let answer = range_plan::<F7>(rt, alloc, 2).verify(alloc, &[alone(&main)], alpha, beta, &given);
    assert!(rt; answer == Err(refusal));
}

/// Traces are checked first, then the number of matrices, that of terminals, and the cells.
#[test]
fn the_first_refusal_of_a_witness(rt: HostRuntime) {
    let alloc = rt.alloc();
    let rows = BALANCED.as_slice();
    let failed = LookupError::ConstraintFailed { air: 0, row: 1 };
    let failed = BatchError::Lookup(failed);
    expect_refusal(&rt, alloc, rows, &[&[0, 4, 4, 4]], &[Some(0)], failed);
    let few = BatchError::LengthMismatch {
        expected: 1,
        actual: 0,
    };
    expect_refusal(&rt, alloc, rows, &[&[0, 4, 4, 4]], &[], few);
    let few = BatchError::LengthMismatch {
        expected: 1,
        actual: 0,
    };
    expect_refusal(&rt, alloc, rows, &[], &[None, None], few);
    let unfit = BatchError::TraceMismatch { air: 0 };
    expect_refusal(&rt, alloc, &rows[..3], &[], &[None, None], unfit);
}

/// The element of these coefficients.
fn element(coefficients: [u32; 4]) -> BabyBear4 {
    BabyBear4::new(coefficients.map(BabyBear::new))
}

/// The row `0 1 0` at alpha `X` and beta 0: the fraction is `1 / X`, which is `X^3 / 11`.
#[test]
fn a_witness_over_the_quartic_extension(rt: HostRuntime) {
    let alloc = rt.alloc();
    let plan = range_plan::<BabyBear>(&rt, alloc, 1);
    let main = trace(&rt, alloc, &[0, 1, 0], 3);
    let traces = [alone(&main)];
    let (alpha, beta) = (element([0, 1, 0, 0]), BabyBear4::ZERO);
    let made = plan.prove(alloc, traces.as_slice(), alpha, beta);
    let made = made.expect(&rt, "no fault");
    let value = element([0, 0, 0, 549072524]);
    let cells = [BabyBear4::ZERO, value];
    let right = has_result(&made, 0, cells.as_slice(), value);
    holds(&rt, "the result", right);
    let answer = plan.verify(alloc, traces.as_slice(), alpha, beta, &made);
    let unbalanced = BatchError::Lookup(LookupError::TerminalSumNonZero);
    holds(&rt, "unbalanced", answer == Err(unbalanced));
}

/// Without AIRs the witness is empty, and accepted.
#[test]
fn no_air(rt: HostRuntime) {
    let alloc = rt.alloc();
    let plan = BatchPlan::<F7>::new(alloc, Vec::new(alloc), Vec::new(alloc)).expect(&rt, "a plan");
    holds(&rt, "no ids", plan.ids().is_empty() && plan.num_ids() == 0);
    holds(&rt, "width 1", plan.max_message_width() == 1);
    let made = plan
        .prove(alloc, &[], F7::ONE, F7::ONE)
        .expect(&rt, "no fault");
    let accepted = plan.verify(alloc, &[], F7::ONE, F7::ONE, &made).is_ok();
    holds(&rt, "accepted", accepted);
}

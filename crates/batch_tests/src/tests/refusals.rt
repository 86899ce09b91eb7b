//! Why plans and traces are refused.
use super::{Shape, alone, has_result, holds, plan, trace};
use air::{BaseEntry, BaseLeaf, SymbolicExpression, SymbolicVariable};
use batch::{BatchError, BatchFault, BatchPlan, BatchTrace};
use field::{F2, F7, PrimeCharacteristicRing};
use field_monty::BabyBear;
use lookup::{Kind, Lookup, LookupError, Lookups};
use matrix::RowMajorMatrix;
use std::alloc::Global;
use std::process::Abort;

pub(super) fn text(rt: &impl Abort, alloc: Global, name: &str) -> String {
    String::from_str(alloc, name).expect(rt, "memory")
}

/// The refusal of weights times heights.
pub(super) fn heavy(sum: u128, bits: usize) -> BatchError {
    BatchError::Lookup(LookupError::MultiplicityHeightBoundExceeded {
        weighted_height_sum: sum,
        field_bits: bits,
    })
}

/// The refusal of a plan over `F7`, and what it has to be.
fn refuses(
    rt: &impl Abort,
    alloc: Global,
    sets: &[&[Shape<'_>]],
    weight: u64,
    heights: &[usize],
    wanted: BatchError,
) {
    let refused = plan::<F7>(rt, alloc, sets, weight, heights).err();
    assert!(rt; refused == Some(wanted));
}

#[test]
fn the_first_check_that_fails(rt: HostRuntime) {
    let alloc = rt.alloc();
    let one: &[usize] = &[1];
    let two: &[usize] = &[2];
    let uneven: &[usize] = &[1, 2];
    let few = BatchError::LengthMismatch {
        expected: 2,
        actual: 1,
    };
    refuses(&rt, alloc, &[&[], &[]], 0, &[1], few);
    let bus = LookupError::BusWidthMismatch {
        bus: text(&rt, alloc, "a"),
        expected: 1,
        actual: 2,
    };
    let sets: &[&[Shape<'_>]] = &[&[(Some("a"), one)], &[(None, uneven), (Some("a"), two)]];
    refuses(&rt, alloc, sets, 0, &[1, 1], BatchError::Lookup(bus));
    let local = LookupError::TupleWidths {
        context: text(&rt, alloc, "air 1 local lookup 0"),
        width: 1,
        other: 2,
    };
    let sets: &[&[Shape<'_>]] = &[&[(Some("a"), one)], &[(None, uneven), (Some("a"), one)]];
    refuses(&rt, alloc, sets, 7, &[1, 1], BatchError::Lookup(local));
}

/// More ids than `F7` has whole numbers come before weights times heights.
#[test]
fn plans_that_do_not_fit_the_field(rt: HostRuntime) {
    let alloc = rt.alloc();
    let one: &[usize] = &[1];
    let eight: [Shape<'_>; 8] = [(None, one); 8];
    let many = BatchError::TooManyIds { ids: 8 };
    refuses(&rt, alloc, &[eight.as_slice()], 7, &[1], many);
    refuses(&rt, alloc, &[&eight[..7]], 1, &[1], heavy(7, 3));
    refuses(&rt, alloc, &[&eight[..1]], 1, &[7], heavy(7, 3));
    let fits = plan::<F7>(&rt, alloc, &[&eight[..1]], 1, &[6]).is_ok();
    holds(&rt, "a sum of six", fits);
}

#[test]
fn refusals_over_other_fields(rt: HostRuntime) {
    let alloc = rt.alloc();
    let one: &[usize] = &[1];
    let three: &[Shape<'_>] = &[(None, one), (None, one), (None, one)];
    let many = plan::<F2>(&rt, alloc, &[three], 0, &[1]).err();
    holds(
        &rt,
        "three ids in F2",
        many == Some(BatchError::TooManyIds { ids: 3 }),
    );
    let two = plan::<F2>(&rt, alloc, &[&three[..2]], 0, &[1]).is_ok();
    holds(&rt, "two ids in F2", two);
    let light = plan::<BabyBear>(&rt, alloc, &[&[(None, one)]], 4294967296, &[1]).err();
    holds(
        &rt,
        "a weight of 2^32",
        light == Some(heavy(4294967296, 31)),
    );
}

/// Fails unless a plan refuses these traces for this.
fn expect_unfit(
    rt: &impl Abort,
    alloc: Global,
    plan: &BatchPlan<F7>,
    traces: &[BatchTrace<'_, F7>],
    refusal: BatchError,
) {
    let (alpha, beta) = (F7::from_u32(5), F7::from_u32(2));
    let refused = plan.prove(alloc, traces, alpha, beta).err();
    assert!(rt; refused == Some(refusal));
}

/// Traces that are not as many as AIRs, and the first that does not fit: of an AIR without lookups, and of
/// the one with a lookup, where the height alone is too small or too large. A plan of no rows takes no
/// traces.
#[test]
fn the_first_trace_that_does_not_fit(rt: HostRuntime) {
    let alloc = rt.alloc();
    let one: &[usize] = &[1];
    let made = plan::<F7>(&rt, alloc, &[&[], &[(None, one)]], 1, &[1, 2]).expect(&rt, "a plan");
    let (low, high) = (trace(&rt, alloc, &[1], 1), trace(&rt, alloc, &[1, 2], 1));
    let higher = trace(&rt, alloc, &[1, 2, 3], 1);
    let few = BatchError::LengthMismatch {
        expected: 2,
        actual: 1,
    };
    expect_unfit(&rt, alloc, &made, &[alone(&low)], few);
    let first = BatchError::TraceMismatch { air: 0 };
    expect_unfit(&rt, alloc, &made, &[alone(&high), alone(&low)], first);
    let second = BatchError::TraceMismatch { air: 1 };
    expect_unfit(&rt, alloc, &made, &[alone(&low), alone(&low)], second);
    let second = BatchError::TraceMismatch { air: 1 };
    expect_unfit(&rt, alloc, &made, &[alone(&low), alone(&higher)], second);
}

#[test]
fn a_trace_without_rows_does_not_fit(rt: HostRuntime) {
    let alloc = rt.alloc();
    let one: &[usize] = &[1];
    let none = plan::<F7>(&rt, alloc, &[&[(None, one)]], 1, &[0]).expect(&rt, "a plan");
    let no_rows = trace(&rt, alloc, &[], 1);
    let unfit = BatchError::TraceMismatch { air: 0 };
    expect_unfit(&rt, alloc, &none, &[alone(&no_rows)], unfit);
}

/// The plan of one lookup of a preprocessed cell and a public value, over two rows.
fn fixed_plan(rt: &impl Abort, alloc: Global) -> BatchPlan<F7> {
    let entry = BaseEntry::Preprocessed { offset: 0 };
    let fixed = SymbolicExpression::Leaf(BaseLeaf::Variable(SymbolicVariable::new(entry, 0)));
    let given = SymbolicVariable::new(BaseEntry::Public, 0);
    let given = SymbolicExpression::Leaf(BaseLeaf::Variable(given));
    let tuple = Vec::from_array(alloc, [fixed]).expect(rt, "memory");
    let lookup = Lookup {
        kind: Kind::Local,
        elements: Vec::from_array(alloc, [tuple]).expect(rt, "memory"),
        multiplicities: Vec::from_array(alloc, [given]).expect(rt, "memory"),
        count_weight: 1,
        column: 0,
        flags: None,
    };
    let records = Vec::from_array(alloc, [lookup]).expect(rt, "memory");
    let set = Lookups::from_records(alloc, records).expect(rt, "well formed");
    let airs = Vec::from_array(alloc, [set]).expect(rt, "memory");
    let heights = Vec::from_array(alloc, [2]).expect(rt, "memory");
    BatchPlan::new(alloc, airs, heights).expect(rt, "a plan")
}

/// Fails unless that plan refuses these traces.
fn expect_mismatch(
    rt: &impl Abort,
    alloc: Global,
    main: &RowMajorMatrix<F7>,
    preprocessed: Option<&RowMajorMatrix<F7>>,
    public_values: &[F7],
) {
    let traces = [BatchTrace {
        main,
        preprocessed,
        public_values,
    }];
    let plan = fixed_plan(rt, alloc);
    let unfit = BatchError::TraceMismatch { air: 0 };
    expect_unfit(rt, alloc, &plan, traces.as_slice(), unfit);
}

/// A main trace that is too high, a preprocessed one that is missing or too low, and public values that
/// are missing.
#[test]
fn all_traces_of_an_air_have_to_fit(rt: HostRuntime) {
    let alloc = rt.alloc();
    let (main, fixed) = (trace(&rt, alloc, &[0, 0], 1), trace(&rt, alloc, &[3, 4], 1));
    let (high, low) = (trace(&rt, alloc, &[0, 0, 0], 1), trace(&rt, alloc, &[3], 1));
    let one: &[F7] = &[F7::ONE];
    expect_mismatch(&rt, alloc, &high, Some(&fixed), one);
    expect_mismatch(&rt, alloc, &main, None, one);
    expect_mismatch(&rt, alloc, &main, Some(&low), one);
    expect_mismatch(&rt, alloc, &main, Some(&fixed), &[]);
}

/// Over the cells 3 and 4 with the value 1 the fractions are 1/4 and 1/3, and the terminal is their sum, 0.
#[test]
fn an_air_with_all_kinds_of_traces(rt: HostRuntime) {
    let alloc = rt.alloc();
    let (main, fixed) = (trace(&rt, alloc, &[0, 0], 1), trace(&rt, alloc, &[3, 4], 1));
    let traces = [BatchTrace {
        main: &main,
        preprocessed: Some(&fixed),
        public_values: &[F7::ONE],
    }];
    let (alpha, beta) = (F7::from_u32(5), F7::from_u32(2));
    let made = fixed_plan(&rt, alloc).prove(alloc, traces.as_slice(), alpha, beta);
    let made = made.expect(&rt, "no fault");
    let cells = [0, 2, 2, 5].map(F7::new);
    let right = has_result(&made, 0, cells.as_slice(), F7::ZERO);
    holds(&rt, "the witness", right);
}

/// A fault of no AIR is out of memory, or a count that does not fit.
#[test]
fn faults_of_no_air(rt: HostRuntime) {
    let overflow = BatchFault {
        air: None,
        error: LookupError::CountOverflow,
    };
    holds(
        &rt,
        "a count",
        BatchError::from(overflow) == BatchError::CountOverflow,
    );
    let memory = BatchFault {
        air: None,
        error: LookupError::Memory,
    };
    holds(
        &rt,
        "memory",
        BatchError::from(memory) == BatchError::Memory,
    );
}

fn is_written(rt: &impl Abort, alloc: Global, error: BatchError, wanted: &str) {
    let shown = format!(in alloc; "{error}").expect(rt, "memory");
    assert!(rt; shown.as_str() == wanted, "{shown}");
}

#[test]
fn texts_of_refusals(rt: HostRuntime) {
    let alloc = rt.alloc();
    let fault = LookupError::VanishingDenominator { row: 2, lookup: 1 };
    is_written(&rt, alloc, BatchError::Memory, "out of memory");
    is_written(
        &rt,
        alloc,
        BatchError::TooManyIds { ids: 8 },
        "8 ids exceed the field characteristic",
    );
    is_written(&rt, alloc, BatchError::UnlawfulIds, "ids are not lawful");
    is_written(
        &rt,
        alloc,
        BatchError::TraceMismatch { air: 3 },
        "air 3: trace does not fit the plan",
    );
    is_written(
        &rt,
        alloc,
        BatchError::RepeatedChallenge,
        "a challenge is listed twice",
    );
    is_written(
        &rt,
        alloc,
        BatchError::CountOverflow,
        "count does not fit u128",
    );
    is_written(
        &rt,
        alloc,
        BatchError::LengthMismatch {
            expected: 2,
            actual: 1,
        },
        "expected 2 entries, got 1",
    );
    is_written(
        &rt,
        alloc,
        BatchError::Lookup(LookupError::TerminalSumNonZero),
        "cross-AIR lookup terminal sum is non-zero",
    );
    is_written(
        &rt,
        alloc,
        BatchError::Air {
            air: 4,
            error: fault,
        },
        "air 4: row 2, lookup 1: vanishing denominator",
    );
}

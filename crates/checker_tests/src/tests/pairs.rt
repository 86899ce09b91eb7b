//! All 49 pairs of challenges over `F7`: what the program ends with, and whether some witness is accepted.
use super::{alone, holds, lookup, range, trace};
use batch::{BatchPlan, BatchTrace};
use example_machines::run;
use field::{F7, PrimeCharacteristicRing};
use field_list::Offered;
use lookup::{Lookup, Lookups};
use matrix::RowMajorMatrix;
use std::alloc::Global;
use std::process::{Abort, ExitCode};

/// The elements of `F7` as words.
const ELEMENTS: [&str; 7] = ["0", "1", "2", "3", "4", "5", "6"];

/// What the program ends with over these rows: 0 if the terminals cancel, 1 if not, else 2.
fn status(
    rt: &impl Abort,
    alloc: Global,
    machine: &str,
    rows: &[u8],
    alpha: &str,
    beta: &str,
) -> usize {
    let mut words = Vec::new(alloc);
    for word in [machine, "f7", alpha, beta] {
        let word = String::from_str(alloc, word).expect(rt, "memory");
        words.push(word).expect(rt, "memory");
    }
    let (mut input, mut written, mut refused) = (rows, Vec::new(alloc), Vec::new(alloc));
    let words = words.as_slice();
    let code = run::<Offered, _, _, _>(alloc, words, &mut input, &mut written, &mut refused);
    if code == ExitCode::from(0) {
        0
    } else if code == ExitCode::from(1) {
        1
    } else {
        2
    }
}

/// The set of one lookup.
fn set(rt: &impl Abort, alloc: Global, one: Lookup<F7>) -> Lookups<F7> {
    Lookups::from_records(alloc, alone(rt, alloc, one)).expect(rt, "well formed")
}

/// A main trace alone.
fn only(main: &RowMajorMatrix<F7>) -> BatchTrace<'_, F7> {
    BatchTrace {
        main,
        preprocessed: None,
        public_values: &[],
    }
}

/// Over all pairs the program ends with 0, 1 and 2 so many times, and wherever it ends with 0 the pair is
/// one of those that the plan counts.
fn expect_statuses(
    rt: &impl Abort,
    alloc: Global,
    (machine, rows): (&str, &[u8]),
    plan: &BatchPlan<F7>,
    traces: &[BatchTrace<'_, F7>],
    wanted: [u32; 3],
) {
    let mut seen = [0u32; 3];
    for (a, alpha) in ELEMENTS.iter().enumerate() {
        for (b, beta) in ELEMENTS.iter().enumerate() {
            let ended = status(rt, alloc, machine, rows, alpha, beta);
            assert!(rt; ended < 3);
            seen[ended] = seen[ended].saturating_add(1);
            let alphas = [F7::from_u32(a as u32)];
            let betas = [F7::from_u32(b as u32)];
            let counts = plan
                .grid_count(alloc, traces, alphas.as_slice(), betas.as_slice())
                .expect(rt, "lawful flags");
            assert!(rt;
                ended > 0 || counts.accepted == 1,
                "alpha {alpha}, beta {beta}"
            );
        }
    }
    assert!(rt; seen == wanted, "{machine}, not balanced {} times", seen[1]);
}

/// The range machine over rows that balance, and over rows that do not.
#[test]
fn pairs_of_the_range_machine(rt: HostRuntime) {
    let alloc = rt.alloc();
    let airs = alone(&rt, alloc, set(&rt, alloc, range(&rt, alloc)));
    let plan = BatchPlan::new(alloc, airs, alone(&rt, alloc, 2)).expect(&rt, "a plan");
    let balanced = trace(&rt, alloc, &[3, 4, 1, 4, 3, 1], 3);
    let traces = [only(&balanced)];
    let run = ("range", b"3 4 1\n4 3 1\n".as_slice());
    expect_statuses(&rt, alloc, run, &plan, traces.as_slice(), [35, 0, 14]);
    let unbalanced = trace(&rt, alloc, &[3, 1, 0, 4, 1, 0], 3);
    let traces = [only(&unbalanced)];
    let run = ("range", b"3 1 0\n4 1 0\n".as_slice());
    expect_statuses(&rt, alloc, run, &plan, traces.as_slice(), [7, 28, 14]);
}

/// The bus machine: the key 3 twice, and the entries 3, used twice, and 4, never used.
#[test]
fn pairs_of_the_bus_machine(rt: HostRuntime) {
    let alloc = rt.alloc();
    let asks = set(&rt, alloc, lookup(&rt, alloc, Some("b"), [(0, None)]));
    let mut provider = lookup(&rt, alloc, Some("b"), [(0, Some(1))]);
    provider.count_weight = 0;
    let provides = set(&rt, alloc, provider);
    let airs = Vec::from_array(alloc, [asks, provides]).expect(&rt, "memory");
    let heights = Vec::from_array(alloc, [2, 2]).expect(&rt, "memory");
    let plan = BatchPlan::new(alloc, airs, heights).expect(&rt, "a plan");
    let keys = trace(&rt, alloc, &[3, 3], 1);
    let entries = trace(&rt, alloc, &[3, 2, 4, 0], 2);
    let traces = [only(&keys), only(&entries)];
    let run = ("bus", b"3 3 2\n3 4 0\n".as_slice());
    expect_statuses(&rt, alloc, run, &plan, traces.as_slice(), [42, 0, 7]);
}

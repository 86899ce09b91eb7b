//! Calls of plans, and of the memory check.
use crate::sets::set;
use batch::{BatchError, BatchPlan, BatchTrace};
use checker::Witness;
use example_memory::{MemoryTraces, check_memory, memory_plan};
use field::{F7, PrimeCharacteristicRing};
use field_monty::{BabyBear, BabyBear4};
use gate_memory_builders::inputs::{
    BALANCED, LOOKUPS, UNBALANCED, UNEVEN, UNEVEN_LOCAL, alone, trace,
};
use gate_memory_builders::show::{Out, input, show};
use matrix::RowMajorMatrix;
use std::alloc::Global;

/// A plan of one AIR whose lookups have this text.
fn plan_of(
    alloc: Global,
    out: &mut Out,
    text: &'static str,
    heights: &[usize],
) -> Option<Result<BatchPlan<F7>, BatchError>> {
    let set = set(alloc, out, text)?;
    let airs = input(out, alone(alloc, set))?;
    let heights = input(out, Vec::from_slice(alloc, heights))?;
    Some(BatchPlan::new(alloc, airs, heights))
}

/// The call that makes such a plan.
fn make_plan(alloc: Global, out: &mut Out, text: &'static str, heights: &[usize]) {
    if let Some(answer) = plan_of(alloc, out, text, heights) {
        show(out, "BatchPlan::new", answer);
    }
}

/// Lookups and heights of a plan that is accepted, and of plans that are refused for their heights, their widths and
/// their weights.
const PLANS: [(&str, &[usize]); 5] = [
    (LOOKUPS, &[2]),
    (LOOKUPS, &[2, 2]),
    (UNEVEN, &[2]),
    (UNEVEN_LOCAL, &[2]),
    (LOOKUPS, &[3]),
];

/// The calls that make these plans.
fn make_plans(alloc: Global, out: &mut Out) {
    for (text, heights) in &PLANS {
        make_plan(alloc, out, text, heights);
    }
}

/// The call that makes a plan of the lookups over these ids, of which there are two.
fn make_given(alloc: Global, out: &mut Out, ids: &[usize]) -> Option<()> {
    let set = set(alloc, out, LOOKUPS)?;
    let airs = input(out, alone(alloc, set))?;
    let two: &[usize] = &[2];
    let heights = input(out, Vec::from_slice(alloc, two))?;
    let own = input(out, Vec::from_slice(alloc, ids))?;
    let ids = input(out, alone(alloc, own))?;
    show(
        out,
        "BatchPlan::with_ids",
        BatchPlan::with_ids(alloc, airs, heights, ids, 2),
    );
    Some(())
}

/// The calls over ids that are lawful, and over those where a bus has two.
fn make_all_given(alloc: Global, out: &mut Out) {
    let _ = make_given(alloc, out, &[1, 0, 0, 0]);
    let _ = make_given(alloc, out, &[1, 0, 1, 0]);
}

/// A main trace alone.
fn main_trace(main: &RowMajorMatrix<F7>) -> BatchTrace<'_, F7> {
    BatchTrace {
        main,
        preprocessed: None,
        public_values: &[],
    }
}

/// The witness of the trace that balances.
fn accepted_witness(alloc: Global, out: &mut Out, plan: &BatchPlan<F7>) -> Option<Witness<F7>> {
    let main = trace(alloc, out, &BALANCED, 3)?;
    let traces = [main_trace(&main)];
    let made = plan.prove(alloc, traces.as_slice(), F7::new(5), F7::new(2));
    input(out, made)
}

/// What a plan says of itself, which takes no memory, and the calls of a prover and of a verifier, and those
/// that count.
fn on_plan(
    alloc: Global,
    out: &mut Out,
    plan: &BatchPlan<F7>,
    traces: &[BatchTrace<'_, F7>],
    witness: &Witness<F7>,
) {
    show(out, "BatchPlan::ids", plan.ids().len());
    show(
        out,
        "BatchPlan::max_message_width",
        plan.max_message_width(),
    );
    show(out, "BatchPlan::num_ids", plan.num_ids());
    let (alpha, beta) = (F7::new(5), F7::new(2));
    show(
        out,
        "BatchPlan::prove",
        plan.prove(alloc, traces, alpha, beta),
    );
    let answer = plan.verify(alloc, traces, alpha, beta, witness);
    show(out, "BatchPlan::verify", answer);
    let counts = plan.soundness_count::<F7>(alloc, traces);
    show(out, "BatchPlan::soundness_count", counts);
    let (alphas, betas) = ([F7::new(1), alpha], [beta, F7::new(3)]);
    let answer = plan.grid_count(alloc, traces, alphas.as_slice(), betas.as_slice());
    show(out, "BatchPlan::grid_count", answer);
}

/// All calls of a plan over a trace, twice.
fn over(
    alloc: Global,
    out: &mut Out,
    plan: &BatchPlan<F7>,
    numbers: &[u32],
    witness: &Witness<F7>,
) {
    if let Some(main) = trace(alloc, out, numbers, 3) {
        let traces = [main_trace(&main)];
        on_plan(alloc, out, plan, traces.as_slice(), witness);
        on_plan(alloc, out, plan, traces.as_slice(), witness);
        show(out, "input", &main);
    }
}

/// All calls of a plan.
fn on_all(alloc: Global, out: &mut Out, plan: &BatchPlan<F7>) {
    if let Some(accepted) = accepted_witness(alloc, out, plan) {
        over(alloc, out, plan, &BALANCED, &accepted);
        over(alloc, out, plan, &UNBALANCED, &accepted);
        over(alloc, out, plan, &UNBALANCED[..3], &accepted);
        show(out, "input", &accepted);
        show(out, "input", plan);
    }
}

/// The calls of plans.
pub fn batch_plans(alloc: Global, out: &mut Out) {
    make_plans(alloc, out);
    make_plans(alloc, out);
    make_all_given(alloc, out);
    make_all_given(alloc, out);
    if let Some(made) = plan_of(alloc, out, LOOKUPS, &[2]) {
        if let Some(plan) = input(out, made) {
            on_all(alloc, out, &plan);
        }
    }
}

/// Address 1 is written at time 1 and read at 3, address 2 is read at 2 and written at 7.
const ACCESSES: [u32; 20] = [1, 5, 0, 6, 1, 2, 9, 0, 9, 2, 1, 6, 1, 6, 3, 2, 9, 2, 8, 7];

/// Address 1 holds 5 at first and 6 at last, address 2 holds 9 and then 8.
const BOUNDARY: [u32; 8] = [1, 5, 6, 3, 2, 9, 8, 7];

/// The gaps from 0 to 4.
const GAPS: [u32; 10] = [0, 1, 1, 2, 2, 0, 3, 0, 4, 1];

/// The traces of a memory.
fn memory_traces(alloc: Global, out: &mut Out) -> Option<MemoryTraces<BabyBear>> {
    let accesses = trace(alloc, out, &ACCESSES, 5)?;
    let boundary = trace(alloc, out, &BOUNDARY, 4)?;
    let gaps = trace(alloc, out, &GAPS, 2)?;
    Some(MemoryTraces {
        accesses,
        boundary,
        gaps,
    })
}

/// Calls of the memory check, at challenges at which it is accepted, and at others.
fn on_memory(
    alloc: Global,
    out: &mut Out,
    plan: &BatchPlan<BabyBear>,
    traces: &MemoryTraces<BabyBear>,
) {
    let (alpha, beta) = (BabyBear4::from_u32(100000), BabyBear4::from_u32(1000));
    let answer = check_memory(alloc, plan, traces, alpha, beta);
    show(out, "check_memory", answer);
    let answer = check_memory(alloc, plan, traces, BabyBear4::ZERO, BabyBear4::ZERO);
    show(out, "check_memory", answer);
    show(out, "input", traces);
}

/// The plan of a memory.
fn plan_of_memory(alloc: Global) -> Result<BatchPlan<BabyBear>, BatchError> {
    memory_plan::<BabyBear, BabyBear4>(alloc, 4, 2, 5)
}

/// The calls of the memory check over a plan, twice.
fn over_memory(alloc: Global, out: &mut Out, plan: &BatchPlan<BabyBear>) {
    if let Some(traces) = memory_traces(alloc, out) {
        on_memory(alloc, out, plan, &traces);
        on_memory(alloc, out, plan, &traces);
    }
}

/// The calls of the memory check.
pub fn memory(alloc: Global, out: &mut Out) {
    show(out, "memory_plan", plan_of_memory(alloc));
    show(out, "memory_plan", plan_of_memory(alloc));
    if let Some(plan) = input(out, plan_of_memory(alloc)) {
        over_memory(alloc, out, &plan);
    }
}

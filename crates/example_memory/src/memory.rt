//! The memory check: from its AIRs to a plan, and from traces to an accepted witness.
ghost use Rattle.std.specs.Prelude.{◌≡◌, [], ◌∷◌, IfErr, IfOk, OnOk};
ghost use Rattle.batch.specs.Lists.{lists_of};
ghost use Rattle.batch.specs.PlanFacts.{AreNumbered};
ghost use Rattle.batch.specs.Runs.{plan_of};
ghost use Rattle.batch.specs.Traces.{traces_of_main, view_of};
ghost use Rattle.example_memory.specs.Memory.{SetsFit, IsAcceptedMemory, IsLookupsRefusal, IsMemoryPlanRefusal, IsMemoryRefusal, mains_of};

use crate::airs::{AccessesAir, BoundaryAir, GapsAir};
use batch::{BatchError, BatchPlan, BatchTrace};
use field::{ExtensionField, Field, Over};
use lookup::Lookups;
use matrix::RowMajorMatrix;
use std::alloc::Global;

/// The traces of the memory check.
#[derive(Debug, Drop)]
pub struct MemoryTraces<F> {
    /// Columns `address old_value old_time new_value new_time`.
    pub accesses: RowMajorMatrix<F>,
    /// Columns `address initial_value final_value final_time`.
    pub boundary: RowMajorMatrix<F>,
    /// Columns `gap uses`.
    pub gaps: RowMajorMatrix<F>,
}

/// The plan of a memory check whose traces have these heights: of the accesses, of the boundary and
/// of the gaps. Its lookups are those that the AIRs push, which fit traces of 5, 4 and 2 columns.
/// Their ids are given in order.
///
/// Refuses heights at which a count could wrap; see [`BatchPlan::new`]. Also fails when out of
/// memory. No clause rules out that a local lookup or another check of the plan is refused; tests
/// show that none is, and what the lookups are.
pub fn memory_plan<F: Field, EF: ExtensionField<F>>(
    alloc: Global,
    accesses: usize,
    boundary: usize,
    gaps: usize,
) -> Result<BatchPlan<F>, BatchError>
    ensures fit { IfOk result (λ plan. SetsFit plan.airs.items) }
    ensures heights { IfOk result (λ plan. plan.heights.items ≡ accesses ∷ boundary ∷ gaps ∷ []) }
    ensures ids { IfOk result (λ plan. AreNumbered (lists_of plan.ids.items) plan.airs.items
        plan.num_ids) }
    ensures refused { IfErr result (IsMemoryPlanRefusal F F.CHARACTERISTIC
        (accesses ∷ boundary ∷ gaps ∷ [])) }
{
    let lookups = memory_lookups::<F, EF>(alloc)?;
    let heights = Vec::from_array(alloc, [accesses, boundary, gaps])?;
    BatchPlan::new(alloc, lookups, heights)
}

/// What the AIRs look up, in their order: the accesses, the boundary, the gaps.
fn memory_lookups<F: Field, EF: ExtensionField<F>>(
    alloc: Global,
) -> Result<Vec<Lookups<F>>, BatchError>
    ensures fit { IfOk result (λ lookups. SetsFit lookups.items) }
    ensures refused { IfErr result (IsLookupsRefusal F) }
{
    let accesses = Lookups::from_air::<EF, AccessesAir>(alloc, &AccessesAir)?;
    let boundary = Lookups::from_air::<EF, BoundaryAir>(alloc, &BoundaryAir)?;
    let gaps = Lookups::from_air::<EF, GapsAir>(alloc, &GapsAir)?;
    Ok(Vec::from_array(alloc, [accesses, boundary, gaps])?)
}

/// Whether the messages of a memory cancel at a pair of challenges: makes the witness of the traces,
/// as a prover does, and checks it, as a verifier does.
///
/// Refuses what [`BatchPlan::prove`] refuses: `LengthMismatch` for a plan of another number of
/// AIRs, traces that do not have the plan's heights or do not fit, then `Air` with the first
/// denominator that vanishes; at most other challenges none does. Then it refuses what
/// [`BatchPlan::verify`] refuses; in that case the messages do not balance. Also fails when out of
/// memory. If messages balance and no denominator vanishes, they are accepted. If they do not, few
/// challenges accept them: [`BatchPlan::soundness_count`] says how few.
pub fn check_memory<F: Field, EF: ExtensionField<F>>(
    alloc: Global,
    plan: &BatchPlan<F>,
    traces: &MemoryTraces<F>,
    alpha: EF,
    beta: EF,
) -> Result<(), BatchError>
    ensures accepted { OnOk result (IsAcceptedMemory
        ⟦<EF as Over<F>>⟧.fields (plan_of plan.now) (mains_of traces.now) alpha beta) }
    ensures refused { IfErr result (IsMemoryRefusal
        ⟦<EF as Over<F>>⟧.fields (plan_of plan.now) (mains_of traces.now) alpha beta) }
{
    let traces = [
        alone(&traces.accesses),
        alone(&traces.boundary),
        alone(&traces.gaps),
    ];
    let traces = traces.as_slice();
    let witness = plan.prove(alloc, traces, alpha, beta)?;
    plan.verify(alloc, traces, alpha, beta, &witness)
}

/// A main trace without preprocessed trace and public values.
fn alone<F>(main: &RowMajorMatrix<F>) -> BatchTrace<'_, F>
    ensures { view_of result ≡ traces_of_main main.now }
{
    BatchTrace {
        main,
        preprocessed: None,
        public_values: &[],
    }
}

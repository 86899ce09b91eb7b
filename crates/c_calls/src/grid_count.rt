//! The call that counts at how many pairs of challenges a batch is accepted.
ghost use Rattle.std.specs.Prelude.{◌≡◌, ◌≢◌, MatchResult};
ghost use Rattle.std.specs.Result.{OnErr};
ghost use Rattle.field_monty.specs.laws.BabyBear.{baby_bear_positive};
ghost use Rattle.c_calls.specs.GridCount.{AnswersGridCount, AreGridCountNumbers, GridCountOfTables, IsGridCountRefusal};
ghost use Rattle.c_calls.specs.internal.Batches.{ResultOfGridCount};

use crate::batch_tables::{Air, all_traces, plan_of, plan_traces};
use crate::codes::Part;
use crate::fault::Fault;
use crate::inputs::list_of;
use crate::outputs::{Wide, halves, optional_halves};
use crate::refusal::{Refusal, accept, refuse};
use batch::GridCount;
use c_tables::Traces;
use field::Over;
use field_monty::{
    BabyBear, BabyBear4, BabyBearParameters, MontyField31, MontyQuartic, QuarticParameters,
};
use std::alloc::Global;

/// At how many pairs of a grid of challenges a batch is accepted.
#[repr(C)]
#[derive(Clone, Copy, Drop)]
pub struct Grid {
    /// The exact number of pairs at which some witness is accepted.
    pub accepted: Wide,
    /// 1 if there is a bound, and 0 if all messages balance.
    pub bounded: u32,
    /// The bound on that number, 0 if there is none.
    pub bound: Wide,
}

/// A count of a grid as C sees it.
fn grid_of(count: &GridCount) -> Grid
    ensures { AreGridCountNumbers count.now result }
{
    let (bounded, bound) = optional_halves(count.bound);
    Grid {
        accepted: halves(count.accepted),
        bounded,
        bound,
    }
}

/// The count of a grid of challenges over what tables encode.
///
/// Refuses the first of these with a fault: the plan of the AIRs, the traces, the alphas, the betas, and
/// the count.
fn count_grid<const P: u32, K: QuarticParameters<P>>(
    alloc: Global,
    airs: &[Air<'_>],
    traces: &[Traces<'_>],
    alphas: &[[u32; 4]],
    betas: &[[u32; 4]],
) -> Result<GridCount, Fault>
    ensures { let E = ⟦<MontyQuartic<P, K> as Over<MontyField31<P, K>>>⟧.fields in
        MatchResult result (GridCountOfTables K.positive E airs.now traces.now alphas.now betas.now)
        (IsGridCountRefusal K.positive E airs.now traces.now alphas.now betas.now) }
{
    let plan = plan_of::<P, K>(alloc, airs)?;
    let all = all_traces::<P, K>(alloc, traces)?;
    let alphas = list_of::<P, K>(alloc, Part::Alphas, 0, alphas)?;
    let betas = list_of::<P, K>(alloc, Part::Betas, 0, betas)?;
    let given = plan_traces(alloc, &all)?;
    Ok(plan.grid_count(alloc, &given, &alphas, &betas)?)
}

/// Does what `volgwain_grid_count` does, over any prime field below 2^31.
pub(crate) fn answer_grid_count<const P: u32, K: QuarticParameters<P>>(
    alloc: Global,
    airs: &[Air<'_>],
    traces: &[Traces<'_>],
    alphas: &[[u32; 4]],
    betas: &[[u32; 4]],
    grid: &mut Grid,
) -> Result<(), Fault>
    ensures answers { let E = ⟦<MontyQuartic<P, K> as Over<MontyField31<P, K>>>⟧.fields in
        ResultOfGridCount K.positive E airs.now traces.now alphas.now betas.now grid.new result }
    ensures kept { OnErr result (grid.new ≡ grid.old) }
{
    let count = count_grid::<P, K>(alloc, airs, traces, alphas, betas)?;
    *grid = grid_of(&count);
    Ok(())
}

/// Counts at how many pairs of some alphas and betas a batch is accepted, whoever makes the witness, with
/// a bound on that number.
///
/// Answers 0, or the code of a refusal. A refused call leaves the count as it was.
#[unsafe(no_mangle)]
pub extern "C" fn volgwain_grid_count(
    alloc: Global,
    airs: &[Air<'_>],
    traces: &[Traces<'_>],
    alphas: &[[u32; 4]],
    betas: &[[u32; 4]],
    grid: &mut Grid,
    refusal: &mut Refusal,
    text: &mut [u8],
) -> u32
    ensures answers { AnswersGridCount baby_bear_positive ⟦<BabyBear4 as Over<BabyBear>>⟧.fields
        airs.now traces.now alphas.now betas.now grid.new result refusal.new }
    ensures kept { result ≢ 0 → grid.new ≡ grid.old }
{
    match answer_grid_count::<2_013_265_921, BabyBearParameters>(
        alloc, airs, traces, alphas, betas, grid,
    ) {
        Ok(()) => accept(refusal),
        Err(fault) => refuse(&fault, refusal, text),
    }
}

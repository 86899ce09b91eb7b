//! The call that generates the auxiliary trace of one AIR of a planned batch.
ghost use Rattle.std.specs.Prelude.{◌≡◌, ◌≢◌, MatchResult, length};
ghost use Rattle.std.specs.Result.{OnErr};
ghost use Rattle.field_monty.specs.laws.BabyBear.{baby_bear_positive};
ghost use Rattle.c_calls.specs.GenerateByIds.{AnswersGenerateByIds};
ghost use Rattle.c_calls.specs.internal.PlannedAirs.{GeneratesByIdsInPlan, IsByIdsRefusal, ResultOfGenerateByIds};

use crate::fault::Fault;
use crate::generate::{Generated, generate_fitting, write_generated};
use crate::outputs::Terminal;
use crate::plan::PlanSizes;
use crate::planned_air::{InPlan, read_air};
use crate::refusal::{Refusal, accept, refuse};
use c_tables::{Tables, Traces};
use field::Over;
use field_monty::{
    BabyBear, BabyBear4, BabyBearParameters, MontyField31, MontyQuartic, QuarticParameters,
};
use std::alloc::Global;

/// Generates over what tables encode, under ids.
///
/// Refuses the AIR, as `read_air` does, or else the generation.
fn generate_tables<const P: u32, K: QuarticParameters<P>>(
    alloc: Global,
    tables: &Tables<'_>,
    traces: &Traces<'_>,
    plan: &InPlan<'_>,
) -> Result<Generated<MontyQuartic<P, K>>, Fault>
    ensures { let E = ⟦<MontyQuartic<P, K> as Over<MontyField31<P, K>>>⟧.fields in
        MatchResult result (GeneratesByIdsInPlan K.positive E tables.now traces.now plan.now)
        (IsByIdsRefusal K.positive E tables.now traces.now plan.now) }
{
    let air = read_air::<P, K>(alloc, tables, traces, plan)?;
    generate_fitting(alloc, &air.traces, &air.lookups, &air.challenges)
}

/// Does what `volgwain_generate_by_ids` does, over any prime field below 2^31.
pub(crate) fn answer_generate_by_ids<const P: u32, K: QuarticParameters<P>>(
    alloc: Global,
    tables: &Tables<'_>,
    traces: &Traces<'_>,
    plan: &InPlan<'_>,
    auxiliary: &mut [[u32; 4]],
    terminal: &mut Terminal,
) -> Result<(), Fault>
    ensures answers { let E = ⟦<MontyQuartic<P, K> as Over<MontyField31<P, K>>>⟧.fields in
        ResultOfGenerateByIds K.positive E tables.now traces.now plan.now (length auxiliary.old)
        auxiliary.new terminal.new result }
    ensures kept { OnErr result
        ((auxiliary.new ≡ auxiliary.old) × (terminal.new ≡ terminal.old)) }
{
    let made = generate_tables::<P, K>(alloc, tables, traces, plan)?;
    write_generated(made, auxiliary, terminal)
}

/// Generates the auxiliary trace of one AIR of a planned batch, and its terminal.
///
/// The ids are those of the AIR's lookups, and the sizes those of the plan. The auxiliary trace is as
/// `volgwain_generate` writes it.
///
/// Answers 0, or the code of a refusal. A refused call leaves the auxiliary trace and the terminal as they
/// were.
#[unsafe(no_mangle)]
pub extern "C" fn volgwain_generate_by_ids(
    alloc: Global,
    tables: &Tables<'_>,
    traces: &Traces<'_>,
    ids: &[usize],
    sizes: &PlanSizes,
    alpha: &[u32; 4],
    beta: &[u32; 4],
    auxiliary: &mut [[u32; 4]],
    terminal: &mut Terminal,
    refusal: &mut Refusal,
    text: &mut [u8],
) -> u32
    ensures answers { AnswersGenerateByIds baby_bear_positive ⟦<BabyBear4 as Over<BabyBear>>⟧.fields
        tables.now traces.now ids.now sizes.now alpha.now beta.now (length auxiliary.old)
        auxiliary.new terminal.new result refusal.new }
    ensures kept { result ≢ 0
        → (auxiliary.new ≡ auxiliary.old) × (terminal.new ≡ terminal.old) }
{
    let plan = InPlan {
        ids,
        sizes,
        alpha,
        beta,
    };
    match answer_generate_by_ids::<2_013_265_921, BabyBearParameters>(
        alloc, tables, traces, &plan, auxiliary, terminal,
    ) {
        Ok(()) => accept(refusal),
        Err(fault) => refuse(&fault, refusal, text),
    }
}

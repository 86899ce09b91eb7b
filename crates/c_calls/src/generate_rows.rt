//! The call that generates a range of rows of the auxiliary trace of one AIR of a planned batch.
ghost use Rattle.std.specs.Prelude.{◌≡◌, ◌≢◌, MatchResult, length};
ghost use Rattle.std.specs.Result.{OnErr};
ghost use Rattle.field_monty.specs.laws.BabyBear.{baby_bear_positive};
ghost use Rattle.c_calls.specs.GenerateRows.{AnswersGenerateRows};
ghost use Rattle.c_calls.specs.internal.PlannedAirs.{GeneratesInPlan, IsGenerationRefusal, ResultOfGenerateRows};

use crate::fault::{Fault, lookup_fault};
use crate::generate::traces_as_one;
use crate::outputs::write_cells;
use crate::plan::PlanSizes;
use crate::planned_air::{InPlan, read_air};
use crate::refusal::{Refusal, accept, refuse};
use crate::rows::{Rows, range_of};
use c_tables::{Tables, Traces, element_numbers};
use checker::generate_around;
use field::Over;
use field_monty::{
    BabyBear, BabyBear4, BabyBearParameters, MontyField31, MontyQuartic, QuarticParameters,
};
use matrix::RowMajorMatrix;
use std::alloc::Global;

/// Generates a range of rows over what tables encode, and the sum of their fractions.
///
/// Refuses the first of these with a fault: the AIR, as `read_air` does, the range, the height of the traces,
/// and the generation.
fn generate_tables<const P: u32, K: QuarticParameters<P>>(
    alloc: Global,
    tables: &Tables<'_>,
    around: &Traces<'_>,
    rows: &Rows,
    plan: &InPlan<'_>,
) -> Result<(RowMajorMatrix<MontyQuartic<P, K>>, MontyQuartic<P, K>), Fault>
    ensures { let E = ⟦<MontyQuartic<P, K> as Over<MontyField31<P, K>>>⟧.fields in
        MatchResult result (GeneratesInPlan K.positive E tables.now around.now rows.now plan.now)
        (IsGenerationRefusal K.positive E tables.now around.now rows.now plan.now) }
{
    let air = read_air::<P, K>(alloc, tables, around, plan)?;
    let range = range_of(rows, &air.traces)?;
    let traces = traces_as_one(&air.traces);
    match generate_around(alloc, &traces, &air.lookups, &air.challenges, range) {
        Ok(made) => Ok(made),
        Err(error) => Err(lookup_fault(error)),
    }
}

/// Does what `volgwain_generate_rows` does, over any prime field below 2^31.
pub(crate) fn answer_generate_rows<const P: u32, K: QuarticParameters<P>>(
    alloc: Global,
    tables: &Tables<'_>,
    around: &Traces<'_>,
    rows: &Rows,
    plan: &InPlan<'_>,
    auxiliary: &mut [[u32; 4]],
    sum: &mut [u32; 4],
) -> Result<(), Fault>
    ensures answers { let E = ⟦<MontyQuartic<P, K> as Over<MontyField31<P, K>>>⟧.fields in
        ResultOfGenerateRows K.positive E tables.now around.now rows.now plan.now
        (length auxiliary.old) auxiliary.new sum.new result }
    ensures kept { OnErr result ((auxiliary.new ≡ auxiliary.old) × (sum.new ≡ sum.old)) }
{
    let (made, total) = generate_tables::<P, K>(alloc, tables, around, rows, plan)?;
    write_cells(&made, auxiliary)?;
    *sum = element_numbers(total);
    Ok(())
}

/// Generates the rows of a range of the auxiliary trace of one AIR of a planned batch, and the sum of their
/// fractions.
///
/// `around` has the rows around the range alone: row 0, unless the range begins with it; the rows of the
/// range; and the row after them, unless the range ends with the trace. What is written is that of the whole
/// trace, but for an accumulator that is zero on the first row of the range; `volgwain_shift` by the sums of
/// all ranges before turns it into that of the whole. The ids and the sizes are as for
/// `volgwain_generate_by_ids`, and a fault is named by its row in the whole trace.
///
/// Answers 0, or the code of a refusal. A refused call leaves the auxiliary trace and the sum as they were.
#[unsafe(no_mangle)]
pub extern "C" fn volgwain_generate_rows(
    alloc: Global,
    tables: &Tables<'_>,
    around: &Traces<'_>,
    rows: &Rows,
    ids: &[usize],
    sizes: &PlanSizes,
    alpha: &[u32; 4],
    beta: &[u32; 4],
    auxiliary: &mut [[u32; 4]],
    sum: &mut [u32; 4],
    refusal: &mut Refusal,
    text: &mut [u8],
) -> u32
    ensures answers { AnswersGenerateRows baby_bear_positive ⟦<BabyBear4 as Over<BabyBear>>⟧.fields
        tables.now around.now rows.now ids.now sizes.now alpha.now beta.now (length auxiliary.old)
        auxiliary.new sum.new result refusal.new }
    ensures kept { result ≢ 0 → (auxiliary.new ≡ auxiliary.old) × (sum.new ≡ sum.old) }
{
    let plan = InPlan {
        ids,
        sizes,
        alpha,
        beta,
    };
    match answer_generate_rows::<2_013_265_921, BabyBearParameters>(
        alloc, tables, around, rows, &plan, auxiliary, sum,
    ) {
        Ok(()) => accept(refusal),
        Err(fault) => refuse(&fault, refusal, text),
    }
}

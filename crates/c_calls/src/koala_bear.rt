//! The calls over `KoalaBear`, the integers modulo 2130706433, and its quartic extension.
//!
//! Each is the call of its name without `koala_bear`, with the same arrays, codes and texts, over numbers
//! below this modulus.
ghost use Rattle.std.specs.Prelude.{length, ◌≡◌, ◌≢◌};
ghost use Rattle.field_monty.specs.laws.KoalaBear.{koala_bear_positive};
ghost use Rattle.c_calls.specs.CallAnswers.{CallAnswers};
ghost use Rattle.c_calls.specs.DebugCheck.{DebugChecksTables, IsDebugCheckRefusal};
ghost use Rattle.c_calls.specs.Degrees.{CallGivesDegrees, IsDegreesRefusal};
ghost use Rattle.c_calls.specs.Generate.{AnswersGenerate};
ghost use Rattle.c_calls.specs.GenerateByIds.{AnswersGenerateByIds};
ghost use Rattle.c_calls.specs.GenerateRows.{AnswersGenerateRows};
ghost use Rattle.c_calls.specs.GridCount.{AnswersGridCount};
ghost use Rattle.c_calls.specs.Pack.{AnswersPack};
ghost use Rattle.c_calls.specs.Plan.{IsPlanCallRefusal, PlansNumbers};
ghost use Rattle.c_calls.specs.Prove.{AnswersProve};
ghost use Rattle.c_calls.specs.ReadJson.{AnswersReadJson};
ghost use Rattle.c_calls.specs.Shift.{AnswersShift};
ghost use Rattle.c_calls.specs.SoundnessCount.{AnswersSoundnessCount};
ghost use Rattle.c_calls.specs.SoundnessOfHeights.{HeightCountIsNumbers, IsSoundnessOfHeightsRefusal};
ghost use Rattle.c_calls.specs.Verify.{AnswersVerify};
ghost use Rattle.c_calls.specs.VerifyRows.{AnswersVerifyRows};
ghost use Rattle.c_calls.specs.WrittenTables.{table_arrays};

use crate::batch_tables::Air;
use crate::debug_check::answer_debug_check;
use crate::degrees::answer_degrees;
use crate::generate::answer_generate;
use crate::generate_by_ids::answer_generate_by_ids;
use crate::generate_rows::answer_generate_rows;
use crate::grid_count::{Grid, answer_grid_count};
use crate::outputs::Terminal;
use crate::pack::answer_pack;
use crate::plan::{PlanSizes, answer_plan};
use crate::planned_air::InPlan;
use crate::prove::answer_prove;
use crate::read_json::answer_read_json;
use crate::refusal::{Refusal, accept, refuse};
use crate::rows::Rows;
use crate::shift::answer_shift;
use crate::soundness_count::{Counts, answer_soundness_count};
use crate::soundness_of_heights::{HeightCounts, answer_soundness_of_heights};
use crate::verify::answer_verify;
use crate::verify_rows::answer_verify_rows;
use crate::witness::AirWitness;
use crate::written_tables::TableSizes;
use c_tables::{Node, Record, Span, Tables, Traces};
use field::{Over, PrimeCharacteristicRing};
use field_monty::{KoalaBear, KoalaBear4, KoalaBearParameters};
use std::alloc::Global;

/// As [`volgwain_plan`](crate::volgwain_plan), over `KoalaBear`.
#[unsafe(no_mangle)]
pub extern "C" fn volgwain_koala_bear_plan(
    alloc: Global,
    airs: &[Air<'_>],
    ids: &mut [usize],
    plan: &mut PlanSizes,
    refusal: &mut Refusal,
    text: &mut [u8],
) -> u32
    ensures answers { CallAnswers result refusal.new
        (PlansNumbers 2130706433 airs.now ids.new plan.new)
        (IsPlanCallRefusal 2130706433 airs.now (length ids.old)) }
    ensures kept { result ≢ 0 → (ids.new ≡ ids.old) × (plan.new ≡ plan.old) }
{
    match answer_plan::<2_130_706_433, KoalaBearParameters>(alloc, airs, ids, plan) {
        Ok(()) => accept(refusal),
        Err(fault) => refuse(&fault, refusal, text),
    }
}

/// As [`volgwain_prove`](crate::volgwain_prove), over `KoalaBear`.
#[unsafe(no_mangle)]
pub extern "C" fn volgwain_koala_bear_prove(
    alloc: Global,
    airs: &[Air<'_>],
    traces: &[Traces<'_>],
    alpha: &[u32; 4],
    beta: &[u32; 4],
    auxiliary: &mut [[u32; 4]],
    terminals: &mut [Terminal],
    refusal: &mut Refusal,
    text: &mut [u8],
) -> u32
    ensures answers { AnswersProve koala_bear_positive ⟦<KoalaBear4 as Over<KoalaBear>>⟧.fields
        airs.now traces.now alpha.now beta.now (length auxiliary.old) (length terminals.old)
        auxiliary.new terminals.new result refusal.new }
    ensures kept { result ≢ 0
        → (auxiliary.new ≡ auxiliary.old) × (terminals.new ≡ terminals.old) }
{
    match answer_prove::<2_130_706_433, KoalaBearParameters>(
        alloc, airs, traces, alpha, beta, auxiliary, terminals,
    ) {
        Ok(()) => accept(refusal),
        Err(fault) => refuse(&fault, refusal, text),
    }
}

/// As [`volgwain_verify`](crate::volgwain_verify), over `KoalaBear`.
#[unsafe(no_mangle)]
pub extern "C" fn volgwain_koala_bear_verify(
    alloc: Global,
    airs: &[Air<'_>],
    traces: &[Traces<'_>],
    alpha: &[u32; 4],
    beta: &[u32; 4],
    witness: &[AirWitness<'_>],
    refusal: &mut Refusal,
    text: &mut [u8],
) -> u32
    ensures answers { AnswersVerify koala_bear_positive ⟦<KoalaBear4 as Over<KoalaBear>>⟧.fields
        airs.now traces.now alpha.now beta.now witness.now result refusal.new }
{
    match answer_verify::<2_130_706_433, KoalaBearParameters>(
        alloc, airs, traces, alpha, beta, witness,
    ) {
        Ok(()) => accept(refusal),
        Err(fault) => refuse(&fault, refusal, text),
    }
}

/// As [`volgwain_debug_check`](crate::volgwain_debug_check), over `KoalaBear`.
#[unsafe(no_mangle)]
pub extern "C" fn volgwain_koala_bear_debug_check(
    alloc: Global,
    airs: &[Tables<'_>],
    traces: &[Traces<'_>],
    refusal: &mut Refusal,
    text: &mut [u8],
) -> u32
    ensures answers { let E = ⟦<KoalaBear4 as Over<KoalaBear>>⟧.fields in
        CallAnswers result refusal.new (DebugChecksTables koala_bear_positive E airs.now traces.now)
        (IsDebugCheckRefusal koala_bear_positive E airs.now traces.now) }
{
    match answer_debug_check::<2_130_706_433, KoalaBearParameters>(alloc, airs, traces) {
        Ok(()) => accept(refusal),
        Err(fault) => refuse(&fault, refusal, text),
    }
}

/// As [`volgwain_soundness_count`](crate::volgwain_soundness_count), over `KoalaBear`.
#[unsafe(no_mangle)]
pub extern "C" fn volgwain_koala_bear_soundness_count(
    alloc: Global,
    airs: &[Air<'_>],
    traces: &[Traces<'_>],
    counts: &mut Counts,
    refusal: &mut Refusal,
    text: &mut [u8],
) -> u32
    ensures answers { AnswersSoundnessCount koala_bear_positive
        ⟦<KoalaBear4 as Over<KoalaBear>>⟧.fields airs.now traces.now counts.new result refusal.new }
    ensures kept { result ≢ 0 → counts.new ≡ counts.old }
{
    match answer_soundness_count::<2_130_706_433, KoalaBearParameters>(
        alloc, airs, traces, counts,
    ) {
        Ok(()) => accept(refusal),
        Err(fault) => refuse(&fault, refusal, text),
    }
}

/// As [`volgwain_soundness_of_heights`](crate::volgwain_soundness_of_heights), over `KoalaBear`.
#[unsafe(no_mangle)]
pub extern "C" fn volgwain_koala_bear_soundness_of_heights(
    alloc: Global,
    airs: &[Air<'_>],
    counts: &mut HeightCounts,
    refusal: &mut Refusal,
    text: &mut [u8],
) -> u32
    ensures answers { let E = ⟦<KoalaBear4 as Over<KoalaBear>>⟧.fields in
        CallAnswers result refusal.new (HeightCountIsNumbers E airs.now counts.new)
        (IsSoundnessOfHeightsRefusal E airs.now) }
    ensures kept { result ≢ 0 → counts.new ≡ counts.old }
{
    match answer_soundness_of_heights::<2_130_706_433, KoalaBearParameters>(alloc, airs, counts) {
        Ok(()) => accept(refusal),
        Err(fault) => refuse(&fault, refusal, text),
    }
}

/// As [`volgwain_grid_count`](crate::volgwain_grid_count), over `KoalaBear`.
#[unsafe(no_mangle)]
pub extern "C" fn volgwain_koala_bear_grid_count(
    alloc: Global,
    airs: &[Air<'_>],
    traces: &[Traces<'_>],
    alphas: &[[u32; 4]],
    betas: &[[u32; 4]],
    grid: &mut Grid,
    refusal: &mut Refusal,
    text: &mut [u8],
) -> u32
    ensures answers { AnswersGridCount koala_bear_positive ⟦<KoalaBear4 as Over<KoalaBear>>⟧.fields
        airs.now traces.now alphas.now betas.now grid.new result refusal.new }
    ensures kept { result ≢ 0 → grid.new ≡ grid.old }
{
    match answer_grid_count::<2_130_706_433, KoalaBearParameters>(
        alloc, airs, traces, alphas, betas, grid,
    ) {
        Ok(()) => accept(refusal),
        Err(fault) => refuse(&fault, refusal, text),
    }
}

/// As [`volgwain_generate`](crate::volgwain_generate), over `KoalaBear`.
#[unsafe(no_mangle)]
pub extern "C" fn volgwain_koala_bear_generate(
    alloc: Global,
    tables: &Tables<'_>,
    traces: &Traces<'_>,
    challenges: &[[u32; 4]],
    auxiliary: &mut [[u32; 4]],
    terminal: &mut Terminal,
    refusal: &mut Refusal,
    text: &mut [u8],
) -> u32
    ensures answers { AnswersGenerate koala_bear_positive ⟦<KoalaBear4 as Over<KoalaBear>>⟧.fields
        tables.now traces.now challenges.now (length auxiliary.old) auxiliary.new terminal.new
        result refusal.new }
    ensures kept { result ≢ 0
        → (auxiliary.new ≡ auxiliary.old) × (terminal.new ≡ terminal.old) }
{
    match answer_generate::<2_130_706_433, KoalaBearParameters>(
        alloc, tables, traces, challenges, auxiliary, terminal,
    ) {
        Ok(()) => accept(refusal),
        Err(fault) => refuse(&fault, refusal, text),
    }
}

/// As [`volgwain_generate_by_ids`](crate::volgwain_generate_by_ids), over `KoalaBear`.
#[unsafe(no_mangle)]
pub extern "C" fn volgwain_koala_bear_generate_by_ids(
    alloc: Global,
    tables: &Tables<'_>,
    traces: &Traces<'_>,
    ids: &[usize],
    sizes: &PlanSizes,
    alpha: &[u32; 4],
    beta: &[u32; 4],
    auxiliary: &mut [[u32; 4]],
    terminal: &mut Terminal,
    refusal: &mut Refusal,
    text: &mut [u8],
) -> u32
    ensures answers { AnswersGenerateByIds koala_bear_positive
        ⟦<KoalaBear4 as Over<KoalaBear>>⟧.fields tables.now traces.now ids.now sizes.now alpha.now
        beta.now (length auxiliary.old) auxiliary.new terminal.new result refusal.new }
    ensures kept { result ≢ 0
        → (auxiliary.new ≡ auxiliary.old) × (terminal.new ≡ terminal.old) }
{
    let plan = InPlan {
        ids,
        sizes,
        alpha,
        beta,
    };
    match answer_generate_by_ids::<2_130_706_433, KoalaBearParameters>(
        alloc, tables, traces, &plan, auxiliary, terminal,
    ) {
        Ok(()) => accept(refusal),
        Err(fault) => refuse(&fault, refusal, text),
    }
}

/// As [`volgwain_generate_rows`](crate::volgwain_generate_rows), over `KoalaBear`.
#[unsafe(no_mangle)]
pub extern "C" fn volgwain_koala_bear_generate_rows(
    alloc: Global,
    tables: &Tables<'_>,
    around: &Traces<'_>,
    rows: &Rows,
    ids: &[usize],
    sizes: &PlanSizes,
    alpha: &[u32; 4],
    beta: &[u32; 4],
    auxiliary: &mut [[u32; 4]],
    sum: &mut [u32; 4],
    refusal: &mut Refusal,
    text: &mut [u8],
) -> u32
    ensures answers { AnswersGenerateRows koala_bear_positive
        ⟦<KoalaBear4 as Over<KoalaBear>>⟧.fields tables.now around.now rows.now ids.now sizes.now
        alpha.now beta.now (length auxiliary.old) auxiliary.new sum.new result refusal.new }
    ensures kept { result ≢ 0 → (auxiliary.new ≡ auxiliary.old) × (sum.new ≡ sum.old) }
{
    let plan = InPlan {
        ids,
        sizes,
        alpha,
        beta,
    };
    match answer_generate_rows::<2_130_706_433, KoalaBearParameters>(
        alloc, tables, around, rows, &plan, auxiliary, sum,
    ) {
        Ok(()) => accept(refusal),
        Err(fault) => refuse(&fault, refusal, text),
    }
}

/// As [`volgwain_shift`](crate::volgwain_shift), over `KoalaBear`.
#[unsafe(no_mangle)]
pub extern "C" fn volgwain_koala_bear_shift(
    cells: &mut [[u32; 4]],
    width: usize,
    offset: &[u32; 4],
    refusal: &mut Refusal,
    text: &mut [u8],
) -> u32
    ensures answers { AnswersShift koala_bear_positive
        ⟦<KoalaBear4 as PrimeCharacteristicRing>⟧.ring cells.old width offset.now cells.new result
        refusal.new }
    ensures kept { result ≢ 0 → cells.new ≡ cells.old }
{
    match answer_shift::<2_130_706_433, KoalaBearParameters>(cells, width, offset) {
        Ok(()) => accept(refusal),
        Err(fault) => refuse(&fault, refusal, text),
    }
}

/// As [`volgwain_verify_rows`](crate::volgwain_verify_rows), over `KoalaBear`.
#[unsafe(no_mangle)]
pub extern "C" fn volgwain_koala_bear_verify_rows(
    alloc: Global,
    tables: &Tables<'_>,
    around: &Traces<'_>,
    rows: &Rows,
    ids: &[usize],
    sizes: &PlanSizes,
    alpha: &[u32; 4],
    beta: &[u32; 4],
    witness: &AirWitness<'_>,
    refusal: &mut Refusal,
    text: &mut [u8],
) -> u32
    ensures answers { AnswersVerifyRows koala_bear_positive ⟦<KoalaBear4 as Over<KoalaBear>>⟧.fields
        tables.now around.now rows.now ids.now sizes.now alpha.now beta.now witness.now result
        refusal.new }
{
    let plan = InPlan {
        ids,
        sizes,
        alpha,
        beta,
    };
    match answer_verify_rows::<2_130_706_433, KoalaBearParameters>(
        alloc, tables, around, rows, &plan, witness,
    ) {
        Ok(()) => accept(refusal),
        Err(fault) => refuse(&fault, refusal, text),
    }
}

/// As [`volgwain_degrees`](crate::volgwain_degrees), over `KoalaBear`.
#[unsafe(no_mangle)]
pub extern "C" fn volgwain_koala_bear_degrees(
    alloc: Global,
    tables: &Tables<'_>,
    transition_degree: usize,
    degrees: &mut [usize],
    refusal: &mut Refusal,
    text: &mut [u8],
) -> u32
    ensures answers { CallAnswers result refusal.new
        (CallGivesDegrees 2130706433 tables.now transition_degree degrees.new)
        (IsDegreesRefusal 2130706433 tables.now transition_degree (length degrees.old)) }
    ensures kept { result ≢ 0 → degrees.new ≡ degrees.old }
{
    match answer_degrees::<2_130_706_433, KoalaBearParameters>(
        alloc,
        tables,
        transition_degree,
        degrees,
    ) {
        Ok(()) => accept(refusal),
        Err(fault) => refuse(&fault, refusal, text),
    }
}

/// As [`volgwain_pack`](crate::volgwain_pack), over `KoalaBear`.
#[unsafe(no_mangle)]
pub extern "C" fn volgwain_koala_bear_pack(
    alloc: Global,
    tables: &Tables<'_>,
    max_degree: usize,
    nodes: &mut [Node],
    tuples: &mut [Span],
    names: &mut [u8],
    records: &mut [Record],
    sizes: &mut TableSizes,
    refusal: &mut Refusal,
    text: &mut [u8],
) -> u32
    ensures answers { AnswersPack ⟦<KoalaBear4 as Over<KoalaBear>>⟧.fields tables.now max_degree
        (table_arrays nodes.old tuples.old names.old records.old)
        (table_arrays nodes.new tuples.new names.new records.new) sizes.new result refusal.new }
    ensures kept { result ≢ 0 → (nodes.new ≡ nodes.old) × (tuples.new ≡ tuples.old)
        × (names.new ≡ names.old) × (records.new ≡ records.old) × (sizes.new ≡ sizes.old) }
{
    match answer_pack::<2_130_706_433, KoalaBearParameters>(
        alloc, tables, max_degree, nodes, tuples, names, records,
    ) {
        Ok(written) => {
            *sizes = written;
            accept(refusal)
        }
        Err(fault) => refuse(&fault, refusal, text),
    }
}

/// As [`volgwain_read_json`](crate::volgwain_read_json), over `KoalaBear`.
#[unsafe(no_mangle)]
pub extern "C" fn volgwain_koala_bear_read_json(
    alloc: Global,
    json: &[u8],
    nodes: &mut [Node],
    tuples: &mut [Span],
    names: &mut [u8],
    records: &mut [Record],
    sizes: &mut TableSizes,
    refusal: &mut Refusal,
    text: &mut [u8],
) -> u32
    ensures answers { AnswersReadJson 2130706433 json.now
        (table_arrays nodes.old tuples.old names.old records.old)
        (table_arrays nodes.new tuples.new names.new records.new) sizes.new result refusal.new }
    ensures kept { result ≢ 0 → (nodes.new ≡ nodes.old) × (tuples.new ≡ tuples.old)
        × (names.new ≡ names.old) × (records.new ≡ records.old) × (sizes.new ≡ sizes.old) }
{
    match answer_read_json::<2_130_706_433, KoalaBearParameters>(
        alloc, json, nodes, tuples, names, records,
    ) {
        Ok(written) => {
            *sizes = written;
            accept(refusal)
        }
        Err(fault) => refuse(&fault, refusal, text),
    }
}

//! The call that gives the plan of a batch.
ghost use Rattle.std.specs.Prelude.{◌≡◌, ◌≢◌, ◌+◌, ◌≤◌, ◌++◌, All, IfSome, MatchResult, length, take};
ghost use Rattle.std.specs.List.{flat_map};
ghost use Rattle.std.specs.Result.{OnErr};
ghost use Rattle.batch.specs.Runs.{plan_of};
ghost use Rattle.c_calls.specs.BatchTables.{IsPlanOfTables};
ghost use Rattle.c_calls.specs.Plan.{HasRows, IsFirstRowless, IsPlanCallRefusal, PlansNumbers, id_items};
ghost use Rattle.c_calls.specs.CallAnswers.{CallAnswers};

use crate::batch_tables::{Air, plan_of};
use crate::codes::Part;
use crate::fault::Fault;
use crate::refusal::{Refusal, accept, refuse};
use batch::BatchPlan;
use field_monty::{BabyBearParameters, MontyField31, QuarticParameters};
use std::alloc::Global;

/// The sizes of a plan.
#[repr(C)]
#[derive(Clone, Copy, Drop)]
pub struct PlanSizes {
    /// The greatest width of all tuples, at least 1.
    pub max_message_width: usize,
    /// The number of ids.
    pub num_ids: usize,
}

/// How many ids there are, if they can be counted.
fn id_count(ids: &[Vec<usize>]) -> Option<usize>
    ensures { IfSome result (λ n. n ≡ length (flat_map id_items ids.now)) }
{
    let mut count: usize = 0;
    for list in ids {
        count = count.checked_add(list.len())?;
    }
    Some(count)
}

/// Writes numbers from `at` on.
fn write_numbers(numbers: &mut [usize], at: usize, values: &[usize])
    requires { at + length values.now ≤ length numbers.old }
    ensures { take (at + length values.now) numbers.new ≡ take at numbers.old ++ values.now }
{
    for index in 0..values.len() {
        numbers[at + index] = values[index];
    }
}

/// Writes the ids of all AIRs, one after the other.
fn write_ids(numbers: &mut [usize], ids: &[Vec<usize>])
    requires { length (flat_map id_items ids.now) ≡ length numbers.old }
    ensures { numbers.new ≡ flat_map id_items ids.now }
{
    let mut at = 0;
    for list in ids {
        write_numbers(numbers, at, list.as_slice());
        at += list.len();
    }
}

/// Whether each AIR with lookups has a row.
///
/// Refuses the first that has none: over no rows no constraint binds its terminal.
fn check_airs_have_rows(airs: &[Air<'_>]) -> Result<(), Fault>
    ensures { MatchResult result (λ _. All HasRows airs.now) (IsFirstRowless airs.now) }
{
    for (index, air) in airs.iter().enumerate() {
        if air.height == 0 && !air.tables.records.is_empty() {
            return Err(Fault::Misfit { air: index });
        }
    }
    Ok(())
}

/// The plan of the AIRs, for room for so many ids.
fn plan_into_room<const P: u32, K: QuarticParameters<P>>(
    alloc: Global,
    airs: &[Air<'_>],
    room: usize,
) -> Result<BatchPlan<MontyField31<P, K>>, Fault>
    ensures { MatchResult result (λ plan. IsPlanOfTables airs.now (plan_of plan)
        × (length (flat_map id_items plan.ids.items) ≡ room) × All HasRows airs.now)
        (IsPlanCallRefusal P airs.now room) }
{
    let plan = plan_of::<P, K>(alloc, airs)?;
    check_airs_have_rows(airs)?;
    let Some(expected) = id_count(plan.ids()) else {
        return Err(Fault::Memory);
    };
    if expected != room {
        return Err(Fault::Length {
            part: Part::Ids,
            expected,
            actual: room,
        });
    }
    Ok(plan)
}

/// Does what `volgwain_plan` does, over any prime field below 2^31.
pub(crate) fn answer_plan<const P: u32, K: QuarticParameters<P>>(
    alloc: Global,
    airs: &[Air<'_>],
    ids: &mut [usize],
    plan: &mut PlanSizes,
) -> Result<(), Fault>
    ensures answers { MatchResult result (λ _. PlansNumbers P airs.now ids.new plan.new)
        (IsPlanCallRefusal P airs.now (length ids.old)) }
    ensures kept { OnErr result ((ids.new ≡ ids.old) × (plan.new ≡ plan.old)) }
{
    let made = plan_into_room::<P, K>(alloc, airs, ids.len())?;
    write_ids(ids, made.ids());
    *plan = PlanSizes {
        max_message_width: made.max_message_width(),
        num_ids: made.num_ids(),
    };
    Ok(())
}

/// Gives the plan of a batch: an id for each lookup, AIR by AIR, and its sizes.
///
/// Lookups on one bus share an id, and each local lookup has its own. Where the AIRs have ids, these are the ids,
/// and there are as many as the greatest of them and one. `volgwain_prove` and `volgwain_grid_count` make a prefix
/// for each number below that many; all other calls make those of the ids in use alone.
///
/// Refuses an AIR that has lookups and no row.
///
/// Answers 0, or the code of a refusal. A refused call leaves the ids and the sizes as they were.
#[unsafe(no_mangle)]
pub extern "C" fn volgwain_plan(
    alloc: Global,
    airs: &[Air<'_>],
    ids: &mut [usize],
    plan: &mut PlanSizes,
    refusal: &mut Refusal,
    text: &mut [u8],
) -> u32
    ensures answers { CallAnswers result refusal.new
        (PlansNumbers 2013265921 airs.now ids.new plan.new)
        (IsPlanCallRefusal 2013265921 airs.now (length ids.old)) }
    ensures kept { result ≢ 0 → (ids.new ≡ ids.old) × (plan.new ≡ plan.old) }
{
    match answer_plan::<2_013_265_921, BabyBearParameters>(alloc, airs, ids, plan) {
        Ok(()) => accept(refusal),
        Err(fault) => refuse(&fault, refusal, text),
    }
}

//! One AIR of a planned batch, as calls read it.
ghost use Rattle.std.specs.Prelude.{◌<◌, All, MatchResult};
ghost use Rattle.c_calls.specs.PlannedAirs.{ArePlannedChallenges, IsFirstLargePlannedId, IsPlannedIdsRefusal};
ghost use Rattle.c_calls.specs.internal.PlannedAirs.{IsRead, IsReadRefusal};

use crate::codes::Part;
use crate::fault::Fault;
use crate::generate::check_fit;
use crate::inputs::{challenge_of, lookups_of, traces_of};
use crate::plan::PlanSizes;
use c_tables::{ReadTraces, Tables, Traces};
use field::PrimeCharacteristicRing;
use field_monty::{MontyField31, MontyQuartic, QuarticParameters};
use lookup::{Challenges, Lookup};
use std::alloc::Global;

/// What a planned batch has for one AIR: the ids of its lookups, the sizes of the plan, and the challenges.
#[derive(Drop)]
pub(crate) struct InPlan<'a> {
    pub(crate) ids: &'a [usize],
    pub(crate) sizes: &'a PlanSizes,
    pub(crate) alpha: &'a [u32; 4],
    pub(crate) beta: &'a [u32; 4],
}

/// An AIR of a planned batch.
#[derive(Drop)]
pub(crate) struct PlannedAir<F, EF> {
    pub(crate) lookups: Vec<Lookup<F>>,
    pub(crate) traces: ReadTraces<F>,
    /// An alpha and a beta for each lookup.
    pub(crate) challenges: Vec<EF>,
}

/// Whether all ids are below a number.
///
/// Refuses the first one that is not.
fn check_given_ids(ids: &[usize], num_ids: usize) -> Result<(), Fault>
    ensures { MatchResult result (λ _. All (λ id. id < num_ids) ids.now)
        (IsFirstLargePlannedId ids.now num_ids) }
{
    for (index, id) in ids.iter().enumerate() {
        if *id >= num_ids {
            return Err(Fault::Id { index });
        }
    }
    Ok(())
}

/// The challenges of these ids under a plan of these sizes: an alpha and a beta for each id.
fn challenges_of_plan<const P: u32, K: QuarticParameters<P>>(
    alloc: Global,
    ids: &[usize],
    sizes: &PlanSizes,
    alpha: MontyQuartic<P, K>,
    beta: MontyQuartic<P, K>,
) -> Result<Vec<MontyQuartic<P, K>>, Fault>
    ensures { let R = ⟦<MontyQuartic<P, K> as PrimeCharacteristicRing>⟧.ring in
        MatchResult result (λ v. ArePlannedChallenges R ids.now sizes.now alpha beta v.items)
        (IsPlannedIdsRefusal ids.now sizes.now) }
{
    let width = sizes.max_message_width;
    if width == 0 {
        return Err(Fault::Width);
    }
    check_given_ids(ids, sizes.num_ids)?;
    Ok(Challenges::for_ids(alloc, alpha, beta, width, ids)?)
}

/// Reads an AIR of a planned batch.
///
/// Refuses the first of these with a fault: the tables, the traces, alpha, beta, the number of ids, the
/// sizes of the plan, an id, whether the lookups fit the traces, and the heights of the traces.
pub(crate) fn read_air<const P: u32, K: QuarticParameters<P>>(
    alloc: Global,
    tables: &Tables<'_>,
    traces: &Traces<'_>,
    plan: &InPlan<'_>,
) -> Result<PlannedAir<MontyField31<P, K>, MontyQuartic<P, K>>, Fault>
    ensures { let R = ⟦<MontyQuartic<P, K> as PrimeCharacteristicRing>⟧.ring in
        MatchResult result (IsRead K.positive R tables.now traces.now plan.now)
        (IsReadRefusal K.positive tables.now traces.now plan.now) }
{
    let lookups = lookups_of::<P, K>(alloc, 0, tables)?;
    let traces = traces_of::<P, K>(alloc, 0, traces)?;
    let alpha = challenge_of::<P, K>(Part::Alphas, *plan.alpha)?;
    let beta = challenge_of::<P, K>(Part::Betas, *plan.beta)?;
    if plan.ids.len() != lookups.len() {
        return Err(Fault::Length {
            part: Part::Ids,
            expected: lookups.len(),
            actual: plan.ids.len(),
        });
    }
    let challenges = challenges_of_plan::<P, K>(alloc, plan.ids, plan.sizes, alpha, beta)?;
    check_fit(&traces, &lookups)?;
    Ok(PlannedAir {
        lookups,
        traces,
        challenges,
    })
}

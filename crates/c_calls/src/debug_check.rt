//! The call that finds the first tuple that does not balance.
ghost use Rattle.std.specs.Prelude.{◌≡◌, ◌⊎◌, MatchResult, length, map};
ghost use Rattle.field_monty.specs.laws.BabyBear.{baby_bear_positive};
ghost use Rattle.lookup_debug.specs.Contributions.{AreFitting, IsTracedFitting, traced_of};
ghost use Rattle.c_calls.specs.DebugCheck.{AreDebugInstances, AreDebugSets, DebugChecksTables, DebugChecksTraced, IsDebugCheckRefusal, IsDebugMisfit, IsDebugMismatch, IsDebugSetsRefusal, IsFirstDebugMisfit, all_debug_traced, debug_traced};
ghost use Rattle.c_calls.specs.CallAnswers.{CallAnswers};

use crate::batch_tables::{all_traces, set_of};
use crate::codes::Part;
use crate::fault::Fault;
use crate::refusal::{Refusal, accept, refuse};
use air_expressions::AirLayout;
use c_tables::{ReadTraces, Tables, Traces};
use field::Over;
use field_monty::{
    BabyBear, BabyBear4, BabyBearParameters, MontyField31, MontyQuartic, QuarticParameters,
};
use lookup::debug_util::{LookupDebugInstance, LookupFault, check_lookups};
use lookup::{Lookups, fits};
use std::alloc::Global;

/// The sets of lookups that tables encode, AIR by AIR.
pub(crate) fn table_sets<const P: u32, K: QuarticParameters<P>>(
    alloc: Global,
    airs: &[Tables<'_>],
) -> Result<Vec<Lookups<MontyField31<P, K>>>, Fault>
    ensures { MatchResult result (λ v. AreDebugSets airs.now v.items)
        (IsDebugSetsRefusal P airs.now) }
{
    let mut sets = Vec::with_capacity(alloc, airs.len())?;
    for (index, air) in airs.iter().enumerate() {
        sets.push(set_of::<P, K>(alloc, index, air)?)?;
    }
    Ok(sets)
}

/// What the debug check is given of an AIR.
///
/// Refuses lookups that do not fit the traces, and then a preprocessed trace of another height.
fn debug_instance<'a, const P: u32, K: QuarticParameters<P>>(
    air: usize,
    set: &'a Lookups<MontyField31<P, K>>,
    traces: &'a ReadTraces<MontyField31<P, K>>,
) -> Result<LookupDebugInstance<'a, MontyField31<P, K>>, Fault>
    ensures { MatchResult result
        (λ i. (traced_of i ≡ debug_traced set.now traces.now) × IsTracedFitting (traced_of i))
        (IsDebugMisfit air (debug_traced set.now traces.now)) }
{
    let preprocessed = traces.preprocessed.as_ref();
    let public_values = traces.public_values.as_slice();
    let layout = AirLayout::of_traces(&traces.main, preprocessed, public_values);
    if !fits(set.as_slice(), &layout) {
        return Err(Fault::Misfit { air });
    }
    if let Some(trace) = preprocessed {
        if trace.height() != traces.main.height() {
            return Err(Fault::Heights { air });
        }
    }
    Ok(LookupDebugInstance {
        main_trace: &traces.main,
        preprocessed_trace: preprocessed,
        public_values,
        lookups: set.as_slice(),
        permutation_challenges: &[],
    })
}

/// What the debug check is given of all AIRs.
///
/// Refuses the first AIR whose lookups do not fit its traces.
pub(crate) fn debug_instances<'a, const P: u32, K: QuarticParameters<P>>(
    alloc: Global,
    sets: &'a [Lookups<MontyField31<P, K>>],
    traces: &'a [ReadTraces<MontyField31<P, K>>],
) -> Result<Vec<LookupDebugInstance<'a, MontyField31<P, K>>>, Fault>
    requires { length sets.now ≡ length traces.now }
    ensures { MatchResult result (AreDebugInstances sets.now traces.now)
        (λ fault. (fault ≡ Fault.Memory)
        ⊎ IsFirstDebugMisfit (all_debug_traced sets.now traces.now) fault) }
{
    let mut instances = Vec::with_capacity(alloc, sets.len())?;
    for air in 0..sets.len() {
        instances.push(debug_instance(air, &sets[air], &traces[air])?)?;
    }
    Ok(instances)
}

/// Checks that all tuples balance.
///
/// Refuses the first mismatch, with its text.
fn check_instances<const P: u32, K: QuarticParameters<P>>(
    alloc: Global,
    instances: &[LookupDebugInstance<'_, MontyField31<P, K>>],
) -> Result<(), Fault>
    requires { AreFitting instances.now }
    ensures { let E = ⟦<MontyQuartic<P, K> as Over<MontyField31<P, K>>>⟧.fields in
        MatchResult result (λ _. DebugChecksTraced E (map traced_of instances.now))
        (IsDebugMismatch E (map traced_of instances.now)) }
{
    match check_lookups(alloc, instances) {
        Ok(()) => Ok(()),
        Err(LookupFault::Memory) => Err(Fault::Memory),
        Err(mismatch) => Err(Fault::Mismatch {
            text: mismatch.text(alloc)?,
        }),
    }
}

/// Does what `volgwain_debug_check` does, over any prime field below 2^31.
pub(crate) fn answer_debug_check<const P: u32, K: QuarticParameters<P>>(
    alloc: Global,
    airs: &[Tables<'_>],
    traces: &[Traces<'_>],
) -> Result<(), Fault>
    ensures { let E = ⟦<MontyQuartic<P, K> as Over<MontyField31<P, K>>>⟧.fields in
        MatchResult result (λ _. DebugChecksTables K.positive E airs.now traces.now)
        (IsDebugCheckRefusal K.positive E airs.now traces.now) }
{
    if traces.len() != airs.len() {
        return Err(Fault::Length {
            part: Part::Batch,
            expected: airs.len(),
            actual: traces.len(),
        });
    }
    let sets = table_sets::<P, K>(alloc, airs)?;
    let all = all_traces::<P, K>(alloc, traces)?;
    let instances = debug_instances(alloc, &sets, &all)?;
    check_instances(alloc, &instances)
}

/// Checks that all tuples balance: those of each local lookup by itself, and then those of each bus.
///
/// Answers 0 if they do, or the code of a refusal; the text of a mismatch names the tuple, by how much it
/// does not balance, and where it is sent.
#[unsafe(no_mangle)]
pub extern "C" fn volgwain_debug_check(
    alloc: Global,
    airs: &[Tables<'_>],
    traces: &[Traces<'_>],
    refusal: &mut Refusal,
    text: &mut [u8],
) -> u32
    ensures answers { let E = ⟦<BabyBear4 as Over<BabyBear>>⟧.fields in
        CallAnswers result refusal.new (DebugChecksTables baby_bear_positive E airs.now traces.now)
        (IsDebugCheckRefusal baby_bear_positive E airs.now traces.now) }
{
    match answer_debug_check::<2_013_265_921, BabyBearParameters>(alloc, airs, traces) {
        Ok(()) => accept(refusal),
        Err(fault) => refuse(&fault, refusal, text),
    }
}

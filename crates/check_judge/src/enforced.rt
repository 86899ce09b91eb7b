//! What the constraints of AIRs enforce of their lookups.
ghost use Rattle.std.specs.Prelude.{◌≡◌, ◌↔◌, All, IfOk, IsTrue, length, map};
ghost use Rattle.std.specs.List.{AllZip, zip};
ghost use Rattle.lookup.specs.Lookups.{lookups_of};
ghost use Rattle.lookup_enforced.specs.Enforced.{IsEnforcement};
ghost use Rattle.check_judge.specs.Constraints.{over_constrained};
ghost use Rattle.check_judge.specs.Counts.{counts_for, queries_of};
ghost use Rattle.check_judge.specs.Airs.{AreFittingAirs, IsFittingAir};
ghost use Rattle.check_judge.specs.Enforced.{IsAllEnforced, IsEnforcedAir, IsEnforcedOver, IsWeightShown};
ghost use Rattle.check_judge.specs.internal.Asserted.{asserted_air_of};

use crate::airs::AirOver;
use crate::counts::{SaidCount, counts_at};
use air_expressions::SymbolicExpression;
use field::Field;
use lookup::{Lookup, Lookups};
use lookup_enforced::{Enforcement, constraints_over_fixed, enforcements, keeps_weight};
use std::alloc::{AllocError, Global};

/// What the constraints of an AIR are shown to enforce of its lookups, on all traces of its height on whose rows they
/// are zero, and which have its preprocessed trace where that is known. What is not shown may still be so.
#[derive(Debug, Drop)]
pub struct EnforcedAir {
    /// What is shown of the flags and the counts of each lookup, in the order of the text.
    pub lookups: Vec<Enforcement>,
    /// Whether the weight of each lookup is shown to be kept, where all messages are queries but those that are
    /// provided.
    pub weights: Vec<bool>,
}

/// What the constraints of all AIRs are shown to enforce.
#[derive(Debug, Drop)]
pub struct EnforcedAirs {
    /// The AIRs, in their order.
    pub airs: Vec<EnforcedAir>,
    /// Whether all flags and all weights are shown to be enforced.
    pub all: bool,
}

impl EnforcedAirs {
    /// These AIRs, and whether all of their flags and weights are shown to be enforced.
    pub(crate) fn of_airs(airs: Vec<EnforcedAir>) -> EnforcedAirs
        ensures airs { result.airs ≡ airs }
        ensures all { IsTrue result.all ↔ All IsAllEnforced result.airs.items }
    {
        let all = are_all_enforced(airs.as_slice());
        EnforcedAirs { airs, all }
    }
}

/// The lookups of an AIR with its constraints, for traces of a height.
#[derive(Drop)]
pub(crate) struct AssertedAir<'a, F> {
    pub(crate) lookups: &'a Lookups<F>,
    pub(crate) constraints: Vec<SymbolicExpression<F>>,
    pub(crate) counts: Vec<Vec<SaidCount>>,
    pub(crate) height: usize,
}

/// What is shown of each AIR over its traces: for all traces of their heights that have their preprocessed ones.
///
/// Fails only when out of memory.
pub(crate) fn enforced_over<F: Field>(
    alloc: Global,
    airs: &[AirOver<F>],
) -> Result<Vec<EnforcedAir>, AllocError>
    requires { AreFittingAirs airs.now }
    ensures { IfOk result (λ v. AllZip (λ air found. IsEnforcedOver F.ring F.eq
        (over_constrained air) found) airs.now v.items) }
{
    let mut enforced = Vec::with_capacity(alloc, airs.len())?;
    for index in 0..airs.len() {
        enforced.push(enforced_over_fixed(alloc, &airs[index])?)?;
    }
    Ok(enforced)
}

/// What is shown of an AIR for all traces of the height of its own that have its preprocessed one.
///
/// Fails only when out of memory.
fn enforced_over_fixed<F: Field>(alloc: Global, air: &AirOver<F>) -> Result<EnforcedAir, AllocError>
    requires { IsFittingAir air.now }
    ensures { IfOk result (IsEnforcedOver F.ring F.eq (over_constrained air.now)) }
{
    let (lookups, height) = (air.lookups.as_slice(), air.main.height());
    match &air.preprocessed {
        None => Ok(enforced_air(alloc, lookups, &air.constraints, &air.counts, height)?),
        Some(fixed) => {
            let known = constraints_over_fixed(alloc, &air.constraints, lookups, fixed)?;
            Ok(enforced_air(alloc, lookups, &known, &air.counts, height)?)
        }
    }
}

/// What is shown of each AIR before any trace is seen.
///
/// Fails only when out of memory.
pub(crate) fn enforced_before<F: Field>(
    alloc: Global,
    airs: &[AssertedAir<'_, F>],
) -> Result<Vec<EnforcedAir>, AllocError>
    ensures { IfOk result (λ v. AllZip (λ air found. IsEnforcedAir F.ring F.eq
        (asserted_air_of air) found) airs.now v.items) }
{
    let mut enforced = Vec::with_capacity(alloc, airs.len())?;
    for index in 0..airs.len() {
        let air = &airs[index];
        let lookups = air.lookups.as_slice();
        let shown = enforced_air(alloc, lookups, &air.constraints, &air.counts, air.height)?;
        enforced.push(shown)?;
    }
    Ok(enforced)
}

/// What is shown of an AIR with these lookups and constraints, for traces of this height.
fn enforced_air<F: Field>(
    alloc: Global,
    lookups: &[Lookup<F>],
    constraints: &[SymbolicExpression<F>],
    counts: &[Vec<SaidCount>],
    height: usize,
) -> Result<EnforcedAir, AllocError>
    ensures { IfOk result (IsEnforcedAir F.ring F.eq (record {
      lookups = lookups.now;
      constraints = constraints.now;
      counts = map (λ c. c.items) counts.now;
      height = height;
    })) }
{
    let shown = enforcements(alloc, constraints, lookups, height)?;
    let weights = weights_kept(alloc, lookups, shown.as_slice(), counts)?;
    Ok(EnforcedAir {
        lookups: shown,
        weights,
    })
}

/// Whether what is shown of each lookup shows that its weight is kept.
fn weights_kept<F: Field>(
    alloc: Global,
    lookups: &[Lookup<F>],
    shown: &[Enforcement],
    counts: &[Vec<SaidCount>],
) -> Result<Vec<bool>, AllocError>
    requires { length shown.now ≡ length lookups.now }
    ensures { IfOk result (λ v. AllZip (λ p kept. IsWeightShown F.ring F.eq p.0 p.1
        (queries_of (counts_for (map (λ c. c.items) counts.now) p.0.column)) kept)
        (zip lookups.now shown.now) v.items) }
{
    let mut weights = Vec::with_capacity(alloc, lookups.len())?;
    for index in 0..lookups.len() {
        let lookup = &lookups[index];
        let queries = queries_of(alloc, counts_at(counts, lookup.column))?;
        weights.push(keeps_weight(lookup, &shown[index], queries.as_slice()))?;
    }
    Ok(weights)
}

/// Which of these messages are queries.
fn queries_of(alloc: Global, counts: &[SaidCount]) -> Result<Vec<bool>, AllocError>
    ensures { IfOk result (λ v. v.items ≡ queries_of counts.now) }
{
    let mut queries = Vec::with_capacity(alloc, counts.len())?;
    for count in counts {
        queries.push(count.is_query)?;
    }
    Ok(queries)
}

/// Whether all flags and all weights of all AIRs are shown to be enforced.
fn are_all_enforced(airs: &[EnforcedAir]) -> bool
    ensures { IsTrue result ↔ All IsAllEnforced airs.now }
{
    for index in 0..airs.len() {
        if !is_all_enforced(&airs[index]) {
            return false;
        }
    }
    true
}

/// Whether all flags and all weights of an AIR are.
fn is_all_enforced(air: &EnforcedAir) -> bool
    ensures { IsTrue result ↔ IsAllEnforced air.now }
{
    have_flags_shown(air.lookups.as_slice()) && are_kept(air.weights.as_slice())
}

/// Whether the flags of all lookups are shown to be lawful.
fn have_flags_shown(lookups: &[Enforcement]) -> bool
    ensures { IsTrue result ↔ All (λ e. IsTrue e.flags) lookups.now }
{
    lookups.iter().all(|lookup| lookup.flags)
}

/// Whether all weights are shown to be kept.
fn are_kept(weights: &[bool]) -> bool
    ensures { IsTrue result ↔ All IsTrue weights.now }
{
    weights.iter().all(|kept| *kept)
}

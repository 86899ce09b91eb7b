//! The sizes of AIRs, and what is found of each.
ghost use Rattle.std.specs.Prelude.{◌≡◌, ◌⊎◌, ◌-◌, ◌^◌, MatchResult, map, min};
ghost use Rattle.std.specs.List.{AllZip};
ghost use Rattle.lookup.specs.Lookups.{lookups_of};
ghost use Rattle.check_judge.specs.Causes.{IsDegreeRefusal, IsFirstPackingRefusal, IsPackingRefusal};
ghost use Rattle.check_judge.specs.Found.{IsAirFound, height_sum};
ghost use Rattle.check_judge.specs.Refusals.{of_lookups};
ghost use Rattle.check_judge.specs.internal.Sizes.{sized_lookups_of};
ghost use Rattle.check_judge.specs.internal.Sharing.{AllHaveTuples, HaveTuples};
ghost use Rattle.lookup_model.specs.LookupDegree.{lookup_degree};
ghost use Rattle.lookup_model.specs.Outline.{outline_of};

use crate::fault::JudgeFault;
use crate::report::AirReport;
use crate::sharing::{packing_order, sharing};
use field::Field;
use lookup::{LogUpGadget, LookupError, LookupProtocol, Lookups};
use std::alloc::Global;

/// The lookups of an AIR, and how many rows and columns its main trace has.
#[derive(Clone, Copy)]
pub(crate) struct SizedAir<'a, F> {
    pub(crate) lookups: &'a Lookups<F>,
    pub(crate) rows: usize,
    pub(crate) columns: usize,
}

/// What is found of each AIR, with columns packed within this degree.
pub(crate) fn reports_of<F: Field>(
    alloc: Global,
    airs: &[SizedAir<'_, F>],
    max_degree: usize,
) -> Result<Vec<AirReport>, JudgeFault>
    requires { AllHaveTuples (map sized_lookups_of airs.now) }
    ensures { MatchResult result (λ v. AllZip (λ air found. IsAirFound F.ring F.eq max_degree
        (sized_lookups_of air) found) airs.now v.items)
        (λ e. (e ≡ JudgeFault.Memory)
        ⊎ IsFirstPackingRefusal F.ring F.eq max_degree (map sized_lookups_of airs.now) e) }
{
    let mut reports = Vec::new(alloc);
    for index in 0..airs.len() {
        match report_of(alloc, &airs[index], max_degree) {
            Ok(report) => reports.push(report)?,
            Err(error) => return Err(refusal_of(index, error)),
        }
    }
    Ok(reports)
}

/// The refusal of an AIR; out of memory keeps its name.
fn refusal_of(air: usize, error: LookupError) -> JudgeFault
    ensures { result ≡ of_lookups air error }
{
    match error {
        LookupError::Memory => JudgeFault::Memory,
        other => JudgeFault::Lookups { air, error: other },
    }
}

/// What is found of an AIR.
fn report_of<F: Field>(
    alloc: Global,
    air: &SizedAir<'_, F>,
    max_degree: usize,
) -> Result<AirReport, LookupError>
    requires { HaveTuples (map outline_of (sized_lookups_of air.now).lookups) }
    ensures { MatchResult result (IsAirFound F.ring F.eq max_degree (sized_lookups_of air.now))
        (λ e. (e ≡ LookupError.Memory) ⊎ IsPackingRefusal max_degree (sized_lookups_of air.now) e) }
{
    let copy = air.lookups.copy(alloc)?;
    let order = packing_order(alloc, copy.as_slice())?;
    let packed = copy.pack_same_bus(alloc, &LogUpGadget::new(), max_degree)?;
    Ok(AirReport {
        rows: air.rows,
        columns: air.columns,
        weight: air.lookups.total_count_weight(),
        degrees: degrees_of(alloc, air.lookups)?,
        packed: degrees_of(alloc, &packed)?,
        packed_lookups: sharing(alloc, &order, packed.as_slice())?,
    })
}

/// The degree of the constraint of each lookup.
fn degrees_of<F: Field>(alloc: Global, lookups: &Lookups<F>) -> Result<Vec<usize>, LookupError>
    ensures { MatchResult result (λ v. v.items ≡ map (lookup_degree 0) (lookups_of lookups.now))
        (λ e. (e ≡ LookupError.Memory) ⊎ IsDegreeRefusal (lookups_of lookups.now) e) }
{
    let mut degrees = Vec::new(alloc);
    for lookup in lookups.as_slice() {
        degrees.push(LogUpGadget::new().constraint_degree(lookup)?)?;
    }
    Ok(degrees)
}

/// The sum of weights times heights, or the greatest `u128`.
pub(crate) fn height_sum<F: Field>(airs: &[SizedAir<'_, F>]) -> u128
    ensures { result ≡ min (height_sum (map sized_lookups_of airs.now)) (2 ^ 128 - 1) }
{
    let mut sum = 0u128;
    for air in airs {
        let weight = air.lookups.total_count_weight();
        sum = sum.saturating_add(weight.saturating_mul(air.rows as u128));
    }
    sum
}

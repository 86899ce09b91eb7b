//! Counts that are greater on a row than `at most` says.
ghost use Rattle.std.specs.Prelude.{◌≡◌, ◌↔◌, ◌<◌, ℕ, All, IfOk, IsTrue, MatchOption, None, Some, length, map, slice_get};
ghost use Rattle.std.specs.List.{AllZip};
ghost use Rattle.air.specs.Traces.{AirTraces, height_of, traces_of, window_of};
ghost use Rattle.check_judge.specs.Airs.{AreFittingAirs, IsFittingAir};
ghost use Rattle.check_judge.specs.Constraints.{over_constrained};
ghost use Rattle.check_judge.specs.Counts.{counts_for};
ghost use Rattle.check_judge.specs.Excesses.{AreExcesses, CountsMore, IsExcess, IsExcessFound, IsSetAt, IsWithin, most_of, size_of};

use crate::airs::AirOver;
use crate::counts::{SaidCount, counts_at};
use air::Traces;
use air_constraints::value_on_row;
use field_list::TableField;
use lookup::Lookup;
use std::alloc::{AllocError, Global};

/// A message that counts more on a row than `at most` says: the first one of its lookup that does so on any row, and
/// the first such row. Both count from 0.
#[derive(Debug, Clone, Copy)]
pub struct Excess<F> {
    pub row: usize,
    pub message: usize,
    /// How often it counts on the row.
    pub count: F,
}

/// What is found of each lookup of each AIR: nothing where no message that is sent counts more than `at most` says.
///
/// Fails only when out of memory.
pub(crate) fn excesses_of<F: TableField>(
    alloc: Global,
    airs: &[AirOver<F>],
) -> Result<Vec<Vec<Option<Excess<F>>>>, AllocError>
    requires { AreFittingAirs airs.now }
    ensures { IfOk result (λ v. AllZip (λ air found. AreExcesses F.CHARACTERISTIC F.number F.ring F.eq
        (over_constrained air) found.items) airs.now v.items) }
{
    let mut excesses = Vec::with_capacity(alloc, airs.len())?;
    for index in 0..airs.len() {
        let found = excesses_of_air(alloc, &airs[index])?;
        excesses.push(found)?;
    }
    Ok(excesses)
}

/// What is found of each lookup of an AIR.
fn excesses_of_air<F: TableField>(
    alloc: Global,
    air: &AirOver<F>,
) -> Result<Vec<Option<Excess<F>>>, AllocError>
    requires { IsFittingAir air.now }
    ensures { IfOk result (λ v. AreExcesses F.CHARACTERISTIC F.number F.ring F.eq
        (over_constrained air.now) v.items) }
{
    let traces = Traces {
        main: &air.main,
        preprocessed: air.preprocessed.as_ref(),
        public_values: air.public_values.as_slice(),
    };
    excesses_over(alloc, air.lookups.as_slice(), &air.counts, &traces)
}

/// What is found of each of these lookups.
fn excesses_over<F: TableField>(
    alloc: Global,
    lookups: &[Lookup<F>],
    counts: &[Vec<SaidCount>],
    traces: &Traces<'_, F>,
) -> Result<Vec<Option<Excess<F>>>, AllocError>
    ensures { IfOk result (λ v. AllZip (λ lookup found. IsExcessFound F.CHARACTERISTIC F.number F.ring F.eq
        (traces_of traces.now) lookup (counts_for (map (λ c. c.items) counts.now) lookup.column) found)
        lookups.now v.items) }
{
    let mut excesses = Vec::with_capacity(alloc, lookups.len())?;
    for index in 0..lookups.len() {
        let lookup = &lookups[index];
        let said = counts_at(counts, lookup.column);
        excesses.push(first_excess(lookup, said, traces))?;
    }
    Ok(excesses)
}

/// The first message of a lookup that counts more on a row than is said, on the first such row.
fn first_excess<F: TableField>(
    lookup: &Lookup<F>,
    said: &[SaidCount],
    traces: &Traces<'_, F>,
) -> Option<Excess<F>>
    ensures { IsExcessFound F.CHARACTERISTIC F.number F.ring F.eq (traces_of traces.now) lookup.now said.now
        result }
{
    for message in 0..said.len() {
        if let Some(excess) = excess_at(lookup, said, message, traces) {
            return Some(excess);
        }
    }
    None
}

/// The first row on which a message counts more than is said of it.
fn excess_at<F: TableField>(
    lookup: &Lookup<F>,
    said: &[SaidCount],
    message: usize,
    traces: &Traces<'_, F>,
) -> Option<Excess<F>>
    requires { message < length said.now }
    ensures { MatchOption result
        (IsWithin F.CHARACTERISTIC F.number F.ring F.eq (traces_of traces.now) lookup.now said.now message)
        (λ e. (bound : ℕ) × (most_of (slice_get said.now message) ≡ Some bound)
        × IsExcess F.CHARACTERISTIC F.number F.ring F.eq (traces_of traces.now) lookup.now message bound e) }
{
    match said[message].at_most {
        Some(most) => excess_of(lookup, message, most, traces),
        None => None,
    }
}

/// The first row on which a message counts more than this.
fn excess_of<F: TableField>(
    lookup: &Lookup<F>,
    message: usize,
    most: u64,
    traces: &Traces<'_, F>,
) -> Option<Excess<F>>
    ensures { MatchOption result
        ((r : ℕ) (count : F) → r < height_of (traces_of traces.now)
        → ¬ CountsMore F.CHARACTERISTIC F.number F.ring F.eq (window_of (traces_of traces.now) r) lookup.now message most count)
        (IsExcess F.CHARACTERISTIC F.number F.ring F.eq (traces_of traces.now) lookup.now message most) }
{
    for row in 0..traces.main.height() {
        if let Some(count) = count_over(lookup, message, most, traces, row) {
            return Some(Excess {
                row,
                message,
                count,
            });
        }
    }
    None
}

/// How often a message counts on a row, if it is sent there and counts more than this.
fn count_over<F: TableField>(
    lookup: &Lookup<F>,
    message: usize,
    most: u64,
    traces: &Traces<'_, F>,
    row: usize,
) -> Option<F>
    requires { row < height_of (traces_of traces.now) }
    ensures { MatchOption result
        ((count : F) → ¬ CountsMore F.CHARACTERISTIC F.number F.ring F.eq (window_of (traces_of traces.now) row) lookup.now message most count)
        (CountsMore F.CHARACTERISTIC F.number F.ring F.eq (window_of (traces_of traces.now) row) lookup.now message most) }
{
    if message >= lookup.multiplicities.len() || !is_set(lookup, message, traces, row) {
        return None;
    }
    let count = value_on_row(&lookup.multiplicities[message], traces, row);
    if magnitude(count) > u128::from(most) {
        Some(count)
    } else {
        None
    }
}

/// Whether a message is sent on a row: its lookup has no flags, or its flag is set.
fn is_set<F: TableField>(
    lookup: &Lookup<F>,
    message: usize,
    traces: &Traces<'_, F>,
    row: usize,
) -> bool
    requires { row < height_of (traces_of traces.now) }
    ensures { IsTrue result ↔ IsSetAt F.ring F.eq (window_of (traces_of traces.now) row) lookup.now message }
{
    match &lookup.flags {
        None => true,
        Some(flags) => {
            message < flags.len() && value_on_row(&flags[message], traces, row) == F::ONE
        }
    }
}

/// An element without its sign.
pub fn magnitude<F: TableField>(element: F) -> u128
    ensures { result ≡ size_of F.CHARACTERISTIC F.number element }
{
    let number = element.as_number();
    let size = if element.is_negative() {
        F::modulus().saturating_sub(number)
    } else {
        number
    };
    u128::from(size)
}

/// Whether nothing is found of any lookup.
pub(crate) fn are_all_within<F>(excesses: &[Vec<Option<Excess<F>>>]) -> bool
    ensures { IsTrue result ↔ All (λ found. All (λ excess. excess ≡ None) found.items) excesses.now }
{
    excesses.iter().all(|found| are_within(found.as_slice()))
}

/// Whether nothing is found of any of these lookups.
fn are_within<F>(excesses: &[Option<Excess<F>>]) -> bool
    ensures { IsTrue result ↔ All (λ excess. excess ≡ None) excesses.now }
{
    excesses.iter().all(|excess| excess.is_none())
}

//! Which lookups fit the traces of an AIR.
ghost use Rattle.std.specs.Prelude.{◌↔◌, All, IsTrue, IfSome, MatchOption};
ghost use Rattle.lookup_model.specs.Records.{AllFit, AreRecords, HasEqualLengths, IsFirstMalformed, IsRecordAt, IsWithin, LookupsFit};

use crate::types::Lookup;
use air_expressions::{AirLayout, SymbolicExpression};

/// Whether lookups fit an AIR of this layout:
///
/// - each has as many multiplicities as tuples and, if it has flags, as many flags;
/// - their columns are 0, 1, 2, …;
/// - their variables have offset 0 or 1, and indices below the layout's widths and number of public
///   values.
pub fn fits<F>(lookups: &[Lookup<F>], layout: &AirLayout) -> bool
    ensures { IsTrue result ↔ LookupsFit layout.now lookups.now }
{
    first_malformed(lookups).is_none() && are_within(lookups, layout)
}

/// The first lookup whose lists have different lengths or whose column is not its index.
pub fn first_malformed<F>(lookups: &[Lookup<F>]) -> Option<usize>
    ensures { MatchOption result (AreRecords lookups.now) (IsFirstMalformed lookups.now) }
{
    for (column, lookup) in lookups.iter().enumerate() {
        if !is_record_at(lookup, column) {
            return Some(column);
        }
    }
    None
}

fn is_record_at<F>(lookup: &Lookup<F>, column: usize) -> bool
    ensures { IsTrue result ↔ IsRecordAt column lookup.now }
{
    lookup.column == column && has_equal_lengths(lookup)
}

/// Whether a lookup has one multiplicity for each tuple and, if it has flags, one flag for each.
pub fn has_equal_lengths<F>(lookup: &Lookup<F>) -> bool
    ensures { IsTrue result ↔ HasEqualLengths lookup.now }
{
    let tuples = lookup.elements.len();
    let flags = match &lookup.flags {
        Some(flags) => flags.len(),
        None => tuples,
    };
    lookup.multiplicities.len() == tuples && flags == tuples
}

fn are_within<F>(lookups: &[Lookup<F>], layout: &AirLayout) -> bool
    ensures { IsTrue result ↔ All (IsWithin layout.now) lookups.now }
{
    lookups.iter().all(|lookup| is_within(lookup, layout))
}

#[tactic(auto, unfolding(crate::specs::Records::IsWithin))]
fn is_within<F>(lookup: &Lookup<F>, layout: &AirLayout) -> bool
    ensures { IsTrue result ↔ IsWithin layout.now lookup.now }
{
    elements_fit(&lookup.elements, layout)
        && all_fit(&lookup.multiplicities, layout)
        && flags_fit(&lookup.flags, layout)
}

fn elements_fit<F>(elements: &[Vec<SymbolicExpression<F>>], layout: &AirLayout) -> bool
    ensures { IsTrue result ↔ All (λ tuple. AllFit layout.now tuple.items) elements.now }
{
    elements.iter().all(|tuple| all_fit(tuple, layout))
}

fn flags_fit<F>(flags: &Option<Vec<SymbolicExpression<F>>>, layout: &AirLayout) -> bool
    ensures { IsTrue result ↔ IfSome flags.now (λ flags. AllFit layout.now flags.items) }
{
    match flags {
        Some(flags) => all_fit(flags, layout),
        None => true,
    }
}

#[tactic(auto, unfolding(crate::specs::Records::AllFit))]
fn all_fit<F>(expressions: &[SymbolicExpression<F>], layout: &AirLayout) -> bool
    ensures { IsTrue result ↔ AllFit layout.now expressions.now }
{
    expressions.iter().all(|expression| expression.fits(layout))
}

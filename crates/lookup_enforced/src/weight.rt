//! Whether the queries of a lookup stay within its weight.
ghost use Rattle.std.specs.Prelude.{◌≡◌, ◌↔◌, ◌≤◌, ℕ, IsTrue, List, MatchOption, false, length, true};
ghost use Rattle.std.specs.List.{zip};
ghost use Rattle.air_expressions.specs.declared.base_expression.SymbolicExpression.{SymbolicExpression};
ghost use Rattle.lookup_enforced.specs.Enforced.{EnforcesWeight, IsEnforcement};
ghost use Rattle.lookup_enforced.specs.Weights.{AreWithin, HasBound, StaysWithinWeight, query_bound};

use crate::enforcement::Enforcement;
use field::Field;
use lookup_model::{Lookup, has_equal_lengths};

/// Whether the bounds of the queries of a lookup show that it keeps its weight: `queries` has an entry for each
/// tuple, true for a query and false for a provided entry.
///
/// Each query must have a bound. If the lookup has flags, and they are shown to be lawful, each bound must be at
/// most `count_weight`, since a row sends at most one tuple; otherwise their sum must be.
///
/// If so, the weight is enforced by all constraints that enforce what `enforcement` has, at each height at which
/// they do.
pub fn keeps_weight<F: Field>(
    lookup: &Lookup<F>,
    enforcement: &Enforcement,
    queries: &[bool],
) -> bool
    ensures answer { IsTrue result ↔ StaysWithinWeight lookup.now enforcement.now queries.now }
    ensures enforced { IsTrue result → (height : ℕ) (constraints : List (SymbolicExpression F))
        → IsEnforcement F.ring F.eq height constraints lookup.now enforcement.now
        → EnforcesWeight F.ring F.eq height constraints lookup.now queries.now }
{
    stays_within_weight(lookup, enforcement, queries)
}

/// Whether the bounds of the queries of a lookup stay within its weight.
fn stays_within_weight<F>(lookup: &Lookup<F>, enforcement: &Enforcement, queries: &[bool]) -> bool
    ensures { IsTrue result ↔ StaysWithinWeight lookup.now enforcement.now queries.now }
{
    let bounds = enforcement.bounds.as_slice();
    if !has_equal_lengths(lookup)
        || queries.len() != lookup.multiplicities.len()
        || queries.len() != bounds.len()
    {
        return false;
    }
    if lookup.flags.is_some() && enforcement.flags {
        each_is_within(bounds, queries, lookup.count_weight)
    } else {
        all_are_within(bounds, queries, lookup.count_weight)
    }
}

/// Whether each query has a bound, which is at most the weight.
fn each_is_within(bounds: &[Option<u64>], queries: &[bool], weight: u64) -> bool
    requires { length queries.now ≡ length bounds.now }
    ensures { IsTrue result ↔ AreWithin true (zip bounds.now queries.now) weight }
{
    for at in 0..bounds.len() {
        if !is_within(bounds[at], queries[at], weight) {
            return false;
        }
    }
    true
}

/// Whether each query has a bound, and their sum is at most the weight.
fn all_are_within(bounds: &[Option<u64>], queries: &[bool], weight: u64) -> bool
    requires { length queries.now ≡ length bounds.now }
    ensures { IsTrue result ↔ AreWithin false (zip bounds.now queries.now) weight }
{
    let mut left = weight;
    for at in 0..bounds.len() {
        let Some(bound) = bound_of(bounds[at], queries[at]) else {
            return false;
        };
        if bound > left {
            return false;
        }
        left -= bound;
    }
    true
}

/// Whether a query has a bound, which is at most the weight. So it is of a provided entry.
fn is_within(bound: Option<u64>, query: bool, weight: u64) -> bool
    ensures { IsTrue result ↔ HasBound (bound, query) × (query_bound (bound, query) ≤ weight) }
{
    match bound_of(bound, query) {
        Some(bound) => bound <= weight,
        None => false,
    }
}

/// The bound of a query, if it has one, and 0 of a provided entry.
fn bound_of(bound: Option<u64>, query: bool) -> Option<u64>
    ensures { MatchOption result (¬ HasBound (bound, query))
        (λ n. HasBound (bound, query) × (n ≡ query_bound (bound, query))) }
{
    if query { bound } else { Some(0) }
}

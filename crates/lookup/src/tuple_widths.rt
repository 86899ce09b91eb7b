//! Widths of tuples in one AIR: one for the tuples of a lookup, and one for those of a bus.
ghost use Rattle.std.specs.Prelude.{◌≡◌, ◌<◌, ◌⊎◌, [], All, MatchOption, MatchResult, Some, find, length, map, nat_eq, not, slice_get, true};
ghost use Rattle.std.specs.List.{flat_map};
ghost use Rattle.indexmap.specs.IndexMap.{index_map_len};
ghost use Rattle.lookup_model.specs.Outline.{fields_of};
ghost use Rattle.lookup.specs.BusWidths.{HasOneWidth, HaveBusWidths, IsWidthRefusal, bus_context, widths_of};
ghost use Rattle.lookup.specs.TupleWidths.{AreUnevenWidths, HasOtherWidth, IsTupleWidths};

use crate::buses::by_bus;
use air::SymbolicExpression;
use field::Field;
use indexmap::IndexMap;
use lookup_model::{Lookup, LookupError};
use std::alloc::Global;

/// Compares the widths of all tuples on each bus, those of groups too, in the order in which the
/// buses are first seen. Where all tuples have one width, local ones too, no bus is looked for.
///
/// Refuses `TupleWidths` with the context `bus "NAME"` at the first bus with two widths: its first
/// width, and the first other one.
pub(crate) fn assert_bus_widths<F: Field>(
    alloc: Global,
    lookups: &[Lookup<F>],
) -> Result<(), LookupError>
    ensures { MatchResult result
        (λ _. HaveBusWidths (map fields_of lookups.now))
        (λ e. (e ≡ LookupError.Memory) ⊎ IsWidthRefusal (map fields_of lookups.now) e) }
{
    if have_one_width(lookups) {
        return Ok(());
    }
    let buses = by_bus(alloc, lookups)?;
    for index in 0..buses.len() {
        let (name, members) = bus_at(&buses, index);
        assert_bus_width(alloc, name, members)?;
    }
    Ok(())
}

/// Whether all tuples have the width of the first lookup's first one, whatever their buses; false if
/// there is no such tuple.
fn have_one_width<F: Field>(lookups: &[Lookup<F>]) -> bool
    ensures { result ≡ true → HasOneWidth (flat_map widths_of (map fields_of lookups.now)) }
{
    let Some(first) = lookups.first() else {
        return false;
    };
    let Some(tuple) = first.elements.first() else {
        return false;
    };
    let width = tuple.len();
    for lookup in lookups {
        match other_width(&lookup.elements, width) {
            Some(_) => return false,
            None => {}
        }
    }
    true
}

/// The name and the lookups of the bus at an index.
fn bus_at<'a, 'b, F: Field>(
    buses: &'b IndexMap<&'a str, Vec<&'a Lookup<F>>>,
    index: usize,
) -> (&'a str, &'b Vec<&'a Lookup<F>>)
    requires { index < index_map_len buses.now }
    ensures { slice_get buses.now.entries index ≡ Some (result.0, result.1.now) }
{
    match buses.get_index(index) {
        Some((name, members)) => (*name, members),
        None => unreachable!(),
    }
}

/// As `assert_bus_widths`, for the lookups of one bus.
fn assert_bus_width<F: Field>(
    alloc: Global,
    name: &str,
    members: &[&Lookup<F>],
) -> Result<(), LookupError>
    ensures { MatchResult result
        (λ _. HasOneWidth (flat_map widths_of (map (λ r. fields_of r.now) members.now)))
        (λ e. (e ≡ LookupError.Memory) ⊎ AreUnevenWidths (bus_context name.now)
        (flat_map widths_of (map (λ r. fields_of r.now) members.now)) e) }
{
    match two_widths(members) {
        None => Ok(()),
        Some(widths) => {
            let context = format!(in alloc; "bus \"{name}\"")?;
            Err(LookupError::TupleWidths {
                context,
                width: widths.first,
                other: widths.other,
            })
        }
    }
}

/// The first width of the tuples of a bus, and the first other one.
#[derive(Clone, Copy)]
struct TwoWidths {
    first: usize,
    other: usize,
}

/// The first width of these lookups and the first other one, if there are two.
fn two_widths<F: Field>(members: &[&Lookup<F>]) -> Option<TwoWidths>
    ensures { MatchOption result
        (HasOneWidth (flat_map widths_of (map (λ r. fields_of r.now) members.now)))
        (λ r. HasOtherWidth (flat_map widths_of (map (λ r. fields_of r.now) members.now)) r.first
        r.other) }
{
    let width = first_width(members)?;
    for lookup in members {
        match other_width(&lookup.elements, width) {
            Some(other) => return Some(TwoWidths {
                first: width,
                other,
            }),
            None => {}
        }
    }
    None
}

/// The width of the first tuple of these lookups.
fn first_width<F: Field>(members: &[&Lookup<F>]) -> Option<usize>
    ensures { result ≡ slice_get (flat_map widths_of (map (λ r. fields_of r.now) members.now)) 0 }
{
    for lookup in members {
        if let Some(tuple) = lookup.elements.first() {
            return Some(tuple.len());
        }
    }
    None
}

/// The first width that is not this one.
fn other_width<F>(tuples: &[Vec<SymbolicExpression<F>>], width: usize) -> Option<usize>
    ensures { result ≡ find (λ w. not (nat_eq w width))
        (map (λ tuple. length tuple.items) tuples.now) }
{
    for tuple in tuples {
        if tuple.len() != width {
            return Some(tuple.len());
        }
    }
    None
}

/// The width that all tuples have, 0 if there are none.
///
/// Refuses `TupleWidths` with this context, the width of the first tuple and the first width that
/// differs from it, or fails out of memory while making that refusal.
pub fn assert_uniform_tuple_width<F>(
    alloc: Global,
    tuples: &[Vec<SymbolicExpression<F>>],
    context: &str,
) -> Result<usize, LookupError>
    ensures { MatchResult result
        (λ width. All (λ tuple. length tuple.items ≡ width) tuples.now
        × (tuples.now ≡ [] → width ≡ 0))
        (λ e. (e ≡ LookupError.Memory)
        ⊎ AreUnevenWidths context.now (map (λ tuple. length tuple.items) tuples.now) e) }
{
    let Some(first) = tuples.first() else {
        return Ok(0);
    };
    let width = first.len();
    match other_width(tuples, width) {
        None => Ok(width),
        Some(other) => Err(tuple_widths(alloc, context, width, other)),
    }
}

/// The refusal of two widths with a context, or out of memory for its text.
fn tuple_widths(alloc: Global, context: &str, width: usize, other: usize) -> LookupError
    ensures { (result ≡ LookupError.Memory) ⊎ IsTupleWidths context.now width other result }
{
    match String::from_str(alloc, context) {
        Ok(context) => LookupError::TupleWidths {
            context,
            width,
            other,
        },
        Err(_) => LookupError::Memory,
    }
}

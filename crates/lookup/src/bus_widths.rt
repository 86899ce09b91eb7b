//! Widths of tuples on buses, in all AIRs: each bus has one.
ghost use Rattle.std.specs.Prelude.{◌≡◌, ◌++◌, ◌⊎◌, IfOk, MatchResult, OnOk, length, map, unwrap_or};
ghost use Rattle.std.specs.List.{flat_map};
ghost use Rattle.indexmap.specs.IndexMap.{get, insert_entry};
ghost use Rattle.lookup_model.specs.LookupDegree.{greatest};
ghost use Rattle.lookup_model.specs.Outline.{fields_of};
ghost use Rattle.lookup.specs.BusWidths.{widths_of};
ghost use Rattle.lookup.specs.Lookups.{lookups_of};
ghost use Rattle.lookup.specs.NamedWidths.{AgreeOnWidths, IsFirstWidthMismatch, IsWidthMismatch, all_named_widths, named_widths, seen_widths};

use crate::buses::by_bus;
use crate::lookups::Lookups;
use air::SymbolicExpression;
use field::Field;
use indexmap::IndexMap;
use lookup_model::{Lookup, LookupError};
use std::alloc::{AllocError, Global};
use std::hash::Hash;

/// The width of the widest tuple that is sent on a bus, 0 if there is none.
///
/// Takes the AIRs in order, and in each its buses in the order in which they are first seen, with the
/// tuples of groups. Ignores local lookups. Refuses `BusWidthMismatch` at the first tuple whose width
/// is not that of the first tuple on its bus, whichever AIR sends that one.
pub fn check_bus_widths<F: Field>(alloc: Global, airs: &[Lookups<F>]) -> Result<usize, LookupError>
    ensures { let widths = all_named_widths (map
        (λ air. map fields_of (lookups_of air)) airs.now) in MatchResult result
        (λ widest. AgreeOnWidths widths × (widest ≡ greatest (map (λ w. w.1) widths)))
        (λ e. (e ≡ LookupError.Memory) ⊎ IsFirstWidthMismatch widths e) }
{
    let widths = widths_on_buses(alloc, airs)?;
    widest(alloc, widths.as_slice())
}

/// The width of a tuple, with the name of its bus.
#[derive(Clone, Copy)]
pub(crate) struct NamedWidth<'a> {
    name: &'a str,
    width: usize,
}

/// The widths of all tuples that are sent on buses, AIR by AIR.
fn widths_on_buses<'a, F: Field>(
    alloc: Global,
    airs: &'a [Lookups<F>],
) -> Result<Vec<NamedWidth<'a>>, AllocError>
    ensures { IfOk result (λ v. seen_widths v.items
        ≡ all_named_widths (map (λ air. map fields_of (lookups_of air)) airs.now)) }
{
    let mut widths = Vec::new(alloc);
    for air in airs {
        push_air(alloc, &mut widths, air.as_slice())?;
    }
    Ok(widths)
}

/// Appends those of one AIR, bus by bus.
fn push_air<'a, F: Field>(
    alloc: Global,
    widths: &mut Vec<NamedWidth<'a>>,
    lookups: &'a [Lookup<F>],
) -> Result<(), AllocError>
    ensures { OnOk result (seen_widths widths.new.items ≡ seen_widths widths.old.items
        ++ named_widths (map fields_of lookups.now)) }
{
    let buses = by_bus(alloc, lookups)?;
    for index in 0..buses.len() {
        if let Some((name, members)) = buses.get_index(index) {
            push_bus(widths, name, members)?;
        }
    }
    Ok(())
}

/// Appends those of one bus.
fn push_bus<'a, F: Field>(
    widths: &mut Vec<NamedWidth<'a>>,
    name: &'a str,
    members: &[&Lookup<F>],
) -> Result<(), AllocError>
    ensures { OnOk result (seen_widths widths.new.items ≡ seen_widths widths.old.items
        ++ map (λ w. (name.entry.now, w)) (flat_map widths_of
        (map (λ r. fields_of r.now) members.now))) }
{
    for lookup in members {
        push_tuples(widths, name, lookup.elements.as_slice())?;
    }
    Ok(())
}

/// Appends those of one lookup.
fn push_tuples<'a, F>(
    widths: &mut Vec<NamedWidth<'a>>,
    name: &'a str,
    tuples: &[Vec<SymbolicExpression<F>>],
) -> Result<(), AllocError>
    ensures { OnOk result (seen_widths widths.new.items ≡ seen_widths widths.old.items
        ++ map (λ tuple. (name.entry.now, length tuple.items)) tuples.now) }
{
    for tuple in tuples {
        widths.push(NamedWidth {
            name,
            width: tuple.len(),
        })?;
    }
    Ok(())
}

/// The greatest width, or the refusal of the first that is not the first of its bus.
fn widest(alloc: Global, widths: &[NamedWidth<'_>]) -> Result<usize, LookupError>
    ensures { MatchResult result
        (λ widest. AgreeOnWidths (seen_widths widths.now)
        × (widest ≡ greatest (map (λ w. w.1) (seen_widths widths.now))))
        (λ e. (e ≡ LookupError.Memory) ⊎ IsFirstWidthMismatch (seen_widths widths.now) e) }
{
    let mut firsts = IndexMap::new(alloc);
    let mut widest = 0;
    for index in 0..widths.len() {
        let named = widths[index];
        let first = value_at(&mut firsts, named.name, named.width)?;
        if first != named.width {
            return Err(mismatch(alloc, named.name, first, named.width));
        }
        widest = widest.max(named.width);
    }
    Ok(widest)
}

/// The value at a key. At a new key it is the given one, and the key goes last.
fn value_at<K: Eq + Hash + Drop>(
    map: &mut IndexMap<K, usize>,
    key: K,
    value: usize,
) -> Result<usize, AllocError>
    ensures { IfOk result (λ found. (found ≡ unwrap_or (get K.eq map.old key) value)
        × (map.new.entries ≡ insert_entry K.eq map.old.entries key found)) }
{
    let found = map.entry(key)?.or_insert(value);
    Ok(*found)
}

/// The refusal of a width that differs from the first one of its bus, or out of memory for its text.
fn mismatch(alloc: Global, name: &str, expected: usize, actual: usize) -> LookupError
    ensures { (result ≡ LookupError.Memory) ⊎ IsWidthMismatch name.now expected actual result }
{
    match String::from_str(alloc, name) {
        Ok(bus) => LookupError::BusWidthMismatch {
            bus,
            expected,
            actual,
        },
        Err(_) => LookupError::Memory,
    }
}

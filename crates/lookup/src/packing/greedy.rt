//! Packing a list of lookups.
ghost use Rattle.std.specs.Prelude.{◌≡◌, ◌++◌, ◌∷◌, [], All, IfOk, List, OnOk, ℕ, map, option_map};
ghost use Rattle.std.specs.Fn.{FnReturnsAt};
ghost use Rattle.std.specs.List.{AllZip};
ghost use Rattle.indexmap.specs.IndexMap.{values};
ghost use Rattle.air_expressions.specs.declared.base_expression.SymbolicExpression.{SymbolicExpression};
ghost use Rattle.lookup_model.specs.Outline.{Outline, bus_of, fields_of};
ghost use Rattle.lookup_model.specs.Records.{AreRecords, HasEqualLengths};
ghost use Rattle.lookup.specs.Buses.{bus_groups, on_bus};
ghost use Rattle.lookup.specs.Fewest.{AnswersDegree};
ghost use Rattle.lookup.specs.KeptByPacking.{KeepsSent};
ghost use Rattle.lookup.specs.Packing.{Packs, additive_lookups, is_additive, numbered_lookups, passing};
ghost use Rattle.lookup.specs.Trials.{AnswersTrial, IsBusTrial, IsMember, IsTrialAmong};
ghost use Rattle.lookup.specs.internal.Fillings.{AreFilledBuses, IsFilled};

use crate::packing::degrees::{Asked, GadgetDegrees, TrialDegrees};
use crate::packing::filling::{Bus, append_columns, open_bus, push_on};
use crate::tuple_widths::assert_bus_widths;
use field::Field;
use indexmap::IndexMap;
use lookup_model::{Kind, Lookup, LookupError};
use std::alloc::{AllocError, Global};
use std::hash::Hash;

/// Fills the columns of each bus greedily, by the degree that the closure gives.
///
/// Local lookups and those with flags pass through, in their order. The others follow by bus, the
/// buses in the order in which they are first seen. On each bus a lookup joins the open column if
/// the degree of the trial is at most `max_degree`, and opens a new column otherwise. The trial has
/// the tuples of both, and the weight and the old column number of the open column. The closure is
/// asked about trials alone, in the order of the lookups; once a trial of a bus is refused, it is
/// asked no more about that bus. Weights of joined lookups add, and the columns are numbered from 0.
///
/// On every row the packed lookups send the same messages as before, if each column has the id of
/// its lookups. So keys, nets and the total weight stay.
///
/// Refuses, in this order:
///
/// - `TupleWidths` with the context `bus "NAME"` at the first bus whose tuples have two widths, those
///   of groups too;
/// - at the first trial, bus by bus, that is refused: the closure's own refusal, or
///   `CountWeightOverflow` if the trial is within the degree and the weights have no sum that fits.
///
/// Also fails when out of memory, with `Memory`. After a refusal the lookups are dropped.
pub fn pack_lookups<F: Field, D: Fn(&Lookup<F>) -> Result<usize, LookupError>>(
    alloc: Global,
    lookups: Vec<Lookup<F>>,
    max_degree: usize,
    degree: D,
) -> Result<Vec<Lookup<F>>, LookupError>
    requires callable { (lookup : _) → IsBusTrial (map fields_of lookups.items) lookup.now
        → D.pre degree lookup }
    requires lengths { All HasEqualLengths lookups.items }
    ensures packs { Packs (AnswersTrial (FnReturnsAt D.Fn degree)) max_degree
        (λ v. map fields_of v.items) (map fields_of lookups.items) result }
    ensures records { IfOk result (λ v. AreRecords v.items) }
    ensures kept { IfOk result (λ v. KeepsSent F.ring F.eq lookups.items v.items) }
{
    pack_by(alloc, lookups, max_degree, &Asked { degree: &degree })
}

/// As [`pack_lookups`], by the degree of the constraint that the gadget asserts for a lookup, where
/// the transition selector has degree 0. Takes time linear in the size of the lookups.
///
/// What a trial refuses is `DegreeOverflow`, if its degree does not fit `usize`, or
/// `CountWeightOverflow`.
pub fn pack_by_degree<F: Field>(
    alloc: Global,
    lookups: Vec<Lookup<F>>,
    max_degree: usize,
) -> Result<Vec<Lookup<F>>, LookupError>
    requires { All HasEqualLengths lookups.items }
    ensures packs { Packs AnswersDegree max_degree
        (λ v. map fields_of v.items) (map fields_of lookups.items) result }
    ensures records { IfOk result (λ v. AreRecords v.items) }
    ensures kept { IfOk result (λ v. KeepsSent F.ring F.eq lookups.items v.items) }
{
    pack_by(alloc, lookups, max_degree, &GadgetDegrees)
}

/// Packs by these degrees.
fn pack_by<F: Field, T: TrialDegrees<F>>(
    alloc: Global,
    lookups: Vec<Lookup<F>>,
    max_degree: usize,
    degrees: &T,
) -> Result<Vec<Lookup<F>>, LookupError>
    requires callable { (lookup : _) → IsBusTrial (map fields_of lookups.items) lookup
        → T.may_ask degrees.now lookup }
    requires lengths { All HasEqualLengths lookups.items }
    ensures packs { Packs (T.answers degrees.now) max_degree
        (λ v. map fields_of v.items) (map fields_of lookups.items) result }
    ensures records { IfOk result (λ v. AreRecords v.items) }
    ensures kept { IfOk result (λ v. KeepsSent F.ring F.eq lookups.items v.items) }
{
    assert_bus_widths(alloc, &lookups)?;
    let (mut columns, buses) = fill_buses(alloc, lookups, max_degree, degrees)?;
    for bus in buses {
        append_columns(&mut columns, bus)?;
    }
    Ok(in_columns(columns))
}

/// The lookups that pass through, and the buses of the others, each filled.
fn fill_buses<F: Field, T: TrialDegrees<F>>(
    alloc: Global,
    lookups: Vec<Lookup<F>>,
    max_degree: usize,
    degrees: &T,
) -> Result<(Vec<Lookup<F>>, Vec<Bus<F, T::Kept>>), AllocError>
    requires callable { (lookup : _) → IsBusTrial (map fields_of lookups.items) lookup
        → T.may_ask degrees.now lookup }
    requires lengths { All HasEqualLengths lookups.items }
    ensures { IfOk result (λ r. (map fields_of r.0.items ≡ passing (map fields_of lookups.items))
        × All HasEqualLengths r.0.items
        × AllZip (IsFilled (T.keeps degrees.now) (T.answers degrees.now) max_degree)
        (map (λ g. g.1) (bus_groups (additive_lookups (map fields_of lookups.items)))) r.1.items) }
{
    let mut columns = Vec::new(alloc);
    let mut buses = IndexMap::new(alloc);
    for lookup in lookups {
        if may_be_joined(&lookup) {
            push_on_bus(alloc, &mut buses, lookup, max_degree, degrees)?;
        } else {
            columns.push(lookup)?;
        }
    }
    let buses = values_of(alloc, buses)?;
    Ok((columns, buses))
}

/// The values of a map, in their order.
fn values_of<K: Eq + Hash + Drop, V: Drop>(
    alloc: Global,
    map: IndexMap<K, V>,
) -> Result<Vec<V>, AllocError>
    ensures { IfOk result (λ v. v.items ≡ values map) }
{
    map.into_values().collect(alloc)
}

/// Takes the next lookup of a bus. A new bus goes last, under a copy of its name. A local lookup is
/// dropped.
fn push_on_bus<F: Field, T: TrialDegrees<F>>(
    alloc: Global,
    buses: &mut IndexMap<String, Bus<F, T::Kept>>,
    next: Lookup<F>,
    max_degree: usize,
    degrees: &T,
) -> Result<(), AllocError>
    requires seen { (seen : List (Outline (SymbolicExpression F)))
        × AreFilledBuses (T.keeps degrees.now) (T.answers degrees.now) max_degree seen
        buses.old.entries
        × ((name : List ℕ) (lookup : Lookup F)
        → IsTrialAmong (on_bus name (seen ++ fields_of next ∷ [])) lookup
        → T.may_ask degrees.now lookup) }
    requires next { IsMember next }
    ensures { (seen : List (Outline (SymbolicExpression F)))
        → AreFilledBuses (T.keeps degrees.now) (T.answers degrees.now) max_degree seen
        buses.old.entries
        → OnOk result (AreFilledBuses (T.keeps degrees.now) (T.answers degrees.now) max_degree
        (seen ++ fields_of next ∷ []) buses.new.entries) }
{
    let Some(name) = bus_name(&next) else {
        return Ok(());
    };
    match buses.get_index_of(name) {
        Some(index) => push_on(&mut buses[index], next, max_degree, degrees),
        None => {
            let name = String::from_str(alloc, name)?;
            let bus = open_bus(alloc, next, degrees);
            buses.insert(name, bus)?;
        }
    }
    Ok(())
}

/// The name of the bus of a lookup, if there is one.
fn bus_name<F: Field>(lookup: &Lookup<F>) -> Option<&str>
    ensures { option_map (λ name. name.now) result ≡ bus_of lookup.now.kind }
{
    match &lookup.kind {
        Kind::Local => None,
        Kind::Global(name) => Some(name.as_str()),
    }
}

/// Whether a lookup is sent on a bus and has no flags, so that it may share a column.
pub fn may_be_joined<F: Field>(lookup: &Lookup<F>) -> bool
    ensures { result ≡ is_additive (fields_of lookup.now) }
{
    match (&lookup.kind, &lookup.flags) {
        (Kind::Global(_), None) => true,
        _ => false,
    }
}

/// The lookups in the columns 0, 1, 2, …
fn in_columns<F: Field>(lookups: Vec<Lookup<F>>) -> Vec<Lookup<F>>
    requires { All HasEqualLengths lookups.items }
    ensures fields { map fields_of result.items ≡ numbered_lookups (map fields_of lookups.items) }
    ensures records { AreRecords result.items }
{
    let mut lookups = lookups;
    for column in 0..lookups.len() {
        lookups[column].column = column;
    }
    lookups
}

//! Whether ids that a plan is given are lawful.
ghost use Rattle.std.specs.Prelude.{◌≡◌, ◌↔◌, ◌++◌, [], ◌∷◌, ℕ, List, IfOk, IsTrue, length, map};
ghost use Rattle.std.specs.List.{zip};
ghost use Rattle.lookup.specs.Lookups.{lookups_of};
ghost use Rattle.lookup_model.specs.declared.types.Lookup.{Lookup};
ghost use Rattle.batch.specs.Lists.{lists_of};
ghost use Rattle.batch.specs.PlanFacts.{AreAssigned};
ghost use Rattle.batch.specs.internal.Seen.{AreSeen, IsSeenOnBus, Sees};

use field::Field;
use indexmap::{IndexMap, IndexSet};
use lookup::{Kind, Lookup, Lookups};
use std::alloc::{AllocError, Global};

/// Whether each lookup of each AIR has an id below `num_ids`, and two lookups have the same id exactly
/// if they are on one bus. So each local lookup has its own.
///
/// Fails only when out of memory.
pub(crate) fn are_assigned<F: Field>(
    alloc: Global,
    airs: &[Lookups<F>],
    ids: &[Vec<usize>],
    num_ids: usize,
) -> Result<bool, AllocError>
    ensures { IfOk result (λ are. IsTrue are ↔ AreAssigned (lists_of ids.now) airs.now num_ids) }
{
    if !have_ids(airs, ids) {
        return Ok(false);
    }
    let mut seen = SeenIds {
        names: IndexMap::new(alloc),
        ids: IndexSet::new(alloc),
    };
    for air in 0..airs.len() {
        if !see_air(
            &mut seen,
            airs[air].as_slice(),
            ids[air].as_slice(),
            num_ids,
        )? {
            return Ok(false);
        }
    }
    Ok(true)
}

/// Whether there is an id for each lookup of each AIR, and there are no others.
fn have_ids<F: Field>(airs: &[Lookups<F>], ids: &[Vec<usize>]) -> bool
    ensures { IsTrue result ↔ (map length (lists_of ids.now)
        ≡ map (λ air. length (lookups_of air)) airs.now) }
{
    if ids.len() != airs.len() {
        return false;
    }
    for air in 0..airs.len() {
        if ids[air].len() != airs[air].as_slice().len() {
            return false;
        }
    }
    true
}

/// The ids that are seen so far: the one of each name, and all of them.
#[derive(Drop)]
struct SeenIds<'a> {
    names: IndexMap<&'a str, usize>,
    ids: IndexSet<usize>,
}

/// Whether the ids of the lookups of an AIR are lawful beside those that are seen.
fn see_air<'a, F: Field>(
    seen: &mut SeenIds<'a>,
    lookups: &'a [Lookup<F>],
    ids: &[usize],
    num_ids: usize,
) -> Result<bool, AllocError>
    requires { length ids.now ≡ length lookups.now }
    ensures { IfOk result (λ lawful. (all : List (ℕ × Lookup F)) → AreSeen num_ids all seen.old
        → Sees num_ids (all ++ zip ids.now lookups.now) seen.new lawful) }
{
    for index in 0..lookups.len() {
        if !see_lookup(seen, &lookups[index], ids[index], num_ids)? {
            return Ok(false);
        }
    }
    Ok(true)
}

/// Whether the id of a lookup is lawful beside those that are seen.
fn see_lookup<'a, F: Field>(
    seen: &mut SeenIds<'a>,
    lookup: &'a Lookup<F>,
    id: usize,
    num_ids: usize,
) -> Result<bool, AllocError>
    ensures { IfOk result (λ lawful. (all : List (ℕ × Lookup F)) → AreSeen num_ids all seen.old
        → Sees num_ids (all ++ (id, lookup.now) ∷ []) seen.new lawful) }
{
    if id >= num_ids {
        return Ok(false);
    }
    match &lookup.kind {
        Kind::Local => Ok(seen.ids.insert(id)?),
        Kind::Global(name) => see_on_bus(seen, name.as_str(), id),
    }
}

/// Whether an id is that of its bus or, if no lookup on the bus is seen, a new one.
fn see_on_bus<'a>(seen: &mut SeenIds<'a>, name: &'a str, id: usize) -> Result<bool, AllocError>
    ensures { IfOk result (λ lawful. IsSeenOnBus name.entry seen.old seen.new id lawful) }
{
    match seen.names.insert(name, id)? {
        Some(known) => Ok(known == id),
        None => Ok(seen.ids.insert(id)?),
    }
}

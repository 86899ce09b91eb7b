//! Whether the lookups of a packed AIR have the same ids as before packing.
ghost use Rattle.std.specs.Prelude.{◌≡◌, ◌↔◌, ℕ, All, IfOk, IsTrue, None, map};
ghost use Rattle.lookup_model.specs.Batches.Messages.{id_of};
ghost use Rattle.checker_batches.specs.internal.SameIds.{Agree, AgreeOnId, AgreesWith, MayBeJoined};
ghost use Rattle.lookup.specs.KeptByPacking.{HaveSameIds, unjoined_ids};

use crate::ids::share_bus;
use field::Field;
use lookup::Lookup;
use lookup::packing::may_be_joined;
use lookup_model::BatchInstance;
use std::alloc::{AllocError, Global};

/// Whether a packed AIR has the same ids as before packing: one id for each bus, under which all lookups
/// on it are that may be joined, before and after; and for each other lookup, in their order, the id that
/// it had.
///
/// Fails only when out of memory. Takes time quadratic in the number of lookups.
pub fn ids_are_kept<F: Field>(
    alloc: Global,
    before: &BatchInstance<'_, F>,
    after: &BatchInstance<'_, F>,
) -> Result<bool, AllocError>
    ensures { IfOk result (λ kept. IsTrue kept
        ↔ HaveSameIds (id_of before.now.ids.now) before.now.lookups.now
        (id_of after.now.ids.now) after.now.lookups.now) }
{
    let first = ids_of_others(alloc, before.lookups, before.ids)?;
    let second = ids_of_others(alloc, after.lookups, after.ids)?;
    if first == second {
        Ok(all_agree(before, after))
    } else {
        Ok(false)
    }
}

/// Whether all lookups of both AIRs agree.
fn all_agree<F: Field>(before: &BatchInstance<'_, F>, after: &BatchInstance<'_, F>) -> bool
    ensures { IsTrue result ↔ Agree before.now.ids.now before.now.lookups.now
        after.now.ids.now after.now.lookups.now }
{
    let own = agree(before.lookups, before.ids, before.lookups, before.ids);
    if !own {
        return false;
    }
    let between = agree(before.lookups, before.ids, after.lookups, after.ids);
    if !between {
        return false;
    }
    agree(after.lookups, after.ids, after.lookups, after.ids)
}

/// The ids of the lookups that pass through packing.
fn ids_of_others<F: Field>(
    alloc: Global,
    lookups: &[Lookup<F>],
    ids: &[usize],
) -> Result<Vec<usize>, AllocError>
    ensures { IfOk result (λ v. v.items ≡ unjoined_ids (id_of ids.now) lookups.now) }
{
    lookups
        .iter()
        .filter(|lookup| !may_be_joined(lookup))
        .map(|lookup| id_at(ids, lookup))
        .collect(alloc)
}

/// The id of a lookup, where ids are listed by columns.
fn id_at<F: Field>(ids: &[usize], lookup: &Lookup<F>) -> usize
    ensures { result ≡ id_of ids.now lookup.now }
{
    match ids.get(lookup.column) {
        Some(id) => *id,
        None => 0,
    }
}

/// Whether any two of these lookups that may be joined have the same id.
fn agree<F: Field>(
    lookups: &[Lookup<F>],
    ids: &[usize],
    others: &[Lookup<F>],
    other_ids: &[usize],
) -> bool
    ensures { IsTrue result ↔ All (AgreesWith ids.now other_ids.now others.now) lookups.now }
{
    for lookup in lookups {
        if !agrees_with(lookup, ids, others, other_ids) {
            return false;
        }
    }
    true
}

fn agrees_with<F: Field>(
    one: &Lookup<F>,
    ids: &[usize],
    others: &[Lookup<F>],
    other_ids: &[usize],
) -> bool
    ensures { IsTrue result ↔ AgreesWith ids.now other_ids.now others.now one.now }
{
    agrees_with_each(one, ids, others, other_ids)
}

fn agrees_with_each<F: Field>(
    one: &Lookup<F>,
    ids: &[usize],
    others: &[Lookup<F>],
    other_ids: &[usize],
) -> bool
    ensures { IsTrue result ↔ All (AgreeOnId ids.now other_ids.now one.now) others.now }
{
    others.iter().all(|other| !share_columns(one, other)
        || id_at(ids, one) == id_at(other_ids, other))
}

/// Whether two lookups may be joined into one.
fn share_columns<F: Field>(one: &Lookup<F>, other: &Lookup<F>) -> bool
    ensures { IsTrue result ↔ MayBeJoined one.now other.now }
{
    match (&one.flags, &other.flags) {
        (None, None) => share_bus(one, other),
        _ => false,
    }
}

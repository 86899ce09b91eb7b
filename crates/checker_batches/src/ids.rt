//! Which ids of lookups are lawful.
ghost use Rattle.std.specs.Prelude.{◌≡◌, ◌↔◌, ◌<◌, ◌≤◌, ◌++◌, All, IfOk, IsTrue, length, map};
ghost use Rattle.std.specs.List.{AllPairs, zip};
ghost use Rattle.lookup_model.specs.Batches.Ids.{AreLawfulIds, HaveOneWidth, ShareBus, batch_lookups_with_ids};
ghost use Rattle.lookup_model.specs.Batches.Instances.{HaveIds, instances_of};
ghost use Rattle.checker_batches.specs.internal.Identified.{AgreeOnBuses, AgreeOnWidthOfId, AgreesBelow, AreLawful, IsWithinBounds, identified_of};

use field::Field;
use lookup::{Kind, Lookup};
use lookup_model::BatchInstance;
use std::alloc::{AllocError, Global};

/// Whether the ids of a batch are lawful for a table of `num_bus_ids` prefixes and tuples of at most
/// `max_message_width` elements:
///
/// - two lookups have the same id exactly if they are on the same bus, so each local one has its own;
/// - ids are below `num_bus_ids`, which is at most the characteristic;
/// - all tuples under one id have the same width, at most `max_message_width`, which is at least 1.
///
/// Fails only when out of memory. Takes time quadratic in the number of lookups.
pub fn ids_are_lawful<F: Field>(
    alloc: Global,
    instances: &[BatchInstance<'_, F>],
    max_message_width: usize,
    num_bus_ids: usize,
) -> Result<bool, AllocError>
    requires { HaveIds instances.now }
    ensures { IfOk result
        (λ lawful. IsTrue lawful ↔ AreLawfulIds max_message_width num_bus_ids F.CHARACTERISTIC
        (instances_of instances.now)) }
{
    let all = identified_lookups(alloc, instances)?;
    Ok(are_lawful(all.as_slice(), max_message_width, num_bus_ids))
}

fn are_lawful<F: Field>(
    all: &[Identified<'_, F>],
    max_message_width: usize,
    num_bus_ids: usize,
) -> bool
    ensures { IsTrue result ↔ AreLawful max_message_width num_bus_ids F.CHARACTERISTIC all.now }
{
    if max_message_width == 0 || num_bus_ids as u128 > F::CHARACTERISTIC {
        return false;
    }
    if !are_within(all, max_message_width, num_bus_ids) {
        return false;
    }
    if !are_widths_one(all) {
        return false;
    }
    are_buses_apart(all)
}

/// A lookup with its id.
#[derive(Drop)]
struct Identified<'a, F> {
    id: usize,
    lookup: &'a Lookup<F>,
}

/// The lookups of all AIRs, in order.
fn identified_lookups<'a, F>(
    alloc: Global,
    instances: &'a [BatchInstance<'a, F>],
) -> Result<Vec<Identified<'a, F>>, AllocError>
    requires { HaveIds instances.now }
    ensures { IfOk result (λ all. map identified_of all.items
        ≡ batch_lookups_with_ids (instances_of instances.now)) }
{
    let mut all = Vec::new(alloc);
    for instance in instances {
        push_identified(&mut all, instance)?;
    }
    Ok(all)
}

/// Appends the lookups of one AIR.
fn push_identified<'a, F>(
    all: &mut Vec<Identified<'a, F>>,
    instance: &'a BatchInstance<'a, F>,
) -> Result<(), AllocError>
    requires { length instance.now.ids.now ≡ length instance.now.lookups.now }
    ensures { IfOk result
        (λ _. map identified_of all.new.items ≡ map identified_of all.old.items
        ++ zip instance.now.ids.now instance.now.lookups.now) }
{
    for index in 0..instance.ids.len() {
        all.push(Identified {
            id: instance.ids[index],
            lookup: &instance.lookups[index],
        })?;
    }
    Ok(())
}

/// Whether ids are below `num_bus_ids`, and tuples have at most `max_message_width` elements.
fn are_within<F>(all: &[Identified<'_, F>], max_message_width: usize, num_bus_ids: usize) -> bool
    ensures { IsTrue result ↔ All (IsWithinBounds max_message_width num_bus_ids) all.now }
{
    all.iter()
        .all(|one| is_within(one, max_message_width, num_bus_ids))
}

fn is_within<F>(one: &Identified<'_, F>, max_message_width: usize, num_bus_ids: usize) -> bool
    ensures { IsTrue result ↔ IsWithinBounds max_message_width num_bus_ids one.now }
{
    one.id < num_bus_ids && is_narrow(one.lookup, max_message_width)
}

fn is_narrow<F>(lookup: &Lookup<F>, max_message_width: usize) -> bool
    ensures { IsTrue result ↔ All (λ tuple. length tuple.items
        ≤ max_message_width) lookup.now.elements.items }
{
    lookup
        .elements
        .iter()
        .all(|tuple| tuple.len() <= max_message_width)
}

/// Whether all tuples under one id have the same width.
fn are_widths_one<F>(all: &[Identified<'_, F>]) -> bool
    ensures { IsTrue result ↔ All (λ one. All (AgreeOnWidthOfId one) all.now) all.now }
{
    all.iter().all(|one| agrees_on_widths(one, all))
}

fn agrees_on_widths<F>(one: &Identified<'_, F>, all: &[Identified<'_, F>]) -> bool
    ensures { IsTrue result ↔ All (AgreeOnWidthOfId one.now) all.now }
{
    all.iter().all(|other| one.id != other.id || have_one_width(one.lookup, other.lookup))
}

fn have_one_width<F>(one: &Lookup<F>, other: &Lookup<F>) -> bool
    ensures { IsTrue result ↔ HaveOneWidth one.now other.now }
{
    one.elements
        .iter()
        .all(|tuple| have_width(other, tuple.len()))
}

fn have_width<F>(lookup: &Lookup<F>, width: usize) -> bool
    ensures { IsTrue result ↔ All (λ tuple. width ≡ length tuple.items) lookup.now.elements.items }
{
    lookup.elements.iter().all(|tuple| width == tuple.len())
}

/// Whether any two lookups have the same id exactly if they share a bus.
fn are_buses_apart<F>(all: &[Identified<'_, F>]) -> bool
    ensures { IsTrue result ↔ AllPairs AgreeOnBuses all.now }
{
    for index in 0..all.len() {
        if !agrees_with_later(all, index) {
            return false;
        }
    }
    true
}

fn agrees_with_later<F>(all: &[Identified<'_, F>], index: usize) -> bool
    requires { index < length all.now }
    ensures { IsTrue result ↔ AgreesBelow all.now index (length all.now) }
{
    for later in index + 1..all.len() {
        if !agree_on_buses(&all[index], &all[later]) {
            return false;
        }
    }
    true
}

fn agree_on_buses<F>(one: &Identified<'_, F>, other: &Identified<'_, F>) -> bool
    ensures { IsTrue result ↔ AgreeOnBuses one.now other.now }
{
    (one.id == other.id) == share_bus(one.lookup, other.lookup)
}

pub(crate) fn share_bus<F>(one: &Lookup<F>, other: &Lookup<F>) -> bool
    ensures { IsTrue result ↔ ShareBus one.now other.now }
{
    match (&one.kind, &other.kind) {
        (Kind::Global(name), Kind::Global(other)) => name == other,
        _ => false,
    }
}

//! The debug check.
ghost use Rattle.std.specs.Prelude.{◌≡◌, ◌⊎◌, All, IfOk, MatchResult, Some, map, slice_get, string_bytes};
ghost use Rattle.air.specs.Traces.{HaveOneHeight, layout_of};
ghost use Rattle.lookup_debug.specs.Contributions.{AreFitting, IsTracedFitting, contributions_of, location_of, traced_of};
ghost use Rattle.lookup_debug.specs.Groups.{bus_group, local_groups, local_label, traced_bus_names};
ghost use Rattle.lookup_debug.specs.Mismatch.{AllBalance, HasParts, IsMismatch};
ghost use Rattle.lookup_debug.specs.internal.Checks.{AnswersGroup, AnswersGroups, local_groups_in};
ghost use Rattle.lookup_model.specs.Records.{LookupsFit};

use crate::arena::Contributions;
use crate::fault::{Location, LookupFault};
use crate::first::first_mismatch;
use crate::groups::{bus_names, is_local};
use crate::instance::LookupDebugInstance;
use crate::labels::{label_of_bus, label_of_local};
use crate::tuple_locations::TupleLocations;
use crate::walk::{walk_bus, walk_lookup};
use field::Field;
use lookup_model::Lookup;
use std::alloc::{AllocError, Global};

/// Checks that all tuples balance: those of each local lookup by itself, in the order instance,
/// lookup, and then those of each bus, in the order of the first lookups on them.
///
/// The lookups fit the traces and public values of their AIR, in the columns 0, 1, 2, …, and a
/// preprocessed trace is as high as the main trace. Contributions of zero are skipped. A branch of an
/// exclusive lookup contributes flag times count, whatever the flag is.
///
/// Refuses the mismatch of the first group that has one, with its label, net and locations. It
/// names the tuple with nonzero net that is least by the texts of its elements, and among equal
/// texts the first that contributes. Also fails when out of memory, with `Memory`.
pub fn check_lookups<F: Field>(
    alloc: Global,
    instances: &[LookupDebugInstance<'_, F>],
) -> Result<(), LookupFault<F>>
    requires fit { All (λ i. LookupsFit (layout_of (traced_of i).traces) i.lookups.now)
        instances.now }
    requires heights { All (λ i. HaveOneHeight (traced_of i).traces) instances.now }
    ensures { MatchResult result
        (λ _. AllBalance F.ring F.eq (map traced_of instances.now))
        (λ e. (e ≡ LookupFault.Memory)
        ⊎ IsMismatch F.ring F.eq F.text (map traced_of instances.now) e) }
{
    let mut contributions = Contributions::new(alloc);
    check_locals(alloc, &mut contributions, instances)?;
    check_buses(alloc, &mut contributions, instances)
}

/// Checks all local lookups.
fn check_locals<F: Field>(
    alloc: Global,
    contributions: &mut Contributions<F>,
    instances: &[LookupDebugInstance<'_, F>],
) -> Result<(), LookupFault<F>>
    requires { AreFitting instances.now }
    ensures { AnswersGroups F.ring F.eq F.text
        (local_groups F.ring F.eq (map traced_of instances.now)) result }
{
    for instance in 0..instances.len() {
        check_locals_of(alloc, contributions, &instances[instance], instance)?;
    }
    Ok(())
}

/// Checks the local lookups of one AIR.
fn check_locals_of<F: Field>(
    alloc: Global,
    contributions: &mut Contributions<F>,
    traced: &LookupDebugInstance<'_, F>,
    instance: usize,
) -> Result<(), LookupFault<F>>
    requires { IsTracedFitting (traced_of traced.now) }
    ensures { AnswersGroups F.ring F.eq F.text
        (local_groups_in F.ring F.eq (instance, traced_of traced.now)) result }
{
    for index in 0..traced.lookups.len() {
        let lookup = &traced.lookups[index];
        if is_local(lookup) {
            check_local(alloc, contributions, traced, lookup, instance, index)?;
        }
    }
    Ok(())
}

/// Checks one local lookup.
fn check_local<F: Field>(
    alloc: Global,
    contributions: &mut Contributions<F>,
    traced: &LookupDebugInstance<'_, F>,
    lookup: &Lookup<F>,
    instance: usize,
    index: usize,
) -> Result<(), LookupFault<F>>
    requires at_index { slice_get traced.now.lookups.now index ≡ Some lookup.now }
    requires fit { IsTracedFitting (traced_of traced.now) }
    ensures { AnswersGroup F.ring F.eq F.text (local_label instance index)
        (contributions_of F.ring F.eq instance index (traced_of traced.now) lookup.now) result }
{
    contributions.clear();
    walk_lookup(alloc, contributions, traced, lookup, instance, index)?;
    let Some(found) = first_mismatch(alloc, contributions)? else {
        return Ok(());
    };
    let label = label_of_local(alloc, instance, index)?;
    let mut locations = TupleLocations::new(alloc, found.0);
    walk_lookup(alloc, &mut locations, traced, lookup, instance, index)?;
    Err(mismatch(alloc, label, found, locations.into_locations())?)
}

/// Checks all buses.
fn check_buses<F: Field>(
    alloc: Global,
    contributions: &mut Contributions<F>,
    instances: &[LookupDebugInstance<'_, F>],
) -> Result<(), LookupFault<F>>
    requires { AreFitting instances.now }
    ensures { let all = map traced_of instances.now in
        AnswersGroups F.ring F.eq F.text
        (map (bus_group F.ring F.eq all) (traced_bus_names all)) result }
{
    let names = bus_names(alloc, instances)?;
    for index in 0..names.len() {
        check_bus(alloc, contributions, instances, names[index])?;
    }
    Ok(())
}

/// Checks the bus of this name.
fn check_bus<F: Field>(
    alloc: Global,
    contributions: &mut Contributions<F>,
    instances: &[LookupDebugInstance<'_, F>],
    name: &str,
) -> Result<(), LookupFault<F>>
    requires { AreFitting instances.now }
    ensures { let group = bus_group F.ring F.eq (map traced_of instances.now) name.now in
        AnswersGroup F.ring F.eq F.text group.label group.contributions result }
{
    contributions.clear();
    walk_bus(alloc, contributions, instances, name)?;
    let Some(found) = first_mismatch(alloc, contributions)? else {
        return Ok(());
    };
    let label = label_of_bus(alloc, name)?;
    let mut locations = TupleLocations::new(alloc, found.0);
    walk_bus(alloc, &mut locations, instances, name)?;
    Err(mismatch(alloc, label, found, locations.into_locations())?)
}

/// The mismatch of a tuple with this net, in a group with this label.
fn mismatch<F: Field>(
    alloc: Global,
    label: String,
    found: (&[F], F),
    locations: Vec<Location>,
) -> Result<LookupFault<F>, AllocError>
    ensures { IfOk result (HasParts (string_bytes label)
        (map F.text found.entry.0.now) found.entry.1 (map location_of locations.items)) }
{
    let (tuple, net) = found;
    let tuple = texts_of(alloc, tuple)?;
    Ok(LookupFault::Mismatch {
        label,
        tuple,
        net,
        locations,
    })
}

/// The texts of the elements of a tuple.
fn texts_of<F: Field>(alloc: Global, tuple: &[F]) -> Result<Vec<String>, AllocError>
    ensures { IfOk result (λ texts. map (λ t. string_bytes t) texts.items ≡ map F.text tuple.now) }
{
    let mut texts = Vec::with_capacity(alloc, tuple.len())?;
    for element in tuple {
        texts.push(element.text(alloc)?)?;
    }
    Ok(texts)
}

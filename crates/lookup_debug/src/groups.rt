//! Buses: their names, and which lookups are on one of them.
ghost use Rattle.std.specs.Prelude.{◌≡◌, ◌++◌, IfOk, List, OnOk, map, nat_eq};
ghost use Rattle.std.specs.Cmp.Lexicographic.{pointwise};
ghost use Rattle.std.specs.List.{filter_map};
ghost use Rattle.indexmap.specs.IndexSet.{keys};
ghost use Rattle.lookup_debug.specs.Contributions.{traced_of};
ghost use Rattle.lookup_debug.specs.Groups.{is_missing, traced_bus_names};
ghost use Rattle.lookup_model.specs.Names.{is_named};
ghost use Rattle.lookup_model.specs.Net.{first_seen};
ghost use Rattle.lookup_model.specs.Outline.{bus_of};

use crate::instance::LookupDebugInstance;
use field::Field;
use indexmap::IndexSet;
use lookup_model::{Kind, Lookup};
use std::alloc::{AllocError, Global};

/// The names of the buses, in the order of their first lookups.
pub(crate) fn bus_names<'a, F: Field>(
    alloc: Global,
    instances: &'a [LookupDebugInstance<'a, F>],
) -> Result<Vec<&'a str>, AllocError>
    ensures { IfOk result (λ names. map (λ n. n.now) names.items
        ≡ traced_bus_names (map traced_of instances.now)) }
{
    let mut names = IndexSet::new(alloc);
    for instance in instances {
        add_names(&mut names, instance.lookups)?;
    }
    collect_names(alloc, names)
}

/// The names of a set, in their order.
fn collect_names<'a>(alloc: Global, names: IndexSet<&'a str>) -> Result<Vec<&'a str>, AllocError>
    ensures { IfOk result (λ list. list.items ≡ keys names.entry) }
{
    names.into_iter().collect(alloc)
}

/// Adds the names of the buses of these lookups. A new name goes last.
fn add_names<'a, F: Field>(
    names: &mut IndexSet<&'a str>,
    lookups: &'a [Lookup<F>],
) -> Result<(), AllocError>
    ensures { OnOk result ((seen : List _)
        → map (λ n. n.now) (keys names.old) ≡ first_seen (pointwise nat_eq) seen
        → map (λ n. n.now) (keys names.new) ≡ first_seen (pointwise nat_eq)
        (seen ++ filter_map (λ l. bus_of l.kind) lookups.now)) }
{
    for lookup in lookups {
        match &lookup.kind {
            Kind::Global(name) => {
                names.insert(name.as_str())?;
            }
            Kind::Local => {}
        }
    }
    Ok(())
}

/// Whether a lookup is on the bus of this name.
pub(crate) fn is_on_bus<F: Field>(lookup: &Lookup<F>, name: &str) -> bool
    ensures { result ≡ is_named name.now (bus_of lookup.now.kind) }
{
    match &lookup.kind {
        Kind::Global(other) => name == other.as_str(),
        Kind::Local => false,
    }
}

/// Whether a lookup is local.
pub(crate) fn is_local<F: Field>(lookup: &Lookup<F>) -> bool
    ensures { result ≡ is_missing (bus_of lookup.now.kind) }
{
    match &lookup.kind {
        Kind::Local => true,
        Kind::Global(_) => false,
    }
}

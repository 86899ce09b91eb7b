//! Groups of lookups by bus.
ghost use Rattle.std.specs.Prelude.{◌≡◌, ◌++◌, [], ◌∷◌, IfOk, OnOk, map};
ghost use Rattle.std.specs.Option.{option_map_or};
ghost use Rattle.indexmap.specs.IndexMap.{get, insert_entry};
ghost use Rattle.lookup_model.specs.Outline.{fields_of};
ghost use Rattle.lookup.specs.Buses.{bus_groups, group_of};

use field::Field;
use indexmap::IndexMap;
use lookup_model::{Kind, Lookup};
use std::alloc::{AllocError, Global};
use std::hash::Hash;

/// The lookups of each bus under its name, in their order; the buses in the order in which they are
/// first seen. Local lookups are in no group.
///
/// Fails only when out of memory.
pub fn by_bus<'a, F: Field>(
    alloc: Global,
    lookups: &'a [Lookup<F>],
) -> Result<IndexMap<&'a str, Vec<&'a Lookup<F>>>, AllocError>
    ensures { IfOk result (λ buses. map group_of buses.entries
        ≡ bus_groups (map fields_of lookups.now)) }
{
    let mut buses = IndexMap::new(alloc);
    for lookup in lookups {
        match &lookup.kind {
            Kind::Global(name) => push_at(alloc, &mut buses, name.as_str(), lookup)?,
            Kind::Local => {}
        }
    }
    Ok(buses)
}

/// Appends to the group at a key. The group of a new key goes last.
fn push_at<K: Eq + Hash + Drop, T: Drop>(
    alloc: Global,
    groups: &mut IndexMap<K, Vec<T>>,
    key: K,
    item: T,
) -> Result<(), AllocError>
    ensures { OnOk result ((group : _)
        × (group.items ≡ option_map_or (λ found. found.items) (get K.eq groups.old key) []
        ++ item ∷ [])
        × (groups.new.entries ≡ insert_entry K.eq groups.old.entries key group)) }
{
    let group = groups.entry(key)?.or_insert(Vec::new(alloc));
    group.push(item)?;
    Ok(())
}

//! The groups that are checked by themselves, in their order: local lookups and buses.
ghost use Rattle.std.specs.Prelude.{◌≡◌, IfOk, List, OnOk, map};
ghost use Rattle.lookup_debug.specs.BusTable.{label_of};
ghost use Rattle.lookup_debug.specs.Contributions.{AreFitting, IsTracedFitting, Traced, traced_of};
ghost use Rattle.lookup_debug.specs.Groups.{bus_group, groups};
ghost use Rattle.lookup_debug.specs.internal.Checks.{local_groups_in};
ghost use Rattle.lookup_debug.specs.internal.GroupList.{AddsGroups, ListsGroups, IsWalkable, group_of};

use crate::groups::{bus_names, is_local};
use crate::instance::LookupDebugInstance;
use crate::walk::{RowVisitor, walk_bus, walk_lookup};
use field::Field;
use lookup_model::Lookup;
use std::alloc::{AllocError, Global};

/// Which group it is.
#[derive(Debug, Drop)]
pub enum GroupName {
    /// A local lookup.
    Local {
        /// The index of the AIR in its list.
        instance: usize,
        /// The index of the lookup in its AIR.
        lookup: usize,
    },
    /// The bus of this name, with all lookups on it.
    Bus(String),
}

/// A group: a local lookup with where it stands, or the name of a bus.
#[derive(Drop)]
pub(crate) enum GroupAt<'a, F> {
    Local {
        instance: usize,
        index: usize,
        traced: &'a LookupDebugInstance<'a, F>,
        lookup: &'a Lookup<F>,
    },
    Bus(&'a str),
}

/// All groups: the local lookups, in the order instance, lookup, and then the buses, in the order of
/// the first lookups on them.
pub(crate) fn groups_of<'a, F: Field>(
    alloc: Global,
    instances: &'a [LookupDebugInstance<'a, F>],
) -> Result<Vec<GroupAt<'a, F>>, AllocError>
    requires { AreFitting instances.now }
    ensures { let all = map traced_of instances.now in
        IfOk result (λ list. ListsGroups F.ring F.eq all list.items (groups F.ring F.eq all)) }
{
    let mut groups = Vec::new(alloc);
    for instance in 0..instances.len() {
        push_locals(&mut groups, &instances[instance], instance)?;
    }
    let names = bus_names(alloc, instances)?;
    push_buses(&mut groups, names.as_slice())?;
    Ok(groups)
}

/// Appends the local lookups of an AIR.
fn push_locals<'a, F: Field>(
    groups: &mut Vec<GroupAt<'a, F>>,
    traced: &'a LookupDebugInstance<'a, F>,
    instance: usize,
) -> Result<(), AllocError>
    requires { IsTracedFitting (traced_of traced.now) }
    ensures { (all : List (Traced F)) → OnOk result (AddsGroups F.ring F.eq all groups.old.items
        groups.new.items (local_groups_in F.ring F.eq (instance, traced_of traced.now))) }
{
    for index in 0..traced.lookups.len() {
        let lookup = &traced.lookups[index];
        if is_local(lookup) {
            groups.push(GroupAt::Local {
                instance,
                index,
                traced,
                lookup,
            })?;
        }
    }
    Ok(())
}

/// Appends the buses of these names.
fn push_buses<'a, F: Field>(
    groups: &mut Vec<GroupAt<'a, F>>,
    names: &[&'a str],
) -> Result<(), AllocError>
    ensures { (all : List (Traced F)) → OnOk result (AddsGroups F.ring F.eq all groups.old.items
        groups.new.items (map (bus_group F.ring F.eq all) (map (λ n. n.now) names.now))) }
{
    for name in names {
        groups.push(GroupAt::Bus(*name))?;
    }
    Ok(())
}

/// Visits all rows of a group.
pub(crate) fn walk_group<F: Field, V: RowVisitor<F>>(
    alloc: Global,
    visitor: &mut V,
    instances: &[LookupDebugInstance<'_, F>],
    group: &GroupAt<'_, F>,
) -> Result<(), AllocError>
    requires ready { V.ready visitor.now }
    requires fit { AreFitting instances.now }
    requires walkable { IsWalkable group.now }
    ensures { OnOk result (V.changes visitor.old visitor.new
        (group_of F.ring F.eq (map traced_of instances.now) group.now).contributions) }
{
    match group {
        GroupAt::Local {
            instance,
            index,
            traced,
            lookup,
        } => walk_lookup(alloc, visitor, *traced, *lookup, *instance, *index),
        GroupAt::Bus(name) => walk_bus(alloc, visitor, instances, *name),
    }
}

/// The name of a group, with a text of its own.
pub(crate) fn name_of<F: Field>(
    alloc: Global,
    group: &GroupAt<'_, F>,
) -> Result<GroupName, AllocError>
    ensures { (all : List (Traced F)) → IfOk result (λ name. label_of name
        ≡ (group_of F.ring F.eq all group.now).label) }
{
    match group {
        GroupAt::Local {
            instance,
            index,
            ..
        } => Ok(GroupName::Local {
            instance: *instance,
            lookup: *index,
        }),
        GroupAt::Bus(name) => Ok(GroupName::Bus(String::from_str(alloc, *name)?)),
    }
}

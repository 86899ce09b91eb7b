//! The table of groups.
ghost use Rattle.std.specs.Prelude.{◌≡◌, ◌↔◌, All, IfOk, filter, map, not};
ghost use Rattle.air.specs.Traces.{HaveOneHeight, layout_of};
ghost use Rattle.lookup_debug.specs.BusTable.{group_row, row_of};
ghost use Rattle.lookup_debug.specs.Contributions.{AreFitting, traced_of};
ghost use Rattle.lookup_debug.specs.Groups.{groups};
ghost use Rattle.lookup_debug.specs.Mismatch.{AllBalance};
ghost use Rattle.field.specs.Signs.{is_negative};
ghost use Rattle.lookup_debug.specs.internal.GroupList.{IsWalkable, group_of};
ghost use Rattle.lookup_model.specs.Records.{LookupsFit};

use crate::arena::nets;
use crate::instance::LookupDebugInstance;
use crate::named_group::{GroupAt, GroupName, groups_of, name_of, walk_group};
use crate::places::tuples_with_places;
use crate::tally::Tally;
use crate::unbalanced::UnbalancedTuple;
use field::{Field, SignedField};
use indexmap::IndexMap;
use std::alloc::{AllocError, Global};

/// What a group sends and receives, and which of its tuples do not balance.
///
/// A number of contributions that is greater than `usize::MAX` is told as `usize::MAX`.
#[derive(Debug, Drop)]
pub struct BusGroup<F> {
    /// Which group it is.
    pub name: GroupName,
    /// How many contributions have a count that is not negative. Contributions of zero are left out.
    pub sent: usize,
    /// How many contributions have a negative count.
    pub received: usize,
    /// How many distinct tuples they have.
    pub distinct: usize,
    /// How many of these have a net that is not zero.
    pub unbalanced: usize,
    /// The first of those, in the order of their first contributions.
    pub first: Vec<UnbalancedTuple<F>>,
}

/// The table of all groups: each local lookup, in the order instance, lookup, and then each bus, in the
/// order of the first lookups on them. These are the groups of `check_lookups`.
///
/// A group tells its first `limit` tuples that do not balance, in the order of their first
/// contributions, and of each of them the first `limit` places. A group balances if none of its tuples
/// is unbalanced.
///
/// The lookups fit the traces and public values of their AIR, in the columns 0, 1, 2, …, and a
/// preprocessed trace is as high as the main trace. Contributions of zero are skipped. A branch of an
/// exclusive lookup contributes flag times count, whatever the flag is.
///
/// Fails only when out of memory.
pub fn bus_table<F: SignedField>(
    alloc: Global,
    instances: &[LookupDebugInstance<'_, F>],
    limit: usize,
) -> Result<Vec<BusGroup<F>>, AllocError>
    requires fit { All (λ i. LookupsFit (layout_of (traced_of i).traces) i.lookups.now)
        instances.now }
    requires heights { All (λ i. HaveOneHeight (traced_of i).traces) instances.now }
    ensures rows { IfOk result (λ table. map row_of table.items
        ≡ map (group_row F.ring F.eq limit (is_negative F.CHARACTERISTIC F.number))
        (groups F.ring F.eq (map traced_of instances.now))) }
    ensures balance { IfOk result (λ table. All (λ row. row.unbalanced ≡ 0) table.items
        ↔ AllBalance F.ring F.eq (map traced_of instances.now)) }
{
    let groups = groups_of(alloc, instances)?;
    let mut tally = Tally::new(alloc);
    let mut table = Vec::with_capacity(alloc, groups.len())?;
    for group in &groups {
        table.push(row_of_group(alloc, &mut tally, instances, group, limit)?)?;
    }
    Ok(table)
}

/// The row of a group.
fn row_of_group<F: SignedField>(
    alloc: Global,
    tally: &mut Tally<F>,
    instances: &[LookupDebugInstance<'_, F>],
    group: &GroupAt<'_, F>,
    limit: usize,
) -> Result<BusGroup<F>, AllocError>
    requires fit { AreFitting instances.now }
    requires walkable { IsWalkable group.now }
    ensures { IfOk result (λ row. row_of row
        ≡ group_row F.ring F.eq limit (is_negative F.CHARACTERISTIC F.number)
        (group_of F.ring F.eq (map traced_of instances.now) group.now)) }
{
    tally.clear();
    walk_group(alloc, tally, instances, group)?;
    let name = name_of(alloc, group)?;
    let mut nets = nets(alloc, &tally.contributions)?;
    let distinct = nets.len();
    keep_unbalanced(&mut nets);
    let unbalanced = nets.len();
    nets.truncate(limit);
    let first = tuples_with_places(alloc, instances, group, nets, limit)?;
    Ok(BusGroup {
        name,
        sent: tally.sent,
        received: tally.received,
        distinct,
        unbalanced,
        first,
    })
}

/// Keeps the tuples whose net is not zero, in their order.
fn keep_unbalanced<F: Field>(nets: &mut IndexMap<&[F], F>)
    ensures { nets.new.entries ≡ filter (λ e. not (F.eq e.1 F.ring.zero)) nets.old.entries }
{
    nets.retain(
        |_tuple: &&[F], net: &mut F| -> bool
            ensures { (result ≡ not (F.eq net.old F.ring.zero)) × (net.new ≡ net.old) }
        { *net != F::ZERO },
    );
}

//! The first mismatch as data.
ghost use Rattle.std.specs.Prelude.{◌≡◌, All, IfOk, MatchOption, map};
ghost use Rattle.air.specs.Traces.{HaveOneHeight, layout_of};
ghost use Rattle.lookup_debug.specs.Contributions.{AreFitting, traced_of};
ghost use Rattle.lookup_debug.specs.FirstUnbalanced.{IsFirstUnbalanced, IsUnbalancedIn};
ghost use Rattle.lookup_debug.specs.Mismatch.{AllBalance, Balances};
ghost use Rattle.lookup_debug.specs.internal.GroupList.{IsWalkable, group_of};
ghost use Rattle.lookup_model.specs.Records.{LookupsFit};

use crate::arena::Contributions;
use crate::first::first_mismatch;
use crate::instance::LookupDebugInstance;
use crate::named_group::{GroupAt, GroupName, groups_of, name_of, walk_group};
use crate::places::tuples_with_places;
use crate::unbalanced::UnbalancedTuple;
use field::Field;
use indexmap::IndexMap;
use std::alloc::{AllocError, Global};

/// A tuple that does not balance, with its group.
#[derive(Debug, Drop)]
pub struct Mismatch<F> {
    /// Which group it is.
    pub group: GroupName,
    /// The tuple, with its net and its places.
    pub unbalanced: UnbalancedTuple<F>,
}

/// The mismatch that `check_lookups` names, as data: that of the first group that has one, with the
/// first `limit` of its places. `None` exactly if all tuples balance.
///
/// It asks of the instances what `check_lookups` asks of them.
///
/// Fails only when out of memory.
pub fn mismatch_of<F: Field>(
    alloc: Global,
    instances: &[LookupDebugInstance<'_, F>],
    limit: usize,
) -> Result<Option<Mismatch<F>>, AllocError>
    requires fit { All (λ i. LookupsFit (layout_of (traced_of i).traces) i.lookups.now)
        instances.now }
    requires heights { All (λ i. HaveOneHeight (traced_of i).traces) instances.now }
    ensures { IfOk result (λ found. MatchOption found
        (AllBalance F.ring F.eq (map traced_of instances.now))
        (IsFirstUnbalanced F.ring F.eq F.text limit (map traced_of instances.now))) }
{
    let groups = groups_of(alloc, instances)?;
    let mut contributions = Contributions::new(alloc);
    for group in &groups {
        let found = mismatch_in(alloc, &mut contributions, instances, group, limit)?;
        if found.is_some() {
            return Ok(found);
        }
    }
    Ok(None)
}

/// The mismatch of a group, if it has one.
fn mismatch_in<F: Field>(
    alloc: Global,
    contributions: &mut Contributions<F>,
    instances: &[LookupDebugInstance<'_, F>],
    group: &GroupAt<'_, F>,
    limit: usize,
) -> Result<Option<Mismatch<F>>, AllocError>
    requires fit { AreFitting instances.now }
    requires walkable { IsWalkable group.now }
    ensures { let own = group_of F.ring F.eq (map traced_of instances.now) group.now in
        IfOk result (λ found. MatchOption found (Balances F.ring F.eq own.contributions)
        (IsUnbalancedIn F.ring F.eq F.text limit own.label own.contributions)) }
{
    contributions.clear();
    walk_group(alloc, contributions, instances, group)?;
    let Some(found) = first_mismatch(alloc, contributions)? else {
        return Ok(None);
    };
    let name = name_of(alloc, group)?;
    let mut listed = IndexMap::new(alloc);
    listed.insert(found.0, found.1)?;
    let mut tuples = tuples_with_places(alloc, instances, group, listed, limit)?;
    match tuples.pop() {
        Some(unbalanced) => Ok(Some(Mismatch {
            group: name,
            unbalanced,
        })),
        None => unreachable!(),
    }
}

//! Which lookups share a packed column.
ghost use Rattle.std.specs.Prelude.{◌≡◌, IfOk, map};
ghost use Rattle.check_judge.specs.internal.Sharing.{AreNumbersOfParts, in_packing_order, tuples_of};
ghost use Rattle.lookup_model.specs.Outline.{fields_of};

use field::Field;
use indexmap::IndexMap;
use lookup::packing::may_be_joined;
use lookup::{Kind, Lookup};
use std::alloc::{AllocError, Global};

/// A lookup by its number, with how many tuples it has.
#[derive(Clone, Copy)]
pub(crate) struct LookupTuples {
    pub(crate) number: usize,
    pub(crate) tuples: usize,
}

/// Lookups in the order in which packing leaves them: first those that pass through, local ones and
/// those with flags; then bus by bus the others, the buses in the order of their first one.
pub(crate) fn packing_order<F: Field>(
    alloc: Global,
    lookups: &[Lookup<F>],
) -> Result<Vec<LookupTuples>, AllocError>
    ensures { IfOk result (λ v. v.items
        ≡ map tuples_of (in_packing_order (map fields_of lookups.now))) }
{
    let mut order = Vec::new(alloc);
    let mut buses = IndexMap::new(alloc);
    for lookup in lookups {
        let member = LookupTuples {
            number: lookup.column,
            tuples: lookup.elements.len(),
        };
        match &lookup.kind {
            Kind::Global(name) if may_be_joined(lookup) => {
                let bus = buses.entry(name.as_str())?.or_insert(Vec::new(alloc));
                bus.push(member)?;
            }
            _ => order.push(member)?,
        }
    }
    let groups: Vec<Vec<_>> = buses.into_values().collect(alloc)?;
    for group in &groups {
        order.extend_from_slice(group)?;
    }
    Ok(order)
}

/// For each packed column the numbers of the lookups that share it, where `order` has all lookups as
/// `packing_order` gives them.
///
/// Packing joins neighbours in that order. So if each lookup has at least one tuple, a column has the
/// next lookups that have together as many tuples as it has.
pub(crate) fn sharing<F>(
    alloc: Global,
    order: &[LookupTuples],
    packed: &[Lookup<F>],
) -> Result<Vec<Vec<usize>>, AllocError>
    ensures { IfOk result (λ v. AreNumbersOfParts order.now packed.now
        (map (λ members. members.items) v.items)) }
{
    let mut columns = Vec::new(alloc);
    let mut members = Vec::new(alloc);
    let mut tuples = 0usize;
    for member in order {
        members.push(member.number)?;
        tuples = tuples.saturating_add(member.tuples);
        let is_full = match packed.get(columns.len()) {
            Some(column) => tuples >= column.elements.len(),
            None => false,
        };
        if is_full {
            columns.push(members)?;
            members = Vec::new(alloc);
            tuples = 0;
        }
    }
    Ok(columns)
}

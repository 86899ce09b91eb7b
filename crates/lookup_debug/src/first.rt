//! The first tuple of a group that does not balance.
ghost use Rattle.std.specs.Prelude.{◌≡◌, ◌<◌, ◌+◌, IfOk, List, MatchOption, map};
ghost use Rattle.std.specs.Cmp.Lexicographic.{slice_cmp};
ghost use Rattle.std.specs.Ordering.{nat_cmp};
ghost use Rattle.indexmap.specs.IndexMap.{index_map_len};
ghost use Rattle.lookup_debug.specs.Contributions.{Contribution};
ghost use Rattle.lookup_debug.specs.Mismatch.{Balances, IsFirst, net_amount, text_cmp};
ghost use Rattle.lookup_debug.specs.internal.Appended.{without_location};
ghost use Rattle.lookup_debug.specs.internal.Arena.{AreWithin, amounts_in};
ghost use Rattle.lookup_debug.specs.internal.Nets.{IsFirstIndex, amount_nets};

use crate::arena::{Contributions, entry_at, nets};
use field::Field;
use indexmap::IndexMap;
use std::alloc::{AllocError, Global};
use std::cmp::Ordering;

/// The first tuple whose net is not zero, with its net: the least by the texts of its elements, and
/// among equal texts the first that is contributed. The answer is that of every list of
/// contributions with the same nets.
pub(crate) fn first_mismatch<'a, F: Field>(
    alloc: Global,
    contributions: &'a Contributions<F>,
) -> Result<Option<(&'a [F], F)>, AllocError>
    requires within { AreWithin contributions.now }
    ensures { (cs : List (Contribution F))
        → amount_nets F.ring F.eq (amounts_in contributions.now)
        ≡ amount_nets F.ring F.eq (map without_location cs)
        → IfOk result (λ found. MatchOption found
        (Balances F.ring F.eq cs)
        (λ m. IsFirst F.ring F.eq F.text cs m.0.now × (m.1 ≡ net_amount F.ring F.eq cs m.0.now))) }
{
    let nets = nets(alloc, contributions)?;
    let Some(index) = least_unbalanced(alloc, &nets)? else {
        return Ok(None);
    };
    Ok(Some(entry_at(&nets, index)))
}

/// The index of the least tuple whose net is not zero, and of several with its texts the first.
fn least_unbalanced<F: Field>(
    alloc: Global,
    nets: &IndexMap<&[F], F>,
) -> Result<Option<usize>, AllocError>
    ensures { IfOk result (IsFirstIndex F.ring F.eq F.text nets.now.entries
        (index_map_len nets.now)) }
{
    let mut best = None;
    for index in 0..nets.len() {
        best = lesser_of(alloc, nets, best, index)?;
    }
    Ok(best)
}

/// That of the entries up to `index` and with it, where `best` is that of the entries before it.
fn lesser_of<F: Field>(
    alloc: Global,
    nets: &IndexMap<&[F], F>,
    best: Option<usize>,
    index: usize,
) -> Result<Option<usize>, AllocError>
    requires within { index < index_map_len nets.now }
    requires best { IsFirstIndex F.ring F.eq F.text nets.now.entries index best }
    ensures { IfOk result (IsFirstIndex F.ring F.eq F.text nets.now.entries (index + 1)) }
{
    let (tuple, net) = entry_at(nets, index);
    if net == F::ZERO {
        return Ok(best);
    }
    let Some(least) = best else {
        return Ok(Some(index));
    };
    let (other, _) = entry_at(nets, least);
    if text_order(alloc, tuple, other)? == Ordering::Less {
        Ok(Some(index))
    } else {
        Ok(Some(least))
    }
}

/// The order of two tuples by the lists of their texts.
fn text_order<F: Field>(alloc: Global, a: &[F], b: &[F]) -> Result<Ordering, AllocError>
    ensures { IfOk result (λ o. o ≡ text_cmp F.text a.now b.now) }
{
    let mut index = 0;
    while index < a.len() && index < b.len() {
        let order = element_order(alloc, a[index], b[index])?;
        if order != Ordering::Equal {
            return Ok(order);
        }
        index += 1;
    }
    Ok(a.len().cmp(&b.len()))
}

/// The order of two elements by their texts.
fn element_order<F: Field>(alloc: Global, a: F, b: F) -> Result<Ordering, AllocError>
    ensures { IfOk result (λ o. o ≡ slice_cmp nat_cmp (F.text a) (F.text b)) }
{
    if a == b {
        return Ok(Ordering::Equal);
    }
    let first = a.text(alloc)?;
    let second = b.text(alloc)?;
    Ok(first.cmp(&second))
}

//! What the debug check finds, as lists of numbers.
ghost use Rattle.std.specs.Prelude.{◌≡◌, ◌++◌, IfOk, OnOk, map};
ghost use Rattle.std.specs.List.{flat_map};
ghost use Rattle.c_calls.specs.GroupNumbers.{element_number, group_numbers, mismatch_numbers, name_numbers, place_numbers, table_numbers, tuple_numbers};

use field_monty::{MontyField31, MontyParameters};
use lookup::debug_util::{BusGroup, GroupName, Mismatch, Place, UnbalancedTuple};
use std::alloc::{AllocError, Global};

/// Appends bytes.
fn push_bytes(numbers: &mut Vec<usize>, bytes: &[u8]) -> Result<(), AllocError>
    ensures { OnOk result (numbers.new.items ≡ numbers.old.items ++ bytes.now) }
{
    for byte in bytes {
        numbers.push(*byte as usize)?;
    }
    Ok(())
}

/// Appends elements.
fn push_elements<const P: u32, K: MontyParameters<P>>(
    numbers: &mut Vec<usize>,
    elements: &[MontyField31<P, K>],
) -> Result<(), AllocError>
    ensures { OnOk result
        (numbers.new.items ≡ numbers.old.items ++ map element_number elements.now) }
{
    for element in elements {
        numbers.push(element.as_canonical_u32() as usize)?;
    }
    Ok(())
}

/// Appends places: of each the AIR, the lookup, the row, and how much is sent there.
fn push_places<const P: u32, K: MontyParameters<P>>(
    numbers: &mut Vec<usize>,
    places: &[Place<MontyField31<P, K>>],
) -> Result<(), AllocError>
    ensures { OnOk result
        (numbers.new.items ≡ numbers.old.items ++ flat_map place_numbers places.now) }
{
    for place in places {
        let location = place.location;
        let count = place.count.as_canonical_u32() as usize;
        numbers.extend_from_slice(&[location.instance, location.lookup, location.row, count])?;
    }
    Ok(())
}

/// Appends the name of a group: 0, the AIR and the lookup; or 1, and the length and the bytes of the name of a bus.
fn push_name(numbers: &mut Vec<usize>, name: &GroupName) -> Result<(), AllocError>
    ensures { OnOk result (numbers.new.items ≡ numbers.old.items ++ name_numbers name.now) }
{
    match name {
        GroupName::Local { instance, lookup } => {
            numbers.extend_from_slice(&[0, *instance, *lookup])?;
        }
        GroupName::Bus(name) => {
            numbers.extend_from_slice(&[1, name.len()])?;
            push_bytes(numbers, name.as_bytes())?;
        }
    }
    Ok(())
}

/// Appends a tuple that does not balance: its length and its elements, its net, the number of all its places and of
/// those that follow, and these.
fn push_tuple<const P: u32, K: MontyParameters<P>>(
    numbers: &mut Vec<usize>,
    unbalanced: &UnbalancedTuple<MontyField31<P, K>>,
) -> Result<(), AllocError>
    ensures { OnOk result
        (numbers.new.items ≡ numbers.old.items ++ tuple_numbers unbalanced.now) }
{
    numbers.push(unbalanced.tuple.len())?;
    push_elements(numbers, &unbalanced.tuple)?;
    let net = unbalanced.net.as_canonical_u32() as usize;
    let listed = unbalanced.places.len();
    numbers.extend_from_slice(&[net, unbalanced.place_count, listed])?;
    push_places(numbers, &unbalanced.places)?;
    Ok(())
}

/// Appends tuples.
fn push_tuples<const P: u32, K: MontyParameters<P>>(
    numbers: &mut Vec<usize>,
    tuples: &[UnbalancedTuple<MontyField31<P, K>>],
) -> Result<(), AllocError>
    ensures { OnOk result
        (numbers.new.items ≡ numbers.old.items ++ flat_map tuple_numbers tuples.now) }
{
    for unbalanced in tuples {
        push_tuple(numbers, unbalanced)?;
    }
    Ok(())
}

/// Appends a group: its name, what it sends and receives, its distinct tuples, how many of these do not balance, how
/// many of those follow, and these.
fn push_group<const P: u32, K: MontyParameters<P>>(
    numbers: &mut Vec<usize>,
    group: &BusGroup<MontyField31<P, K>>,
) -> Result<(), AllocError>
    ensures { OnOk result (numbers.new.items ≡ numbers.old.items ++ group_numbers group.now) }
{
    push_name(numbers, &group.name)?;
    let listed = group.first.len();
    let counts = [
        group.sent,
        group.received,
        group.distinct,
        group.unbalanced,
        listed,
    ];
    numbers.extend_from_slice(&counts)?;
    push_tuples(numbers, &group.first)?;
    Ok(())
}

/// The numbers of a table: how many groups there are, and each of them.
pub(crate) fn numbers_of_table<const P: u32, K: MontyParameters<P>>(
    alloc: Global,
    groups: &[BusGroup<MontyField31<P, K>>],
) -> Result<Vec<usize>, AllocError>
    ensures { IfOk result (λ numbers. numbers.items ≡ table_numbers groups.now) }
{
    let mut numbers = Vec::new(alloc);
    numbers.push(groups.len())?;
    for group in groups {
        push_group(&mut numbers, group)?;
    }
    Ok(numbers)
}

/// The numbers of a mismatch: 0 if there is none, else 1, and the group and the tuple.
pub(crate) fn numbers_of_mismatch<const P: u32, K: MontyParameters<P>>(
    alloc: Global,
    found: &Option<Mismatch<MontyField31<P, K>>>,
) -> Result<Vec<usize>, AllocError>
    ensures { IfOk result (λ numbers. numbers.items ≡ mismatch_numbers found.now) }
{
    let mut numbers = Vec::new(alloc);
    match found {
        None => numbers.push(0)?,
        Some(mismatch) => {
            numbers.push(1)?;
            push_name(&mut numbers, &mismatch.group)?;
            push_tuple(&mut numbers, &mismatch.unbalanced)?;
        }
    }
    Ok(numbers)
}

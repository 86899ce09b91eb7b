ghost use Rattle.std.specs.Prelude.{◌≡◌, ◌≢◌, IfOk, All, length};

use crate::cases::{holds, holds_at};
use field::{
    DivisionLists, Domain, ExtensionField, F2, F7, Field, InverseCount, PrimeCharacteristicRing,
};
use field_goldilocks::{Goldilocks, Goldilocks2};
use field_monty::{
    BabyBearParameters, KoalaBearParameters, MontyField31, MontyQuartic, QuarticParameters,
};
use std::alloc::{AllocError, Global};

/// Those of these elements that are not zero.
fn units_of<K: Field>(alloc: Global, xs: &[K]) -> Result<Vec<K>, AllocError>
    ensures { IfOk result (λ v. All (λ x. x ≢ K.ring.zero) v.items) }
{
    let mut units = Vec::with_capacity(alloc, xs.len())?;
    for x in xs {
        if !x.is_zero() {
            units.push(*x)?;
        }
    }
    Ok(units)
}

/// Whether division by these elements gives quotients that, times the denominators, are the numerators
/// again, by one counted inverse, or by none if there are none.
fn divides<F: Field, K: ExtensionField<F>>(
    lists: &mut DivisionLists<K>,
    quotients: &mut [K],
    numerators: &[K],
    denominators: &[K],
) -> bool
    requires long { length quotients.old ≡ length denominators.now }
    requires nonzero { All (λ x. x ≢ K.ring.zero) denominators.now }
{
    let mut count = InverseCount::new();
    if K::divide_all(lists, quotients, denominators, &mut count).is_err() {
        return false;
    }
    let again = quotients.iter().zip(denominators).map(|(q, d)| *q * *d);
    let calls = if denominators.is_empty() { 0 } else { 1 };
    again.eq(numerators.iter().copied()) && count.get() == calls
}

/// Whether the first elements of one list, divided by the units of another, are such quotients.
fn divides_units<F: Field, K: ExtensionField<F>>(
    alloc: Global,
    lists: &mut DivisionLists<K>,
    numerators: &[K],
    denominators: &[K],
) -> Result<bool, AllocError> {
    let units = units_of(alloc, denominators)?;
    let mut quotients = Vec::with_capacity(alloc, units.len())?;
    for x in numerators {
        if quotients.len() < units.len() {
            quotients.push(*x)?;
        }
    }
    if quotients.len() != units.len() {
        return Ok(false);
    }
    let before = quotients.clone()?;
    Ok(divides::<F, K>(lists, &mut quotients, &before, &units))
}

/// Whether lists of each of these lengths are divided, one after the other with the same lists to work in.
fn all_divide<F: Field, K: ExtensionField<F>>(
    alloc: Global,
    numerators: &[K],
    denominators: &[K],
    lengths: &[usize],
) -> bool {
    let mut lists = DivisionLists::new(alloc);
    for n in lengths {
        if *n > numerators.len() || *n > denominators.len() {
            return false;
        }
        let held = divides_units::<F, K>(alloc, &mut lists, &numerators[..*n], &denominators[..*n]);
        if !matches!(held, Ok(true)) {
            return false;
        }
    }
    true
}

/// Lengths that fill blocks of four, and that do not; shorter ones after longer ones too.
const LENGTHS: [usize; 24] = [
    17, 0, 1, 2, 3, 4, 5, 6, 7, 8, 9, 10, 11, 12, 13, 14, 15, 16, 1021, 1022, 1023, 1024, 1025, 3,
];

/// Elements with all four coefficients, the numerators' first ones in the base field.
fn quartics<const P: u32, K: QuarticParameters<P>>(
    alloc: Global,
    n: u32,
    embedded: u32,
) -> Result<Vec<MontyQuartic<P, K>>, AllocError> {
    let zero = MontyField31::ZERO;
    let mut list = Vec::with_capacity(alloc, n as usize)?;
    for i in 0..n {
        let first = MontyField31::new(i) + MontyField31::new(2);
        if i < embedded {
            list.push(MontyQuartic::new([first, zero, zero, zero]))?;
        } else {
            let square = first * first;
            list.push(MontyQuartic::new([square, first, MontyField31::new(5), square * first]))?;
        }
    }
    Ok(list)
}

/// Whether lists of such elements divide, with this many numerators in the base field.
fn quartic_lists_divide<const P: u32, K: QuarticParameters<P>>(
    alloc: Global,
    embedded: u32,
) -> bool {
    match (
        quartics::<P, K>(alloc, 1025, embedded),
        quartics::<P, K>(alloc, 1025, 0),
    ) {
        (Ok(numerators), Ok(denominators)) => {
            all_divide::<MontyField31<P, K>, MontyQuartic<P, K>>(
                alloc,
                &numerators,
                &denominators,
                &LENGTHS,
            )
        }
        _ => false,
    }
}

#[test]
fn lists_over_quartic_extensions_divide(rt: HostRuntime) {
    let alloc = rt.alloc();
    for embedded in [0, 4, 9, 1025] {
        let held = quartic_lists_divide::<2_013_265_921, BabyBearParameters>(alloc, embedded);
        holds_at(&rt, "BabyBear4, embedded numerators", embedded, held);
        let held = quartic_lists_divide::<2_130_706_433, KoalaBearParameters>(alloc, embedded);
        holds_at(&rt, "KoalaBear4, embedded numerators", embedded, held);
    }
}

/// The elements from one on, each one more than that before it, with ones in place of zeros.
fn elements<K: Field>(alloc: Global, first: K, n: u32) -> Result<Vec<K>, AllocError> {
    let mut list = Vec::with_capacity(alloc, n as usize)?;
    for i in 0..n {
        let x = first + K::from_u32(i);
        list.push(if x.is_zero() { K::ONE } else { x })?;
    }
    Ok(list)
}

/// Whether lists over a field divide, where it extends itself.
fn over_itself<K: Field>(alloc: Global) -> bool {
    let three = K::from_u32(3);
    match (elements(alloc, three, 1025), elements(alloc, K::ONE, 1025)) {
        (Ok(numerators), Ok(denominators)) => {
            all_divide::<K, K>(alloc, &numerators, &denominators, &LENGTHS)
        }
        _ => false,
    }
}

#[test]
fn lists_over_small_fields_divide(rt: HostRuntime) {
    holds_at(&rt, "modulo", 2, over_itself::<F2>(rt.alloc()));
    holds_at(&rt, "modulo", 7, over_itself::<F7>(rt.alloc()));
}

#[test]
fn quadratic_lists_divide(rt: HostRuntime) {
    let alloc = rt.alloc();
    let first = Goldilocks2::new([Goldilocks::new(5), Goldilocks::new(1)]);
    let held = match (
        elements(alloc, first, 1025),
        elements(alloc, first * first, 1025),
    ) {
        (Ok(numerators), Ok(denominators)) => {
            all_divide::<Goldilocks, Goldilocks2>(alloc, &numerators, &denominators, &LENGTHS)
        }
        _ => false,
    };
    holds(&rt, "quadratic lists", held);
}

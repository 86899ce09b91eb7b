ghost use Rattle.std.specs.Prelude.{◌≢◌, IfOk, All};
ghost use Rattle.field.specs.internal.IntegersModulo7.{f7_ring};

use crate::cases::{holds, holds_at};
use field::{
    Domain, F7, Field, InverseCount, batch_multiplicative_inverse,
    batch_multiplicative_inverse_into,
};
use field_monty::BabyBear4;
use std::alloc::{AllocError, Global};

/// Nine elements modulo 7, and the inverse of each: 2 * 4 and 3 * 5 are 8 and 15, and 6 * 6 is 36.
const NUMBERS: [u32; 9] = [1, 2, 3, 4, 5, 6, 1, 2, 3];

const INVERSES: [u32; 9] = [1, 4, 5, 2, 3, 6, 1, 4, 5];

/// Two, three and four.
fn three_units() -> [F7; 3]
    ensures { All (λ x. x ≢ f7_ring.zero) result }
{
    [F7::new(2), F7::new(3), F7::new(4)]
}

/// Whether the inverses of a list are these, by so many counted inverses, both in a new list and in place
/// of what a list holds.
fn has_inverses<K: Field>(alloc: Global, xs: &[K], wanted: &[K], calls: u64) -> bool
    requires { All (λ x. x ≢ K.ring.zero) xs.now }
{
    let (mut count, mut again) = (InverseCount::new(), InverseCount::new());
    match batch_multiplicative_inverse(alloc, xs, &mut count) {
        Ok(mut inverses) => {
            let are_these = inverses.as_slice() == wanted && count.get() == calls;
            let put = batch_multiplicative_inverse_into(xs, &mut inverses, &mut again);
            are_these && put.is_ok() && inverses.as_slice() == wanted && again.get() == calls
        }
        Err(_) => false,
    }
}

/// The elements of these numbers, without those that are zero.
fn units_of(alloc: Global, numbers: &[u32]) -> Result<Vec<F7>, AllocError>
    ensures { IfOk result (λ v. All (λ x. x ≢ f7_ring.zero) v.items) }
{
    let mut kept = Vec::with_capacity(alloc, numbers.len())?;
    for n in numbers {
        let x = F7::new(*n);
        if !x.is_zero() {
            kept.push(x)?;
        }
    }
    Ok(kept)
}

/// Whether the inverses of these numbers modulo 7 are these, by so many counted inverses.
fn have_inverses(alloc: Global, numbers: &[u32], wanted: &[u32], calls: u64) -> bool {
    match (units_of(alloc, numbers), units_of(alloc, wanted)) {
        (Ok(xs), Ok(inverses)) => has_inverses(alloc, &xs, &inverses, calls),
        _ => false,
    }
}

#[test]
fn every_length_up_to_nine(rt: HostRuntime) {
    for n in 1..10 {
        let held = have_inverses(rt.alloc(), &NUMBERS[..n], &INVERSES[..n], 1);
        holds_at(&rt, "a list", n as u32, held);
    }
}

/// 2 * 4, 3 * 5 and 4 * 2 are 8, 15 and 8, all one modulo 7.
#[test]
fn two_three_and_four(rt: HostRuntime) {
    let wanted = [F7::new(4), F7::new(5), F7::new(2)];
    holds(
        &rt,
        "three",
        has_inverses(rt.alloc(), &three_units(), &wanted, 1),
    );
}

#[test]
fn an_empty_list_needs_no_inverse(rt: HostRuntime) {
    let none: [BabyBear4; 0] = [];
    holds(&rt, "none", has_inverses(rt.alloc(), &none, &[], 0));
}

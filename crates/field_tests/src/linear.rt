use crate::cases::{holds, is};
use field::{F7, PrimeCharacteristicRing, dot_product, powers};
use field_monty::{BabyBear, BabyBear4};
use std::alloc::Global;

/// Whether the first powers of an element are these.
fn has_powers(alloc: Global, base: F7, count: usize, wanted: &[F7]) -> bool {
    match powers(alloc, base, count) {
        Ok(found) => found.as_slice() == wanted,
        Err(_) => false,
    }
}

#[test]
fn powers_begin_with_one(rt: HostRuntime) {
    let three = F7::new(3);
    let wanted = [F7::new(1), three, F7::new(2), F7::new(6)];
    holds(
        &rt,
        "four powers",
        has_powers(rt.alloc(), three, 4, &wanted),
    );
    holds(&rt, "no power", has_powers(rt.alloc(), three, 0, &[]));
}

#[test]
fn products_are_added(rt: HostRuntime) {
    let xs = [F7::new(1), F7::new(2), F7::new(3)];
    let ys = [F7::new(4), F7::new(5), F7::new(6)];
    is(&rt, "over F7", dot_product(&xs, &ys), F7::new(4));
    let (zero, one) = (BabyBear::ZERO, BabyBear::ONE);
    let (three, five) = (BabyBear::new(3), BabyBear::new(5));
    let x = BabyBear4::new([zero, one, zero, zero]);
    let wanted = BabyBear4::new([five, three, zero, zero]);
    is(
        &rt,
        "over an extension",
        dot_product(&[x, BabyBear4::ONE], &[three, five]),
        wanted,
    );
}

use crate::cases::{has_text, holds, holds_at, holds_of, inverts, is, zero_has_no_inverse};
use field::{Domain, ExtensionDomain, F7, PrimeCharacteristicRing};
use std::process::Abort;

const SUMS: [[u32; 7]; 7] = [
    [0, 1, 2, 3, 4, 5, 6],
    [1, 2, 3, 4, 5, 6, 0],
    [2, 3, 4, 5, 6, 0, 1],
    [3, 4, 5, 6, 0, 1, 2],
    [4, 5, 6, 0, 1, 2, 3],
    [5, 6, 0, 1, 2, 3, 4],
    [6, 0, 1, 2, 3, 4, 5],
];

const PRODUCTS: [[u32; 7]; 7] = [
    [0, 0, 0, 0, 0, 0, 0],
    [0, 1, 2, 3, 4, 5, 6],
    [0, 2, 4, 6, 1, 3, 5],
    [0, 3, 6, 2, 5, 1, 4],
    [0, 4, 1, 5, 2, 6, 3],
    [0, 5, 3, 1, 6, 4, 2],
    [0, 6, 5, 4, 3, 2, 1],
];

/// Ends the test where the operators on two numbers do not give these.
fn operate(rt: &impl Abort, a: u32, b: u32, sum: u32, product: u32) {
    let (x, y, sum) = (F7::new(a), F7::new(b), F7::new(sum));
    holds_of(rt, "sum", a, b, x + y == sum);
    holds_of(rt, "difference", a, b, sum - y == x);
    holds_of(rt, "product", a, b, x * y == F7::new(product));
    holds_of(rt, "equality", a, b, (x == y) == (a == b));
}

#[test]
fn operators_follow_the_tables(rt: HostRuntime) {
    for a in 0..7u32 {
        for b in 0..7u32 {
            let (row, column) = (a as usize, b as usize);
            operate(&rt, a, b, SUMS[row][column], PRODUCTS[row][column]);
        }
    }
}

#[test]
fn negatives_follow_the_table(rt: HostRuntime) {
    for (a, negative) in [(0, 0), (1, 6), (2, 5), (3, 4), (4, 3), (5, 2), (6, 1)] {
        holds_at(&rt, "negative", a, -F7::new(a) == F7::new(negative));
    }
}

#[test]
fn inverses_follow_the_table(rt: HostRuntime) {
    zero_has_no_inverse(&rt, F7::new(0));
    for (what, a, inverse) in [
        ("1", 1, 1),
        ("2", 2, 4),
        ("3", 3, 5),
        ("4", 4, 2),
        ("5", 5, 3),
        ("6", 6, 6),
    ] {
        inverts(&rt, what, F7::new(a), F7::new(inverse));
    }
}

#[test]
fn whole_numbers_are_reduced(rt: HostRuntime) {
    is(&rt, "7", F7::new(7), F7::ZERO);
    is(&rt, "8", F7::new(8), F7::ONE);
    is(&rt, "2^32 - 1", F7::new(4_294_967_295), F7::new(3));
    is(&rt, "30", F7::from_u32(30), F7::new(2));
    // 2^64 - 1 = 7 * 2635249153387078802 + 1
    is(&rt, "2^64 - 1", F7::from_u64(u64::MAX), F7::ONE);
    is(&rt, "-1", F7::from_i32(-1), F7::new(6));
    is(&rt, "-2^31", F7::from_i32(-2_147_483_648), F7::new(5));
    is(&rt, "9", F7::from_i32(9), F7::new(2));
    is(&rt, "true", F7::from_bool(true), F7::ONE);
    is(&rt, "false", F7::from_bool(false), F7::ZERO);
    holds(&rt, "characteristic", F7::CHARACTERISTIC == 7);
}

#[test]
fn powers_repeat_with_period_six(rt: HostRuntime) {
    let three = F7::new(3);
    for (n, power) in [(0, 1), (1, 3), (2, 2), (3, 6), (4, 4), (5, 5), (6, 1)] {
        holds_at(
            &rt,
            "power of 3",
            n,
            three.exp_u64(n as u64) == F7::new(power),
        );
    }
    is(&rt, "3^(2^64 - 1)", three.exp_u64(u64::MAX), F7::new(6));
    is(&rt, "0^0", F7::new(0).exp_u64(0), F7::ONE);
}

#[test]
fn zero_and_text(rt: HostRuntime) {
    holds(&rt, "14 is zero", F7::new(14).is_zero());
    holds(&rt, "1 is not zero", !F7::new(1).is_zero());
    holds(&rt, "text of 6", has_text(rt.alloc(), F7::new(6), "6"));
    holds(&rt, "text of 0", has_text(rt.alloc(), F7::new(0), "0"));
}

#[test]
fn a_field_extends_itself(rt: HostRuntime) {
    let embedded: F7 = ExtensionDomain::<F7>::embed(F7::new(4));
    is(&rt, "4", embedded, F7::new(4));
}

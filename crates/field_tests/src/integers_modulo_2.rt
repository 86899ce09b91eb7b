use crate::cases::{has_text, holds, holds_of, inverts, is, zero_has_no_inverse};
use field::{F2, PrimeCharacteristicRing};

#[test]
fn operators_follow_the_tables(rt: HostRuntime) {
    for (a, b, sum, product) in [(0, 0, 0, 0), (0, 1, 1, 0), (1, 0, 1, 0), (1, 1, 0, 1)] {
        let (x, y, sum) = (F2::new(a), F2::new(b), F2::new(sum));
        holds_of(&rt, "sum", a, b, x + y == sum);
        holds_of(&rt, "difference", a, b, x - y == sum);
        holds_of(&rt, "product", a, b, x * y == F2::new(product));
        holds_of(&rt, "equality", a, b, (x == y) == (a == b));
    }
    is(&rt, "-1", -F2::new(1), F2::new(1));
    is(&rt, "-0", -F2::new(0), F2::new(0));
}

#[test]
fn zero_alone_has_no_inverse(rt: HostRuntime) {
    zero_has_no_inverse(&rt, F2::new(0));
    inverts(&rt, "1", F2::new(1), F2::new(1));
}

#[test]
fn numbers_powers_and_text(rt: HostRuntime) {
    let (zero, one) = (F2::new(0), F2::new(1));
    is(&rt, "2^32 - 1", F2::new(4_294_967_295), F2::ONE);
    is(&rt, "6", F2::from_u32(6), F2::ZERO);
    is(&rt, "-1", F2::from_i32(-1), F2::ONE);
    is(&rt, "true", F2::from_bool(true), F2::ONE);
    holds(&rt, "characteristic", F2::CHARACTERISTIC == 2);
    is(&rt, "0^0", zero.exp_u64(0), F2::ONE);
    is(&rt, "1^(2^64 - 1)", one.exp_u64(u64::MAX), F2::ONE);
    is(&rt, "0^(2^64 - 1)", zero.exp_u64(u64::MAX), F2::ZERO);
    holds(&rt, "text", has_text(rt.alloc(), F2::new(3), "1"));
}

use crate::cases::{has_text, holds, holds_at, inverts, is, zero_has_no_inverse};
use field::{Domain, PrimeCharacteristicRing};
use field_monty::BabyBear;

#[test]
fn whole_numbers_are_reduced(rt: HostRuntime) {
    for (n, text) in [
        (0, "0"),
        (1, "1"),
        (2_013_265_920, "2013265920"),
        (2_013_265_921, "0"),
        (2_013_265_922, "1"),
        (4_026_531_841, "2013265920"),
        (4_294_967_295, "268435453"),
    ] {
        let x = BabyBear::new(n);
        holds_at(&rt, "text", n, has_text(rt.alloc(), x, text));
        holds_at(&rt, "from_u32", n, BabyBear::from_u32(n) == x);
    }
}

#[test]
fn the_number_of_an_element_is_below_the_modulus(rt: HostRuntime) {
    for (n, number) in [
        (0, 0),
        (2_013_265_920, 2_013_265_920),
        (2_013_265_921, 0),
        (4_294_967_295, 268_435_453),
    ] {
        let found = BabyBear::new(n).as_canonical_u32();
        holds_at(&rt, "as_canonical_u32", n, found == number);
    }
}

#[test]
fn sums_and_differences_wrap_at_the_modulus(rt: HostRuntime) {
    let (zero, one, last) = (BabyBear::ZERO, BabyBear::ONE, BabyBear::new(2_013_265_920));
    let (three, five) = (BabyBear::new(3), BabyBear::new(5));
    is(&rt, "-1 + 1", last + one, zero);
    is(&rt, "-1 + -1", last + last, BabyBear::new(2_013_265_919));
    is(&rt, "3 - 5", three - five, BabyBear::new(2_013_265_919));
    is(&rt, "5 - 3", five - three, BabyBear::new(2));
    is(&rt, "-1", -one, last);
    is(&rt, "-0", -zero, zero);
    holds(&rt, "3 is not 4", three != BabyBear::new(4));
}

#[test]
fn products_and_powers(rt: HostRuntime) {
    let (one, minus_one) = (BabyBear::ONE, BabyBear::from_i32(-1));
    let root = BabyBear::new(1_728_404_513);
    is(&rt, "-1 * -1", minus_one * minus_one, one);
    is(
        &rt,
        "123456 * 16307",
        BabyBear::new(123_456) * BabyBear::new(16_307),
        BabyBear::new(2_013_196_992),
    );
    is(&rt, "root of -1", root * root, minus_one);
    for (base, exponent, power) in [
        (2, 31, 134_217_727),
        (11, 1_006_632_960, 2_013_265_920),
        (7, 0, 1),
        (2_013_265_920, u64::MAX, 2_013_265_920),
    ] {
        let found = BabyBear::new(base).exp_u64(exponent);
        holds_at(&rt, "power", base, found == BabyBear::new(power));
    }
}

#[test]
fn numbers_are_embedded(rt: HostRuntime) {
    let (zero, one) = (BabyBear::ZERO, BabyBear::ONE);
    let least = BabyBear::from_i32(-2_147_483_648);
    is(
        &rt,
        "-1",
        BabyBear::from_i32(-1),
        BabyBear::new(2_013_265_920),
    );
    is(&rt, "the least number", least, BabyBear::new(1_879_048_194));
    is(&rt, "true", BabyBear::from_bool(true), one);
    is(&rt, "false", BabyBear::from_bool(false), zero);
    holds(
        &rt,
        "characteristic",
        BabyBear::CHARACTERISTIC == 2_013_265_921,
    );
}

#[test]
fn inverses(rt: HostRuntime) {
    let half = BabyBear::new(1_006_632_961);
    zero_has_no_inverse(&rt, BabyBear::ZERO);
    zero_has_no_inverse(&rt, BabyBear::new(2_013_265_921));
    inverts(&rt, "2", BabyBear::new(2), half);
    inverts(&rt, "11", BabyBear::new(11), BabyBear::new(549_072_524));
}

use crate::cases::{has_text, holds, holds_at, inverts, is, zero_has_no_inverse};
use field::{Domain, ExtensionDomain, Field, PrimeCharacteristicRing};
use field_monty::{BabyBear, BabyBear4};

/// The polynomial with these coefficients, lowest power first.
fn quartic(c0: u32, c1: u32, c2: u32, c3: u32) -> BabyBear4 {
    BabyBear4::new([
        BabyBear::new(c0),
        BabyBear::new(c1),
        BabyBear::new(c2),
        BabyBear::new(c3),
    ])
}

#[test]
fn coefficients_come_back_in_order(rt: HostRuntime) {
    let x = quartic(1, 2, 3, 2_013_265_920);
    let [c0, c1, c2, c3] = x.coefficients();
    is(&rt, "lowest", c0, BabyBear::new(1));
    is(&rt, "second", c1, BabyBear::new(2));
    is(&rt, "third", c2, BabyBear::new(3));
    is(&rt, "highest", c3, BabyBear::from_i32(-1));
    let text = "1,2,3,2013265920";
    holds(&rt, text, has_text(rt.alloc(), x, text));
    let text = "0,1,0,0";
    holds(&rt, text, has_text(rt.alloc(), quartic(0, 1, 0, 0), text));
}

#[test]
fn sums_go_by_coefficients(rt: HostRuntime) {
    let (x, y) = (quartic(1, 2, 3, 4), quartic(5, 7, 9, 2_013_265_918));
    let negative = quartic(2_013_265_920, 2_013_265_919, 2_013_265_918, 2_013_265_917);
    is(&rt, "x + y", x + y, quartic(6, 9, 12, 1));
    is(&rt, "y - x", y - x, quartic(4, 5, 6, 2_013_265_914));
    is(&rt, "-x", -x, negative);
    holds_at(&rt, "coefficient", 0, x != quartic(0, 2, 3, 4));
    holds_at(&rt, "coefficient", 1, x != quartic(1, 0, 3, 4));
    holds_at(&rt, "coefficient", 2, x != quartic(1, 2, 0, 4));
    holds_at(&rt, "coefficient", 3, x != quartic(1, 2, 3, 0));
}

#[test]
fn the_fourth_power_is_eleven(rt: HostRuntime) {
    let (x, eleven) = (quartic(0, 1, 0, 0), quartic(11, 0, 0, 0));
    let product = quartic(1, 2, 3, 4) * quartic(5, 6, 7, 8);
    let great = quartic(0, 0, 0, 1_339_858_418);
    is(&rt, "x * x^3", x * quartic(0, 0, 0, 1), eleven);
    is(&rt, "a product", product, quartic(676, 588, 386, 60));
    is(&rt, "x^4", x.exp_u64(4), eleven);
    is(&rt, "x^0", x.exp_u64(0), BabyBear4::ONE);
    is(&rt, "x^(2^64 - 1)", x.exp_u64(u64::MAX), great);
    holds(
        &rt,
        "characteristic",
        BabyBear4::CHARACTERISTIC == 2_013_265_921,
    );
}

#[test]
fn inverses(rt: HostRuntime) {
    let inverse = quartic(201_326_592, 1_811_939_329, 201_326_592, 1_811_939_329);
    zero_has_no_inverse(&rt, BabyBear4::ZERO);
    zero_has_no_inverse(&rt, quartic(0, 0, 0, 0));
    inverts(&rt, "x", quartic(0, 1, 0, 0), quartic(0, 0, 0, 549_072_524));
    inverts(&rt, "1 + x", quartic(1, 1, 0, 0), inverse);
}

#[test]
fn numbers_are_embedded(rt: HostRuntime) {
    let (five, minus_one) = (quartic(5, 0, 0, 0), quartic(2_013_265_920, 0, 0, 0));
    is(&rt, "embedded 5", BabyBear4::embed(BabyBear::new(5)), five);
    is(
        &rt,
        "5 past the modulus",
        BabyBear4::from_u32(2_013_265_926),
        five,
    );
    is(&rt, "-1", BabyBear4::from_i32(-1), minus_one);
    is(&rt, "true", BabyBear4::from_bool(true), quartic(1, 0, 0, 0));
    is(
        &rt,
        "false",
        BabyBear4::from_bool(false),
        quartic(0, 0, 0, 0),
    );
}

fn scaled<F: Field, EF: ExtensionDomain<F>>(x: EF, by: F) -> EF {
    x.scaled(by)
}

fn minus_scaled<F: Field, EF: ExtensionDomain<F>>(x: EF, power: EF, by: F) -> EF {
    x.minus_scaled(power, by)
}

#[test]
fn products_with_base_elements(rt: HostRuntime) {
    let (three, last) = (BabyBear::new(3), BabyBear::from_i32(-1));
    let (x, y) = (quartic(1, 2, 3, 4), quartic(10, 20, 30, 40));
    is(&rt, "3x", scaled(x, three), quartic(3, 6, 9, 12));
    is(&rt, "x * -1", scaled(x, last), -x);
    is(
        &rt,
        "y - 3x",
        minus_scaled(y, x, three),
        quartic(7, 14, 21, 28),
    );
    is(
        &rt,
        "x - 3x",
        minus_scaled(x, x, three),
        -quartic(2, 4, 6, 8),
    );
    is(&rt, "3 * 3", scaled(three, three), BabyBear::new(9));
    is(
        &rt,
        "-1 - 3 * 3",
        minus_scaled(last, three, three),
        BabyBear::from_i32(-10),
    );
    let root = quartic(0, 1, 0, 0);
    is(&rt, "x by itself", scaled(root, root), quartic(0, 0, 1, 0));
}

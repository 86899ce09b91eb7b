use crate::cases::{has_text, holds, holds_at, inverts, is, zero_has_no_inverse};
use field::{ExtensionDomain, PrimeCharacteristicRing};
use field_goldilocks::{Goldilocks, Goldilocks2};

#[test]
fn whole_numbers_are_reduced(rt: HostRuntime) {
    for (at, n, number, text) in [
        (0, 0, 0, "0"),
        (
            1,
            18_446_744_069_414_584_320,
            18_446_744_069_414_584_320,
            "18446744069414584320",
        ),
        (2, 18_446_744_069_414_584_321, 0, "0"),
        (3, 18_446_744_069_414_584_322, 1, "1"),
        (4, u64::MAX, 4_294_967_294, "4294967294"),
    ] {
        let x = Goldilocks::new(n);
        holds_at(&rt, "number", at, x.as_canonical_u64() == number);
        holds_at(&rt, "from_u64", at, Goldilocks::from_u64(n) == x);
        holds_at(&rt, "text", at, has_text(rt.alloc(), x, text));
    }
}

#[test]
fn products(rt: HostRuntime) {
    for (at, x, y, product) in [
        (
            0,
            18_364_758_544_493_064_720,
            81_985_529_216_486_895,
            14_965_091_924_900_821_934,
        ),
        (1, 4_294_967_295, 4_294_967_295, 18_446_744_065_119_617_025),
        (
            2,
            9_223_372_036_854_775_808,
            9_223_372_036_854_775_808,
            18_446_744_068_340_842_497,
        ),
        (3, 18_446_744_069_414_584_320, 18_446_744_069_414_584_320, 1),
        (4, 18_446_744_069_414_584_319, 18_446_744_069_414_584_318, 6),
        (
            5,
            281_474_976_710_656,
            281_474_976_710_656,
            18_446_744_069_414_584_320,
        ),
        (6, 4_294_967_296, 4_294_967_296, 4_294_967_295),
        (
            9,
            4_294_967_296,
            9_223_372_036_854_775_807,
            9_223_372_030_412_324_864,
        ),
        (
            7,
            18_446_744_069_414_584_320,
            9_223_372_036_854_775_808,
            9_223_372_032_559_808_513,
        ),
        (
            8,
            4_294_967_295,
            18_446_744_069_414_584_320,
            18_446_744_065_119_617_026,
        ),
    ] {
        let found = Goldilocks::new(x) * Goldilocks::new(y);
        holds_at(&rt, "product", at, found == Goldilocks::new(product));
    }
}

#[test]
fn sums_and_differences_wrap_at_the_modulus(rt: HostRuntime) {
    let (zero, one) = (Goldilocks::ZERO, Goldilocks::ONE);
    let last = Goldilocks::new(18_446_744_069_414_584_320);
    is(&rt, "-1 + 1", last + one, zero);
    is(
        &rt,
        "-1 + -1",
        last + last,
        Goldilocks::new(18_446_744_069_414_584_319),
    );
    is(&rt, "0 - 1", zero - one, last);
    is(&rt, "1 - 0", one - zero, one);
    is(&rt, "-0", -zero, zero);
    is(&rt, "-1", -one, last);
    is(&rt, "from -1", Goldilocks::from_i32(-1), last);
    let half = Goldilocks::new(9_223_372_034_707_292_161);
    inverts(&rt, "2", Goldilocks::new(2), half);
    zero_has_no_inverse(&rt, zero);
    let seven = Goldilocks::new(7).exp_u64(9_223_372_034_707_292_160);
    is(&rt, "7 is no square", seven, last);
}

/// The polynomial with these coefficients, lowest power first.
fn quadratic(c0: u64, c1: u64) -> Goldilocks2 {
    Goldilocks2::new([Goldilocks::new(c0), Goldilocks::new(c1)])
}

#[test]
fn the_square_of_x_is_seven(rt: HostRuntime) {
    is(
        &rt,
        "x^2",
        quadratic(0, 1) * quadratic(0, 1),
        quadratic(7, 0),
    );
    is(
        &rt,
        "a product",
        quadratic(1, 2) * quadratic(3, 4),
        quadratic(59, 10),
    );
    let inverse = quadratic(3_074_457_344_902_430_720, 15_372_286_724_512_153_601);
    inverts(&rt, "1 + x", quadratic(1, 1), inverse);
    zero_has_no_inverse(&rt, Goldilocks2::ZERO);
}

#[test]
fn elements_have_two_coefficients(rt: HostRuntime) {
    let coefficients = quadratic(3, 4).coefficients();
    holds(
        &rt,
        "coefficients",
        coefficients == [Goldilocks::new(3), Goldilocks::new(4)],
    );
    is(
        &rt,
        "a difference",
        quadratic(1, 5) - quadratic(2, 2),
        quadratic(18_446_744_069_414_584_320, 3),
    );
    is(
        &rt,
        "from -2",
        Goldilocks2::from_i32(-2),
        quadratic(18_446_744_069_414_584_319, 0),
    );
    is(
        &rt,
        "scaled",
        quadratic(2, 3).scaled(Goldilocks::new(4)),
        quadratic(8, 12),
    );
    is(
        &rt,
        "embedded",
        Goldilocks2::embed(Goldilocks::new(5)),
        quadratic(5, 0),
    );
    let text = "1,18446744069414584320";
    holds(
        &rt,
        text,
        has_text(rt.alloc(), quadratic(1, 18_446_744_069_414_584_320), text),
    );
}

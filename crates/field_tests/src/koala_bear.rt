//! What sets `KoalaBear` and `KoalaBear4` apart: their constants. All else is one proof with `BabyBear`.
use crate::cases::{has_text, holds, holds_at, inverts, is, zero_has_no_inverse};
use field::PrimeCharacteristicRing;
use field_monty::{KoalaBear, KoalaBear4};

#[test]
fn whole_numbers_are_reduced(rt: HostRuntime) {
    for (n, text) in [
        (1, "1"),
        (2_130_706_432, "2130706432"),
        (2_130_706_433, "0"),
        (4_261_412_865, "2130706432"),
        (4_294_967_295, "33554429"),
    ] {
        let x = KoalaBear::new(n);
        holds_at(&rt, "text", n, has_text(rt.alloc(), x, text));
    }
    let least = KoalaBear::from_i32(-2_147_483_648);
    is(&rt, "least", least, KoalaBear::new(2_113_929_218));
    let characteristic = KoalaBear::CHARACTERISTIC;
    holds(&rt, "characteristic", characteristic == 2_130_706_433);
}

#[test]
fn products_and_powers(rt: HostRuntime) {
    let root = KoalaBear::new(2_113_994_754);
    let product = KoalaBear::new(123_456_789) * KoalaBear::new(16_307);
    let last = KoalaBear::new(2_130_706_432);
    is(&rt, "a product", product, KoalaBear::new(1_822_985_471));
    is(&rt, "root of -1", root * root, last);
    is(
        &rt,
        "-1 - 1",
        last - KoalaBear::ONE,
        KoalaBear::new(2_130_706_431),
    );
    for (base, exponent, power) in [
        (2, 31, 16_777_215),
        (3, 1_065_353_216, 2_130_706_432),
        (2_130_706_432, u64::MAX, 2_130_706_432),
    ] {
        let found = KoalaBear::new(base).exp_u64(exponent);
        holds_at(&rt, "power", base, found == KoalaBear::new(power));
    }
}

#[test]
fn inverses(rt: HostRuntime) {
    let third = KoalaBear::new(710_235_478);
    zero_has_no_inverse(&rt, KoalaBear::new(2_130_706_433));
    inverts(&rt, "3", KoalaBear::new(3), third);
    let inverse = quartic(1_065_353_216, 1_065_353_217, 1_065_353_216, 1_065_353_217);
    inverts(&rt, "x", quartic(0, 1, 0, 0), quartic(0, 0, 0, 710_235_478));
    inverts(&rt, "1 + x", quartic(1, 1, 0, 0), inverse);
}

/// The polynomial with these coefficients, lowest power first.
fn quartic(c0: u32, c1: u32, c2: u32, c3: u32) -> KoalaBear4 {
    KoalaBear4::new([
        KoalaBear::new(c0),
        KoalaBear::new(c1),
        KoalaBear::new(c2),
        KoalaBear::new(c3),
    ])
}

#[test]
fn the_fourth_power_is_three(rt: HostRuntime) {
    let (x, three) = (quartic(0, 1, 0, 0), quartic(3, 0, 0, 0));
    let product = quartic(1, 2, 3, 4) * quartic(5, 6, 7, 8);
    is(&rt, "x^4", x * quartic(0, 0, 0, 1), three);
    is(&rt, "a product", product, quartic(188, 172, 130, 60));
    let (great, power) = (x.exp_u64(u64::MAX), quartic(0, 0, 0, 307_928_944));
    is(&rt, "x^(2^64 - 1)", great, power);
    let text = "188,172,130,60";
    holds(&rt, text, has_text(rt.alloc(), product, text));
}

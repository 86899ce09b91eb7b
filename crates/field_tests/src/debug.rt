//! What `Debug` shows of an element, of which no contract speaks.
use crate::cases::holds;
use field::{F2, F7, PrimeCharacteristicRing};
use field_goldilocks::{Goldilocks, Goldilocks2};
use field_monty::{BabyBear, BabyBear4, KoalaBear, KoalaBear4};
use std::alloc::Global;
use std::fmt::Debug;

/// Whether this is what `Debug` shows of an element.
fn shows<K: Debug>(alloc: Global, x: &K, wanted: &str) -> bool {
    match format!(in alloc; "{x:?}") {
        Ok(text) => text.as_str() == wanted,
        Err(_) => false,
    }
}

#[test]
fn elements_show_their_number(rt: HostRuntime) {
    let alloc = rt.alloc();
    let last = BabyBear::new(2_013_265_920);
    holds(&rt, "-1", shows(alloc, &last, "2013265920"));
    let zero = BabyBear::new(2_013_265_921);
    holds(&rt, "the modulus", shows(alloc, &zero, "0"));
    let last = KoalaBear::from_i32(-1);
    holds(&rt, "-1", shows(alloc, &last, "2130706432"));
    let other = KoalaBear::new(2_130_706_438);
    holds(&rt, "5 past the modulus", shows(alloc, &other, "5"));
    holds(&rt, "F2", shows(alloc, &F2::new(3), "F2 { value: 1 }"));
    holds(&rt, "F7", shows(alloc, &F7::new(13), "F7 { value: 6 }"));
    let last = -Goldilocks::ONE;
    let text = "Goldilocks { value: 18446744069414584320 }";
    holds(&rt, "Goldilocks", shows(alloc, &last, text));
}

#[test]
fn extensions_show_their_coefficients(rt: HostRuntime) {
    let alloc = rt.alloc();
    let x = KoalaBear4::new([
        KoalaBear::new(1),
        KoalaBear::new(0),
        KoalaBear::new(2_130_706_432),
        KoalaBear::new(4),
    ]);
    let text = "MontyQuartic { c0: 1, c1: 0, c2: 2130706432, c3: 4 }";
    holds(&rt, "KoalaBear4", shows(alloc, &x, text));
    let x = BabyBear4::new([
        BabyBear::new(7),
        BabyBear::new(2_013_265_920),
        BabyBear::new(0),
        BabyBear::new(2_013_265_922),
    ]);
    let text = "MontyQuartic { c0: 7, c1: 2013265920, c2: 0, c3: 1 }";
    holds(&rt, "BabyBear4", shows(alloc, &x, text));
    let x = Goldilocks2::new([Goldilocks::new(1), -Goldilocks::new(1)]);
    let text =
        "Goldilocks2 { c0: Goldilocks { value: 1 }, c1: Goldilocks { value: 18446744069414584320 } }";
    holds(&rt, "Goldilocks2", shows(alloc, &x, text));
}

ghost use Rattle.std.specs.Prelude.{◌≡◌, ◌-◌, ◌^◌};

use crate::cases::{holds, is};
use field::{F7, Field, InverseCount, Inverter, PrimeCharacteristicRing};
use field_monty::BabyBear4;
use std::process::Abort;

/// Ends the test where the inverse of `what` is another element, or none.
///
/// That the count stays at its limit is proved here, for every inverter.
fn inverts<K: Field, I: Inverter<K>>(rt: &impl Abort, what: &str, inverter: &mut I, x: K, wanted: K)
    ensures stays_at_its_limit { I.count inverter.old ≡ 2 ^ 64 - 1
        → I.count inverter.new ≡ 2 ^ 64 - 1 }
{
    match inverter.invert(x) {
        Some(found) => is(rt, what, found, wanted),
        None => holds(rt, what, false),
    }
}

#[test]
fn each_call_counts(rt: HostRuntime) {
    let mut count = InverseCount::new();
    holds(&rt, "no call", count.get() == 0);
    inverts(&rt, "3", &mut count, F7::new(3), F7::new(5));
    holds(&rt, "0", count.invert(F7::new(0)).is_none());
    inverts(&rt, "1", &mut count, BabyBear4::ONE, BabyBear4::ONE);
    holds(&rt, "three calls", count.get() == 3);
    holds(
        &rt,
        "three calls, by the trait",
        Inverter::<F7>::get(&count) == 3,
    );
}

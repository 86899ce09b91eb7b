//! Calls of fields.
ghost use Rattle.std.specs.Prelude.{◌≢◌, All};
ghost use Rattle.field.specs.internal.IntegersModulo7.{f7_ring};

use crate::trees::nodes;
use field::{
    F2, F7, Field, InverseCount, batch_multiplicative_inverse, batch_multiplicative_inverse_into,
    powers,
};
use field_monty::{BabyBear, BabyBear4};
use gate_memory_builders::show::{Out, show};
use std::alloc::Global;

/// The texts of elements.
fn texts(alloc: Global, out: &mut Out) {
    let quartic = BabyBear4::new([1, 22, 333, 4444].map(BabyBear::new));
    show(out, "text of F2", F2::new(1).text(alloc));
    show(out, "text of F7", F7::new(5).text(alloc));
    show(out, "text of BabyBear", BabyBear::new(123).text(alloc));
    show(out, "text of BabyBear4", quartic.text(alloc));
}

/// Three elements that are not zero.
fn units() -> [F7; 3]
    ensures { All (λ x. x ≢ f7_ring.zero) result }
{
    [F7::new(2), F7::new(3), F7::new(4)]
}

/// Powers, and the inverses of a list.
fn lists(alloc: Global, out: &mut Out) {
    show(out, "powers", powers(alloc, F7::new(3), 9));
    let values = units();
    let (values, mut count) = (values.as_slice(), InverseCount::new());
    let answer = batch_multiplicative_inverse(alloc, values, &mut count);
    show(out, "batch_multiplicative_inverse", answer);
    show(out, "count", count.get());
    let (mut inverses, mut count) = (Vec::new(alloc), InverseCount::new());
    let answer = batch_multiplicative_inverse_into(values, &mut inverses, &mut count);
    show(out, "batch_multiplicative_inverse_into", answer);
    show(out, "filled", &inverses);
    show(out, "count", count.get());
}

const OF_F2: [&str; 5] = [
    "add of F2",
    "sub of F2",
    "mul of F2",
    "neg of F2",
    "copy of F2",
];

const OF_F7: [&str; 5] = [
    "add of F7",
    "sub of F7",
    "mul of F7",
    "neg of F7",
    "copy of F7",
];

const OF_BABY_BEAR: [&str; 5] = [
    "add of BabyBear",
    "sub of BabyBear",
    "mul of BabyBear",
    "neg of BabyBear",
    "copy of BabyBear",
];

const OF_BABY_BEAR4: [&str; 5] = [
    "add of BabyBear4",
    "sub of BabyBear4",
    "mul of BabyBear4",
    "neg of BabyBear4",
    "copy of BabyBear4",
];

/// The calls of elements as expressions, which take no memory.
fn elements(alloc: Global, out: &mut Out) {
    nodes::<F2, F2>(alloc, out, &OF_F2, &F2::new(1));
    nodes::<F7, F7>(alloc, out, &OF_F7, &F7::new(5));
    nodes::<BabyBear, BabyBear>(alloc, out, &OF_BABY_BEAR, &BabyBear::new(123));
    let quartic = BabyBear4::new([1, 22, 333, 4444].map(BabyBear::new));
    nodes::<BabyBear4, BabyBear4>(alloc, out, &OF_BABY_BEAR4, &quartic);
}

/// The calls of fields, twice.
pub fn fields(alloc: Global, out: &mut Out) {
    for _ in 0..2 {
        texts(alloc, out);
        lists(alloc, out);
        elements(alloc, out);
    }
}

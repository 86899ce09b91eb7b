//! What counts are, and that they keep their weight.
ghost use Rattle.std.specs.Prelude.{◌≡◌};

use super::{Tree, constant, has_value, holds};
use air::Expression;
use field::{F7, Field};
use field_monty::BabyBear;
use lookup_record::Count;
use std::process::Abort;

/// Negating twice gives the same count.
fn negated_twice<F: Field>(count: Count<F>) -> Count<F>
    ensures expression { result.expression ≡ count.expression }
    ensures weight { result.weight ≡ count.weight }
{
    -(-count)
}

/// Fails unless a count is this element, with this weight.
fn has_parts<F: Field>(rt: &impl Abort, what: &str, count: Count<F>, element: F, weight: u64) {
    let own_weight = count.weight();
    let (expression, same_weight) = count.into_parts();
    let are_these = expression == element && own_weight == weight && same_weight == weight;
    holds(rt, what, are_these);
}

/// The weight of a whole number is its absolute value, and negation keeps a weight.
#[test]
fn elements_with_their_weights(rt: HostRuntime) {
    let (three, least) = (BabyBear::new(2013265918), BabyBear::new(1879048194));
    let (seven, nine) = (BabyBear::new(7), BabyBear::new(9));
    has_parts(&rt, "5", Count::from(5), BabyBear::new(5), 5);
    has_parts(&rt, "-3", Count::from(-3), three, 3);
    let count = Count::from(i32::MIN);
    has_parts(&rt, "the least number", count, least, 2147483648);
    let count = Count::bounded(seven, 16);
    has_parts(&rt, "a bounded count", count, seven, 16);
    has_parts(&rt, "a provided count", Count::provided(nine), nine, 0);
    let negated = -Count::bounded(BabyBear::new(4), 10);
    let four = BabyBear::new(2013265917);
    has_parts(&rt, "a negated count", negated, four, 10);
    let twice = negated_twice(Count::bounded(F7::new(4), 10));
    has_parts(&rt, "negated twice", twice, F7::new(4), 10);
    let called = Count::bounded(F7::new(4), 10).negate::<F7>(rt.alloc());
    let called = called.expect(&rt, "memory");
    has_parts(&rt, "negated by the call", called, F7::new(3), 10);
}

/// Fails unless a count is an expression of this value, with weight 10.
fn is_tree(rt: &impl Abort, what: &str, count: Count<Tree>, number: u32) {
    let (expression, weight) = count.into_parts();
    holds(rt, what, has_value(&expression, number) && weight == 10);
}

#[test]
fn expressions_are_negated_and_copied(rt: HostRuntime) {
    let alloc = rt.alloc();
    let copy = Count::bounded(constant(4), 10).copy(alloc);
    is_tree(&rt, "a copy", copy.expect(&rt, "memory"), 4);
    let negated = Count::bounded(constant(4), 10).negate(alloc);
    is_tree(&rt, "negated", negated.expect(&rt, "memory"), 3);
}

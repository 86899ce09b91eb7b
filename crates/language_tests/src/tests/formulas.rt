//! Expressions.
use super::{holds, is_at};
use language::{TextFault, Tree, Why, formulas_are_said, read_formula, tokens};
use std::alloc::Global;

/// The value of an expression, where a name is a thousand times the byte at which it stands, and
/// in the next row one more.
fn value(tree: &Tree) -> u64 {
    match tree {
        Tree::Name(span) => (span.start as u64).wrapping_mul(1000),
        Tree::Next(span) => (span.start as u64).wrapping_mul(1000).wrapping_add(1),
        Tree::Number(number, _) => *number,
        Tree::Negative(inner) => 0u64.wrapping_sub(value(inner)),
        Tree::Sum(left, right) => value(left).wrapping_add(value(right)),
        Tree::Difference(left, right) => value(left).wrapping_sub(value(right)),
        Tree::Product(left, right) => value(left).wrapping_mul(value(right)),
        Tree::Power(base, exponent) => power(value(base), *exponent),
    }
}

fn power(base: u64, exponent: u64) -> u64 {
    let mut product = 1u64;
    for _ in 0..exponent {
        product = product.wrapping_mul(base);
    }
    product
}

/// Whether a text begins with an expression of this value, before so many tokens.
fn is(alloc: Global, text: &[u8], wanted: u64, left: usize) -> bool {
    let Ok(found) = tokens(alloc, text) else {
        return false;
    };
    match read_formula(alloc, &found) {
        Ok((tree, rest)) => value(&tree) == wanted && rest.len() == left,
        Err(_) => false,
    }
}

#[test]
fn operators(rt: HostRuntime) {
    let alloc = rt.alloc();
    formulas_are_said();
    holds(&rt, "from the left", is(alloc, b"10 - 3 - 2", 5, 2));
    holds(
        &rt,
        "products first",
        is(alloc, b"1 + 2 * 3 - 4 * 5 + 20", 7, 2),
    );
    holds(&rt, "parentheses", is(alloc, b"(1 +\n 2) * (3)", 9, 2));
    holds(
        &rt,
        "powers before signs",
        is(alloc, b"-2^3 * -1 + 2^8", 264, 2),
    );
    holds(&rt, "names", is(alloc, b" next (a) + next + 1", 19002, 2));
    holds(&rt, "up to another word", is(alloc, b"7 at most 1", 7, 5));
}

/// Whether a text begins with an expression that has this fault, at this column.
fn fails(alloc: Global, text: &[u8], column: usize, why: Why) -> bool {
    let Ok(found) = tokens(alloc, text) else {
        return false;
    };
    match read_formula(alloc, &found) {
        Ok(_) => false,
        Err(fault) => is_at(text, fault, 1, column, why),
    }
}

#[test]
fn faults(rt: HostRuntime) {
    let alloc = rt.alloc();
    holds(&rt, "nothing", fails(alloc, b"", 1, Why::Expression));
    holds(
        &rt,
        "a second sign",
        fails(alloc, b"a + * b", 5, Why::Expression),
    );
    holds(
        &rt,
        "an open parenthesis",
        fails(alloc, b"(a + b }", 8, Why::Sign(b')')),
    );
    holds(
        &rt,
        "the next row of a number",
        fails(alloc, b"next(1)", 6, Why::Column),
    );
    holds(&rt, "no exponent", fails(alloc, b"a^b", 3, Why::Number));
    holds(&rt, "exponent 0", fails(alloc, b"a^0", 3, Why::Exponent));
    holds(&rt, "exponent 65", fails(alloc, b"a^65", 3, Why::Exponent));
}

/// How an expression ends that repeats a part: 0 if it is read, 1 if it is too deep.
fn depth_answer(alloc: Global, part: &[u8], times: usize, last: &[u8]) -> u32 {
    let mut text = Vec::new(alloc);
    for _ in 0..times {
        if text.extend_from_slice(part).is_err() {
            return 9;
        }
    }
    if text.extend_from_slice(last).is_err() {
        return 9;
    }
    let Ok(found) = tokens(alloc, &text) else {
        return 9;
    };
    match read_formula(alloc, &found) {
        Ok(_) => 0,
        Err(TextFault::Fault(fault)) if fault.why == Why::Deep => 1,
        Err(_) => 2,
    }
}

#[test]
fn depth(rt: HostRuntime) {
    let alloc = rt.alloc();
    holds(
        &rt,
        "a thousand terms",
        depth_answer(alloc, b"a+", 1000, b"a") == 0,
    );
    holds(
        &rt,
        "more terms than layers",
        depth_answer(alloc, b"a+", 1024, b"a") == 1,
    );
    holds(
        &rt,
        "many parentheses",
        depth_answer(alloc, b"(", 200000, b"") == 1,
    );
    holds(
        &rt,
        "many signs",
        depth_answer(alloc, b"-", 200000, b"a") == 1,
    );
}

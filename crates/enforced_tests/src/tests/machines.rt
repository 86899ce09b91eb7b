//! What is shown of the lookups of machines. Constraints, flags and counts are written with operators after their
//! operands: `a b +` is a sum, `a ?` is `a * (a - 1)`, a small letter is a column, and `F`, `L` and `T` are the
//! selectors of first, last and other than last rows.
use super::holds;
use air_expressions::{BaseEntry, BaseLeaf, Expression, SymbolicExpression, SymbolicVariable};
use field::{F2, Field, PrimeCharacteristicRing};
use field_monty::BabyBear;
use lookup::{Kind, Lookup};
use lookup_enforced::{Enforcement, Missing, enforcements};
use std::alloc::Global;
use std::process::Abort;

/// A selector, or the column of a small letter.
fn leaf<F: Field>(byte: u8) -> SymbolicExpression<F> {
    SymbolicExpression::Leaf(match byte {
        b'F' => BaseLeaf::IsFirstRow,
        b'L' => BaseLeaf::IsLastRow,
        b'T' => BaseLeaf::IsTransition,
        _ => {
            let column = byte.saturating_sub(b'a') as usize;
            BaseLeaf::Variable(SymbolicVariable::new(BaseEntry::Main { offset: 0 }, column))
        }
    })
}

/// The last item of a stack.
fn top<F: Field>(rt: &impl Abort, stack: &mut Vec<SymbolicExpression<F>>) -> SymbolicExpression<F> {
    stack.pop().expect(rt, "an operand")
}

/// Reads one word.
fn push_word<F: Field>(
    rt: &impl Abort,
    alloc: Global,
    stack: &mut Vec<SymbolicExpression<F>>,
    byte: u8,
) {
    let item = match byte {
        b'?' => {
            let a = top(rt, stack);
            let one = SymbolicExpression::constant(F::ONE);
            let less = a.copy(alloc).expect(rt, "memory").sub(alloc, one);
            a.mul(alloc, less.expect(rt, "memory"))
        }
        b'+' | b'-' | b'*' => {
            let b = top(rt, stack);
            let a = top(rt, stack);
            match byte {
                b'+' => a.add(alloc, b),
                b'-' => a.sub(alloc, b),
                _ => a.mul(alloc, b),
            }
        }
        b'0'..=b'9' => {
            let number = byte.saturating_sub(b'0') as u32;
            Ok(SymbolicExpression::constant(F::from_u32(number)))
        }
        _ => Ok(leaf(byte)),
    };
    stack.push(item.expect(rt, "memory")).expect(rt, "memory");
}

/// The expressions of a text; a `;` is skipped, as a space is.
fn read<F: Field>(rt: &impl Abort, alloc: Global, text: &str) -> Vec<SymbolicExpression<F>> {
    let mut stack = Vec::new(alloc);
    for byte in text.as_bytes() {
        if *byte != b' ' && *byte != b';' {
            push_word(rt, alloc, &mut stack, *byte);
        }
    }
    stack
}

/// What is shown of a lookup with these flags and counts, each for a tuple of no elements; without flags where there
/// is no text of them.
pub(super) fn shown<F: Field>(
    rt: &impl Abort,
    alloc: Global,
    constraints: &str,
    flags: &str,
    counts: &str,
    height: usize,
) -> Enforcement {
    let multiplicities = read::<F>(rt, alloc, counts);
    let mut elements = Vec::new(alloc);
    for _ in 0..multiplicities.len() {
        elements.push(Vec::new(alloc)).expect(rt, "memory");
    }
    let flags = if flags.is_empty() {
        None
    } else {
        Some(read::<F>(rt, alloc, flags))
    };
    let lookup = Lookup {
        kind: Kind::Local,
        elements,
        multiplicities,
        count_weight: 1,
        column: 0,
        flags,
    };
    let constraints = read::<F>(rt, alloc, constraints);
    let lookups = Vec::from_array(alloc, [lookup]).expect(rt, "memory");
    let mut answers = enforcements(
        alloc,
        constraints.as_slice(),
        lookups.as_slice(),
        height,
    ).expect(rt, "memory");
    answers.pop().expect(rt, "an answer")
}

/// Tests whether flags are shown to be lawful at height 8.
fn flags(rt: &impl Abort, alloc: Global, constraints: &str, flags: &str, wanted: bool) {
    let found = shown::<BabyBear>(rt, alloc, constraints, flags, "", 8);
    holds(
        rt,
        flags,
        found.flags == wanted && found.missing.is_none() == wanted,
    );
}

/// Tests the bound of a count at height 8.
fn bound(rt: &impl Abort, alloc: Global, constraints: &str, count: &str, wanted: Option<u64>) {
    let found = shown::<BabyBear>(rt, alloc, constraints, "", count, 8);
    holds(rt, count, found.bounds.as_slice() == [wanted].as_slice());
}

/// A memory: `r` is a bit, `w` is one where `r` is set, and a row reads or writes.
#[test]
fn memory(rt: HostRuntime) {
    let alloc = rt.alloc();
    let constraints = "r?; r w? *;";
    flags(&rt, alloc, constraints, "r w *; r 1 w - *;", true);
    bound(&rt, alloc, constraints, "r", Some(1));
    bound(&rt, alloc, constraints, "0 r -", Some(1));
    flags(&rt, alloc, "r?;", "r w *; r 1 w - *;", false);
    flags(&rt, alloc, "r w? *;", "r w *; r 1 w - *;", false);
}

/// Sixteen operations `a` to `p`, one of which is set exactly where `r` is; `s` is the fourth one.
#[test]
fn operations(rt: HostRuntime) {
    let alloc = rt.alloc();
    let bits = "a?;b?;c?;d?;e?;f?;g?;h?;i?;j?;k?;l?;m?;n?;o?;p?;r?; s d -;";
    let sum = "a b+ c+ d+ e+ f+ g+ h+ i+ j+ k+ l+ m+ n+ o+ p+ r -;";
    let both = "a?;b?;c?;d?;e?;f?;g?;h?;i?;j?;k?;l?;m?;n?;o?;p?;r?; s d -; \
        a b+ c+ d+ e+ f+ g+ h+ i+ j+ k+ l+ m+ n+ o+ p+ r -;";
    flags(&rt, alloc, both, "a b+ c+; d e+; f;", true);
    flags(&rt, alloc, both, "g h+; 1 r -;", true);
    bound(&rt, alloc, both, "a b+ c+", Some(1));
    bound(&rt, alloc, both, "s e+", Some(1));
    flags(&rt, alloc, bits, "a b+ c+; d e+; f;", false);
    flags(&rt, alloc, sum, "a; b;", false);
}

/// The count `m` is made of two bits.
#[test]
fn counts(rt: HostRuntime) {
    let alloc = rt.alloc();
    let constraints = "b?; c?; m b 2 c * + -;";
    bound(&rt, alloc, constraints, "m", Some(3));
    bound(&rt, alloc, constraints, "b 3 c * -", Some(3));
    bound(&rt, alloc, "b?; m b 2 c * + -;", "m", None);
    bound(&rt, alloc, "", "2 3 -", Some(1));
    bound(&rt, alloc, "", "m", None);
}

/// What constraints do not enforce, and what is beside it: bits without a sum; a sum with a cell that is no bit; bits
/// on rows with a next one alone; and a sum that is a cell of which nothing is known.
#[test]
fn what_is_not_enforced(rt: HostRuntime) {
    let alloc = rt.alloc();
    let constraints = "f?; g?; f h + ?; T t? *; x?; y?; x y + z -;";
    flags(&rt, alloc, constraints, "f; g;", false);
    flags(&rt, alloc, constraints, "f; h;", false);
    flags(&rt, alloc, constraints, "t;", false);
    flags(&rt, alloc, constraints, "x; y;", false);
    bound(&rt, alloc, constraints, "r", None);
    flags(&rt, alloc, constraints, "t T *;", true);
    flags(&rt, alloc, constraints, "f; 1 f -;", true);
    flags(
        &rt,
        alloc,
        constraints,
        "f g *; f 1 g - *; 1 f - g *;",
        true,
    );
}

/// A branch is taken only where there is one, and operations exclude each other; so no row that adds takes a branch.
#[test]
fn a_product_that_is_zero(rt: HostRuntime) {
    let alloc = rt.alloc();
    let constraints = "a?; b?; a b + ?; t?; t 1 b - *;";
    flags(&rt, alloc, constraints, "a; t;", true);
    flags(&rt, alloc, "a?; b?; t?; t 1 b - *;", "a; t;", false);
}

/// Where a cell is a bit or in a product that is zero, a linear constraint that would give it by others takes nothing
/// away.
#[test]
fn what_is_known_stays(rt: HostRuntime) {
    let alloc = rt.alloc();
    flags(&rt, alloc, "x?; x a - b -;", "x;", true);
    flags(&rt, alloc, "x?; x 2 a * + 1 -;", "x;", true);
    flags(&rt, alloc, "a t *;", "a t *;", true);
    flags(&rt, alloc, "a t *; a b - c -;", "a t *;", true);
}

/// A row of two is the first one or the last one, so flags need not be lawful between them.
#[test]
fn two_rows(rt: HostRuntime) {
    let alloc = rt.alloc();
    let constraints = "F a? *; L a? *;";
    let two = shown::<BabyBear>(&rt, alloc, constraints, "a;", "", 2);
    holds(&rt, "two", two.flags);
    let three = shown::<BabyBear>(&rt, alloc, constraints, "a;", "", 3);
    let between = match three.missing {
        Some(Missing::Flag { flag, kind }) => flag == 0 && !kind.is_first && !kind.is_last,
        _ => false,
    };
    holds(&rt, "three", !three.flags && between);
}

/// A product of more than sixteen cells is too large, and so is a sum of too many terms; nothing is shown of either,
/// and what is beside them is.
#[test]
fn what_is_too_large(rt: HostRuntime) {
    let alloc = rt.alloc();
    let product = "a b* c* d* e* f* g* h* i* j* k* l* m* n* o* p* q*;";
    flags(
        &rt,
        alloc,
        product,
        "a b* c* d* e* f* g* h* i* j* k* l* m* n* o* p* q*;",
        false,
    );
    flags(
        &rt,
        alloc,
        "a b* c* d* e* f* g* h* i* j* k* l* m* n* o* p* q*; x?;",
        "x;",
        true,
    );
}

/// On a trace of one row the first row is the last one, and on no other.
#[test]
fn ends(rt: HostRuntime) {
    let alloc = rt.alloc();
    let ends = "F; L;";
    holds(
        &rt,
        "two rows",
        shown::<BabyBear>(&rt, alloc, "", ends, "", 2).flags,
    );
    let one = shown::<BabyBear>(&rt, alloc, "", ends, "", 1);
    let exclusive = match one.missing {
        Some(Missing::Exclusive { kind }) => kind.is_first && kind.is_last,
        _ => false,
    };
    holds(&rt, "one row", !one.flags && exclusive);
    holds(
        &rt,
        "no row",
        shown::<BabyBear>(&rt, alloc, "", ends, "", 0).flags,
    );
}

/// Over `F2` two bits have a sum that is a bit anyway, so nothing is shown of two flags.
#[test]
fn small_characteristic(rt: HostRuntime) {
    let alloc = rt.alloc();
    holds(
        &rt,
        "two",
        !shown::<F2>(&rt, alloc, "a?; b?; a b + ?;", "a; b;", "", 4).flags,
    );
    holds(
        &rt,
        "one",
        shown::<F2>(&rt, alloc, "a?;", "a;", "", 4).flags,
    );
}

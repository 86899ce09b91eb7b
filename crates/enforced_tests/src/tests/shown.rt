//! What is shown of lookups.
use super::{bits, group, holds, list, local};
use field::F7;
use lookup::Lookup;
use lookup_enforced::{Missing, enforcements};

/// A lookup without flags has lawful ones. There is an answer for each lookup, and a bound or none for each
/// multiplicity.
#[test]
fn one_answer_for_each_lookup(rt: HostRuntime) {
    let alloc = rt.alloc();
    let constraints = bits(&rt, alloc);
    let lookups = list(&rt, alloc, [local(&rt, alloc, 0), group(&rt, alloc, 1)]);
    let shown = enforcements(alloc, constraints.as_slice(), lookups.as_slice(), 2);
    let shown = shown.expect(&rt, "memory");
    holds(&rt, "two lookups", shown.len() == 2);
    let plain = match shown.first() {
        Some(plain) => plain.flags && plain.missing.is_none() && plain.bounds.len() == 1,
        None => false,
    };
    holds(&rt, "no flags", plain);
    let two = match shown.last() {
        Some(of_group) => of_group.bounds.len() == 2,
        None => false,
    };
    holds(&rt, "two branches", two);
    let none: &[Lookup<F7>] = &[];
    let shown = enforcements(alloc, constraints.as_slice(), none, 0);
    holds(&rt, "no lookups", shown.expect(&rt, "memory").is_empty());
}

/// Without constraints no flag is known to be a bit, also on a trace of one row. The first flag is named.
#[test]
fn nothing_without_constraints(rt: HostRuntime) {
    let alloc = rt.alloc();
    let lookups = list(&rt, alloc, [group(&rt, alloc, 0)]);
    for height in [1, 2] {
        let shown = enforcements(alloc, &[], lookups.as_slice(), height).expect(&rt, "memory");
        let first_flag = match shown.first() {
            Some(shown) => match shown.missing {
                Some(Missing::Flag { flag, kind }) => {
                    !shown.flags && flag == 0 && (height != 1 || kind.is_first && kind.is_last)
                }
                _ => false,
            },
            None => false,
        };
        holds(&rt, "the first flag", first_flag);
    }
}

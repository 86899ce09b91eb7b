//! Lookups written as JSON, read and copied. The texts are those of serde's rules: a struct is an
//! object of its fields, a variant without data its name, one with data an object of one member.
use super::{cell, holds, list, single, text};
use air::{Expression, SymbolicExpression};
use field::F7;
use field_monty::BabyBear;
use lookup::{Kind, Lookup, LookupTerminal, Lookups};
use serde_json::error::Category;
use std::alloc::Global;
use std::process::Abort;

/// A local lookup of weight 1, and two on `bus` of weights 1 and 0.
const LOOKUPS: &str =
    r#"[{"kind":"Local","elements":[[{"Leaf":{"Variable":{"entry":{"Main":{"offset":0}},"index":0}}}]],"multiplicities":[{"Leaf":{"Constant":1}}],"count_weight":1,"column":0,"flags":null},{"kind":{"Global":"bus"},"elements":[[{"Leaf":{"Variable":{"entry":{"Main":{"offset":0}},"index":0}}}]],"multiplicities":[{"Leaf":{"Constant":1}}],"count_weight":1,"column":1,"flags":null},{"kind":{"Global":"bus"},"elements":[[{"Leaf":{"Variable":{"entry":{"Main":{"offset":0}},"index":0}}}]],"multiplicities":[{"Neg":{"Leaf":{"Variable":{"entry":{"Main":{"offset":0}},"index":1}}}}],"count_weight":0,"column":2,"flags":null}]"#;

/// A lookup whose members come in another order.
const TURNED: &str =
    r#"[{"flags":[{"Leaf":{"Constant":2}}],"column":0,"count_weight":3,"multiplicities":[{"Leaf":{"Constant":4}}],"elements":[[{"Leaf":{"Variable":{"index":5,"entry":"Public"}}}]],"kind":"Local"}]"#;

/// The same lookup as it is written.
const ORDERED: &str =
    r#"[{"kind":"Local","elements":[[{"Leaf":{"Variable":{"entry":"Public","index":5}}}]],"multiplicities":[{"Leaf":{"Constant":4}}],"count_weight":3,"column":0,"flags":[{"Leaf":{"Constant":2}}]}]"#;

/// An exclusive lookup of two branches.
const EXCLUSIVE: &str =
    r#"[{"kind":{"Global":"b"},"elements":[[],[{"Leaf":{"Constant":3}},{"Leaf":{"Constant":4}}]],"multiplicities":[{"Leaf":{"Constant":5}},{"Leaf":{"Constant":6}}],"count_weight":18446744073709551615,"column":0,"flags":[{"Leaf":{"Constant":0}},{"Leaf":{"Constant":1}}]}]"#;

/// Every kind of node and leaf.
const EXPRESSIONS: &str =
    r#"[{"Add":[{"Leaf":"IsFirstRow"},{"Leaf":"IsLastRow"}]},{"Sub":[{"Leaf":"IsTransition"},{"Leaf":{"Constant":6}}]},{"Mul":[{"Leaf":{"Variable":{"entry":"Public","index":3}}},{"Neg":{"Leaf":{"Variable":{"entry":{"Preprocessed":{"offset":1}},"index":18446744073709551615}}}}]}]"#;

/// The lookups of the first text.
fn lookups(rt: &impl Abort, alloc: Global) -> Vec<Lookup<F7>> {
    let query = single(rt, alloc, 1, 0);
    let mut sent = single(rt, alloc, 1, 1);
    sent.kind = Kind::Global(text(rt, alloc, "bus"));
    let mut received = single(rt, alloc, 1, 2);
    received.kind = Kind::Global(text(rt, alloc, "bus"));
    received.multiplicities = list(rt, alloc, [cell(1).neg(alloc).expect(rt, "memory")]);
    received.count_weight = 0;
    list(rt, alloc, [query, sent, received])
}

/// The lookups of a text.
fn read(rt: &impl Abort, alloc: Global, text: &str) -> Vec<Lookup<F7>> {
    serde_json::from_str(alloc, text).expect(rt, text)
}

/// What a text of lookups is refused for, if it is.
fn refusal(alloc: Global, text: &str) -> Option<Category> {
    match serde_json::from_str::<Vec<Lookup<F7>>>(alloc, text) {
        Ok(_) => None,
        Err(error) => Some(error.classify()),
    }
}

/// What the first text is refused for, if it is, with one part of it changed into another.
fn changed_refusal(rt: &impl Abort, alloc: Global, old: &str, new: &str) -> Option<Category> {
    let text = LOOKUPS.replace(alloc, old, new).expect(rt, "memory");
    refusal(alloc, text.as_str())
}

/// The set of lookups of a text.
fn read_set(rt: &impl Abort, alloc: Global, text: &str) -> Lookups<F7> {
    Lookups::from_records(alloc, read(rt, alloc, text)).expect(rt, text)
}

/// Whether lookups are written as this text.
fn are_written(rt: &impl Abort, alloc: Global, lookups: &Vec<Lookup<F7>>, text: &str) -> bool {
    serde_json::to_string(alloc, lookups)
        .expect(rt, text)
        .as_str()
        == text
}

/// Whether a set of lookups is written as this text.
fn is_written(rt: &impl Abort, alloc: Global, lookups: &Lookups<F7>, text: &str) -> bool {
    serde_json::to_string(alloc, lookups)
        .expect(rt, text)
        .as_str()
        == text
}

/// Whether lookups have the columns from 0 on.
fn are_in_order(lookups: &[Lookup<F7>]) -> bool {
    for (column, lookup) in lookups.iter().enumerate() {
        if lookup.column != column {
            return false;
        }
    }
    true
}

#[test]
fn lookups_go_round_through_their_check(rt: HostRuntime) {
    let alloc = rt.alloc();
    holds(
        &rt,
        "lookups",
        are_written(&rt, alloc, &lookups(&rt, alloc), LOOKUPS),
    );
    let set = read_set(&rt, alloc, LOOKUPS);
    holds(&rt, "a set", is_written(&rt, alloc, &set, LOOKUPS));
    holds(&rt, "three lookups", set.as_slice().len() == 3);
    holds(&rt, "their columns", are_in_order(set.as_slice()));
    holds(&rt, "their weight", set.total_count_weight() == 2);
}

/// Whether the copies of a text's lookups, and the copy of their set, are written as the text.
fn are_copied(rt: &impl Abort, alloc: Global, text: &str) -> bool {
    let mut copies = Vec::new(alloc);
    for lookup in &read(rt, alloc, text) {
        let copy = lookup.copy(alloc).expect(rt, "memory");
        copies.push(copy).expect(rt, "memory");
    }
    let set = read_set(rt, alloc, text).copy(alloc).expect(rt, "memory");
    are_written(rt, alloc, &copies, text) && is_written(rt, alloc, &set, text)
}

/// The texts have every field of a lookup: its kind, its lists, its weight, its column and its
/// flags.
#[test]
fn copies_have_the_same_text(rt: HostRuntime) {
    let alloc = rt.alloc();
    for (what, text) in [
        ("a local lookup and two on a bus", LOOKUPS),
        ("an exclusive lookup on a bus", EXCLUSIVE),
        ("a local exclusive lookup of weight 3", ORDERED),
    ] {
        holds(&rt, what, are_copied(&rt, alloc, text));
    }
    for kind in list(
        &rt,
        alloc,
        [Kind::Global(text(&rt, alloc, "bus")), Kind::Local],
    ) {
        let copy = kind.copy(alloc).expect(&rt, "memory");
        holds(&rt, "a kind", copy == kind);
    }
}

#[test]
fn every_node_goes_round(rt: HostRuntime) {
    let alloc = rt.alloc();
    let read = serde_json::from_str::<Vec<SymbolicExpression<F7>>>(alloc, EXPRESSIONS);
    let text = serde_json::to_string(alloc, &read.expect(&rt, "expressions"));
    holds(
        &rt,
        "the text",
        text.expect(&rt, "memory").as_str() == EXPRESSIONS,
    );
}

#[test]
fn a_terminal_is_its_element(rt: HostRuntime) {
    let alloc = rt.alloc();
    let text = serde_json::to_string(alloc, &LookupTerminal(BabyBear::new(123)));
    holds(
        &rt,
        "the text",
        text.expect(&rt, "memory").as_str() == "123",
    );
    let read = serde_json::from_str::<LookupTerminal<BabyBear>>(alloc, "123");
    holds(
        &rt,
        "the element",
        read.expect(&rt, "a terminal").0 == BabyBear::new(123),
    );
}

#[test]
fn a_cut_text_is_refused(rt: HostRuntime) {
    let bytes = LOOKUPS.as_bytes();
    for end in 0..bytes.len() {
        let read = serde_json::from_slice::<Vec<Lookup<F7>>>(rt.alloc(), &bytes[..end]);
        assert!(rt; read.is_err(), "{end}");
    }
}

/// Fails unless the first text is refused for what it holds, or is read where that is `is_good`, with a part
/// of it changed into another.
fn expect_changes(rt: &impl Abort, alloc: Global, changes: &[(&str, &str)], is_good: bool) {
    let wanted = if is_good { None } else { Some(Category::Data) };
    for (old, new) in changes {
        holds(rt, new, changed_refusal(rt, alloc, old, new) == wanted);
    }
}

/// Parts of the first text, and what makes it none of lookups in their place.
const BAD_CHANGES: [(&str, &str); 20] = [
    (
        r#""count_weight":1"#,
        r#""count_weight":18446744073709551616"#,
    ),
    (r#""count_weight":1,"#, ""),
    (r#""column":0"#, r#""column":0,"column":0"#),
    (r#""Constant":1"#, r#""Constant":7"#),
    (r#""Constant":1"#, r#""Constant":-1"#),
    (r#""Constant":1"#, r#""Constant":1,"Constant":1"#),
    (r#"{"Neg":"#, r#"{"Negation":"#),
    (r#"{"offset":0}"#, "{}"),
    (r#""index":1"#, r#""index":-1"#),
    (r#""Local""#, r#""Global""#),
    (r#""Local""#, r#"{"Local":null}"#),
    (r#""kind":"Local","#, ""),
    (r#""kind":"Local""#, r#""kind":"Local","kind":"Local""#),
    (r#","flags":null"#, r#","flags":null,"flags":null"#),
    (r#""column":0,"#, ""),
    (r#""entry":{"Main":{"offset":0}},"#, ""),
    (r#","index":1"#, ""),
    (r#""index":1"#, r#""index":1,"index":1"#),
    (r#""offset":0"#, r#""offset":0,"offset":0"#),
    (r#""Main""#, r#""Permutation""#),
];

/// Parts of the first text, and what may stand in their place.
const GOOD_CHANGES: [(&str, &str); 3] = [
    (r#","flags":null"#, ""),
    (r#""count_weight":1"#, r#""count_weight":4294967296"#),
    (r#""column":0"#, r#""column":0,"other":[{}]"#),
];

#[test]
fn what_is_no_lookup_is_refused(rt: HostRuntime) {
    expect_changes(&rt, rt.alloc(), BAD_CHANGES.as_slice(), false);
    expect_changes(&rt, rt.alloc(), GOOD_CHANGES.as_slice(), true);
}

/// The third lookup keeps its weight 0.
#[test]
fn a_weight_of_33_bits_is_read(rt: HostRuntime) {
    let alloc = rt.alloc();
    let (old, new) = (r#""count_weight":1"#, r#""count_weight":4294967296"#);
    let text = LOOKUPS.replace(alloc, old, new).expect(&rt, "memory");
    let set = read_set(&rt, alloc, text.as_str());
    holds(&rt, "both weights", set.total_count_weight() == 8589934592);
    let [first, ..] = set.as_slice() else {
        holds(&rt, "a lookup", false);
        return;
    };
    holds(&rt, "the first", first.count_weight == 4294967296);
}

/// Whether the text of every node is read with a part of it changed into another.
fn is_read_changed(rt: &impl Abort, alloc: Global, old: &str, new: &str) -> bool {
    let text = EXPRESSIONS.replace(alloc, old, new).expect(rt, "memory");
    serde_json::from_str::<Vec<SymbolicExpression<F7>>>(alloc, text.as_str()).is_ok()
}

#[test]
fn what_is_no_expression_is_refused(rt: HostRuntime) {
    let alloc = rt.alloc();
    for (old, new) in [
        (r#",{"Leaf":"IsLastRow"}"#, ""),
        (
            r#",{"Leaf":"IsLastRow"}"#,
            r#",{"Leaf":"IsLastRow"},{"Leaf":"IsLastRow"}"#,
        ),
        (r#""IsTransition""#, r#""IsEveryRow""#),
        (r#""Public""#, r#""Main""#),
        (r#"{"Leaf":{"Constant":6}}"#, r#"{"Constant":6}"#),
    ] {
        holds(&rt, new, !is_read_changed(&rt, alloc, old, new));
    }
}

#[test]
fn members_come_in_any_order(rt: HostRuntime) {
    let alloc = rt.alloc();
    let lookups = read(&rt, alloc, TURNED);
    holds(&rt, "the text", are_written(&rt, alloc, &lookups, ORDERED));
}

/// The text of a number of negations of a selector.
fn negations(rt: &impl Abort, alloc: Global, count: usize) -> String {
    let mut text = String::new(alloc);
    for _ in 0..count {
        text.push_str(r#"{"Neg":"#).expect(rt, "memory");
    }
    text.push_str(r#"{"Leaf":"IsFirstRow"}"#)
        .expect(rt, "memory");
    for _ in 0..count {
        text.push_str("}").expect(rt, "memory");
    }
    text
}

/// Whether an expression of this many negations is read.
fn is_read(rt: &impl Abort, alloc: Global, count: usize) -> bool {
    let text = negations(rt, alloc, count);
    serde_json::from_str::<SymbolicExpression<F7>>(alloc, text.as_str()).is_ok()
}

#[test]
fn deep_expressions_are_refused(rt: HostRuntime) {
    let alloc = rt.alloc();
    holds(&rt, "126", is_read(&rt, alloc, 126));
    holds(&rt, "127", !is_read(&rt, alloc, 127));
    holds(&rt, "100000", !is_read(&rt, alloc, 100_000));
}

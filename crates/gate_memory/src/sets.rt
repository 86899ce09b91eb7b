//! Calls on lookups and on sets of them.
use field::F7;
use gate_memory_builders::airs::EachRecord;
use gate_memory_builders::inputs::{
    LOOKUPS, ON_TWO_BUSES, UNEVEN, UNEVEN_LOCAL, layout, lookups_of,
};
use gate_memory_builders::show::{Out, input, show};
use lookup::{
    LogUpGadget, Lookup, LookupError, LookupProtocol, Lookups, assert_uniform_tuple_width,
    check_bus_widths, check_multiplicity_height_bound, has_equal_lengths,
};
use std::alloc::Global;

/// A lookup that does not say that it is in column 0.
const MISPLACED: &str =
    r#"[{"kind":"Local","elements":[],"multiplicities":[],"count_weight":1,"column":1,"flags":null}]"#;

/// The set of a text.
pub fn set(alloc: Global, out: &mut Out, text: &'static str) -> Option<Lookups<F7>> {
    let lookups = lookups_of(alloc, out, text)?;
    input(out, Lookups::from_records(alloc, lookups))
}

/// The call that makes the set of a text.
fn make_set(alloc: Global, out: &mut Out, text: &'static str) {
    if let Some(lookups) = lookups_of(alloc, out, text) {
        show(out, "from_records", Lookups::from_records(alloc, lookups));
    }
}

/// The calls that make a set of a text and of an AIR.
fn make_sets(alloc: Global, out: &mut Out) {
    make_set(alloc, out, LOOKUPS);
    make_set(alloc, out, MISPLACED);
    let answer = Lookups::<F7>::from_air::<F7, EachRecord>(alloc, &EachRecord);
    show(out, "Lookups::from_air", answer);
}

/// The degrees of a lookup.
pub fn show_degrees(out: &mut Out, lookup: &Lookup<F7>) {
    if has_equal_lengths(lookup) {
        let gadget = LogUpGadget::new();
        show(out, "constraint_degree", gadget.constraint_degree(lookup));
        let degree = gadget.constraint_degree_with_transition(lookup, 2);
        show(out, "constraint_degree_with_transition", degree);
    }
}

/// Calls on a lookup.
fn on_lookup(alloc: Global, out: &mut Out, lookup: &Lookup<F7>) {
    show(out, "copy of a lookup", lookup.copy(alloc));
    show(out, "copy of a kind", lookup.kind.copy(alloc));
    let answer = assert_uniform_tuple_width(alloc, lookup.elements.as_slice(), "context");
    show(out, "assert_uniform_tuple_width", answer);
    show_degrees(out, lookup);
}

/// Packs lookups by the gadget's degree, and shows how many there are then.
pub fn pack_lookups(alloc: Global, out: &mut Out, lookups: Vec<Lookup<F7>>) {
    if let Some(set) = input(out, Lookups::from_records(alloc, lookups)) {
        let answer = set.pack_same_bus(alloc, &LogUpGadget::new(), 16);
        show(out, "pack_same_bus", answer.map(|set| set.as_slice().len()));
    }
}

/// Packs a copy of a set: by the gadget's degree.
fn pack(alloc: Global, out: &mut Out, set: &Lookups<F7>) {
    if let Some(copy) = input(out, set.copy(alloc)) {
        let answer = copy.pack_same_bus(alloc, &LogUpGadget::new(), 16);
        show(out, "pack_same_bus", answer);
    }
}

/// Packs copies of a set by closures for the degree. One of them always refuses.
fn pack_by_closures(alloc: Global, out: &mut Out, set: &Lookups<F7>) {
    let call = "pack_same_bus_with_degree";
    if let Some(copy) = input(out, set.copy(alloc)) {
        let answer = copy.pack_same_bus_with_degree(alloc, 3, |lookup| Ok(lookup.elements.len()));
        show(out, call, answer);
    }
    if let Some(copy) = input(out, set.copy(alloc)) {
        let answer = copy.pack_same_bus_with_degree(alloc, 3, |_| {
            Err(LookupError::BadRecord { lookup: 9 })
        });
        show(out, call, answer);
    }
}

/// Calls on a set. Packing consumes it, so it takes a copy.
fn on_set(alloc: Global, out: &mut Out, set: &Lookups<F7>) {
    show(out, "copy of a set", set.copy(alloc));
    show(out, "total_count_weight", set.total_count_weight());
    show(out, "Lookups::fits", set.fits(&layout()));
    pack(alloc, out, set);
    pack_by_closures(alloc, out, set);
    for lookup in set.as_slice() {
        on_lookup(alloc, out, lookup);
    }
}

/// Calls on the sets of all AIRs, and on each.
fn on_sets(alloc: Global, out: &mut Out, sets: &[Lookups<F7>]) {
    show(out, "check_bus_widths", check_bus_widths(alloc, sets));
    if sets.len() == 2 {
        let bound = check_multiplicity_height_bound(sets, &[1, 2]);
        show(out, "check_multiplicity_height_bound", bound);
    }
    for set in sets {
        on_set(alloc, out, set);
    }
    show(out, "input", &sets);
}

/// The sets of these texts.
fn sets_of(alloc: Global, out: &mut Out, texts: &[&'static str]) -> Option<Vec<Lookups<F7>>> {
    let mut sets = Vec::new(alloc);
    for text in texts {
        let set = set(alloc, out, text)?;
        input(out, sets.push(set))?;
    }
    Some(sets)
}

/// The calls of sets, twice over those of these texts.
fn sets_in(alloc: Global, out: &mut Out, texts: &[&'static str]) {
    if let Some(sets) = sets_of(alloc, out, texts) {
        on_sets(alloc, out, sets.as_slice());
        on_sets(alloc, out, sets.as_slice());
    }
}

/// The calls that make sets of lookups, one of them of an AIR, and those on sets: on two with a bus of two
/// widths, on two whose buses each have one, and on one whose local tuples have two.
pub fn sets(alloc: Global, out: &mut Out) {
    make_sets(alloc, out);
    make_sets(alloc, out);
    sets_in(alloc, out, &[LOOKUPS, UNEVEN]);
    sets_in(alloc, out, &[ON_TWO_BUSES, UNEVEN_LOCAL]);
}

//! The debug check: which tuple is named first, with what net, and where.
ghost use Rattle.std.specs.Prelude.{◌≡◌, ◌↔◌, IsTrue};
ghost use Rattle.std.specs.Option.{ForSome, option_copied};
ghost use Rattle.air_expressions.specs.Layout.{layout_of_traces};
ghost use Rattle.lookup_model.specs.Records.{LookupsFit};
ghost use Rattle.matrix.specs.Matrix.{height};

use super::{alone, cell, list, local, one, single, text, trace};
use air::{AirLayout, BaseEntry, BaseLeaf, Expression, SymbolicExpression, SymbolicVariable};
use field::{F7, Field, PrimeCharacteristicRing};
use field_monty::BabyBear;
use lookup::debug_util::{Location, LookupDebugInstance, LookupFault, check_lookups};
use lookup::{Kind, Lookup, fits};
use matrix::RowMajorMatrix;
use std::alloc::Global;
use std::process::Abort;

pub(super) fn has_fitting_lookups<F: Field>(instance: &LookupDebugInstance<'_, F>) -> bool
    ensures { IsTrue result ↔ LookupsFit (layout_of_traces instance.now.main_trace.now
        (option_copied instance.now.preprocessed_trace) instance.now.public_values.now)
        instance.now.lookups.now }
{
    let layout = AirLayout::of_traces(
        instance.main_trace,
        instance.preprocessed_trace,
        instance.public_values,
    );
    fits(instance.lookups, &layout)
}

pub(super) fn has_one_height<F: Field>(instance: &LookupDebugInstance<'_, F>) -> bool
    ensures { IsTrue result ↔ ForSome (option_copied instance.now.preprocessed_trace)
        (λ m. height m ≡ height instance.now.main_trace.now) }
{
    match instance.preprocessed_trace {
        Some(trace) => trace.height() == instance.main_trace.height(),
        None => true,
    }
}

/// An AIR without preprocessed trace and public values.
pub(super) fn instance<'a, F: Field>(
    main: &'a RowMajorMatrix<F>,
    lookups: &'a [Lookup<F>],
) -> LookupDebugInstance<'a, F> {
    LookupDebugInstance {
        main_trace: main,
        preprocessed_trace: None,
        public_values: &[],
        lookups,
        permutation_challenges: &[],
    }
}

/// The answer of the check, for AIRs that have to fit.
fn checked<F: Field>(
    rt: &impl Abort,
    alloc: Global,
    instances: &[LookupDebugInstance<'_, F>],
) -> Result<(), LookupFault<F>> {
    assert!(rt;
        instances
            .iter()
            .all(|instance| has_fitting_lookups(instance))
    );
    assert!(rt; instances.iter().all(|instance| has_one_height(instance)));
    check_lookups(alloc, instances)
}

/// The text of the mismatch has to be this one, and `""` stands for none.
fn expect<F: Field>(
    rt: &impl Abort,
    alloc: Global,
    instances: &[LookupDebugInstance<'_, F>],
    text: &str,
) {
    let found = match checked(rt, alloc, instances) {
        Ok(()) => String::new(alloc),
        Err(fault) => fault.text(alloc).expect(rt, "memory"),
    };
    assert!(rt; found.as_str() == text, "{found} in place of {text}");
}

/// The text of the mismatch of one AIR has to be this one, and `""` stands for none.
fn expect_of_air<F: Field>(
    rt: &impl Abort,
    alloc: Global,
    lookups: &[Lookup<F>],
    numbers: &[u32],
    width: usize,
    text: &str,
) {
    let main: RowMajorMatrix<F> = trace(rt, alloc, numbers, width);
    expect(rt, alloc, &[instance(&main, lookups)], text);
}

/// A local lookup of cell 0, as often as cell `count` says.
pub(super) fn with_count<F: Field>(
    rt: &impl Abort,
    alloc: Global,
    count: usize,
    column: usize,
) -> Lookup<F> {
    let tuple = alone(rt, alloc, cell(0));
    local(
        alone(rt, alloc, tuple),
        alone(rt, alloc, cell(count)),
        column,
    )
}

/// The same on a bus.
pub(super) fn on_bus(
    rt: &impl Abort,
    alloc: Global,
    bus: &str,
    count: usize,
    column: usize,
) -> Lookup<F7> {
    let mut lookup = with_count(rt, alloc, count, column);
    lookup.kind = Kind::Global(text(rt, alloc, bus));
    lookup
}

/// Whether a fault is the mismatch of the tuple 10 on row 1, with the net multiplicity 1.
fn is_ten(fault: &LookupFault<BabyBear>) -> bool {
    match fault {
        LookupFault::Mismatch {
            label,
            tuple,
            net,
            locations,
        } => {
            let location = Location {
                instance: 0,
                lookup: 0,
                row: 1,
            };
            let is_tuple = tuple.len() == 1 && tuple[0].as_str() == "10";
            let is_there = locations.len() == 1 && locations[0] == location;
            label.as_str() == "instance 0 local lookup 0"
                && is_tuple
                && is_there
                && *net == BabyBear::ONE
        }
        _ => false,
    }
}

/// An exclusive lookup on the bus `b`: cell 1 under the flag of cell 0, and cell 3 under that of cell 2.
fn of_two_keys(rt: &impl Abort, alloc: Global) -> Lookup<F7> {
    let keys = [alone(rt, alloc, cell(1)), alone(rt, alloc, cell(3))];
    let mut lookup = local(list(rt, alloc, keys), list(rt, alloc, [one(), one()]), 0);
    lookup.kind = Kind::Global(text(rt, alloc, "b"));
    lookup.flags = Some(list(rt, alloc, [cell(0), cell(2)]));
    lookup
}

/// That of a key 1 that nothing provides.
const MISSING_ONE: &str =
    "Lookup mismatch (global lookup 'b'): tuple [1] has net multiplicity 1 at instance 0 lookup 0 row 1";

/// The rows query the key 5 by the first flag and the key 1 by the second, which another AIR provides, or 5
/// alone. The keys 2 and 3 have no flag.
#[test]
fn a_group_and_its_provider(rt: HostRuntime) {
    let alloc = rt.alloc();
    let queries: RowMajorMatrix<F7> = trace(&rt, alloc, &[1, 5, 0, 2, 0, 3, 1, 1], 4);
    let keys = [of_two_keys(&rt, alloc)];
    // the count is -1, which is 6
    let entries = [on_bus(&rt, alloc, "b", 1, 0)];
    let both: RowMajorMatrix<F7> = trace(&rt, alloc, &[5, 6, 1, 6], 2);
    let provided = instance(&both, entries.as_slice());
    let all = [instance(&queries, keys.as_slice()), provided];
    expect(&rt, alloc, all.as_slice(), "");
    let one: RowMajorMatrix<F7> = trace(&rt, alloc, &[5, 6, 1, 0], 2);
    let provided = instance(&one, entries.as_slice());
    let all = [instance(&queries, keys.as_slice()), provided];
    expect(&rt, alloc, all.as_slice(), MISSING_ONE);
}

/// The text 10 is before 9.
#[test]
fn the_fields_of_a_mismatch(rt: HostRuntime) {
    let alloc = rt.alloc();
    let main: RowMajorMatrix<BabyBear> = trace(&rt, alloc, &[9, 10], 1);
    let lookups = [single(&rt, alloc, 1, 0)];
    let instances = [instance(&main, lookups.as_slice())];
    match checked(&rt, alloc, instances.as_slice()) {
        Ok(()) => panic!(rt; "no mismatch"),
        Err(fault) => assert!(rt; is_ten(&fault)),
    }
}

/// A list of one lookup of two tuples, each of some cells, with these multiplicities.
fn two_tuples(
    rt: &impl Abort,
    alloc: Global,
    first: &[usize],
    second: &[usize],
    multiplicities: [SymbolicExpression<F7>; 2],
) -> Vec<Lookup<F7>> {
    let mut elements = Vec::new(alloc);
    for cells in [first, second] {
        let mut tuple = Vec::new(alloc);
        for index in cells {
            tuple.push(cell(*index)).expect(rt, "memory");
        }
        elements.push(tuple).expect(rt, "memory");
    }
    let multiplicities = list(rt, alloc, multiplicities);
    list(rt, alloc, [local(elements, multiplicities, 0)])
}

/// The lookup of the range machine reads cell 0 once, and provides cell 1 as often as cell 2 says.
#[test]
fn rows_of_the_range_machine(rt: HostRuntime) {
    let alloc = rt.alloc();
    let taken = cell(2).neg(alloc).expect(&rt, "memory");
    let range = two_tuples(&rt, alloc, &[0], &[1], [one(), taken]);
    let seven: [u32; 21] = [
        3, 4, 0, 3, 4, 0, 3, 4, 0, 3, 4, 0, 3, 4, 0, 3, 4, 0, 3, 4, 0,
    ];
    let cases: [(&[u32], &str); 5] = [
        (&[3, 4, 1, 4, 3, 1], ""),
        (
            &[3, 1, 0, 4, 1, 0],
            "Lookup mismatch (instance 0 local lookup 0): tuple [3] has net multiplicity 1 at instance 0 lookup 0 row 0",
        ),
        (
            &[3, 1, 0, 3, 1, 0],
            "Lookup mismatch (instance 0 local lookup 0): tuple [3] has net multiplicity 2 at instance 0 lookup 0 row 0; instance 0 lookup 0 row 1",
        ),
        (
            &[5, 2, 3, 5, 5, 1],
            "Lookup mismatch (instance 0 local lookup 0): tuple [2] has net multiplicity 4 at instance 0 lookup 0 row 0",
        ),
        (seven.as_slice(), ""),
    ];
    for (numbers, text) in cases {
        expect_of_air(&rt, alloc, range.as_slice(), numbers, 3, text);
    }
}

/// No flag is tested: a branch counts flag times count.
#[test]
fn branches_count_by_their_flags(rt: HostRuntime) {
    let alloc = rt.alloc();
    let mut branches = two_tuples(&rt, alloc, &[1], &[3], [one(), one()]);
    if let Some(lookup) = branches.get_mut(0) {
        lookup.flags = Some(list(&rt, alloc, [cell(0), cell(2)]));
    }
    let cases: [(&[u32], &str); 3] = [
        (&[0, 3, 0, 5], ""),
        (
            &[1, 3, 0, 5],
            "Lookup mismatch (instance 0 local lookup 0): tuple [3] has net multiplicity 1 at instance 0 lookup 0 row 0",
        ),
        (
            &[2, 5, 4, 5],
            "Lookup mismatch (instance 0 local lookup 0): tuple [5] has net multiplicity 6 at instance 0 lookup 0 row 0; instance 0 lookup 0 row 0",
        ),
    ];
    for (numbers, text) in cases {
        expect_of_air(&rt, alloc, branches.as_slice(), numbers, 4, text);
    }
}

/// Two AIRs, each of which sends cell 0 on the first bus as often as cell 1 says, and on the second as
/// often as cell 2 says.
fn expect_on_buses(
    rt: &impl Abort,
    alloc: Global,
    first: &[u32],
    second: &[u32],
    names: (&str, &str),
    text: &str,
) {
    let traces = (trace(rt, alloc, first, 3), trace(rt, alloc, second, 3));
    let lookups = [
        on_bus(rt, alloc, names.0, 1, 0),
        on_bus(rt, alloc, names.1, 2, 1),
    ];
    let instances = [
        instance(&traces.0, lookups.as_slice()),
        instance(&traces.1, lookups.as_slice()),
    ];
    expect(rt, alloc, instances.as_slice(), text);
}

#[test]
fn two_airs_on_buses(rt: HostRuntime) {
    let alloc = rt.alloc();
    let cases: [(&[u32], &[u32], (&str, &str), &str); 4] = [
        (&[3, 1, 2], &[3, 6, 5], ("a", "b"), ""),
        (
            &[3, 0, 0, 4, 0, 1],
            &[4, 0, 2],
            ("a", "b"),
            "Lookup mismatch (global lookup 'b'): tuple [4] has net multiplicity 3 at instance 0 lookup 1 row 1; instance 1 lookup 1 row 0",
        ),
        (
            &[3, 0, 0],
            &[4, 1, 1],
            ("z", "a"),
            "Lookup mismatch (global lookup 'z'): tuple [4] has net multiplicity 1 at instance 1 lookup 0 row 0",
        ),
        (
            &[3, 1, 2, 3, 1, 0],
            &[3, 0, 2],
            ("a", "a"),
            "Lookup mismatch (global lookup 'a'): tuple [3] has net multiplicity 6 at instance 0 lookup 0 row 0; instance 0 lookup 0 row 1; instance 0 lookup 1 row 0; instance 1 lookup 1 row 0",
        ),
    ];
    for (first, second, names, text) in cases {
        expect_on_buses(&rt, alloc, first, second, names, text);
    }
}

/// Local lookups come before buses, each by itself.
#[test]
fn local_lookups_come_first(rt: HostRuntime) {
    let alloc = rt.alloc();
    let main: RowMajorMatrix<F7> = trace(&rt, alloc, &[3, 1, 6], 3);
    let lookups = [
        on_bus(&rt, alloc, "a", 1, 0),
        with_count(&rt, alloc, 1, 1),
        with_count(&rt, alloc, 2, 2),
    ];
    let none: [Lookup<F7>; 0] = [];
    let instances = [
        instance(&main, none.as_slice()),
        instance(&main, lookups.as_slice()),
    ];
    let text =
        "Lookup mismatch (instance 1 local lookup 1): tuple [3] has net multiplicity 1 at instance 1 lookup 1 row 0";
    expect(&rt, alloc, instances.as_slice(), text);
    expect(&rt, alloc, &[instance(&main, none.as_slice())], "");
    let no_airs: [LookupDebugInstance<'_, F7>; 0] = [];
    expect(&rt, alloc, no_airs.as_slice(), "");
}

/// A tuple of several elements, of which one is of the next row: the last row is followed by the
/// first.
#[test]
fn tuples_of_two_rows(rt: HostRuntime) {
    let alloc = rt.alloc();
    let next = SymbolicExpression::Leaf(BaseLeaf::Variable(SymbolicVariable::new(
        BaseEntry::Main { offset: 1 },
        0,
    )));
    let tuple = list(&rt, alloc, [cell(0), next]);
    let lookups = [local(list(&rt, alloc, [tuple]), list(&rt, alloc, [one()]), 0)];
    let text =
        "Lookup mismatch (instance 0 local lookup 0): tuple [100, 20] has net multiplicity 1 at instance 0 lookup 0 row 2";
    expect_of_air::<BabyBear>(&rt, alloc, lookups.as_slice(), &[20, 3, 100], 1, text);
}

/// Texts are compared element by element, and a shorter tuple comes before a longer one; the empty one
/// before all others.
#[test]
fn tuples_in_the_order_of_their_texts(rt: HostRuntime) {
    let alloc = rt.alloc();
    let cases: [(&[usize], &[usize], &[u32], &str); 3] = [
        (
            &[0, 1],
            &[0, 1],
            &[1, 5, 1, 3],
            "Lookup mismatch (instance 0 local lookup 0): tuple [1, 3] has net multiplicity 2 at instance 0 lookup 0 row 1; instance 0 lookup 0 row 1",
        ),
        (
            &[0, 1],
            &[0],
            &[1, 2],
            "Lookup mismatch (instance 0 local lookup 0): tuple [1] has net multiplicity 1 at instance 0 lookup 0 row 0",
        ),
        (
            &[0],
            &[],
            &[0, 2],
            "Lookup mismatch (instance 0 local lookup 0): tuple [] has net multiplicity 1 at instance 0 lookup 0 row 0",
        ),
    ];
    for (first, second, numbers, text) in cases {
        let lookups = two_tuples(&rt, alloc, first, second, [one(), one()]);
        expect_of_air(&rt, alloc, lookups.as_slice(), numbers, 2, text);
    }
}

/// A variable of this entry.
fn variable(entry: BaseEntry, index: usize) -> SymbolicExpression<F7> {
    SymbolicExpression::Leaf(BaseLeaf::Variable(SymbolicVariable::new(entry, index)))
}

/// A preprocessed cell with a public value, as often as flag times count says. Challenges change
/// nothing.
#[test]
fn all_parts_of_an_air(rt: HostRuntime) {
    let alloc = rt.alloc();
    let tuple = list(
        &rt,
        alloc,
        [
            variable(BaseEntry::Preprocessed { offset: 0 }, 0),
            variable(BaseEntry::Public, 0),
        ],
    );
    let mut lookup = local(list(&rt, alloc, [tuple]), list(&rt, alloc, [cell(1)]), 0);
    lookup.flags = Some(list(&rt, alloc, [cell(0)]));
    let lookups = [lookup];
    let main: RowMajorMatrix<F7> = trace(&rt, alloc, &[0, 4, 3, 4, 2, 0], 2);
    let preprocessed: RowMajorMatrix<F7> = trace(&rt, alloc, &[1, 5, 2], 1);
    let public_values = [F7::new(6)];
    let challenges = [F7::new(5), F7::new(2)];
    let whole = LookupDebugInstance {
        main_trace: &main,
        preprocessed_trace: Some(&preprocessed),
        public_values: public_values.as_slice(),
        lookups: lookups.as_slice(),
        permutation_challenges: challenges.as_slice(),
    };
    let text =
        "Lookup mismatch (instance 0 local lookup 0): tuple [5, 6] has net multiplicity 5 at instance 0 lookup 0 row 1";
    expect(&rt, alloc, &[whole], text);
}

#[test]
fn out_of_memory_as_text(rt: HostRuntime) {
    let alloc = rt.alloc();
    let fault: LookupFault<F7> = LookupFault::Memory;
    let text = fault.text(alloc).expect(&rt, "memory");
    assert!(rt; text.as_str() == "out of memory");
}

/// More rows than are collected before equal tuples are merged. The first row and the last one send 7,
/// both once; between them each of 0 to 4 is sent as often with count 1 as with count -1. The rows of
/// the tuple that is named are both there.
#[test]
fn more_rows_than_are_kept(rt: HostRuntime) {
    let alloc = rt.alloc();
    let ends = [BabyBear::from_u32(7), BabyBear::ONE];
    let mut pairs = Vec::new(alloc);
    for number in 0..5u32 {
        let tuple = BabyBear::from_u32(number);
        pairs
            .extend_from_slice(&[tuple, BabyBear::ONE, tuple, -BabyBear::ONE])
            .expect(&rt, "memory");
    }
    let mut values = Vec::new(alloc);
    values.extend_from_slice(&ends).expect(&rt, "memory");
    for _ in 0..28_000u32 {
        values
            .extend_from_slice(pairs.as_slice())
            .expect(&rt, "memory");
    }
    values.extend_from_slice(&ends).expect(&rt, "memory");
    assert!(rt; values.len() % 2 == 0);
    let main = RowMajorMatrix::new(values, 2);
    let lookups = [with_count(&rt, alloc, 1, 0)];
    let text =
        "Lookup mismatch (instance 0 local lookup 0): tuple [7] has net multiplicity 2 at instance 0 lookup 0 row 0; instance 0 lookup 0 row 280001";
    expect(&rt, alloc, &[instance(&main, lookups.as_slice())], text);
}

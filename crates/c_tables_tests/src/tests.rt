//! What tables of numbers say.
ghost use Rattle.std.specs.Prelude.{◌≡◌};

use air_expressions::{BaseEntry, BaseLeaf, Expression, SymbolicExpression, SymbolicVariable};
use c_tables::{
    Node, NodeFault, NumberFault, ReadTraces, Record, Span, TableFault, Tables, TraceFault,
    TracePart, Traces, element_numbers, elements, extension, extensions, makes_rows,
    read_expressions, read_lookups, read_range, read_traces, write_lookups,
};
use field_monty::{BabyBear, BabyBear4, KoalaBear, KoalaBear4};
use lookup_model::{Kind, Lookup};
use matrix::RowMajorMatrix;
use std::alloc::Global;
use std::process::Abort;

fn node(kind: u32, number: u32, index: usize) -> Node {
    Node {
        kind,
        number,
        index,
    }
}

fn span(start: usize, end: usize) -> Span {
    Span { start, end }
}

/// A record, of a local lookup where it has no bus.
fn record(
    weight: u64,
    bus: Option<Span>,
    tuples: Span,
    multiplicities: Span,
    flags: Option<Span>,
) -> Record {
    Record {
        kind: if bus.is_some() { 1 } else { 0 },
        exclusive: if flags.is_some() { 1 } else { 0 },
        weight,
        bus: bus.unwrap_or(span(0, 0)),
        tuples,
        multiplicities,
        flags: flags.unwrap_or(span(0, 0)),
    }
}

fn holds(rt: &impl Abort, what: &str, fact: bool) {
    assert!(rt; fact, "{what}");
}

/// Whether an expression is a cell of the main trace in the next row.
fn is_next_cell(expression: &SymbolicExpression<BabyBear>, column: usize) -> bool {
    match expression {
        SymbolicExpression::Leaf(BaseLeaf::Variable(variable)) => {
            variable.entry == BaseEntry::Main { offset: 1 } && variable.index == column
        }
        _ => false,
    }
}

/// Whether an expression is this constant.
fn is_constant(expression: &SymbolicExpression<BabyBear>, n: u32) -> bool {
    match expression {
        SymbolicExpression::Leaf(BaseLeaf::Constant(c)) => c.as_canonical_u32() == n,
        _ => false,
    }
}

/// Whether expressions are cell 3 of the next row, and the constant 7.
fn is_cell_and_seven(expressions: &[SymbolicExpression<BabyBear>]) -> bool {
    match expressions {
        [cell, seven] => is_next_cell(cell, 3) && is_constant(seven, 7),
        _ => false,
    }
}

/// Whether expressions are the constant 7 alone.
fn is_seven(expressions: &[SymbolicExpression<BabyBear>]) -> bool {
    match expressions {
        [seven] => is_constant(seven, 7),
        _ => false,
    }
}

#[test]
fn reads_a_difference(rt: HostRuntime) {
    let nodes = [node(0, 1, 3), node(6, 7, 0), node(8, 0, 0), node(5, 0, 0)];
    let list = read_expressions(rt.alloc(), &nodes).expect(&rt, "nodes");
    let [difference, selector] = list.as_slice() else {
        holds(&rt, "two expressions", false);
        return;
    };
    let SymbolicExpression::Sub(left, right) = difference else {
        holds(&rt, "a difference", false);
        return;
    };
    holds(&rt, "the earlier operand", is_next_cell(left, 3));
    holds(&rt, "the later operand", is_constant(right, 7));
    let is_transition = matches!(selector, SymbolicExpression::Leaf(BaseLeaf::IsTransition));
    holds(&rt, "the selector", is_transition);
}

#[test]
fn refuses_the_first_bad_node(rt: HostRuntime) {
    let nodes = [node(0, 0, 0), node(7, 0, 0), node(11, 0, 0)];
    let read: Result<Vec<SymbolicExpression<BabyBear>>, NodeFault> = read_expressions(
        rt.alloc(),
        &nodes,
    );
    let is_second = matches!(&read, Err(NodeFault::Bad(1)));
    holds(&rt, "a sum of one", is_second);
}

/// Why a range of nodes is no list of expressions.
fn range_fault(alloc: Global, nodes: &[Node], span: Span) -> Option<TableFault> {
    let read: Result<Vec<SymbolicExpression<BabyBear>>, TableFault> = read_range(
        alloc, nodes, span,
    );
    read.err()
}

#[test]
fn reads_a_range(rt: HostRuntime) {
    let nodes = [node(0, 1, 3), node(6, 7, 0), node(7, 0, 0)];
    let read = read_range(rt.alloc(), &nodes, span(0, 2)).expect(&rt, "a range");
    holds(&rt, "both expressions", is_cell_and_seven(&read));
    let second = read_range(rt.alloc(), &nodes, span(1, 2)).expect(&rt, "the second one");
    holds(&rt, "the second one", is_seven(&second));
    let past = range_fault(rt.alloc(), &nodes, span(1, 4));
    holds(
        &rt,
        "past the nodes",
        matches!(past, Some(TableFault::Range)),
    );
    let bad = range_fault(rt.alloc(), &nodes, span(1, 3));
    holds(
        &rt,
        "a sum of one",
        matches!(bad, Some(TableFault::Node(2))),
    );
}

#[test]
fn reads_a_record(rt: HostRuntime) {
    let nodes = [node(0, 1, 3), node(6, 7, 0)];
    let tuples = [span(0, 2), span(1, 2)];
    let (bus, flags) = (Some(span(1, 4)), Some(span(1, 2)));
    let records = [record(5, bus, span(0, 2), span(0, 2), flags)];
    let tables = Tables {
        nodes: &nodes,
        tuples: &tuples,
        names: b"a bus",
        records: &records,
    };
    let lookups: Vec<Lookup<BabyBear>> = read_lookups(rt.alloc(), &tables).expect(&rt, "a lookup");
    let [lookup] = lookups.as_slice() else {
        holds(&rt, "one lookup", false);
        return;
    };
    let is_named = match &lookup.kind {
        Kind::Global(name) => name.as_str() == " bu",
        Kind::Local => false,
    };
    holds(&rt, "the bus", is_named);
    let [pair, single] = lookup.elements.as_slice() else {
        holds(&rt, "two tuples", false);
        return;
    };
    holds(&rt, "a tuple of two", is_cell_and_seven(pair));
    holds(&rt, "a tuple of one", is_seven(single));
    let counts = is_cell_and_seven(&lookup.multiplicities);
    holds(&rt, "the counts", counts);
    holds(&rt, "the weight", lookup.count_weight == 5);
    holds(&rt, "the column", lookup.column == 0);
    let flags = match &lookup.flags {
        Some(flags) => is_seven(flags),
        None => false,
    };
    holds(&rt, "the flags", flags);
}

/// Why a record on this bus, with these tuples, multiplicities and flags, is refused. Node 0 is an
/// expression, and node 1 is a sum of one, which is none.
fn fault_of(
    alloc: Global,
    names: &[u8],
    tuples: &[Span],
    multiplicities: Span,
    flags: Span,
) -> Option<TableFault> {
    let nodes = [node(0, 1, 3), node(7, 0, 0)];
    let bus = Some(span(0, names.len()));
    let all = span(0, tuples.len());
    let records = [record(5, bus, all, multiplicities, Some(flags))];
    let tables = Tables {
        nodes: &nodes,
        tuples,
        names,
        records: &records,
    };
    let read: Result<Vec<Lookup<BabyBear>>, (usize, TableFault)> = read_lookups(alloc, &tables);
    match read {
        Err((0, fault)) => Some(fault),
        _ => None,
    }
}

/// Of a bus, tuples, multiplicities and flags the first that is missing is told, and of tuples the first.
#[test]
fn the_first_fault_of_a_record(rt: HostRuntime) {
    let alloc = rt.alloc();
    let (good, bad, past) = (span(0, 1), span(0, 2), span(0, 3));
    let fault = fault_of(alloc, &[0xff], &[bad], past, past);
    holds(
        &rt,
        "a name",
        matches!(&fault, Some(TableFault::NameNotUtf8)),
    );
    let fault = fault_of(alloc, b"a", &[good, bad, past], past, past);
    let is_second = matches!(&fault, Some(TableFault::Node(1)));
    holds(&rt, "a bad node of a tuple", is_second);
    let fault = fault_of(alloc, b"a", &[past, bad], bad, bad);
    let is_first = matches!(&fault, Some(TableFault::Range));
    holds(&rt, "the range of a tuple", is_first);
    let fault = fault_of(alloc, b"a", &[good], past, bad);
    let is_range = matches!(&fault, Some(TableFault::Range));
    holds(&rt, "the range of multiplicities", is_range);
    let fault = fault_of(alloc, b"a", &[good], good, bad);
    let is_node = matches!(&fault, Some(TableFault::Node(1)));
    holds(&rt, "a bad node of flags", is_node);
}

/// Whether a trace has these numbers, row after row, and this width.
fn is_trace(trace: &RowMajorMatrix<BabyBear>, numbers: &[u32], width: usize) -> bool {
    are_numbers(trace.values(), numbers) && trace.width() == width
}

/// Whether elements are these numbers.
fn are_numbers(values: &[BabyBear], numbers: &[u32]) -> bool {
    for (value, number) in values.iter().zip(numbers) {
        if value.as_canonical_u32() != *number {
            return false;
        }
    }
    values.len() == numbers.len()
}

#[test]
fn reads_traces(rt: HostRuntime) {
    let numbers = Traces {
        main: &[1, 2, 3, 4, 5, 6],
        main_width: 3,
        preprocessed: &[7, 8],
        preprocessed_width: 1,
        public_values: &[9, 2_013_265_920],
    };
    let traces = read_traces(rt.alloc(), &numbers).expect(&rt, "traces");
    let main = is_trace(&traces.main, numbers.main, 3);
    holds(&rt, "the main trace", main);
    let values = are_numbers(&traces.public_values, numbers.public_values);
    holds(&rt, "the public values", values);
    let preprocessed = match &traces.preprocessed {
        Some(trace) => is_trace(trace, numbers.preprocessed, 1),
        None => false,
    };
    holds(&rt, "the preprocessed trace", preprocessed);
    holds(&rt, "five make no rows of three", !makes_rows(5, 3));
}

/// Why traces of width 2 of these numbers, and these public values, are refused.
fn trace_fault(
    alloc: Global,
    main: &[u32],
    preprocessed: &[u32],
    public_values: &[u32],
) -> Option<TraceFault> {
    let traces = Traces {
        main,
        main_width: 2,
        preprocessed,
        preprocessed_width: 2,
        public_values,
    };
    let read: Result<ReadTraces<BabyBear>, TraceFault> = read_traces(alloc, &traces);
    read.err()
}

/// Whether a fault is of this part: a number at this index, or else ragged rows.
fn is_fault(fault: &Option<TraceFault>, of: TracePart, at: Option<usize>) -> bool {
    match (fault, at) {
        (Some(TraceFault::Ragged { part }), None) => part_number(*part) == part_number(of),
        (Some(TraceFault::Large { part, index }), Some(i)) => {
            part_number(*part) == part_number(of) && *index == i
        }
        _ => false,
    }
}

fn part_number(part: TracePart) -> u8 {
    match part {
        TracePart::Main => 0,
        TracePart::Preprocessed => 1,
        TracePart::PublicValues => 2,
    }
}

/// Of the main trace, the preprocessed trace and the public values the first that has a fault is told, and
/// of a trace ragged rows before the first number that is the modulus or above it.
#[test]
fn the_first_fault_of_traces(rt: HostRuntime) {
    let alloc = rt.alloc();
    let most: u32 = 2_013_265_921;
    let (well, ragged, large) = ([1, 2], [1, most, 3], [1, most, 3, most]);
    let fault = trace_fault(alloc, &ragged, &ragged, &large);
    let is_so = is_fault(&fault, TracePart::Main, None);
    holds(&rt, "ragged main rows", is_so);
    let fault = trace_fault(alloc, &large, &ragged, &large);
    let is_so = is_fault(&fault, TracePart::Main, Some(1));
    holds(&rt, "a main number", is_so);
    let fault = trace_fault(alloc, &well, &ragged, &large);
    let is_so = is_fault(&fault, TracePart::Preprocessed, None);
    holds(&rt, "ragged preprocessed rows", is_so);
    let fault = trace_fault(alloc, &well, &large, &large);
    let is_so = is_fault(&fault, TracePart::Preprocessed, Some(1));
    holds(&rt, "a preprocessed number", is_so);
    let fault = trace_fault(alloc, &well, &well, &large);
    let is_so = is_fault(&fault, TracePart::PublicValues, Some(1));
    holds(&rt, "a public value", is_so);
}

#[test]
fn reads_elements(rt: HostRuntime) {
    let read: Result<Vec<BabyBear>, NumberFault> = elements(rt.alloc(), &[1, 2, 2_013_265_921]);
    let is_third = matches!(&read, Err(NumberFault::Large(2)));
    holds(&rt, "the modulus", is_third);
    let list: Vec<BabyBear4> = extensions(rt.alloc(), &[[1, 2, 3, 4]]).expect(&rt, "four numbers");
    let [x] = list.as_slice() else {
        holds(&rt, "one element", false);
        return;
    };
    holds(&rt, "its numbers", element_numbers(*x) == [1, 2, 3, 4]);
    let none: Option<BabyBear4> = extension([0, 0, 2_013_265_921, 0]);
    holds(&rt, "no element", none.is_none());
    let zero = BabyBear4::new([BabyBear::new(0); 4]);
    holds(&rt, "zero", extension([0, 0, 0, 0]) == Some(zero));
}

/// Over another field the modulus is another one, and so are the products.
#[test]
fn reads_over_koala_bear(rt: HostRuntime) {
    let alloc = rt.alloc();
    let numbers = [2_013_265_921, 2_130_706_432];
    let list: Vec<KoalaBear> = elements(alloc, &numbers).expect(&rt, "numbers");
    let [first, _] = list.as_slice() else {
        holds(&rt, "two elements", false);
        return;
    };
    let number = first.as_canonical_u32();
    holds(&rt, "its number", number == 2_013_265_921);
    let read: Result<Vec<KoalaBear>, NumberFault> = elements(alloc, &[0, 2_130_706_433]);
    let is_second = matches!(&read, Err(NumberFault::Large(1)));
    holds(&rt, "the modulus", is_second);
    let none: Option<KoalaBear4> = extension([0, 0, 0, 2_130_706_433]);
    holds(&rt, "no element", none.is_none());
    let powers = [[0, 1, 0, 0], [0, 0, 0, 1]];
    let list: Vec<KoalaBear4> = extensions(alloc, &powers).expect(&rt, "two powers");
    let [first, third] = list.as_slice() else {
        holds(&rt, "two elements", false);
        return;
    };
    // X * X^3 is 3, where over BabyBear it is 11.
    let product = element_numbers(*first * *third);
    holds(&rt, "the product", product == [3, 0, 0, 0]);
}

/// A constant of a node is below the modulus of the field that it is read over.
#[test]
fn reads_constants_of_two_fields(rt: HostRuntime) {
    let nodes = [node(6, 2_013_265_921, 0)];
    let read: Result<Vec<SymbolicExpression<BabyBear>>, NodeFault> = read_expressions(
        rt.alloc(),
        &nodes,
    );
    let is_first = matches!(&read, Err(NodeFault::Bad(0)));
    holds(&rt, "no number over BabyBear", is_first);
    let read: Result<Vec<SymbolicExpression<KoalaBear>>, NodeFault> = read_expressions(
        rt.alloc(),
        &nodes,
    );
    let list = read.expect(&rt, "a constant");
    let [SymbolicExpression::Leaf(BaseLeaf::Constant(c))] = list.as_slice() else {
        holds(&rt, "one constant", false);
        return;
    };
    let number = c.as_canonical_u32();
    holds(&rt, "its number", number == 2_013_265_921);
}

/// Fails unless the element at this index has these numbers.
fn expect_element(rt: &impl Abort, list: &[BabyBear4], index: usize, numbers: [u32; 4]) {
    let Some(x) = list.get(index) else {
        holds(rt, "an element", false);
        return;
    };
    holds(
        rt,
        "the numbers of an element",
        element_numbers(*x) == numbers,
    );
}

#[test]
fn reads_groups(rt: HostRuntime) {
    let groups = [[1, 2, 3, 4], [5, 6, 7, 8], [2_013_265_920, 0, 9, 10]];
    let list: Vec<BabyBear4> = extensions(rt.alloc(), &groups).expect(&rt, "three groups");
    let [x, y, z] = list.as_slice() else {
        holds(&rt, "three elements", false);
        return;
    };
    holds(&rt, "the first", element_numbers(*x) == [1, 2, 3, 4]);
    holds(&rt, "the second", element_numbers(*y) == [5, 6, 7, 8]);
    holds(
        &rt,
        "the third",
        element_numbers(*z) == [2_013_265_920, 0, 9, 10],
    );
    // 1 + 5 + 2013265920 is 5 more than the modulus.
    let sum = *x + *y + *z;
    holds(&rt, "their sum", element_numbers(sum) == [5, 8, 19, 22]);
    let large = [
        [1, 2, 3, 4],
        [5, 6, 7, 2_013_265_921],
        [2_013_265_921, 0, 0, 0],
    ];
    let read: Result<Vec<BabyBear4>, NumberFault> = extensions(rt.alloc(), &large);
    let is_second = matches!(&read, Err(NumberFault::Large(1)));
    holds(&rt, "the modulus in a group", is_second);
}

#[test]
fn reads_many_groups(rt: HostRuntime) {
    let mut groups = [[1, 2, 3, 4]; 130];
    groups[63] = [5, 6, 7, 8];
    groups[64] = [9, 10, 11, 12];
    groups[129] = [13, 14, 15, 2_013_265_920];
    let list = extensions(rt.alloc(), &groups).expect(&rt, "many groups");
    holds(&rt, "as many elements", list.len() == 130);
    expect_element(&rt, &list, 0, [1, 2, 3, 4]);
    expect_element(&rt, &list, 63, [5, 6, 7, 8]);
    expect_element(&rt, &list, 64, [9, 10, 11, 12]);
    expect_element(&rt, &list, 128, [1, 2, 3, 4]);
    expect_element(&rt, &list, 129, [13, 14, 15, 2_013_265_920]);
    groups[70] = [0, 2_013_265_921, 0, 0];
    let read: Result<Vec<BabyBear4>, NumberFault> = extensions(rt.alloc(), &groups);
    let is_there = matches!(&read, Err(NumberFault::Large(70)));
    holds(&rt, "the modulus in a later chunk", is_there);
}

/// Whether two nodes are the same.
fn is_node(a: &Node, b: &Node) -> bool {
    a.kind == b.kind && a.number == b.number && a.index == b.index
}

/// Whether two ranges are the same.
fn is_span(a: &Span, b: &Span) -> bool {
    a.start == b.start && a.end == b.end
}

/// Fails unless these are the nodes.
fn expect_nodes(rt: &impl Abort, written: &[Node], expected: &[Node]) {
    holds(rt, "the number of nodes", written.len() == expected.len());
    for (found, node) in written.iter().zip(expected) {
        holds(rt, "a node", is_node(found, node));
    }
}

#[test]
fn writes_what_it_reads(rt: HostRuntime) {
    let nodes = [
        node(0, 0, 3),
        node(1, 1, 2),
        node(6, 7, 0),
        node(8, 0, 0),
        node(2, 0, 5),
        node(3, 0, 0),
        node(4, 0, 0),
        node(7, 0, 0),
        node(5, 0, 0),
        node(10, 0, 0),
        node(6, 1, 0),
        node(0, 1, 0),
        node(9, 0, 0),
    ];
    let tuples = [span(0, 4), span(4, 5)];
    let (bus, flags) = (Some(span(2, 5)), Some(span(10, 13)));
    let records = [
        record(1, None, span(1, 2), span(5, 8), None),
        record(9, bus, span(0, 2), span(8, 10), flags),
    ];
    let tables = Tables {
        nodes: &nodes,
        tuples: &tuples,
        names: b"a bus",
        records: &records,
    };
    let lookups: Vec<Lookup<BabyBear>> = read_lookups(rt.alloc(), &tables).expect(&rt, "lookups");
    let made = write_lookups(rt.alloc(), &lookups).expect(&rt, "tables");
    // lookup after lookup: its tuples, its multiplicities, its flags
    let expected = [
        node(2, 0, 5),
        node(3, 0, 0),
        node(4, 0, 0),
        node(7, 0, 0),
        node(0, 0, 3),
        node(1, 1, 2),
        node(6, 7, 0),
        node(8, 0, 0),
        node(2, 0, 5),
        node(5, 0, 0),
        node(10, 0, 0),
        node(6, 1, 0),
        node(0, 1, 0),
        node(9, 0, 0),
    ];
    expect_nodes(&rt, &made.nodes, &expected);
    holds(&rt, "the names", made.names.as_slice() == b"bus".as_slice());
    let [first, second, third] = made.tuples.as_slice() else {
        holds(&rt, "three tuples", false);
        return;
    };
    holds(&rt, "a tuple", is_span(first, &span(0, 1)));
    holds(&rt, "a tuple of two", is_span(second, &span(4, 8)));
    holds(&rt, "another tuple", is_span(third, &span(8, 9)));
    let [local, global] = made.records.as_slice() else {
        holds(&rt, "two records", false);
        return;
    };
    holds(&rt, "no bus", local.kind == 0 && local.weight == 1);
    holds(&rt, "no flags", local.exclusive == 0);
    holds(&rt, "its tuples", is_span(&local.tuples, &span(0, 1)));
    let counts = is_span(&local.multiplicities, &span(1, 4));
    holds(&rt, "its counts", counts);
    holds(&rt, "a bus", global.kind == 1 && global.weight == 9);
    holds(&rt, "its name", is_span(&global.bus, &span(0, 3)));
    holds(&rt, "two tuples", is_span(&global.tuples, &span(1, 3)));
    let counts = is_span(&global.multiplicities, &span(9, 11));
    holds(&rt, "two counts", counts);
    holds(&rt, "flags", global.exclusive == 1);
    holds(&rt, "one flag", is_span(&global.flags, &span(11, 14)));
}

/// A local lookup of no tuples with this multiplicity.
fn counted(
    rt: &impl Abort,
    alloc: Global,
    multiplicity: SymbolicExpression<BabyBear>,
) -> Lookup<BabyBear>
    ensures { result.column ≡ 0 }
{
    Lookup {
        kind: Kind::Local,
        elements: Vec::new(alloc),
        multiplicities: Vec::from_array(alloc, [multiplicity]).expect(rt, "memory"),
        count_weight: 0,
        column: 0,
        flags: None,
    }
}

/// One, negated so often.
fn negated(rt: &impl Abort, alloc: Global, times: usize) -> SymbolicExpression<BabyBear> {
    let mut expression = SymbolicExpression::constant(BabyBear::new(1));
    for _ in 0..times {
        expression = expression.neg(alloc).expect(rt, "memory");
    }
    expression
}

#[test]
fn refuses_what_nodes_do_not_say(rt: HostRuntime) {
    let alloc = rt.alloc();
    let deep = [counted(&rt, alloc, negated(&rt, alloc, 1024))];
    let written = write_lookups(alloc, &deep);
    let is_deep = matches!(&written, Err((0, TableFault::TooDeep)));
    holds(&rt, "1025 deep", is_deep);
    let entry = BaseEntry::Main {
        offset: 4_294_967_296,
    };
    let cell = SymbolicExpression::from(SymbolicVariable::new(entry, 0));
    let far = [counted(&rt, alloc, cell)];
    let written = write_lookups(alloc, &far);
    let is_far = matches!(&written, Err((0, TableFault::RowTooLarge)));
    holds(&rt, "a row past 32 bits", is_far);
    let deepest = [counted(&rt, alloc, negated(&rt, alloc, 1023))];
    let made = write_lookups(alloc, &deepest).expect(&rt, "tables");
    holds(&rt, "1024 deep", made.nodes.len() == 1024);
}

//! Indexed lookups: what is refused and in what order, what an AIR declares, and declarations as
//! JSON.
ghost use Rattle.std.specs.Prelude.{◌≡◌, OnOk};

use super::declaration::{is_unreadable, read, table};
use super::{holds, list};
use air::{Air, AirError, AirLayout, BaseAir};
use field::{ExtensionField, F7, Field};
use lookup_record::{
    IndexedDeclarations, IndexedLookupBuilder, IndexedLookupError, IndexedLookups, IndexedRead,
    IndexedTable, TraceWindow,
};
use std::alloc::Global;
use std::fmt::Write;
use std::process::Abort;

/// Main width 4 and preprocessed width 2.
fn layout() -> AirLayout {
    AirLayout {
        main_width: 4,
        preprocessed_width: 2,
        ..AirLayout::default()
    }
}

/// The name of the table in the refusals.
fn name(rt: &impl Abort, alloc: Global) -> String {
    String::from_str(alloc, "t").expect(rt, "memory")
}

/// The refusal of a column of `t`.
fn out_of_range(rt: &impl Abort, alloc: Global, column: usize, width: usize) -> IndexedLookupError {
    IndexedLookupError::ColumnOutOfRange {
        table: name(rt, alloc),
        column,
        width,
    }
}

/// The refusal of a column of `t` that was named before.
fn repeated(rt: &impl Abort, alloc: Global, column: usize) -> IndexedLookupError {
    IndexedLookupError::RepeatedColumn {
        table: name(rt, alloc),
        column,
    }
}

/// The refusal of a reader of `t` without columns.
fn empty_payload(rt: &impl Abort, alloc: Global) -> IndexedLookupError {
    IndexedLookupError::EmptyPayload {
        table: name(rt, alloc),
    }
}

/// The refusal of the table `t` without columns.
fn empty_table(rt: &impl Abort, alloc: Global) -> IndexedLookupError {
    IndexedLookupError::EmptyTable {
        table: name(rt, alloc),
    }
}

/// What is wrong with the declarations of a case, all of the table `t`.
#[derive(Clone, Copy)]
enum Fault {
    Nothing,
    Memory,
    /// What the AIR refuses.
    OfAir(AirError),
    /// A column, and the width that it is not below.
    OutOfRange(usize, usize),
    Repeated(usize),
    EmptyPayload,
    EmptyTable,
}

/// The refusal of a fault, where there is one.
fn refusal_of(rt: &impl Abort, alloc: Global, fault: Fault) -> Option<IndexedLookupError> {
    match fault {
        Fault::Nothing => None,
        Fault::Memory => Some(IndexedLookupError::Memory),
        Fault::OfAir(error) => Some(IndexedLookupError::Air(error)),
        Fault::OutOfRange(column, width) => Some(out_of_range(rt, alloc, column, width)),
        Fault::Repeated(column) => Some(repeated(rt, alloc, column)),
        Fault::EmptyPayload => Some(empty_payload(rt, alloc)),
        Fault::EmptyTable => Some(empty_table(rt, alloc)),
    }
}

/// Ends the test where readers and tables are refused otherwise.
fn expect(
    rt: &impl Abort,
    alloc: Global,
    what: &str,
    reads: Vec<IndexedRead>,
    tables: Vec<IndexedTable>,
    fault: Fault,
) {
    let refused = IndexedLookups::new(alloc, reads, tables, &layout()).err();
    holds(rt, what, refused == refusal_of(rt, alloc, fault));
}

/// The position is checked first, then the payload, column by column: its range before its
/// repetition.
#[test]
fn readers_are_checked(rt: HostRuntime) {
    let alloc = rt.alloc();
    let cases: [(&str, usize, &[usize], Fault); 12] = [
        ("position 4", 4, &[1], Fault::OutOfRange(4, 4)),
        ("no payload at 9", 9, &[], Fault::OutOfRange(9, 4)),
        ("no payload", 0, &[], Fault::EmptyPayload),
        ("0 at 0", 0, &[0], Fault::Nothing),
        ("3, 0 at 3", 3, &[3, 0], Fault::Nothing),
        ("1, 2 at 0", 0, &[1, 2], Fault::Nothing),
        ("1, 1", 0, &[1, 1], Fault::Repeated(1)),
        ("1, 1, 9", 0, &[1, 1, 9], Fault::Repeated(1)),
        ("9, 1, 1", 0, &[9, 1, 1], Fault::OutOfRange(9, 4)),
        ("2, 1, 3, 2", 0, &[2, 1, 3, 2], Fault::Repeated(2)),
        ("2, 4", 0, &[2, 4], Fault::OutOfRange(4, 4)),
        ("9 at 9", 9, &[9], Fault::OutOfRange(9, 4)),
    ];
    for (what, position, payload, fault) in cases {
        let reads = list(&rt, alloc, [read(&rt, alloc, "t", position, payload)]);
        expect(&rt, alloc, what, reads, Vec::new(alloc), fault);
    }
}

#[test]
fn tables_are_checked_by_their_window(rt: HostRuntime) {
    let alloc = rt.alloc();
    let (main, fixed) = (TraceWindow::Main, TraceWindow::Preprocessed);
    let cases: [(&str, TraceWindow, &[usize], Fault); 7] = [
        ("3", main, &[3], Fault::Nothing),
        ("4", main, &[1, 4], Fault::OutOfRange(4, 4)),
        ("3 of the fixed ones", fixed, &[3], Fault::OutOfRange(3, 2)),
        ("both fixed ones", fixed, &[0, 1], Fault::Nothing),
        ("no columns", main, &[], Fault::EmptyTable),
        ("no fixed columns", fixed, &[], Fault::EmptyTable),
        ("1, 0, 1", fixed, &[1, 0, 1], Fault::Repeated(1)),
    ];
    for (what, window, columns, fault) in cases {
        let tables = list(&rt, alloc, [table(&rt, alloc, "t", window, columns)]);
        expect(&rt, alloc, what, Vec::new(alloc), tables, fault);
    }
}

#[test]
fn readers_come_before_tables(rt: HostRuntime) {
    let alloc = rt.alloc();
    let main = TraceWindow::Main;
    let reads = list(&rt, alloc, [read(&rt, alloc, "t", 0, &[])]);
    let tables = list(&rt, alloc, [table(&rt, alloc, "t", main, &[])]);
    expect(
        &rt,
        alloc,
        "a reader and a table",
        reads,
        tables,
        Fault::EmptyPayload,
    );
    let good = read(&rt, alloc, "u", 0, &[1]);
    let reads = list(&rt, alloc, [good, read(&rt, alloc, "t", 4, &[1])]);
    let fault = Fault::OutOfRange(4, 4);
    expect(
        &rt,
        alloc,
        "the second reader",
        reads,
        Vec::new(alloc),
        fault,
    );
    let second = table(&rt, alloc, "u", main, &[]);
    let tables = list(&rt, alloc, [table(&rt, alloc, "t", main, &[]), second]);
    expect(
        &rt,
        alloc,
        "the first of two tables",
        Vec::new(alloc),
        tables,
        Fault::EmptyTable,
    );
}

/// A reader at column 0 of columns 1 and 2, and a table of the columns 1 and 3.
fn accepted(rt: &impl Abort, alloc: Global) -> IndexedLookups {
    let reads = list(rt, alloc, [read(rt, alloc, "t", 0, &[1, 2])]);
    let tables = list(
        rt,
        alloc,
        [table(rt, alloc, "t", TraceWindow::Main, &[1, 3])],
    );
    IndexedLookups::new(alloc, reads, tables, &layout()).expect(rt, "no fault")
}

/// Ends the test where a set holds anything but a reader of `t` at 0 with this payload, and the table `t`
/// of these columns.
fn holds_one_of_each(
    rt: &impl Abort,
    alloc: Global,
    set: &IndexedLookups,
    payload: &[usize],
    window: TraceWindow,
    columns: &[usize],
) {
    let reads = [read(rt, alloc, "t", 0, payload)];
    holds(rt, "the reader", set.reads() == reads.as_slice());
    let tables = [table(rt, alloc, "t", window, columns)];
    holds(rt, "the table", set.tables() == tables.as_slice());
}

#[test]
fn accepted_declarations_are_held_as_given(rt: HostRuntime) {
    let alloc = rt.alloc();
    let set = accepted(&rt, alloc);
    holds_one_of_each(&rt, alloc, &set, &[1, 2], TraceWindow::Main, &[1, 3]);
    holds(&rt, "not empty", !set.is_empty());
    let copy = set.copy(alloc).expect(&rt, "memory");
    holds(&rt, "a copy", copy == set);
}

#[test]
fn no_declarations_are_empty(rt: HostRuntime) {
    let alloc = rt.alloc();
    let none = IndexedLookups::new(alloc, Vec::new(alloc), Vec::new(alloc), &layout());
    holds(&rt, "none", none.expect(&rt, "no fault").is_empty());
}

/// An AIR of two main columns and three preprocessed ones that declares a reader of `t` at this
/// position, and the table `t` of the third preprocessed column; or is refused.
#[derive(Drop)]
struct Declarer {
    position: usize,
    refused: Option<AirError>,
}

impl<F> BaseAir<F> for Declarer {
    ghost width = { λ _. 2 };

    ghost preprocessed_width = { λ _. 3 };

    ghost num_public_values = { λ _. 0 };

    fn width(&self) -> usize {
        2
    }

    fn preprocessed_width(&self) -> usize {
        3
    }

    fn num_public_values(&self) -> usize {
        0
    }
}

impl<AB: IndexedLookupBuilder> Air<AB> for Declarer {
    ghost evaluates = { λ _ before answer after. OnOk answer (AB.layout after ≡ AB.layout before) };

    fn eval(&self, alloc: Global, builder: &mut AB) -> Result<(), AirError> {
        let payload = Vec::from_slice(alloc, &[1])?;
        builder.push_indexed_read(alloc, "t", self.position, payload)?;
        if let Some(error) = self.refused {
            return Err(error);
        }
        let columns = Vec::from_slice(alloc, &[2])?;
        builder.push_indexed_table(alloc, "t", TraceWindow::Preprocessed, columns)
    }

    ghost keeps_layout = { λ air before after h. h };
}

/// The indexed lookups of such an AIR. Over any field, since the recorder's types cost much to prove over
/// a given one.
fn declared_over<F: Field, EF: ExtensionField<F>>(
    alloc: Global,
    air: &Declarer,
) -> Result<IndexedLookups, IndexedLookupError> {
    IndexedLookups::from_air::<F, EF, Declarer>(alloc, air)
}

/// The same over F7.
fn declared(
    alloc: Global,
    position: usize,
    refused: Option<AirError>,
) -> Result<IndexedLookups, IndexedLookupError> {
    declared_over::<F7, F7>(alloc, &Declarer { position, refused })
}

/// Ends the test where such an AIR is refused otherwise.
fn expect_of_air(
    rt: &impl Abort,
    alloc: Global,
    what: &str,
    position: usize,
    refused: Option<AirError>,
    fault: Fault,
) {
    let refused = declared(alloc, position, refused).err();
    holds(rt, what, refused == refusal_of(rt, alloc, fault));
}

#[test]
fn declarations_of_an_air_are_checked(rt: HostRuntime) {
    let alloc = rt.alloc();
    let set = declared(alloc, 0, None).expect(&rt, "no fault");
    holds_one_of_each(&rt, alloc, &set, &[1], TraceWindow::Preprocessed, &[2]);
    let overflow = AirError::DegreeOverflow;
    let cases: [(&str, usize, Option<AirError>, Fault); 3] = [
        ("position 2 of 2", 2, None, Fault::OutOfRange(2, 2)),
        ("an overflow", 2, Some(overflow), Fault::OfAir(overflow)),
        ("out of memory", 0, Some(AirError::Memory), Fault::Memory),
    ];
    for (what, position, refused, fault) in cases {
        expect_of_air(&rt, alloc, what, position, refused, fault);
    }
}

/// Fails, with what is written, unless a refusal is written as this text.
fn is_written(rt: &impl Abort, alloc: Global, error: IndexedLookupError, text: &str) {
    let mut written = String::new(alloc);
    holds(rt, text, write!(written, "{error}").is_ok());
    holds(rt, written.as_str(), written.as_str() == text);
}

#[test]
fn texts_of_refusals_of_declarations(rt: HostRuntime) {
    let alloc = rt.alloc();
    for (error, text) in list(
        &rt,
        alloc,
        [
            (
                out_of_range(&rt, alloc, 4, 3),
                "table t: column 4 is out of range for a window of width 3",
            ),
            (
                repeated(&rt, alloc, 4),
                "table t: column 4 is named twice by one declaration",
            ),
            (
                empty_payload(&rt, alloc),
                "table t: a reader must pull at least one column",
            ),
            (
                empty_table(&rt, alloc),
                "table t: a table entry must carry at least one column",
            ),
            (IndexedLookupError::Memory, "out of memory"),
            (
                IndexedLookupError::Air(AirError::Assertion { row: 2 }),
                "constraint failed at row 2",
            ),
        ],
    ) {
        is_written(&rt, alloc, error, text);
    }
}

#[test]
fn texts_of_refusals_that_are_kept(rt: HostRuntime) {
    let alloc = rt.alloc();
    for (error, text) in list(
        &rt,
        alloc,
        [
            (
                IndexedLookupError::ClaimCount {
                    expected: 1,
                    actual: 2,
                },
                "the statement describes 1 readers, and the claim list carries 2",
            ),
            (
                IndexedLookupError::ClaimWidth {
                    reader: 3,
                    expected: 1,
                    actual: 2,
                },
                "reader 3 pulls 1 columns, and claims 2 values",
            ),
            (
                IndexedLookupError::TableProvidedTwice {
                    table: name(&rt, alloc),
                    first: 1,
                    second: 2,
                },
                "table t: provided by air 1 and again by air 2",
            ),
            (
                IndexedLookupError::TableNotProvided {
                    table: name(&rt, alloc),
                    air: 1,
                },
                "table t: read by air 1 but provided by none",
            ),
            (
                IndexedLookupError::TableNotRead {
                    table: name(&rt, alloc),
                    air: 1,
                },
                "table t: provided by air 1 but read by none",
            ),
            (
                IndexedLookupError::TableWithoutEntries {
                    table: name(&rt, alloc),
                },
                "table t: a table needs at least two entries for the reduction to split on",
            ),
            (
                IndexedLookupError::TableTooLarge {
                    table: name(&rt, alloc),
                    num_variables: 32,
                    bits: 31,
                },
                "table t: 2^32 entries do not embed injectively in a field of 31 bits",
            ),
            (
                IndexedLookupError::WidthMismatch {
                    table: name(&rt, alloc),
                    air: 1,
                    pulled: 2,
                    carried: 3,
                },
                "table t: air 1 pulls 2 columns from a table carrying 3",
            ),
        ],
    ) {
        is_written(&rt, alloc, error, text);
    }
}

/// A reader and a table as JSON.
const DECLARED: &str =
    r#"{"reads":[{"table":"t","position":0,"payload":[1,2]}],"tables":[{"name":"t","window":"Main","columns":[1,3]}]}"#;

#[test]
fn declarations_are_read_and_checked(rt: HostRuntime) {
    let alloc = rt.alloc();
    let declared = serde_json::from_str::<IndexedDeclarations>(alloc, DECLARED);
    let declared = declared.expect(&rt, "declarations");
    let set = IndexedLookups::new(alloc, declared.reads, declared.tables, &layout());
    let set = set.expect(&rt, "no fault");
    holds(&rt, "the same lists", set == accepted(&rt, alloc));
    let text = serde_json::to_string(alloc, &set).expect(&rt, "a text");
    holds(&rt, "the text", text.as_str() == DECLARED);
}

#[test]
fn what_are_no_declarations_is_refused(rt: HostRuntime) {
    let alloc = rt.alloc();
    for text in [
        r#"{"reads":[]}"#,
        r#"{"tables":[]}"#,
        r#"{"reads":[],"tables":[],"reads":[]}"#,
        r#"{"reads":[{"table":"t","position":0}],"tables":[]}"#,
        r#"{"reads":[],"tables":{}}"#,
    ] {
        is_unreadable::<IndexedDeclarations>(&rt, alloc, text);
    }
    let turned = r#"{"tables":[],"reads":[]}"#;
    let read = serde_json::from_str::<IndexedDeclarations>(alloc, turned);
    holds(&rt, "members in the other order", read.is_ok());
}

//! Calls of recorders, of records, of counts and of indexed declarations.
use crate::airs::EachRecord;
use crate::inputs::{Recorder, cell, layout, read};
use crate::show::{Out, input, show};
use air::{AirBuilder, AirLayout, Expression, PermutationAirBuilder, SymbolicAirBuilder};
use field::Field;
use lookup::{Count, IndexedDeclarations, IndexedLookups};
use lookup_indexed::check_declarations;
use std::alloc::Global;
use std::fmt::Debug;

const FROM_AIR: [&str; 2] = [
    "InteractionSymbolicBuilder::from_air",
    "InteractionSymbolicBuilder::from_air, narrow",
];

/// Calls that make a builder or a recorder, also with too few columns for the AIR, and the check of a layout.
fn make_recorders<F: Field + Debug>(alloc: Global, out: &mut Out) {
    let answer = SymbolicAirBuilder::<F, F>::new(alloc, layout());
    show(out, "SymbolicAirBuilder::new", answer);
    let answer = Recorder::<F>::new(alloc, layout());
    show(out, "InteractionSymbolicBuilder::new", answer);
    for number in 0..2usize {
        let layout = AirLayout {
            main_width: 3 - number,
            ..layout()
        };
        let answer = layout.validate_against_air::<F, EachRecord>(&EachRecord);
        show(out, "validate_against_air", answer);
        let answer = Recorder::<F>::from_air(alloc, &EachRecord, layout);
        show(out, FROM_AIR[number], answer);
    }
}

/// Calls that read a recorder.
fn read_recorder<F: Field + Debug>(alloc: Global, out: &mut Out, builder: &Recorder<F>) {
    show(out, "base_constraints", builder.base_constraints(alloc));
    show(
        out,
        "extension_constraints",
        builder.extension_constraints(alloc),
    );
    show(out, "constraint_layout", builder.constraint_layout(alloc));
    show(out, "main", builder.main(alloc));
    show(out, "permutation", builder.permutation(alloc));
}

/// Copies of the records and of the declarations.
fn copy_records<F: Field + Debug>(alloc: Global, out: &mut Out, builder: &Recorder<F>) {
    if let [record, ..] = builder.global_interactions() {
        show(out, "copy of an interaction", record.copy(alloc));
    }
    if let [record, ..] = builder.local_interactions() {
        show(out, "copy of a local interaction", record.copy(alloc));
    }
    if let [record, ..] = builder.exclusive_interactions() {
        show(out, "copy of a group", record.copy(alloc));
        if let [branch, ..] = record.branches.as_slice() {
            show(out, "copy of a branch", branch.copy(alloc));
        }
    }
    if let [read, ..] = builder.indexed_reads() {
        show(out, "copy of a read", read.copy(alloc));
    }
    if let [table, ..] = builder.indexed_tables() {
        show(out, "copy of a table", table.copy(alloc));
    }
}

/// Calls of a count of weight 3, the negative of a cell.
fn on_count<F: Field + Debug>(alloc: Global, out: &mut Out) {
    if let Some(negative) = input(out, cell::<F>(2).neg(alloc)) {
        let count = Count::bounded(negative, 3);
        show(out, "copy of a count", count.copy(alloc));
        show(out, "negate", count.negate(alloc));
    }
}

/// The calls of counts, of recorders and of records, over the same recorder twice.
pub fn records<F: Field + Debug>(alloc: Global, out: &mut Out) {
    let made = Recorder::<F>::from_air(alloc, &EachRecord, layout());
    if let Some(builder) = input(out, made) {
        for _ in 0..2 {
            on_count::<F>(alloc, out);
            make_recorders::<F>(alloc, out);
            read_recorder(alloc, out, &builder);
            copy_records(alloc, out, &builder);
            show(out, "input", &builder);
        }
        drop(builder);
    }
}

/// The calls that check the declarations of a text, and make a set of them.
fn declare(alloc: Global, out: &mut Out, text: &'static str) {
    let declared: Option<IndexedDeclarations> = read(alloc, out, text);
    if let Some(declared) = declared {
        let (reads, tables) = (declared.reads.as_slice(), declared.tables.as_slice());
        let answer = check_declarations(alloc, reads, tables, &layout());
        show(out, "check_declarations", answer);
        let answer = IndexedLookups::new(alloc, declared.reads, declared.tables, &layout());
        show(out, "IndexedLookups::new", answer);
    }
}

/// Declarations that are accepted.
const DECLARED: &str =
    r#"{"reads":[{"table":"table","position":0,"payload":[1,2]}],"tables":[{"name":"table","window":"Main","columns":[1]}]}"#;

/// A reader at a column that is not there.
const FAR_POSITION: &str =
    r#"{"reads":[{"table":"table","position":9,"payload":[1]}],"tables":[{"name":"table","window":"Main","columns":[1]}]}"#;

/// A reader of no columns.
const NO_PAYLOAD: &str =
    r#"{"reads":[{"table":"table","position":0,"payload":[]}],"tables":[{"name":"table","window":"Main","columns":[1]}]}"#;

/// A reader of one column twice.
const REPEATED_PAYLOAD: &str =
    r#"{"reads":[{"table":"table","position":0,"payload":[1,1]}],"tables":[{"name":"table","window":"Main","columns":[1]}]}"#;

/// A table of no columns.
const NO_COLUMNS: &str =
    r#"{"reads":[{"table":"table","position":0,"payload":[1]}],"tables":[{"name":"table","window":"Main","columns":[]}]}"#;

/// A table of a column that is not there.
const FAR_COLUMN: &str =
    r#"{"reads":[{"table":"table","position":0,"payload":[1]}],"tables":[{"name":"table","window":"Main","columns":[9]}]}"#;

/// Declarations that are accepted, and some with each fault.
const DECLARATIONS: [&str; 6] = [
    DECLARED,
    FAR_POSITION,
    NO_PAYLOAD,
    REPEATED_PAYLOAD,
    NO_COLUMNS,
    FAR_COLUMN,
];

/// The calls that make a set of declarations, of lists and of an AIR, twice.
pub fn declarations<F: Field>(alloc: Global, out: &mut Out) {
    for _ in 0..2 {
        for text in &DECLARATIONS {
            declare(alloc, out, text);
        }
        let answer = IndexedLookups::from_air::<F, F, EachRecord>(alloc, &EachRecord);
        show(out, "IndexedLookups::from_air", answer);
    }
}

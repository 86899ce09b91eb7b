//! Declarations written as JSON, read and copied.
use super::holds;
use lookup_indexed::{IndexedRead, IndexedTable, TraceWindow};
use serde::{Deserialize, Serialize};
use std::alloc::Global;
use std::process::Abort;

/// A read of the table `t`.
const READ: &str = r#"{"table":"t","position":0,"payload":[2,1]}"#;

/// A table in the preprocessed trace.
const TABLE: &str = r#"{"name":"t","window":"Preprocessed","columns":[3,0]}"#;

/// A reader of this table.
pub(super) fn read(
    rt: &impl Abort,
    alloc: Global,
    table: &str,
    position: usize,
    payload: &[usize],
) -> IndexedRead {
    IndexedRead {
        table: String::from_str(alloc, table).expect(rt, "memory"),
        position,
        payload: Vec::from_slice(alloc, payload).expect(rt, "memory"),
    }
}

/// A table of this name.
pub(super) fn table(
    rt: &impl Abort,
    alloc: Global,
    name: &str,
    window: TraceWindow,
    columns: &[usize],
) -> IndexedTable {
    IndexedTable {
        name: String::from_str(alloc, name).expect(rt, "memory"),
        window,
        columns: Vec::from_slice(alloc, columns).expect(rt, "memory"),
    }
}

/// Ends the test where this is not written as this text, or not what the text holds.
fn goes_round<'a, T: PartialEq + Serialize + Deserialize<'a>>(
    rt: &impl Abort,
    alloc: Global,
    value: T,
    text: &'a str,
) {
    let written = serde_json::to_string(alloc, &value).expect(rt, text);
    holds(rt, text, written.as_str() == text);
    let again = serde_json::from_str::<T>(alloc, text).expect(rt, text);
    holds(rt, text, again == value);
}

#[test]
fn declarations_go_round(rt: HostRuntime) {
    let alloc = rt.alloc();
    goes_round(&rt, alloc, read(&rt, alloc, "t", 0, &[2, 1]), READ);
    let declared = table(&rt, alloc, "t", TraceWindow::Preprocessed, &[3, 0]);
    goes_round(&rt, alloc, declared, TABLE);
    goes_round(&rt, alloc, TraceWindow::Main, r#""Main""#);
}

/// Ends the test where a text holds one of these.
pub(super) fn is_unreadable<'a, T: Deserialize<'a>>(rt: &impl Abort, alloc: Global, text: &'a str) {
    let read = serde_json::from_str::<T>(alloc, text);
    holds(rt, text, read.is_err());
}

#[test]
fn what_is_no_declaration_is_refused(rt: HostRuntime) {
    let alloc = rt.alloc();
    for text in [
        r#"{"table":"t","position":0}"#,
        r#"{"table":"t","position":-1,"payload":[2,1]}"#,
        r#"{"table":"t","position":0,"payload":[2,[]]}"#,
    ] {
        is_unreadable::<IndexedRead>(&rt, alloc, text);
    }
    for text in [
        r#"{"name":"t","window":"Auxiliary","columns":[3,0]}"#,
        r#"{"name":"t","window":{"Main":null},"columns":[3,0]}"#,
    ] {
        is_unreadable::<IndexedTable>(&rt, alloc, text);
    }
}

#[test]
fn declarations_are_copied(rt: HostRuntime) {
    let alloc = rt.alloc();
    let declared = read(&rt, alloc, "t", 2, &[1, 0]);
    let copy = declared.copy(alloc).expect(&rt, "a copy");
    holds(&rt, "a read", copy == declared);
    let declared = table(&rt, alloc, "t", TraceWindow::default(), &[3]);
    let copy = declared.copy(alloc).expect(&rt, "a copy");
    holds(&rt, "a table", copy == declared);
    holds(&rt, "the window", declared.window == TraceWindow::Main);
}

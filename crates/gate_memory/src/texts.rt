//! Texts that are written and read, and texts from outside.
use crate::sets::set;
use field::F7;
use field_monty::{BabyBear, BabyBear4};
use gate_memory_builders::inputs::{LOOKUPS, layout};
use gate_memory_builders::show::{Out, input, show};
use lookup::{IndexedDeclarations, IndexedLookups, Lookup, LookupTerminal, Lookups};
use serde::{Deserialize, DeserializeOwned, Serialize};
use serde_json::Value;
use serde_json::error::Category;
use std::alloc::Global;
use std::io::{BufRead, BufReader};

/// A reader at a table of two columns.
const DECLARATIONS: &str =
    r#"{"reads":[{"table":"table","position":0,"payload":[1]}],"tables":[{"name":"table","window":"Main","columns":[1,2]}]}"#;

/// A terminal over the quartic extension.
const TERMINAL: &str = "[1,2013265920,0,4]";

/// The text of a value.
pub fn written<T: Serialize>(alloc: Global, value: &T) -> Result<String, Category> {
    match serde_json::to_string(alloc, value) {
        Ok(text) => Ok(text),
        Err(error) => Err(error.classify()),
    }
}

/// The value of a text.
fn read<'a, T: Deserialize<'a>>(alloc: Global, text: &'a [u8]) -> Result<T, Category> {
    match serde_json::from_slice(alloc, text) {
        Ok(value) => Ok(value),
        Err(error) => Err(error.classify()),
    }
}

/// The value of a text, which is read as a value of JSON before.
fn read_owned<T: DeserializeOwned>(alloc: Global, text: &str) -> Result<T, Category> {
    let value = match Value::from_str(alloc, text) {
        Ok(value) => value,
        Err(error) => return Err(error.classify()),
    };
    match serde_json::from_value(alloc, value) {
        Ok(value) => Ok(value),
        Err(error) => Err(error.classify()),
    }
}

/// Calls that read.
fn read_all(alloc: Global, out: &mut Out) {
    let lookups: Result<Vec<Lookup<F7>>, Category> = read(alloc, LOOKUPS.as_bytes());
    show(out, "lookups read", lookups);
    let lookups: Result<Vec<Lookup<F7>>, Category> = read_owned(alloc, LOOKUPS);
    show(out, "lookups read from a value", lookups);
    let declarations: Result<IndexedDeclarations, Category> = read(alloc, DECLARATIONS.as_bytes());
    show(out, "declarations read", declarations);
    let terminal: Result<LookupTerminal<BabyBear4>, Category> = read(alloc, TERMINAL.as_bytes());
    show(out, "a terminal read", terminal);
}

/// Calls that write.
fn write_all(alloc: Global, out: &mut Out, set: &Lookups<F7>, declared: &IndexedLookups) {
    show(out, "lookups written", written(alloc, set));
    show(out, "declarations written", written(alloc, declared));
    show(out, "copy of declarations", declared.copy(alloc));
    let terminal = LookupTerminal(BabyBear4::new([1, 2013265920, 0, 4].map(BabyBear::new)));
    show(out, "a terminal written", written(alloc, &terminal));
    show(out, "input", set);
}

/// The set of the declarations above.
fn declared(alloc: Global, out: &mut Out) -> Option<IndexedLookups> {
    let declared: IndexedDeclarations = input(out, read(alloc, DECLARATIONS.as_bytes()))?;
    let set = IndexedLookups::new(alloc, declared.reads, declared.tables, &layout());
    input(out, set)
}

/// The calls that read and write texts, twice.
pub fn json(alloc: Global, out: &mut Out) {
    if let Some(declared) = declared(alloc, out) {
        if let Some(set) = set(alloc, out, LOOKUPS) {
            read_all(alloc, out);
            write_all(alloc, out, &set, &declared);
            read_all(alloc, out);
            write_all(alloc, out, &set, &declared);
        }
    }
}

/// Writes a text, or why there is none.
fn answer(out: &mut Out, text: Result<String, Category>) {
    match text {
        Ok(text) => out.write(text),
        Err(category) => show(out, "refused", category),
    }
}

/// Reads a list of lookups, and writes the set of them.
fn answer_lookups(alloc: Global, out: &mut Out, text: &[u8]) {
    let records: Vec<Lookup<F7>> = match read(alloc, text) {
        Ok(records) => records,
        Err(category) => return show(out, "refused", category),
    };
    match Lookups::from_records(alloc, records) {
        Ok(set) => answer(out, written(alloc, &set)),
        Err(error) => show(out, "malformed", error),
    }
}

/// Reads indexed declarations, and writes the set of them.
fn answer_declarations(alloc: Global, out: &mut Out, text: &[u8]) {
    let declared: IndexedDeclarations = match read(alloc, text) {
        Ok(declared) => declared,
        Err(category) => return show(out, "refused", category),
    };
    match IndexedLookups::new(alloc, declared.reads, declared.tables, &layout()) {
        Ok(set) => answer(out, written(alloc, &set)),
        Err(error) => show(out, "malformed", error),
    }
}

/// Reads a text of this kind.
fn answer_line(alloc: Global, out: &mut Out, kind: &str, text: &[u8]) {
    match kind {
        "lookups" => answer_lookups(alloc, out, text),
        "declarations" => answer_declarations(alloc, out, text),
        _ => out.close(),
    }
}

/// Reads each line of the input as a text of this kind.
pub fn lines(alloc: Global, rt: &HostRuntime, out: &mut Out, kind: &str) {
    let Ok(reader) = BufReader::new(alloc, rt.stdin()) else {
        return out.close();
    };
    for line in reader.split(alloc, b'\n') {
        match line {
            Ok(text) => answer_line(alloc, out, kind, text.as_slice()),
            Err(_) => out.close(),
        }
    }
}

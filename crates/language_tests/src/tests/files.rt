//! The files of texts, and their tables.
use super::examples::{MEMORY, PROCESSOR};
use super::holds;
use language::{BatchText, Why, read_batch};
use language_meaning::{
    AirShape, AirTables, NamedFile, TableFault, TableRefusal, TableWhy, content_of, files_of,
    path_beside, read_shapes, read_tables,
};
use std::alloc::{AllocError, Global};

fn is(name: &[u8], wanted: &[u8]) -> bool {
    name == wanted
}

#[test]
fn names(rt: HostRuntime) {
    let alloc = rt.alloc();
    let Some(files) = names_in(alloc, MEMORY) else {
        return holds(&rt, "the memory is read", false);
    };
    let [accesses, boundary, gaps] = files.as_slice() else {
        return holds(&rt, "three files", false);
    };
    holds(&rt, "the first", is(accesses, b"accesses.csv"));
    holds(
        &rt,
        "the others",
        is(boundary, b"boundary.csv") && is(gaps, b"gaps.csv"),
    );
    let Some(files) = names_in(alloc, PROCESSOR) else {
        return holds(&rt, "the processor is read", false);
    };
    holds(
        &rt,
        "a fixed table",
        files.len() == 11 && is(&files[2], b"program.csv"),
    );
}

fn names_in(alloc: Global, text: &[u8]) -> Option<Vec<Vec<u8>>> {
    let batch = read_batch(alloc, text).ok()?;
    files_of(alloc, text, &batch).ok()
}

/// The files `t.csv`, `bad.csv` and `none.csv`, which cannot be read.
fn some_files(alloc: Global) -> Result<Vec<NamedFile>, AllocError> {
    let good = NamedFile {
        name: Vec::from_slice(alloc, b"t.csv")?,
        content: Some(Vec::from_slice(alloc, b"a,b\n1,-1\n2,3\n")?),
    };
    let bad = NamedFile {
        name: Vec::from_slice(alloc, b"bad.csv")?,
        content: Some(Vec::from_slice(alloc, b"a\nx\n")?),
    };
    let none = NamedFile {
        name: Vec::from_slice(alloc, b"none.csv")?,
        content: None,
    };
    Ok(Vec::from_array(alloc, [good, bad, none])?)
}

#[test]
fn contents(rt: HostRuntime) {
    let Ok(files) = some_files(rt.alloc()) else {
        return holds(&rt, "memory", false);
    };
    match content_of(&files, b"bad.csv") {
        Some(content) => holds(&rt, "the second file", is(content, b"a\nx\n")),
        None => holds(&rt, "the second file", false),
    }
    let none = content_of(&files, b"none.csv").is_none();
    holds(&rt, "one that cannot be read", none);
    let other = content_of(&files, b"other.csv").is_none();
    holds(&rt, "another one", other);
}

#[test]
fn paths(rt: HostRuntime) {
    let alloc = rt.alloc();
    let is_at = |file: &[u8], name: &[u8], wanted: &[u8]| match path_beside(alloc, file, name) {
        Ok(path) => is(&path, wanted),
        Err(_) => false,
    };
    holds(&rt, "here", is_at(b"a.lookups", b"t.csv", b"t.csv"));
    holds(
        &rt,
        "in a folder",
        is_at(b"x/y/a.lookups", b"t.csv", b"x/y/t.csv"),
    );
    holds(
        &rt,
        "in another folder",
        is_at(b"x/y/a.lookups", b"../z/t.csv", b"x/y/../z/t.csv"),
    );
    holds(
        &rt,
        "a path of its own",
        is_at(b"x/a.lookups", b"/z/t.csv", b"/z/t.csv"),
    );
    holds(
        &rt,
        "at the root",
        is_at(b"/a.lookups", b"t.csv", b"/t.csv"),
    );
    holds(&rt, "no name", is_at(b"x/a.lookups", b"", b"x/"));
}

/// The tables of a text over these files, with modulus 7, or why not. `None` where the text is not
/// read.
fn tables(alloc: Global, text: &[u8]) -> Option<Result<Vec<AirTables>, TableFault>> {
    let batch: BatchText = read_batch(alloc, text).ok()?;
    let files = some_files(alloc).ok()?;
    Some(read_tables(alloc, text, &batch, files.as_slice(), 7))
}

#[test]
fn tables_of_airs(rt: HostRuntime) {
    let alloc = rt.alloc();
    let text = br#"air t {
trace "t.csv"
}
bus b(x)
air u {
preprocessed "t.csv"
trace "t.csv"
}"#;
    let Some(Ok(tables)) = tables(alloc, text) else {
        return holds(&rt, "they are read", false);
    };
    let [first, second] = tables.as_slice() else {
        return holds(&rt, "two AIRs", false);
    };
    holds(
        &rt,
        "cells",
        first.main.cells.as_slice() == [1, 6, 2, 3].as_slice(),
    );
    holds(
        &rt,
        "one table",
        first.preprocessed.is_none() && second.preprocessed.is_some(),
    );
}

/// Whether the tables of a text are refused so.
fn refused(alloc: Global, text: &[u8], in_file: bool, at: usize, why: TableWhy) -> bool {
    match tables(alloc, text) {
        Some(
            Err(
                TableFault::Refused(
                    TableRefusal {
                        file,
                        at: place,
                        why: found,
                    },
                ),
            ),
        ) => { file.is_some() == in_file && place == at && found == why }
        _ => false,
    }
}

#[test]
fn refusals(rt: HostRuntime) {
    let alloc = rt.alloc();
    let text = b"air t {\n}";
    holds(
        &rt,
        "no trace",
        refused(alloc, text, false, 4, TableWhy::NoTrace),
    );
    let text = b"air t {\ntrace \"t.csv\"\ntrace \"t.csv\"\n}";
    holds(
        &rt,
        "two traces",
        refused(alloc, text, false, 22, TableWhy::RepeatedTrace),
    );
    let text = b"air t {\ntrace \"none.csv\"\n}";
    holds(
        &rt,
        "not readable",
        refused(alloc, text, false, 15, TableWhy::Unreadable),
    );
    let text = b"air t {\ntrace \"other.csv\"\n}";
    holds(
        &rt,
        "not there",
        refused(alloc, text, false, 15, TableWhy::Unreadable),
    );
    let text = b"air t {\ntrace \"bad.csv\"\n}";
    holds(
        &rt,
        "a fault",
        refused(alloc, text, true, 2, TableWhy::Text(Why::Number)),
    );
}

/// The shapes of a text over the same files, or why not. `None` where the text is not read.
fn shapes(alloc: Global, text: &[u8]) -> Option<Result<Vec<AirShape>, TableFault>> {
    let batch = read_batch(alloc, text).ok()?;
    let files = some_files(alloc).ok()?;
    Some(read_shapes(alloc, text, &batch, files.as_slice(), 7))
}

/// Whether a shape has so many columns, so many preprocessed ones, and so many rows.
fn has_sizes(shape: &AirShape, columns: usize, preprocessed: usize, rows: u64) -> bool {
    shape.columns.len() == columns && shape.preprocessed.len() == preprocessed && shape.rows == rows
}

#[test]
fn shapes_of_airs(rt: HostRuntime) {
    let alloc = rt.alloc();
    let text = br#"air t {
trace "t.csv"
height 9
}
air u {
height 9
preprocessed "t.csv"
columns (x, y, z)
}"#;
    let Some(Ok(shapes)) = shapes(alloc, text) else {
        return holds(&rt, "they are read", false);
    };
    let [first, second] = shapes.as_slice() else {
        return holds(&rt, "two AIRs", false);
    };
    holds(&rt, "those of a table", has_sizes(first, 2, 0, 2));
    holds(&rt, "those that are said", has_sizes(second, 3, 2, 9));
    match second.columns.last() {
        Some(name) => holds(&rt, "a name", is(name, b"z")),
        None => holds(&rt, "columns", false),
    }
}

/// Whether the shapes of a text are refused so, at this byte.
fn has_no_shape(alloc: Global, text: &[u8], at: usize, why: TableWhy) -> bool {
    match shapes(alloc, text) {
        Some(Err(TableFault::Refused(refusal))) => (refusal.at, refusal.why) == (at, why),
        _ => false,
    }
}

#[test]
fn faults_of_shapes(rt: HostRuntime) {
    let alloc = rt.alloc();
    let no = |text: &[u8], at, why| has_no_shape(alloc, text, at, why);
    let text = b"air t {\nheight 9\n}";
    holds(&rt, "no columns", no(text, 4, TableWhy::NoColumns));
    let text = b"air t {\ncolumns (x)\n}";
    holds(&rt, "no height", no(text, 4, TableWhy::NoHeight));
    let text = b"air t {\nheight 9\nheight 9\n}";
    holds(&rt, "two heights", no(text, 17, TableWhy::RepeatedHeight));
    let text = b"air t {\ncolumns (x)\ncolumns (y)\n}";
    holds(&rt, "two lists", no(text, 20, TableWhy::RepeatedColumns));
    let text = b"air t {\nheight 9\ncolumns (x, y, x)\n}";
    holds(&rt, "two names", no(text, 32, TableWhy::RepeatedColumn));
}

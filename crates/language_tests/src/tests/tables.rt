//! Traces from CSV.
use super::{holds, is_at};
use language::{Why, read_table, rows_are_read};
use std::alloc::Global;

/// Whether a text has these names and numbers, below 101.
fn has(alloc: Global, text: &[u8], names: &[&[u8]], cells: &[u64]) -> bool {
    let Ok(table) = read_table(alloc, text, 101) else {
        return false;
    };
    let mut same = table.names.len() == names.len();
    for (found, name) in table.names.iter().zip(names) {
        same = same && found.as_slice() == *name;
    }
    same && table.cells.as_slice() == cells
}

#[test]
fn numbers(rt: HostRuntime) {
    let alloc = rt.alloc();
    rows_are_read();
    let text = b"\xef\xbb\xbfa,limb[3]\r\n007,-1\r\n100,-0\r\n";
    holds(
        &rt,
        "each cell",
        has(alloc, text, &[b"a", b"limb[3]"], &[7, 100, 100, 0]),
    );
    holds(
        &rt,
        "no last line end",
        has(alloc, b"x\n1\n2", &[b"x"], &[1, 2]),
    );
    holds(&rt, "no rows", has(alloc, b"x y,z", &[b"x y", b"z"], &[]));
    holds(
        &rt,
        "a line end and no rows",
        has(alloc, b"x\n", &[b"x"], &[]),
    );
}

/// Whether a text has this fault at this place.
fn fails(alloc: Global, text: &[u8], line: usize, column: usize, why: Why) -> bool {
    match read_table(alloc, text, 101) {
        Ok(_) => false,
        Err(fault) => is_at(text, fault, line, column, why),
    }
}

#[test]
fn faults(rt: HostRuntime) {
    let alloc = rt.alloc();
    holds(&rt, "no text", fails(alloc, b"", 1, 1, Why::Header));
    holds(
        &rt,
        "an empty header",
        fails(alloc, b"\r\n1\n", 1, 1, Why::Header),
    );
    holds(
        &rt,
        "an empty name",
        fails(alloc, b"a,,b\n1,2,3\n", 1, 3, Why::EmptyName),
    );
    holds(
        &rt,
        "a repeated name",
        fails(alloc, b"a,b,a\n", 1, 5, Why::RepeatedName),
    );
    holds(
        &rt,
        "no number",
        fails(alloc, b"gap,uses\n0,1\n1,x\n", 3, 3, Why::Number),
    );
    holds(
        &rt,
        "half a number",
        fails(alloc, b"a\n1x", 2, 1, Why::Number),
    );
    holds(
        &rt,
        "a sign alone",
        fails(alloc, b"a\n-\n", 2, 1, Why::Number),
    );
    holds(
        &rt,
        "the modulus",
        fails(alloc, b"a\n101\n", 2, 1, Why::LargeNumber),
    );
    holds(
        &rt,
        "minus the modulus",
        fails(alloc, b"a,b\n1,-101\n", 2, 3, Why::LargeNumber),
    );
    holds(
        &rt,
        "2^64",
        fails(alloc, b"a\n18446744073709551616\n", 2, 1, Why::LargeNumber),
    );
    holds(
        &rt,
        "a cell too few",
        fails(alloc, b"a,b\n1,2\r\n3\r\n", 3, 2, Why::MissingCell),
    );
    holds(
        &rt,
        "a cell too many",
        fails(alloc, b"a\n1\n2,3\n", 3, 3, Why::ExtraCell),
    );
    holds(
        &rt,
        "an empty line",
        fails(alloc, b"a\n\n1\n", 2, 1, Why::Number),
    );
}

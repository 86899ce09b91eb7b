//! Lookups as they are understood, in the words of the language.
use crate::names::is_name;
use check_judge::airs_of;
use check_page::{
    Lines, Page, head, number_cell, numbers_cell, public_name, shown_cell, word_cell,
};
use language::{AirText, BatchText};
use language_meaning::{AirShape, NamedAir, NamedLookup, NamedPart, Value, bytes_of};
use std::alloc::AllocError;

/// What the columns and public values of an AIR are called.
#[derive(Clone, Copy)]
struct Called<'a> {
    text: &'a [u8],
    air: &'a AirText,
    shape: &'a AirShape,
}

/// How tightly what stands around an expression binds: where it binds more tightly than the
/// expression does, parentheses are written.
#[derive(Clone, Copy, PartialEq, Eq, PartialOrd)]
enum Binds {
    Loosely,
    AsProduct,
    AsSign,
}

/// Appends the lookups of each AIR, a line for each message, and its constraints.
pub fn push_lookups(
    page: &mut Page,
    text: &[u8],
    batch: &BatchText,
    shapes: &[AirShape],
    airs: &[NamedAir],
) -> Result<(), AllocError> {
    let said = airs_of(page.alloc(), batch)?;
    let mut lines = Lines::of(text);
    for (index, ((air, named), shape)) in said.iter().zip(airs).zip(shapes).enumerate() {
        if index > 0 {
            page.word("\n")?;
        }
        let air = *air;
        push_air(page, Called { text, air, shape }, named, &mut lines)?;
    }
    Ok(())
}

/// Appends the lookups of an AIR, and its constraints if it has any.
fn push_air(
    page: &mut Page,
    called: Called<'_>,
    named: &NamedAir,
    text_lines: &mut Lines<'_>,
) -> Result<(), AllocError> {
    let alloc = page.alloc();
    page.shown(bytes_of(called.text, called.air.name))?;
    page.word(" (rows: ")?;
    page.grouped(u128::from(called.shape.rows))?;
    page.word(", columns: ")?;
    page.grouped(called.shape.columns.len() as u128)?;
    page.word(", public values: ")?;
    page.grouped(named.public_values.len() as u128)?;
    page.word(")\n")?;
    let titles = ["lookup", "line", "bus", "tuple", "counts", "when", "weight"];
    let mut lines = Vec::new(alloc);
    lines.push(head(alloc, &titles)?)?;
    for (index, lookup) in named.lookups.iter().enumerate() {
        for part in &lookup.parts {
            let line = text_lines.line_of(part.message.at);
            lines.push(part_line(page, called, index, lookup, part, line)?)?;
        }
    }
    page.table(&lines, &[true, true, false, false, false, false, true])?;
    push_constraints(page, called, named, text_lines)
}

/// Appends a line for each constraint of an AIR, if it has any.
fn push_constraints(
    page: &mut Page,
    called: Called<'_>,
    named: &NamedAir,
    text_lines: &mut Lines<'_>,
) -> Result<(), AllocError> {
    if named.constraints.is_empty() {
        return Ok(());
    }
    let alloc = page.alloc();
    let mut lines = Vec::new(alloc);
    lines.push(head(alloc, &["constraint", "line", "zero"])?)?;
    for (index, constraint) in named.constraints.iter().enumerate() {
        let mut cells = Vec::new(alloc);
        cells.push(number_cell(alloc, index as u128)?)?;
        cells.push(numbers_cell(alloc, &[text_lines.line_of(constraint.at)])?)?;
        cells.push(value_cell(page, called, &constraint.value)?)?;
        lines.push(cells)?;
    }
    page.table(&lines, &[true, true, false])
}

/// The cells of a message: the number of its lookup, its line, its bus, its tuple, how often it
/// counts, its flag and its weight.
fn part_line(
    page: &Page,
    called: Called<'_>,
    index: usize,
    lookup: &NamedLookup,
    part: &NamedPart,
    line: usize,
) -> Result<Vec<Vec<u8>>, AllocError> {
    let alloc = page.alloc();
    let mut cells = Vec::new(alloc);
    cells.push(number_cell(alloc, index as u128)?)?;
    cells.push(numbers_cell(alloc, &[line])?)?;
    cells.push(match lookup.bus {
        Some(bus) => shown_cell(alloc, bytes_of(called.text, bus))?,
        None => word_cell(alloc, "local")?,
    })?;
    cells.push(tuple_cell(page, called, &part.message.tuple)?)?;
    cells.push(value_cell(page, called, &part.message.count)?)?;
    cells.push(match &part.flag {
        Some(flag) => value_cell(page, called, flag)?,
        None => word_cell(alloc, "-")?,
    })?;
    cells.push(number_cell(alloc, u128::from(part.message.weight))?)?;
    Ok(cells)
}

/// A cell with a tuple.
fn tuple_cell(page: &Page, called: Called<'_>, tuple: &[Value]) -> Result<Vec<u8>, AllocError> {
    let mut cell = Page::new(page.alloc());
    cell.word("(")?;
    for (index, value) in tuple.iter().enumerate() {
        if index > 0 {
            cell.word(", ")?;
        }
        push_value(&mut cell, called, value, Binds::Loosely)?;
    }
    cell.word(")")?;
    Ok(cell.bytes)
}

/// A cell with an expression.
fn value_cell(page: &Page, called: Called<'_>, value: &Value) -> Result<Vec<u8>, AllocError> {
    let mut cell = Page::new(page.alloc());
    push_value(&mut cell, called, value, Binds::Loosely)?;
    Ok(cell.bytes)
}

/// Appends an expression, with the parentheses that it needs to be read as it is.
fn push_value(
    page: &mut Page,
    called: Called<'_>,
    value: &Value,
    around: Binds,
) -> Result<(), AllocError> {
    match value {
        Value::Sum(left, right) => {
            page.word(parenthesis("(", around > Binds::Loosely))?;
            push_value(page, called, left, Binds::Loosely)?;
            page.word(" + ")?;
            push_value(page, called, right, Binds::AsProduct)?;
            page.word(parenthesis(")", around > Binds::Loosely))
        }
        Value::Difference(left, right) => {
            page.word(parenthesis("(", around > Binds::Loosely))?;
            push_value(page, called, left, Binds::Loosely)?;
            page.word(" - ")?;
            push_value(page, called, right, Binds::AsProduct)?;
            page.word(parenthesis(")", around > Binds::Loosely))
        }
        Value::Product(left, right) => {
            page.word(parenthesis("(", around > Binds::AsProduct))?;
            push_value(page, called, left, Binds::AsProduct)?;
            page.word(" * ")?;
            push_value(page, called, right, Binds::AsSign)?;
            page.word(parenthesis(")", around > Binds::AsProduct))
        }
        Value::Negative(inner) => {
            page.word("-")?;
            push_value(page, called, inner, Binds::AsSign)
        }
        leaf => push_leaf(page, called, leaf),
    }
}

/// Appends a number, a selector, a public value or a cell.
fn push_leaf(page: &mut Page, called: Called<'_>, leaf: &Value) -> Result<(), AllocError> {
    match leaf {
        Value::Number(number) => page.number(u128::from(*number)),
        Value::FirstRow => page.word("is_first_row"),
        Value::LastRow => page.word("is_last_row"),
        Value::Transition => page.word("is_transition"),
        Value::Public(index) => push_name(page, "", public_name(called.text, called.air, *index)),
        Value::Main { offset, column } => {
            push_cell(page, "", &called.shape.columns, *column, *offset)
        }
        Value::Preprocessed { offset, column } => {
            push_cell(page, "pre.", &called.shape.preprocessed, *column, *offset)
        }
        _ => Ok(()),
    }
}

fn parenthesis(sign: &'static str, is_closed: bool) -> &'static str {
    if is_closed { sign } else { "" }
}

/// Appends the name of a column, in the current row or the next one.
fn push_cell(
    page: &mut Page,
    prefix: &str,
    columns: &[Vec<u8>],
    column: usize,
    offset: usize,
) -> Result<(), AllocError> {
    let name = match columns.get(column) {
        Some(name) => name.as_slice(),
        None => &[],
    };
    page.word(if offset > 0 { "next(" } else { "" })?;
    push_name(page, prefix, name)?;
    page.word(if offset > 0 { ")" } else { "" })
}

/// Appends a name, in backquotes where it is not of letters and the like.
fn push_name(page: &mut Page, prefix: &str, name: &[u8]) -> Result<(), AllocError> {
    let quote = if is_plain(name) { "" } else { "`" };
    page.word(quote)?;
    page.word(prefix)?;
    page.shown(name)?;
    page.word(quote)
}

/// Whether a name stands by itself: a letter or `_`, and then letters, digits, `_`, `.` and brackets.
fn is_plain(name: &[u8]) -> bool {
    match name.first() {
        Some(first) => {
            (first.is_ascii_alphabetic() || *first == b'_')
                && name.iter().all(|byte| is_name(*byte))
        }
        None => false,
    }
}

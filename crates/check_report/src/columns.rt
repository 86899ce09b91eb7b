//! The packed columns, each with the lookups that share it.
use check_judge::AirReport;
use check_page::{Lines, Page, Told, is_lookup, push_lookup, shown_cell};
use language::AirText;
use language_meaning::bytes_of;
use std::alloc::{AllocError, Global};

/// Appends a line for each packed column, in the order in which packing leaves them. Where there is
/// none, appends nothing.
pub(crate) fn push_columns(
    page: &mut Page,
    told: Told<'_>,
    airs: &[AirReport],
) -> Result<(), AllocError> {
    let alloc = page.alloc();
    let mut text_lines = Lines::of(told.text);
    let mut lines = Vec::new(alloc);
    for (air, said) in airs.iter().zip(told.airs) {
        let name = bytes_of(told.text, said.name);
        let lookups = lookup_cells(alloc, said, &mut text_lines)?;
        for (members, degree) in air.packed_lookups.iter().zip(&air.packed) {
            let mut cells = Vec::new(alloc);
            cells.push(shown_cell(alloc, name)?)?;
            cells.push(degree_cell(alloc, *degree, told.max_degree)?)?;
            cells.push(members_cell(alloc, members, &lookups)?)?;
            lines.push(cells)?;
        }
    }
    if lines.is_empty() {
        return Ok(());
    }
    page.word("\nCOLUMNS (within degree ")?;
    page.number(told.max_degree as u128)?;
    page.word(")\n")?;
    page.table(&lines, &[false, false, false])
}

/// A cell for each lookup of an AIR, in their order.
fn lookup_cells(
    alloc: Global,
    air: &AirText,
    lines: &mut Lines<'_>,
) -> Result<Vec<Vec<u8>>, AllocError> {
    let mut cells = Vec::new(alloc);
    for item in &air.items {
        if is_lookup(&item.item) {
            let mut cell = Page::new(alloc);
            push_lookup(&mut cell, &item.item, lines.line_of(item.at))?;
            cells.push(cell.bytes)?;
        }
    }
    Ok(cells)
}

/// A cell with the degree of a column. Only a column of one lookup may be above the limit.
fn degree_cell(alloc: Global, degree: usize, max_degree: usize) -> Result<Vec<u8>, AllocError> {
    let mut cell = Page::new(alloc);
    cell.word("degree ")?;
    cell.number(degree as u128)?;
    if degree > max_degree {
        cell.word(" (above ")?;
        cell.number(max_degree as u128)?;
        cell.word(")")?;
    }
    Ok(cell.bytes)
}

/// A cell with the lookups of a column, by their numbers.
fn members_cell(
    alloc: Global,
    members: &[usize],
    lookups: &[Vec<u8>],
) -> Result<Vec<u8>, AllocError> {
    let mut cell = Page::new(alloc);
    for (index, member) in members.iter().enumerate() {
        if index > 0 {
            cell.word(", ")?;
        }
        if let Some(lookup) = lookups.get(*member) {
            cell.bytes.extend_from_slice(lookup)?;
        }
    }
    Ok(cell.bytes)
}

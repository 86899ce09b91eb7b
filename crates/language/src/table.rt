//! Traces from CSV: a line of names, and lines of numbers.
ghost use Rattle.std.specs.Prelude.{◌≡◌, ◌+◌, ◌-◌, ◌<◌, ◌^◌, ◌∷◌, drop, length, option_map};
ghost use Rattle.std.specs.List.{list_any};
ghost use Rattle.std.specs.Str.{bytes_eq};
ghost use Rattle.language.specs.Faults.{IsTextResultOrMemory};
ghost use Rattle.language.specs.Tables.{cell_at, cells_of_line, header_at, lines_of, names_of, residue_at, row_at, rows_at, table_at, table_of, without_return};
ghost use Rattle.language.specs.internal.Tables.{IsAfter, cell_length, cells_in, with_numbers};

use crate::fault::{Fault, TextFault, Why};
use crate::lexer::line_length;
use crate::number::{Decimal, read_decimal};
use crate::place::mark_length;
use std::alloc::Global;

/// A trace with the names of its columns.
#[derive(Debug, Drop)]
pub struct Table {
    /// The names, as bytes. No two are the same, and none is empty.
    pub names: Vec<Vec<u8>>,
    /// The numbers of each row in turn, one for each name.
    pub cells: Vec<u64>,
}

/// The table that a CSV text has. The first line has the names of the columns, and each later one
/// a number for each name: decimal digits below the modulus, or such a number behind a `-`, which
/// stands for its negative modulo the modulus. Row 0 is on line 2.
///
/// Lines end at LF or CRLF, and the last one may end with the text. A byte-order mark before all
/// else is passed over. Quotes and blanks mean nothing of their own.
///
/// Refuses the first fault from left to right: an empty first line, an empty name, a name that
/// stood before, a cell that is no such number, or a line with a cell too few or too many.
#[tactic(auto, unfolding(crate::specs::Tables::table_at))]
pub fn read_table(alloc: Global, text: &[u8], modulus: u64) -> Result<Table, TextFault>
    ensures { IsTextResultOrMemory table_of result (table_at modulus text.now) }
{
    let mark = mark_length(text);
    let text = &text[mark..];
    let len = line_length(text);
    let names = read_header(alloc, without_return(&text[..len]), mark)?;
    let cells = read_rows(
        alloc,
        after(text, len),
        mark + len + 1,
        names.len(),
        modulus,
    )?;
    Ok(Table { names, cells })
}

/// The names of the columns.
fn read_header(alloc: Global, line: &[u8], at: usize) -> Result<Vec<Vec<u8>>, TextFault>
    requires { at + length line.now < 2 ^ 64 - 1 }
    ensures { IsTextResultOrMemory (λ v. names_of v.items) result (header_at at line.now) }
{
    if line.is_empty() {
        return Err(TextFault::Fault(Fault {
            at,
            why: Why::Header,
        }));
    }
    let mut names = Vec::new(alloc);
    let mut rest = Some(line);
    let mut at = at;
    while let Some(left) = rest {
        let (name, others) = split_cell(left);
        if name.is_empty() {
            return Err(TextFault::Fault(Fault {
                at,
                why: Why::EmptyName,
            }));
        }
        if is_among(&names, name) {
            return Err(TextFault::Fault(Fault {
                at,
                why: Why::RepeatedName,
            }));
        }
        names.push(Vec::from_slice(alloc, name)?)?;
        at += name.len() + 1;
        rest = others;
    }
    Ok(names)
}

/// Whether a name is one of these.
fn is_among(names: &[Vec<u8>], name: &[u8]) -> bool
    ensures { result ≡ list_any (λ other. bytes_eq other.items name.now) names.now }
{
    names.iter().any(|other| other.as_slice() == name)
}

/// The numbers of lines of so many cells each, line after line.
fn read_rows(
    alloc: Global,
    text: &[u8],
    at: usize,
    width: usize,
    modulus: u64,
) -> Result<Vec<u64>, TextFault>
    requires { at + length text.now < 2 ^ 64 - 2 }
    ensures { IsTextResultOrMemory (λ v. v.items) result (rows_at modulus width at (lines_of text.now)) }
{
    let mut cells = Vec::new(alloc);
    let mut rest = text;
    let mut at = at;
    while !rest.is_empty() {
        let len = line_length(rest);
        push_row(&mut cells, without_return(&rest[..len]), at, width, modulus)?;
        at += len + 1;
        rest = after(rest, len);
    }
    Ok(cells)
}

/// Appends the numbers of a line, which is to have so many.
fn push_row(
    cells: &mut Vec<u64>,
    line: &[u8],
    at: usize,
    width: usize,
    modulus: u64,
) -> Result<(), TextFault>
    requires { at + length line.now < 2 ^ 64 - 1 }
    ensures { IsTextResultOrMemory (λ _. cells.new.items) result
        (with_numbers cells.old.items (row_at modulus at width (cells_of_line line.now))) }
{
    let mut rest = Some(line);
    let mut at = at;
    for _ in 0..width {
        let Some(left) = rest else {
            return Err(TextFault::Fault(Fault {
                at: at - 1,
                why: Why::MissingCell,
            }));
        };
        let (cell, others) = split_cell(left);
        cells.push(read_cell(cell, at, modulus)?)?;
        at += cell.len() + 1;
        rest = others;
    }
    match rest {
        None => Ok(()),
        Some(_) => Err(TextFault::Fault(Fault {
            at,
            why: Why::ExtraCell,
        })),
    }
}

/// The number of a cell.
#[tactic(auto, unfolding(crate::specs::Tables::cell_at))]
fn read_cell(cell: &[u8], at: usize, modulus: u64) -> Result<u64, TextFault>
    ensures { IsTextResultOrMemory (λ n. n) result (cell_at modulus at cell.now) }
{
    match cell {
        [b'-', digits @ ..] => residue(read_decimal(digits), true, at, modulus),
        _ => residue(read_decimal(cell), false, at, modulus),
    }
}

/// A number below the modulus, or its negative.
fn residue(number: Decimal, negative: bool, at: usize, modulus: u64) -> Result<u64, TextFault>
    ensures { IsTextResultOrMemory (λ n. n) result (residue_at modulus at negative number) }
{
    match number {
        Decimal::Value(value) => {
            if value >= modulus {
                Err(TextFault::Fault(Fault {
                    at,
                    why: Why::LargeNumber,
                }))
            } else if negative {
                Ok((modulus - value) % modulus)
            } else {
                Ok(value)
            }
        }
        Decimal::Large => Err(TextFault::Fault(Fault {
            at,
            why: Why::LargeNumber,
        })),
        Decimal::Other => Err(TextFault::Fault(Fault {
            at,
            why: Why::Number,
        })),
    }
}

/// The first cell of a line, and the rest behind a comma.
fn split_cell(line: &[u8]) -> (&[u8], Option<&[u8]>)
    ensures cells { cells_of_line line.now
        ≡ result.0.now ∷ cells_in (option_map (λ x. x.now) result.1) }
    ensures within { IsAfter (length line.now) (length result.0.now)
        (option_map (λ x. x.now) result.1) }
{
    let len = cell_length(line);
    if len < line.len() {
        (&line[..len], Some(&line[len + 1..]))
    } else {
        (line, None)
    }
}

/// How many bytes stand before the first comma.
fn cell_length(line: &[u8]) -> usize
    ensures { result ≡ cell_length line.now }
{
    line.iter().take_while(|b| **b != b',').count()
}

/// A line without the CR at its end.
fn without_return(line: &[u8]) -> &[u8]
    ensures { result.now ≡ without_return line.now }
{
    let len = line.len();
    if len > 0 && line[len - 1] == b'\r' {
        &line[..len - 1]
    } else {
        line
    }
}

/// What stands after so many bytes and one more.
fn after(bytes: &[u8], len: usize) -> &[u8]
    ensures { result.now ≡ drop (len + 1) bytes.now }
{
    if len < bytes.len() {
        &bytes[len + 1..]
    } else {
        &bytes[..0]
    }
}

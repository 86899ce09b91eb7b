//! A witness as text.
ghost use Rattle.std.specs.Prelude.{◌≡◌, ◌++◌, OnOk, codes, length, string_bytes};
ghost use Rattle.std.specs.List.{flat_map};
ghost use Rattle.lookup_model.specs.Batches.Witnesses.{results_of};
ghost use Rattle.language_witness.specs.Lines.{air_lines, row_line, witness_lines};

use field::Field;
use lookup_model::{LookupTerminal, Witness};
use matrix::RowMajorMatrix;
use std::alloc::{AllocError, Global};

/// Appends the lines of all AIRs.
pub fn push_witness<EF: Field>(
    alloc: Global,
    text: &mut String,
    witness: &Witness<EF>,
) -> Result<(), AllocError>
    requires { length witness.now.aux.items ≡ length witness.now.terminals.items }
    ensures { OnOk result (string_bytes text.new ≡ string_bytes text.old
        ++ witness_lines EF.text (results_of witness.now)) }
{
    for air in 0..witness.aux.len() {
        push_air(alloc, text, air, &witness.aux[air], witness.terminals[air])?;
    }
    Ok(())
}

/// Appends the lines of one AIR: its number, the rows of its auxiliary trace, and its terminal.
fn push_air<EF: Field>(
    alloc: Global,
    text: &mut String,
    air: usize,
    trace: &RowMajorMatrix<EF>,
    terminal: Option<LookupTerminal<EF>>,
) -> Result<(), AllocError>
    ensures { OnOk result (string_bytes text.new ≡ string_bytes text.old
        ++ air_lines EF.text air trace.now terminal) }
{
    text.push_str(format!(in alloc; "air {air}\n")?.as_str())?;
    for row in 0..trace.height() {
        push_row(alloc, text, trace.row_slice(row))?;
    }
    if let Some(LookupTerminal(value)) = terminal {
        text.push_str("terminal ")?;
        text.push_str(value.text(alloc)?.as_str())?;
        text.push_str("\n")?;
    }
    Ok(())
}

/// Appends the cells of a row, separated by one space.
fn push_row<EF: Field>(alloc: Global, text: &mut String, cells: &[EF]) -> Result<(), AllocError>
    ensures { OnOk result (string_bytes text.new ≡ string_bytes text.old
        ++ row_line EF.text cells.now) }
{
    if let Some((first, rest)) = cells.split_first() {
        text.push_str(first.text(alloc)?.as_str())?;
        push_rest(alloc, text, rest)?;
    }
    text.push_str("\n")
}

/// Appends the remaining cells of a row, each after one space.
fn push_rest<EF: Field>(alloc: Global, text: &mut String, cells: &[EF]) -> Result<(), AllocError>
    ensures { OnOk result (string_bytes text.new ≡ string_bytes text.old
        ++ flat_map (λ cell. codes " " ++ EF.text cell) cells.now) }
{
    for cell in cells {
        text.push_str(" ")?;
        text.push_str(cell.text(alloc)?.as_str())?;
    }
    Ok(())
}

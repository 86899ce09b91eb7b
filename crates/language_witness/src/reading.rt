//! Text as a witness.
ghost use Rattle.std.specs.Prelude.{◌≡◌, IfOk, OnOk};
ghost use Rattle.language_witness.specs.Lines.{IsPlainTrace, IsPlainlyShaped, IsTextOf};
ghost use Rattle.language_witness.specs.declared.reading.WitnessFault.TheVariants.{Memory};

use crate::writing::push_witness;
use field::Field;
use field_words::Challenge;
use lookup_model::{LookupTerminal, Witness};
use matrix::RowMajorMatrix;
use std::alloc::{AllocError, AllocFailed, Global};

/// Why a text is no witness.
#[derive(Debug, Clone, Copy, PartialEq, Eq)]
pub enum WitnessFault {
    /// Out of memory.
    Memory,
    /// This line, from 1 on, is not as `push_witness` writes it.
    Line(usize),
}

impl From<AllocError> for WitnessFault {
    ghost from_gives = { λ _ e. e ≡ Memory };

    fn from(_error: AllocError) -> WitnessFault {
        WitnessFault::Memory
    }
}

impl<T: Drop> From<AllocFailed<T>> for WitnessFault {
    ghost from_gives = { λ _ e. e ≡ Memory };

    fn from(_error: AllocFailed<T>) -> WitnessFault {
        WitnessFault::Memory
    }
}

/// The witness that `push_witness` writes as this text.
///
/// Refuses another text, at the first of its lines that is not as it is written. Also fails when out
/// of memory.
pub fn read_witness<F: Field, EF: Challenge<F>>(
    alloc: Global,
    text: &[u8],
) -> Result<Witness<EF>, WitnessFault>
    ensures { IfOk result (IsTextOf EF.text text.now) }
{
    let witness = rows_of::<F, EF>(alloc, text)?;
    let mut again = String::new(alloc);
    push_witness(alloc, &mut again, &witness)?;
    if again.as_bytes() == text {
        Ok(witness)
    } else {
        Err(WitnessFault::Line(first_other_line(text, again.as_bytes())))
    }
}

/// The line of the first byte in which two texts differ, from 1 on.
fn first_other_line(text: &[u8], other: &[u8]) -> usize {
    let mut line = 1usize;
    for (byte, wanted) in text.iter().zip(other) {
        if byte != wanted {
            return line;
        }
        if *byte == b'\n' {
            line = line.saturating_add(1);
        }
    }
    line
}

/// The witness of the lines of a text before the first that cannot be read. The numbers of AIRs,
/// leading zeros and the like are left to a look at the whole text.
fn rows_of<F: Field, EF: Challenge<F>>(
    alloc: Global,
    text: &[u8],
) -> Result<Witness<EF>, WitnessFault>
    ensures { IfOk result IsPlainlyShaped }
{
    let mut reading = Reading::new(alloc);
    for line in &lines_of(alloc, text)? {
        if !push_line::<F, EF>(alloc, &mut reading, line)? {
            break;
        }
    }
    finish_air(alloc, &mut reading)?;
    Ok(reading.witness)
}

/// The lines of a text up to the first empty one, without their ends.
fn lines_of(alloc: Global, text: &[u8]) -> Result<Vec<&[u8]>, AllocError> {
    let mut lines = Vec::new(alloc);
    for line in text.split(|byte| *byte == b'\n') {
        if line.is_empty() {
            break;
        }
        lines.push(line)?;
    }
    Ok(lines)
}

/// What is read of a witness so far.
#[derive(Drop)]
struct Reading<EF> {
    /// The AIRs before the one that is being read.
    witness: Witness<EF>,
    /// The AIR that is being read.
    air: Option<AirLines<EF>>,
}

/// The cells of the rows of an AIR, how many each row has, and the terminal.
#[derive(Drop)]
struct AirLines<EF> {
    cells: Vec<EF>,
    width: usize,
    terminal: Option<LookupTerminal<EF>>,
}

impl<EF> Reading<EF> {
    fn new(alloc: Global) -> Reading<EF>
        ensures { IsPlainlyShaped result.witness }
    {
        Reading {
            witness: Witness {
                aux: Vec::new(alloc),
                terminals: Vec::new(alloc),
            },
            air: None,
        }
    }
}

/// Takes in a line, and returns whether it could be read.
fn push_line<F: Field, EF: Challenge<F>>(
    alloc: Global,
    reading: &mut Reading<EF>,
    line: &[u8],
) -> Result<bool, AllocError>
    requires { IsPlainlyShaped reading.old.witness }
    ensures { OnOk result (IsPlainlyShaped reading.new.witness) }
{
    if line.starts_with(b"air ") {
        finish_air(alloc, reading)?;
        reading.air = Some(AirLines {
            cells: Vec::new(alloc),
            width: 0,
            terminal: None,
        });
        return Ok(true);
    }
    let Some(air) = &mut reading.air else {
        return Ok(false);
    };
    if air.terminal.is_some() {
        return Ok(false);
    }
    if line.starts_with(b"terminal ") {
        return Ok(set_terminal::<F, EF>(air, &line[9..]));
    }
    push_row::<F, EF>(air, line)
}

/// Sets the terminal that a word gives, and returns whether it gives one.
fn set_terminal<F: Field, EF: Challenge<F>>(air: &mut AirLines<EF>, word: &[u8]) -> bool {
    match EF::from_word(word) {
        Some(value) => {
            air.terminal = Some(LookupTerminal(value));
            true
        }
        None => false,
    }
}

/// Takes in the cells of a row, if they can be read and are as many as those of the rows before, and
/// returns whether it did.
fn push_row<F: Field, EF: Challenge<F>>(
    air: &mut AirLines<EF>,
    line: &[u8],
) -> Result<bool, AllocError> {
    let before = air.cells.len();
    let mut width = 0usize;
    for word in line.split(|byte| *byte == b' ') {
        let Some(cell) = EF::from_word(word) else {
            air.cells.truncate(before);
            return Ok(false);
        };
        air.cells.push(cell)?;
        width = width.saturating_add(1);
    }
    if air.width == 0 {
        air.width = width;
    }
    if air.width == width {
        return Ok(true);
    }
    air.cells.truncate(before);
    Ok(false)
}

/// Moves the AIR that is being read to those before it.
fn finish_air<EF: Drop>(alloc: Global, reading: &mut Reading<EF>) -> Result<(), AllocError>
    requires { IsPlainlyShaped reading.old.witness }
    ensures { OnOk result (IsPlainlyShaped reading.new.witness) }
{
    let Some(air) = reading.air.take() else {
        return Ok(());
    };
    let AirLines {
        cells,
        width,
        terminal,
    } = air;
    reading.witness.aux.push(matrix_of(alloc, cells, width))?;
    reading.witness.terminals.push(terminal)?;
    Ok(())
}

/// The matrix with these values in rows of this width; one without values, where they are none or make
/// no whole rows.
fn matrix_of<T: Drop>(alloc: Global, values: Vec<T>, width: usize) -> RowMajorMatrix<T>
    ensures { IsPlainTrace result }
{
    if width > 0 && values.len() >= width && values.len() % width == 0 {
        RowMajorMatrix::new(values, width)
    } else {
        RowMajorMatrix::new(Vec::new(alloc), 0)
    }
}

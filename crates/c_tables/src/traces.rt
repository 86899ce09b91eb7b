//! Traces as tables of numbers.
ghost use Rattle.std.specs.Prelude.{◌≡◌, ◌⊎◌, MatchResult, length};
ghost use Rattle.c_tables.specs.Numbers.{AreNumbersBelow};
ghost use Rattle.c_tables.specs.TraceNumbers.{AreTraceNumbers, AreTracesOfNumbers, IsLargeNumberFault, IsTracePartFault, IsTraceFault, elements_of_numbers, makes_rows, preprocessed_of_numbers, trace_of_numbers};
ghost use Rattle.c_tables.specs.declared.traces.TraceFault.TheVariants.{Memory};

use crate::numbers::{NumberFault, elements};
use field_monty::{MontyField31, MontyParameters};
use matrix::RowMajorMatrix;
use std::alloc::{AllocError, AllocFailed, Global};
use std::fmt;
use thiserror::Error;

/// The traces and the public values of one AIR, as numbers below the modulus.
#[repr(C)]
#[derive(Drop)]
pub struct Traces<'a> {
    /// The main trace, row after row.
    pub main: &'a [u32],
    /// The width of the main trace.
    pub main_width: usize,
    /// The preprocessed trace, row after row.
    pub preprocessed: &'a [u32],
    /// The width of the preprocessed trace, 0 if there is none.
    pub preprocessed_width: usize,
    /// The public values.
    pub public_values: &'a [u32],
}

/// The traces and the public values of one AIR, as they are read.
#[derive(Drop)]
pub struct ReadTraces<F> {
    /// The main trace.
    pub main: RowMajorMatrix<F>,
    /// The preprocessed trace, if there is one.
    pub preprocessed: Option<RowMajorMatrix<F>>,
    /// The public values.
    pub public_values: Vec<F>,
}

/// A part of the traces of an AIR.
#[derive(Clone, Copy, Debug)]
pub enum TracePart {
    Main,
    Preprocessed,
    PublicValues,
}

impl fmt::Display for TracePart {
    fn fmt<W: fmt::Write>(&self, f: &mut fmt::Formatter<W>) -> fmt::Result {
        match self {
            TracePart::Main => write!(f, "main trace"),
            TracePart::Preprocessed => write!(f, "preprocessed trace"),
            TracePart::PublicValues => write!(f, "public values"),
        }
    }
}

/// Why numbers are not traces.
#[derive(Debug, Drop, Error)]
pub enum TraceFault {
    /// Out of memory.
    #[error("out of memory")]
    Memory,
    /// The number at this index of a part is not below the modulus.
    #[error("{part}: number {index} is not below the modulus")]
    Large { part: TracePart, index: usize },
    /// A part does not make whole rows: its width does not divide its length, or is 0 where it has
    /// numbers.
    #[error("{part}: the numbers make no whole rows")]
    Ragged { part: TracePart },
}

impl From<AllocError> for TraceFault {
    ghost from_gives = { λ _ e. e ≡ Memory };

    fn from(_error: AllocError) -> TraceFault {
        TraceFault::Memory
    }
}

impl<T: Drop> From<AllocFailed<T>> for TraceFault {
    ghost from_gives = { λ _ e. e ≡ Memory };

    fn from(_error: AllocFailed<T>) -> TraceFault {
        TraceFault::Memory
    }
}

/// The elements of a part.
fn part_elements<const P: u32, K: MontyParameters<P>>(
    alloc: Global,
    part: TracePart,
    numbers: &[u32],
) -> Result<Vec<MontyField31<P, K>>, TraceFault>
    ensures { MatchResult result
        (λ v. (v.items ≡ elements_of_numbers K.positive numbers.now)
        × AreNumbersBelow P (length numbers.now) numbers.now)
        (λ e. (e ≡ Memory) ⊎ IsLargeNumberFault P part numbers.now e) }
{
    match elements(alloc, numbers) {
        Ok(values) => Ok(values),
        Err(NumberFault::Memory) => Err(TraceFault::Memory),
        Err(NumberFault::Large(index)) => Err(TraceFault::Large { part, index }),
    }
}

/// Whether `count` numbers make whole rows of this width.
pub fn makes_rows(count: usize, width: usize) -> bool
    ensures { result ≡ makes_rows count width }
{
    if width == 0 {
        count == 0
    } else {
        count % width == 0
    }
}

/// The trace of these numbers, row after row.
fn trace<const P: u32, K: MontyParameters<P>>(
    alloc: Global,
    part: TracePart,
    numbers: &[u32],
    width: usize,
) -> Result<RowMajorMatrix<MontyField31<P, K>>, TraceFault>
    ensures { MatchResult result
        (λ m. (m ≡ trace_of_numbers K.positive numbers.now width)
        × AreTraceNumbers P numbers.now width)
        (IsTracePartFault P part numbers.now width) }
{
    if !makes_rows(numbers.len(), width) {
        return Err(TraceFault::Ragged { part });
    }
    let values = part_elements(alloc, part, numbers)?;
    Ok(RowMajorMatrix::new(values, width))
}

/// The preprocessed trace, if there is one.
fn preprocessed_trace<const P: u32, K: MontyParameters<P>>(
    alloc: Global,
    numbers: &[u32],
    width: usize,
) -> Result<Option<RowMajorMatrix<MontyField31<P, K>>>, TraceFault>
    ensures { MatchResult result
        (λ m. (m ≡ preprocessed_of_numbers K.positive numbers.now width)
        × AreTraceNumbers P numbers.now width)
        (IsTracePartFault P TracePart.Preprocessed numbers.now width) }
{
    let trace = trace(alloc, TracePart::Preprocessed, numbers, width)?;
    if width == 0 {
        return Ok(None);
    }
    Ok(Some(trace))
}

/// The traces that these numbers encode.
///
/// Refuses the first part with a fault, of the main trace, the preprocessed trace and the public
/// values: a trace that does not make whole rows, or else its first number that is not below the
/// modulus. Also fails when out of memory.
pub fn read_traces<const P: u32, K: MontyParameters<P>>(
    alloc: Global,
    traces: &Traces<'_>,
) -> Result<ReadTraces<MontyField31<P, K>>, TraceFault>
    ensures { MatchResult result (AreTracesOfNumbers K.positive traces.now)
        (IsTraceFault P traces.now) }
{
    let main = trace(alloc, TracePart::Main, traces.main, traces.main_width)?;
    let width = traces.preprocessed_width;
    let preprocessed = preprocessed_trace(alloc, traces.preprocessed, width)?;
    let public_values = part_elements(alloc, TracePart::PublicValues, traces.public_values)?;
    Ok(ReadTraces {
        main,
        preprocessed,
        public_values,
    })
}

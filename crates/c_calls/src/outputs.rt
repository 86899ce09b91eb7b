//! What calls write, as numbers: cells, terminals and counts.
ghost use Rattle.std.specs.Prelude.{◌≡◌, ◌+◌, ◌≤◌, ◌++◌, IfSome, MatchResult, length, map, take};
ghost use Rattle.std.specs.List.{flat_map};
ghost use Rattle.std.specs.Result.{OnErr};
ghost use Rattle.c_tables.specs.Numbers.{numbers_of};
ghost use Rattle.c_calls.specs.Generate.{HasOtherGenerateRoom};
ghost use Rattle.c_calls.specs.Outputs.{IsOptionalWide, output_cells, wide_number, terminal_numbers};

use crate::codes::Part;
use crate::fault::Fault;
use c_tables::element_numbers;
use field_monty::{MontyQuartic, QuarticParameters};
use lookup::LookupTerminal;
use matrix::RowMajorMatrix;

/// The terminal of an AIR, if it has one.
#[repr(C)]
#[derive(Clone, Copy, Drop)]
pub struct Terminal {
    /// 1 if there is a terminal, and 0 if the AIR has no lookups.
    pub present: u32,
    /// Its four numbers, lowest power first; 0 if there is none.
    pub value: [u32; 4],
}

/// A number of 128 bits: `high * 2^64 + low`.
#[repr(C)]
#[derive(Clone, Copy, Drop)]
pub struct Wide {
    pub low: u64,
    pub high: u64,
}

/// The halves of a number.
pub(crate) fn halves(n: u128) -> Wide
    ensures { wide_number result ≡ n }
{
    Wide {
        low: (n % 18_446_744_073_709_551_616) as u64,
        high: (n / 18_446_744_073_709_551_616) as u64,
    }
}

/// Whether there is a number, 1 or 0, and its halves, which are 0 if there is none.
pub(crate) fn optional_halves(n: Option<u128>) -> (u32, Wide)
    ensures { IsOptionalWide n result.0 result.1 }
{
    match n {
        Some(n) => (1, halves(n)),
        None => (0, halves(0)),
    }
}

/// The numbers of a terminal.
pub(crate) fn terminal_numbers<const P: u32, K: QuarticParameters<P>>(
    terminal: Option<LookupTerminal<MontyQuartic<P, K>>>,
) -> Terminal
    ensures { result ≡ terminal_numbers terminal }
{
    match terminal {
        Some(LookupTerminal(x)) => Terminal {
            present: 1,
            value: element_numbers(x),
        },
        None => Terminal {
            present: 0,
            value: [0, 0, 0, 0],
        },
    }
}

/// Writes elements as cells from `at` on.
pub(crate) fn write_elements<const P: u32, K: QuarticParameters<P>>(
    cells: &mut [[u32; 4]],
    at: usize,
    values: &[MontyQuartic<P, K>],
)
    requires { at + length values.now ≤ length cells.old }
    ensures { take (at + length values.now) cells.new
        ≡ take at cells.old ++ map numbers_of values.now }
{
    for index in 0..values.len() {
        cells[at + index] = element_numbers(values[index]);
    }
}

/// Writes the cells of an auxiliary trace.
///
/// Refuses a caller that does not have room for exactly these, and then leaves the cells as they were.
pub(crate) fn write_cells<const P: u32, K: QuarticParameters<P>>(
    trace: &RowMajorMatrix<MontyQuartic<P, K>>,
    cells: &mut [[u32; 4]],
) -> Result<(), Fault>
    ensures answers { MatchResult result (λ _. cells.new ≡ output_cells trace.now)
        (HasOtherGenerateRoom trace.now (length cells.old)) }
    ensures kept { OnErr result (cells.new ≡ cells.old) }
{
    let values = trace.values();
    if values.len() != cells.len() {
        return Err(Fault::Length {
            part: Part::Auxiliary,
            expected: values.len(),
            actual: cells.len(),
        });
    }
    write_elements(cells, 0, values);
    Ok(())
}

/// How many cells some auxiliary traces have, if so many can be counted.
pub(crate) fn cell_count<const P: u32, K: QuarticParameters<P>>(
    traces: &[RowMajorMatrix<MontyQuartic<P, K>>],
) -> Option<usize>
    ensures { IfSome result (λ n. n ≡ length (flat_map output_cells traces.now)) }
{
    let mut count: usize = 0;
    for trace in traces {
        count = count.checked_add(trace.values().len())?;
    }
    Some(count)
}

/// Writes the cells of some auxiliary traces, one trace after the other.
pub(crate) fn write_traces<const P: u32, K: QuarticParameters<P>>(
    cells: &mut [[u32; 4]],
    traces: &[RowMajorMatrix<MontyQuartic<P, K>>],
)
    requires { length (flat_map output_cells traces.now) ≡ length cells.old }
    ensures { cells.new ≡ flat_map output_cells traces.now }
{
    let mut at = 0;
    for trace in traces {
        write_elements(cells, at, trace.values());
        at += trace.values().len();
    }
}

/// Writes terminals.
pub(crate) fn write_terminals<const P: u32, K: QuarticParameters<P>>(
    terminals: &mut [Terminal],
    values: &[Option<LookupTerminal<MontyQuartic<P, K>>>],
)
    requires { length values.now ≡ length terminals.old }
    ensures { terminals.new ≡ map terminal_numbers values.now }
{
    for index in 0..values.len() {
        terminals[index] = terminal_numbers(values[index]);
    }
}

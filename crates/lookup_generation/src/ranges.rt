//! A range of rows of the auxiliary trace, made apart, and shifted to be joined to those before.
ghost use Rattle.std.specs.Prelude.{◌≡◌, ◌+◌, ◌-◌, ◌*◌, ◌<◌, ◌≤◌, ◌⊎◌, IfErr, IfOk, MatchResult, length};
ghost use Rattle.air.specs.Traces.{height_of, layout_of, traces_of};
ghost use Rattle.lookup_generation.specs.Inverses.{ForExtensions};
ghost use Rattle.lookup_generation.specs.Progress.{HaveNoTuples, started_chunks};
ghost use Rattle.lookup_generation.specs.Ranges.{AnswersRows, shifted_matrix};
ghost use Rattle.lookup_generation.specs.internal.Chunks.{HasCellsFrom, HasNoFaultOn, RefusesFaultOn};
ghost use Rattle.lookup_generation.specs.internal.GenerationInputs.{AreGenerationInputs};
ghost use Rattle.lookup_model.specs.Records.{LookupsFit};

use crate::chunk::{AuxiliaryRows, chunk_end, push_chunk};
use crate::columns::GenerationInputs;
use crate::memory::ChunkMemory;
use air::Traces;
use field::{Domain, ExtensionDomain, Field, Inverter};
use lookup_columns::steps_of_lookups;
use lookup_model::{Lookup, LookupError};
use matrix::RowMajorMatrix;
use std::alloc::Global;

/// The rows from `first` up to `end` of the auxiliary trace, with an accumulator that is zero on row
/// `first`.
///
/// Refuses the first fault on these rows, in the order row, lookup. `inverter` is called as
/// [`generate_rows`] says.
fn chunks_between<F: Field, EF: ExtensionDomain<F>, I: Inverter<EF>>(
    alloc: Global,
    inputs: &GenerationInputs<'_, F, EF>,
    first: usize,
    end: usize,
    inverter: &mut I,
) -> Result<AuxiliaryRows<EF>, LookupError>
    requires inputs { AreGenerationInputs inputs.now }
    requires from { first ≤ end }
    requires up_to { end ≤ height_of (traces_of inputs.now.traces.now) }
    ensures rows { ForExtensions F.ring F.eq EF.ring EF.eq EF.embed (λ E. MatchResult result
        (λ made. HasCellsFrom E inputs.now first end made × HasNoFaultOn E inputs.now first end)
        (RefusesFaultOn E inputs.now first end)) }
    ensures many { IfOk result (λ made. length made.cells.items
        ≡ (end - first) * (length inputs.now.lookups.now + 1)) }
    ensures counted { I.count inverter.new ≤ I.count inverter.old + started_chunks (end - first) }
    ensures one_fewer_if_refused { IfErr result (λ e. (e ≡ LookupError.Memory)
        ⊎ (I.count inverter.new < I.count inverter.old + started_chunks (end - first))) }
    ensures nothing_sent { HaveNoTuples inputs.now.lookups.now
        → I.count inverter.new ≡ I.count inverter.old }
{
    let size = (end - first)
        .checked_mul(inputs.lookups.len() + 1)
        .ok_or(LookupError::Memory)?;
    let mut made = AuxiliaryRows {
        cells: Vec::with_capacity(alloc, size)?,
        accumulator: EF::ZERO,
    };
    let mut memory = ChunkMemory::new(alloc);
    let mut next = first;
    while next < end {
        let until = chunk_end(next, end);
        push_chunk(alloc, &mut memory, inputs, &mut made, next, until, inverter)?;
        next = until;
    }
    Ok(made)
}

/// The rows from `first` up to `end` of the auxiliary trace of one AIR, with an accumulator that is zero on
/// row `first`, and the sum of their fractions.
///
/// What a row sends is as in the whole trace: the last row of the range sees the row after it, and
/// selectors are those of the whole trace. So ranges of rows can be generated apart: [`shift`] by the sum
/// of all fractions on the rows before turns them into rows of the whole trace
/// ([`ranges_join`](crate::ranges_join)). Without lookups they have width 0. `challenges` are an alpha and a beta for each lookup, in the order of their columns.
///
/// Refuses the first fault on these rows, in the order row, lookup, as
/// [`generate_permutation`](crate::generate_permutation) does. `inverter` is called at most once for each
/// chunk of 1024 rows that is started, at least once less if a fault is refused, and never if no lookup
/// has tuples. Also fails when out of memory, with `Memory`.
pub fn generate_rows<'a, F: Field, EF: ExtensionDomain<F>, I: Inverter<EF>>(
    alloc: Global,
    traces: &'a Traces<'a, F>,
    lookups: &'a [Lookup<F>],
    challenges: &'a [EF],
    first: usize,
    end: usize,
    inverter: &mut I,
) -> Result<(RowMajorMatrix<EF>, EF), LookupError>
    requires fit { LookupsFit (layout_of (traces_of traces.now)) lookups.now }
    requires challenges { 2 * length lookups.now ≤ length challenges.now }
    requires from { first ≤ end }
    requires up_to { end ≤ height_of (traces_of traces.now) }
    ensures answers { ForExtensions F.ring F.eq EF.ring EF.eq EF.embed (λ E. AnswersRows E
        (traces_of traces.now) lookups.now challenges.now first end result) }
    ensures counted { I.count inverter.new ≤ I.count inverter.old + started_chunks (end - first) }
    ensures one_fewer_if_refused { IfErr result (λ e. (e ≡ LookupError.Memory)
        ⊎ (I.count inverter.new < I.count inverter.old + started_chunks (end - first))) }
    ensures nothing_sent { HaveNoTuples lookups.now → I.count inverter.new ≡ I.count inverter.old }
{
    if lookups.is_empty() {
        return Ok((RowMajorMatrix::new(Vec::new(alloc), 0), EF::ZERO));
    }
    let inputs = GenerationInputs {
        traces,
        lookups,
        challenges,
        steps: steps_of_lookups(alloc, lookups)?,
    };
    let made = chunks_between(alloc, &inputs, first, end, inverter)?;
    Ok((
        RowMajorMatrix::new(made.cells, lookups.len() + 1),
        made.accumulator,
    ))
}

/// Adds `offset` to the accumulator of each row, its first cell.
pub fn shift<K: Domain>(rows: RowMajorMatrix<K>, offset: K) -> RowMajorMatrix<K>
    ensures { result ≡ shifted_matrix K.ring offset rows }
{
    let width = rows.width();
    let height = rows.height();
    let mut cells = rows.into_values();
    for row in 0..height {
        let at = row * width;
        cells[at] = offset + cells[at];
    }
    RowMajorMatrix::new(cells, width)
}

//! The rows of a chunk of the auxiliary trace: their fractions are found as ratios, a column at a time,
//! and divided by at most one inverse.
ghost use Rattle.std.specs.Prelude.{◌≡◌, ◌+◌, ◌-◌, ◌*◌, ℕ, ◌<◌, ◌≤◌, ◌⊎◌, ◌++◌, ◌∷◌, [], List, None, IfErr, IfOk, IfSome, MatchResult, OnOk, length};
ghost use Rattle.std.specs.List.{AllZip};
ghost use Rattle.std.specs.Option.{option_map_or};
ghost use Rattle.air.specs.Traces.{height_of, traces_of};
ghost use Rattle.air_expressions.specs.Window.{Window};
ghost use Rattle.lookup_model.specs.Denominators.{key_denominator};
ghost use Rattle.field.specs.Sums.{sum_in};
ghost use Rattle.matrix.specs.Matrix.{height};
ghost use Rattle.lookup_generation.specs.internal.Chunks.{AnswersRatios, HasCellsFrom, HasNoFaultOn, RefusesFaultOn};
ghost use Rattle.lookup_generation.specs.internal.GenerationInputs.{AreGenerationInputs};
ghost use Rattle.lookup_generation.specs.internal.Fraction.{AreAlike, AreDefined, HaveUnitDenominators, ratios_in};
ghost use Rattle.lookup_generation.specs.Inverses.{ForExtensions};
ghost use Rattle.lookup_columns.specs.internal.StoredRows.{StoreAllOnRows, StoreOnRows};
ghost use Rattle.lookup_generation.specs.Progress.{HaveNoTuples};
ghost use Rattle.lookup_generation.specs.internal.Progress.{AnswersPushColumn, AnswersPushColumns, column_cells, sent_on};
ghost use Rattle.lookup_model.specs.Records.{AreRecords};

use crate::columns::{GenerationInputs, columns_of_lookups};
use crate::fraction::fraction;
use crate::memory::ChunkMemory;
use crate::ratio::{Ratios, values_of};
use field::{Domain, ExtensionDomain, Field, Inverter};
use lookup_columns::{BranchColumns, rows_between};
use lookup_model::{Lookup, LookupError};
use matrix::RowMajorMatrix;
use std::alloc::{AllocError, Global};

/// How many rows make a chunk. All fractions of a chunk are divided by at most one inverse.
const CHUNK_ROWS: usize = 1024;

/// A fault of a lookup, and the row where it is.
#[derive(Drop)]
pub(crate) struct RowFault {
    row: usize,
    error: LookupError,
}

/// Appends the fractions of a lookup on the rows from `first` up to `end`, row after row, as ratios.
/// `columns` are those of the lookup, from row `first` on.
///
/// Returns the lookup's first fault on these rows, if it has one. What is then appended has no meaning.
/// Else no denominator of what is appended is zero, and without tuples each is one.
fn push_column<F: Field, EF: ExtensionDomain<F>>(
    ratios: &mut Ratios<EF>,
    lookup: &Lookup<F>,
    columns: &[BranchColumns<F, EF>],
    first: usize,
    end: usize,
) -> Result<Option<RowFault>, AllocError>
    requires alike { AreAlike ratios.old }
    requires from { first ≤ end }
    requires columns { (challenges : List EF) × (window : ℕ → Window F)
        × StoreOnRows F.ring EF.ring EF.embed challenges window first end lookup.now columns.now }
    ensures answers { ForExtensions F.ring F.eq EF.ring EF.eq EF.embed (λ E.
        IfOk result (λ found. (challenges : List EF) (window : ℕ → Window F)
        → StoreOnRows F.ring EF.ring EF.embed challenges window first end lookup.now columns.now
        → AnswersPushColumn E (key_denominator E challenges) (sent_on F.ring F.eq window lookup.now)
        lookup.now.column first end (ratios_in ratios.old) (ratios_in ratios.new) found)) }
    ensures defined { IfOk result (λ found. found ≡ None → (n : ℕ)
        → AreDefined EF.ring n (ratios_in ratios.old)
        → AreDefined EF.ring (n + (end - first)) (ratios_in ratios.new)) }
    ensures alike { IfOk result (λ _. AreAlike ratios.new) }
    ensures unit_denominators { lookup.now.elements.items ≡ []
        → HaveUnitDenominators EF.ring (ratios_in ratios.old)
        → IfOk result (λ _. HaveUnitDenominators EF.ring (ratios_in ratios.new)) }
    ensures there { IfOk result (λ found. IfSome found
        (λ fault. (first ≤ fault.row) × (fault.row < end))) }
{
    for row in first..end {
        match fraction(lookup, columns, row - first, row) {
            Ok(ratio) => ratios.push(ratio)?,
            Err(error) => return Ok(Some(RowFault { row, error })),
        }
    }
    Ok(None)
}

/// Where the rows end on which the fault of a further lookup would come first: at this fault's row, or
/// at `end` if there is none.
fn rows_before(fault: &Option<RowFault>, end: usize) -> usize
    ensures { result ≡ option_map_or (λ f. f.row) fault.now end }
{
    match fault {
        Some(fault) => fault.row,
        None => end,
    }
}

/// Fills `ratios`, which are empty so far, with the fractions of each lookup on the rows from `first` up
/// to `end`, one column after the other. `columns` are those of each lookup, from row `first` on.
///
/// Returns the first fault in the order row, lookup, if there is one. Once a lookup has a fault, further
/// ones are looked at only on the rows before it. Without a fault no denominator is zero, and each is one
/// where no lookup has tuples.
fn push_columns<F: Field, EF: ExtensionDomain<F>>(
    ratios: &mut Ratios<EF>,
    lookups: &[Lookup<F>],
    columns: &[Vec<BranchColumns<F, EF>>],
    first: usize,
    end: usize,
) -> Result<Option<RowFault>, AllocError>
    requires records { AreRecords lookups.now }
    requires alike { AreAlike ratios.old }
    requires from { first ≤ end }
    requires columns { (challenges : List EF) × (window : ℕ → Window F)
        × StoreAllOnRows F.ring EF.ring EF.embed challenges window first end lookups.now columns.now }
    requires none_yet { ratios_in ratios.old ≡ [] }
    ensures answers { ForExtensions F.ring F.eq EF.ring EF.eq EF.embed (λ E.
        IfOk result (λ found. (challenges : List EF) (window : ℕ → Window F)
        → StoreAllOnRows F.ring EF.ring EF.embed challenges window first end lookups.now columns.now
        → AnswersPushColumns E (key_denominator E challenges) window lookups.now first end
        (ratios_in ratios.new) found)) }
    ensures defined { IfOk result (λ found. found ≡ None
        → AreDefined EF.ring (length lookups.now * (end - first)) (ratios_in ratios.new)) }
    ensures alike { IfOk result (λ _. AreAlike ratios.new) }
    ensures unit_denominators { HaveNoTuples lookups.now
        → IfOk result (λ _. HaveUnitDenominators EF.ring (ratios_in ratios.new)) }
    ensures there { IfOk result (λ found. IfSome found
        (λ fault. (first ≤ fault.row) × (fault.row < end))) }
{
    let mut fault: Option<RowFault> = None;
    for lookup in lookups {
        let until = rows_before(&fault, end);
        let branches = &columns[lookup.column];
        let found = push_column(ratios, lookup, branches, first, until)?;
        fault = found.or(fault);
    }
    Ok(fault)
}

/// The fractions of all lookups on the rows from `first` up to `end`, lookup after lookup, as ratios. No
/// denominator is zero, and each is one where no lookup has tuples.
///
/// Refuses the first fault on these rows, in the order row, lookup.
fn chunk_ratios<F: Field, EF: ExtensionDomain<F>>(
    alloc: Global,
    memory: &mut ChunkMemory<F, EF>,
    inputs: &GenerationInputs<'_, F, EF>,
    first: usize,
    end: usize,
) -> Result<Ratios<EF>, LookupError>
    requires inputs { AreGenerationInputs inputs.now }
    requires from { first ≤ end }
    requires up_to { end ≤ height_of (traces_of inputs.now.traces.now) }
    ensures answers { ForExtensions F.ring F.eq EF.ring EF.eq EF.embed (λ E.
        AnswersRatios E inputs.now first end result) }
    ensures defined { IfOk result (λ v. AreDefined EF.ring
        (length inputs.now.lookups.now * (end - first)) (ratios_in v)) }
    ensures alike { IfOk result AreAlike }
    ensures unit_denominators { HaveNoTuples inputs.now.lookups.now
        → IfOk result (λ v. HaveUnitDenominators EF.ring (ratios_in v)) }
{
    let rows = rows_between(alloc, &mut memory.columns.indices, first, end)?;
    let columns = columns_of_lookups(alloc, memory, inputs, &rows)?;
    let size = rows
        .len()
        .checked_mul(inputs.lookups.len())
        .ok_or(LookupError::Memory)?;
    let mut ratios = Ratios {
        numerators: memory.fractions.take(alloc, size)?,
        denominators: memory.fractions.take(alloc, size)?,
    };
    let fault = push_columns(&mut ratios, inputs.lookups, &columns, first, end)?;
    match fault {
        Some(RowFault { row: _, error }) => Err(error),
        None => {
            memory.columns.indices.put(rows)?;
            memory.put_columns(columns)?;
            Ok(ratios)
        }
    }
}

/// The rows of an auxiliary trace that are made so far.
#[derive(Drop)]
pub(crate) struct AuxiliaryRows<K> {
    /// Their cells, row after row.
    pub(crate) cells: Vec<K>,
    /// The accumulator of the next row.
    pub(crate) accumulator: K,
}

/// Appends a row of the auxiliary trace: the accumulator, and the fraction of each lookup, which stands at
/// `index` in its row of `by_lookup`. The caller counts these, `num_lookups`, once for all rows.
fn push_row<K: Domain>(
    made: &mut AuxiliaryRows<K>,
    by_lookup: &RowMajorMatrix<K>,
    num_lookups: usize,
    index: usize,
) -> Result<(), AllocError>
    requires lookups { num_lookups ≡ height by_lookup.now }
    requires row { index < by_lookup.now.width }
    ensures { let fractions = column_cells K.ring.zero by_lookup.now index in
        OnOk result ((made.new.cells.items
        ≡ made.old.cells.items ++ made.old.accumulator ∷ fractions)
        × (made.new.accumulator ≡ K.ring.add made.old.accumulator (sum_in K.ring fractions))) }
{
    made.cells.push(made.accumulator)?;
    let mut next = made.accumulator;
    for lookup in 0..num_lookups {
        let fraction = by_lookup.row_slice(lookup)[index];
        made.cells.push(fraction)?;
        next = next + fraction;
    }
    made.accumulator = next;
    Ok(())
}

/// Appends the rows from `first` up to `end` of the auxiliary trace, by at most one inverse.
///
/// Refuses the first fault on these rows, in the order row, lookup. A fault is found before anything is
/// inverted, and nothing is inverted where no lookup has tuples.
pub(crate) fn push_chunk<F: Field, EF: ExtensionDomain<F>, I: Inverter<EF>>(
    alloc: Global,
    memory: &mut ChunkMemory<F, EF>,
    inputs: &GenerationInputs<'_, F, EF>,
    made: &mut AuxiliaryRows<EF>,
    first: usize,
    end: usize,
    inverter: &mut I,
) -> Result<(), LookupError>
    requires inputs { AreGenerationInputs inputs.now }
    requires from { first < end }
    requires up_to { end ≤ height_of (traces_of inputs.now.traces.now) }
    ensures rows { ForExtensions F.ring F.eq EF.ring EF.eq EF.embed (λ E. (origin : ℕ) → origin ≤ first
        → HasCellsFrom E inputs.now origin first made.old
        → OnOk result (HasCellsFrom E inputs.now origin end made.new)) }
    ensures faults { ForExtensions F.ring F.eq EF.ring EF.eq EF.embed (λ E. MatchResult result
        (λ _. HasNoFaultOn E inputs.now first end) (RefusesFaultOn E inputs.now first end)) }
    ensures many { OnOk result (length made.new.cells.items
        ≡ length made.old.cells.items + (end - first) * (length inputs.now.lookups.now + 1)) }
    ensures counted { I.count inverter.new ≤ I.count inverter.old + 1 }
    ensures one_fewer_if_refused { IfErr result (λ e. (e ≡ LookupError.Memory)
        ⊎ (I.count inverter.new ≡ I.count inverter.old)) }
    ensures nothing_sent { HaveNoTuples inputs.now.lookups.now
        → I.count inverter.new ≡ I.count inverter.old }
{
    let ratios = chunk_ratios(alloc, memory, inputs, first, end)?;
    let fractions = values_of::<F, EF, I>(
        &mut memory.fractions,
        &mut memory.division,
        ratios,
        inverter,
    )?;
    let num_rows = end - first;
    let by_lookup = RowMajorMatrix::new(fractions, num_rows);
    let num_lookups = by_lookup.height();
    for index in 0..num_rows {
        push_row(made, &by_lookup, num_lookups, index)?;
    }
    memory.fractions.put(by_lookup.into_values())?;
    Ok(())
}

/// Where the chunk ends that starts at `first`, of rows up to `end`.
pub fn chunk_end(first: usize, end: usize) -> usize
    requires { first < end }
    ensures further { first < result }
    ensures up_to { result ≤ end }
    ensures full_or_last { (result ≡ first + 1024) ⊎ (result ≡ end) }
    ensures most { result ≤ first + 1024 }
{
    if end - first > CHUNK_ROWS {
        first + CHUNK_ROWS
    } else {
        end
    }
}

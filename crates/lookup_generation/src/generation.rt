//! Generation of a whole auxiliary trace, at once or from ranges of rows.
ghost use Rattle.std.specs.Prelude.{◌≡◌, ◌+◌, ◌*◌, ◌<◌, ◌≤◌, ◌⊎◌, IfErr, length};
ghost use Rattle.air.specs.Traces.{height_of, layout_of, traces_of};
ghost use Rattle.lookup_generation.specs.Inverses.{ForExtensions};
ghost use Rattle.lookup_generation.specs.Progress.{HaveNoTuples, started_chunks};
ghost use Rattle.lookup_generation.specs.Ranges.{AreEnds};
ghost use Rattle.lookup_model.specs.Records.{LookupsFit};
ghost use Rattle.lookup_model.specs.Generation.{AnswersGeneration};

use crate::ranges::{generate_rows, shift};
use air::Traces;
use field::{Domain, ExtensionDomain, ExtensionField, Field, InverseCount, Inverter, Over};
use lookup_model::{Lookup, LookupError, LookupTerminal};
use matrix::RowMajorMatrix;
use std::alloc::Global;

/// The auxiliary trace of one AIR and its terminal, by at most one inverse for each chunk of 1024 rows.
///
/// It answers as [`generate_permutation`] does. `inverter` is called at most once for each chunk
/// that is started, at least once less if a fault is refused, and never if no lookup has tuples.
pub fn generate_counted<'a, F: Field, EF: ExtensionDomain<F>, I: Inverter<EF>>(
    alloc: Global,
    traces: &'a Traces<'a, F>,
    lookups: &'a [Lookup<F>],
    challenges: &'a [EF],
    inverter: &mut I,
) -> Result<(RowMajorMatrix<EF>, Option<LookupTerminal<EF>>), LookupError>
    requires fit { LookupsFit (layout_of (traces_of traces.now)) lookups.now }
    requires challenges { 2 * length lookups.now ≤ length challenges.now }
    ensures answers { ForExtensions F.ring F.eq EF.ring EF.eq EF.embed (λ E. AnswersGeneration E
        (traces_of traces.now) lookups.now challenges.now result) }
    ensures counted { I.count inverter.new ≤ I.count inverter.old + started_chunks
        (height_of (traces_of traces.now)) }
    ensures one_fewer_if_refused { IfErr result (λ e. (e ≡ LookupError.Memory)
        ⊎ (I.count inverter.new < I.count inverter.old + started_chunks
        (height_of (traces_of traces.now)))) }
    ensures nothing_sent { HaveNoTuples lookups.now → I.count inverter.new ≡ I.count inverter.old }
{
    let height = traces.main.height();
    let (cells, sum) = generate_rows(alloc, traces, lookups, challenges, 0, height, inverter)?;
    let terminal = if lookups.is_empty() {
        None
    } else {
        Some(LookupTerminal(sum))
    };
    Ok((cells, terminal))
}

/// The auxiliary trace of one AIR and its terminal.
///
/// The trace has the height of `traces` and one column more than there are lookups: first the
/// accumulator, the sum of all fractions on the rows before, and then the fraction of each lookup.
/// Without lookups it has width 0, and there is no terminal. `challenges` are an alpha and a beta for
/// each lookup, in the order of their columns. The running sum is that of LogUp
/// (<https://eprint.iacr.org/2022/1530>).
///
/// Refuses the first fault in the order row, lookup, and returns nothing of the trace. In a group,
/// a flag that is neither zero nor one comes first, then more than one set flag, and then a
/// denominator that vanishes. Also fails when out of memory, with `Memory`.
pub fn generate_permutation<F: Field, EF: ExtensionField<F>>(
    alloc: Global,
    traces: &Traces<'_, F>,
    lookups: &[Lookup<F>],
    challenges: &[EF],
) -> Result<(RowMajorMatrix<EF>, Option<LookupTerminal<EF>>), LookupError>
    requires fit { LookupsFit (layout_of (traces_of traces.now)) lookups.now }
    requires challenges { 2 * length lookups.now ≤ length challenges.now }
    ensures { AnswersGeneration ⟦<EF as Over<F>>⟧.fields (traces_of traces.now) lookups.now
        challenges.now result }
{
    let mut count = InverseCount::new();
    generate_counted(alloc, traces, lookups, challenges, &mut count)
}

/// The auxiliary trace of one AIR and its terminal, made of ranges of rows: the first range ends at the
/// first of `ends`, and each further one follows on the one before.
///
/// `ends` do not decrease, and the last of them is the height. Whatever they are, the answer is that of
/// [`generate_permutation`]. Each range is made apart by [`generate_rows`] and shifted by the sum of those
/// before it, as others may do elsewhere: that this gives the whole is the contract of
/// [`ranges_join`](crate::ranges_join).
pub fn generate_in_ranges<'a, F: Field, EF: ExtensionField<F>>(
    alloc: Global,
    traces: &'a Traces<'a, F>,
    lookups: &'a [Lookup<F>],
    challenges: &'a [EF],
    ends: &[usize],
) -> Result<(RowMajorMatrix<EF>, Option<LookupTerminal<EF>>), LookupError>
    requires fit { LookupsFit (layout_of (traces_of traces.now)) lookups.now }
    requires challenges { 2 * length lookups.now ≤ length challenges.now }
    requires ends { AreEnds 0 ends.now (height_of (traces_of traces.now)) }
    ensures { AnswersGeneration ⟦<EF as Over<F>>⟧.fields (traces_of traces.now) lookups.now
        challenges.now result }
{
    if lookups.is_empty() {
        return generate_permutation(alloc, traces, lookups, challenges);
    }
    let mut count = InverseCount::new();
    let mut cells = Vec::new(alloc);
    let mut sum = EF::ZERO;
    let mut first = 0;
    for end in ends {
        let (rows, more) = generate_rows(
            alloc, traces, lookups, challenges, first, *end, &mut count,
        )?;
        cells.append(&mut shift(rows, sum).into_values())?;
        sum = sum + more;
        first = *end;
    }
    Ok((
        RowMajorMatrix::new(cells, lookups.len() + 1),
        Some(LookupTerminal(sum)),
    ))
}

//! Up to which row all constraints are zero, row by row.
ghost use Rattle.std.specs.Prelude.{◌≡◌, ◌↔◌, ◌<◌, ◌≤◌, ◌*◌, IsTrue, None, Some, length};
ghost use Rattle.std.specs.List.{AllByRecursion};
ghost use Rattle.air.specs.Traces.{height_of};
ghost use Rattle.checker_witness.specs.Columns.{ColumnsHoldUntil, HasColumns};
ghost use Rattle.checker_witness.specs.internal.Quotients.{IsQuotientOf};
ghost use Rattle.checker_witness.specs.internal.Rows.{FractionHoldsAt};
ghost use Rattle.checker_witness.specs.internal.TraceRows.{FractionFits, trace_layout, trace_window, window_over};
ghost use Rattle.lookup_model.specs.Batches.Instances.{instance_of};
ghost use Rattle.lookup_model.specs.Batches.Refusals.{HasShapeAt};
ghost use Rattle.lookup_model.specs.Denominators.{tuple_denominator};
ghost use Rattle.lookup_model.specs.Records.{AllFit, HasEqualLengths, IsWithin, LookupsFit};
ghost use Rattle.lookup_model.specs.Sent.{branches_at, values};

use crate::accumulator::accumulator_holds;
use crate::fractions::{is_satisfied, with_branch};
use crate::trace_row::TraceRow;
use air::{SymbolicExpression, Traces};
use field::{Domain, ExtensionDomain, ExtensionField, Field, Over, PrimeCharacteristicRing};
use lookup::{Lookup, LookupTerminal};
use lookup_constraints::Quotient;
use lookup_model::BatchInstance;
use matrix::RowMajorMatrix;

/// Up to which of the rows from `first` up to `end` every constraint of an AIR with lookups is zero: the
/// first row on which one is not, or `end`.
///
/// The expressions are walked on each row: no list is made.
pub(crate) fn few_hold_until<F: Field, EF: ExtensionField<F>>(
    instance: &BatchInstance<'_, F>,
    challenges: &[EF],
    aux: &RowMajorMatrix<EF>,
    terminal: LookupTerminal<EF>,
    first: usize,
    end: usize,
) -> usize
    requires columns { HasColumns (instance_of instance.now) challenges.now }
    requires shape { HasShapeAt (instance_of instance.now) (aux.now, Some terminal) }
    requires range { (first ≤ end) × (end ≤ height_of (instance_of instance.now).traces) }
    ensures { let i = instance_of instance.now in
        ColumnsHoldUntil ⟦<EF as Over<F>>⟧.fields i.traces i.lookups challenges.now
        (aux.now, Some terminal) first end result }
{
    let (lookups, num_rows) = (instance.lookups, instance.main.height());
    let traces = Traces {
        main: instance.main,
        preprocessed: instance.preprocessed,
        public_values: instance.public_values,
    };
    for row in first..end {
        if !accumulator_holds(aux, terminal.0, lookups, num_rows, row) {
            return row;
        }
        let trace_row = TraceRow::new(&traces, num_rows, row);
        let cells = aux.row_slice(row);
        if !fractions_hold(&trace_row, cells, lookups, challenges) {
            return row;
        }
    }
    end
}

/// Whether the constraints of the lookups' fractions are zero on a row. `cells` are those of the
/// auxiliary trace on it.
fn fractions_hold<F: Field, EF: ExtensionField<F>>(
    row: &TraceRow<'_, F>,
    cells: &[EF],
    lookups: &[Lookup<F>],
    challenges: &[EF],
) -> bool
    requires fit { LookupsFit (trace_layout row.now) lookups.now }
    requires cells { length lookups.now < length cells.now }
    requires challenges { 2 * length lookups.now ≤ length challenges.now }
    ensures { IsTrue result ↔ AllByRecursion (FractionHoldsAt ⟦<EF as Over<F>>⟧.fields
        (window_over (trace_window row.now) cells.now challenges.now)) lookups.now }
{
    for lookup in lookups {
        let at = lookup.column;
        let (alpha, beta) = (challenges[2 * at], challenges[2 * at + 1]);
        if !fraction_holds_on(row, lookup, alpha, beta, cells[at + 1]) {
            return false;
        }
    }
    true
}

/// Whether the constraint of a lookup's fraction is zero on a row, with the alpha and the beta of the
/// lookup's column.
fn fraction_holds_on<F: Field, EF: ExtensionField<F>>(
    row: &TraceRow<'_, F>,
    lookup: &Lookup<F>,
    alpha: EF,
    beta: EF,
    fraction: EF,
) -> bool
    requires lengths { HasEqualLengths lookup.now }
    requires within { IsWithin (trace_layout row.now) lookup.now }
    ensures { IsTrue result
        ↔ FractionFits row.now ⟦<EF as Over<F>>⟧.fields alpha beta lookup.now fraction }
{
    match &lookup.flags {
        None => is_satisfied(additive_quotient_on(row, lookup, alpha, beta), fraction),
        Some(flags) => {
            let quotient = exclusive_quotient_on(row, lookup, flags, alpha, beta);
            is_satisfied(quotient, fraction)
        }
    }
}

/// The sum of the quotients of all tuples on a row, over the product of their denominators. The first
/// tuple takes no product.
fn additive_quotient_on<F: Field, EF: ExtensionField<F>>(
    row: &TraceRow<'_, F>,
    lookup: &Lookup<F>,
    alpha: EF,
    beta: EF,
) -> Quotient<EF>
    requires lengths { HasEqualLengths lookup.now }
    requires within { IsWithin (trace_layout row.now) lookup.now }
    ensures { let E = ⟦<EF as Over<F>>⟧.fields in
        IsQuotientOf E (tuple_denominator E alpha beta) None
        (branches_at F.ring (trace_window row.now) lookup.now.column lookup.now) result }
{
    if lookup.elements.is_empty() {
        return Quotient {
            numerator: EF::ZERO,
            denominator: EF::ONE,
        };
    }
    let mut quotient = Quotient {
        numerator: EF::embed(row.value_of(&lookup.multiplicities[0])),
        denominator: denominator_on(row, &lookup.elements[0], alpha, beta),
    };
    for branch in 1..lookup.elements.len() {
        let multiplicity = row.value_of(&lookup.multiplicities[branch]);
        let denominator = denominator_on(row, &lookup.elements[branch], alpha, beta);
        quotient = with_branch(quotient, multiplicity, denominator);
    }
    quotient
}

/// `sum(flag * multiplicity)` over `1 + sum(flag * (denominator - 1))` on a row. A tuple whose flag is
/// zero adds nothing, and its expressions are not walked; a flag of 2 counts as 2.
fn exclusive_quotient_on<F: Field, EF: ExtensionField<F>>(
    row: &TraceRow<'_, F>,
    lookup: &Lookup<F>,
    flags: &[SymbolicExpression<F>],
    alpha: EF,
    beta: EF,
) -> Quotient<EF>
    requires lengths { HasEqualLengths lookup.now }
    requires flag_number { length flags.now ≡ length lookup.now.elements.items }
    requires within { IsWithin (trace_layout row.now) lookup.now }
    requires flags_fit { AllFit (trace_layout row.now) flags.now }
    ensures { let E = ⟦<EF as Over<F>>⟧.fields in let w = trace_window row.now in
        IsQuotientOf E (tuple_denominator E alpha beta) (Some (values F.ring w flags.now))
        (branches_at F.ring w lookup.now.column lookup.now) result }
{
    let mut numerator = F::ZERO;
    let mut denominator = EF::ONE;
    for branch in 0..flags.len() {
        let flag = row.value_of(&flags[branch]);
        if !flag.is_zero() {
            let multiplicity = row.value_of(&lookup.multiplicities[branch]);
            let selected = denominator_on(row, &lookup.elements[branch], alpha, beta);
            numerator = numerator + flag * multiplicity;
            denominator = denominator + (selected - EF::ONE).scaled(flag);
        }
    }
    Quotient {
        numerator: EF::embed(numerator),
        denominator,
    }
}

/// The denominator of a tuple on a row: `alpha - t`, where `t` is the tuple combined by `beta`.
///
/// The last element has the factor 1, and the one before it `beta`, so a tuple of two elements takes no
/// product in the extension. No power is worked out that no element has.
fn denominator_on<F: Field, EF: ExtensionField<F>>(
    row: &TraceRow<'_, F>,
    tuple: &[SymbolicExpression<F>],
    alpha: EF,
    beta: EF,
) -> EF
    requires { AllFit (trace_layout row.now) tuple.now }
    ensures { result ≡ tuple_denominator ⟦<EF as Over<F>>⟧.fields alpha beta
        (values F.ring (trace_window row.now) tuple.now) }
{
    let mut left = tuple.len();
    if left == 0 {
        return alpha;
    }
    left -= 1;
    let mut denominator = alpha - EF::embed(row.value_of(&tuple[left]));
    let mut power = beta;
    while left > 0 {
        left -= 1;
        denominator = denominator.minus_scaled(power, row.value_of(&tuple[left]));
        if left > 0 {
            power = power * beta;
        }
    }
    denominator
}

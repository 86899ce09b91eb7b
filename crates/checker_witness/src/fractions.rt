//! The constraint of a lookup's fraction on the rows of a chunk, read off its columns.
ghost use Rattle.std.specs.Prelude.{◌≡◌, ◌↔◌, ◌+◌, ◌-◌, ◌<◌, ◌≤◌, IsTrue, List, None, Some};
ghost use Rattle.std.specs.List.{AllZip};
ghost use Rattle.air.specs.Row.{input_window};
ghost use Rattle.checker_witness.specs.internal.Quotients.{IsQuotientOf, over_tuples};
ghost use Rattle.checker_witness.specs.Ranges.{HoldsUntil};
ghost use Rattle.checker_witness.specs.internal.Rows.{FractionHolds};
ghost use Rattle.lookup_columns.specs.ChunkColumns.{StoreLookup, StoreSelected, IsStored};
ghost use Rattle.lookup_columns.specs.internal.StoredRows.{StoreOnRows};
ghost use Rattle.lookup_model.specs.Message.{Key, Message};
ghost use Rattle.matrix.specs.Matrix.{height};

use air::RowInputs;
use field::{ExtensionField, Field, Over};
use lookup::Lookup;
use lookup_columns::BranchColumns;
use lookup_constraints::Quotient;

/// Up to which of the rows from `first` up to `end` the constraint of a lookup's fraction is zero: the
/// first row on which it is not, or `end`. `columns` are those of the lookup, from row `first` on.
pub(crate) fn fraction_holds_until<'a, F: Field, EF: ExtensionField<F>>(
    inputs: &'a RowInputs<'a, F, EF>,
    lookup: &Lookup<F>,
    columns: &[BranchColumns<F, EF>],
    first: usize,
    end: usize,
) -> usize
    requires from { first ≤ end }
    requires up_to { end ≤ height inputs.now.permutation.now }
    requires cell { lookup.now.column + 1 < inputs.now.permutation.now.width }
    requires columns { StoreOnRows F.ring EF.ring EF.embed inputs.now.challenges.now
        (λ row. (input_window inputs.now row).base) first end lookup.now columns.now }
    ensures { HoldsUntil (FractionHolds ⟦<EF as Over<F>>⟧.fields inputs.now lookup.now)
        first end result }
{
    for row in first..end {
        if !fraction_holds(inputs, lookup, columns, row - first, row) {
            return row;
        }
    }
    end
}

/// Whether the constraint of a lookup's fraction is zero on a row, which stands at this index of the
/// lookup's columns.
fn fraction_holds<'a, F: Field, EF: ExtensionField<F>>(
    inputs: &'a RowInputs<'a, F, EF>,
    lookup: &Lookup<F>,
    columns: &[BranchColumns<F, EF>],
    index: usize,
    row: usize,
) -> bool
    requires row_exists { row < height inputs.now.permutation.now }
    requires cell { lookup.now.column + 1 < inputs.now.permutation.now.width }
    requires columns { StoreLookup F.ring EF.ring EF.embed inputs.now.challenges.now
        (input_window inputs.now row).base index lookup.now columns.now }
    ensures { IsTrue result
        ↔ FractionHolds ⟦<EF as Over<F>>⟧.fields inputs.now lookup.now row }
{
    let fraction = inputs.permutation.row_slice(row)[lookup.column + 1];
    match &lookup.flags {
        None => is_satisfied(additive_quotient(columns, index), fraction),
        Some(_) => is_satisfied(exclusive_quotient(columns, index), fraction),
    }
}

/// Whether the fraction times the denominator is the numerator.
#[inline(always)]
pub(crate) fn is_satisfied<EF: Field>(quotient: Quotient<EF>, fraction: EF) -> bool
    ensures { IsTrue result ↔ (EF.ring.mul quotient.denominator fraction ≡ quotient.numerator) }
{
    quotient.denominator * fraction == quotient.numerator
}

/// The sum of the quotients of all tuples, over the product of their denominators. The first tuple takes
/// no product.
fn additive_quotient<F: Field, EF: ExtensionField<F>>(
    columns: &[BranchColumns<F, EF>],
    index: usize,
) -> Quotient<EF>
    requires { (denominator : Key F → EF) × (messages : List (Message F))
        × AllZip (IsStored denominator index) columns.now messages }
    ensures { (denominator : List F → EF) (messages : List (Message F))
        → AllZip (IsStored (over_tuples denominator) index) columns.now messages
        → IsQuotientOf ⟦<EF as Over<F>>⟧.fields denominator None messages result }
{
    let Some((first, others)) = columns.split_first() else {
        return Quotient {
            numerator: EF::ZERO,
            denominator: EF::ONE,
        };
    };
    let mut quotient = Quotient {
        numerator: EF::embed(first.multiplicities[index]),
        denominator: first.denominators[index],
    };
    for branch in others {
        quotient = with_branch(
            quotient,
            branch.multiplicities[index],
            branch.denominators[index],
        );
    }
    quotient
}

/// The quotient plus `multiplicity / denominator`, over the product of both denominators.
pub(crate) fn with_branch<F: Field, EF: ExtensionField<F>>(
    quotient: Quotient<EF>,
    multiplicity: F,
    denominator: EF,
) -> Quotient<EF>
    ensures numerator { result.numerator ≡ EF.ring.add (EF.ring.mul quotient.numerator denominator)
        (EF.ring.mul (EF.embed multiplicity) quotient.denominator) }
    ensures denominator { result.denominator ≡ EF.ring.mul quotient.denominator denominator }
{
    Quotient {
        numerator: quotient.numerator * denominator + quotient.denominator.scaled(multiplicity),
        denominator: quotient.denominator * denominator,
    }
}

/// `sum(flag * multiplicity)` over `1 + sum(flag * (denominator - 1))`. A tuple whose flag is zero adds
/// nothing, and only the others are read; a flag of 2 counts as 2.
fn exclusive_quotient<F: Field, EF: ExtensionField<F>>(
    columns: &[BranchColumns<F, EF>],
    index: usize,
) -> Quotient<EF>
    requires { (denominator : Key F → EF) × (flags : List F) × (messages : List (Message F))
        × StoreSelected F.ring denominator index columns.now flags messages }
    ensures { (denominator : List F → EF) (flags : List F) (messages : List (Message F))
        → StoreSelected F.ring (over_tuples denominator) index columns.now flags messages
        → IsQuotientOf ⟦<EF as Over<F>>⟧.fields denominator (Some flags) messages result }
{
    let mut numerator = F::ZERO;
    let mut denominator = EF::ONE;
    for branch in columns {
        let flag = branch.flags[index];
        if !flag.is_zero() {
            let at = branch.indices[index];
            numerator = numerator + flag * branch.multiplicities[at];
            denominator = denominator + (branch.denominators[at] - EF::ONE).scaled(flag);
        }
    }
    Quotient {
        numerator: EF::embed(numerator),
        denominator,
    }
}

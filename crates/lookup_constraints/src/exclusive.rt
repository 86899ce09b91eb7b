//! The numerator and the denominator of an exclusive lookup.
ghost use Rattle.std.specs.Prelude.{◌≡◌, IfOk, length};
ghost use Rattle.air_expressions.specs.Layout.{Fits};
ghost use Rattle.air_expressions.specs.Tree.{tree_of};
ghost use Rattle.lookup_constraints.specs.internal.Meanings.{Means, MeansOn, meaning_of};
ghost use Rattle.lookup_constraints.specs.internal.Quotients.{IsQuotient};
ghost use Rattle.lookup_constraints.specs.internal.Rows.{IsLookupRow};
ghost use Rattle.lookup_constraints.specs.internal.Selections.{AddsBranch, IsSelection, branch_sums, empty_selection, exclusive_meaning, plus_branch, selected_quotient, selection_meaning};
ghost use Rattle.lookup_model.specs.Records.{AllFit, HasEqualLengths};

use crate::quotient::Quotient;
use crate::row::{LookupRow, denominator, lift_expression};
use air_expressions::{BuilderView, Expression, PermutationAirBuilder, SymbolicExpression};
use field::{Field, Over, PrimeCharacteristicRing};
use std::alloc::{AllocError, Global};

/// The sums so far: of flag times multiplicity, of flag times denominator, and of the flags.
#[derive(Drop)]
struct Selection<E> {
    numerator: E,
    denominator: E,
    flags: E,
}

/// The sums over no branch.
fn empty_selection<K: Field, E: Expression<K>>() -> Selection<E>
    ensures { IsSelection (Means E.value E.degree) (empty_selection K.ring) result }
{
    Selection {
        numerator: E::constant(K::ZERO),
        denominator: E::constant(K::ZERO),
        flags: E::constant(K::ZERO),
    }
}

/// The sums with one more branch.
fn select<K: Field, E: Expression<K>>(
    alloc: Global,
    selection: Selection<E>,
    flag: E,
    numerator: E,
    denominator: E,
) -> Result<Selection<E>, AllocError>
    ensures { let of = meaning_of E.value E.degree in
        IfOk result (IsSelection (Means E.value E.degree) (plus_branch K.ring
        (selection_meaning of selection) (of flag) (of numerator) (of denominator))) }
{
    let selected_numerator = flag.copy(alloc)?.mul(alloc, numerator)?;
    let selected_denominator = flag.copy(alloc)?.mul(alloc, denominator)?;
    Ok(Selection {
        numerator: selection.numerator.add(alloc, selected_numerator)?,
        denominator: selection.denominator.add(alloc, selected_denominator)?,
        flags: selection.flags.add(alloc, flag)?,
    })
}

/// The quotient of the sums: zero over one if no flag is set.
fn selected_quotient<K: Field, E: Expression<K>>(
    alloc: Global,
    selection: Selection<E>,
) -> Result<Quotient<E>, AllocError>
    ensures numerator { IfOk result (λ r. r.numerator ≡ selection.numerator) }
    ensures means { IfOk result (IsQuotient (Means E.value E.degree)
        (selected_quotient K.ring (selection_meaning (meaning_of E.value E.degree) selection))) }
{
    let unselected = E::constant(K::ONE).sub(alloc, selection.flags)?;
    Ok(Quotient {
        numerator: selection.numerator,
        denominator: selection.denominator.add(alloc, unselected)?,
    })
}

/// The sums with one more tuple, under its flag.
fn add_branch<AB: PermutationAirBuilder>(
    alloc: Global,
    row: &LookupRow<'_, AB>,
    selection: Selection<AB::ExprEF>,
    flag: &SymbolicExpression<AB::F>,
    tuple: &[SymbolicExpression<AB::F>],
    multiplicity: &SymbolicExpression<AB::F>,
) -> Result<Selection<AB::ExprEF>, AllocError>
    requires row { IsLookupRow AB.AirBuilder AB.MainWindow.WindowAccess ⟦<AB as BuilderView>⟧
        ⟦<AB::EF as Over<AB::F>>⟧.fields row.now }
    requires flag_fits { Fits (AB.layout row.now.builder.now) (tree_of flag.now) }
    requires tuple_fits { AllFit (AB.layout row.now.builder.now) tuple.now }
    requires multiplicity_fits { Fits (AB.layout row.now.builder.now) (tree_of multiplicity.now) }
    ensures { IfOk result (AddsBranch ⟦<AB as BuilderView>⟧ ⟦<AB::EF as Over<AB::F>>⟧.fields
        row.now.builder.now row.now.lookup.now.column selection flag.now tuple.now
        multiplicity.now) }
{
    let denominator = denominator(alloc, row, tuple)?;
    let numerator = lift_expression(alloc, row, multiplicity)?;
    let flag = lift_expression(alloc, row, flag)?;
    select(alloc, selection, flag, numerator, denominator)
}

/// The sums over all tuples, under these flags.
fn branch_sums<AB: PermutationAirBuilder>(
    alloc: Global,
    row: &LookupRow<'_, AB>,
    flags: &[SymbolicExpression<AB::F>],
) -> Result<Selection<AB::ExprEF>, AllocError>
    requires row { IsLookupRow AB.AirBuilder AB.MainWindow.WindowAccess ⟦<AB as BuilderView>⟧
        ⟦<AB::EF as Over<AB::F>>⟧.fields row.now }
    requires lengths { HasEqualLengths row.now.lookup.now }
    requires flag_number { length flags.now ≡ length row.now.lookup.now.elements.items }
    requires flags_fit { AllFit (AB.layout row.now.builder.now) flags.now }
    ensures { IfOk result (IsSelection (MeansOn ⟦<AB as BuilderView>⟧ row.now.builder.now)
        (branch_sums ⟦<AB::EF as Over<AB::F>>⟧.fields row.now.lookup.now flags.now)) }
{
    let mut selection = empty_selection();
    for branch in 0..flags.len() {
        let flag = &flags[branch];
        let tuple = &row.lookup.elements[branch];
        let multiplicity = &row.lookup.multiplicities[branch];
        selection = add_branch(alloc, row, selection, flag, tuple, multiplicity)?;
    }
    Ok(selection)
}

/// The multiplicity over the denominator of the tuple whose flag is set, and zero over one if no
/// flag is set.
pub(crate) fn exclusive_quotient<AB: PermutationAirBuilder>(
    alloc: Global,
    row: &LookupRow<'_, AB>,
    flags: &[SymbolicExpression<AB::F>],
) -> Result<Quotient<AB::ExprEF>, AllocError>
    requires row { IsLookupRow AB.AirBuilder AB.MainWindow.WindowAccess ⟦<AB as BuilderView>⟧
        ⟦<AB::EF as Over<AB::F>>⟧.fields row.now }
    requires lengths { HasEqualLengths row.now.lookup.now }
    requires flag_number { length flags.now ≡ length row.now.lookup.now.elements.items }
    requires flags_fit { AllFit (AB.layout row.now.builder.now) flags.now }
    ensures { IfOk result (IsQuotient (MeansOn ⟦<AB as BuilderView>⟧ row.now.builder.now)
        (exclusive_meaning ⟦<AB::EF as Over<AB::F>>⟧.fields row.now.lookup.now flags.now)) }
{
    let selection = branch_sums(alloc, row, flags)?;
    selected_quotient(alloc, selection)
}
